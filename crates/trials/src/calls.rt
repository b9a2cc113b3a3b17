//! Calls of the kernel.

ghost use Rattle.std.specs.Prelude.{IsTrue};
ghost use Rattle.geos_kernel.specs.View.{IsLocked, MayChange};

use crate::Answer;
use crate::spans::{copy, length, span_call};
use geos_kernel::{Ask, Change, Kernel, Make, Refer};
use geos_terms::{Name, Owner};
use std::alloc::{AllocError, Global};
use trial_lines::{Line, Series};
use vm_file::Device;

/// What keeps a call from being made on a block that is not locked.
pub(crate) const NOT_LOCKED: &str = "not locked";

/// What keeps a block of the VM file from being changed.
pub(crate) const NOT_MARKED: &str = "not marked";

/// Whether the bytes of a block may be changed: where it is one of the VM file, it has to be marked.
pub(crate) fn may_change<D: Device + Drop>(kernel: &Kernel<D>, name: Name) -> bool
    ensures { IsTrue result → MayChange kernel.now.core name }
{
    match name.owner {
        Owner::Mem => true,
        Owner::Vm => kernel.marked(name.h),
    }
}

/// The name of the block of a line, and the word of its call: `vm_` before the word is for a block of a VM file.
pub(crate) fn block_of<'a>(line: &Line<'a>) -> (Name, &'a str) {
    let h = line.word_at(0);
    match line.word_behind("vm_") {
        Some(word) => (Name::vm(h), word),
        None => (Name::mem(h), line.word),
    }
}

/// Makes the call of a line on blocks of memory, on blocks of the VM file and on what is mapped.
pub(crate) fn call<D: Device + Drop>(kernel: &mut Kernel<D>, line: &Line<'_>) -> Answer {
    let [h, second, ..] = line.words();
    match line.word {
        "mnew" => kernel.mnew().into(),
        "mlock" => kernel.mlock(h).into(),
        "mfree" => kernel.mfree(h).into(),
        "vnew" => kernel.vnew(h).into(),
        "vlock" => kernel.vlock(h).into(),
        "vfree" => kernel.vfree(h).into(),
        "vfind" => kernel.vfind(h, second).into(),
        "vuid" => kernel.vuid(h).into(),
        "vgetmap" => Answer::Number(u32::from(kernel.vgetmap())),
        "vsetmap" => kernel.vsetmap(h).into(),
        "vupdate" | "vsave" | "vrevert" => commit(kernel, line.word),
        "marked" => kernel.marked(h).into(),
        "vm_unlocked" => kernel.vm_unlocked().into(),
        "is_sure" => kernel.is_sure().into(),
        _ => item_call(kernel, line),
    }
}

/// Makes the call of a line on a group or on an item.
fn item_call<D: Device + Drop>(kernel: &mut Kernel<D>, line: &Line<'_>) -> Answer {
    let [g, i, third, fourth, ..] = line.words();
    match line.word {
        "gnew" => kernel.gnew().into(),
        "gfree" => kernel.gfree(g).into(),
        "inew" => kernel.inew(g, i).into(),
        "ifree" => kernel.ifree(g, i).into(),
        "irealloc" => kernel.irealloc(g, i, third).into(),
        "iins" => kernel.iins(g, i, third, fourth).into(),
        "idel" => kernel.idel(g, i, third, fourth).into(),
        "ilock" => length(kernel.ilock(g, i, third)),
        "isetmap" => kernel.isetmap(g, i).into(),
        "vdirty" | "vunlock" | "idirty" | "iunlock" => lock_call(kernel, line.word, g),
        _ => named_call(kernel, line),
    }
}

/// Marks or unlocks a block or group that has to be locked.
fn lock_call<D: Device + Drop>(kernel: &mut Kernel<D>, word: &str, h: u16) -> Answer {
    let name = Name::vm(h);
    if kernel.locks(name) == 0 {
        return Answer::NotAsked(NOT_LOCKED);
    }
    match word {
        "vdirty" => kernel.vdirty(name),
        "vunlock" => kernel.vunlock(name),
        "idirty" => kernel.idirty(name),
        _ => kernel.iunlock(name),
    }
    Answer::Done
}

/// Commits the file, where none of its blocks is locked.
fn commit<D: Device + Drop>(kernel: &mut Kernel<D>, word: &str) -> Answer {
    if !kernel.vm_unlocked() {
        return Answer::NotAsked("a block of the file is locked");
    }
    match word {
        "vupdate" => kernel.vupdate().into(),
        "vsave" => kernel.vsave().into(),
        _ => kernel.vrevert().into(),
    }
}

/// Makes a call on a named block, where it is locked.
fn named_call<D: Device + Drop>(kernel: &mut Kernel<D>, line: &Line<'_>) -> Answer {
    let (name, word) = block_of(line);
    if word == "locks" {
        return Answer::Number(u32::from(kernel.locks(name)));
    }
    if kernel.locks(name) == 0 {
        return Answer::NotAsked(NOT_LOCKED);
    }
    locked_call(kernel, name, word, line)
}

/// Makes a call on a locked block.
fn locked_call<D: Device + Drop>(
    kernel: &mut Kernel<D>,
    name: Name,
    word: &str,
    line: &Line<'_>,
) -> Answer
    requires { IsLocked kernel.old.core name }
{
    let [_, c, n, third, ..] = line.words();
    match word {
        "munlock" => {
            kernel.munlock(name);
            Answer::Done
        }
        "lsize" => kernel.ask(name, Ask::Lsize { c }).into(),
        "cacount" => kernel.ask(name, Ask::Cacount { c }).into(),
        "deref" => length(kernel.refer(name, Refer::Deref { c, n })),
        "caelt" => length(kernel.refer(name, Refer::Caelt { c, i: n, n: third })),
        "load8"
        | "load16"
        | "store8"
        | "store16"
        | "caelt_load8"
        | "caelt_load16"
        | "caelt_store8"
        | "caelt_store16" => span_call(kernel, name, word, line),
        _ if may_change(kernel, name) => change(kernel, name, word, [c, n, third]),
        _ => Answer::NotAsked(NOT_MARKED),
    }
}

/// Makes a call that changes a locked block.
fn change<D: Device + Drop>(
    kernel: &mut Kernel<D>,
    name: Name,
    word: &str,
    numbers: [u16; 3],
) -> Answer
    requires locked { IsLocked kernel.old.core name }
    requires marked { MayChange kernel.old.core name }
{
    let [c, at, n] = numbers;
    let i = at;
    let change = match word {
        "lalloc" => return kernel.make_chunk(name, Make::Lalloc { n: c }).into(),
        "canew" => return kernel
            .make_chunk(name, Make::Canew { element_size: c })
            .into(),
        "copy" => return copy(kernel, name, numbers).into(),
        "lfree" => Change::Lfree { c },
        "lrealloc" => Change::Lrealloc { c, n: at },
        "lins" => Change::Lins { c, at, n },
        "ldel" => Change::Ldel { c, at, n },
        "lcontract" => Change::Lcontract,
        "caadd" => Change::Caadd { c, n: at },
        "cains" => Change::Cains { c, i, n },
        "cadel" => Change::Cadel { c, i },
        "cazero" => Change::Cazero { c },
        "caresize" => Change::Caresize { c, i, n },
        _ => return Answer::NotACall,
    };
    kernel.change(name, change).into()
}

/// Makes blocks, which should get the handles `from` to `to`, and a chunk of `n` bytes in each block of these handles. Tells how the
/// answers to `mnew` run, and those to `lalloc`.
pub(crate) fn fill<D: Device + Drop>(
    alloc: Global,
    kernel: &mut Kernel<D>,
    line: &Line<'_>,
) -> Result<Answer, AllocError> {
    let [from, to, n, ..] = line.words();
    let mut handles = Series::new(alloc);
    let mut chunks = Series::new(alloc);
    for h in from..=to {
        handles.add(kernel.mnew().into())?;
        chunks.add(alloc_in(kernel, h, n))?;
    }
    let text = format!(in alloc; "handles {handles}; chunks {chunks}")?;
    Ok(Answer::Text(text))
}

/// Makes a chunk in a block of global memory, where it is locked.
fn alloc_in<D: Device + Drop>(kernel: &mut Kernel<D>, h: u16, n: u16) -> Answer {
    let name = Name::mem(h);
    if kernel.locks(name) == 0 {
        return Answer::NotAsked(NOT_LOCKED);
    }
    kernel.lalloc(name, n).into()
}
