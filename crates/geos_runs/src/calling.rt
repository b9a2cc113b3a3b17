//! What is done on a kernel: on that of a VM file of the system, or of one in memory.

ghost use Rattle.vm_blocks.specs.Listed.{NoneLocked};
ghost use Rattle.geos_shell.specs.Limits.{IsRegion};

use crate::MOST_READ;
use crate::bad_lines::Script;
use crate::chunks::{put_on, read_for};
use crate::comparing::run_script;
use crate::ending::ended;
use crate::fault::RunFault;
use crate::manner::{Manner, run_call_on};
use crate::tracing::{Traceable, trace_on};
use geos_cli::ScriptFault;
use geos_files::{Locked, opened, wait_for};
use geos_kernel::{Kernel, kernel_in_memory};
use geos_shell::{
    CallWords, Lockable, PutRequest, Room, STANDARD, Sharing, StreamFault, TraceWords, read,
};
use vm_file::{Device, FileDevice, VmFile};

/// The routines of an image, and how they run.
#[derive(Clone, Copy)]
pub(crate) struct Routines<'r> {
    pub(crate) manner: &'r Manner,
    /// The bytes of the image.
    pub(crate) image: &'r [u8],
}

/// What is done on a kernel.
#[derive(Clone, Copy)]
pub(crate) enum Task<'t, 'a> {
    /// A routine is called.
    Call(Routines<'t>, &'t CallWords<'a>),
    /// The script with the path runs.
    Script(Routines<'t>, &'a str),
    /// A call is traced.
    Trace(&'t TraceWords<'a>, &'t Traceable<'t>),
    /// A chunk is written.
    Put(&'t PutRequest<'a>),
}

/// A task, and the bytes that were read for it.
#[derive(Clone, Copy)]
struct Job<'j, 'a> {
    task: Task<'j, 'a>,
    input: &'j [u8],
}

impl<'a> Job<'_, 'a> {
    /// Does it on a kernel of whose VM file no block is locked.
    fn run<D: Device + Drop>(
        &self,
        rt: &HostRuntime,
        kernel: &mut Kernel<D>,
    ) -> Result<(), RunFault<'a>>
        requires { NoneLocked kernel.old.core.blocks }
    {
        let room = self.task.room();
        kernel.limit(room.bytes);
        kernel.limit_handles(room.handles);
        match &self.task {
            Task::Call(routines, call) => run_call_on(rt, routines, *call, kernel),
            Task::Script(routines, path) => {
                let script = Script {
                    path: *path,
                    bytes: self.input,
                    image: routines.image,
                };
                run_script(rt, routines.manner, &script, kernel)
            }
            Task::Trace(words, traceable) => trace_on(rt, *words, *traceable, kernel),
            Task::Put(request) => put_on(rt, *request, self.input, kernel),
        }
    }

    /// Does it on a new VM file in memory, with so many bytes for blocks in memory.
    fn run_in_memory(&self, rt: &HostRuntime, region: u32) -> Result<(), RunFault<'a>>
        requires { IsRegion region }
    {
        match kernel_in_memory(rt.alloc(), region) {
            Ok(mut kernel) => self.run(rt, &mut kernel),
            Err(_) => Err(RunFault::Session(ScriptFault::Memory)),
        }
    }

    /// Does it on the open VM file with the path, with so many bytes for blocks in memory.
    fn run_on(
        &self,
        rt: &HostRuntime,
        path: &str,
        region: u32,
        file: VmFile<FileDevice>,
    ) -> Result<(), RunFault<'a>>
        requires { IsRegion region }
    {
        let Ok(mut kernel) = Kernel::new(rt.alloc(), region, file) else {
            return Err(RunFault::Session(ScriptFault::Memory));
        };
        let done = self.run(rt, &mut kernel);
        match self.task.manner() {
            Some(manner) => ended(rt, manner, path, &mut kernel, done),
            None => done,
        }
    }
}

impl<'t, 'a> Task<'t, 'a> {
    /// How its routines run, if what they change may be committed at the end.
    fn manner(&self) -> Option<&'t Manner> {
        match self {
            Task::Call(routines, _) | Task::Script(routines, _) => Some(routines.manner),
            Task::Trace(_, _) | Task::Put(_) => None,
        }
    }

    /// What blocks in memory may take. What is put has no limit.
    fn room(&self) -> Room {
        match self {
            Task::Call(routines, _) | Task::Script(routines, _) => routines.manner.room,
            Task::Trace(_, traceable) => traceable.room,
            Task::Put(_) => Room {
                bytes: u32::MAX,
                handles: 1_024,
            },
        }
    }

    /// The bytes of the script, or what is put.
    fn read(&self, rt: &HostRuntime) -> Result<Vec<u8>, StreamFault<'a>> {
        match self {
            Task::Call(_, _) | Task::Trace(_, _) => Ok(Vec::new(rt.alloc())),
            Task::Script(_, path) => read(rt, *path, MOST_READ),
            Task::Put(request) => read_for(rt, *request),
        }
    }

    /// Does it on a new VM file in memory, with so many bytes for blocks in memory.
    fn run_in_memory(&self, rt: &HostRuntime, region: u32) -> Result<(), RunFault<'a>>
        requires { IsRegion region }
    {
        match self.read(rt) {
            Ok(input) => Job {
                task: *self,
                input: &input,
            }
            .run_in_memory(rt, region),
            Err(fault) => Err(RunFault::Stream(fault)),
        }
    }

    /// Does it on a VM file that is open. It waits for the file's lock after it has read what it needs. So it keeps the file from nobody
    /// who is still writing that. It reads the file under the lock, and reports a fault of the file before a fault of what was read.
    fn run_alone(
        &self,
        rt: &HostRuntime,
        path: &'a str,
        region: u32,
        file: Lockable<'a>,
    ) -> Result<(), RunFault<'a>>
        requires { IsRegion region }
    {
        let input = self.read(rt);
        let Locked {
            device,
            lock: _lock,
        } = match wait_for(rt, file) {
            Ok(locked) => locked,
            Err(fault) => return Err(RunFault::Stream(fault)),
        };
        let file = match opened(rt, path, device) {
            Ok(file) => file,
            Err(fault) => return Err(RunFault::File(fault)),
        };
        match input {
            Ok(input) => Job {
                task: *self,
                input: &input,
            }
            .run_on(rt, path, region, file),
            Err(fault) => Err(RunFault::Stream(fault)),
        }
    }

    /// Does it on the VM file with the path, with so many bytes for blocks in memory.
    pub(crate) fn run_on_file(
        &self,
        rt: &HostRuntime,
        path: &'a str,
        region: u32,
    ) -> Result<(), RunFault<'a>>
        requires { IsRegion region }
    {
        match Lockable::open(rt, path, Sharing::Alone) {
            Ok(file) => self.run_alone(rt, path, region, file),
            Err(fault) => Err(RunFault::Stream(fault)),
        }
    }

    /// Does it on the VM file with the path, or without a path on a new one in memory.
    pub(crate) fn run(
        &self,
        rt: &HostRuntime,
        file: Option<&'a str>,
        region: u32,
    ) -> Result<(), RunFault<'a>>
        requires { IsRegion region }
    {
        match file {
            Some(path) => self.run_on_file(rt, path, region),
            None => self.run_in_memory(rt, region),
        }
    }
}

/// Runs one call of the routines of an image; without a call it reads the standard input and runs that script. It runs on the VM file with
/// the path `file`, or without a path on a new one in memory. `region` is the number of bytes for blocks in memory.
pub fn call<'a>(
    rt: &HostRuntime,
    manner: &Manner,
    image: &[u8],
    call: Option<CallWords<'a>>,
    file: Option<&'a str>,
    region: u32,
) -> Result<(), RunFault<'a>>
    requires { IsRegion region }
{
    let routines = Routines { manner, image };
    match &call {
        Some(call) => Task::Call(routines, call).run(rt, file, region),
        None => Task::Script(routines, STANDARD).run(rt, file, region),
    }
}
