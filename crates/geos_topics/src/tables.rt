//! What is said of instructions, rules, refusals and faults. Made by tools/topics.py from the documents.

/// What is said of each instruction. An entry begins with the instruction's name; an empty line is between two.
pub(crate) const INSTRUCTIONS: &str = "\
LDI wa n
wa = n.
Example: LDI w2 0    (in examples/accounts.asm)

MOV wa wb
wa = wb.
Example: MOV w5 w4    (in examples/index.asm)

ADD wa wb wc
wa = wb + wc, modulo 65,536.
Example: ADD w5 w5 w2    (in examples/accounts.asm)

SUB wa wb wc
wa = wb - wc, modulo 65,536.
Example: SUB w4 w4 w2    (in examples/accounts.asm)

AND wa wb n
wa = wb and n, bit by bit.

SHR wa wb n
wa = wb / 2^n, rounded down; n is 0 to 15.
Example: SHR w6 w6 1    (in examples/index.asm)

MULI wa wb n
wa = wb * n, modulo 65,536.
Example: MULI w3 w0 2    (in examples/notes.asm)

CHK wa n L
jumps to L if wa is above n.
Example: CHK w3 100 both    (in examples/line.asm)

JMP L
jumps to L.
Example: JMP not_made    (in examples/accounts.asm)

BEQ wa wb L
jumps to L if wa is equal to wb.
Example: BEQ w3 w2 make    (in examples/accounts.asm)

BLT wa wb L
jumps to L if wa is below wb.
Example: BLT w4 w2 both    (in examples/accounts.asm)

SETK ka n
ka = n.
Example: SETK k0 19    (in examples/accounts.asm)

SETKW ka wb
ka = wb.
Example: SETKW k0 w3    (in examples/line.asm)

LOOP ka L
if ka is above 0, subtracts 1 from ka and jumps to L.
Example: LOOP k0 next    (in examples/accounts.asm)

CALL n
calls routine n of the image.
Example: CALL double    (in examples/call.asm)

RET
returns; the outermost return ends the run.
Example: RET    (in examples/accounts.asm)

OUT wa L
outputs wa.
It is refused, with the number in w7, and control goes to L: 10 (the output is full).
Example: OUT w7 open_end    (in examples/accounts.asm)

MNEW sa wb L
makes a block, and locks it into sa; wb = its handle.
It is refused, with the number in w7, and control goes to L: 5 (all 1,024 handles are in
use, or for MNEW all up to the host's limit); 4 (no room in the region).
Example: MNEW s0 w0 e    (in examples/heap.asm)

MLOCK sa wb L
locks the block wb into sa.
It is refused, with the number in w7, and control goes to L: 1 (no block has this handle, or
the block is no group and a group is required); 7 (the block is locked, or has 65,535
locks).
Example: MLOCK s0 w0 enter_end    (in examples/index.asm)

MUNLOCK sa
unlocks the block of sa, and empties sa.
Example: MUNLOCK s0    (in examples/heap.asm)

MFREE wa L
frees the block wa.
It is refused, with the number in w7, and control goes to L: 1 (no block has this handle, or
the block is no group and a group is required); 7 (the block is locked, or has 65,535
locks).
Example: MFREE w0 not_made    (in examples/line.asm)

SNE sa sb L
jumps to L if sa and sb contain the same block.
Example: SNE s0 s1 both    (in examples/accounts.asm)

LALLOC sa wb wc L
wb = a new chunk of wc zero bytes. It moves the chunks of the block: pointers to them become
stale.
It is refused, with the number in w7, and control goes to L: 6 (the block would need more
than 65,520 bytes, or the commit more than an area of the file); 4 (no room in the region).
Example: LALLOC s0 w5 w4 undo    (in examples/accounts.asm)

LFREE sa wb L
frees the chunk wb. It moves the chunks of the block: pointers to them become stale.
It is refused, with the number in w7, and control goes to L: 2 (no chunk has this handle).

LREALLOC sa wb wc L
resizes the chunk wb to wc bytes. It moves the chunks of the block: pointers to them become
stale.
It is refused, with the number in w7, and control goes to L: 2 (no chunk has this handle); 6
(the block would need more than 65,520 bytes, or the commit more than an area of the file);
4 (no room in the region).
Example: LREALLOC s0 w2 w1 cut_done    (in examples/line.asm)

LINS sa wb wc wd L
inserts wd zero bytes at wc of the chunk wb. It moves the chunks of the block: pointers to
them become stale.
It is refused, with the number in w7, and control goes to L: 2 (no chunk has this handle);
14 (the offset or bytes lie past the end of the chunk, or of the pointer's bytes; or a map
item other than 0 has no group); 6 (the block would need more than 65,520 bytes, or the
commit more than an area of the file); 4 (no room in the region).
Example: LINS s0 w1 w2 w3 insert_end    (in examples/lend.asm)

LDEL sa wb wc wd L
deletes the wd bytes at wc of the chunk wb. It moves the chunks of the block: pointers to
them become stale.
It is refused, with the number in w7, and control goes to L: 2 (no chunk has this handle);
14 (the offset or bytes lie past the end of the chunk, or of the pointer's bytes; or a map
item other than 0 has no group).
Example: LDEL s0 w3 w1 w2 still_there    (in examples/line.asm)

LSIZE sa wb wc L
wb = the length of the chunk wc.
It is refused, with the number in w7, and control goes to L: 2 (no chunk has this handle).
Example: LSIZE s0 w4 w2 both    (in examples/line.asm)

DEREF sa pb wc n L
pb = the chunk wc, of at least n bytes.
It is refused, with the number in w7, and control goes to L: 2 (no chunk has this handle); 3
(the chunk or element is shorter than requested).
Example: DEREF s0 p0 w5 2 undo    (in examples/accounts.asm)

LCONTRACT sa
moves the chunks together: at most one free chunk remains, at the block's end. It moves the
chunks of the block: pointers to them become stale.

LDB wa pb n
wa = the byte at n of pb.

LDW wa pb n
wa = the word at n of pb.
Example: LDW w4 p0 0    (in examples/accounts.asm)

STB wa pb n
the byte at n of pb = the low byte of wa.

STW wa pb n
the word at n of pb = wa.
Example: STW w1 p0 0    (in examples/accounts.asm)

LDXB wa pb wc
wa = the byte at wc of pb; the verifier requires that this byte lies within pb.

LDXW wa pb wc
wa = the word at wc of pb; the verifier requires that this word lies within pb.

STXB wa pb wc
the byte at wc of pb = the low byte of wa; the verifier requires that this byte lies within
pb.

STXW wa pb wc
the word at wc of pb = wa; the verifier requires that this word lies within pb.

LDCB wa pb wc L
wa = the byte at wc of pb; the index is tested at run time.
It is refused, with the number in w7, and control goes to L: 14 (the offset or bytes lie
past the end of the chunk, or of the pointer's bytes; or a map item other than 0 has no
group).
Example: LDCB w1 p1 w5 both    (in examples/line.asm)

LDCW wa pb wc L
wa = the word at wc of pb; the index is tested at run time.
It is refused, with the number in w7, and control goes to L: 14 (the offset or bytes lie
past the end of the chunk, or of the pointer's bytes; or a map item other than 0 has no
group).
Example: LDCW w6 p0 w5 next    (in examples/index.asm)

STCB wa pb wc L
the byte at wc of pb = the low byte of wa; the index is tested at run time.
It is refused, with the number in w7, and control goes to L: 14 (the offset or bytes lie
past the end of the chunk, or of the pointer's bytes; or a map item other than 0 has no
group).
Example: STCB w2 p0 w1 unlock    (in examples/line.asm)

STCW wa pb wc L
the word at wc of pb = wa; the index is tested at run time.
It is refused, with the number in w7, and control goes to L: 14 (the offset or bytes lie
past the end of the chunk, or of the pointer's bytes; or a map item other than 0 has no
group).
Example: STCW w3 p0 w5 unlock    (in examples/index.asm)

MOVP pa pb
pa = pb.

COPY pa pb n
copies the first n bytes of pb to pa; the bytes may overlap.
Example: COPY p0 p1 2    (in examples/lend.asm)

PLEN wa pb
wa = the length of pb in bytes.
Example: PLEN w5 p0    (in examples/index.asm)

CANEW sa wb n L
wb = a new chunk with an empty array; elements have n bytes, or varying sizes if n is 0. It
moves the chunks of the block: pointers to them become stale.
It is refused, with the number in w7, and control goes to L: 6 (the block would need more
than 65,520 bytes, or the commit more than an area of the file); 4 (no room in the region).
Example: CANEW s0 w1 0 made    (in examples/index.asm)

CAADD sa wb wc L
appends an element of wc zero bytes to the array wb. It moves the chunks of the block:
pointers to them become stale.
It is refused, with the number in w7, and control goes to L: 2 (no chunk has this handle); 8
(the chunk's bytes are no array, or an array whose elements can't be resized); 6 (the block
would need more than 65,520 bytes, or the commit more than an area of the file); 4 (no room
in the region).
Example: CAADD s0 w1 w2 added    (in examples/records.asm)

CAINS sa wb wc wd L
inserts an element of wd zero bytes at index wc of the array wb; wc is at most the count. It
moves the chunks of the block: pointers to them become stale.
It is refused, with the number in w7, and control goes to L: 2 (no chunk has this handle); 8
(the chunk's bytes are no array, or an array whose elements can't be resized); 9 (the index
is too high for the array); 6 (the block would need more than 65,520 bytes, or the commit
more than an area of the file); 4 (no room in the region).
Example: CAINS s0 w1 w4 w6 unlock    (in examples/index.asm)

CADEL sa wb wc L
deletes element wc of the array wb. It moves the chunks of the block: pointers to them
become stale.
It is refused, with the number in w7, and control goes to L: 2 (no chunk has this handle); 8
(the chunk's bytes are no array, or an array whose elements can't be resized); 9 (the index
is too high for the array).
Example: CADEL s0 w1 w2 x    (in examples/records.asm)

CACOUNT sa wb wc L
wb = the count of elements of the array wc.
It is refused, with the number in w7, and control goes to L: 2 (no chunk has this handle); 8
(the chunk's bytes are no array, or an array whose elements can't be resized).
Example: CACOUNT s0 w4 w1 added    (in examples/records.asm)

CAELT sa pb wc wd n L
pb = element wd of the array wc, of at least n bytes.
It is refused, with the number in w7, and control goes to L: 2 (no chunk has this handle); 8
(the chunk's bytes are no array, or an array whose elements can't be resized); 9 (the index
is too high for the array); 3 (the chunk or element is shorter than requested).
Example: CAELT s0 p0 w1 w4 2 place    (in examples/index.asm)

CAZERO sa wb L
deletes all elements of the array wb; the element size does not change. It moves the chunks
of the block: pointers to them become stale.
It is refused, with the number in w7, and control goes to L: 2 (no chunk has this handle); 8
(the chunk's bytes are no array, or an array whose elements can't be resized).
Example: CAZERO s0 w1 cleared    (in examples/index.asm)

CARESIZE sa wb wc wd L
resizes element wc of the array wb to wd bytes. It moves the chunks of the block: pointers
to them become stale.
It is refused, with the number in w7, and control goes to L: 2 (no chunk has this handle); 8
(the chunk's bytes are no array, or an array whose elements can't be resized); 9 (the index
is too high for the array); 6 (the block would need more than 65,520 bytes, or the commit
more than an area of the file); 4 (no room in the region).
Example: CARESIZE s0 w1 w4 w6 unlock    (in examples/index.asm)

VNEW sa wb wc L
makes a marked block of the file with user ID wc, and locks it into sa; wb = its handle.
It is refused, with the number in w7, and control goes to L: 15 (the user ID is 65,280
(groups), or a group is named instead of a block); 5 (all 1,024 handles are in use, or for
MNEW all up to the host's limit); 4 (no room in the region).
Example: VNEW s0 w3 w0 not_made    (in examples/accounts.asm)

VLOCK sa wb L
locks the file's block wb into sa.
It is refused, with the number in w7, and control goes to L: 1 (no block has this handle, or
the block is no group and a group is required); 15 (the user ID is 65,280 (groups), or a
group is named instead of a block); 7 (the block is locked, or has 65,535 locks); 4 (no room
in the region); 11 (the device failed).
Example: VLOCK s0 w4 none    (in examples/accounts.asm)

VDIRTY sa
marks the block of sa.
Example: VDIRTY s0    (in examples/accounts.asm)

VUNLOCK sa
unlocks the block of sa, and empties sa.
Example: VUNLOCK s0    (in examples/accounts.asm)

VFREE wa L
frees the file's block wa; if it is the map block, there is no map block afterwards.
It is refused, with the number in w7, and control goes to L: 1 (no block has this handle, or
the block is no group and a group is required); 15 (the user ID is 65,280 (groups), or a
group is named instead of a block); 7 (the block is locked, or has 65,535 locks).
Example: VFREE w3 not_made    (in examples/accounts.asm)

VFIND wa wb wc L
wa = the lowest handle above wb of a block with user ID wc, or 0.
It is refused, with the number in w7, and control goes to L: 15 (the user ID is 65,280
(groups), or a group is named instead of a block).
Example: VFIND w3 w2 w0 not_made    (in examples/accounts.asm)

VUID wa wb L
wa = the user ID of the file's block or group wb.
It is refused, with the number in w7, and control goes to L: 1 (no block has this handle, or
the block is no group and a group is required).
Example: VUID w3 w0 next_one    (in examples/accounts.asm)

VGETMAP wa
wa = the map block, or 0.
Example: VGETMAP w0    (in examples/counter.asm)

VSETMAP wa L
makes the file's block wa the map block; 0 means no map block.
It is refused, with the number in w7, and control goes to L: 1 (no block has this handle, or
the block is no group and a group is required); 15 (the user ID is 65,280 (groups), or a
group is named instead of a block).
Example: VSETMAP w0 undo    (in examples/counter.asm)

VUPDATE L
commits the current blocks; the saved blocks do not change.
It is refused, with the number in w7, and control goes to L: 12 (an earlier commit failed at
or after its write of the selector, so it is unknown which state the device has; nothing
more is written to the device); 6 (the block would need more than 65,520 bytes, or the
commit more than an area of the file); 13 (memory for writing the file was refused); 11 (the
device failed).

VSAVE L
commits the current blocks, and makes them the saved blocks too.
It is refused, with the number in w7, and control goes to L: 12 (an earlier commit failed at
or after its write of the selector, so it is unknown which state the device has; nothing
more is written to the device); 6 (the block would need more than 65,520 bytes, or the
commit more than an area of the file); 13 (memory for writing the file was refused); 11 (the
device failed).
Example: VSAVE not_saved    (in examples/accounts.asm)

VREVERT L
commits the saved blocks, and makes them the current blocks again.
It is refused, with the number in w7, and control goes to L: 12 (an earlier commit failed at
or after its write of the selector, so it is unknown which state the device has; nothing
more is written to the device); 6 (the block would need more than 65,520 bytes, or the
commit more than an area of the file); 13 (memory for writing the file was refused); 11 (the
device failed).
Example: VREVERT not_made    (in examples/accounts.asm)

GNEW wa L
makes a group, marked and not locked; wa = its handle.
It is refused, with the number in w7, and control goes to L: 5 (all 1,024 handles are in
use, or for MNEW all up to the host's limit); 4 (no room in the region).
Example: GNEW w0 not_made    (in examples/notes.asm)

GFREE wa L
frees the group wa; if the map item is in it, there is no map item afterwards.
It is refused, with the number in w7, and control goes to L: 1 (no block has this handle, or
the block is no group and a group is required); 7 (the block is locked, or has 65,535
locks).
Example: GFREE w0 not_made    (in examples/notes.asm)

INEW wa wb wc L
wa = a new item of wc zero bytes in the group wb. It moves the items of the group: pointers
to them become stale.
It is refused, with the number in w7, and control goes to L: 1 (no block has this handle, or
the block is no group and a group is required); 4 (no room in the region); 11 (the device
failed); 6 (the block would need more than 65,520 bytes, or the commit more than an area of
the file).
Example: INEW w1 w0 w2 undo_open    (in examples/notes.asm)

IFREE wa wb L
frees the item wb of the group wa. It moves the items of the group: pointers to them become
stale.
It is refused, with the number in w7, and control goes to L: 1 (no block has this handle, or
the block is no group and a group is required); 4 (no room in the region); 11 (the device
failed); 2 (no chunk has this handle).
Example: IFREE w2 w5 unlock    (in examples/notes.asm)

IREALLOC wa wb wc L
resizes the item wb of the group wa to wc bytes. It moves the items of the group: pointers
to them become stale.
It is refused, with the number in w7, and control goes to L: 1 (no block has this handle, or
the block is no group and a group is required); 4 (no room in the region); 11 (the device
failed); 2 (no chunk has this handle); 6 (the block would need more than 65,520 bytes, or
the commit more than an area of the file).

IINS wa wb wc wd L
inserts wd zero bytes at wc of the item wb of the group wa. It moves the items of the group:
pointers to them become stale.
It is refused, with the number in w7, and control goes to L: 1 (no block has this handle, or
the block is no group and a group is required); 4 (no room in the region); 11 (the device
failed); 2 (no chunk has this handle); 14 (the offset or bytes lie past the end of the
chunk, or of the pointer's bytes; or a map item other than 0 has no group); 6 (the block
would need more than 65,520 bytes, or the commit more than an area of the file).
Example: IINS w2 w3 w4 w6 undo    (in examples/notes.asm)

IDEL wa wb wc wd L
deletes the wd bytes at wc of the item wb of the group wa. It moves the items of the group:
pointers to them become stale.
It is refused, with the number in w7, and control goes to L: 1 (no block has this handle, or
the block is no group and a group is required); 4 (no room in the region); 11 (the device
failed); 2 (no chunk has this handle); 14 (the offset or bytes lie past the end of the
chunk, or of the pointer's bytes; or a map item other than 0 has no group).
Example: IDEL w1 w2 w3 w5 kept    (in examples/notes.asm)

ILOCK sa pb wc wd n L
locks the group wc into sa; pb = its item wd, of at least n bytes.
It is refused, with the number in w7, and control goes to L: 1 (no block has this handle, or
the block is no group and a group is required); 7 (the block is locked, or has 65,535
locks); 4 (no room in the region); 11 (the device failed); 2 (no chunk has this handle); 3
(the chunk or element is shorter than requested).
Example: ILOCK s0 p0 w2 w3 0 not_added    (in examples/notes.asm)

IDIRTY sa
marks the group of sa.
Example: IDIRTY s0    (in examples/notes.asm)

IUNLOCK sa
unlocks the group of sa, and empties sa.
Example: IUNLOCK s0    (in examples/notes.asm)

IGETMAP wa wb
wa = the map item's group, then wb = the map item; both are 0 if there is none.
Example: IGETMAP w0 w1    (in examples/notes.asm)

ISETMAP wa wb L
makes the item wb of the group wa the map item, whether this item exists or not; 0 and 0
mean no map item.
It is refused, with the number in w7, and control goes to L: 1 (no block has this handle, or
the block is no group and a group is required); 14 (the offset or bytes lie past the end of
the chunk, or of the pointer's bytes; or a map item other than 0 has no group).
Example: ISETMAP w0 w1 undo_open    (in examples/notes.asm)";

/// What is said of each rule of the verifier, each refusal, and each fault of a text.
pub(crate) const OTHERS: &str = "\
V1 LeavesRoutine
It refuses: a branch or the fall-through leaves the routine.
Example: line 11 is outside of this routine: name a label of this routine, or CALL the other
one

V2 NamesEmptySlot
It refuses: a pointer of the row leads into an empty slot.
Example: p0=s0:4 leads into an empty slot: lock a block into the slot first, or say in the
in line what the slot has

V3 EntryMisfit
It refuses: the entry row does not imply the row of the first pc; or the routine is public,
and its entry or exit row breaks a condition for public routines.
Example: a public routine begins and ends with empty or borrowed slots and stale pointers;
s0=mem in the in line is not borrowed: lock the block in this routine, or omit public
Cure: in a public routine `in` and `out` have no pointers, and only borrowed slots: `vm@` in
`in` without `#`, and the same, marked or not, in `out`.

V4 StalePointer
It refuses: a stale pointer is read, written, measured or copied (by MOVP too).
Example: p0 may be stale here; LFREE at line 14 may have moved its chunk: fetch p0 again
Cure: after an instruction on an item, fetch pointers into every group again. If several
paths lead to a label, fetch after it.

V5 PassesEnd
It refuses: a read or a write may exceed the least length of its pointer.
Example: w0<=7 is required, since 8 bytes are known at p0, and nothing is known of w0; CHK
w0 7 L before this bounds it, or LDCB tests it
Cure: AND also bounds an index.

V6 ChangesUnmarked
It refuses: a write through a pointer, or an instruction that moves the chunks of the block,
changes a VM block or DB group in a slot, and the row does not say that this block is
marked.
Example: s0=vm is changed here, and may not be marked: VDIRTY s0 before this marks it

V7 LocksIntoHeld
It refuses: a block is locked into a slot that is not empty.
Example: s0=mem is locked here, and an empty slot is required: use another slot, or MUNLOCK
s0 first

V8 WrongSlot
It refuses: an instruction other than a lock uses a slot that is empty or has a block of the
wrong kind; or an instruction unlocks a borrowed slot. SNE requires two blocks of the same
kind.
Example: s0 is empty here, and a locked block is required: lock one into s0 first, or say s0
in the in line
Cure: lock a block into the slot on each path; leave borrowed blocks to the caller.

V9 CommitsHeld
It refuses: VUPDATE, VSAVE or VREVERT is used while a slot contains a VM block or a DB
group.
Example: s0=vm is locked where the file is written: unlock it before; s0 is locked since the
in line: unlock it in the caller

V10 CallMisfit
It refuses: the callee of a CALL does not come before the calling routine, or the row at the
CALL does not imply the callee's entry row.
Example: s0=vm is required by v9, and not known here; first lock a block into s0
Cure: before the CALL, lock, fetch, bound or compare what the callee's `in` names. Empty the
slots that the callee locks itself.

V11 ExitMisfit
It refuses: the row at a RET does not imply the routine's exit row.
Example: s0=mem is still locked at the return; s0 is locked since line 45: say it in the out
line, or MUNLOCK s0 before the return

V12 EdgeMisfit
It refuses: the row after an instruction does not imply the row of the instruction to which
an edge leads.
Example: s0=mem is required at line 52, and not known here; no path leads here: take it out

V13 EdgeUnpaid
It refuses: an edge is not paid for.
Example: 4 steps are required from here, and 2 are left
Cure: put a LOOP on each cycle.

V14 OverBudget
It refuses: at the first pc of a routine, the potential has a constant above the budget, or
a coefficient above 0.
Example: 2 steps are required from the start of v14, and the budget is 1: the least budget
is 2

refused 1 BadHandle
no block has this handle, or the block is no group and a group is required.

refused 2 BadChunk
no chunk has this handle.

refused 3 Short
the chunk or element is shorter than requested.

refused 4 NoRoom
no room in the region.

refused 5 NoHandle
all 1,024 handles are in use, or for MNEW all up to the host's limit.

refused 6 TooBig
the block would need more than 65,520 bytes, or the commit more than an area of the file.

refused 7 Locked
the block is locked, or has 65,535 locks.

refused 8 BadArray
the chunk's bytes are no array, or an array whose elements can't be resized.

refused 9 BadElement
the index is too high for the array.

refused 10 Full
the output is full.

refused 11 Disk
the device failed.

refused 12 Unsure
an earlier commit failed at or after its write of the selector, so it is unknown which state
the device has; nothing more is written to the device.

refused 13 Memory
memory for writing the file was refused.

refused 14 Range
the offset or bytes lie past the end of the chunk, or of the pointer's bytes; or a map item
other than 0 has no group.

refused 15 Reserved
the user ID is 65,280 (groups), or a group is named instead of a block.

why 1 UnknownWord
the first word after the labels is no instruction, and none of `routine`, `in`, `out`.

why 2 WrongOperands
the number of operands is wrong, or an operand has a wrong form, as `9x`, `-1`, `0x1`, `w8`,
`w01` or `s1#s1`.

why 3 OutOfRange
a number exceeds its range: 15 for SHR, 4,294,967,295 for a budget, 65,535 for others.

why 4 Undefined
no label, or no routine, has the name.

why 5 UsedTwice
an earlier label, or routine, has the name.

why 6 TooMany
this is the 33rd routine or the 4,097th instruction; or, at line 1, the text is too long.

why 7 OutOfPlace
a line `in` or `out` is the second of its routine, or is not between `routine` and the first
instruction. An instruction comes before any routine. A routine has no instruction (at its
first line). A label comes before `routine`, `in`, `out` or the end of the text (at the
label's line). A text has no routine (at line 1).";
