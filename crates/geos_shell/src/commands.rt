//! The arguments and options of each command, and what its help says after them.
//!
//! A text for each command: a line with its name and what it does, then a line for each argument, and after a blank line the rest of
//! its help. The line of an argument begins with its kind and its name, and its description follows after a space:
//!   !NAME          a word that the command requires
//!   ?NAME          a word that it may be given
//!   *NAME          words that it may be given, any number of them
//!   +NAME          words that it requires, one or more of them
//!   -name          a flag
//!   =name          a flag of all commands
//!   ~name=WHEN     one of the words `auto`, `always` and `never` after a name of all commands
//!   :name=WORD     a word after a name
//!   &name=WORD     a word after a name, any number of times
//!   #name=10       a number after a name, and its default
//! A table of structs costs much more to prove, since a proof goes over each byte of a table's texts.

/// The program without its commands, and the flags that each of them may be given.
pub(crate) const PROGRAM: &str = "\
geos Checks routines, which are written as text, and runs them. Explains texts and images, runs scripts on VM files, and shows what such a file has.
=diagnostics Adds lines `FILE:LINE: error: ..`, `warning: ..` or `note: ..` on standard error, as on a terminal
=no-warnings Leaves warnings out of what --diagnostics adds
~color=WHEN Colours what --diagnostics adds; `auto`, the default, only on a terminal, unless NO_COLOR is set

`geos call IN NAME 2 3` checks the routines of the text or the image in IN, and runs the public routine
NAME with 2 in w0 and 3 in w1. It prints each word that the routine outputs, in decimal on a line.
A text to begin with:
  routine add public budget 3
          ADD w0 w0 w1
          OUT w0 end
  end:    RET

Example:
  geos call add.asm add 2 3         prints 5, if add.asm has that text
  geos help call                    says more
  geos help DEREF                   says what an instruction does
  geos help V4                      says what a rule refuses; also: help refused 4, help why 2

Begin with docs/TUTORIAL.md. docs/AUTHORS.md says how to write a routine, docs/INSTRUCTIONS.md lists the
instructions, and docs/ERRORS.md explains messages. examples/README.md describes the examples.

IN, TEXT and IMAGE are files of assembly text; IN and IMAGE may be files of an image's bytes too. OUT is the
file that is written: an image, or by `budget` a text. SCRIPT is a file of commands, as in a session. For
these `-` is the standard input, or for OUT the standard output, and `./-` is a file of that name.
FILE is a VM file, and never a stream. H is the handle of a block there, C the handle of a chunk in the
block, and AT a number of bytes from the chunk's start. FORM is --label, and one of --hex, --signed and --text.

Without words on the command line, geos reads a session from the standard input, at most 1,048,576 bytes:
  1. an image, a set of routines in hexadecimal digits;
  2. a line `end`;
  3. a script, with one command a line. `call NAME n.. @h..` runs the public routine NAME on at most
     eight numbers, its words w0 to w7, and lends it blocks, by their handles. `update`, `save` and
     `revert` do what VUPDATE, VSAVE and VREVERT do. A line may be blank; `;` begins a comment.

Nothing runs unless the verifier accepts the whole image and no line of the script is bad. A call prints
each word that its routine outputs, in decimal on a line, or `refused N` if a block cannot be lent. The other
commands print nothing, or `refused N`. A session has a VM file of its own, in memory; `call` and `run` work
on a VM file that lasts.

If COLUMNS is exported, help, `map` and `dump` fit into the columns of a terminal.

Status: 0 after success, even if lines `refused N` report refused commands; 1 after a fault, which is one line
on standard error; 2 if the command line is wrong. On a terminal, and with --diagnostics, more lines follow:
`FILE:LINE:COLUMN: error: ..`, `warning: ..` and `FILE: note: ..`.
docs/ERRORS.md lists the faults, and docs/FORMATS.md describes the digits of an image.";

/// What ends the text of each command but the last.
pub(crate) const END: &str = "\n====\n";

/// The commands, in the order in which the help lists them.
pub(crate) const COMMANDS: &str = "\
call Checks a text or an image, and runs one of its routines, or a script
!IN A file of assembly text, at most 1,048,576 bytes, or of an image's bytes; `-` is the standard input, if NAME is given
?NAME The public routine that runs; without it, a script is read from the standard input
*N Its words w0 to w7: at most eight numbers, each from 0 to 65535 and within the bound of its word; then @H for each block that the routine borrows
:file=FILE The VM file that it works on, as `new` makes it; without it, one in memory
-update Commits at the end, as the command `update` of a script does
-save Commits at the end, as the command `save` of a script does
:grant=EFFECTS What public routines may do, as output,changes-lent; without it, all
#most-steps=4294967295 The highest budget that a routine may have that can be called, 0 to 4294967295
#most-bytes=4294967295 How many bytes blocks in memory may have, 0 to 4294967295; more is refused 4
#most-blocks=1024 How many blocks of memory there may be, 0 to 1024; one more is refused 5
#region=1048576 How many bytes of memory the blocks have, 65536 to 16777216
-strict Ends with status 1 at the first line of the script that prints `refused K`
-expect Compares what lines of the script print with the words after their `=>`
-hex Prints words as 0x and four hexadecimal digits
-signed Prints words as numbers from -32768 to 32767
-text Prints the words of a call as bytes of a text
-label Prints each line after its call
-json Prints only JSON objects, one a line, as docs/JSON.md lists them
:language=LANGUAGE The language of a text: `tkv` or `asm`; without it, `tkv` if the path ends with .tkv

IN is an image if it begins as one does, and otherwise a text. Nothing runs unless the text has no fault and
the verifier accepts the image. `geos help asm` lists the faults of a text, `geos help check` the rules, and
`geos explain IN` says more. A `?` as a budget means the least budget.

NAME is a public routine. At most eight numbers are its words w0 to w7; missing numbers are 0. After the
numbers, `@` and a handle name a block of FILE for each slot that the routine borrows. Each word that the
routine outputs is printed in decimal on a line. `bad call: ..` says what is wrong with the call. With status
1, `refused K` means that a block cannot be lent. Without NAME, geos runs the script on the standard input as
`run` does, also with --strict, and its lines may use names as with --vars.

With --expect, lines of the script may end with `=>`, as `geos help run` says.

With --hex, the word 10 is printed as 0x000a, and with --signed, 65534 as -2. With --text, all words of a
call are printed on one line: a word below 256 as a byte, any other as two bytes, the low one first. With
--label, each line is printed after its call, as `add 2 3: 5`, without zeros at the end of the call's words.

With --file, the routines work on this VM file, which `geos new` makes. Other commands on the file wait.
Changes are lost unless they are committed: by VUPDATE or VSAVE in a routine, by a command of the script, or
at the end by --update or --save, if there was no fault. On a terminal, and with --diagnostics, a line
`FILE: note: ..` counts changed blocks that are lost. Without --file, the routines have a VM file in memory,
with areas of 65,536 bytes. It is lost at the end.

Example:
  geos call add.asm add 2 3         prints 5, if add.asm has the text of `geos help`
  geos call add.asm add 2 65533 --signed --label        prints `add 2 65533: -1`
  printf 'call add 2 3\\ncall add 4 5\\n' | geos call add.asm
  geos new counter.vm
  geos call examples/counter.asm --file counter.vm < examples/counter.script
  geos call examples/lend.asm --file lent.vm peek @1      if lent.vm has a block 1
====
trace Runs one routine, and prints each step, or how often each line ran
!IN A file of assembly text, at most 1,048,576 bytes, or of an image's bytes; `-` is the standard input, if NAME is given
!NAME The public routine that runs
*N Its words w0 to w7: at most eight numbers, each from 0 to 65535 and within the bound of its word; then @H for each block that the routine borrows
:file=FILE The VM file that it works on, as `new` makes it; without it, one in memory
:grant=EFFECTS What public routines may do, as output,changes-lent; without it, all
#most-steps=4294967295 The highest budget that the routine may have, 0 to 4294967295
#most-bytes=4294967295 How many bytes blocks in memory may have, 0 to 4294967295; more is refused 4
#most-blocks=1024 How many blocks of memory there may be, 0 to 1024; one more is refused 5
#region=1048576 How many bytes of memory the blocks have, 65536 to 16777216
#steps=10000 How many steps are printed at most, 0 to 1000000; or A..B, the first and the last one
:from=STEP The first step that is printed, 1 to 1000000; those after it follow, up to step 1000000
:only=ROUTINE The routine whose steps are printed
&break=ROUTINE:LINE Prints only the steps at this line or label of the routine; may be given several times
&when=CONDITION Prints only the steps after which it is true, as w3>48 or k0=0; may be given several times
:watch=H:C Prints only the steps that change the chunk C of the block H of FILE, or as mem:H:C of memory
-count Prints how often each instruction ran, in place of the steps
:html=OUT The file that a page of the run goes to, in place of the steps; `-` is the standard output
-json Prints only JSON objects, one a line, as docs/JSON.md lists them
:language=LANGUAGE The language of a text: `tkv` or `asm`; without it, `tkv` if the path ends with .tkv

The routine runs as by `geos call`, also on blocks of FILE that it borrows, and its faults are the same. If
a block cannot be lent, only `refused N` is printed. Each step prints a line: the number of the line in the
text, or the pc if IN is an image; the instruction; and after `;` what the step wrote:
  w0=5 k1=3            words and counters
  s0=mem 2             slot s0 holds the memory block 2; also `vm 2`, `group 2`; `s0=empty` after an unlock
  p1=chunk 16 of s0    what a pointer points to: also `element 2 of chunk 16`, `item 16`, or `p2` for a copy
  p1+4=7               a byte or word at offset 4 of p1; of COPY `p1=8 bytes of p2`
  out 5                a word that is output
  jumps                control goes to the label: of a test, or of LOOP
  refused 2            nothing is done except w7=2, and control goes to the label
Labels are those of the text; of an image or a source, L and a pc, counted from 0. If line marks name the
lines, a line is `3 of FILE`.

The last line says how many steps the whole run took, and what is left of the budget. At most 10,000 steps
are printed, or --steps many, or as --steps 101..200 says; with --only, those of ROUTINE only. The run still
goes to its end.
With --break, --when or --watch, only some steps are printed: of the first 1,000,000, or of those that --steps
or --from names. A step is printed if one --break names its line, each --when is true after it, and it changes
the bytes that --watch names. LINE is a number or a label as a step prints it. A condition is a register, w0
to w7 or k0 to k3, then one of < <= = != >= >, and a number, as 48 or 0x30.
With --count, each instruction of all routines prints a line in place of the steps: how often it ran, its
line or pc, and the instruction. With --html, the file OUT is a page to look at in a browser: the run step by
step, with memory. It shows 10,000 steps at most, and --steps chooses which.

Example:
  geos trace add.asm add 2 3        if add.asm has the text of `geos help`
  geos trace examples/lend.asm --file lent.vm peek @1
  geos trace examples/heap.asm main --html heap.html
  geos trace examples/heap.asm main --watch mem:1:16
====
test Runs scripts whose lines say what they are to print, and the tests of a source
!IN A file of assembly text, at most 1,048,576 bytes, or of an image's bytes; `-` is the standard input
*SCRIPT A file of commands, at most 1,048,576 bytes; `-` is the standard input; none is required if IN has tests
:file=FILE The VM file of which each script gets a copy in memory; without it, a new one
:junit=OUT The file that the results go to as JUnit XML
-coverage Prints how often each line of IN ran, after the lines that failed
#region=1048576 How many bytes of memory the blocks have, 65536 to 16777216
:language=LANGUAGE The language of a text: `tkv` or `asm`; without it, `tkv` if the path ends with .tkv

Each SCRIPT runs as by `geos call IN`, and a line may end with `=>` and what it is to print:
  call add 2 3 => 5
  call peek @9 => refused 1
  call begin =>        nothing
The words after `=>` are compared with those that are printed, in decimal, with one space between them. A line
without `=>` runs, and may print anything. Each SCRIPT begins with a new VM file in memory, or with --file
with a copy of FILE, which does not change. Each line that prints something else is reported as
`SCRIPT:3: expected 5, printed 6`, a bad line with what is wrong. If a line is bad, its script does not run,
or ends there, and the lines with `=>` that did not run have failed. The last line counts the lines with
`=>`, as `7 passed, 1 failed`. The status is 1 if a line failed or is bad.
A source of the structured language may have tests, which run first, each as a SCRIPT:
  test \"adds\" { add(2, 3) => 5; peek(9) => refused 1; begin() =>; }
A line that differs is reported as `IN:3: expected 5, printed 6 in test \"adds\"`.
With --junit, the file OUT gets the same as JUnit XML: a suite for each test and SCRIPT, and in it a case for each line
with `=>`, and for each bad line. After a fault OUT is unchanged.
With --coverage, each line of the text or the source in IN follows, with how often it ran in all scripts:
       12:         ADD w0 w0 w1
        -:         ; a line without an instruction
    #####:         OUT w0 end       which never ran
The count of a line of a source is the highest of its instructions, with `*` after it if one of them never
ran. The lines of files that the source uses precede it. If IN is an image, each instruction has a line with
its pc, counted from 0. Then `11 of 12 instructions ran` precedes the last line.

Example:
  geos test add.asm add.script      if add.asm has the text of `geos help`
  geos test add.asm add.script --coverage
  geos test add.tkv                 if this source has tests
====
asm Makes the image of a text
!IN A file of assembly text, at most 1,048,576 bytes; `-` is the standard input
!OUT The file that the image goes to; `-` is the standard output
-all-rows Gives a row at each instruction, as images of version 1 do
-json Prints only JSON objects, one a line, as docs/JSON.md lists them
:language=LANGUAGE The language of a text: `tkv` or `asm`; without it, `tkv` if the path ends with .tkv

An existing file OUT is replaced. After a fault it is unchanged. The image has version 2: rows only
where a routine begins, at labels that are used, and after JMP and RET. A row says what is known at an
instruction; the verifier computes the others.
The first fault of the text is `line N: why K`, the lowest K of the line. `geos explain IN` says more, and
`geos help why K` has an example. An image or a VM file in place of a text is `line 1: why 1`.
  1  the first word is no instruction, and not `routine`, `in` or `out`
  2  too few or too many operands, or one of another form
  3  a number is out of range: up to 15 for SHR, 4,294,967,295 for a budget, 65,535 otherwise
  4  no label, or no routine, has the name
  5  an earlier label, or routine, has the name
  6  more than 32 routines or 4,096 instructions, or the text is too long (at line 1)
  7  the line is not allowed here, or no instruction follows a routine's line or a label
`no rows: line N` is about the routine that begins there. Either two paths to an instruction have different
blocks in a slot, or no number of steps is enough. No number is enough if a cycle has no LOOP, if the loop
changes its own counter, or if the steps exceed 4,294,967,295. `geos explain` prints the cause.
====
budget Writes a text with the least budget of each routine
!TEXT A file of assembly text, whose budgets may each be a `?`; `-` is the standard input
?OUT The file that the text goes to; without it, or with `-`, the standard output
-in-place Replaces the text in the file TEXT
:language=LANGUAGE The language of a text: `tkv` or `asm`; without it, `tkv` if the path ends with .tkv

Each number after `budget`, or a `?` in its place, becomes the least budget that is found. The budget of a
caller includes those of the routines that it calls. All other bytes stay. The faults are those of `asm`.
No budget is enough if a CALL names a later routine, or if nothing sets the counter of a LOOP on some path to
it. Then this is the fault. If the verifier refuses the text with the least budgets, nothing is written, and
the first refusal is the fault. OUT is not TEXT; with --in-place
the new text replaces the old one in TEXT.

Example:
  geos budget draft.asm add.asm && geos call add.asm add 2 3
====
fmt Puts a text into columns, or a source into one layout
!TEXT A file of assembly text, or a source of the structured language; `-` is the standard input
?OUT The file that the text goes to; without it, or with `-`, the standard output
-in-place Replaces the text in the file TEXT
:language=LANGUAGE The language of a text: `tkv` or `asm`; without it, `tkv` if the path ends with .tkv

Labels and lines `routine` begin at the start of a line, instructions at column 8, and words have one space
between them. A comment stays at its column if the words before it leave room. The image of the text stays
the same, and a text that is formatted again does not change. A text with faulty lines can be formatted too.
Lines of a source are indented by their blocks, with at most one blank line between two and the usual spaces
between words. Its words and comments stay. A fault is the first place where no word begins.
OUT is not TEXT; with --in-place the new text replaces the old one in TEXT.

Example:
  geos fmt add.asm --in-place
====
list Prints the image as text
!IMAGE A file of an image's bytes, or of assembly text; `-` is the standard input
-assembly Repeats each line of a source in a comment before its instructions
:language=LANGUAGE The language of a text: `tkv` or `asm`; without it, `tkv` if the path ends with .tkv
====
check Prints `accepted` if the image may run, or `sound` if a VM file is legal
!IMAGE A file of an image's bytes, or of assembly text, or a VM file; `-` is the standard input
-json Prints only JSON objects, one a line, as docs/JSON.md lists them
:language=LANGUAGE The language of a text: `tkv` or `asm`; without it, `tkv` if the path ends with .tkv

IMAGE is an image if it begins as one does, and otherwise a text, whose faults are those of `geos asm`. `bad
image at N` names the first byte that is wrong. `geos explain` says what is wrong with an image or a text.
`rejected at N by VK` names the first instruction, counted from 0, that is refused, and the lowest rule that
refuses it. `geos explain` says more, and `geos help VK` has an example. The rules:
  V1   control stays within the routine
  V2   a pointer that is not stale leads into a slot that is not empty
  V3   a routine begins with what its entry row says; a public one begins and ends with empty slots, except
       those that it borrows
  V4   a pointer that is used is not stale: nothing has moved since it was fetched
  V5   what is read or written lies within the bytes that are known to be there
  V6   a block of a VM file is marked before it is changed
  V7   a block is locked into an empty slot
  V8   a slot has a block of the kind that is required, and a borrowed block is not unlocked
  V9   no slot has a block of a VM file that is updated, saved or reverted
  V10  a routine calls only routines before it, and their entry rows are true at the CALL
  V11  a routine returns with what its exit row says
  V12  what the row of an instruction says is true on each path to it
  V13  each step is paid for: LOOP counts a loop, and the budget of a routine that is called pays for the call
  V14  the steps of a routine are within its budget
====
explain Prints a text or an image with what is known at each instruction, and why it is refused
!IMAGE A file of an image's bytes, or of assembly text; `-` is the standard input
:script=SCRIPT A file of commands; only its bad lines are explained; `-` is the standard input
-vars Lets lines of SCRIPT keep and use names, as `run --vars` and `call` do
:html=OUT The file that a page goes to, in place of the lines; `-` is the standard output
-json Prints only JSON objects, one a line, as docs/JSON.md lists them
:language=LANGUAGE The language of a text: `tkv` or `asm`; without it, `tkv` if the path ends with .tkv

IMAGE is an image if it begins as one does, and otherwise a text. Each line of a text is printed with its
number; after an instruction come what is known before it runs, and how many steps are left then at most. A
budget may be a `?`. A VM file is named as what it is. If lines of a text have faults, only these are
printed, each with the word that is wrong and what is expected. Of an image, each instruction is printed with
its routine and pc.
After an instruction that a rule refuses, a line has the reason and the cure. For a stale pointer the line
names what may have moved the chunk. After `no rows: line N` a line says where slots differ, or which loop is
not paid for.
With --html, the file OUT is a page to look at in a browser: the text with all this beside its lines, causes
as links, and the control flow of each routine. The page is also made of a text that is refused or faulty.
With --script, only the bad lines of SCRIPT are printed, each with the wrong word and what is expected. The
rules are those of `run`, or with --vars those of `run --vars` and `call`. At most 1,000 lines are printed,
and then the number of the others. Nothing runs.
====
new Makes a VM file without blocks
!FILE The VM file that is made; no file has that name yet
#area=1048576 How many bytes each of its two areas has, a multiple of 512, 512 to 16777216

The file is twice the size of an area, and 1,024 bytes more. Most file systems store only what was written.
The current blocks and the saved blocks together have to fit into one area. Otherwise `update` and `save` are
refused 6 and change nothing. `geos copy` makes a file with larger areas.
`cannot write FILE` means that something of that name exists, which is unchanged, or that the file cannot
be made.
====
copy Copies a VM file to a new one, whose areas may be larger or smaller
!FILE A VM file, as `new` makes it
!NEW The VM file that is made; no file has that name yet
:area=N How many bytes each area of NEW has, a multiple of 512, 512 to 16777216; without it, as many as those of FILE
-saved Makes the blocks that FILE saved last the current ones of NEW too

NEW has the current blocks of FILE, and its saved blocks. With --saved, the saved blocks of FILE are also the
current blocks of NEW. Handles, user IDs, map block and map item stay the same. If `update` or `save` of FILE
is refused 6, a copy with larger areas has room. `area too small` names the least area that has room.
FILE is only read. Other commands that change FILE wait until NEW is made. NEW is read again and compared
with FILE before it gets its name. `cannot write NEW` means that something of that name exists, which is
unchanged, or that NEW cannot be made.

Example:
  geos copy notes.vm larger.vm --area 4194304
====
run Runs a script on a VM file
!IMAGE A file of an image's bytes, or of assembly text; `-` is the standard input
!FILE A VM file, as `new` makes it
!SCRIPT A file of commands, at most 1,048,576 bytes; `-` is the standard input
:grant=EFFECTS What public routines may do, as output,changes-lent; without it, all
#most-steps=4294967295 The highest budget that a routine may have that can be called, 0 to 4294967295
#most-bytes=4294967295 How many bytes blocks in memory may have, 0 to 4294967295; more is refused 4
#most-blocks=1024 How many blocks of memory there may be, 0 to 1024; one more is refused 5
#region=1048576 How many bytes of memory the blocks have, 65536 to 16777216
-strict Ends with status 1 at the first line of SCRIPT that prints `refused K`
-expect Compares what lines of SCRIPT print with the words after their `=>`
-vars Lets lines keep words under names, as `call make -> h`, and use them, as `call use $h 5`
-update Commits at the end, as the command `update` of a script does
-save Commits at the end, as the command `save` of a script does
-hex Prints words as 0x and four hexadecimal digits
-signed Prints words as numbers from -32768 to 32767
-text Prints the words of a call as bytes of a text
-label Prints each line after its call
:language=LANGUAGE The language of a text: `tkv` or `asm`; without it, `tkv` if the path ends with .tkv

IMAGE is an image if it begins as one does, and otherwise a text, which is assembled in memory; so a VM file
there is `line 1: why 1`.
SCRIPT has a command a line, as a session has after its image:
  call NAME n.. @h..  runs the public routine on at most eight numbers, and prints what it outputs
  update              commits the current blocks
  save                commits them too, and makes them the saved blocks
  revert              commits the saved blocks, and makes them the current blocks again
After the numbers of a call comes the handle of a block for each slot that the routine borrows, in their
order. These blocks are locked, and unlocked after the run. If one cannot be locked, `refused N` is printed,
and the routine does not run.
The other three print nothing, or `refused N`: 6 if the blocks are too long, 11 if the disk fails, 12 if after
an earlier failure it is unknown what the file has. Changes after the last commit are lost. So end a script
with `update`, use VUPDATE in a routine, or give --update or --save, which commit at the end if there was no
fault.
A script continues after a refusal, and the status is 0. With --strict, it ends at the first refusal with
status 1, and the last line on standard error is `line N: refused K`, with N the line of SCRIPT, counted
from 1. A routine that commits handles its refusals itself: they end no script.
With --vars, a call may end with `-> NAME`. This stores the first word that the call outputs under the name.
If the call outputs none, the name becomes undefined. A name has letters, digits and underscores. In later
calls $NAME means the number, and @$NAME a handle. If a line is wrong only with the number of a name, the
script ends at this line with `bad script line N`, and the lines before it are done. At most 1,024 lines
store a word.
With --expect, a line may end with `=>` and what it is to print, as for `geos test`: `call add 2 3 => 5`. All
output is printed as without --expect. Then each line that printed something else is reported on standard
error as `SCRIPT:3: expected 5, printed 6`, and the status is 1. After that, --update and --save do not commit.
Lines that did not run are not compared.
`geos help call` says how --hex, --signed, --text and --label print. The label of a commit is its word.

If the program or the computer stops, the file is as before one of these commands or as after it, never in
between. Until `run` ends, other commands that use the file wait, and so does `dump`. They do not wait while
`run` reads SCRIPT, so SCRIPT may be `-`, after a pipe from a `dump` of the file.

Example:
  geos new notes.vm
  geos run notes.asm notes.vm notes.script
  geos dump notes.vm
====
put Writes the standard input into a chunk of a VM file
!FILE A VM file, as `new` makes it
?H The handle of the block, or with --item of the group
?C The handle of the chunk, or with --item of the item
?AT The offset from which bytes are overwritten; without it, all bytes are replaced
-item H is a group, and C an item of it
:array=IN A file of rows, at most 1,048,576 bytes, that become the elements of an array; `-` is the standard input
:fields=FIELDS What an element of the array has, as 2,2,8t; without it, any bytes
:new-block=UID Makes a block with this user ID, and a chunk in it
-new-group Makes a group, and an item in it
:new-chunk=H Makes a chunk in the block H
:new-item=G Makes an item in the group G
#region=1048576 How many bytes of memory the blocks have, 65536 to 16777216

The chunk gets as many bytes as there are, or, from AT on, at least as many as it needs, with zeros up to
AT. Then the bytes are written, and the file is committed, as by `update`. With --item, H is a group and
C an item of it. `geos dump` lists the handles.
With --new-block, a block with the user ID UID and a chunk in it are made for the bytes. With --new-group, a
group and an item in it are made. With --new-chunk, only a chunk in the block H is made. With --new-item, only
an item in the group G is made.
H and C are printed then, as `geos get` takes them. All is one commit.
With --array, the chunk has to be an array, and the rows of IN replace its elements. With --fields 2,8t, a row is
a number of two bytes and a text of at most 8 bytes. Without --fields, a row is the bytes of an element in
hexadecimal. docs/CSV.md describes the rows. If a row is wrong, the fault is `IN:ROW: ..`, and the file is unchanged.
`refused N` is a refusal, as in docs/INSTRUCTIONS.md: 1 no such block, 2 no such chunk, 4 no room in the
region, 6 too long, 11 the disk fails, 15 a group without --item. Then the file is unchanged; only after 11
it may have the new bytes.

Example:
  geos put notes.vm --new-block 7 < notes.txt       prints 1 16, if the file has no block
  geos put notes.vm 1 16 < notes.txt
  geos get notes.vm 1 16
  geos get notes.vm 2 16 --array --fields 2,8t >rows.csv
  geos put notes.vm 2 16 --array rows.csv --fields 2,8t
====
get Prints the bytes of a chunk of a VM file
!FILE A VM file, as `new` makes it
!H The handle of the block, or with --item of the group
!C The handle of the chunk, or with --item of the item
-item H is a group, and C an item of it
-array Prints the elements of an array as rows
:fields=FIELDS What an element of the array has, as 2,2,8t; without it, any bytes
-json Prints only JSON objects, one a line, as docs/JSON.md lists them; requires --array
#region=1048576 How many bytes of memory the blocks have, 65536 to 16777216

With --item, H is a group and C an item of it. The bytes are those of the current directory. Nothing is
written. `refused N` means the same as for `put`. With --array, each element of the array in the chunk prints
a row, as docs/CSV.md describes: with --fields its numbers and texts, without it its bytes in hexadecimal.
====
dump Prints the blocks of a VM file, and their chunks
!FILE A VM file, as `new` makes it
?H The handle of the only block or group that is printed, with the bytes of its chunks or items
?C The handle of the only chunk or item that is printed of it
-chunks Prints the bytes of each chunk too, as `xxd` does
-arrays Prints them too, and those of a chunk that is an array element by element
-saved Prints only what the file saved last
-json Prints only JSON objects, one a line, as docs/JSON.md lists them

The current directory of the file is printed, and then the saved one:
  current map M item G I   the map block, the group of the map item and its chunk; 0 is none
  H uid U size S chunks C:N ..   a block: its handle, user ID and bytes, and handle and length of each chunk
A group has the user ID 65280. The file need only be readable, and is not written.
With H, only the current block or group H is printed, and the bytes of its chunks or items, as `xxd` prints
them. On a terminal of fewer than 67 columns, a line has eight bytes. With C, only the bytes of its chunk or
item C are printed. With --saved, the block is one that the file saved last. With --arrays, the line of a
chunk that is an array is `chunk C elements N`, and the bytes of each element come after a line `element I`,
at most 1,000 of them. Any chunk with the bytes of an array is one.
`bad file at N` names the first byte, from the start of the file, that is wrong.
====
diff Prints what differs between two VM files
!A A VM file, as `new` makes it
!B Another VM file
-saved Compares only what the files saved last

The lines are those of `geos dump --chunks`: those that only A has after `-`, those that only B has after
`+`. Before them, after a blank, come the lines of the directory, the block and the chunk that they are in,
if both files have these lines. If nothing differs, nothing is printed; otherwise the status is 1, and
`A and B differ` is on standard error.

Example:
  geos copy notes.vm before.vm
  geos run notes.asm notes.vm notes.script
  geos diff before.vm notes.vm
====
map Draws a VM file: how full its areas and blocks are
!FILE A VM file, as `new` makes it
#width=80 How many columns a line has, 60 to 1000; on a terminal COLUMNS is the default
:html=OUT The file that a page goes to, in place of the drawing; `-` is the standard output

The first bar is the area in use, with the current and the saved blocks. Below it,
each block has a bar whose length is to the longest bar as the block is to the longest block: `#` is in
use, `.` is free. `used` counts bytes, also those of the heap's header and table. A group has `group` in
place of its user ID. With --html, the file OUT is a page to look at in a browser, with the bytes of chunks.
====
shell Answers lines at once: commands of a script, and words that show what they did
?IN A file of assembly text, at most 1,048,576 bytes, or of an image's bytes; without it, there are no routines
:file=FILE The VM file that it works on, as `new` makes it; without it, one in memory
:journal=OUT A file that gets the lines since the last commit; if it has lines, these are carried out first
#region=1048576 How many bytes of memory the blocks have, 65536 to 16777216

Each line of the standard input is answered before the next one is read:
  call add 2 3         a command of a script, as `geos help run` lists them, also with -> and $
  undo                 takes back the last command; commands before a commit stay
  dump [H [C]]         prints the blocks as `geos dump` would after `update`
  map                  draws them as `geos map` would
  explain [NAME]       prints what is known at each instruction, or only at those of the routine
  trace NAME n.. @h..  prints the steps of a call, which changes nothing
  help [TOPIC]         prints this list, or what `geos help` says of DEREF, V4, refused 4 or why 2
  quit                 ends the session, as the end of the input does
On a terminal, `geos> ` precedes each line. A line that says none of these is reported on standard error as
`line N: ..`, and nothing is done. The status is 1 if there was such a line.
The commands work on a copy of FILE in memory. When one commits, the same commands run on FILE; so FILE
changes only by commits, each atomic. What is not committed at the end is lost. Other commands that use FILE
wait until the session ends. All lines together have at most 1,048,576 bytes.

`geos-shell` takes the same words. It adds a history and completion, if `rlwrap` is installed. Ctrl-C then ends a
call and not the session: geos starts again, and carries out the lines of OUT, which are those since the last
commit. So what the call did is taken back, except for what it has committed. If it was ended while it
committed, lines before it that were not committed may be lost.

Example:
  geos shell examples/counter.asm --file counter.vm
====
lsp Shows an editor what `explain` finds, by the Language Server Protocol on the standard streams

An editor starts this server, and sends it the texts and sources that are open. The server reports faults,
refusals and warnings while you type, with edits that mend them. It also answers what is known at an
instruction, and where a name is defined and used; it renames names, lists routines and labels, and makes
columns. It reads and writes no file. docs/EDITORS.md shows how Vim, Neovim, Helix, Emacs and VS Code start
it.";
