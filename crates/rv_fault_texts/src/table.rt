//! What there is to say of each code and of each end of a run: one text, so that the manual's page is compared with it.

/// An entry for each code, then one for each end, an empty line between them: the code and its name as messages show
/// them, the cause, an example, and the cure. The lines of an example have four blanks in front; it is a source where one
/// gives the fault, a second source stands below `#--- b.s`, and words of a command line stand after `$`.
pub(crate) const TABLE: &str = "E1 BadByte
Cause: a byte that no source may have, outside strings and comments
Example:
    li a0, 5 – 2
Cure: write it as an escape in a string, or remove it

E2 BadToken
Cause: an unclosed string, character or comment; a bad escape; a number of
  2^64 or more; digits followed by letters
Example:
    .ascii \"abc
Cure: close it; write a number below 2^64

E3 NestingTooDeep
Cause: over 64 parentheses and operators of one operand inside one another
Example:
    .set x, -----------------------------------------------------------------1
Cure: remove some

E4 DivisionByZero
Cause: / or % by 0 in an expression
Example:
    .set x, 1 / 0
Cure: divide by something else; a name may be 0 here

E5 ShiftTooLarge
Cause: a shift by 64 or more in an expression
Example:
    .set x, 1 << 64
Cure: shift by 0 to 63

E6 UnknownMnemonic
Cause: no instruction has this name, or a statement begins without a name
Example:
    foo a0
Cure: look the name up in the source language

E7 BadOperands
Cause: an operand is missing, too many, or of a form that the statement does
  not take; a parenthesis without its other; a register where a symbol's name
  is wanted
Example:
    addi a0, a0, (1
Cure: give the operands that the statement takes

E8 UnknownDirective
Cause: no directive has this name
Example:
    .frob
Cure: look the name up in the source language

E9 UnsupportedHere
Cause: left out of this language: a mnemonic, directive, option or operand
  form
Example:
    .comm x, 4
Cure: say it with what is built

E10 ScratchRegister
Cause: x0 where an address is held on the way to a symbol: in a load of a
  symbol, call rd, a store of a symbol or jump; in a store of a symbol also
  the register that is stored
Example:
    call zero, f
Cure: name another register

E11 DuplicateLabel
Cause: a name is defined a second time, and one of the two is a label or a
  place
Example:
    x: nop
    x: nop
Cure: rename one

E12 UndefinedLocal
Cause: a numeric reference without its label; in %pcrel_lo(x) an x that is no
  label of the source
Example:
    beqz a0, 1f
Cure: define the label

E13 NotConstant
Cause: a place, a name of another file or a difference of these, or with a
  weak place, where a number is wanted; a constant before its first .set; in a
  size, an alignment or a .set a place that is defined later; a place in 1 or
  2 bytes; a target that is a difference; a low part that is no number, as a
  shift's amount or in li
Example:
    addi a0, a0, x
Cure: use a number, or a difference of two places in one section of data; for
  a size, of two that come before

E14 ImmediateRange
Cause: a number outside the range of the instruction: immediate, offset or
  shift amount; a name that is a number as a target; a size below 0; an
  alignment that is no power of two
Example:
    addi a0, a0, 2048
Cure: use a number in the range

E15 WrongSection
Cause: data or a .set of a place in an executable section; an instruction
  elsewhere; data except .zero in a section without bits
Example:
    .text
    .word 1
Cure: go to the right section first

E16 OptionStack
Cause: .option pop without .option push
Example:
    .option pop
Cure: push first

E17 Limit
Cause: a source over 16 MiB (at line 0), a line over 65,535 bytes, a name over
  4,095 bytes, more than 4,194,304 statements, over 32,000 sections, a section
  over 256 MiB, an alignment above 4096
Example:
    .align 13
Cure: cut the source

L1 Overflow
Cause: a place in a .word, of any section with a, is outside -2^31 .. 2^32 -
  1; the target of a branch of eight bytes or of a jump is over 1 MiB away; an
  upper part or a call does not reach
Example:
    .globl _start
    _start: ret
    .data
    .word _start + 0x100000000
Cure: use .dword; tail or la with jr

L2 OddTarget
Cause: the target of a branch, a jump or a call is an odd distance away
Example:
    .globl _start
    _start: j _start + 1
Cure: aim at an even place

L3 DanglingPcrel
Cause: there is no %pcrel_hi at the label of %pcrel_lo
Example:
    .globl _start
    _start: nop
    addi a0, a0, %pcrel_lo(_start)
Cure: name the label of the auipc

L4 AlignmentShort
Cause: an alignment in code of an object has fewer bytes of padding than it
  needs at its address; those of a source have room
Example:
    an object of GNU as from c.nop, .option norvc, .balign 8
Cure: align before .option norvc, or put an even number of parcels before it

L5 Undefined
Cause: data or code refer to a name without a meaning, or to one in a section
  without a, where it has no address. A numeric label there is shown without a
  name. A byte of an object's name that is not printed is shown as its number,
  \\x1b
Example:
    .globl _start
    _start: call f
Cure: define it in a section with a, and make it global if another source has
  it; or make it weak

L6 Duplicate
Cause: two sources make this name global and define it, in whatever section
Example:
    .globl _start, f
    _start:
    f: ret
    #--- b.s
    .globl f
    f: ret
Cure: take .globl out of one, make it weak, or rename it there

L7 EntryMissing
Cause: _start means no label in a section of text
Example:
    _start: ret
Cure: add .globl _start, and the label in .text

L8 ImageTooLarge
Cause: the program meets the stack at 3FF00000h, passes 2^64, or has over
  256 MiB
Example:
    .globl _start
    _start: ret
    .bss
    .zero 0x10000000
Cure: lower --text-start, put it behind the stack by --origin 0x40000000, or
  make the program smaller

L9 BadTextStart
Cause: the text start is no multiple of 4096 below 3FF00000h, or the origin
  none beside the stack
Example:
    $ rv build -o a --text-start 4097 a.s
Cure: give one that is; --origin also takes 40000000h and above

L10 TooManyFiles
Cause: more than 1,024 sources in a build, or objects in a link
Example:
    rv build -o a with 1,025 sources
Cure: put some sources into one file

F1 Truncated
Cause: the file ends before its header, its tables or the contents of a
  segment or a section do
Example:
    an executable without its last byte
Cure: copy it again, whole

F2 BadMagic
Cause: it does not begin with 7Fh ELF (rv run takes such a file for a source)
Example:
    a text
Cure: give an executable

F3 WrongClass
Cause: it is not of 64 bits, little-endian and version 1
Example:
    an executable for RV32
Cure: link it for rv64

F4 WrongMachine
Cause: it is not for RISC-V, or wants a float ABI or the smaller register file
Example:
    one built for lp64d
Cure: build it with -march=rv64imac -mabi=lp64

F5 BadTable
Cause: an entry size, a count or an index is wrong; a segment is larger in the
  file than in memory, or passes 2^64; the entry is odd; more in an object
Example:
    a damaged file; .balign 8192 in GNU as
Cure: make it again; align to 4096 at most

F6 BadString
Cause: a name has no end in its table; the name of a global or weak symbol is
  empty or has a byte outside 21h to 7Eh
Example:
    a damaged table of names
Cure: make it again

F7 BadIndex
Cause: a section or a symbol is named that does not exist; relocations of a
  loaded section name no symbol table; a symbol is common, or neither local,
  global nor weak
Example:
    .comm x, 4 in GNU as
Cure: compile with -fno-common

F8 Overlap
Cause: two segments, or one and the stack, share an address
Example:
    a segment at 3FF00000h
Cure: place the segments apart, below the stack

F9 UnsupportedRelocation
Cause: a relocation of a loaded section is of a kind that is left out
Example:
    rv: a.o: F9 UnsupportedRelocation 20, of position-independent code
Cure: compile without -fPIC and thread-local storage

F10 UnsupportedSection
Cause: a loaded section has another type than PROGBITS, NOBITS and NOTE, or a
  section is a group
Example:
    14, .init_array, of constructors
Cure: compile without constructors and groups

F11 NotExecutable
Cause: rv run: the type is not that of an executable
Example:
    an object
Cure: link it first

F12 Dynamic
Cause: it wants dynamic linking or thread-local storage
Example:
    a program of a hosted C library
Cure: link it statically, without an interpreter

F13 MemoryLimit
Cause: its segments have over 256 MiB in sum
Example:
    a large array of zeros
Cure: make it smaller

F14 NotObject
Cause: rv ld: the type is not that of an object
Example:
    an executable
Cure: give the objects of which it was linked

A1 TruncatedArchive
Cause: the file ends before a member's head or contents do
Example:
    an archive without its last byte
Cure: copy it again, whole

A2 NotArchive
Cause: it does not begin with !<arch> and a line's end
Example:
    rv ld -o a --library main.o
Cure: give objects as they are, and archives by --library

A3 ThinArchive
Cause: it begins with !<thin>: its members stand in other files
Example:
    ar rcsT libx.a x.o
Cure: make it without T

A4 BadHead
Cause: a member's head has no end mark, or a size that is no decimal number
Example:
    a damaged archive
Cure: make it again

A5 BadName
Cause: a member's name is empty, has a control character or over 4,094 bytes,
  or has no end in the table of long names
Example:
    a damaged archive
Cure: make it again, of files with other names

A6 BsdArchive
Cause: the names or the index are those of BSD's archives
Example:
    an archive of macOS
Cure: make it with GNU ar or llvm-ar --format=gnu

A7 NoIndex
Cause: it has members and no index; ranlib makes one
Example:
    ar rcS libx.a x.o
Cure: ranlib libx.a

A8 BadArchiveIndex
Cause: the index has no end, or names a place where no member stands
Example:
    an archive that was changed behind its index
Cure: ranlib libx.a

X1 InputFault
Cause: standard input could not be read when the guest asked for it; what the
  guest wrote before is kept
Example:
    rv run a < ., a folder
Cure: give it a file or a pipe

X2 OutputFault
Cause: standard output could not be written, or took nothing
Example:
    a full disk
Cure: make room

Exited
Cause: the guest called 93: the status is a0 modulo 256
Example:
    .globl _start
    _start:
    li a0, 7
    li a7, 93
    ecall
Cure: none is needed: this is the end that a program asks for

Limit
Cause: as many instructions as were allowed have been executed
Example:
    .globl _start
    _start:
    j _start
Cure: give a greater --limit, or look for a loop without an end

Reached
Cause: the instruction that --until names comes next, and is not executed
Example:
    $ rv run --report --json --until f a.s
Cure: none is needed: name another place, or leave out --until to go on

Breakpoint
Cause: ebreak was executed
Example:
    .globl _start
    _start:
    ebreak
Cure: take it out, or end by call 93

Illegal
Cause: the bytes at the address spell no instruction
Example:
    .globl _start
    _start:
    nop
    .section .text.b, \"ax\"
    .align 4
    nop
Cure: jump over the gap, or end by call 93 before it

FetchOutside
Cause: not all bytes of the instruction at the address may be executed
Example:
    .globl _start
    _start:
    jr zero
Cure: end by call 93: nothing stands behind the text; keep ra, and jump to
  code alone

LoadText
Cause: a load of bytes that are code
Example:
    .globl _start
    _start:
    la a0, _start
    lw a1, 0(a0)
Cure: put what is read into .rodata or .data

LoadOutside
Cause: a load of bytes that may not be read, and none is code
Example:
    .globl _start
    _start:
    lw a0, 0(zero)
Cure: load the address first, as by la, and stay inside what stands there; load
  what is on the stack before sp goes back

StoreText
Cause: a store to bytes of which one is code
Example:
    .globl _start
    _start:
    la a0, _start
    sw zero, 0(a0)
Cure: put what is written into .data or .bss

StoreOutside
Cause: a store to bytes that may not be written, and none is code
Example:
    .globl _start
    _start:
    sw zero, 0(zero)
Cure: write inside .data, .bss or the stack, and not to .rodata; end a recursion
  before the stack is full

MisalignedAtomic
Cause: lr, sc or an atomic operation at an address that is no multiple of its
  width
Example:
    .globl _start
    _start:
    addi a0, sp, -15
    lr.w a1, (a0)
Cure: align the variable, as by .align 3";
