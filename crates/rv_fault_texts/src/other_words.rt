//! Words of other assemblers and simulators (MIPS, x86, Arm, GNU as, RARS), and what is written here instead.

/// A word, and what is said of it behind its name.
type Row = (&'static str, &'static str);

/// Instructions, in the order of their bytes.
const INSTRUCTIONS: [Row; 28] = [
    ("addiu", "addi adds a number"),
    ("addu", "add adds registers"),
    ("b", "j jumps to a label"),
    ("bl", "call calls a function"),
    ("cmp", "branches compare: beq, bne, blt, bge"),
    ("dec", "addi with -1 does it"),
    ("exit", "li a7, 93 and ecall exit"),
    ("halt", "li a7, 93 and ecall end the run"),
    ("hlt", "li a7, 93 and ecall end the run"),
    ("inc", "addi with 1 does it"),
    ("int", "ecall calls the environment"),
    ("jmp", "j jumps to a label"),
    ("ldr", "lw and ld load"),
    ("load", "lw and ld load"),
    ("mfhi", "mulh and rem have results of their own"),
    ("mflo", "mul and div have results of their own"),
    ("mov", "mv copies a register, li loads a number"),
    ("move", "mv copies a register"),
    ("muli", "li loads the number, and mul multiplies"),
    ("pop", "ld from sp and addi to sp do it"),
    ("push", "addi to sp and sd do it"),
    ("store", "sw and sd store"),
    ("str", "sw and sd store"),
    ("subi", "addi with the number's negative does it"),
    ("subiw", "addiw with the number's negative does it"),
    ("subu", "sub subtracts registers"),
    ("svc", "ecall calls the environment"),
    ("syscall", "ecall calls the environment"),
];

/// Directives, in the order of their bytes.
const DIRECTIVES: [Row; 16] = [
    (".asciiz", ".asciz does it"),
    (
        ".double",
        "floating point is left out, and .dword has its bits",
    ),
    (".end", "nothing has to stand there"),
    (".ent", "nothing has to stand there"),
    (".eqv", ".equ NAME, VALUE does it"),
    (".extern", "a name without a definition is another source's"),
    (".fill", ".zero fills with zeros, .byte with others"),
    (
        ".float",
        "floating point is left out, and .word has its bits",
    ),
    (".int", ".word does it"),
    (".long", ".word does it"),
    (".octa", "two .dword do it"),
    (".org", ".zero and .balign move on"),
    (".short", ".half does it"),
    (
        ".single",
        "floating point is left out, and .word has its bits",
    ),
    (".stringz", ".asciz does it"),
    (".word64", ".dword does it"),
];

/// What is left out by name, in the order of its bytes, and what does instead.
const LEFT_OUT: [Row; 8] = [
    ("//", "a comment begins with #"),
    (".comm", "a label and .zero in .bss do it, with .globl"),
    (".if", "one source for each case does it"),
    (
        ".include",
        "give its source to rv as well, and make its names global",
    ),
    (".insn", "the bytes of an instruction cannot be given"),
    (
        ".macro",
        "write its lines where it is used, or make it a function",
    ),
    (".rept", "write its lines as often, or a loop"),
    ("unimp", "ebreak ends a run"),
];

/// What is written here in the place of an instruction of others.
pub(crate) fn instruction_instead(word: &[u8]) -> Option<&'static str> {
    find(&INSTRUCTIONS, word)
}

/// What is written here in the place of a directive of others.
pub(crate) fn directive_instead(word: &[u8]) -> Option<&'static str> {
    find(&DIRECTIVES, word)
}

/// What is written here in the place of what is left out.
pub(crate) fn left_out_instead(word: &[u8]) -> Option<&'static str> {
    find(&LEFT_OUT, word)
}

fn find(rows: &[Row], word: &[u8]) -> Option<&'static str> {
    for (name, words) in rows {
        if name.as_bytes() == word {
            return Some(*words);
        }
    }
    None
}
