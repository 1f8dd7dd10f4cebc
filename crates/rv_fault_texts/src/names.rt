//! Names on which the place and the sentence of a fault depend: registers, and instructions by what their number may be.

ghost use Rattle.std.specs.Prelude.{◌<◌};

/// The names of the registers.
const REGISTERS: &str =
    "x0 x1 x2 x3 x4 x5 x6 x7 x8 x9 x10 x11 x12 x13 x14 x15 x16 x17 x18 x19 x20 x21 x22 x23 x24 x25 x26 x27 \
x28 x29 x30 x31 zero ra sp gp tp t0 t1 t2 s0 fp s1 a0 a1 a2 a3 a4 a5 a6 a7 s2 s3 s4 s5 s6 s7 s8 s9 s10 s11 t3 t4 t5 t6";
/// Instructions whose number has 12 bits and a sign (ISA manual, "RV32I Base Integer Instruction Set").
const TWELVE_BITS: &str =
    "addi xori ori andi slti sltiu addiw add and or xor slt sltu addw lb lh lw ld lbu lhu lwu sb sh sw sd jalr jr";
/// Directives that align.
const ALIGNMENTS: &str = ".balign";
/// Directives that align to a power of two by its exponent.
const EXPONENTS: &str = ".align .p2align";
/// What the numbers of statements may be: of those of 12 bits, shifts of 64 and of 32 bits, those of the upper 20 bits, and
/// directives that align or count bytes.
const RANGES: [(&str, &str); 7] = [
    (TWELVE_BITS, "-2048 to 2047"),
    ("slli srli srai sll srl sra", "0 to 63"),
    ("slliw srliw sraiw sllw srlw sraw", "0 to 31"),
    ("lui auipc", "0 to 1048575"),
    (ALIGNMENTS, "a power of two up to 4096"),
    (EXPONENTS, "0 to 12"),
    (".zero .space .skip", "0 or more"),
];
/// Instructions after which the next is not executed.
const JUMPS: &str = "j jr ret tail jump c.j c.jr";
/// Directives that go to a section.
const SECTIONS: &str = ".text .data .rodata .bss .section";
/// Directives after which a name has another meaning for other sources.
const GLOBALIZERS: &str = ".globl .global .weak";
/// Names that the linker defines.
const LINKER_SYMBOLS: &str = "_etext __bss_start _edata _end __global_pointer$";
/// Directives that name a symbol and refer to nothing.
const SILENT: &str =
    ".globl .global .weak .local .type .size .hidden .protected .internal .file .ident .attribute .option";
/// Loads and stores of two, four and eight bytes.
const HALVES: &str = "lh lhu sh";

const WORDS: &str = "lw lwu sw";

const DOUBLES: &str = "ld sd";

/// Whether a name is one of the words of a text.
fn is_among(name: &[u8], words: &str) -> bool {
    for word in words.split(' ') {
        if word.as_bytes() == name {
            return true;
        }
    }
    false
}

/// Whether a name is a register's.
pub(crate) fn is_register(name: &[u8]) -> bool {
    is_among(name, REGISTERS)
}

/// Whether a name is that of an operator that asks for a part of an address, behind a percent sign.
pub(crate) fn is_operator(name: &[u8]) -> bool {
    is_among(name, "hi lo pcrel_hi pcrel_lo")
}

/// Whether a name is x0's.
pub(crate) fn is_zero(name: &[u8]) -> bool {
    is_among(name, "x0 zero")
}

/// Whether the statement defines a constant.
pub(crate) fn is_assignment(mnemonic: &[u8]) -> bool {
    is_among(mnemonic, ".set .equ")
}

/// Whether the statement defines the name that comes first in it, in this language or in that of GNU as.
pub(crate) fn is_definer(mnemonic: &[u8]) -> bool {
    is_among(mnemonic, ".set .equ .equiv .eqv .comm .lcomm .weakref")
}

/// Whether the instruction is a load or a store.
pub(crate) fn is_access(mnemonic: &[u8]) -> bool {
    is_among(mnemonic, "lb lh lw ld lbu lhu lwu sb sh sw sd")
}

/// Whether the statement aligns.
pub(crate) fn is_alignment(mnemonic: &[u8]) -> bool {
    is_among(mnemonic, ALIGNMENTS) || is_among(mnemonic, EXPONENTS)
}

/// Whether the statement is of values of 32 bits, which an address may pass.
pub(crate) fn is_word(mnemonic: &[u8]) -> bool {
    is_among(mnemonic, ".word .long .4byte")
}

/// Whether a number in a range of the instruction may be none that it takes, or the statement counts in powers of two.
pub(crate) fn has_gaps(mnemonic: &[u8]) -> bool {
    mnemonic.starts_with(b"c.") || is_among(mnemonic, ALIGNMENTS)
}

/// Whether the statement begins a macro.
pub(crate) fn is_macro(mnemonic: &[u8]) -> bool {
    is_among(mnemonic, ".macro")
}

/// Whether the instruction goes to a label and keeps no address to return to.
pub(crate) fn is_direct_jump(mnemonic: &[u8]) -> bool {
    is_among(mnemonic, "j c.j tail jump")
}

/// Whether the instruction jumps to an address in a register.
pub(crate) fn is_register_jump(mnemonic: &[u8]) -> bool {
    is_among(mnemonic, "jr jalr c.jr c.jalr")
}

/// Whether a name is that of the register of the return address.
pub(crate) fn is_link(name: &[u8]) -> bool {
    is_among(name, "ra x1")
}

/// Whether a name is the stack pointer's.
pub(crate) fn is_stack(name: &[u8]) -> bool {
    is_among(name, "sp x2")
}

/// Whether the instruction only adds a number to a register.
pub(crate) fn is_addition(mnemonic: &[u8]) -> bool {
    is_among(mnemonic, "addi c.addi c.addi16sp")
}

/// Whether the instruction writes no register.
pub(crate) fn is_store(mnemonic: &[u8]) -> bool {
    is_among(mnemonic, "sb sh sw sd c.sw c.sd")
}

/// Whether the statement neither fills its section nor moves in it.
pub(crate) fn is_quiet(mnemonic: &[u8]) -> bool {
    is_silent(mnemonic) || is_assignment(mnemonic)
}

/// Whether the next instruction is reached by a label alone.
pub(crate) fn is_jump(mnemonic: &[u8]) -> bool {
    is_among(mnemonic, JUMPS)
}

/// Whether the instruction is a jump that may keep the address to return to.
pub(crate) fn is_jump_and_link(mnemonic: &[u8]) -> bool {
    is_among(mnemonic, "jal jalr")
}

/// Whether the instruction loads a number.
pub(crate) fn is_load_of_number(mnemonic: &[u8]) -> bool {
    is_among(mnemonic, "li")
}

/// Whether the linker defines a name.
pub(crate) fn is_linker_symbol(name: &[u8]) -> bool {
    is_among(name, LINKER_SYMBOLS)
}

/// Whether the statement goes to a section.
pub(crate) fn is_section(mnemonic: &[u8]) -> bool {
    is_among(mnemonic, SECTIONS)
}

/// Whether the statement shows a name to other sources.
pub(crate) fn is_globalizer(mnemonic: &[u8]) -> bool {
    is_among(mnemonic, GLOBALIZERS)
}

/// Whether the statement refers to none of the names in it.
pub(crate) fn is_silent(mnemonic: &[u8]) -> bool {
    is_among(mnemonic, SILENT)
}

/// Whether the statement gives a name's size.
pub(crate) fn is_size(mnemonic: &[u8]) -> bool {
    is_among(mnemonic, ".size")
}

/// The bytes that a load or a store moves, where they are more than one.
pub(crate) fn width_of(mnemonic: &[u8]) -> u64
    ensures { 0 < result }
{
    if is_among(mnemonic, DOUBLES) {
        8
    } else if is_among(mnemonic, WORDS) {
        4
    } else if is_among(mnemonic, HALVES) {
        2
    } else {
        1
    }
}

/// What the number of a statement may be, in words, where it is known; `c.` mnemonics aside.
pub(crate) fn range_of(mnemonic: &[u8]) -> Option<&'static str> {
    for (words, range) in RANGES {
        if is_among(mnemonic, words) {
            return Some(range);
        }
    }
    None
}
