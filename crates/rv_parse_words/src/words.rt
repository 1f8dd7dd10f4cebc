//! The words that may begin a statement.
//!
//! Mnemonics and directives stand in a table of short lists each, by a place that is made of a word's bytes: a look-up
//! compares it with few. An atomic has no row of its own: it is an operation and an ending for its width
//! and its order, since all of them in one table would be 88 rows that say the same. The tables are data, so one
//! contract on the look-up covers every row.

ghost use Rattle.std.specs.Prelude.{◌≡◌, ◌<◌, [], length, map, slice_index_or, ◌||◌, ◌&&◌, ◌+◌, ◌*◌, ◌%◌, option_map, is_some, codes};
ghost use Rattle.std.specs.Option.{option_or};
ghost use Rattle.rv_parse_laws.specs.Words.{function_words, left_out_words, left_out_options, section_types, choices, is_among, is_frame, frame_directive, directive_words, directive_named, beginning, register, named_in, atomic_forms, form_behind, atomic_in, atomic_operations, instruction_words, mnemonic_named};
ghost use Rattle.rv_statement_laws.specs.declared.mnemonic.Mnemonic.TheVariants.{LoadReserved};
ghost use Rattle.std.specs.List.{list_all};
ghost use Rattle.rv_parse_laws.specs.Syntax.{access_sets, with_constant, is_flag};
ghost use Rattle.rv_parse_laws.specs.Faults.{is_known_flag};
ghost use Rattle.rv_parse_words.specs.View.{named_of, named_rows, second, last_byte};

use rv_expression::LONGEST_NAME;
use rv_isa::{
    AccessSet, AtomicForm, AtomicOperation, BranchOperation, ImmediateOperation, LoadOperation,
    Reg, RegisterOperation, ShiftOperation, StoreOperation, UpperOperation, reg_named,
};
use rv_parcel::ParcelOperation;
use rv_parse_laws::Beginning;
use rv_statement_laws::{
    Binding, Choice, CompareOperation, DirectiveWord, Function, Mnemonic, Standard,
    SwappedBranchOperation, UnaryOperation, Width, ZeroBranchOperation,
};

/// What the language leaves out by name: a mnemonic, and directives.
const LEFT_OUT_WORDS: [&str; 12] = [
    "unimp",
    ".comm",
    ".macro",
    ".rept",
    ".if",
    ".include",
    ".pushsection",
    ".popsection",
    ".previous",
    ".insn",
    ".uleb128",
    ".loc",
];

/// The options that the language leaves out by name.
const LEFT_OUT_OPTIONS: [&str; 2] = ["arch", "pic"];

/// The word is in the list.
fn is_among(words: &[&str], word: &[u8]) -> bool
    ensures { result ≡ is_among (map (λ w. w.now) words.now) word.now }
{
    for candidate in words {
        if candidate.as_bytes() == word {
            return true;
        }
    }
    false
}

/// A mnemonic or a directive that the language leaves out by name.
#[tactic(auto, unfolding(rv_parse_laws::specs::Words::left_out_words))]
pub fn is_left_out(word: &[u8]) -> bool
    ensures { result ≡ is_among left_out_words word.now }
{
    is_among(&LEFT_OUT_WORDS, word)
}

/// An option that the language leaves out by name.
#[tactic(auto, unfolding(rv_parse_laws::specs::Words::left_out_options))]
pub fn is_left_out_option(word: &[u8]) -> bool
    ensures { result ≡ is_among left_out_options word.now }
{
    is_among(&LEFT_OUT_OPTIONS, word)
}

/// The types that sections may have.
const SECTION_TYPES: [&str; 3] = ["progbits", "nobits", "note"];

/// A type that a section may have.
#[tactic(auto, unfolding(rv_parse_laws::specs::Words::section_types))]
pub fn is_section_type(word: &[u8]) -> bool
    ensures { result ≡ is_among section_types word.now }
{
    is_among(&SECTION_TYPES, word)
}

/// A letter of a section's flags: a w x, and M and S, which are dropped.
fn is_flag(letter: u8) -> bool
    ensures { result ≡ is_flag letter }
{
    matches!(letter, b'a' | b'w' | b'x' | b'M' | b'S')
}

/// A letter of flags that the language has, or leaves out by name.
fn is_known_flag(letter: u8) -> bool
    ensures { result ≡ is_known_flag letter }
{
    is_flag(letter) || matches!(letter, b'G' | b'T')
}

/// The flags of a section.
pub fn are_flags(letters: &[u8]) -> bool
    ensures { result ≡ list_all is_flag letters.now }
{
    letters.iter().all(|letter| is_flag(*letter))
}

/// Flags that the language has, or leaves out by name.
pub fn are_known_flags(letters: &[u8]) -> bool
    ensures { result ≡ list_all is_known_flag letters.now }
{
    letters.iter().all(|letter| is_known_flag(*letter))
}

/// The register of this name.
pub fn register_named(name: &[u8]) -> Option<Reg>
    ensures { result ≡ register name.now }
{
    reg_named(name)
}

/// The mnemonics but the atomics, by three times their second byte and their last one, modulo 64: so few share a list.
static INSTRUCTIONS: [&[(&str, Mnemonic)]; 64] = [
    &[("c.mv", Mnemonic::Parcel(ParcelOperation::Mv))],
    &[
        ("sub", Mnemonic::Registers(RegisterOperation::Sub)),
        ("not", Mnemonic::Unary(UnaryOperation::Not)),
        ("c.lw", Mnemonic::Parcel(ParcelOperation::Lw)),
        ("c.sw", Mnemonic::Parcel(ParcelOperation::Sw)),
        ("c.addiw", Mnemonic::Parcel(ParcelOperation::Addiw)),
        ("c.subw", Mnemonic::Parcel(ParcelOperation::Subw)),
        ("c.addw", Mnemonic::Parcel(ParcelOperation::Addw)),
    ],
    &[
        ("auipc", Mnemonic::Upper(UpperOperation::Auipc)),
        ("srl", Mnemonic::Registers(RegisterOperation::Srl)),
    ],
    &[],
    &[
        ("snez", Mnemonic::Unary(UnaryOperation::Snez)),
        ("bnez", Mnemonic::ZeroBranch(ZeroBranchOperation::Bnez)),
        ("la", Mnemonic::La),
        ("c.beqz", Mnemonic::Parcel(ParcelOperation::Beqz)),
        ("c.bnez", Mnemonic::Parcel(ParcelOperation::Bnez)),
    ],
    &[],
    &[],
    &[("mulh", Mnemonic::Registers(RegisterOperation::Mulh))],
    &[
        ("lui", Mnemonic::Upper(UpperOperation::Lui)),
        ("lb", Mnemonic::Load(LoadOperation::Lb)),
        ("sb", Mnemonic::Store(StoreOperation::Sb)),
        ("or", Mnemonic::Registers(RegisterOperation::Or)),
        ("jr", Mnemonic::Jr),
    ],
    &[],
    &[],
    &[("mul", Mnemonic::Registers(RegisterOperation::Mul))],
    &[],
    &[
        ("srliw", Mnemonic::Shift(ShiftOperation::Srliw)),
        ("sraiw", Mnemonic::Shift(ShiftOperation::Sraiw)),
        ("srlw", Mnemonic::Registers(RegisterOperation::Srlw)),
        ("sraw", Mnemonic::Registers(RegisterOperation::Sraw)),
    ],
    &[],
    &[
        ("jal", Mnemonic::Jal),
        ("call", Mnemonic::Call),
        ("tail", Mnemonic::Tail),
        ("jump", Mnemonic::Jump),
    ],
    &[
        ("ld", Mnemonic::Load(LoadOperation::Ld)),
        ("sd", Mnemonic::Store(StoreOperation::Sd)),
        ("add", Mnemonic::Registers(RegisterOperation::Add)),
    ],
    &[
        ("ebreak", Mnemonic::Ebreak),
        ("sext.b", Mnemonic::Unary(UnaryOperation::SextB)),
        ("zext.b", Mnemonic::Unary(UnaryOperation::ZextB)),
    ],
    &[],
    &[],
    &[
        ("fence", Mnemonic::Fence),
        ("mulhsu", Mnemonic::Registers(RegisterOperation::Mulhsu)),
        ("mulhu", Mnemonic::Registers(RegisterOperation::Mulhu)),
    ],
    &[
        ("jalr", Mnemonic::Jalr),
        ("addi", Mnemonic::Immediate(ImmediateOperation::Addi)),
        ("ecall", Mnemonic::Ecall),
    ],
    &[
        ("subw", Mnemonic::Registers(RegisterOperation::Subw)),
        ("mulw", Mnemonic::Registers(RegisterOperation::Mulw)),
        ("neg", Mnemonic::Unary(UnaryOperation::Neg)),
    ],
    &[
        ("sext.h", Mnemonic::Unary(UnaryOperation::SextH)),
        ("zext.h", Mnemonic::Unary(UnaryOperation::ZextH)),
    ],
    &[("mv", Mnemonic::Unary(UnaryOperation::Mv))],
    &[],
    &[
        ("bge", Mnemonic::Branch(BranchOperation::Bge)),
        ("lwu", Mnemonic::Load(LoadOperation::Lwu)),
    ],
    &[("lbu", Mnemonic::Load(LoadOperation::Lbu))],
    &[
        ("lw", Mnemonic::Load(LoadOperation::Lw)),
        ("sw", Mnemonic::Store(StoreOperation::Sw)),
        ("rem", Mnemonic::Registers(RegisterOperation::Rem)),
    ],
    &[],
    &[("fence.tso", Mnemonic::FenceTso)],
    &[],
    &[
        ("beq", Mnemonic::Branch(BranchOperation::Beq)),
        ("lh", Mnemonic::Load(LoadOperation::Lh)),
        ("sh", Mnemonic::Store(StoreOperation::Sh)),
    ],
    &[],
    &[],
    &[
        ("addiw", Mnemonic::Immediate(ImmediateOperation::Addiw)),
        ("addw", Mnemonic::Registers(RegisterOperation::Addw)),
        ("ret", Mnemonic::Ret),
    ],
    &[
        ("remu", Mnemonic::Registers(RegisterOperation::Remu)),
        ("li", Mnemonic::Li),
    ],
    &[("lla", Mnemonic::La)],
    &[
        ("remw", Mnemonic::Registers(RegisterOperation::Remw)),
        ("remuw", Mnemonic::Registers(RegisterOperation::Remuw)),
        ("negw", Mnemonic::Unary(UnaryOperation::Negw)),
        ("sext.w", Mnemonic::Unary(UnaryOperation::SextW)),
        ("zext.w", Mnemonic::Unary(UnaryOperation::ZextW)),
    ],
    &[],
    &[],
    &[
        ("seqz", Mnemonic::Unary(UnaryOperation::Seqz)),
        ("sgt", Mnemonic::Compare(CompareOperation::Sgt)),
        ("beqz", Mnemonic::ZeroBranch(ZeroBranchOperation::Beqz)),
        ("bgt", Mnemonic::SwappedBranch(SwappedBranchOperation::Bgt)),
        ("ble", Mnemonic::SwappedBranch(SwappedBranchOperation::Ble)),
    ],
    &[
        ("bgeu", Mnemonic::Branch(BranchOperation::Bgeu)),
        ("sgtu", Mnemonic::Compare(CompareOperation::Sgtu)),
        (
            "bgtu",
            Mnemonic::SwappedBranch(SwappedBranchOperation::Bgtu),
        ),
        ("j", Mnemonic::J),
    ],
    &[],
    &[("c.sub", Mnemonic::Parcel(ParcelOperation::Sub))],
    &[
        ("lhu", Mnemonic::Load(LoadOperation::Lhu)),
        ("slti", Mnemonic::Immediate(ImmediateOperation::Slti)),
        ("slli", Mnemonic::Shift(ShiftOperation::Slli)),
    ],
    &[
        ("and", Mnemonic::Registers(RegisterOperation::And)),
        ("c.ld", Mnemonic::Parcel(ParcelOperation::Ld)),
        ("c.sd", Mnemonic::Parcel(ParcelOperation::Sd)),
        ("c.and", Mnemonic::Parcel(ParcelOperation::And)),
        ("c.add", Mnemonic::Parcel(ParcelOperation::Add)),
    ],
    &[
        ("bne", Mnemonic::Branch(BranchOperation::Bne)),
        ("sgtz", Mnemonic::Unary(UnaryOperation::Sgtz)),
        ("bgez", Mnemonic::ZeroBranch(ZeroBranchOperation::Bgez)),
        ("bgtz", Mnemonic::ZeroBranch(ZeroBranchOperation::Bgtz)),
    ],
    &[
        ("sll", Mnemonic::Registers(RegisterOperation::Sll)),
        ("divu", Mnemonic::Registers(RegisterOperation::Divu)),
    ],
    &[("div", Mnemonic::Registers(RegisterOperation::Div))],
    &[
        ("divw", Mnemonic::Registers(RegisterOperation::Divw)),
        ("divuw", Mnemonic::Registers(RegisterOperation::Divuw)),
    ],
    &[
        ("andi", Mnemonic::Immediate(ImmediateOperation::Andi)),
        ("c.addi", Mnemonic::Parcel(ParcelOperation::Addi)),
        ("c.li", Mnemonic::Parcel(ParcelOperation::Li)),
        ("c.lui", Mnemonic::Parcel(ParcelOperation::Lui)),
        ("c.srli", Mnemonic::Parcel(ParcelOperation::Srli)),
        ("c.srai", Mnemonic::Parcel(ParcelOperation::Srai)),
        ("c.andi", Mnemonic::Parcel(ParcelOperation::Andi)),
        ("c.slli", Mnemonic::Parcel(ParcelOperation::Slli)),
    ],
    &[("c.j", Mnemonic::Parcel(ParcelOperation::J))],
    &[("c.ebreak", Mnemonic::Parcel(ParcelOperation::Ebreak))],
    &[("xori", Mnemonic::Immediate(ImmediateOperation::Xori))],
    &[("sra", Mnemonic::Registers(RegisterOperation::Sra))],
    &[
        ("blt", Mnemonic::Branch(BranchOperation::Blt)),
        ("slt", Mnemonic::Registers(RegisterOperation::Slt)),
        ("c.addi4spn", Mnemonic::Parcel(ParcelOperation::Addi4spn)),
    ],
    &[
        ("bltu", Mnemonic::Branch(BranchOperation::Bltu)),
        ("sltiu", Mnemonic::Immediate(ImmediateOperation::Sltiu)),
        ("sltu", Mnemonic::Registers(RegisterOperation::Sltu)),
        (
            "bleu",
            Mnemonic::SwappedBranch(SwappedBranchOperation::Bleu),
        ),
    ],
    &[
        ("c.nop", Mnemonic::Parcel(ParcelOperation::Nop)),
        ("c.addi16sp", Mnemonic::Parcel(ParcelOperation::Addi16sp)),
        ("c.lwsp", Mnemonic::Parcel(ParcelOperation::Lwsp)),
        ("c.ldsp", Mnemonic::Parcel(ParcelOperation::Ldsp)),
        ("c.swsp", Mnemonic::Parcel(ParcelOperation::Swsp)),
        ("c.sdsp", Mnemonic::Parcel(ParcelOperation::Sdsp)),
    ],
    &[
        ("slliw", Mnemonic::Shift(ShiftOperation::Slliw)),
        ("sllw", Mnemonic::Registers(RegisterOperation::Sllw)),
    ],
    &[
        ("c.xor", Mnemonic::Parcel(ParcelOperation::Xor)),
        ("c.or", Mnemonic::Parcel(ParcelOperation::Or)),
        ("c.jr", Mnemonic::Parcel(ParcelOperation::Jr)),
        ("c.jalr", Mnemonic::Parcel(ParcelOperation::Jalr)),
    ],
    &[("nop", Mnemonic::Nop)],
    &[
        ("sltz", Mnemonic::Unary(UnaryOperation::Sltz)),
        ("bltz", Mnemonic::ZeroBranch(ZeroBranchOperation::Bltz)),
        ("blez", Mnemonic::ZeroBranch(ZeroBranchOperation::Blez)),
    ],
    &[
        ("ori", Mnemonic::Immediate(ImmediateOperation::Ori)),
        ("srli", Mnemonic::Shift(ShiftOperation::Srli)),
        ("srai", Mnemonic::Shift(ShiftOperation::Srai)),
        ("xor", Mnemonic::Registers(RegisterOperation::Xor)),
    ],
];

/// The atomics that have a second source.
const ATOMICS: [(&str, AtomicOperation); 10] = [
    ("sc", AtomicOperation::Sc),
    ("amoswap", AtomicOperation::Amoswap),
    ("amoadd", AtomicOperation::Amoadd),
    ("amoxor", AtomicOperation::Amoxor),
    ("amoand", AtomicOperation::Amoand),
    ("amoor", AtomicOperation::Amoor),
    ("amomin", AtomicOperation::Amomin),
    ("amomax", AtomicOperation::Amomax),
    ("amominu", AtomicOperation::Amominu),
    ("amomaxu", AtomicOperation::Amomaxu),
];

/// What stands after an atomic's operation.
const FORMS: [(&str, AtomicForm); 8] = [
    (
        ".w",
        AtomicForm {
            double: false,
            acquire: false,
            release: false,
        },
    ),
    (
        ".w.aq",
        AtomicForm {
            double: false,
            acquire: true,
            release: false,
        },
    ),
    (
        ".w.rl",
        AtomicForm {
            double: false,
            acquire: false,
            release: true,
        },
    ),
    (
        ".w.aqrl",
        AtomicForm {
            double: false,
            acquire: true,
            release: true,
        },
    ),
    (
        ".d",
        AtomicForm {
            double: true,
            acquire: false,
            release: false,
        },
    ),
    (
        ".d.aq",
        AtomicForm {
            double: true,
            acquire: true,
            release: false,
        },
    ),
    (
        ".d.rl",
        AtomicForm {
            double: true,
            acquire: false,
            release: true,
        },
    ),
    (
        ".d.aqrl",
        AtomicForm {
            double: true,
            acquire: true,
            release: true,
        },
    ),
];

/// What a table has for a word.
fn named_in<X: Copy>(table: &[(&str, X)], word: &[u8]) -> Option<X>
    ensures { result ≡ named_in (map named_of table.now) word.now }
{
    for row in table {
        if row.0.as_bytes() == word {
            return Some(row.1);
        }
    }
    None
}

/// The width and the ordering of an atomic, after its operation.
#[tactic(auto, unfolding(rv_parse_laws::specs::Words::atomic_forms))]
fn form_of(end: &[u8]) -> Option<AtomicForm>
    ensures { result ≡ named_in atomic_forms end.now }
{
    named_in(&FORMS, end)
}

/// The form of an atomic whose operation stands in front.
fn form_behind(front: &[u8], word: &[u8]) -> Option<AtomicForm>
    ensures { result ≡ form_behind front.now word.now }
{
    match word.strip_prefix(front) {
        Some(end) => form_of(end),
        None => None,
    }
}

/// The atomic of a table that the word is.
fn atomic_in(table: &[(&str, AtomicOperation)], word: &[u8]) -> Option<Mnemonic>
    ensures { result ≡ atomic_in (map named_of table.now) word.now }
{
    for row in table {
        if let Some(form) = form_behind(row.0.as_bytes(), word) {
            return Some(Mnemonic::Atomic(row.1, form));
        }
    }
    None
}

/// The load-reserved or the atomic that the word is.
#[tactic(auto, unfolding(rv_parse_laws::specs::Words::atomic_operations))]
fn atomic_named(word: &[u8]) -> Option<Mnemonic>
    ensures { result
        ≡ option_or (option_map LoadReserved (form_behind (codes "lr") word.now))
        (atomic_in atomic_operations word.now) }
{
    match form_behind(b"lr", word) {
        Some(form) => Some(Mnemonic::LoadReserved(form)),
        None => atomic_in(&ATOMICS, word),
    }
}

/// The second byte of a word, and 0 where it has none.
fn second(word: &[u8]) -> u8
    ensures { result ≡ second word.now }
{
    match word {
        [_, second, ..] => *second,
        _ => 0,
    }
}

/// The last byte of a word, and 0 where it has none.
fn last_byte(word: &[u8]) -> u8
    ensures { result ≡ last_byte word.now }
{
    match word {
        [.., last] => *last,
        [] => 0,
    }
}

/// What the list of this index has for a word.
fn mnemonic_at(lists: &[&[(&str, Mnemonic)]], index: usize, word: &[u8]) -> Option<Mnemonic>
    requires { index < length lists.now }
    ensures { result ≡ named_in (slice_index_or (map named_rows lists.now) index []) word.now }
{
    named_in(lists[index], word)
}

/// The index of the list of a mnemonic.
fn instruction_place(word: &[u8]) -> usize
    ensures place { result ≡ (second word.now * 3 + last_byte word.now) % 64 }
    ensures within { result < 64 }
{
    (usize::from(second(word)) * 3 + usize::from(last_byte(word))) % 64
}

/// The mnemonic but the atomics that the word is: a look-up in its list.
fn instruction_named(word: &[u8]) -> Option<Mnemonic>
    ensures { result ≡ named_in instruction_words word.now }
{
    mnemonic_at(&INSTRUCTIONS, instruction_place(word), word)
}

/// The mnemonic that the word is; none begins as directives do.
#[tactic(auto, unfolding(rv_parse_laws::specs::Words::mnemonic_named, rv_parse_laws::specs::Words::instruction_words, rv_parse_laws::specs::Words::atomic_operations))]
fn mnemonic_named(word: &[u8]) -> Option<Mnemonic>
    ensures { result ≡ mnemonic_named word.now }
{
    if let [b'.', ..] = word {
        return None;
    }
    match instruction_named(word) {
        Some(mnemonic) => Some(mnemonic),
        None => atomic_named(word),
    }
}

/// The functions of a value.
const FUNCTIONS: [(&str, Function); 4] = [
    ("hi", Function::Hi),
    ("lo", Function::Lo),
    ("pcrel_hi", Function::PcrelHi),
    ("pcrel_lo", Function::PcrelLo),
];

/// The function of this name.
#[tactic(auto, unfolding(rv_parse_laws::specs::Words::function_words))]
pub fn function_named(word: &[u8]) -> Option<Function>
    ensures { result ≡ named_in function_words word.now }
{
    named_in(&FUNCTIONS, word)
}

/// The directives, by the last five bits of the byte behind their point: a letter's place in the alphabet, with `2`,
/// `4` and `8` beside `r`, `t` and `x`.
static DIRECTIVES: [&[(&str, DirectiveWord)]; 32] = [
    &[],
    &[
        (".align", DirectiveWord::AlignToPower),
        (".ascii", DirectiveWord::Ascii),
        (".asciz", DirectiveWord::Asciz),
        (".attribute", DirectiveWord::Ignored),
    ],
    &[
        (".bss", DirectiveWord::Enters(Standard::Bss)),
        (".balign", DirectiveWord::AlignToBytes),
        (".byte", DirectiveWord::Value(Width::Byte)),
    ],
    &[],
    &[
        (".data", DirectiveWord::Enters(Standard::Data)),
        (".dword", DirectiveWord::Value(Width::Double)),
    ],
    &[(".equ", DirectiveWord::Set)],
    &[(".file", DirectiveWord::Ignored)],
    &[
        (".globl", DirectiveWord::Binds(Binding::Global)),
        (".global", DirectiveWord::Binds(Binding::Global)),
    ],
    &[
        (".half", DirectiveWord::Value(Width::Half)),
        (".hidden", DirectiveWord::Ignored),
    ],
    &[
        (".ident", DirectiveWord::Ignored),
        (".internal", DirectiveWord::Ignored),
    ],
    &[],
    &[],
    &[(".local", DirectiveWord::Binds(Binding::Local))],
    &[],
    &[],
    &[(".option", DirectiveWord::Option)],
    &[
        (".p2align", DirectiveWord::AlignToPower),
        (".protected", DirectiveWord::Ignored),
    ],
    &[(".quad", DirectiveWord::Value(Width::Double))],
    &[
        (".rodata", DirectiveWord::Enters(Standard::Rodata)),
        (".2byte", DirectiveWord::Value(Width::Half)),
    ],
    &[
        (".section", DirectiveWord::Section),
        (".set", DirectiveWord::Set),
        (".string", DirectiveWord::Asciz),
        (".space", DirectiveWord::Zero),
        (".skip", DirectiveWord::Zero),
        (".size", DirectiveWord::Ignored),
    ],
    &[
        (".text", DirectiveWord::Enters(Standard::Text)),
        (".4byte", DirectiveWord::Value(Width::Word)),
        (".type", DirectiveWord::Ignored),
    ],
    &[],
    &[],
    &[
        (".weak", DirectiveWord::Binds(Binding::Weak)),
        (".word", DirectiveWord::Value(Width::Word)),
    ],
    &[(".8byte", DirectiveWord::Value(Width::Double))],
    &[],
    &[(".zero", DirectiveWord::Zero)],
    &[],
    &[],
    &[],
    &[],
    &[],
];

/// Call frame information, whatever follows the common front.
pub fn is_frame(word: &[u8]) -> bool
    ensures { result ≡ is_frame word.now }
{
    word.starts_with(b".cfi_")
}

/// The directive of call frame information, which has a name's length at most.
fn frame_directive(word: &[u8]) -> Option<DirectiveWord>
    ensures { result ≡ frame_directive word.now }
{
    if is_frame(word) && word.len() <= LONGEST_NAME {
        Some(DirectiveWord::Ignored)
    } else {
        None
    }
}

/// What the list of this index has for a word.
fn directive_at(
    lists: &[&[(&str, DirectiveWord)]],
    index: usize,
    word: &[u8],
) -> Option<DirectiveWord>
    requires { index < length lists.now }
    ensures { result ≡ named_in (slice_index_or (map named_rows lists.now) index []) word.now }
{
    named_in(lists[index], word)
}

/// The directive but those of call frames that the word is: a look-up among those with its second byte.
fn listed_directive(word: &[u8]) -> Option<DirectiveWord>
    ensures { result ≡ named_in directive_words word.now }
{
    directive_at(&DIRECTIVES, usize::from(second(word) % 32), word)
}

/// The directive that the word is.
#[tactic(auto, unfolding(rv_parse_laws::specs::Words::directive_named))]
fn directive_named(word: &[u8]) -> Option<DirectiveWord>
    ensures { result ≡ directive_named word.now }
{
    match listed_directive(word) {
        Some(directive) => Some(directive),
        None => frame_directive(word),
    }
}

/// What the word begins.
#[tactic(auto, unfolding(rv_parse_laws::specs::Words::beginning))]
pub fn beginning_with(word: &[u8]) -> Beginning
    ensures { result ≡ beginning word.now }
{
    if let Some(mnemonic) = mnemonic_named(word) {
        Beginning::Instruction(mnemonic)
    } else if let Some(directive) = directive_named(word) {
        Beginning::Directive(directive)
    } else {
        Beginning::Nothing
    }
}

/// What `.option` may say.
const OPTIONS: [(&str, Choice); 7] = [
    ("rvc", Choice::Rvc),
    ("norvc", Choice::Norvc),
    ("relax", Choice::Relax),
    ("norelax", Choice::Norelax),
    ("push", Choice::Push),
    ("pop", Choice::Pop),
    ("nopic", Choice::Nopic),
];

/// The choice of this name.
#[tactic(auto, unfolding(rv_parse_laws::specs::Words::choices))]
pub fn choice_named(word: &[u8]) -> Option<Choice>
    ensures { result ≡ named_in choices word.now }
{
    named_in(&OPTIONS, word)
}

/// The sets of accesses by their letters.
const ACCESSES: [(&str, AccessSet); 15] = [
    (
        "w",
        AccessSet {
            input: false,
            output: false,
            reads: false,
            writes: true,
        },
    ),
    (
        "r",
        AccessSet {
            input: false,
            output: false,
            reads: true,
            writes: false,
        },
    ),
    (
        "rw",
        AccessSet {
            input: false,
            output: false,
            reads: true,
            writes: true,
        },
    ),
    (
        "o",
        AccessSet {
            input: false,
            output: true,
            reads: false,
            writes: false,
        },
    ),
    (
        "ow",
        AccessSet {
            input: false,
            output: true,
            reads: false,
            writes: true,
        },
    ),
    (
        "or",
        AccessSet {
            input: false,
            output: true,
            reads: true,
            writes: false,
        },
    ),
    (
        "orw",
        AccessSet {
            input: false,
            output: true,
            reads: true,
            writes: true,
        },
    ),
    (
        "i",
        AccessSet {
            input: true,
            output: false,
            reads: false,
            writes: false,
        },
    ),
    (
        "iw",
        AccessSet {
            input: true,
            output: false,
            reads: false,
            writes: true,
        },
    ),
    (
        "ir",
        AccessSet {
            input: true,
            output: false,
            reads: true,
            writes: false,
        },
    ),
    (
        "irw",
        AccessSet {
            input: true,
            output: false,
            reads: true,
            writes: true,
        },
    ),
    (
        "io",
        AccessSet {
            input: true,
            output: true,
            reads: false,
            writes: false,
        },
    ),
    (
        "iow",
        AccessSet {
            input: true,
            output: true,
            reads: false,
            writes: true,
        },
    ),
    (
        "ior",
        AccessSet {
            input: true,
            output: true,
            reads: true,
            writes: false,
        },
    ),
    (
        "iorw",
        AccessSet {
            input: true,
            output: true,
            reads: true,
            writes: true,
        },
    ),
];

/// The set of accesses of these letters.
#[tactic(auto, unfolding(rv_parse_laws::specs::Syntax::access_sets))]
pub fn accesses_named(letters: &[u8]) -> Option<AccessSet>
    ensures { result ≡ named_in access_sets letters.now }
{
    named_in(&ACCESSES, letters)
}

/// The operation has a form with a constant.
pub fn has_constant(operation: RegisterOperation) -> bool
    ensures { result ≡ is_some (with_constant operation) }
{
    match operation {
        RegisterOperation::Add
        | RegisterOperation::Slt
        | RegisterOperation::Sltu
        | RegisterOperation::Xor
        | RegisterOperation::Or
        | RegisterOperation::And
        | RegisterOperation::Addw
        | RegisterOperation::Sll
        | RegisterOperation::Srl
        | RegisterOperation::Sra
        | RegisterOperation::Sllw
        | RegisterOperation::Srlw
        | RegisterOperation::Sraw => true,
        _ => false,
    }
}
