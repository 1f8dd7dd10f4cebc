//! The kinds of relocations, their numbers in an object file, and how many bytes each changes.
//!
//! Source: RISC-V ELF psABI, the section "Relocations", its table of relocation types.

ghost use Rattle.std.specs.Prelude.{◌≡◌, ◌↔◌, Some};
ghost use Rattle.rv_isa.specs.declared.kind.Kind.{Kind};
ghost use Rattle.rv_isa.specs.Kinds.{number_of, width_of};

/// What a relocation changes, and by which value: the psABI's name without `R_RISCV_`.
///
/// S is the symbol's value, A the addend, P the place's address.
#[derive(Clone, Copy, PartialEq, Eq, Drop)]
pub enum Kind {
    /// Changes nothing.
    None,
    /// `R_RISCV_32`: four bytes, S + A.
    Abs32,
    /// `R_RISCV_64`: eight bytes, S + A.
    Abs64,
    /// A conditional branch, S + A - P.
    Branch,
    /// `jal`, S + A - P.
    Jal,
    /// `auipc` and `jalr`, S + A - P; deprecated, as `CallPlt`.
    Call,
    /// `auipc` and `jalr`, S + A - P.
    CallPlt,
    /// `auipc`, the upper part of S + A - P.
    PcrelHi20,
    /// An I-type, the lower part of what the symbol's `PcrelHi20` has.
    PcrelLo12I,
    /// An S-type, the lower part of what the symbol's `PcrelHi20` has.
    PcrelLo12S,
    /// `lui`, the upper part of S + A.
    Hi20,
    /// An I-type, the lower part of S + A.
    Lo12I,
    /// An S-type, the lower part of S + A.
    Lo12S,
    /// Adds S + A to one byte.
    Add8,
    /// Adds S + A to two bytes.
    Add16,
    /// Adds S + A to four bytes.
    Add32,
    /// Adds S + A to eight bytes.
    Add64,
    /// Takes S + A off one byte.
    Sub8,
    /// Takes S + A off two bytes.
    Sub16,
    /// Takes S + A off four bytes.
    Sub32,
    /// Takes S + A off eight bytes.
    Sub64,
    /// An alignment in code; changes nothing.
    Align,
    /// `c.beqz` or `c.bnez`, S + A - P.
    RvcBranch,
    /// `c.j`, S + A - P.
    RvcJump,
    /// Allows that the instruction at its place is shortened; changes nothing.
    Relax,
    /// Takes S + A off the low six bits of a byte.
    Sub6,
    /// The low six bits of a byte, S + A.
    Set6,
    /// One byte, S + A.
    Set8,
    /// Two bytes, S + A.
    Set16,
    /// Four bytes, S + A, whatever its size.
    Set32,
    /// `R_RISCV_32_PCREL`: four bytes, S + A - P.
    Pcrel32,
}

impl Kind {
    /// The kind's number in the low half of a relocation's `r_info`.
    pub fn number(self) -> u32
        ensures { result ≡ number_of self }
    {
        match self {
            Kind::None => 0,
            Kind::Abs32 => 1,
            Kind::Abs64 => 2,
            Kind::Branch => 16,
            Kind::Jal => 17,
            Kind::Call => 18,
            Kind::CallPlt => 19,
            Kind::PcrelHi20 => 23,
            Kind::PcrelLo12I => 24,
            Kind::PcrelLo12S => 25,
            Kind::Hi20 => 26,
            Kind::Lo12I => 27,
            Kind::Lo12S => 28,
            Kind::Add8 => 33,
            Kind::Add16 => 34,
            Kind::Add32 => 35,
            Kind::Add64 => 36,
            Kind::Sub8 => 37,
            Kind::Sub16 => 38,
            Kind::Sub32 => 39,
            Kind::Sub64 => 40,
            Kind::Align => 43,
            Kind::RvcBranch => 44,
            Kind::RvcJump => 45,
            Kind::Relax => 51,
            Kind::Sub6 => 52,
            Kind::Set6 => 53,
            Kind::Set8 => 54,
            Kind::Set16 => 55,
            Kind::Set32 => 56,
            Kind::Pcrel32 => 57,
        }
    }

    /// How many bytes its field has, from its place on: 0, 1, 2, 4 or 8.
    pub fn width(self) -> usize
        ensures { result ≡ width_of self }
    {
        match self {
            Kind::None | Kind::Align | Kind::Relax => 0,
            Kind::Add8 | Kind::Sub8 | Kind::Sub6 | Kind::Set6 | Kind::Set8 => 1,
            Kind::Add16 | Kind::Sub16 | Kind::Set16 | Kind::RvcBranch | Kind::RvcJump => 2,
            Kind::Abs64 | Kind::Call | Kind::CallPlt | Kind::Add64 | Kind::Sub64 => 8,
            Kind::Abs32 | Kind::Pcrel32 | Kind::Add32 | Kind::Sub32 | Kind::Set32 => 4,
            Kind::Branch | Kind::Jal => 4,
            Kind::Hi20 | Kind::Lo12I | Kind::Lo12S => 4,
            Kind::PcrelHi20 | Kind::PcrelLo12I | Kind::PcrelLo12S => 4,
        }
    }
}

/// The kind of this number; `None` for each number that is no kind's.
pub fn kind_of(number: u32) -> Option<Kind>
    ensures { (kind : Kind) → result ≡ Some kind ↔ number_of kind ≡ number }
{
    let kind = match number {
        0 => Kind::None,
        1 => Kind::Abs32,
        2 => Kind::Abs64,
        16 => Kind::Branch,
        17 => Kind::Jal,
        18 => Kind::Call,
        19 => Kind::CallPlt,
        23 => Kind::PcrelHi20,
        24 => Kind::PcrelLo12I,
        25 => Kind::PcrelLo12S,
        26 => Kind::Hi20,
        27 => Kind::Lo12I,
        28 => Kind::Lo12S,
        33 => Kind::Add8,
        34 => Kind::Add16,
        35 => Kind::Add32,
        36 => Kind::Add64,
        37 => Kind::Sub8,
        38 => Kind::Sub16,
        39 => Kind::Sub32,
        40 => Kind::Sub64,
        43 => Kind::Align,
        44 => Kind::RvcBranch,
        45 => Kind::RvcJump,
        51 => Kind::Relax,
        52 => Kind::Sub6,
        53 => Kind::Set6,
        54 => Kind::Set8,
        55 => Kind::Set16,
        56 => Kind::Set32,
        57 => Kind::Pcrel32,
        _ => return None,
    };
    Some(kind)
}
