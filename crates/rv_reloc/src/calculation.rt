//! The value of a relocation.

ghost use Rattle.std.specs.Prelude.{◌≡◌};
ghost use Rattle.std.specs.Int.{w64, int_wrap};
ghost use Rattle.rv_reloc_laws.specs.Values as is;

use rv_isa::Kind;

/// S + A, modulo 2^64.
fn absolute(s: u64, a: i64) -> i64
    ensures { result ≡ int_wrap w64 (is.absolute s a) }
{
    s.cast_signed().wrapping_add(a)
}

/// S + A - P, modulo 2^64.
fn relative(s: u64, a: i64, p: u64) -> i64
    ensures { result ≡ int_wrap w64 (is.relative s a p) }
{
    absolute(s, a).wrapping_sub(p.cast_signed())
}

/// The value that a relocation of this kind has, modulo 2^64: of the symbol's value `s`, the addend `a` and the
/// address `p` of its place.
///
/// `PcrelLo12I` and `PcrelLo12S` take those of the `PcrelHi20` that they are paired with. The value is 0 where the kind
/// has none (`None`, `Relax`, `Align`).
pub fn value(kind: Kind, s: u64, a: i64, p: u64) -> i64
    ensures { result ≡ is.value_of kind s a p }
{
    match kind {
        Kind::None | Kind::Relax | Kind::Align => 0,
        Kind::Branch | Kind::Jal | Kind::RvcBranch | Kind::RvcJump => relative(s, a, p),
        Kind::Call | Kind::CallPlt | Kind::Pcrel32 => relative(s, a, p),
        Kind::PcrelHi20 | Kind::PcrelLo12I | Kind::PcrelLo12S => relative(s, a, p),
        Kind::Abs32 | Kind::Abs64 | Kind::Hi20 | Kind::Lo12I | Kind::Lo12S => absolute(s, a),
        Kind::Add8 | Kind::Add16 | Kind::Add32 | Kind::Add64 => absolute(s, a),
        Kind::Sub6 | Kind::Sub8 | Kind::Sub16 | Kind::Sub32 | Kind::Sub64 => absolute(s, a),
        Kind::Set6 | Kind::Set8 | Kind::Set16 | Kind::Set32 => absolute(s, a),
    }
}
