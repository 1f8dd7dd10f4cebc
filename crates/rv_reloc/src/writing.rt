//! Writing a relocation's value to its field.
//!
//! A field is one number of at most eight bytes, the lowest first, so that each kind is one line whatever its width; a
//! call's two words are one number. Bits above the field's width do not count.

ghost use Rattle.std.specs.Prelude.{◌≡◌, ◌<◌, ◌*◌, ◌^◌, ◌↔◌, IsTrue, OnOk, OnErr, IfErr, length};
ghost use Rattle.rv_isa.specs.Kinds.{width_of};
ghost use Rattle.rv_isa_laws.specs.Bytes.{little_endian};
ghost use Rattle.rv_reloc_laws.specs.Fields.{written, patched};
ghost use Rattle.rv_reloc_laws.specs.Ranges as is;

use crate::immediate::{
    with_b, with_both, with_cb, with_cj, with_i, with_j, with_low_six, with_s, with_u,
};
use crate::number::{
    difference, low_6, low_9, low_12, low_13, low_21, low_64, lower, number, put, sum, upper,
};
use rv_fault::LinkFault;
use rv_isa::Kind;

/// Whether `lui` or `auipc` can take the upper half of a value.
fn has_upper(value: i64) -> bool
    ensures { IsTrue result ↔ is.HasUpper value }
{
    -0x8000_0800 <= value && value <= 0x7fff_f7ff
}

/// Whether the value is in the range of the kind's field.
fn is_in_range(kind: Kind, value: i64) -> bool
    ensures { IsTrue result ↔ is.IsInRange kind value }
{
    match kind {
        Kind::Abs32 => -0x8000_0000 <= value && value <= 0xffff_ffff,
        Kind::Pcrel32 => -0x8000_0000 <= value && value <= 0x7fff_ffff,
        Kind::Branch => -4096 <= value && value <= 4094,
        Kind::Jal => -1_048_576 <= value && value <= 1_048_574,
        Kind::RvcBranch => -256 <= value && value <= 254,
        Kind::RvcJump => -2048 <= value && value <= 2046,
        Kind::Call | Kind::CallPlt | Kind::PcrelHi20 | Kind::Hi20 => has_upper(value),
        _ => true,
    }
}

/// Whether the value is where a jump goes to.
fn is_target(kind: Kind) -> bool
    ensures { result ≡ is.is_target kind }
{
    match kind {
        Kind::Branch | Kind::Jal | Kind::RvcBranch | Kind::RvcJump => true,
        Kind::Call | Kind::CallPlt => true,
        _ => false,
    }
}

/// Refuses what the field cannot take.
fn check(kind: Kind, value: i64) -> Result<(), LinkFault>
    ensures takes { OnOk result (is.Takes kind value) }
    ensures refuses { IfErr result (is.Refuses kind value) }
{
    if !is_in_range(kind, value) {
        return Err(LinkFault::Overflow);
    }
    if is_target(kind) && value.unsigned_abs() % 2 == 1 {
        return Err(LinkFault::OddTarget);
    }
    Ok(())
}

/// The field's number after the value is written to it; bytes past the field's width do not count.
fn rewritten(kind: Kind, value: i64, number: u64) -> u64
    requires { number < 2 ^ (8 * width_of kind) }
    ensures { little_endian (width_of kind) result
        ≡ little_endian (width_of kind) (written kind value number) }
{
    match kind {
        Kind::None | Kind::Relax | Kind::Align => number,
        Kind::Abs32 | Kind::Abs64 | Kind::Pcrel32 => low_64(value),
        Kind::Set8 | Kind::Set16 | Kind::Set32 => low_64(value),
        Kind::Add8 | Kind::Add16 | Kind::Add32 | Kind::Add64 => sum(number, value),
        Kind::Sub8 | Kind::Sub16 | Kind::Sub32 | Kind::Sub64 => difference(number, value),
        Kind::Set6 => with_low_six(number, low_6(value)),
        Kind::Sub6 => with_low_six(number, difference(number, value) & 0x3f),
        Kind::Branch => with_b(number, low_13(value)),
        Kind::Jal => with_j(number, low_21(value)),
        Kind::RvcBranch => with_cb(number, low_9(value)),
        Kind::RvcJump => with_cj(number, low_12(value)),
        Kind::Call | Kind::CallPlt => with_both(number, value),
        Kind::Hi20 | Kind::PcrelHi20 => with_u(number, upper(value)),
        Kind::Lo12I | Kind::PcrelLo12I => with_i(number, lower(value)),
        Kind::Lo12S | Kind::PcrelLo12S => with_s(number, lower(value)),
    }
}

/// Writes a relocation's value to its field, as the kind asks for: no other bit changes.
///
/// The field is the bytes from the relocation's place on, as many as `kind.width()`. Kinds without a field change
/// nothing. `PcrelLo12I` and `PcrelLo12S` take the value of the `PcrelHi20` that they are paired with.
///
/// # Errors
///
/// `Overflow` where the value is out of the field's range, and, in that range, `OddTarget` where a jump would go to an
/// odd address. The field is unchanged then. No other fault is answered: this takes no memory.
pub fn patch(field: &mut [u8], kind: Kind, value: i64) -> Result<(), LinkFault>
    requires { length field.old ≡ width_of kind }
    ensures takes { OnOk result (is.Takes kind value) }
    ensures writes { OnOk result (field.new ≡ patched kind value field.old) }
    ensures refuses { IfErr result (is.Refuses kind value) }
    ensures keeps { OnErr result (field.new ≡ field.old) }
{
    check(kind, value)?;
    let old = number(field);
    put(field, rewritten(kind, value, old));
    Ok(())
}
