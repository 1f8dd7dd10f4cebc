//! The instruction at the front of bytes.

ghost use Rattle.std.specs.Prelude.{◌≡◌, ◌↔◌, ◌%◌, ◌≤◌, ◌≢◌, ℕ, IfSome, length, slice_index};
ghost use Rattle.rv_isa.specs.Ranges.{IsValid};
ghost use Rattle.rv_parcel.specs.Front.{FrontParcel, FrontSpells, FrontWord, front_parcel};

use crate::expansion::expand;
use rv_encode::decode;
use rv_isa::Inst;

/// The number of the first two bytes, the least first.
#[inline(always)]
fn first_parcel(bytes: &[u8]) -> u16
    requires { 2 ≤ length bytes.now }
    ensures { result ≡ front_parcel bytes.now }
{
    u16::from_le_bytes([bytes[0], bytes[1]])
}

/// The parcel's instruction at the front of bytes that begin one.
#[inline(always)]
fn parcel_inst(bytes: &[u8]) -> Option<Inst>
    requires begins { slice_index bytes.now 0 % 4 ≢ 3 }
    ensures exact { (inst : Inst) → result ≡ Some inst ↔ FrontParcel bytes.now inst }
    ensures valid { IfSome result IsValid }
{
    if bytes.len() < 2 {
        None
    } else {
        expand(first_parcel(bytes))
    }
}

/// The word's instruction at the front of bytes that begin one.
#[inline(always)]
fn word_inst(bytes: &[u8]) -> Option<Inst>
    requires begins { slice_index bytes.now 0 % 4 ≡ 3 }
    ensures exact { (inst : Inst) → result ≡ Some inst ↔ FrontWord bytes.now inst }
    ensures valid { IfSome result IsValid }
{
    if bytes.len() < 4 {
        None
    } else {
        decode(u32::from_le_bytes([bytes[0], bytes[1], bytes[2], bytes[3]]))
    }
}

/// The instruction at the front of the bytes and its length, 2 or 4; `None` exactly where the front
/// spells none, also where too few bytes are left.
///
/// Unprivileged ISA 20191213, section 1.5.
#[inline(always)]
pub fn next_inst(bytes: &[u8]) -> Option<(Inst, usize)>
    ensures exact { (inst : Inst) (count : ℕ) →
        result ≡ Some (inst, count) ↔ FrontSpells bytes.now inst count }
    ensures valid { IfSome result (λ found. IsValid found.0) }
{
    if bytes.is_empty() {
        return None;
    }
    if bytes[0] & 3 == 3 {
        match word_inst(bytes) {
            Some(inst) => Some((inst, 4)),
            None => None,
        }
    } else {
        match parcel_inst(bytes) {
            Some(inst) => Some((inst, 2)),
            None => None,
        }
    }
}
