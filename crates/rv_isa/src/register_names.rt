//! Registers by name.

ghost use Rattle.std.specs.Prelude.{◌≡◌, ℕ, ◌+◌, ◌-◌, ◌%◌, ◌<◌, ◌↔◌, ◌++◌, codes, slice_get};
ghost use Rattle.rv_isa.specs.RegisterNames.{abi_names, decimal, IsNameOf};

use crate::register::Reg;

/// The register that `x` and a decimal number name.
fn reg_numbered(name: &[u8]) -> Option<Reg>
    ensures { (r : ℕ) → result ≡ Some r ↔ (r < 32) × (name.now ≡ codes "x" ++ decimal r) }
{
    match name {
        [b'x', ones @ b'0'..=b'9'] => Reg::new(ones - b'0'),
        [b'x', tens @ b'1'..=b'3', ones @ b'0'..=b'9'] => {
            Reg::new((tens - b'0') * 10 + (ones - b'0'))
        }
        _ => None,
    }
}

/// The register that stands as far after `first` as the digit says.
fn nth(first: u32, digit: u8) -> Reg
    requires { first < 32 }
    ensures { result ≡ (first + (digit - 48)) % 32 }
{
    Reg::from_low_bits(first + u32::from(digit.saturating_sub(b'0')))
}

/// The one register that can have this ABI name.
#[tactic(auto, using(crate::proofs::AbiNamesLemmas::family))]
fn likely(name: &[u8]) -> Reg
    ensures { (r : ℕ) → slice_get abi_names r ≡ Some name.now → result ≡ r }
{
    match name {
        [letter, digit] => match letter {
            b'a' => nth(10, *digit),
            b'g' => Reg::from_low_bits(3),
            b'r' => Reg::from_low_bits(1),
            b's' if *digit == b'p' => Reg::from_low_bits(2),
            b's' if *digit < b'2' => nth(8, *digit),
            b's' => nth(16, *digit),
            b't' if *digit == b'p' => Reg::from_low_bits(4),
            b't' if *digit < b'3' => nth(5, *digit),
            b't' => nth(25, *digit),
            _ => Reg::from_low_bits(0),
        },
        [b's', b'1', digit] => nth(26, *digit),
        _ => Reg::from_low_bits(0),
    }
}

/// The register of this ABI name.
fn reg_of_abi_name(name: &[u8]) -> Option<Reg>
    ensures { (r : ℕ) → result ≡ Some r ↔ slice_get abi_names r ≡ Some name.now }
{
    let reg = likely(name);
    if reg.abi_name().as_bytes() == name {
        Some(reg)
    } else {
        None
    }
}

/// The register of this name: `x0` to `x31`, an ABI name, or `fp`.
pub fn reg_named(name: &[u8]) -> Option<Reg>
    ensures { (r : ℕ) → result ≡ Some r ↔ IsNameOf name.now r }
{
    if name == b"fp".as_slice() {
        return Some(Reg::S0);
    }
    match reg_numbered(name) {
        Some(reg) => Some(reg),
        None => reg_of_abi_name(name),
    }
}
