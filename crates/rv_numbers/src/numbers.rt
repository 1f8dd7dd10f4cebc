//! Numbers as people write them; their bounds and digits are promised, and the letters behind them tested.

ghost use Rattle.std.specs.Prelude.{◌≤◌, ℕ, IfSome, IfNone};
ghost use Rattle.rv_numbers.specs.Numbers.{IsRadixNumber, IsStart};

/// The letters at the end of an amount, and what they multiply it by.
const UNITS: [(&str, u64); 6] = [
    ("k", 1_000),
    ("K", 1_000),
    ("m", 1_000_000),
    ("M", 1_000_000),
    ("g", 1_000_000_000),
    ("G", 1_000_000_000),
];

/// A number below 2^64 in digits of a radix alone, one at least.
fn in_radix(text: &str, radix: u32) -> Option<u64>
    requires { (2 ≤ radix) × (radix ≤ 36) }
    ensures some { IfSome result (λ n. IsRadixNumber radix text.now n) }
    ensures none { IfNone result ((n : ℕ) → IsRadixNumber radix text.now n → ⊥) }
{
    if text.starts_with('+') {
        return None;
    }
    u64::from_str_radix(text, radix).ok()
}

/// A decimal number below 2^64: digits alone, one at least.
pub fn decimal(text: &str) -> Option<u64>
    ensures some { IfSome result (λ n. IsRadixNumber 10 text.now n) }
    ensures none { IfNone result ((n : ℕ) → IsRadixNumber 10 text.now n → ⊥) }
{
    in_radix(text, 10)
}

/// A number below 2^64 as people write large ones: decimal, or so many thousands (`k`), millions (`M`) or thousands of
/// millions (`G`), the letter of either case.
pub fn amount(text: &str) -> Option<u64> {
    let (digits, unit) = parts(text);
    decimal(digits)?.checked_mul(unit)
}

/// What stands before the letter at the end of an amount, and what that multiplies it by.
fn parts(text: &str) -> (&str, u64) {
    for (letter, unit) in &UNITS {
        if let Some(digits) = text.strip_suffix(*letter) {
            return (digits, *unit);
        }
    }
    (text, 1)
}

/// A number below 2^64, decimal or `0x` with hexadecimal digits of either case.
pub fn text_start(text: &str) -> Option<u64>
    ensures some { IfSome result (λ n. IsStart text.now n) }
    ensures none { IfNone result ((n : ℕ) → IsStart text.now n → ⊥) }
{
    match text.strip_prefix("0x") {
        Some(digits) => in_radix(digits, 16),
        None => decimal(text),
    }
}
