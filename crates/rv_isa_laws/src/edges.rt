//! The definitions at the edges that the standard names, worked out by hand.

ghost use Rattle.std.specs.Prelude.{◌≡◌, ℕ, ◌+◌, ◌-◌, ◌%◌, ◌^◌};
ghost use Rattle.rv_isa_laws.specs.Arithmetic as is;

/// By 0 the quotient is all ones and the remainder the dividend (ISA, table 7.1).
pub fn division_by_zero()
    ensures quotient { (a : ℕ) → is.quotient a 0 ≡ 2 ^ 64 - 1 }
    ensures quotient_unsigned { (a : ℕ) → is.quotient_unsigned a 0 ≡ 2 ^ 64 - 1 }
    ensures remainder { (a : ℕ) → is.remainder a 0 ≡ a }
    ensures remainder_unsigned { (a : ℕ) → is.remainder_unsigned a 0 ≡ a }
    ensures word_quotient { (a : ℕ) → is.word_quotient a (2 ^ 32) ≡ 2 ^ 64 - 1 }
    ensures word_quotient_unsigned { (a : ℕ) → is.word_quotient_unsigned a (2 ^ 32) ≡ 2 ^ 64 - 1 }
    ensures word_remainder { (a : ℕ) → is.word_remainder a (2 ^ 32) ≡ is.extended 32 (a % 2 ^ 32) }
    ensures word_remainder_unsigned { (a : ℕ) →
        is.word_remainder_unsigned a (2 ^ 32) ≡ is.extended 32 (a % 2 ^ 32) }
{}

/// The least number by -1 is the least number, and leaves 0 (ISA, table 7.1); the signs of quotient
/// and remainder (ISA, 7.2).
pub fn division_out_of_range()
    ensures quotient { is.quotient (2 ^ 63) (2 ^ 64 - 1) ≡ 2 ^ 63 }
    ensures remainder { is.remainder (2 ^ 63) (2 ^ 64 - 1) ≡ 0 }
    ensures word_quotient { is.word_quotient (2 ^ 31) (2 ^ 32 - 1) ≡ 2 ^ 64 - 2 ^ 31 }
    ensures word_remainder { is.word_remainder (2 ^ 31) (2 ^ 32 - 1) ≡ 0 }
    ensures toward_zero { is.quotient (2 ^ 64 - 7) 2 ≡ 2 ^ 64 - 3 }
    ensures of_dividend { is.remainder (2 ^ 64 - 7) 2 ≡ 2 ^ 64 - 1 }
    ensures not_of_divisor { is.remainder 7 (2 ^ 64 - 2) ≡ 1 }
    ensures word_sign { is.word_remainder_unsigned (2 ^ 32 - 1) (2 ^ 31 + 2 ^ 30) ≡ 2 ^ 30 - 1 }
{}

/// Upper halves of products (ISA, 7.1).
pub fn worked_products()
    ensures low { is.product_of (2 ^ 64 - 1) (2 ^ 64 - 1) ≡ 1 }
    ensures signed { is.high_signed (2 ^ 64 - 1) (2 ^ 64 - 1) ≡ 0 }
    ensures signed_least { is.high_signed (2 ^ 63) (2 ^ 63) ≡ 2 ^ 62 }
    ensures signed_below { is.high_signed (2 ^ 64 - 1) 1 ≡ 2 ^ 64 - 1 }
    ensures unsigned { is.high_unsigned (2 ^ 64 - 1) (2 ^ 64 - 1) ≡ 2 ^ 64 - 2 }
    ensures mixed { is.high_mixed (2 ^ 64 - 1) (2 ^ 64 - 1) ≡ 2 ^ 64 - 1 }
    ensures mixed_first { is.high_mixed (2 ^ 64 - 1) 1 ≡ 2 ^ 64 - 1 }
    ensures mixed_second { is.high_mixed 1 (2 ^ 64 - 1) ≡ 0 }
    ensures word { is.word_product (2 ^ 31) 3 ≡ 2 ^ 64 - 2 ^ 31 }
{}

/// Shifts by 0, by the greatest amount, and by one that counts modulo the width (ISA, 2.4 and 5.2).
pub fn worked_shifts()
    ensures left { is.shifted_left 3 63 ≡ 2 ^ 63 }
    ensures left_wraps { is.shifted_left 3 64 ≡ 3 }
    ensures right { is.shifted_right (2 ^ 63) 63 ≡ 1 }
    ensures signed { is.shifted_right_signed (2 ^ 63) 63 ≡ 2 ^ 64 - 1 }
    ensures signed_whole { is.shifted_right_signed (2 ^ 63) 0 ≡ 2 ^ 63 }
    ensures word_left { is.word_shifted_left 1 31 ≡ 2 ^ 64 - 2 ^ 31 }
    ensures word_left_wraps { is.word_shifted_left 1 32 ≡ 1 }
    ensures word_right { is.word_shifted_right (2 ^ 32 + 2 ^ 31) 31 ≡ 1 }
    ensures word_right_whole { is.word_shifted_right (2 ^ 31) 0 ≡ 2 ^ 64 - 2 ^ 31 }
    ensures word_signed { is.word_shifted_right_signed (2 ^ 31) 31 ≡ 2 ^ 64 - 1 }
{}

/// Signs at the edges of 8, 16, 32 and 64 bits (ISA, 2.4, 2.6 and 5.2).
pub fn worked_words()
    ensures byte { is.extended 8 0x7f ≡ 0x7f }
    ensures byte_sign { is.extended 8 0x80 ≡ 2 ^ 64 - 0x80 }
    ensures half_sign { is.extended 16 0x8000 ≡ 2 ^ 64 - 0x8000 }
    ensures sum { is.word_sum (2 ^ 31 - 1) 1 ≡ 2 ^ 64 - 2 ^ 31 }
    ensures difference { is.word_difference 0 1 ≡ 2 ^ 64 - 1 }
    ensures wraps { is.sum_of (2 ^ 64 - 1) 1 ≡ 0 }
    ensures borrows { is.difference_of 0 1 ≡ 2 ^ 64 - 1 }
    ensures lesser { is.lesser_signed 64 (2 ^ 64 - 1) 1 ≡ 2 ^ 64 - 1 }
    ensures greater { is.greater_signed 32 (2 ^ 31) 1 ≡ 1 }
{}
