//! Hexadecimal digits.

ghost use Rattle.std.specs.Prelude.{◌≡◌, ◌<◌, false, IfSome};
ghost use Rattle.std.specs.Fmt.{digit_glyph};
ghost use Rattle.rv_gdb_packets.specs.Packets.{digit_value, byte_spelled};

/// The digits, in lower case.
static GLYPHS: [u8; 16] = *b"0123456789abcdef";

/// The value of a digit, of either case.
pub fn digit_of(byte: u8) -> Option<u8>
    ensures value { result ≡ digit_value byte }
    ensures small { IfSome result (λ digit. digit < 16) }
{
    match byte {
        b'0'..=b'9' => Some(byte - b'0'),
        b'a'..=b'f' => Some(byte - b'a' + 10),
        b'A'..=b'F' => Some(byte - b'A' + 10),
        _ => None,
    }
}

/// The byte that two digits spell.
pub fn byte_of(high: u8, low: u8) -> Option<u8>
    ensures { result ≡ byte_spelled high low }
{
    let high = digit_of(high)?;
    let low = digit_of(low)?;
    Some(16 * high + low)
}

/// The digit of a value, in lower case.
pub fn glyph_of(value: u8) -> u8
    requires { value < 16 }
    ensures { result ≡ digit_glyph false value }
{
    GLYPHS[value as usize]
}
