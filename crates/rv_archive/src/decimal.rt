//! The numbers in heads.

ghost use Rattle.std.specs.Prelude.{◌≡◌, ◌≤◌, ◌<◌, ◌^◌, length, IfSome};
ghost use Rattle.std.specs.List.{list_all};
ghost use Rattle.rv_archive_laws.specs.Decimal.{decimal, is_blank, begins_number};

/// The number in a field of a head: decimal digits, with blanks behind them.
pub(crate) fn decimal(field: &[u8]) -> Option<u64>
    requires { length field.now ≤ 16 }
    ensures exact { result ≡ decimal field.now }
    ensures small { IfSome result (λ number. number < 10 ^ 16) }
{
    if !begins_number(field) {
        return None;
    }
    let mut number: u64 = 0;
    for (i, byte) in field.iter().enumerate() {
        if !byte.is_ascii_digit() {
            return if are_blank(&field[i..]) {
                Some(number)
            } else {
                None
            };
        }
        number = 10 * number + u64::from(*byte - b'0');
    }
    Some(number)
}

/// Whether a digit stands at the front.
pub(crate) fn begins_number(field: &[u8]) -> bool
    ensures { result ≡ begins_number field.now }
{
    match field {
        [] => false,
        [first, ..] => first.is_ascii_digit(),
    }
}

/// Whether all bytes are blanks.
fn are_blank(bytes: &[u8]) -> bool
    ensures { result ≡ list_all is_blank bytes.now }
{
    bytes.iter().all(|byte| *byte == b' ')
}
