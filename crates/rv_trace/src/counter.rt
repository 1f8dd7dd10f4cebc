//! A number that counts up and is shown each time.

/// The digits that are shown in a column.
pub(crate) const DIGITS: usize = 12;
/// The digits before them: a number of 64 bits has 20.
const OVER: usize = 8;
/// The first number that the column has no room for.
const TOO_WIDE: u64 = 1_000_000_000_000;

/// A number and its digits, with blanks in front.
#[derive(Clone, Copy, Drop)]
pub(crate) struct Counter {
    number: u64,
    over: [u8; OVER],
    digits: [u8; DIGITS],
}

impl Counter {
    /// Zero, which has no digit.
    pub(crate) fn new() -> Self {
        Counter {
            number: 0,
            over: [b' '; OVER],
            digits: [b' '; DIGITS],
        }
    }

    #[inline]
    pub(crate) fn number(&self) -> u64 {
        self.number
    }

    /// The last digits, which fill a column.
    #[inline]
    pub(crate) fn digits(&self) -> [u8; DIGITS] {
        self.digits
    }

    /// The digits that the column has no room for.
    #[inline]
    pub(crate) fn over(&self) -> &[u8] {
        if self.number < TOO_WIDE {
            return b"";
        }
        self.over.trim_ascii_start()
    }

    /// Counts one more, up to 2^64 - 1.
    #[inline]
    pub(crate) fn advance(&mut self) {
        let Some(number) = self.number.checked_add(1) else {
            return;
        };
        self.number = number;
        if carries(&mut self.digits) {
            carries(&mut self.over);
        }
    }
}

/// Counts one more in digits; whether that carries beyond the first of them.
#[inline]
fn carries(digits: &mut [u8]) -> bool {
    for digit in digits.iter_mut().rev() {
        match *digit {
            b'9' => *digit = b'0',
            b' ' => {
                *digit = b'1';
                return false;
            }
            other => {
                *digit = other.wrapping_add(1);
                return false;
            }
        }
    }
    true
}
