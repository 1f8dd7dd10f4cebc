//! An input that is at hand.

ghost use Rattle.std.specs.Prelude.{◌≡◌, ◌<◌, false, Some, length};

use rv_machine::{GuestIn, IoFailed};

/// What is left of an input.
#[derive(Drop)]
pub struct Given<'a> {
    rest: &'a [u8],
    /// How many takes gave nothing, modulo 2^64.
    ends: u64,
    failed: bool,
    /// A take gives nothing where nothing is left.
    pub ghost dry: { 0 < ends → length rest.now ≡ 0 },
}

impl<'a> Given<'a> {
    /// All of these bytes.
    pub fn new(rest: &'a [u8]) -> Self
        ensures rest { result.rest.now ≡ rest.now }
        ensures ends { result.ends ≡ 0 }
    {
        Given {
            rest,
            ends: 0,
            failed: false,
        }
    }

    /// How many bytes are left.
    pub fn left(&self) -> usize
        ensures { result ≡ length self.now.rest.now }
    {
        self.rest.len()
    }
}

impl GuestIn for Given<'_> {
    ghost remaining = { λ given. Some given.rest.now };

    ghost ends = { λ given. given.ends };

    ghost in_failed = { λ given. given.failed };

    fn take(&mut self, buffer: &mut [u8]) -> Result<usize, IoFailed> {
        // a guest that asks for nothing takes nothing, so this is no end of the input
        if buffer.is_empty() {
            self.failed = true;
            return Err(IoFailed);
        }
        let count = self.rest.len().min(buffer.len());
        if count == 0 {
            self.ends = self.ends.wrapping_add(1);
            return Ok(0);
        }
        let (taken, rest) = self.rest.split_at(count);
        buffer[..count].copy_from_slice(taken);
        self.rest = rest;
        Ok(count)
    }

    fn failed(&self) -> bool {
        self.failed
    }
}
