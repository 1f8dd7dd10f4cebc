//! The streams of a run: an input at hand, and a console that is kept up to a limit.
//!
//! A run over an input stream is that of a machine with the whole input only if it took nothing but at its end. The input
//! counts the takes that gave nothing, so that this can be tested after the run.

ghost use Rattle.std.specs.Prelude.{◌≡◌, ◌⊎◌, [], false, true, Some};

use rv_machine::{GuestIn, GuestOut, IoFailed};
use std::alloc::{AllocError, Global};

/// The input of a run.
#[derive(Drop)]
pub(crate) struct Input<'a> {
    pub left: &'a [u8],
    /// How many takes gave nothing, modulo 2^64.
    pub ends: u64,
}

impl<'a> Input<'a> {
    /// All of these bytes.
    pub(crate) fn new(bytes: &'a [u8]) -> Self
        ensures left { result.left.now ≡ bytes.now }
        ensures ends { result.ends ≡ 0 }
    {
        Input {
            left: bytes,
            ends: 0,
        }
    }

    /// Whether no take has given nothing while bytes were left, as far as can be told.
    pub(crate) fn is_whole(&self) -> bool
        ensures { result ≡ true → (self.now.ends ≡ 0) ⊎ (self.now.left.now ≡ []) }
    {
        if self.ends == 0 {
            return true;
        }
        self.left.is_empty()
    }
}

impl<'a> GuestIn for Input<'a> {
    ghost remaining = { λ input. Some input.left.now };

    ghost ends = { λ input. input.ends };

    ghost in_failed = { λ _. false };

    fn take(&mut self, buffer: &mut [u8]) -> Result<usize, IoFailed> {
        let count = buffer.len().min(self.left.len());
        let (front, behind) = self.left.split_at(count);
        buffer[..count].copy_from_slice(front);
        self.left = behind;
        if count == 0 {
            self.ends = self.ends.wrapping_add(1);
        }
        Ok(count)
    }

    fn failed(&self) -> bool {
        false
    }
}

/// What a guest has written.
#[derive(Drop)]
pub(crate) struct Console {
    pub bytes: Vec<u8>,
    /// The most bytes that are kept.
    pub most: usize,
    pub failed: bool,
    /// Why a put failed where it was not for the limit.
    pub refused: Option<AllocError>,
}

impl Console {
    /// Nothing yet.
    pub(crate) fn new(alloc: Global, most: usize) -> Self
        ensures bytes { result.bytes.items ≡ [] }
        ensures failed { result.failed ≡ false }
    {
        Console {
            bytes: Vec::new(alloc),
            most,
            failed: false,
            refused: None,
        }
    }
}

impl GuestOut for Console {
    ghost written = { λ console. Some console.bytes.items };

    ghost out_failed = { λ console. console.failed };

    fn put(&mut self, bytes: &[u8]) -> Result<usize, IoFailed> {
        if bytes.len() > self.most || self.bytes.len() > self.most - bytes.len() {
            self.failed = true;
            return Err(IoFailed);
        }
        match self.bytes.extend_from_slice(bytes) {
            Ok(()) => Ok(bytes.len()),
            Err(error) => {
                self.failed = true;
                self.refused = Some(error);
                Err(IoFailed)
            }
        }
    }

    fn failed(&self) -> bool {
        self.failed
    }
}
