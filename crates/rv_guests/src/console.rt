//! A console that is kept, up to a limit.

ghost use Rattle.std.specs.Prelude.{◌≡◌, false, Some};

use rv_machine::{GuestOut, IoFailed};
use std::alloc::{AllocError, Global};

/// The most bytes of a console that is kept: 64 MiB.
pub const CONSOLE_LIMIT: usize = 1 << 26;

/// What a guest has written.
#[derive(Drop)]
pub struct Console {
    bytes: Vec<u8>,
    failed: bool,
    /// Why a put failed where it was not for the limit.
    refused: Option<AllocError>,
}

impl Console {
    /// Nothing yet.
    pub fn new(alloc: Global) -> Self
        ensures { result.failed ≡ false }
    {
        Console {
            bytes: Vec::new(alloc),
            failed: false,
            refused: None,
        }
    }

    /// What was written, unless memory ran out on it.
    pub fn written(self) -> Result<Vec<u8>, AllocError> {
        let Console { bytes, refused, .. } = self;
        match refused {
            Some(error) => Err(error),
            None => Ok(bytes),
        }
    }
}

impl GuestOut for Console {
    ghost written = { λ console. Some console.bytes.items };

    ghost out_failed = { λ console. console.failed };

    fn put(&mut self, bytes: &[u8]) -> Result<usize, IoFailed> {
        if bytes.len() > CONSOLE_LIMIT || self.bytes.len() > CONSOLE_LIMIT - bytes.len() {
            self.failed = true;
            return Err(IoFailed);
        }
        match self.bytes.extend_from_slice(bytes) {
            Ok(()) => Ok(bytes.len()),
            Err(error) => {
                self.failed = true;
                self.refused = Some(error);
                Err(IoFailed)
            }
        }
    }

    fn failed(&self) -> bool {
        self.failed
    }
}
