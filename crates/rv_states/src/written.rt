//! What a guest writes, given out once.
//!
//! A run that is run again writes again what it has written before. So it is counted how many bytes stand before a state,
//! and how many were given out.

ghost use Rattle.std.specs.Prelude.{◌≡◌};

use rv_machine::{GuestOut, IoFailed};
use std::alloc::{AllocError, Global};
use std::mem;

/// What a guest has written that nobody has taken yet.
#[derive(Drop)]
pub struct Written {
    fresh: Vec<u8>,
    /// How many bytes were written from the start of the run to where it stands.
    position: u64,
    /// How many bytes were written at most when it stood anywhere.
    known: u64,
    failed: bool,
    /// Why a put failed.
    refused: Option<AllocError>,
}

impl Written {
    /// Nothing yet.
    pub fn new(alloc: Global) -> Self {
        Written {
            fresh: Vec::new(alloc),
            position: 0,
            known: 0,
            failed: false,
            refused: None,
        }
    }

    /// How many bytes were written from the start of the run to where it stands.
    pub fn position(&self) -> u64
        ensures { result ≡ self.now.position }
    {
        self.position
    }

    /// Has the run stand where so many bytes were written again.
    pub fn rewind(&mut self, position: u64)
        ensures { self.new ≡ record self.old { position = position } }
    {
        self.position = position;
    }

    /// How many bytes wait to be taken.
    pub fn waiting(&self) -> usize {
        self.fresh.len()
    }

    /// Whether there was memory for all that was written.
    pub fn check(&self) -> Result<(), AllocError> {
        match self.refused {
            Some(error) => Err(error),
            None => Ok(()),
        }
    }

    /// What was written for the first time since the latest call.
    pub fn take(&mut self, alloc: Global) -> Vec<u8> {
        mem::replace(&mut self.fresh, Vec::new(alloc))
    }
}

impl GuestOut for Written {
    ghost out_failed = { λ written. written.failed };

    fn put(&mut self, bytes: &[u8]) -> Result<usize, IoFailed> {
        let again = self.known.saturating_sub(self.position);
        let again = again.min(bytes.len() as u64);
        match self.fresh.extend_from_slice(&bytes[again as usize..]) {
            Ok(()) => {
                self.position = self.position.saturating_add(bytes.len() as u64);
                self.known = self.known.max(self.position);
                Ok(bytes.len())
            }
            Err(error) => {
                self.failed = true;
                self.refused = Some(error);
                Err(IoFailed)
            }
        }
    }

    fn failed(&self) -> bool {
        self.failed
    }
}
