//! The line that a call stands on, as far as it has come.

use std::alloc::{AllocError, Global};

/// A line, or the beginning of one.
#[derive(Drop)]
pub(crate) struct Line {
    alloc: Global,
    bytes: Vec<u8>,
    /// Why it is not held where it is too long for memory.
    refused: Option<AllocError>,
}

impl Line {
    /// No byte.
    pub(crate) fn new(alloc: Global) -> Line {
        Line {
            alloc,
            bytes: Vec::new(alloc),
            refused: None,
        }
    }

    pub(crate) fn is_empty(&self) -> bool {
        self.bytes.is_empty() && self.refused.is_none()
    }

    /// Adds bytes. Where memory runs out on them, the line gives back what it has and stays without bytes.
    pub(crate) fn add(&mut self, part: &[u8]) {
        if self.refused.is_some() {
            return;
        }
        if let Err(error) = self.bytes.extend_from_slice(part) {
            self.bytes = Vec::new(self.alloc);
            self.refused = Some(error);
        }
    }

    /// The bytes, unless memory ran out on them.
    pub(crate) fn bytes(&self) -> Result<&[u8], AllocError> {
        match self.refused {
            Some(error) => Err(error),
            None => Ok(self.bytes.as_slice()),
        }
    }

    /// Leaves no byte, for the next line.
    pub(crate) fn clear(&mut self) {
        self.bytes.clear();
        self.refused = None;
    }
}
