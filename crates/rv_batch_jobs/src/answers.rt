//! The answers on their way to standard output.

use rv_system::{JobError, System, print};
use std::alloc::{AllocError, Global};

/// The bytes of answers that are written together at most.
const KEPT: usize = 1 << 16;

/// Answers that are not written yet. There is room for them from the start, so that none of them is lost where memory
/// runs out on a later call.
#[derive(Drop)]
pub(crate) struct Answers {
    kept: Vec<u8>,
}

impl Answers {
    /// No answer.
    pub(crate) fn new(alloc: Global) -> Result<Answers, AllocError> {
        Ok(Answers {
            kept: Vec::with_capacity(alloc, KEPT)?,
        })
    }

    /// Adds the line of an answer; those before it are written where it has no room beside them.
    pub(crate) fn add<S: System>(&mut self, system: &mut S, line: &[u8]) -> Result<(), JobError> {
        if line.len() > KEPT.saturating_sub(self.kept.len()) {
            self.write(system)?;
        }
        if line.len() > KEPT {
            return print(system, line);
        }
        Ok(self.kept.extend_from_slice(line)?)
    }

    /// Writes those that are kept.
    pub(crate) fn write<S: System>(&mut self, system: &mut S) -> Result<(), JobError> {
        print(system, self.kept.as_slice())?;
        self.kept.clear();
        Ok(())
    }
}
