//! How many instructions a run executes, where nothing else of it is asked for.

ghost use Rattle.std.specs.Prelude.{◌≡◌, []};
ghost use Rattle.rv_counts.specs.Totals.{totals_of};

use crate::totals::Totals;
use rv_machine::{Look, ShowFault, Step, Watched, Watcher};
use rv_memory::Memory;

/// The number of the instructions that a run has executed.
#[derive(Drop)]
pub struct Executed {
    totals: Totals,
}

impl Executed {
    /// That of a run that has not begun.
    pub fn new() -> Self
        ensures { result.totals ≡ totals_of [] }
    {
        Executed {
            totals: Totals::nothing(),
        }
    }

    /// The number so far.
    pub fn count(&self) -> u64
        ensures { result ≡ self.now.totals.executed }
    {
        self.totals.executed
    }
}

impl<M: Memory> Watcher<M> for Executed {
    ghost has_seen = { λ executed seen. executed.totals ≡ totals_of seen };

    #[inline]
    fn before(&mut self, _: &Look, _: &Watched<M>) -> Result<(), ShowFault> {
        Ok(())
    }

    #[inline]
    fn after(&mut self, step: &Step, _: &Watched<M>) -> Result<(), ShowFault> {
        self.totals.count(step, &step.fetched());
        Ok(())
    }
}
