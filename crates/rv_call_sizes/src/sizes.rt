//! How much is kept of each site of a text, each padding in full.

ghost use Rattle.std.specs.Prelude.{◌+◌, ◌*◌, ◌≤◌, IfOk};
ghost use Rattle.rv_size_laws.specs.Calls.{IsGreatestClosed, calls};
ghost use Rattle.rv_call_sizes.specs.Passes.{IsInput};

use crate::passes::settle;
use crate::places::{targets, whole};
use rv_size_laws::Site;
use std::alloc::{AllocError, Global};

/// What is kept of each site of a text, and how long it took to find it.
#[derive(Drop)]
pub struct CallSizes {
    /// The bytes that are kept of each site, each padding in full.
    pub kept: Vec<u32>,
    /// How many passes over the sites there were, the last of which shortened nothing.
    pub rounds: usize,
}

impl CallSizes {
    /// The greatest sizes with which no call has a shorter form that reaches, each padding in full.
    ///
    /// # Errors
    ///
    /// `AllocError` where there is no memory for 28 bytes a site, or 60 where calls wait for one another.
    pub fn greatest(alloc: Global, sites: &[Site]) -> Result<CallSizes, AllocError>
        requires { IsInput sites.now }
        ensures greatest { IfOk result (λ found. IsGreatestClosed sites.now found.kept.items) }
        ensures rounds { IfOk result (λ found. found.rounds ≤ 2 * calls sites.now + 1) }
    {
        let mut kept = whole(alloc, sites)?;
        let targets = targets(alloc, sites)?;
        let mut stands = vec![in alloc; 0; sites.len() + 1]?;
        let rounds = settle(alloc, sites, &targets, &mut kept, &mut stands)?;
        Ok(CallSizes { kept, rounds })
    }
}
