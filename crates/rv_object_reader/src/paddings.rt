//! The paddings of a section of code, apart from each other.

ghost use Rattle.std.specs.Prelude.{◌≡◌, ℕ, ◌<◌, ◌||◌, true, false, [], OnOk};
ghost use Rattle.std.specs.List.{list_any};
ghost use Rattle.rv_object_reader.specs.Stretches.{ends_in, is_spread};

use std::alloc::{AllocError, Global};
use std::collections::BTreeMap;

/// Paddings, apart from each other.
#[derive(Drop)]
pub(crate) struct Paddings {
    /// The offset of the first byte of each, by the end behind its last.
    pub(crate) by_end: BTreeMap<u64, u64>,
    ghost spread: { is_spread by_end.entries ≡ true },
}

impl Paddings {
    /// None.
    pub(crate) fn new(alloc: Global) -> Paddings
        ensures { result.by_end.entries ≡ [] }
    {
        Paddings {
            by_end: BTreeMap::new(alloc),
        }
    }

    /// Whether one of them has a byte at `start` or later and before `end`.
    pub(crate) fn meet(&self, start: u64, end: u64) -> bool
        requires { start < end }
        ensures { result ≡ list_any (ends_in start end) self.now.by_end.entries }
    {
        if self.by_end.is_empty() {
            return false;
        }
        match self.by_end.range(start + 1..).next() {
            Some((_, first)) => *first < end,
            None => false,
        }
    }

    /// One more, which meets none of them.
    pub(crate) fn put(&mut self, start: u64, end: u64) -> Result<(), AllocError>
        requires some { start < end }
        requires apart { list_any (ends_in start end) self.old.by_end.entries ≡ false }
        ensures { OnOk result ((a b : ℕ) → list_any (ends_in a b) self.new.by_end.entries
            ≡ ends_in a b (end, start) || list_any (ends_in a b) self.old.by_end.entries) }
    {
        self.by_end.insert(end, start)?;
        Ok(())
    }
}
