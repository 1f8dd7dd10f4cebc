//! The fields of a section of code.

ghost use Rattle.std.specs.Prelude.{◌≡◌, ◌<◌, ℕ, ◌≤◌, ◌+◌, ◌||◌, true, [], OnOk};
ghost use Rattle.std.specs.List.{list_any, list_all};
ghost use Rattle.rv_object_reader.specs.Stretches.{starts_in, is_short};

use std::alloc::{AllocError, Global};
use std::collections::BTreeMap;

/// The most bytes of a field.
const LONGEST: u64 = 8;

/// Fields, which may share bytes.
#[derive(Drop)]
pub(crate) struct Fields {
    /// The end behind the last byte of each, by the offset of its first: the furthest where several begin.
    pub(crate) by_start: BTreeMap<u64, u64>,
    ghost short: { list_all is_short by_start.entries ≡ true },
}

impl Fields {
    /// None.
    pub(crate) fn new(alloc: Global) -> Fields
        ensures { result.by_start.entries ≡ [] }
    {
        Fields {
            by_start: BTreeMap::new(alloc),
        }
    }

    /// Whether one of them has a byte at `start` or later and before `end`.
    pub(crate) fn meet(&self, start: u64, end: u64) -> bool
        requires { start < end }
        ensures { result ≡ list_any (starts_in start end) self.now.by_start.entries }
    {
        let earliest = start.saturating_sub(LONGEST);
        self.by_start
            .range(earliest..end)
            .any(|(_, last)| *last > start)
    }

    /// One more. Mostly none begins where it does, so it goes in before what stood there is looked at.
    pub(crate) fn put(&mut self, start: u64, end: u64) -> Result<(), AllocError>
        requires { end ≤ start + 8 }
        ensures { OnOk result ((a b : ℕ) → list_any (starts_in a b) self.new.by_start.entries
            ≡ starts_in a b (start, end) || list_any (starts_in a b) self.old.by_start.entries) }
    {
        let Some(other) = self.by_start.insert(start, end)? else {
            return Ok(());
        };
        if other <= end {
            return Ok(());
        }
        self.by_start.insert(start, other)?;
        Ok(())
    }
}
