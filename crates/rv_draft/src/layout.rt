//! The sizes of the statements of a source.

ghost use Rattle.std.specs.Prelude.{◌≡◌, ◌+◌, ◌*◌, ◌≤◌, ◌<◌, length, slice_index, IfOk};
ghost use Rattle.rv_size_laws.specs.Branches.{branches};
ghost use Rattle.rv_unit_laws.specs.Tables.{at_start, tables};
ghost use Rattle.rv_unit.specs.Unit.{said};
ghost use Rattle.rv_source_laws.specs.Located.{located_from};
ghost use Rattle.rv_source_laws.specs.Sizes.{items_of, AreLeast};
ghost use Rattle.rv_draft.specs.Measure.{AreSizes};

use crate::measure::measured;
use rv_sizes::Family;
use rv_statement::{Statement, Statements};
use rv_unit::Unit;
use std::alloc::{AllocError, Global};

/// The sizes of a source's statements, and how long it took to find them.
#[derive(Drop)]
pub struct Layout {
    pub(crate) sizes: Vec<u32>,
    pub(crate) rounds: usize,
}

impl Layout {
    /// The sizes of a source's statements: the least family in which each form below a statement's largest reaches.
    ///
    /// # Errors
    ///
    /// `AllocError` where there is no memory for some 12 bytes a statement, and where some have several forms for 8 more
    /// and 24 for each of those.
    pub fn of(alloc: Global, unit: &Unit<'_>) -> Result<Layout, AllocError>
        ensures count { IfOk result
            (λ found. length found.sizes.items ≡ length (said unit.now)) }
        ensures least { IfOk result (λ found. AreLeast (tables (said unit.now))
            (located_from 1 1 (at_start (said unit.now)) (said unit.now)) found.sizes.items) }
        ensures sizes { IfOk result (λ found. AreSizes (tables (said unit.now))
            (located_from 1 1 (at_start (said unit.now)) (said unit.now)) found.sizes.items) }
        ensures rounds { IfOk result (λ found.
            let located = located_from 1 1 (at_start (said unit.now)) (said unit.now) in
            found.rounds
            ≤ 2 * branches (items_of (tables (said unit.now)) located located found.sizes.items)
            + 1) }
    {
        let mut room = Statements::room();
        Layout::read(alloc, unit, &mut room)
    }

    /// The same, where each statement is read into the room.
    pub(crate) fn read<'a>(
        alloc: Global,
        unit: &Unit<'a>,
        room: &mut Statement<'a>,
    ) -> Result<Layout, AllocError>
        ensures count { IfOk result
            (λ found. length found.sizes.items ≡ length (said unit.now)) }
        ensures least { IfOk result (λ found. AreLeast (tables (said unit.now))
            (located_from 1 1 (at_start (said unit.now)) (said unit.now)) found.sizes.items) }
        ensures sizes { IfOk result (λ found. AreSizes (tables (said unit.now))
            (located_from 1 1 (at_start (said unit.now)) (said unit.now)) found.sizes.items) }
        ensures rounds { IfOk result (λ found.
            let located = located_from 1 1 (at_start (said unit.now)) (said unit.now) in
            found.rounds
            ≤ 2 * branches (items_of (tables (said unit.now)) located located found.sizes.items)
            + 1) }
    {
        let items = measured(alloc, unit, room)?;
        let found = Family::least(alloc, &items, unit.sections().len())?;
        Ok(Layout {
            sizes: found.sizes,
            rounds: found.rounds,
        })
    }

    /// The bytes of the statement of an index, from 0.
    pub fn size(&self, index: usize) -> u32
        requires { index < length (self.now).sizes.items }
        ensures { result ≡ slice_index (self.now).sizes.items index }
    {
        self.sizes[index]
    }

    /// How many passes over the statements there were.
    pub fn rounds(&self) -> usize
        ensures { result ≡ (self.now).rounds }
    {
        self.rounds
    }
}
