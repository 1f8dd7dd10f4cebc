//! The numeric labels of one number, in little memory.
//!
//! A place counts the data before it, so that all labels of a section of code stand at the same: a label keeps its ordinal
//! alone, and a run of labels their place. Four bytes a label, and twelve for each change of place. The nearest label is
//! found by halving the ordinals, and its place by halving the runs.

ghost use Rattle.std.specs.Prelude.{◌≡◌, ◌++◌, ◌≤◌, ◌<◌, ◌+◌, ◌-◌, ◌^◌, ℕ, IsTrue, List, [], ◌∷◌, nat_lt, nat_le, length, reverse, slice_get, option_map, Some, OnErr, OnOk};
ghost use Rattle.std.specs.List.{find};
ghost use Rattle.std.specs.List.Sorted.{IsNonDecreasingBy, IsPartitionPoint};
ghost use Rattle.rv_unit.specs.declared.tables.NumericLabel.{NumericLabel as NumericLabelOf};
ghost use Rattle.rv_unit.specs.declared.numeric_labels.Run.{Run as RunOf};
ghost use Rattle.rv_unit.specs.NumericLabels.{are_runs, place_by_runs};

use crate::section_offset::SectionOffset;
use crate::tables::NumericLabel;
use std::alloc::{AllocError, Global};
use std::marker::Model;

/// Labels that stand at one place, to where the next run begins.
#[derive(Clone, Copy, Drop)]
struct Run {
    /// The index of its first label, from 0.
    first: u32,
    place: SectionOffset,
}

const _: () = prove!(size_of::<Run>() <= 12);

/// The numeric labels of a number, in the order of their ordinals; clauses see their list. A label has 4 bytes, and each run
/// of labels at one place 12.
#[derive(Drop)]
pub(crate) struct NumericLabels {
    ordinals: Vec<u32>,
    runs: Vec<Run>,
}

impl Model for NumericLabels {
    ghost use Rattle.std.specs.Prelude.{List};
    ghost use Rattle.rv_unit.specs.declared.tables.NumericLabel.{NumericLabel};

    ghost Value = { List NumericLabel };

    ghost use Rattle.rv_unit.specs.NumericLabels.{labels_in, AreInRuns};

    ghost view = { labels_in };

    ghost invariant = { AreInRuns };
}

/// How many ordinals, in their order, come before one.
fn count_before(ordinals: &[u32], ordinal: u32) -> usize
    ensures bound { result ≤ length ordinals.now }
    ensures point { IsNonDecreasingBy (λ (o : ℕ). o) ordinals.now →
        IsPartitionPoint (λ (o : ℕ). o < ordinal) (λ (o : ℕ). ordinal ≤ o) ordinals.now result }
{
    ordinals.partition_point(
        |other: &u32| -> bool
            ensures { result ≡ nat_lt other.now ordinal }
        { *other < ordinal },
    )
}

/// How many ordinals, in their order, come no later than one.
fn count_until(ordinals: &[u32], ordinal: u32) -> usize
    ensures { IsNonDecreasingBy (λ (o : ℕ). o) ordinals.now →
        IsPartitionPoint (λ (o : ℕ). o ≤ ordinal) (λ (o : ℕ). ordinal < o) ordinals.now result }
{
    ordinals.partition_point(
        |other: &u32| -> bool
            ensures { result ≡ nat_le other.now ordinal }
        { *other <= ordinal },
    )
}

/// The run of the label of an index: the last that does not begin after it.
fn run_of(runs: &[Run], index: usize) -> Option<Run>
    ensures { (count : ℕ) → IsTrue (are_runs (reverse runs.now) count) →
        result ≡ find (λ (r : RunOf). nat_le r.first index) (reverse runs.now) }
{
    let after = runs.partition_point(
        |run: &Run| -> bool
            ensures { result ≡ nat_le (run.now).first index }
        { run.first as usize <= index },
    );
    match after.checked_sub(1) {
        Some(last) => runs.get(last).copied(),
        None => None,
    }
}

/// Whether the last run stands at a place.
fn ends_at(runs: &[Run], place: SectionOffset) -> bool
    ensures { IsTrue result →
        option_map (λ (r : RunOf). r.place) (slice_get runs.now (length runs.now - 1)) ≡ Some place }
{
    match runs.last() {
        Some(run) => run.place == place,
        None => false,
    }
}

/// Lets the next label, the one of this index, stand at a place: it begins a run, unless the last run stands there.
fn add_place(runs: &mut Vec<Run>, index: usize, place: SectionOffset) -> Result<(), AllocError>
    ensures runs { OnOk result (IsTrue (are_runs (reverse runs.old.items) index) →
        IsTrue (are_runs (reverse runs.new.items) (index + 1))) }
    ensures place { OnOk result (IsTrue (are_runs (reverse runs.old.items) index) →
        index < 2 ^ 32 → place_by_runs (reverse runs.new.items) index ≡ place) }
    ensures others { OnOk result ((other : ℕ) → other < index →
        place_by_runs (reverse runs.new.items) other
        ≡ place_by_runs (reverse runs.old.items) other) }
    ensures err { OnErr result (runs.new.items ≡ runs.old.items) }
{
    if ends_at(runs.as_slice(), place) {
        return Ok(());
    }
    match u32::try_from(index) {
        Ok(first) => {
            runs.push(Run { first, place })?;
            Ok(())
        }
        // past 2^32 labels, which no source has, the last run goes on
        Err(_) => Ok(()),
    }
}

impl NumericLabels {
    /// No labels yet.
    pub(crate) fn new(alloc: Global) -> NumericLabels
        ensures { result ≡ [] }
    {
        NumericLabels {
            ordinals: Vec::new(alloc),
            runs: Vec::new(alloc),
        }
    }

    /// Adds a label behind those that there are, if these are fewer than 2^32. A call that is refused leaves them as they
    /// are.
    pub(crate) fn push(&mut self, label: NumericLabel) -> Result<(), AllocError>
        ensures ok { OnOk result
            (length self.old < 2 ^ 32 → self.new ≡ self.old ++ label ∷ []) }
        ensures err { OnErr result (self.new ≡ self.old) }
    {
        // room first, so that no growth is refused between the two
        self.ordinals.reserve(1)?;
        let index = self.ordinals.len();
        add_place(&mut self.runs, index, label.place)?;
        self.ordinals.push(label.ordinal)?;
        Ok(())
    }

    /// The label of an index, from 0.
    fn get(&self, index: usize) -> Option<NumericLabel>
        ensures { result ≡ slice_get self.now index }
    {
        let ordinal = self.ordinals.as_slice().get(index).copied()?;
        let run = run_of(self.runs.as_slice(), index)?;
        Some(NumericLabel {
            ordinal,
            place: run.place,
        })
    }

    /// The last label.
    pub(crate) fn last(&self) -> Option<NumericLabel>
        ensures { result ≡ slice_get self.now (length self.now - 1) }
    {
        let ordinal = self.ordinals.as_slice().last().copied()?;
        let run = self.runs.as_slice().last().copied()?;
        Some(NumericLabel {
            ordinal,
            place: run.place,
        })
    }

    /// The last label that stands before an ordinal.
    pub(crate) fn last_before(&self, ordinal: u32) -> Option<NumericLabel>
        ensures { IsNonDecreasingBy (λ (m : NumericLabelOf). m.ordinal) self.now →
            result ≡ find (λ (m : NumericLabelOf). nat_lt m.ordinal ordinal) (reverse self.now) }
    {
        match count_before(self.ordinals.as_slice(), ordinal).checked_sub(1) {
            Some(last) => self.get(last),
            None => None,
        }
    }

    /// The first label that stands after an ordinal.
    pub(crate) fn first_after(&self, ordinal: u32) -> Option<NumericLabel>
        ensures { IsNonDecreasingBy (λ (m : NumericLabelOf). m.ordinal) self.now →
            result ≡ find (λ (m : NumericLabelOf). nat_lt ordinal m.ordinal) self.now }
    {
        self.get(count_until(self.ordinals.as_slice(), ordinal))
    }
}
