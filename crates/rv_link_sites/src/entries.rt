//! The offsets that the symbols of an object name.

ghost use Rattle.std.specs.Prelude.{◌≡◌, ◌++◌, ◌<◌, ◌≤◌, ℕ, [], map, nat_le, length, IfOk, OnOk};
ghost use Rattle.std.specs.List.{list_any};
ghost use Rattle.std.specs.List.Sorted.{IsNonDecreasing, IsPartitionPoint, IsPermutation};
ghost use Rattle.rv_object_laws.specs.declared.symbol.Definition.TheVariants.{InSection};
ghost use Rattle.rv_object_laws.specs.Object.{Object as SaidObject};
ghost use Rattle.rv_object_types.specs.Parts.{symbol_of};
ghost use Rattle.rv_object_types.specs.View.{object_of};
ghost use Rattle.rv_link_laws.specs.CallSites as laws;
ghost use Rattle.rv_link_sites.specs.Entries.{AreEntries, is_within_call, list_at, offset_in, offsets_in};

use rv_object_types::{Definition, Object, SectionIndex, Symbol};
use std::alloc::{AllocError, Global};

/// The offsets that the symbols of an object name, those of each section in order.
#[derive(Drop)]
pub(crate) struct Entries {
    pub(crate) offsets: Vec<Vec<u64>>,
}

impl Entries {
    /// Those of an object.
    pub(crate) fn of(alloc: Global, object: &Object<'_>) -> Result<Entries, AllocError>
        ensures { IfOk result (AreEntries (object_of object.now)) }
    {
        let mut offsets = empty_lists(alloc, object.sections.len())?;
        put_all(&mut offsets, object.symbols.as_slice())?;
        sort_all(&mut offsets)?;
        Ok(Entries { offsets })
    }

    /// Whether one is strictly inside the eight bytes at a place of a section.
    pub(crate) fn is_entered(&self, section: SectionIndex, place: u64) -> bool
        ensures { (o : SaidObject) → AreEntries o self.now → section.0 < length o.sections
            → result ≡ laws.is_entered o section.0 place }
    {
        is_entered_in(&self.offsets, section, place)
    }
}

/// Whether one of the offsets of a section, in order, is strictly inside the eight bytes at a place.
fn is_entered_in(lists: &[Vec<u64>], section: SectionIndex, place: u64) -> bool
    ensures { IsNonDecreasing (list_at lists.now section.0)
        → result ≡ list_any (is_within_call place) (list_at lists.now section.0) }
{
    match lists.get(section.0) {
        Some(offsets) => is_any_inside(offsets, place),
        None => false,
    }
}

/// So many lists with nothing in them.
fn empty_lists(alloc: Global, count: usize) -> Result<Vec<Vec<u64>>, AllocError>
    ensures many { IfOk result (λ lists. length lists.items ≡ count) }
    ensures empty { IfOk result (λ lists. (index : ℕ) → list_at lists.items index ≡ []) }
{
    let mut lists = Vec::new(alloc);
    for _ in 0..count {
        lists.push(Vec::new(alloc))?;
    }
    Ok(lists)
}

/// Adds the offset of a definition to those of its section.
fn put(lists: &mut [Vec<u64>], definition: Definition) -> Result<(), AllocError>
    ensures many { length lists.new ≡ length lists.old }
    ensures added { OnOk result ((index : ℕ) → index < length lists.old
        → list_at lists.new index ≡ list_at lists.old index ++ offset_in index definition) }
{
    match definition {
        Definition::InSection(section, offset) => {
            put_at(lists, SectionIndex(section as usize), offset)
        }
        _ => Ok(()),
    }
}

/// Adds an offset to those of a section, if there is one.
fn put_at(lists: &mut [Vec<u64>], section: SectionIndex, offset: u64) -> Result<(), AllocError>
    ensures many { length lists.new ≡ length lists.old }
    ensures added { OnOk result ((index : ℕ) → index < length lists.old
        → list_at lists.new index
        ≡ list_at lists.old index ++ offset_in index (InSection section.0 offset)) }
{
    if section.0 < lists.len() {
        lists[section.0].push(offset)?;
    }
    Ok(())
}

/// Adds the offsets of symbols to those of their sections.
fn put_all(lists: &mut [Vec<u64>], symbols: &[Symbol<'_>]) -> Result<(), AllocError>
    ensures many { length lists.new ≡ length lists.old }
    ensures added { OnOk result ((index : ℕ) → index < length lists.old
        → list_at lists.new index
        ≡ list_at lists.old index ++ offsets_in index (map symbol_of symbols.now)) }
{
    for symbol in symbols {
        put(lists, symbol.definition)?;
    }
    Ok(())
}

/// Puts each list in order.
fn sort_all(lists: &mut [Vec<u64>]) -> Result<(), AllocError>
    ensures many { length lists.new ≡ length lists.old }
    ensures same { OnOk result ((index : ℕ) → index < length lists.old
        → IsPermutation (list_at lists.old index) (list_at lists.new index)) }
    ensures rise { OnOk result ((index : ℕ) → index < length lists.old
        → IsNonDecreasing (list_at lists.new index)) }
{
    for i in 0..lists.len() {
        lists[i].sort()?;
    }
    Ok(())
}

/// How many of offsets in order are at a place or before it.
fn count_until(offsets: &[u64], place: u64) -> usize
    ensures bound { result ≤ length offsets.now }
    ensures point { IsNonDecreasing offsets.now
        → IsPartitionPoint (λ o. o ≤ place) (λ o. place < o) offsets.now result }
{
    offsets.partition_point(
        |offset: &u64| -> bool
            ensures { result ≡ nat_le offset.now place }
        { *offset <= place },
    )
}

/// Whether one of offsets in order is strictly inside the eight bytes at a place.
fn is_any_inside(offsets: &[u64], place: u64) -> bool
    ensures { IsNonDecreasing offsets.now
        → result ≡ list_any (is_within_call place) offsets.now }
{
    let behind = count_until(offsets, place);
    if behind == offsets.len() {
        return false;
    }
    offsets[behind].saturating_sub(place) < 8
}
