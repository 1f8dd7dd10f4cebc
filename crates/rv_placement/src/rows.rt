//! The rows of a map.
//!
//! A map has the rows of a file by their ordinals, and a reader of objects tests no order: rows that do not rise are
//! sorted, and those of one ordinal keep their order. A link without a map makes neither names nor rows, and still promises that
//! its map has a text.

ghost use Rattle.std.specs.Prelude.{◌≡◌, ◌+◌, ◌<◌, ◌++◌, ◌^◌, ℕ, Some, List, All, IfOk, OnOk, IsTrue, map};
ghost use Rattle.std.specs.Bool.{OnTrue};
ghost use Rattle.std.specs.List.{slice_get};
ghost use Rattle.rv_map_laws.specs.Limits.{IsRow};
ghost use Rattle.rv_object_laws.specs.Object.{Object as PlainObject};
ghost use Rattle.rv_object_laws.specs.Valid.{are_rows};
ghost use Rattle.rv_link_laws.specs.declared.bounds.Ground.{Ground};
ghost use Rattle.rv_link_laws.specs.IsLinkOf as laws;
ghost use Rattle.rv_link_laws.specs.Moves.{new_offset};
ghost use Rattle.rv_shorten.specs.View.{short_object_of};
ghost use Rattle.rv_relax.specs.Kept.{moves_of};
ghost use Rattle.rv_placement.specs.Moved.{moved_rows};
ghost use Rattle.rv_placement.specs.Placement.{starts_of, IsPlacement};

use crate::placement::{PlacedSection, Placement};
use rv_map_laws::Row as MapRow;
use rv_object_types::{FileIndex, Row, SectionIndex};
use rv_shorten::ShortObject;
use std::alloc::{AllocError, Global};

/// The row of a map for a row of an object: it moves with the bytes that are kept, and loses the
/// instructions that go.
fn map_row(file: u64, place: &PlacedSection<'_>, row: &Row) -> MapRow
    ensures known { IsRow result }
    ensures moved { (row.now).offset + (row.now).bytes < 2 ^ 64
        → (place.now).start + new_offset (moves_of (place.now).plan.now) (row.now).offset < 2 ^ 64
        → result ≡ laws.map_row file (place.now).start (moves_of (place.now).plan.now) row.now }
{
    let offset = place.plan.new_offset(row.offset);
    let end = row.offset.wrapping_add(u64::from(row.bytes));
    let lost = place.plan.lost(row.offset, row.bytes);
    MapRow {
        file,
        line: u64::from(row.line),
        ordinal: u64::from(row.ordinal),
        address: place.start.wrapping_add(offset),
        bytes: place.plan.new_offset(end).saturating_sub(offset),
        instructions: u64::from(row.instructions).saturating_sub(lost),
    }
}

/// Whether rows stand in the order of their ordinals.
fn are_ordered(rows: &[Row]) -> bool
    ensures { OnTrue result (laws.by_ordinal rows.now ≡ rows.now) }
{
    rows.is_sorted_by_key(|row| row.ordinal)
}

/// Rows in the order of their ordinals; those of one ordinal stay in theirs.
fn by_ordinal(alloc: Global, rows: &[Row]) -> Result<Vec<Row>, AllocError>
    ensures { IfOk result (λ sorted. sorted.items ≡ laws.by_ordinal rows.now) }
{
    let mut sorted = Vec::from_slice(alloc, rows)?;
    sorted.sort_by_key(|row| row.ordinal)?;
    Ok(sorted)
}

impl<'p> Placement<'p> {
    /// Adds rows of an object, which is a file, as its cuts have moved them.
    fn put_rows(
        &self,
        rows: &mut Vec<MapRow>,
        object: &ShortObject<'_, '_>,
        file: FileIndex,
        own: &[Row],
    ) -> Result<(), AllocError>
        requires file { file.0 + 1 < 2 ^ 64 }
        requires own { IsTrue
            (are_rows (short_object_of object.now).sections (moved_rows object.now own.now)) }
        ensures known { OnOk result (All IsRow rows.old.items → All IsRow rows.new.items) }
        ensures added { (os : List PlainObject) (bounds : Ground) → IsPlacement os bounds self.now
            → slice_get os file.0 ≡ Some (short_object_of object.now)
            → IfOk result (λ _. rows.new.items ≡ rows.old.items
            ++ map (laws.row_in (starts_of self.now) (file.0 + 1) (short_object_of object.now))
            (moved_rows object.now own.now)) }
    {
        rows.reserve(own.len())?;
        for row in own {
            let moved = object.row(row);
            match self.section(file, SectionIndex(row.section as usize)) {
                Some(place) => rows.push(map_row(file.0 as u64 + 1, place, &moved))?,
                None => return Ok(()),
            }
        }
        Ok(())
    }

    /// Adds the rows of an object, which is a file, in the order of their ordinals.
    fn put_object(
        &self,
        alloc: Global,
        rows: &mut Vec<MapRow>,
        object: &ShortObject<'_, '_>,
        file: FileIndex,
    ) -> Result<(), AllocError>
        requires { file.0 + 1 < 2 ^ 64 }
        ensures known { OnOk result (All IsRow rows.old.items → All IsRow rows.new.items) }
        ensures added { (os : List PlainObject) (bounds : Ground) → IsPlacement os bounds self.now
            → slice_get os file.0 ≡ Some (short_object_of object.now)
            → IfOk result (λ _. rows.new.items ≡ rows.old.items
            ++ map (laws.row_in (starts_of self.now) (file.0 + 1) (short_object_of object.now))
            (laws.by_ordinal (short_object_of object.now).rows)) }
    {
        let own = object.whole.rows.as_slice();
        if are_ordered(own) {
            return self.put_rows(rows, object, file, own);
        }
        let sorted = by_ordinal(alloc, own)?;
        self.put_rows(rows, object, file, sorted.as_slice())
    }

    /// The rows of a map, by object and then by ordinal.
    pub fn rows(
        &self,
        alloc: Global,
        objects: &[ShortObject<'_, '_>],
    ) -> Result<Vec<MapRow>, AllocError>
        ensures known { IfOk result (λ rows. All IsRow rows.items) }
        ensures rows { (bounds : Ground) → IsPlacement (map short_object_of objects.now) bounds self.now
            → IfOk result (λ rows. rows.items
            ≡ laws.rows_of (starts_of self.now) 1 (map short_object_of objects.now)) }
    {
        let mut rows = Vec::new(alloc);
        for i in 0..objects.len() {
            self.put_object(alloc, &mut rows, &objects[i], FileIndex(i))?;
        }
        Ok(rows)
    }
}
