//! The listing of an executable: whole, or row by row, for those who write each part before the next is made.

ghost use Rattle.std.specs.Prelude.{◌≡◌, ◌<◌, ◌++◌, [], false, true, OnOk, OnErr, IfOk};
ghost use Rattle.rv_isa_laws.specs.Word.{Spells};
ghost use Rattle.rv_parcel.specs.Parcel.{StandsFor};
ghost use Rattle.rv_isa_laws.specs.Reader.{Reader};
ghost use Rattle.rv_map.specs.Views.{map_of};
ghost use Rattle.rv_image.specs.Views.{image_of};
ghost use Rattle.rv_listing_laws.specs.Listing.{IsListing};

use crate::kept::KeptLines;
use crate::order::in_order;
use crate::rows::put_row;
use rv_image::{Image, Segment};
use rv_map::Map;
use rv_map_laws::Row;
use std::alloc::{AllocError, Global};

/// The statements of the map that have code, and the instructions that stand there in the image.
///
/// A statement is the line `@ FILE LINE ORDINAL`, an instruction a line with its address; bytes that spell none are
/// `unknown`, two a line. A statement whose bytes are not all in one executable segment is left out.
pub fn listing(alloc: Global, image: &Image, map: &Map) -> Result<Vec<u8>, AllocError>
    ensures { (reader : Reader Spells StandsFor) → IfOk result (λ text.
        IsListing reader (image_of image.now) (map_of map.now) text.items) }
{
    let mut rows = ListedRows::new(alloc, image, map)?;
    let mut text = Vec::new(alloc);
    while rows.next(&mut text)? {}
    Ok(text)
}

/// A listing whose text is made row by row. Rows that lie over each other may have a text that is very much longer than
/// their executable; its longest part is the text of one row.
#[derive(Drop)]
pub struct ListedRows<'a> {
    segments: &'a [Segment],
    /// The rows of the map in the order of the listing.
    rows: Vec<Row>,
    /// How many of them have been added.
    added: usize,
    /// The end of those that were added.
    end: u64,
    /// Lines of theirs, where rows lie over each other.
    kept: KeptLines,
}

impl<'a> ListedRows<'a> {
    ghost use Rattle.rv_disasm.specs.ListingLeft.{listing_left, rows_left};

    /// The listing that [`listing`](crate::listing) gives, of which all is left.
    pub fn new(alloc: Global, image: &'a Image, map: &Map) -> Result<Self, AllocError>
        ensures { (reader : Reader Spells StandsFor) → IfOk result (λ rows.
            IsListing reader (image_of image.now) (map_of map.now) (listing_left reader rows)) }
    {
        let rows = in_order(alloc, &map.rows)?;
        Ok(ListedRows {
            segments: &image.segments,
            rows,
            added: 0,
            end: 0,
            kept: KeptLines::new(alloc),
        })
    }

    /// Adds the text of the next row, which is empty where the row has no code; false where no row is left.
    ///
    /// Where memory ran out that row is still the next, and a part of its text may have been added.
    pub fn next(&mut self, text: &mut Vec<u8>) -> Result<bool, AllocError>
        ensures added { (reader : Reader Spells StandsFor) → OnOk result
            (text.new.items ++ listing_left reader self.new
            ≡ text.old.items ++ listing_left reader self.old) }
        ensures last { (reader : Reader Spells StandsFor) → IfOk result (λ any.
            any ≡ false → listing_left reader self.new ≡ []) }
        ensures fewer { IfOk result (λ any. any ≡ true → rows_left self.new < rows_left self.old) }
        ensures stays { OnErr result ((rows_left self.new ≡ rows_left self.old)
            × ((reader : Reader Spells StandsFor) →
            listing_left reader self.new ≡ listing_left reader self.old)) }
    {
        if self.added >= self.rows.len() {
            return Ok(false);
        }
        let row = self.rows[self.added];
        if row.address < self.end {
            self.kept.make_room()?;
        }
        put_row(text, &mut self.kept, self.segments, &row)?;
        self.end = self.end.max(row.address.saturating_add(row.bytes));
        self.added += 1;
        Ok(true)
    }
}
