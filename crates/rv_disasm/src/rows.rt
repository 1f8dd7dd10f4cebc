//! The text of a row.

ghost use Rattle.std.specs.Prelude.{◌≡◌, ◌+◌, ◌-◌, ◌≤◌, ◌^◌, ◌++◌, OnOk, map, length, take, drop};
ghost use Rattle.rv_isa_laws.specs.Word.{Spells};
ghost use Rattle.rv_parcel.specs.Parcel.{StandsFor};
ghost use Rattle.rv_isa_laws.specs.Reader.{Reader};
ghost use Rattle.rv_image.specs.SegmentView.{segment_of};
ghost use Rattle.rv_listing_laws.specs.Listing as shows;

use crate::kept::KeptLines;
use crate::line::put_lines;
use crate::numbers::put_decimal;
use rv_image::Segment;
use rv_map_laws::Row;
use std::alloc::AllocError;

/// Adds the text of a row.
#[tactic(auto, using(rv_listing_laws::proofs::LinesOnLemmas::entry_none, rv_listing_laws::proofs::LinesOnLemmas::entry_some))]
pub(crate) fn put_row(
    text: &mut Vec<u8>,
    kept: &mut KeptLines,
    segments: &[Segment],
    row: &Row,
) -> Result<(), AllocError>
    ensures { (reader : Reader Spells StandsFor) → OnOk result (text.new.items
        ≡ text.old.items ++ shows.row_text reader (map segment_of segments.now) row.now) }
{
    let bytes = row_bytes(segments, row);
    if bytes.is_empty() {
        return Ok(());
    }
    put_statement(text, row)?;
    put_lines(text, kept, row.address, bytes)?;
    Ok(())
}

fn put_statement(text: &mut Vec<u8>, row: &Row) -> Result<(), AllocError>
    ensures { OnOk result (text.new.items ≡ text.old.items ++ shows.statement row.now) }
{
    text.push(b'@')?;
    put_decimal(text, b' ', row.file)?;
    put_decimal(text, b' ', row.line)?;
    put_decimal(text, b' ', row.ordinal)?;
    text.push(b'\n')?;
    Ok(())
}

/// The bytes of a row in the executable segment that has them all; none where none does.
pub(crate) fn row_bytes<'a>(segments: &'a [Segment], row: &Row) -> &'a [u8]
    ensures bytes { result.now ≡ shows.row_bytes (map segment_of segments.now) row.now }
    ensures ends { row.now.address + length result.now ≤ 2 ^ 64 }
{
    // Read so that its range is known to the clause `ends`.
    let _address = row.address;
    for segment in segments {
        if is_held(segment, row) {
            return held(segment, row);
        }
    }
    &[]
}

/// Whether the segment can be executed and has all bytes of the row.
fn is_held(segment: &Segment, row: &Row) -> bool
    ensures { result ≡ shows.holds row.now (segment_of segment.now) }
{
    let end = u128::from(segment.address) + segment.bytes.len() as u128;
    segment.flags % 2 == 1
        && segment.address <= row.address
        && u128::from(row.address) + u128::from(row.bytes) <= end
}

/// The bytes of a row that the segment holds.
fn held<'a>(segment: &'a Segment, row: &Row) -> &'a [u8]
    requires after { segment.now.address ≤ row.now.address }
    requires before { row.now.address + row.now.bytes
        ≤ segment.now.address + length segment.now.bytes.items }
    ensures bytes { result.now
        ≡ take row.now.bytes
        (drop (row.now.address - segment.now.address) segment.now.bytes.items) }
    ensures ends { row.now.address + length result.now ≤ 2 ^ 64 }
{
    let start = (row.address - segment.address) as usize;
    let rest = &segment.bytes[start..];
    &rest[..row.bytes as usize]
}
