//! Whether a map is one of an image.
//!
//! A map of another program, or of an older one, would name the wrong statements without a word.

ghost use Rattle.std.specs.Prelude.{◌≡◌, map, List, Option};
ghost use Rattle.rv_isa_laws.specs.Word.{Spells};
ghost use Rattle.rv_parcel.specs.Parcel.{StandsFor};
ghost use Rattle.rv_isa_laws.specs.Reader.{Reader};
ghost use Rattle.rv_map.specs.Views.{map_of};
ghost use Rattle.rv_map.specs.Reading.{Gives};
ghost use Rattle.rv_image_laws.specs.Segment.{Segment as PlainSegment};
ghost use Rattle.rv_image.specs.Views.{image_of};
ghost use Rattle.rv_image.specs.SegmentView.{segment_of};
ghost use Rattle.rv_disasm.specs.Fitting as fitting;

use crate::rows::row_bytes;
use rv_compress::next_inst;
use rv_image::{Image, Segment};
use rv_map::Map;
use rv_map_laws::Row;

/// Whether the map may be one of the image: its regions are the image's segments, its entry is the image's, and the bytes
/// of each row of code spell as many instructions as the row says.
///
/// Rows claim no more bytes for code than the text has, so that this takes no longer than a walk over the text.
pub fn fits(map: &Map, image: &Image) -> bool
    ensures { (reader : Reader Spells StandsFor) →
        result ≡ fitting.fits reader (map_of map.now) (image_of image.now) }
{
    map.entry == image.entry
        && is_end(after_regions(&image.segments, map))
        && rows_fit(
            &map.rows,
            &image.segments,
            map.text.end.saturating_sub(map.text.start),
        )
}

/// The segments after those of the regions: text, constants, and variables with the zeroed ones.
#[tactic(auto, unfolding(crate::specs::Fitting::after_regions))]
fn after_regions<'a>(segments: &'a [Segment], regions: &Map) -> Option<&'a [Segment]>
    ensures { Gives (λ rest. map segment_of rest.now) result
        (fitting.after_regions (map_of regions.now) (map segment_of segments.now)) }
{
    let rest = after_region(segments, regions.text.start, regions.text.end)?;
    let rest = after_region(rest, regions.rodata.start, regions.rodata.end)?;
    after_region(rest, regions.data.start, regions.bss.end)
}

/// The segments after that of a region, which has one where it has bytes.
#[tactic(auto, unfolding(crate::specs::Fitting::after_region))]
fn after_region(segments: &[Segment], start: u64, end: u64) -> Option<&[Segment]>
    ensures { Gives (λ rest. map segment_of rest.now) result
        (fitting.after_region start end (map segment_of segments.now)) }
{
    if end <= start {
        return Some(segments);
    }
    match segments {
        [first, rest @ ..] => {
            if first.address == start && first.bytes.len() as u64 == end - start {
                Some(rest)
            } else {
                None
            }
        }
        [] => None,
    }
}

/// Whether all segments are those of regions.
fn is_end(rest: Option<&[Segment]>) -> bool
    ensures { (seen : Option (List PlainSegment)) → Gives (λ rest. map segment_of rest.now) rest.entry seen →
        result ≡ fitting.is_end seen }
{
    match rest {
        Some(rest) => rest.is_empty(),
        None => false,
    }
}

/// Whether each row fits, and rows claim no more bytes for code than are left.
fn rows_fit(rows: &[Row], segments: &[Segment], room: u64) -> bool
    ensures { (reader : Reader Spells StandsFor) →
        result ≡ fitting.rows_fit reader (map segment_of segments.now) room rows.now }
{
    let mut remaining = room;
    for row in rows {
        let bytes = claimed_bytes(row);
        if bytes > remaining {
            return false;
        }
        if !row_fits(row, segments) {
            return false;
        }
        remaining -= bytes;
    }
    true
}

/// The bytes that a row claims for code.
fn claimed_bytes(row: &Row) -> u64
    ensures { result ≡ fitting.claimed_bytes row.now }
{
    if row.instructions == 0 { 0 } else { row.bytes }
}

/// Whether a row has no code, or its bytes spell as many instructions as it says.
fn row_fits(row: &Row, segments: &[Segment]) -> bool
    ensures { (reader : Reader Spells StandsFor) →
        result ≡ fitting.row_fits reader (map segment_of segments.now) row.now }
{
    row.instructions == 0 || spell(row_bytes(segments, row), row.instructions)
}

/// Whether bytes are those of so many instructions, one behind another.
fn spell(bytes: &[u8], count: u64) -> bool
    ensures { (reader : Reader Spells StandsFor) → result ≡ fitting.spell reader count bytes.now }
{
    let mut rest = bytes;
    let mut remaining = count;
    while remaining > 0 {
        match next_inst(rest) {
            Some((_, length)) => {
                rest = &rest[length..];
                remaining -= 1;
            }
            None => return false,
        }
    }
    rest.is_empty()
}
