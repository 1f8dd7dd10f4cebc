//! The sizes of symbols in their object.

ghost use Rattle.std.specs.Prelude.{◌≡◌};
ghost use Rattle.rv_debug_laws.specs.Labels.{size_to};
ghost use Rattle.rv_typed_objects.specs.Typed as laws;

use rv_labels::{SaidSize, are_ordered, last_before};
use rv_object_types::{Definition, Row};

/// How many bytes an object has of what it defines so, by what is said of its size.
pub(crate) fn said_bytes(rows: &[Row], definition: Definition, size: SaidSize) -> u64
    ensures { result ≡ laws.said_bytes rows.now definition size }
{
    match definition {
        Definition::InSection(section, offset) => place_size(rows, section, offset, size),
        Definition::Undefined => 0,
        Definition::Absolute(_) => 0,
        Definition::Skipped(_) => 0,
    }
}

/// The size of what stands at an offset of a section.
fn place_size(rows: &[Row], section: u32, offset: u64, size: SaidSize) -> u64
    ensures { result ≡ laws.place_size rows.now section offset size }
{
    match size {
        SaidSize::NoSize => 0,
        SaidSize::UpTo(ordinal) => size_up_to(rows, section, offset, ordinal),
        SaidSize::Bytes(size) => size,
    }
}

/// How many bytes there are from an offset of a section up to the statement of this ordinal.
fn size_up_to(rows: &[Row], section: u32, offset: u64, ordinal: u32) -> u64
    ensures { result ≡ laws.size_up_to rows.now section offset ordinal }
{
    match last_before(rows, are_ordered(rows), section, ordinal) {
        Some(row) => row_end(row).saturating_sub(offset),
        None => 0,
    }
}

/// Where a statement ends in its section.
fn row_end(row: Row) -> u64
    ensures { result ≡ laws.row_end row }
{
    row.offset.saturating_add(u64::from(row.bytes))
}
