//! The rows of a section: their fields, and whether they are good.

ghost use Rattle.std.specs.Prelude.{◌≡◌, ◌+◌, ◌*◌, ◌≤◌, ◌<◌, true, nat_le, Some, None, flat_map, length, if◌then◌else◌};
ghost use Rattle.rv_elf_laws.specs.Fields.{field, number_in};
ghost use Rattle.rv_elf_laws.specs.FirstFault.{Finds};
ghost use Rattle.rv_elf_laws.specs.Sections.{file_contents, section_count};
ghost use Rattle.rv_object_file_laws.specs.FirstFault.{row_tests};
ghost use Rattle.rv_object_file_laws.specs.Parts.{kept_at};
ghost use Rattle.rv_object_file_laws.specs.Rows.{row_size, row_at, rows_in};
ghost use Rattle.rv_object_reader.specs.Found.{section_at};
ghost use Rattle.rv_object_reader.specs.Rows.{record_of, room_of, row_lies_in};

use crate::headers::is_loaded;
use crate::row_record::{ROW_SIZE, RowRecord};
use crate::tables::Tables;
use byteorder::{ByteOrder, LittleEndian};
use rv_elf::SectionIndex;
use rv_elf_laws::SectionHeader;
use rv_fault::FileFault;

/// The row of this index, from 0, in a section of these bytes.
pub fn row_in(bytes: &[u8], index: usize) -> RowRecord
    requires { row_size * index + row_size ≤ length bytes.now }
    ensures { record_of result ≡ row_at (row_size * index) bytes.now }
{
    let place = ROW_SIZE * index;
    let record = &bytes[place..place + ROW_SIZE];
    RowRecord {
        r_line: word(record, 0),
        r_ordinal: word(record, 4),
        r_section: word(record, 8),
        r_instructions: word(record, 12),
        r_offset: double(record, 16),
        r_bytes: word(record, 24),
        r_reserved: word(record, 28),
    }
}

/// The four bytes at an offset in a record, the lowest first.
#[inline(always)]
fn word(record: &[u8], offset: usize) -> u32
    requires { offset + 4 ≤ length record.now }
    ensures { result ≡ number_in (field offset 4) 0 record.now }
{
    LittleEndian::read_u32(&record[offset..])
}

/// The eight bytes at an offset in a record, the lowest first.
#[inline(always)]
fn double(record: &[u8], offset: usize) -> u64
    requires { offset + 8 ≤ length record.now }
    ensures { result ≡ number_in (field offset 8) 0 record.now }
{
    LittleEndian::read_u64(&record[offset..])
}

/// A section that a row names. Rows of one section mostly follow each other, so the next asks nothing of the file.
#[derive(Clone, Copy, Drop)]
struct Home {
    /// Its index in the file.
    index: u32,
    /// How many bytes it has; `None` where no row may lie in it.
    size: Option<u64>,
}

/// Looks at the rows of a section, one after the other.
pub(crate) fn check_rows(tables: &Tables<'_>, header: &SectionHeader) -> Result<(), FileFault>
    ensures { Finds
        (flat_map (row_tests tables.now.names.view.file.now)
        (rows_in (file_contents tables.now.names.view.file.now header.now))) result }
{
    let bytes = tables.names.view.contents(header);
    let mut home = home_at(tables, 0);
    for index in 0..bytes.len() / ROW_SIZE {
        check_row(tables, &mut home, &row_in(bytes, index))?;
    }
    Ok(())
}

/// Looks at a row.
#[tactic(auto, unfolding(rv_object_file_laws::specs::FirstFault::row_tests))]
fn check_row(tables: &Tables<'_>, home: &mut Home, row: &RowRecord) -> Result<(), FileFault>
    requires { home.old.size ≡ room_of (kept_at tables.now.names.view.file.now home.old.index) }
    ensures tests { Finds (row_tests tables.now.names.view.file.now (record_of row.now)) result }
    ensures home { home.new.size
        ≡ room_of (kept_at tables.now.names.view.file.now home.new.index) }
{
    *home = home_of(tables, *home, row.r_section);
    if !lies_in(row, home.size) || row.r_reserved != 0 {
        return Err(FileFault::BadTable);
    }
    Ok(())
}

/// The section of an index, which may be that of the row before.
fn home_of(tables: &Tables<'_>, last: Home, index: u32) -> Home
    requires { last.size ≡ room_of (kept_at tables.now.names.view.file.now last.index) }
    ensures index { result.index ≡ index }
    ensures size { result.size ≡ room_of (kept_at tables.now.names.view.file.now index) }
{
    if last.index == index {
        return last;
    }
    home_at(tables, index)
}

/// The section of an index.
fn home_at(tables: &Tables<'_>, index: u32) -> Home
    ensures index { result.index ≡ index }
    ensures size { result.size ≡ room_of (kept_at tables.now.names.view.file.now index) }
{
    Home {
        index,
        size: size_at(tables, index),
    }
}

/// How many bytes the section of an index has, if it has a place in memory.
fn size_at(tables: &Tables<'_>, index: u32) -> Option<u64>
    ensures { result ≡ room_of (kept_at tables.now.names.view.file.now index) }
{
    if !is_kept_index(tables, index) {
        return None;
    }
    let section = tables.names.view.section_header(SectionIndex(index as u16));
    if is_loaded(&section) {
        Some(section.sh_size)
    } else {
        None
    }
}

/// Whether the row lies in a section of so many bytes; in none where there is no such section.
fn lies_in(row: &RowRecord, size: Option<u64>) -> bool
    ensures { result ≡ row_lies_in (record_of row.now) size }
{
    match size {
        Some(size) => ends_inside(row, size),
        None => false,
    }
}

/// Whether an object keeps the section of an index.
fn is_kept_index(tables: &Tables<'_>, index: u32) -> bool
    ensures kept { kept_at tables.now.names.view.file.now index
        ≡ (if result then Some (section_at tables.now.names.view.file.now index) else None) }
    ensures within { result ≡ true → index < section_count tables.now.names.view.file.now }
{
    let index = index as usize;
    index < tables.places.len() && tables.places[index].is_some()
}

/// Whether the row ends in a section of this size, or at its end.
fn ends_inside(row: &RowRecord, size: u64) -> bool
    ensures { result ≡ nat_le (row.now.r_offset + row.now.r_bytes) size }
{
    let bytes = u64::from(row.r_bytes);
    bytes <= size && row.r_offset <= size - bytes
}
