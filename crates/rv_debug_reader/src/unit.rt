//! The units of `.debug_line` (DWARF 5, 6.2.4; DWARF 2 to 4, 6.2.4).

ghost use Rattle.std.specs.Prelude.{◌<◌, IfSome, length};

use crate::file::{FileName, Strings, files_of};
use crate::program::{line_table, rows_of};
use crate::state::Header;
use byteorder::{ByteOrder, LittleEndian};
use rv_debug_laws::LineRow;
use std::alloc::{AllocError, Global};

/// Lengths from here on are escapes (DWARF 5, 7.4).
const ESCAPES: u32 = 0xFFFF_FFF0;

/// The lines of a unit's code.
#[derive(Drop)]
pub struct LineUnit<'e> {
    /// By their numbers, from 0.
    pub files: Vec<FileName<'e>>,
    /// Each with the number of its file.
    pub rows: Vec<LineRow>,
}

/// A unit by its parts.
#[derive(Clone, Copy, Drop)]
struct Parts<'e> {
    version: u16,
    header: Header,
    /// The directories and files.
    tables: &'e [u8],
    program: &'e [u8],
}

/// The units of a section, in their order, but for those that cannot be read.
pub(crate) fn units_of<'e>(
    alloc: Global,
    lines: &'e [u8],
    strings: Strings<'e>,
) -> Result<Vec<LineUnit<'e>>, AllocError> {
    let mut units = Vec::new(alloc);
    let mut rest = lines;
    while let Some((unit, behind)) = unit_at(rest) {
        if let Some(parts) = parts_of(unit) {
            put_unit(alloc, &mut units, parts, strings)?;
        }
        rest = behind;
    }
    Ok(units)
}

/// Adds a unit that can be read.
fn put_unit<'e>(
    alloc: Global,
    units: &mut Vec<LineUnit<'e>>,
    parts: Parts<'e>,
    strings: Strings<'e>,
) -> Result<(), AllocError> {
    let Some(files) = files_of(alloc, parts.version, parts.tables, strings)? else {
        return Ok(());
    };
    let Some(entries) = line_table(alloc, parts.header, parts.program)? else {
        return Ok(());
    };
    let rows = rows_of(alloc, entries.as_slice())?;
    units.push(LineUnit { files, rows })?;
    Ok(())
}

/// The unit at the front of some bytes, behind its length, and what stands after it.
fn unit_at(bytes: &[u8]) -> Option<(&[u8], &[u8])>
    ensures { IfSome result (λ found. length found.1.now < length bytes.now) }
{
    let length = word_at(bytes, 0)?;
    if length >= ESCAPES {
        return None;
    }
    let behind = bytes.get(4..)?;
    let unit = behind.get(..length as usize)?;
    Some((unit, behind.get(length as usize..)?))
}

/// The parts of a unit; none of a form that is not known.
fn parts_of(unit: &[u8]) -> Option<Parts<'_>> {
    let version = half_at(unit)?;
    let length_at: usize = match version {
        2..=4 => 2,
        // behind the sizes of addresses and of segment selectors
        5 => 4,
        _ => return None,
    };
    let length = word_at(unit, length_at)? as usize;
    let rest = unit.get(length_at..)?.get(4..)?;
    let program = rest.get(length..)?;
    let (header, tables) = header_in(version, rest.get(..length)?)?;
    Some(Parts {
        version,
        header,
        tables,
        program,
    })
}

/// What opcodes mean, and what stands behind the lengths of the standard ones.
fn header_in(version: u16, fields: &[u8]) -> Option<(Header, &[u8])> {
    // from version 4 on maximum_operations_per_instruction stands behind the first field
    let behind = fields.get(if version < 4 { 1 } else { 2 }..)?;
    let [default_is_stmt, line_base, line_range, opcode_base, ..] = behind else {
        return None;
    };
    if *line_range == 0 || *opcode_base == 0 {
        return None;
    }
    let header = Header {
        minimum_instruction_length: *fields.first()?,
        default_is_stmt: *default_is_stmt != 0,
        line_base: line_base.cast_signed(),
        line_range: *line_range,
        opcode_base: *opcode_base,
    };
    Some((header, behind.get(3 + usize::from(*opcode_base)..)?))
}

/// The number of two bytes at the front.
fn half_at(bytes: &[u8]) -> Option<u16> {
    Some(LittleEndian::read_u16(bytes.get(..2)?))
}

/// The number of four bytes at an offset.
fn word_at(bytes: &[u8], offset: usize) -> Option<u32> {
    let rest = bytes.get(offset..)?;
    Some(LittleEndian::read_u32(rest.get(..4)?))
}
