//! A unit of `.debug_line`: the header that says how to read a program, and the program.
//!
//! Source: DWARF 5, 6.2.4 "The Line Number Program Header", 7.4 "32-Bit and 64-Bit DWARF Formats".

ghost use Rattle.std.specs.Prelude.{◌≡◌, ◌+◌, ◌<◌, ◌≤◌, ◌++◌, ℕ, List, length, flat_map, IfOk, IfSome, IfNone, MatchOption, OnOk, Some};
ghost use Rattle.rv_debug_laws.specs.LineUnit.{AreFields, file_entry, table_at, unit_bytes};
ghost use Rattle.rv_debug_laws.specs.LineTable.{entries_of};
ghost use Rattle.rv_debug.specs.Table.{IsLong, IsUnitOf};

use crate::leb128::put_unsigned;
use crate::program::put_line_program;
use rv_debug_laws::{LineRow, SourceFile};
use std::alloc::{AllocError, Global};

/// From this length on a number of four bytes says something else.
const TOO_LONG: usize = 0xffff_fff0;

/// The bytes between a unit's two lengths and the header's last field.
const BETWEEN: usize = 8;

/// Instructions begin anywhere and have one operation; rows are statements; -5 to 8 lines go with a special opcode; those begin
/// at 13, and the 12 standard ones have these numbers of operands.
static MACHINE_FIELDS: [u8; 18] = [1, 1, 1, 251, 14, 13, 0, 1, 1, 1, 1, 0, 0, 0, 1, 0, 0, 1];

/// A unit with these rows, whose files are numbered from 0; none where it would be too long for the 32-bit format. File 0
/// is the primary source, and file 1 is the one that is assumed where nothing is said, so both are the same by custom.
#[tactic(auto, using(crate::proofs::UnitTableLemmas::table_read))]
pub fn line_unit(
    alloc: Global,
    directory: &[u8],
    files: &[SourceFile<'_>],
    rows: &[LineRow],
) -> Result<Option<Vec<u8>>, AllocError>
    // A reader finds the table, whatever follows.
    ensures table { IfOk result (λ unit. IfSome unit (λ unit.
        (rest : List ℕ) → table_at (unit.items ++ rest) ≡ Some (entries_of rows.now))) }
    ensures unit { IfOk result (λ unit. IfSome unit (λ unit.
        IsUnitOf unit.items directory.now files.now rows.now)) }
    ensures none { IfOk result (λ unit. IfNone unit (IsLong directory.now files.now rows.now)) }
{
    let fields = fields_of(alloc, directory, files)?;
    let mut program = Vec::new(alloc);
    put_line_program(&mut program, rows)?;
    joined(alloc, fields.as_slice(), program.as_slice())
}

/// The fields behind the header's length.
fn fields_of(
    alloc: Global,
    directory: &[u8],
    files: &[SourceFile<'_>],
) -> Result<Vec<u8>, AllocError>
    ensures { IfOk result (λ fields. AreFields fields.items directory.now files.now) }
{
    let mut fields = Vec::new(alloc);
    fields.extend_from_slice(&MACHINE_FIELDS)?;
    fields.extend_from_slice(&[1, 1, 8, 1])?;
    fields.extend_from_slice(directory)?;
    fields.extend_from_slice(&[0, 2, 1, 8, 2, 11])?;
    put_unsigned(&mut fields, files.len() as u64)?;
    put_files(&mut fields, files)?;
    Ok(fields)
}

/// Adds the entries of files.
fn put_files(out: &mut Vec<u8>, files: &[SourceFile<'_>]) -> Result<(), AllocError>
    ensures { OnOk result (out.new.items ≡ out.old.items ++ flat_map file_entry files.now) }
{
    for file in files {
        put_file_entry(out, *file)?;
    }
    Ok(())
}

/// Adds the entry of a file.
fn put_file_entry(out: &mut Vec<u8>, file: SourceFile<'_>) -> Result<(), AllocError>
    ensures { OnOk result (out.new.items ≡ out.old.items ++ file_entry file.entry) }
{
    out.extend_from_slice(file.path)?;
    out.extend_from_slice(&[0, 0])?;
    Ok(())
}

/// A unit of these fields and this program.
fn joined(alloc: Global, fields: &[u8], program: &[u8]) -> Result<Option<Vec<u8>>, AllocError>
    ensures { IfOk result (λ unit. MatchOption unit
        (0xffff_fff0 ≤ 8 + length fields.now + length program.now)
        (λ unit. (8 + length fields.now + length program.now < 0xffff_fff0)
        × (unit.items ≡ unit_bytes fields.now program.now))) }
{
    if fields.len() >= TOO_LONG || program.len() >= TOO_LONG {
        return Ok(None);
    }
    let length = BETWEEN + fields.len() + program.len();
    if length >= TOO_LONG {
        return Ok(None);
    }
    let mut unit = Vec::new(alloc);
    unit.extend_from_slice(&(length as u32).to_le_bytes())?;
    unit.extend_from_slice(&[5, 0, 8, 0])?;
    unit.extend_from_slice(&(fields.len() as u32).to_le_bytes())?;
    unit.extend_from_slice(fields)?;
    unit.extend_from_slice(program)?;
    Ok(Some(unit))
}
