//! The rows of a line number program.

ghost use Rattle.std.specs.Prelude.{◌≡◌, ◌++◌, Some, IfOk, IfSome, OnOk, map};
ghost use Rattle.rv_debug_reader.specs.Table as laws;
ghost use Rattle.rv_debug_reader.specs.Views.{opcodes_of, registers_of, entry_of, option_rows};

use crate::machine::instruction;
use crate::state::{Entry, Header, Registers};
use rv_debug_laws::LineRow;
use std::alloc::{AllocError, Global};

/// The table of a program; none where an instruction has no meaning here.
pub(crate) fn line_table(
    alloc: Global,
    header: Header,
    program: &[u8],
) -> Result<Option<Vec<Entry>>, AllocError>
    ensures { IfOk result (λ table. IfSome table (λ entries.
        laws.line_table (opcodes_of header) program.now ≡ Some (map entry_of entries.items))) }
{
    let mut entries = Vec::new(alloc);
    let mut registers = header.start();
    let mut rest = program;
    while let Some((opcode, behind)) = rest.split_first() {
        let Some(step) = instruction(header, registers, *opcode, behind) else {
            return Ok(None);
        };
        match step.entry {
            Some(entry) => entries.push(entry)?,
            None => {}
        }
        registers = step.registers;
        rest = &behind[step.taken..];
    }
    Ok(Some(entries))
}

/// The rows of a table that have bytes and a line: each up to the next entry.
pub(crate) fn rows_of(alloc: Global, entries: &[Entry]) -> Result<Vec<LineRow>, AllocError>
    ensures { IfOk result (λ rows. rows.items ≡ laws.code_rows (map entry_of entries.now)) }
{
    let mut rows = Vec::new(alloc);
    for index in 0..entries.len() {
        put_row(&mut rows, entries[index], &entries[index + 1..])?;
    }
    Ok(rows)
}

/// Adds the row of an entry that stands before others.
fn put_row(rows: &mut Vec<LineRow>, entry: Entry, rest: &[Entry]) -> Result<(), AllocError>
    ensures { OnOk result (rows.new.items
        ≡ rows.old.items ++ laws.row_before (entry_of entry) (map entry_of rest.now)) }
{
    if let Some(row) = row_before(entry, rest) {
        rows.push(row)?;
    }
    Ok(())
}

/// The row of an entry that stands before others.
fn row_before(entry: Entry, rest: &[Entry]) -> Option<LineRow>
    ensures { option_rows result ≡ laws.row_before (entry_of entry) (map entry_of rest.now) }
{
    let Entry::Row(registers) = entry else {
        return None;
    };
    row_up_to(registers, address_of(*rest.first()?))
}

/// The row of code from the registers' address up to another.
fn row_up_to(registers: Registers, end: u64) -> Option<LineRow>
    ensures { option_rows result ≡ laws.row_up_to (registers_of registers) end }
{
    if registers.line == 0 || end <= registers.address {
        return None;
    }
    Some(LineRow {
        address: registers.address,
        bytes: end - registers.address,
        file: registers.file,
        line: registers.line,
    })
}

/// The address of an entry.
fn address_of(entry: Entry) -> u64
    ensures { result ≡ laws.entry_address (entry_of entry) }
{
    match entry {
        Entry::Row(registers) => registers.address,
        Entry::End(address) => address,
    }
}
