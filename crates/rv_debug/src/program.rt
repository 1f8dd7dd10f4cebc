//! A line number program of rows.

ghost use Rattle.std.specs.Prelude.{◌≡◌, ◌+◌, pos, [], ◌∷◌, OnOk, IfOk, IfSome};
ghost use Rattle.rv_debug_laws.specs.LineProgram.{Registers, Row, start};
ghost use Rattle.rv_debug_laws.specs.LineTable.{registers_at, break_behind, is_continued};
ghost use Rattle.rv_debug_laws.specs.LineUnit.{header};
ghost use Rattle.rv_debug.specs.Table.{AppendsTable};
ghost use Rattle.rv_debug.specs.Writing.{IsSpecial, Joins, Writes, registers_of};

use crate::instruction::{put_address, put_bytes, put_copy, put_end, put_file, put_line};
use rv_debug_laws::LineRow;
use std::alloc::AllocError;

/// Adds a line number program with these rows.
pub fn put_line_program(out: &mut Vec<u8>, rows: &[LineRow]) -> Result<(), AllocError>
    ensures { OnOk result (AppendsTable out.old.items out.new.items rows.now) }
{
    let mut before = None;
    for index in 0..rows.len() {
        let row = rows[index];
        put_row(out, before, row)?;
        before = put_break(out, row, &rows[index + 1..])?;
    }
    Ok(())
}

/// Adds the instructions of a row: behind the last one, or at the beginning of a sequence.
fn put_row(out: &mut Vec<u8>, before: Option<LineRow>, row: LineRow) -> Result<(), AllocError>
    requires { Joins before (row ∷ []) }
    ensures { OnOk result (Writes out.old.items out.new.items (registers_of before)
        (Row (registers_at row) ∷ []) (registers_at row)) }
{
    match before {
        None => put_first(out, row),
        Some(last) => put_next(out, last, row),
    }
}

/// Adds the instructions of the first row of a sequence.
fn put_first(out: &mut Vec<u8>, row: LineRow) -> Result<(), AllocError>
    ensures { OnOk result (Writes out.old.items out.new.items (start header)
        (Row (registers_at row) ∷ []) (registers_at row)) }
{
    put_address(out, row.address)?;
    let begun = LineRow {
        address: row.address,
        bytes: 0,
        file: 1,
        line: 1,
    };
    put_next(out, begun, row)?;
    Ok(())
}

/// Adds the instructions of a row that begins behind the code of the last one.
fn put_next(out: &mut Vec<u8>, last: LineRow, row: LineRow) -> Result<(), AllocError>
    requires { row.address ≡ last.address + last.bytes }
    ensures { OnOk result (Writes out.old.items out.new.items (registers_at last) (Row (registers_at row) ∷ [])
        (registers_at row)) }
{
    put_file(out, last.file, row.file)?;
    put_change(out, last.bytes, last.line, row.line)?;
    Ok(())
}

/// Ends the sequence behind a row, unless the rest goes on there, and gives the row if so.
fn put_break(
    out: &mut Vec<u8>,
    row: LineRow,
    rest: &[LineRow],
) -> Result<Option<LineRow>, AllocError>
    ensures written { IfOk result (λ after. Writes out.old.items out.new.items (registers_at row)
        (break_behind row rest.now) (registers_of after)) }
    ensures joins { IfOk result (λ after. Joins after rest.now) }
{
    if is_continued(row, rest) {
        return Ok(Some(row));
    }
    put_bytes(out, row.bytes)?;
    put_end(out)?;
    Ok(None)
}

/// Whether the first of these rows begins at the address behind a row's code.
fn is_continued(row: LineRow, rest: &[LineRow]) -> bool
    ensures { result ≡ is_continued row rest.now }
{
    match rest {
        [] => false,
        [next, ..] => { next.address >= row.address && next.address - row.address == row.bytes }
    }
}

/// Adds a row this many bytes on and at a line, in one byte where that can be.
#[tactic(auto, using(crate::proofs::RowLemmas::wrote_special))]
fn put_change(out: &mut Vec<u8>, bytes: u64, from: u64, line: u64) -> Result<(), AllocError>
    ensures { OnOk result ((r : Registers) → Writes out.old.items out.new.items
        (record r { line = pos from })
        (Row (record r { address = r.address + bytes; line = pos line }) ∷ [])
        (record r { address = r.address + bytes; line = pos line })) }
{
    if let Some(opcode) = special_opcode(bytes, from, line) {
        out.push(opcode)?;
        return Ok(());
    }
    put_bytes(out, bytes)?;
    put_line(out, from, line)?;
    put_copy(out)?;
    Ok(())
}

/// The special opcode, if there is one: for -5 to 8 lines, and as many bytes as fit a byte beside them.
fn special_opcode(bytes: u64, from: u64, line: u64) -> Option<u8>
    ensures { IfSome result (λ opcode. IsSpecial opcode bytes from line) }
{
    let lines = line.checked_add(5)?.checked_sub(from)?;
    if bytes > 17 || lines > 13 {
        return None;
    }
    let opcode = 13 + lines + 14 * bytes;
    if opcode > 255 {
        return None;
    }
    Some(opcode as u8)
}
