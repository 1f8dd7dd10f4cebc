//! The line program of rows, as statements (DWARF 5, 6.2.5).
//!
//! Each row says its address by its label, so it holds wherever the linker puts the code and however much of it it cuts.

ghost use Rattle.std.specs.Prelude.{◌≡◌, ◌<◌, ◌^◌, ◌++◌, codes, OnOk};
ghost use Rattle.rv_debug_sources.specs.LineText as laws;

use crate::label::{put_end_label, put_row_label};
use crate::leb128::{put_byte, put_part, put_signed, put_unsigned};
use crate::line::{LineRow, LineStep};
use std::alloc::AllocError;

/// Adds rows and the ends of their sequences, from the start of a sequence on.
pub(crate) fn put_steps(text: &mut Vec<u8>, steps: &[LineStep]) -> Result<(), AllocError>
    ensures { OnOk result (text.new.items ≡ laws.with_steps text.old.items laws.first_registers steps.now) }
{
    let mut registers = start();
    for step in steps {
        put_step(text, &registers, *step)?;
        registers = registers_behind(*step);
    }
    Ok(())
}

/// The registers at the start of a sequence.
fn start() -> LineRow
    ensures { result ≡ laws.first_registers }
{
    LineRow {
        at: 0,
        file: 1,
        line: 1,
        column: 0,
        discriminator: 0,
        is_stmt: true,
        basic_block: false,
        prologue_end: false,
        epilogue_begin: false,
    }
}

/// Adds a row, where the registers have these values, or an end.
fn put_step(text: &mut Vec<u8>, registers: &LineRow, step: LineStep) -> Result<(), AllocError>
    ensures { OnOk result (text.new.items ≡ laws.with_step text.old.items registers.now step) }
{
    match step {
        LineStep::Row(row) => put_row(text, registers, &row),
        LineStep::End(at) => put_end(text, at),
    }
}

/// The values that the registers then have.
fn registers_behind(step: LineStep) -> LineRow
    ensures { result ≡ laws.registers_behind step }
{
    match step {
        LineStep::Row(row) => row,
        LineStep::End(_) => start(),
    }
}

/// Adds a row behind another.
fn put_row(text: &mut Vec<u8>, old: &LineRow, new: &LineRow) -> Result<(), AllocError>
    ensures { OnOk result (text.new.items ≡ laws.with_row text.old.items old.now new.now) }
{
    put_place(text, old, new)?;
    put_marks(text, old.is_stmt, new)?;
    put_discriminator(text, new.discriminator)?;
    Ok(text.extend_from_slice(b",1\n")?)
}

/// Adds the end of a sequence, in front of the statement at an offset.
fn put_end(text: &mut Vec<u8>, at: u32) -> Result<(), AllocError>
    ensures { OnOk result (text.new.items ≡ laws.with_end text.old.items at) }
{
    put_address(text)?;
    put_end_label(text, at)?;
    put_end_word(text)
}

/// Adds the end of the last sequence, if it has begun.
pub(crate) fn put_last(text: &mut Vec<u8>, is_open: bool) -> Result<(), AllocError>
    ensures { OnOk result (text.new.items ≡ laws.with_last text.old.items is_open) }
{
    if !is_open {
        return Ok(());
    }
    put_address(text)?;
    text.extend_from_slice(b".Lrv_line_last")?;
    put_end_word(text)
}

/// Adds DW_LNE_set_address, in front of a label.
fn put_address(text: &mut Vec<u8>) -> Result<(), AllocError>
    ensures { OnOk result (text.new.items ≡ text.old.items ++ laws.address_word) }
{
    text.extend_from_slice(b".byte 0,9,2\n.8byte ")
}

/// Adds DW_LNE_end_sequence, behind a label.
fn put_end_word(text: &mut Vec<u8>) -> Result<(), AllocError>
    ensures { OnOk result (text.new.items ≡ text.old.items ++ laws.end_word) }
{
    text.extend_from_slice(b"\n.byte 0,1,1\n")
}

/// Adds a row's address and line, and its file and column where they are others.
fn put_place(text: &mut Vec<u8>, old: &LineRow, new: &LineRow) -> Result<(), AllocError>
    ensures { OnOk result (text.new.items ≡ laws.with_place text.old.items old.now new.now) }
{
    put_address(text)?;
    put_row_label(text, new.at)?;
    put_advance(text, old.line, new.line)?;
    put_register(text, b",4,", old.file, new.file)?;
    put_register(text, b",5,", old.column, new.column)
}

/// Adds the way from a line to another.
fn put_advance(text: &mut Vec<u8>, from: u64, to: u64) -> Result<(), AllocError>
    ensures { OnOk result (text.new.items ≡ laws.with_advance text.old.items from to) }
{
    text.extend_from_slice(b"\n.byte 3,")?;
    if to < from {
        return put_signed(text, true, from - to - 1);
    }
    put_signed(text, false, to - from)
}

/// Adds a register's number, if it is another one.
fn put_register(text: &mut Vec<u8>, front: &[u8], old: u64, new: u64) -> Result<(), AllocError>
    ensures { OnOk result (text.new.items ≡ laws.with_register text.old.items front.now old new) }
{
    if old == new {
        return Ok(());
    }
    put_number(text, front, new)
}

/// Adds a front, and a number of any size.
pub(crate) fn put_number(text: &mut Vec<u8>, front: &[u8], number: u64) -> Result<(), AllocError>
    ensures { OnOk result (text.new.items ≡ laws.number_behind text.old.items front.now number) }
{
    text.extend_from_slice(front)?;
    put_unsigned(text, number)
}

/// Adds what turns is_stmt, and a row's marks.
fn put_marks(text: &mut Vec<u8>, is_stmt: bool, row: &LineRow) -> Result<(), AllocError>
    ensures { OnOk result (text.new.items ≡ laws.with_marks text.old.items is_stmt row.now) }
{
    put_mark(text, is_turned(is_stmt, row.is_stmt), b",6")?;
    put_mark(text, row.basic_block, b",7")?;
    put_mark(text, row.prologue_end, b",10")?;
    Ok(put_mark(text, row.epilogue_begin, b",11")?)
}

/// Adds a mark, if a row has it.
fn put_mark(text: &mut Vec<u8>, has: bool, mark: &[u8]) -> Result<(), AllocError>
    ensures { OnOk result (text.new.items ≡ laws.with_mark text.old.items has mark.now) }
{
    if has {
        return text.extend_from_slice(mark);
    }
    Ok(())
}

/// Whether one truth is not the other.
fn is_turned(old: bool, new: bool) -> bool
    ensures { result ≡ laws.is_turned old new }
{
    if old { !new } else { new }
}

/// Adds a discriminator, unless it is 0.
fn put_discriminator(text: &mut Vec<u8>, number: u64) -> Result<(), AllocError>
    ensures { OnOk result (text.new.items ≡ laws.with_discriminator text.old.items number) }
{
    if number == 0 {
        return Ok(());
    }
    text.extend_from_slice(b",0,6,4,")?;
    put_five(text, number)
}

/// Adds a number in five bytes.
fn put_five(text: &mut Vec<u8>, number: u64) -> Result<(), AllocError>
    ensures { OnOk result (text.new.items ≡ laws.with_five text.old.items number) }
{
    put_part(text, (number % 128) as u8 + 128)?;
    put_part(text, (number / 128 % 128) as u8 + 128)?;
    put_part(text, (number / 16_384 % 128) as u8 + 128)?;
    put_part(text, (number / 2_097_152 % 128) as u8 + 128)?;
    put_byte(text, (number / 268_435_456 % 128) as u8)
}
