//! The code of each source: its rows in the map.

ghost use Rattle.std.specs.Prelude.{◌≡◌, ◌+◌, ◌≤◌, ◌<◌, ◌^◌, ◌++◌, [], ◌∷◌, true, min, max, length, take, drop, IfOk, OnOk};
ghost use Rattle.std.specs.List.{AllByRecursion};
ghost use Rattle.rv_debug_laws.specs.LineTable.{code_end};
ghost use Rattle.rv_debug_laws.specs.Code.{are_by_file, code_of, code_extent, is_code_of, line_row};

use rv_debug_laws::LineRow;
use rv_map::{Region, Row};
use std::alloc::{AllocError, Global};

/// Whether rows stand by their files, from 1 on.
pub(crate) fn are_by_file(rows: &[Row]) -> bool
    ensures { result ≡ are_by_file 0 rows.now }
{
    let mut file = 0;
    for row in rows {
        if row.file < file {
            return false;
        }
        file = row.file;
    }
    true
}

/// How many rows stand before the first of a later file.
pub(crate) fn count_up_to(rows: &[Row], file: u64) -> usize
    requires { are_by_file 0 rows.now ≡ true }
    ensures within { result ≤ length rows.now }
    ensures own { AllByRecursion (λ row. row.file ≤ file) (take result rows.now) }
    ensures later { AllByRecursion (λ row. file < row.file) (drop result rows.now) }
{
    for index in 0..rows.len() {
        if rows[index].file > file {
            return index;
        }
    }
    rows.len()
}

/// The rows of code of a source.
pub(crate) fn code_of(
    alloc: Global,
    text: Region,
    source: u64,
    rows: &[Row],
) -> Result<Vec<LineRow>, AllocError>
    ensures is { IfOk result (λ code. code.items ≡ code_of text source rows.now) }
    ensures within { IfOk result (λ code.
        AllByRecursion (λ row. row.address + row.bytes ≤ text.end) code.items) }
{
    let mut code = Vec::new(alloc);
    for row in rows {
        put_row(&mut code, text, source, *row)?;
    }
    Ok(code)
}

/// Adds a row, if it is code of the source.
fn put_row(code: &mut Vec<LineRow>, text: Region, source: u64, row: Row) -> Result<(), AllocError>
    ensures { OnOk result
        (code.new.items ≡ code.old.items ++ code_of text source (row ∷ [])) }
{
    if !is_code_of(text, source, row) {
        return Ok(());
    }
    code.push(line_row(row))?;
    Ok(())
}

/// Whether a row of this source has instructions in the text.
fn is_code_of(text: Region, source: u64, row: Row) -> bool
    ensures { result ≡ is_code_of text source row }
{
    row.file == source
        && row.instructions > 0
        && row.address >= text.start
        && u128::from(row.address) + u128::from(row.bytes) <= u128::from(text.end)
}

/// The row in a line table.
fn line_row(row: Row) -> LineRow
    ensures { result ≡ line_row row }
{
    LineRow {
        address: row.address,
        bytes: row.bytes,
        file: 1,
        line: row.line,
    }
}

/// From the lowest address of some code, which is in the text, to the highest end.
pub(crate) fn code_extent(text: Region, code: &[LineRow]) -> Region
    requires some { 0 < length code.now }
    requires within { AllByRecursion (λ row. row.address + row.bytes ≤ text.end) code.now }
    ensures is { result ≡ code_extent code.now }
    ensures rising { result.start ≤ result.end }
{
    let mut extent = extent_of_row(code[0]);
    for index in 1..code.len() {
        extent = wider(extent, code[index]);
    }
    extent
}

/// The addresses of a row's code.
fn extent_of_row(row: LineRow) -> Region
    requires { row.address + row.bytes < 2 ^ 64 }
    ensures { result ≡ record { start = row.address; end = code_end row } }
{
    Region {
        start: row.address,
        end: row.address + row.bytes,
    }
}

/// An extent that has those of a row's code as well.
fn wider(extent: Region, row: LineRow) -> Region
    requires { row.address + row.bytes < 2 ^ 64 }
    ensures { result ≡ record {
      start = min extent.start row.address;
      end = max extent.end (code_end row);
    } }
{
    Region {
        start: extent.start.min(row.address),
        end: extent.end.max(row.address + row.bytes),
    }
}
