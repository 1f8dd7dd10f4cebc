//! Which line of which source code is of, by the line tables of an executable, as GNU's `objdump -l` shows it.
//!
//! A path is the one that the table names: it is read by who looks for the source. In objects the addresses of line tables are
//! still open, so nothing is known of their lines.

use crate::columns::Column::{Decimal, Name, Text};
use crate::columns::put_columns;
use rv_debug_laws::LineRow;
use rv_debug_reader::{DebugTables, FileName, LineUnit};
use std::alloc::{AllocError, Global};

/// Code of one line, and its source.
#[derive(Clone, Copy, Drop)]
pub(crate) struct NumberedCode<'a> {
    row: LineRow,
    file: FileName<'a>,
}

impl NumberedCode<'_> {
    /// Whether both are of the same line.
    pub(crate) fn is_of_line(&self, other: &NumberedCode<'_>) -> bool {
        self.row.line == other.row.line && self.file.path() == other.file.path()
    }
}

/// The lines of code, by address.
#[derive(Drop)]
pub(crate) struct LineNumbers<'a> {
    rows: Vec<NumberedCode<'a>>,
}

impl<'a> LineNumbers<'a> {
    /// None.
    pub(crate) fn nothing(alloc: Global) -> Self {
        LineNumbers {
            rows: Vec::new(alloc),
        }
    }

    /// Those of an executable.
    pub(crate) fn of(alloc: Global, file: &'a [u8]) -> Result<Self, AllocError> {
        let tables = DebugTables::of(alloc, file)?;
        let mut lines = LineNumbers::nothing(alloc);
        for unit in &tables.units {
            lines.add_unit(unit)?;
        }
        lines.rows.sort_by_key(|code| code.row.address)?;
        Ok(lines)
    }

    fn add_unit(&mut self, unit: &LineUnit<'a>) -> Result<(), AllocError> {
        for row in &unit.rows {
            if let Some(file) = unit.files.get(row.file as usize) {
                self.rows.push(NumberedCode {
                    row: *row,
                    file: *file,
                })?;
            }
        }
        Ok(())
    }

    /// What is known of an address.
    pub(crate) fn at(&self, address: u64) -> Option<NumberedCode<'a>> {
        let passed = self
            .rows
            .partition_point(|code| code.row.address <= address);
        let code = self.rows.get(passed.checked_sub(1)?)?;
        if address.checked_sub(code.row.address)? < code.row.bytes {
            Some(*code)
        } else {
            None
        }
    }
}

/// Adds the path and the number of a line: `/demo/a.c:6`.
pub(crate) fn put_line_number(
    text: &mut Vec<u8>,
    code: &NumberedCode<'_>,
) -> Result<(), AllocError> {
    let [compiled_in, directory, name] = code.file.path();
    put_directory(text, compiled_in)?;
    put_directory(text, directory)?;
    put_columns(
        text,
        &[
            Name(name, 0),
            Text(b":"),
            Decimal(code.row.line, 0),
            Text(b"\n"),
        ],
    )
}

/// Adds a directory of a path, unless it is none.
fn put_directory(text: &mut Vec<u8>, directory: &[u8]) -> Result<(), AllocError> {
    if directory.is_empty() {
        return Ok(());
    }
    put_columns(text, &[Name(directory, 0), Text(b"/")])
}
