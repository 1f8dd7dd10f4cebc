//! How often the lines of sources were executed.
//!
//! A statement was executed as often as its first instruction. Statements that were never executed are shown with 0. Line
//! tables know no statements: there a line was executed as often as that of its parts that was most.

use crate::columns::put;
use crate::parts::Part::{Decimal, Text};
use crate::parts::put_parts;
use crate::places::Places;
use rv_counts::Counts;
use rv_map_laws::Row;
use std::alloc::{AllocError, Global};

/// A statement and how often it was executed.
#[derive(Clone, Copy, Drop)]
pub(crate) struct Covered {
    pub row: Row,
    pub count: u64,
}

/// A line for each statement that has instructions, by file and number: `FILE:LINE COUNT`; then how many of them were never
/// executed.
pub fn lines_text(
    alloc: Global,
    counts: &Counts,
    places: &Places<'_>,
) -> Result<Vec<u8>, AllocError> {
    let covered = coverage(alloc, counts, places)?;
    let mut text = Vec::new(alloc);
    put_lines(&mut text, covered.as_slice(), places)?;
    Ok(text)
}

/// Adds the lines of statements, and how many were never executed.
fn put_lines(
    text: &mut Vec<u8>,
    covered: &[Covered],
    places: &Places<'_>,
) -> Result<(), AllocError> {
    let mut never: u64 = 0;
    for statement in covered {
        put_parts(
            text,
            &[
                places.file(statement.row.file),
                Text(":"),
                Decimal(statement.row.line),
                Text(" "),
                Decimal(statement.count),
                Text("\n"),
            ],
        )?;
        if statement.count == 0 {
            never = never.saturating_add(1);
        }
    }
    put_parts(
        text,
        &[
            Text("never executed "),
            Decimal(never),
            Text(" of "),
            Decimal(covered.len() as u64),
            Text(counted(places)),
        ],
    )
}

/// What is counted, at the end of a line.
fn counted(places: &Places<'_>) -> &'static str {
    if places.is_of_lines {
        " lines\n"
    } else {
        " statements\n"
    }
}

/// The lines as a tracefile of lcov, which `genhtml` draws. A line with several statements was executed as often as the one
/// that was most.
pub fn lcov_text(
    alloc: Global,
    counts: &Counts,
    places: &Places<'_>,
) -> Result<Vec<u8>, AllocError> {
    let covered = coverage(alloc, counts, places)?;
    let lines = most_of_lines(alloc, covered.as_slice())?;
    let mut text = Vec::new(alloc);
    put_tracefile(&mut text, lines.as_slice(), places)?;
    Ok(text)
}

/// Adds the records of lines, file by file.
fn put_tracefile(
    text: &mut Vec<u8>,
    lines: &[Covered],
    places: &Places<'_>,
) -> Result<(), AllocError> {
    put(text, "TN:\n")?;
    let mut records = Records::of(0);
    for line in lines {
        if line.row.file != records.file {
            records.put_end(text)?;
            records = Records::of(line.row.file);
            put_parts(text, &[Text("SF:"), places.file(line.row.file), Text("\n")])?;
        }
        put_data(text, line)?;
        records.count(line);
    }
    records.put_end(text)
}

/// Adds the record of a line: `DA:LINE,COUNT`.
fn put_data(text: &mut Vec<u8>, line: &Covered) -> Result<(), AllocError> {
    put_parts(
        text,
        &[
            Text("DA:"),
            Decimal(line.row.line),
            Text(","),
            Decimal(line.count),
            Text("\n"),
        ],
    )
}

/// The records of a file, by its number: how many lines there are, and how many were executed.
#[derive(Clone, Copy, Drop)]
struct Records {
    file: u64,
    found: u64,
    hit: u64,
}

impl Records {
    /// Those of a file, 0 for none, before its first line.
    fn of(file: u64) -> Self {
        Records {
            file,
            found: 0,
            hit: 0,
        }
    }

    /// Counts a line.
    fn count(&mut self, line: &Covered) {
        self.found = self.found.saturating_add(1);
        if line.count > 0 {
            self.hit = self.hit.saturating_add(1);
        }
    }

    /// Adds their end.
    fn put_end(&self, text: &mut Vec<u8>) -> Result<(), AllocError> {
        if self.file == 0 {
            return Ok(());
        }
        put_parts(
            text,
            &[
                Text("LF:"),
                Decimal(self.found),
                Text("\nLH:"),
                Decimal(self.hit),
                Text("\nend_of_record\n"),
            ],
        )
    }
}

/// The statements that have instructions by file and number, or the lines of line tables, each with how often it was
/// executed.
pub(crate) fn coverage(
    alloc: Global,
    counts: &Counts,
    places: &Places<'_>,
) -> Result<Vec<Covered>, AllocError> {
    let by_address = counts.by_address(alloc)?;
    let mut covered = Vec::new(alloc);
    for row in places.rows() {
        if row.instructions > 0 {
            let count = by_address.executions(row.address);
            covered.push(Covered { row: *row, count })?;
        }
    }
    if places.is_of_lines {
        return most_of_lines(alloc, covered.as_slice());
    }
    covered.sort_by_key(|statement: &Covered| (statement.row.file, statement.row.ordinal))?;
    Ok(covered)
}

/// One entry for each line of the statements, that of its statement that was executed most.
fn most_of_lines(alloc: Global, covered: &[Covered]) -> Result<Vec<Covered>, AllocError> {
    let mut ordered: Vec<Covered> = Vec::from_slice(alloc, covered)?;
    ordered.sort_by_key(|statement| (statement.row.file, statement.row.line))?;
    let mut lines: Vec<Covered> = Vec::new(alloc);
    for statement in &ordered {
        match lines.last_mut() {
            Some(last) if is_same_line(&last.row, &statement.row) => {
                last.count = last.count.max(statement.count);
            }
            _ => lines.push(*statement)?,
        }
    }
    Ok(lines)
}

fn is_same_line(one: &Row, other: &Row) -> bool {
    one.file == other.file && one.line == other.line
}
