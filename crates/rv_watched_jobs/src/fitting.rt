//! Whether the sources that the words name behind an executable are those of its map.
//!
//! A map has no text of its sources, but the number and the line of each of their statements. Another source would be shown
//! with lines and counts that are not its own.

use rv_fault::{Fault, SourceFault};
use rv_job::Asked;
use rv_map::Map;
use rv_parse::parse_compact;
use rv_statement::{Statement, Statements};
use rv_system::{JobError, fault_line};
use std::alloc::{AllocError, Global};

/// Refuses the first of an executable's sources that has not each statement of the map on its line.
#[inline(never)]
pub fn check_sources(
    alloc: Global,
    asked: &Asked<'_>,
    map: &Map,
    sources: &[Vec<u8>],
) -> Result<(), JobError> {
    let names = asked.others.as_slice();
    let mut file: u32 = 0;
    for (name, text) in names.iter().zip(sources.iter()) {
        file = file.saturating_add(1);
        match has_rows(alloc, map, u64::from(file), text.as_slice()) {
            Ok(true) => {}
            Ok(false) => return Err(no_source(alloc, name, asked.map.unwrap_or("-"))?),
            Err(fault) => return Err(fault_line(alloc, &Fault::Source(file, fault), names)?),
        }
    }
    Ok(())
}

/// Whether a text has a statement on the line of each row of a file.
fn has_rows(alloc: Global, map: &Map, file: u64, text: &[u8]) -> Result<bool, SourceFault> {
    let statements = parse_compact(alloc, text)?;
    // a statement's long drop is repeated at each way out of its owner, so its owner has one
    let mut room = Statements::room();
    Ok(have_rows(map, file, &statements, &mut room))
}

/// Whether a statement stands on the line of each row of a file; each is read into the room.
fn have_rows<'a>(
    map: &Map,
    file: u64,
    statements: &Statements<'a>,
    room: &mut Statement<'a>,
) -> bool {
    for row in &map.rows {
        if row.file == file && line_of(statements, row.ordinal, room) != Some(row.line) {
            return false;
        }
    }
    true
}

/// The line of a statement by its number, from 1.
fn line_of<'a>(statements: &Statements<'a>, ordinal: u64, room: &mut Statement<'a>) -> Option<u64> {
    let index = match usize::try_from(ordinal.checked_sub(1)?) {
        Ok(index) => index,
        Err(_) => return None,
    };
    if statements.len() <= index {
        return None;
    }
    Some(u64::from(statements.read(index, room).line))
}

/// The line of a text that is not the source of which a map has the statements.
fn no_source(alloc: Global, name: &str, map: &str) -> Result<JobError, AllocError> {
    Ok(JobError::Line(format!(in alloc; "{name}: not a source of {map}")?))
}
