//! The entry of a code, and the list of all of them.

use crate::table::TABLE;
use std::alloc::{AllocError, Global};

/// What stands between two entries of the table.
const BETWEEN: &str = "\n\n";

/// The entry of a code or of an end, else of the name of a code, as of `E14`, `Limit` or `ImmediateRange`, whichever case the
/// letters have: its title, the cause, an example and the cure, without a line feed at its end.
pub fn explanation(code: &str) -> Option<&'static str> {
    for entry in TABLE.split(BETWEEN) {
        if code_of(entry).eq_ignore_ascii_case(code) {
            return Some(entry);
        }
    }
    entry_named(code)
}

/// The entry of the name of a code.
fn entry_named(name: &str) -> Option<&'static str> {
    for entry in TABLE.split(BETWEEN) {
        if name_of(entry).eq_ignore_ascii_case(name) {
            return Some(entry);
        }
    }
    None
}

/// The titles of all entries, a line each, as `E14 ImmediateRange`.
pub fn titles(alloc: Global) -> Result<String, AllocError> {
    let mut text = String::new(alloc);
    put_titles(&mut text)?;
    Ok(text)
}

/// Adds the titles of all entries.
fn put_titles(text: &mut String) -> Result<(), AllocError> {
    for entry in TABLE.split(BETWEEN) {
        put_title(text, entry)?;
    }
    Ok(())
}

/// Adds the title of an entry as a line.
fn put_title(text: &mut String, entry: &str) -> Result<(), AllocError> {
    text.push_str(before(entry, '\n'))?;
    text.push_str("\n")
}

/// The code of an entry, or the name of an end.
fn code_of(entry: &str) -> &str {
    before(before(entry, '\n'), ' ')
}

/// The name of the code of an entry, or of an end.
fn name_of(entry: &str) -> &str {
    let title = before(entry, '\n');
    match title.split_once(' ') {
        Some((_, name)) => name,
        None => title,
    }
}

/// What stands before the first of these characters, or all.
fn before(text: &str, end: char) -> &str {
    match text.split_once(end) {
        Some((front, _)) => front,
        None => text,
    }
}
