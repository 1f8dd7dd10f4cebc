//! The strings of a table: which of them end, and which a map can show.
//!
//! Strings lie over each other, so many may have the same long rest. No string is read to its end: the positions of the
//! bytes that no map shows are found once, and each string asks for the first of them from its own offset on.

ghost use Rattle.std.specs.Prelude.{◌≡◌, ◌<◌, ◌==◌, ◌&&◌, not, length, slice_index, IfOk};
ghost use Rattle.memchr.specs.Find.{places};
ghost use Rattle.rv_elf_laws.specs.Sections.{string_at};
ghost use Rattle.rv_map_laws.specs.Name.{is_name_byte};
ghost use Rattle.rv_object_file_laws.specs.FirstFault.{is_none};
ghost use Rattle.rv_object_reader.specs.Names.{strings_end, is_unshown, can_show};

use crate::positions::first_from;
use memchr::memrchr;
use std::alloc::{AllocError, Global};

/// A table of strings.
#[derive(Drop)]
pub(crate) struct Strings<'a> {
    /// Its bytes.
    pub(crate) table: &'a [u8],
    /// Strings that begin from here on have no end.
    end: u64,
    /// The positions of the bytes that no map shows, zero bytes among them.
    unshown: Vec<usize>,
    ghost ended: { end ≡ strings_end table.now },
    ghost hidden: { unshown.items ≡ places is_unshown table.now },
}

impl<'a> Strings<'a> {
    /// Those of a table of these bytes.
    pub(crate) fn of(alloc: Global, table: &'a [u8]) -> Result<Strings<'a>, AllocError>
        ensures { IfOk result (λ strings. strings.table.now ≡ table.now) }
    {
        Ok(Strings {
            table,
            end: end_of_strings(table),
            unshown: unshown(alloc, table)?,
        })
    }

    /// Whether the string at an offset ends.
    pub(crate) fn has_end(&self, offset: u32) -> bool
        ensures { result ≡ not (is_none (string_at self.now.table.now offset)) }
    {
        u64::from(offset) < self.end
    }

    /// Whether the string at an offset ends, and a map can show it: the first byte that no map shows is its zero byte,
    /// and that is not its first.
    pub(crate) fn is_shown(&self, offset: u32) -> bool
        ensures { result ≡ can_show (string_at self.now.table.now offset) }
    {
        let start = offset as usize;
        match first_from(&self.unshown, start) {
            Some(end) => both(start < end, is_zero(self.table, end)),
            None => false,
        }
    }
}

/// Where the last string of a table ends: behind its last zero byte.
pub(crate) fn end_of_strings(table: &[u8]) -> u64
    ensures { result ≡ strings_end table.now }
{
    match memrchr(0, table) {
        Some(last) => last as u64 + 1,
        None => 0,
    }
}

/// The positions of the bytes that no map shows.
fn unshown(alloc: Global, table: &[u8]) -> Result<Vec<usize>, AllocError>
    ensures { IfOk result (λ all. all.items ≡ places is_unshown table.now) }
{
    let mut all = Vec::new(alloc);
    for offset in 0..table.len() {
        if is_shown_at(table, offset) {
            continue;
        }
        all.push(offset)?;
    }
    Ok(all)
}

/// Whether the byte at an offset is printed and no blank: 21h to 7Eh.
fn is_shown_at(table: &[u8], offset: usize) -> bool
    requires { offset < length table.now }
    ensures { result ≡ is_name_byte (slice_index table.now offset) }
{
    let byte = table[offset];
    b'!' <= byte && byte <= b'~'
}

/// Whether the byte at an offset is zero.
fn is_zero(table: &[u8], offset: usize) -> bool
    requires { offset < length table.now }
    ensures { result ≡ (slice_index table.now offset == 0) }
{
    table[offset] == 0
}

/// Whether both are so.
fn both(a: bool, b: bool) -> bool
    ensures { result ≡ (a && b) }
{
    a && b
}
