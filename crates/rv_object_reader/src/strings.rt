//! The names in a table of strings.
//!
//! Strings lie over each other, so many may have the same long rest. The ends of all are found once, and each name asks
//! for the first of them from its own offset on.

ghost use Rattle.std.specs.Prelude.{◌≡◌, ◌<◌, [], not, length, slice_index, unwrap_or, IfOk};
ghost use Rattle.memchr.specs.Find.{is_byte, places};
ghost use Rattle.rv_object_file_laws.specs.Parts.{name_at};

use crate::positions::first_from;
use std::alloc::{AllocError, Global};

/// A table of strings.
#[derive(Drop)]
pub(crate) struct Strings<'a> {
    /// Its bytes.
    pub(crate) table: &'a [u8],
    /// The positions of its zero bytes.
    ends: Vec<usize>,
    ghost ended: { ends.items ≡ places (is_byte 0) table.now },
}

impl<'a> Strings<'a> {
    /// Those of a table of these bytes.
    pub(crate) fn of(alloc: Global, table: &'a [u8]) -> Result<Strings<'a>, AllocError>
        ensures { IfOk result (λ strings. strings.table.now ≡ table.now) }
    {
        Ok(Strings {
            table,
            ends: ends(alloc, table)?,
        })
    }

    /// The name at an offset; none where it has no end.
    pub(crate) fn name(&self, offset: u32) -> &'a [u8]
        ensures { result.now ≡ unwrap_or (name_at self.now.table.now offset) [] }
    {
        if offset == 0 {
            return &[];
        }
        let start = offset as usize;
        match first_from(&self.ends, start) {
            Some(end) => &self.table[start..end],
            None => &[],
        }
    }
}

/// The positions of the zero bytes of a table. A growth that is refused is told, where `collect` would ask again for less.
fn ends(alloc: Global, table: &[u8]) -> Result<Vec<usize>, AllocError>
    ensures { IfOk result (λ ends. ends.items ≡ places (is_byte 0) table.now) }
{
    let mut ends = Vec::new(alloc);
    for offset in 0..table.len() {
        if is_inside(table, offset) {
            continue;
        }
        ends.push(offset)?;
    }
    Ok(ends)
}

/// Whether the byte at an offset ends no string.
fn is_inside(table: &[u8], offset: usize) -> bool
    requires { offset < length table.now }
    ensures { not result ≡ is_byte 0 (slice_index table.now offset) }
{
    table[offset] != 0
}
