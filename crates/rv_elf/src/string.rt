//! Strings in a table of strings.

ghost use Rattle.std.specs.Prelude.{◌≡◌, None, Some, MatchOption};
ghost use Rattle.rv_elf_laws.specs.Sections.{string_at};

use memchr::memchr;

/// The string at an offset of a table, up to the first zero byte; `None` where no zero byte stands from there on.
pub fn string_in(table: &[u8], offset: u32) -> Option<&[u8]>
    ensures { MatchOption result (string_at table.now offset ≡ None)
        (λ name. string_at table.now offset ≡ Some name.now) }
{
    let rest = table.get(offset as usize..)?;
    let end = memchr(0, rest)?;
    Some(&rest[..end])
}
