//! Names in files.

ghost use Rattle.std.specs.Prelude.{◌<◌, ◌≤◌, IfSome, length};

use rv_elf::string_in;

/// The most bytes in which a name's end is looked for: names may lie over each other, and so each costs little.
const LONGEST: usize = 4096;

/// The name at an offset of a table, up to the first zero byte.
pub(crate) fn text_in(table: &[u8], offset: u64) -> Option<&[u8]>
    ensures { IfSome result (λ text. length text.now < length table.now) }
{
    let window = window_at(table, offset)?;
    let text = string_in(window, 0)?;
    Some(text)
}

/// The bytes from an offset of a table on in which a name's end is looked for.
fn window_at(table: &[u8], offset: u64) -> Option<&[u8]>
    ensures { IfSome result (λ window. length window.now ≤ length table.now) }
{
    let rest = table.get(offset as usize..)?;
    Some(&rest[..rest.len().min(LONGEST)])
}

/// Whether a name has one byte or more, none of them a blank or a control character.
pub(crate) fn is_shown(name: &[u8]) -> bool {
    !name.is_empty() && name.iter().all(|byte| *byte > b' ' && *byte != 0x7F)
}
