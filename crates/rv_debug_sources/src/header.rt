//! The header of a line table, as statements (DWARF 5 and 4, 6.2.4).
//!
//! Lengths are differences of labels, which the assembler counts.

ghost use Rattle.std.specs.Prelude.{◌≡◌, ◌++◌, codes, OnOk};
ghost use Rattle.rv_debug_sources.specs.LineText as laws;
ghost use Rattle.rv_debug_sources.specs.Reading.{said_of};

use crate::edit::part;
use crate::line::{FileName, SourcePart};
use crate::program::put_number;
use crate::said::Lines;
use std::alloc::AllocError;

/// Adds the header, of DWARF 5 or 4.
pub(crate) fn put_header(
    text: &mut Vec<u8>,
    source: &[u8],
    is_five: bool,
    lines: &Lines,
) -> Result<(), AllocError>
    ensures { OnOk result (text.new.items
        ≡ laws.with_header source.now is_five text.old.items (said_of lines.now)) }
{
    put_unit(text, is_five)?;
    if is_five {
        return put_files_five(text, source, lines);
    }
    put_files_four(text, source, lines)
}

/// Adds the fields in front of the directories.
fn put_unit(text: &mut Vec<u8>, is_five: bool) -> Result<(), AllocError>
    ensures { OnOk result (text.new.items
        ≡ ((text.old.items ++ laws.unit_word) ++ laws.version_word is_five) ++ laws.fields_word) }
{
    text.extend_from_slice(
        b"\n.Lrv_line_last:\n.section .debug_line,\"a\"\n.4byte .Lrv_line_end-.Lrv_line_unit\n.Lrv_line_unit:\n",
    )?;
    put_version(text, is_five)?;
    text.extend_from_slice(
        b".4byte .Lrv_line_program-.Lrv_line_fields\n.Lrv_line_fields:\n.byte 1,1,1,0xfb,14,13,0,1,1,1,1,0,0,0,1,0,0,1\n",
    )
}

/// Adds the version, and what DWARF 5 has behind it.
fn put_version(text: &mut Vec<u8>, is_five: bool) -> Result<(), AllocError>
    ensures { OnOk result (text.new.items ≡ text.old.items ++ laws.version_word is_five) }
{
    if is_five {
        return text.extend_from_slice(b".2byte 5\n.byte 8,0\n");
    }
    text.extend_from_slice(b".2byte 4\n")
}

/// Adds directories and files of DWARF 5.
fn put_files_five(text: &mut Vec<u8>, source: &[u8], lines: &Lines) -> Result<(), AllocError>
    ensures { OnOk result (text.new.items
        ≡ laws.with_files_five source.now text.old.items (said_of lines.now)) }
{
    put_number(text, b".byte 1,1,8,", lines.directories.len() as u64)?;
    text.extend_from_slice(b"\n")?;
    put_directories(text, source, lines.directories.as_slice())?;
    put_number(text, b".byte 2,1,8,2,15,", lines.names.len() as u64)?;
    text.extend_from_slice(b"\n")?;
    put_names(text, source, b"\n", lines.names.as_slice())
}

/// Adds directories and files of DWARF 4.
fn put_files_four(text: &mut Vec<u8>, source: &[u8], lines: &Lines) -> Result<(), AllocError>
    ensures { OnOk result (text.new.items
        ≡ laws.with_files_four source.now text.old.items (said_of lines.now)) }
{
    put_directories(text, source, lines.directories.as_slice())?;
    text.extend_from_slice(b".byte 0\n")?;
    put_names(text, source, b",0,0\n", lines.names.as_slice())?;
    text.extend_from_slice(b".byte 0\n")
}

/// Adds directories.
fn put_directories(
    text: &mut Vec<u8>,
    source: &[u8],
    directories: &[SourcePart],
) -> Result<(), AllocError>
    ensures { OnOk result (text.new.items
        ≡ laws.with_directories source.now text.old.items directories.now) }
{
    for directory in directories {
        put_string(text, source, *directory)?;
        text.extend_from_slice(b"\n")?;
    }
    Ok(())
}

/// Adds files, with these bytes behind each.
fn put_names(
    text: &mut Vec<u8>,
    source: &[u8],
    behind: &[u8],
    names: &[FileName],
) -> Result<(), AllocError>
    ensures { OnOk result (text.new.items
        ≡ laws.with_names source.now behind.now text.old.items names.now) }
{
    for name in names {
        put_name(text, source, behind, name)?;
    }
    Ok(())
}

/// Adds a file.
fn put_name(
    text: &mut Vec<u8>,
    source: &[u8],
    behind: &[u8],
    name: &FileName,
) -> Result<(), AllocError>
    ensures { OnOk result (text.new.items
        ≡ laws.with_name source.now behind.now text.old.items name.now) }
{
    put_string(text, source, name.name)?;
    put_number(text, b"\n.byte ", name.directory)?;
    text.extend_from_slice(behind)
}

/// Adds a string of the source.
fn put_string(text: &mut Vec<u8>, source: &[u8], string: SourcePart) -> Result<(), AllocError>
    ensures { OnOk result (text.new.items ≡ laws.with_string source.now text.old.items string) }
{
    text.extend_from_slice(b".string ")?;
    text.extend_from_slice(part(string.start as usize, string.stop as usize, source))
}
