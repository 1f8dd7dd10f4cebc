//! The files of a unit's line table (DWARF 5, 6.2.4; DWARF 4, 6.2.4).

ghost use Rattle.std.specs.Prelude.{◌<◌, ◌≤◌, IfSome, length};

use crate::leb128::unsigned_in;
use crate::text::text_in;
use byteorder::{ByteOrder, LittleEndian};
use std::alloc::{AllocError, Global};

/// DW_LNCT_path: the content is a name.
const PATH: u64 = 1;
/// DW_LNCT_directory_index: the content is the number of a directory.
const DIRECTORY: u64 = 2;

/// A source file, as a line table names it.
#[derive(Clone, Copy, Drop)]
pub struct FileName<'e> {
    /// The directory in which its unit was compiled; empty where the table does not say it.
    pub compiled_in: &'e [u8],
    /// Its own directory, which may begin there; empty where it is that one.
    pub directory: &'e [u8],
    pub name: &'e [u8],
}

impl<'e> FileName<'e> {
    /// What leads to it, from the outermost directory to its name; a directory that its path does not need is empty.
    pub fn path(&self) -> [&'e [u8]; 3] {
        let FileName {
            compiled_in,
            directory,
            name,
        } = *self;
        if name.starts_with(b"/") {
            [b"", b"", name]
        } else if directory.starts_with(b"/") {
            [b"", directory, name]
        } else {
            [compiled_in, directory, name]
        }
    }
}

/// The tables of strings to which names may lead.
#[derive(Clone, Copy, Drop)]
pub(crate) struct Strings<'e> {
    /// `.debug_line_str`.
    pub(crate) of_lines: &'e [u8],
    /// `.debug_str`.
    pub(crate) of_all: &'e [u8],
}

/// A directory or a file.
#[derive(Clone, Copy, Drop)]
struct Listed<'e> {
    path: &'e [u8],
    /// The number of its directory.
    directory: u64,
}

/// What an entry of a table says of its directory or file: a name or a number.
#[derive(Clone, Copy, Drop)]
struct Value<'e> {
    text: &'e [u8],
    number: u64,
}

impl<'e> Listed<'e> {
    /// Of which nothing is said.
    fn nothing() -> Listed<'e> {
        Listed {
            path: b"",
            directory: 0,
        }
    }
}

/// What is said of each entry: the kind of the content, and its form.
#[derive(Clone, Copy, Drop)]
struct Content {
    kind: u64,
    form: u64,
}

/// The files of a unit by their numbers, from what stands between the standard opcodes' lengths and its program.
pub(crate) fn files_of<'e>(
    alloc: Global,
    version: u16,
    tables: &'e [u8],
    strings: Strings<'e>,
) -> Result<Option<Vec<FileName<'e>>>, AllocError> {
    if version < 5 {
        return old_files(alloc, tables);
    }
    let Some((directories, rest)) = listed_in(alloc, tables, strings)? else {
        return Ok(None);
    };
    let Some((files, _)) = listed_in(alloc, rest, strings)? else {
        return Ok(None);
    };
    let mut names = Vec::new(alloc);
    for file in &files {
        names.push(named(file, directories.as_slice()))?;
    }
    Ok(Some(names))
}

/// A file by its directory, of which the first is that of the compilation.
fn named<'e>(file: &Listed<'e>, directories: &[Listed<'e>]) -> FileName<'e> {
    FileName {
        compiled_in: path_at(directories, 0),
        directory: own_directory(directories, file.directory),
        name: file.path,
    }
}

/// The path of a file's directory; empty where that is the first.
fn own_directory<'e>(directories: &[Listed<'e>], index: u64) -> &'e [u8] {
    if index == 0 {
        return b"";
    }
    path_at(directories, index)
}

/// The path of a directory; empty where there is none.
fn path_at<'e>(directories: &[Listed<'e>], index: u64) -> &'e [u8] {
    match directories.get(index as usize) {
        Some(directory) => directory.path,
        None => b"",
    }
}

/// The entries at the front of some bytes, behind what says how they are written, and what stands after them.
fn listed_in<'e>(
    alloc: Global,
    bytes: &'e [u8],
    strings: Strings<'e>,
) -> Result<Option<(Vec<Listed<'e>>, &'e [u8])>, AllocError> {
    let Some((contents, rest)) = contents_in(alloc, bytes)? else {
        return Ok(None);
    };
    let Some((count, rest)) = number_in(rest) else {
        return Ok(None);
    };
    // an entry of no content has no bytes, so nothing would end the list
    if contents.is_empty() && count != 0 {
        return Ok(None);
    }
    let mut listed = Vec::new(alloc);
    let mut rest = rest;
    for _ in 0..count {
        let Some((entry, behind)) = entry_in(contents.as_slice(), rest, strings) else {
            return Ok(None);
        };
        listed.push(entry)?;
        rest = behind;
    }
    Ok(Some((listed, rest)))
}

/// What is said of each entry, and what stands after that.
fn contents_in(alloc: Global, bytes: &[u8]) -> Result<Option<(Vec<Content>, &[u8])>, AllocError> {
    let Some((count, rest)) = bytes.split_first() else {
        return Ok(None);
    };
    let mut contents = Vec::new(alloc);
    let mut rest = rest;
    for _ in 0..*count {
        let Some((content, behind)) = content_in(rest) else {
            return Ok(None);
        };
        contents.push(content)?;
        rest = behind;
    }
    Ok(Some((contents, rest)))
}

fn content_in(bytes: &[u8]) -> Option<(Content, &[u8])> {
    let (kind, rest) = number_in(bytes)?;
    let (form, rest) = number_in(rest)?;
    Some((Content { kind, form }, rest))
}

/// The entry at the front of some bytes, and what stands after it.
fn entry_in<'e>(
    contents: &[Content],
    bytes: &'e [u8],
    strings: Strings<'e>,
) -> Option<(Listed<'e>, &'e [u8])> {
    let mut path: Option<&'e [u8]> = None;
    let mut directory: u64 = 0;
    let mut rest: &'e [u8] = bytes;
    for content in contents {
        let (value, behind) = value_in(content.form, rest, strings)?;
        path = path_behind(path, content.kind, value.text);
        directory = directory_behind(directory, content.kind, value.number);
        rest = behind;
    }
    let path = path.unwrap_or(b"");
    Some((Listed { path, directory }, rest))
}

/// The path by one more content, or else this one.
fn path_behind<'e>(path: Option<&'e [u8]>, kind: u64, text: &'e [u8]) -> Option<&'e [u8]> {
    if kind == PATH { Some(text) } else { path }
}

/// The number of the directory by one more content, or else this one.
fn directory_behind(directory: u64, kind: u64, number: u64) -> u64 {
    if kind == DIRECTORY { number } else { directory }
}

/// The value of a form at the front of some bytes, and what stands after it.
fn value_in<'e>(form: u64, bytes: &'e [u8], strings: Strings<'e>) -> Option<(Value<'e>, &'e [u8])> {
    match form {
        // DW_FORM_string
        0x08 => text_here(bytes),
        // DW_FORM_line_strp, DW_FORM_strp
        0x1F => text_there(strings.of_lines, bytes),
        0x0E => text_there(strings.of_all, bytes),
        // DW_FORM_udata, data1, data2
        0x0F => number_here(bytes),
        0x0B => byte_here(bytes),
        0x05 => half_here(bytes),
        // DW_FORM_data4, data8, data16, block, as which times, sizes and digests stand
        0x06 => passed(4, bytes),
        0x07 => passed(8, bytes),
        0x1E => passed(16, bytes),
        0x09 => block_here(bytes),
        _ => None,
    }
}

/// A name that stands here.
fn text_here(bytes: &[u8]) -> Option<(Value<'_>, &[u8])> {
    let (text, rest) = string_at(bytes)?;
    Some((Value { text, number: 0 }, rest))
}

/// A name at an offset of a table, which stands here in four bytes.
fn text_there<'e>(table: &'e [u8], bytes: &'e [u8]) -> Option<(Value<'e>, &'e [u8])> {
    let offset = LittleEndian::read_u32(bytes.get(..4)?);
    let text = text_in(table, u64::from(offset))?;
    Some((Value { text, number: 0 }, bytes.get(4..)?))
}

/// A number of any size that stands here.
fn number_here(bytes: &[u8]) -> Option<(Value<'_>, &[u8])> {
    let (number, rest) = number_in(bytes)?;
    Some((Value { text: b"", number }, rest))
}

/// A number of one byte.
fn byte_here(bytes: &[u8]) -> Option<(Value<'_>, &[u8])> {
    let number = u64::from(*bytes.first()?);
    Some((Value { text: b"", number }, bytes.get(1..)?))
}

/// A number of two bytes.
fn half_here(bytes: &[u8]) -> Option<(Value<'_>, &[u8])> {
    let number = u64::from(LittleEndian::read_u16(bytes.get(..2)?));
    Some((Value { text: b"", number }, bytes.get(2..)?))
}

/// Bytes behind their number.
fn block_here(bytes: &[u8]) -> Option<(Value<'_>, &[u8])> {
    let (size, rest) = number_in(bytes)?;
    passed(size as usize, rest)
}

/// So many bytes that say neither a name nor a directory.
fn passed(size: usize, bytes: &[u8]) -> Option<(Value<'_>, &[u8])> {
    let rest = bytes.get(size..)?;
    Some((
        Value {
            text: b"",
            number: 0,
        },
        rest,
    ))
}

/// A number of any size, and what stands after it.
fn number_in(bytes: &[u8]) -> Option<(u64, &[u8])>
    ensures { IfSome result (λ found. length found.1.now ≤ length bytes.now) }
{
    let (number, taken) = unsigned_in(bytes)?;
    Some((number, bytes.get(taken..)?))
}

/// A name, and what stands after its zero.
fn string_at(bytes: &[u8]) -> Option<(&[u8], &[u8])>
    ensures { IfSome result (λ found. length found.1.now < length bytes.now) }
{
    let text = text_in(bytes, 0)?;
    Some((text, bytes.get(text.len() + 1..)?))
}

/// A name that is not empty, and what stands after its zero.
fn name_at(bytes: &[u8]) -> Option<(&[u8], &[u8])>
    ensures { IfSome result (λ found. length found.1.now < length bytes.now) }
{
    let (name, rest) = string_at(bytes)?;
    if name.is_empty() {
        return None;
    }
    Some((name, rest))
}

/// The files of a unit before version 5: names of directories, then files with the number of a directory, each list up to
/// an empty name. The directory of the compilation is not among them, and no file has the number 0.
fn old_files<'e>(alloc: Global, tables: &'e [u8]) -> Result<Option<Vec<FileName<'e>>>, AllocError> {
    let (directories, rest) = old_directories(alloc, tables)?;
    let Some((_, mut rest)) = string_at(rest) else {
        return Ok(None);
    };
    let mut names = Vec::new(alloc);
    names.push(named(&Listed::nothing(), &[]))?;
    while let Some((file, behind)) = old_file_in(rest) {
        names.push(named(&file, directories.as_slice()))?;
        rest = behind;
    }
    Ok(Some(names))
}

/// The directories before version 5 by their numbers, and what stands after the last.
fn old_directories<'e>(
    alloc: Global,
    tables: &'e [u8],
) -> Result<(Vec<Listed<'e>>, &'e [u8]), AllocError> {
    let mut directories = Vec::new(alloc);
    directories.push(Listed::nothing())?;
    let mut rest = tables;
    while let Some((path, behind)) = name_at(rest) {
        directories.push(Listed { path, directory: 0 })?;
        rest = behind;
    }
    Ok((directories, rest))
}

/// A file before version 5, and what stands after it; none where the list ends.
fn old_file_in(bytes: &[u8]) -> Option<(Listed<'_>, &[u8])>
    ensures { IfSome result (λ found. length found.1.now < length bytes.now) }
{
    let (path, rest) = name_at(bytes)?;
    let (directory, rest) = number_in(rest)?;
    let (_modified, rest) = number_in(rest)?;
    let (_size, rest) = number_in(rest)?;
    Some((Listed { path, directory }, rest))
}
