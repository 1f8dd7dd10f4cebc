//! Finds the name of a source in an object's file.

ghost use Rattle.std.specs.Prelude.{◌≡◌, ◌+◌, None, Some, drop, length, map, option_map, IfOk};
ghost use Rattle.std.specs.Option.{option_copied};
ghost use Rattle.rv_object_types.specs.Sections.{section_of};
ghost use Rattle.rv_debug_laws.specs.SourceNames as laws;
ghost use Rattle.rv_debug.specs.NameViews.{plain_source};

use crate::name::SourceName;
use crate::naming::SECTION_NAME;
use rv_elf::string_in;
use rv_fault::FileFault;
use rv_object_reader::read;
use rv_object_types::Section;
use std::alloc::{AllocError, Global};

/// The source that a file names: what is no object names none, nor does one whose section is damaged.
pub fn source_of(alloc: Global, file: &[u8]) -> Result<Option<SourceName>, AllocError>
    ensures { IfOk result (λ name. option_map plain_source name ≡ laws.source_of file.now) }
{
    match read(alloc, file) {
        Ok(object) => source_in(alloc, object.sections.as_slice()),
        Err(FileFault::OutOfMemory) => Err(AllocError),
        Err(_) => Ok(None),
    }
}

/// The source that sections name.
fn source_in(alloc: Global, sections: &[Section<'_>]) -> Result<Option<SourceName>, AllocError>
    ensures { IfOk result (λ name. option_map plain_source name
        ≡ laws.name_of_section (laws.last_source None (map section_of sections.now))) }
{
    match last_source(sections) {
        Some(bytes) => name_in(alloc, bytes),
        None => Ok(None),
    }
}

/// The bytes of the last section that is called so.
fn last_source<'s>(sections: &'s [Section<'_>]) -> Option<&'s [u8]>
    ensures { option_copied result ≡ laws.last_source None (map section_of sections.now) }
{
    let mut found: Option<&'s [u8]> = None;
    for section in sections {
        found = source_behind(found, section);
    }
    found
}

/// The bytes of a section if it is called so, or else these.
fn source_behind<'s>(found: Option<&'s [u8]>, section: &'s Section<'_>) -> Option<&'s [u8]>
    ensures { option_copied result
        ≡ laws.source_behind (option_copied found.entry) (section_of section.now) }
{
    if section.name == SECTION_NAME {
        Some(section.contents.stored())
    } else {
        found
    }
}

/// The name that some bytes are, if they are one.
fn name_in(alloc: Global, bytes: &[u8]) -> Result<Option<SourceName>, AllocError>
    ensures { IfOk result (λ name. option_map plain_source name ≡ laws.said_source bytes.now) }
{
    let Some(directory) = string_in(bytes, 0) else {
        return Ok(None);
    };
    let behind = behind(bytes, directory);
    let Some(path) = string_in(behind, 0) else {
        return Ok(None);
    };
    name_by(alloc, directory, behind, path)
}

/// What stands behind a directory at the front of some bytes and its zero.
fn behind<'b>(bytes: &'b [u8], directory: &[u8]) -> &'b [u8]
    ensures { result.now ≡ drop (length directory.now + 1) bytes.now }
{
    bytes.get(directory.len() + 1..).unwrap_or(&[])
}

/// The name of a directory and of the path at the front of what stands behind it, unless one is empty or more stands there.
fn name_by(
    alloc: Global,
    directory: &[u8],
    behind: &[u8],
    path: &[u8],
) -> Result<Option<SourceName>, AllocError>
    ensures { IfOk result (λ name. option_map plain_source name
        ≡ laws.name_by directory.now behind.now (Some path.now)) }
{
    if directory.is_empty() || path.is_empty() || behind.len() != path.len() + 1 {
        return Ok(None);
    }
    Ok(Some(SourceName {
        directory: Vec::from_slice(alloc, directory)?,
        path: Vec::from_slice(alloc, path)?,
    }))
}
