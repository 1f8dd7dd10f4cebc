//! The sections of an executable.

use crate::text::{is_shown, text_in};
use rv_elf::{ElfView, SHF_ALLOC, SHT_NOBITS, SectionIndex};
use rv_elf_laws::SectionHeader;
use std::alloc::{AllocError, Global};

/// `sh_flags`: each thread has its own (gABI, SHF_TLS).
const SHF_TLS: u64 = 0x400;
/// `sh_flags`: the bytes are compressed (gABI, SHF_COMPRESSED).
const SHF_COMPRESSED: u64 = 0x800;

/// A section that is loaded.
#[derive(Clone, Copy, Drop)]
pub struct LoadedSection<'e> {
    pub name: &'e [u8],
    /// The address of its first byte.
    pub start: u64,
    /// The address after its last byte.
    pub end: u64,
}

/// The header of the section of this index.
pub(crate) fn header_at(view: &ElfView<'_>, index: u32) -> Option<SectionHeader> {
    if index >= u32::from(view.header().e_shnum) {
        return None;
    }
    Some(view.section_header(SectionIndex(index as u16)))
}

/// The bytes of a section, unless they are compressed.
pub(crate) fn contents_of<'e>(view: &ElfView<'e>, header: &SectionHeader) -> &'e [u8] {
    if header.sh_flags & SHF_COMPRESSED != 0 {
        return &[];
    }
    view.contents(header)
}

/// The name of a section; empty where it has none that can be shown.
fn name_of<'e>(view: &ElfView<'e>, header: &SectionHeader) -> &'e [u8] {
    let Some(names) = header_at(view, u32::from(view.header().e_shstrndx)) else {
        return b"";
    };
    match text_in(view.contents(&names), u64::from(header.sh_name)) {
        Some(name) if is_shown(name) => name,
        _ => b"",
    }
}

/// The bytes of the first section with a name; none where there is no such section.
pub(crate) fn section_called<'e>(view: &ElfView<'e>, name: &[u8]) -> &'e [u8] {
    for index in 0..view.header().e_shnum {
        if let Some(header) = header_at(view, u32::from(index)) {
            if name_of(view, &header) == name {
                return contents_of(view, &header);
            }
        }
    }
    &[]
}

/// The sections that are loaded and have an address, in the order of the file.
pub(crate) fn loaded_sections<'e>(
    alloc: Global,
    view: &ElfView<'e>,
) -> Result<Vec<LoadedSection<'e>>, AllocError> {
    let mut sections = Vec::new(alloc);
    for index in 0..view.header().e_shnum {
        if let Some(header) = header_at(view, u32::from(index)) {
            if is_loaded(&header) {
                sections.push(LoadedSection {
                    name: name_of(view, &header),
                    start: header.sh_addr,
                    end: header.sh_addr.saturating_add(header.sh_size),
                })?;
            }
        }
    }
    Ok(sections)
}

/// Whether a section is loaded: not the zeros of which each thread has its own, which have no address.
fn is_loaded(header: &SectionHeader) -> bool {
    let is_own = header.sh_flags & SHF_TLS != 0 && header.sh_type == SHT_NOBITS;
    header.sh_flags & SHF_ALLOC != 0 && !is_own && header.sh_size != 0
}
