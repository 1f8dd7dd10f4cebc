//! The table of section headers.

ghost use Rattle.std.specs.Prelude.{◌≡◌, ◌+◌, ◌<◌, ◌^◌, length, IfOk, IfSome, OnOk};
ghost use Rattle.rv_elf_laws.specs.Sections.{section_count, section_headers};
ghost use Rattle.rv_debug_laws.specs.CarriedFile as laws;
ghost use Rattle.rv_debug_sections.specs.Views.{all_merged, all_names, plain_merged};

use crate::merged::Merged;
use crate::named::{debug_section, section_names_in};
use crate::names::{COMMENT, LINE_STR, STR};
use crate::part::section_alignment;
use rv_elf::{ElfView, SHT_PROGBITS, SectionHeader, SectionIndex};
use std::alloc::{AllocError, Global};

/// `sh_flags`: strings, of which equal ones may be joined (`SHF_MERGE`, `SHF_STRINGS`).
const STRINGS: u64 = 0x30;

/// The sections of these names that a file has already.
pub(crate) fn own_sections<'n>(
    alloc: Global,
    view: &ElfView<'_>,
    names: &'n [Vec<u8>],
) -> Result<Vec<Merged<'n>>, AllocError>
    ensures { IfOk result (λ sections. all_merged sections.items
        ≡ laws.own_sections view.now.file.now (all_names names.now)) }
{
    let strings = section_names_in(view);
    let mut sections = Vec::new(alloc);
    for name in names {
        let name = name.as_slice();
        let index = debug_section(view, strings, name);
        sections.push(own_section(alloc, view, name, index)?)?;
    }
    Ok(sections)
}

/// The section of a name, by its index, if the file has it.
fn own_section<'n>(
    alloc: Global,
    view: &ElfView<'_>,
    name: &'n [u8],
    index: Option<u16>,
) -> Result<Merged<'n>, AllocError>
    requires { IfSome index (λ index. index < section_count view.now.file.now) }
    ensures { IfOk result (λ section. plain_merged section
        ≡ laws.own_section view.now.file.now name.now index) }
{
    match index {
        None => Ok(Merged {
            name,
            index: None,
            alignment: 1,
            bytes: Vec::new(alloc),
        }),
        Some(at) => {
            let header = view.section_header(SectionIndex(at));
            let bytes = Vec::from_slice(alloc, view.contents(&header))?;
            Ok(Merged {
                name,
                index: Some(at),
                alignment: section_alignment(&header),
                bytes,
            })
        }
    }
}

/// The headers of a file, in their order.
pub(crate) fn headers_in(
    alloc: Global,
    view: &ElfView<'_>,
) -> Result<Vec<SectionHeader>, AllocError>
    ensures { IfOk result (λ headers. headers.items ≡ section_headers view.now.file.now) }
{
    let mut headers = Vec::new(alloc);
    for index in 0..view.header().e_shnum {
        headers.push(view.section_header(SectionIndex(index)))?;
    }
    Ok(headers)
}

/// Whether the section of this name has strings.
fn has_strings(name: &[u8]) -> bool
    ensures { result ≡ laws.has_strings name.now }
{
    name == STR || name == LINE_STR || name == COMMENT
}

/// The header of a merged section whose contents and whose name stand at these places.
fn merged_header(place: u64, name: u32, merged: &Merged<'_>) -> SectionHeader
    ensures { result ≡ laws.merged_header place name (plain_merged merged.now) }
{
    let has_strings = has_strings(merged.name);
    SectionHeader {
        sh_name: name,
        sh_type: SHT_PROGBITS,
        sh_flags: if has_strings { STRINGS } else { 0 },
        sh_addr: 0,
        sh_offset: place,
        sh_size: merged.bytes.as_slice().len() as u64,
        sh_link: 0,
        sh_info: 0,
        sh_addralign: merged.alignment,
        sh_entsize: if has_strings { 1 } else { 0 },
    }
}

/// Puts a header in the place of the one that a section has, or behind all.
pub(crate) fn put_header(
    headers: &mut Vec<SectionHeader>,
    index: Option<u16>,
    header: SectionHeader,
) -> Result<(), AllocError>
    ensures { OnOk result (headers.new.items ≡ laws.put_header index header headers.old.items) }
{
    let Some(index) = index else {
        headers.push(header)?;
        return Ok(());
    };
    if (index as usize) < headers.len() {
        headers[index as usize] = header;
    }
    Ok(())
}

/// Puts the header of a merged section whose contents and whose name stand at these places, unless it is empty.
fn put_merged(
    headers: &mut Vec<SectionHeader>,
    place: u64,
    name: u32,
    merged: &Merged<'_>,
) -> Result<(), AllocError>
    ensures { OnOk result (headers.new.items
        ≡ laws.with_header place name (plain_merged merged.now) headers.old.items) }
{
    if merged.bytes.as_slice().len() == 0 {
        return Ok(());
    }
    put_header(headers, merged.index, merged_header(place, name, merged))
}

/// Puts the headers of merged sections, whose contents and whose names stand one after another from these places on.
pub(crate) fn put_headers(
    headers: &mut Vec<SectionHeader>,
    first: u64,
    first_name: u32,
    merged: &[Merged<'_>],
) -> Result<(), AllocError>
    requires contents { first + length (laws.merged_contents (all_merged merged.now)) < 2 ^ 64 }
    requires names { first_name + length (laws.merged_names (all_merged merged.now)) < 2 ^ 32 }
    ensures { OnOk result (headers.new.items
        ≡ laws.with_headers first first_name (all_merged merged.now) headers.old.items) }
{
    let mut place = first;
    let mut name = first_name;
    for section in merged {
        put_merged(headers, place, name, section)?;
        place += section.bytes.as_slice().len() as u64;
        name += section.name.len() as u32;
    }
    Ok(())
}
