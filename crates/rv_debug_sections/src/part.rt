//! Where the sections of an object go.

ghost use Rattle.std.specs.Prelude.{◌≡◌, ◌+◌, ◌<◌, ◌≤◌, ◌^◌, map, option_map, IfOk};
ghost use Rattle.std.specs.List.{find};
ghost use Rattle.rv_size_laws.specs.Alignment.{aligned};
ghost use Rattle.rv_debug_laws.specs.Carried as laws;
ghost use Rattle.rv_debug_sections.specs.Views.{plain_merged, plain_part};

use crate::merged::Merged;
use crate::named::{debug_section, section_names_in};
use rv_elf::{ElfView, SHN_ABS, SectionHeader, SectionIndex, Symbol};
use std::alloc::{AllocError, Global};

/// A section of an object, 0 where it has none of a name, and its place in the merged section.
#[derive(Clone, Copy, Drop)]
pub(crate) struct MergedPart {
    pub index: u16,
    pub place: u64,
}

/// The sections of an object, one for each merged section.
pub(crate) fn parts_of(
    alloc: Global,
    view: &ElfView<'_>,
    merged: &[Merged<'_>],
) -> Result<Vec<MergedPart>, AllocError>
    ensures { IfOk result (λ parts. map plain_part parts.items
        ≡ map (laws.merged_part_of view.now.file.now) (map plain_merged merged.now)) }
{
    let strings = section_names_in(view);
    let mut parts = Vec::new(alloc);
    for section in merged {
        parts.push(merged_part_of(view, strings, section))?;
    }
    Ok(parts)
}

/// The section that goes behind a merged section.
fn merged_part_of(view: &ElfView<'_>, strings: &[u8], merged: &Merged<'_>) -> MergedPart
    requires { strings.now ≡ laws.section_names_in view.now.file.now }
    ensures { plain_part result ≡ laws.merged_part_of view.now.file.now (plain_merged merged.now) }
{
    match debug_section(view, strings, merged.name) {
        Some(index) => {
            let header = view.section_header(SectionIndex(index));
            MergedPart {
                index,
                place: aligned(
                    section_alignment(&header),
                    merged.bytes.as_slice().len() as u64,
                ),
            }
        }
        None => MergedPart { index: 0, place: 0 },
    }
}

/// The alignment of a section, up to a page.
pub(crate) fn section_alignment(header: &SectionHeader) -> u64
    ensures value { result ≡ laws.section_alignment header.now }
    ensures some { 0 < result }
    ensures small { result ≤ 4096 }
{
    header.sh_addralign.max(1).min(4096)
}

/// The least multiple of an alignment that is not below a size.
pub(crate) fn aligned(alignment: u64, size: u64) -> u64
    requires some { 0 < alignment }
    requires small { alignment ≤ 4096 }
    requires size { size < 2 ^ 63 }
    ensures value { result ≡ aligned alignment size }
    ensures above { size ≤ result }
    ensures near { result < size + 4096 }
{
    (size + (alignment - 1)) / alignment * alignment
}

/// The place in a merged section of the section of an index.
pub(crate) fn place_of(parts: &[MergedPart], index: u16) -> Option<u64>
    ensures { result
        ≡ option_map (λ p. p.place) (find (laws.is_part index) (map plain_part parts.now)) }
{
    if index == 0 {
        return None;
    }
    for part in parts {
        if part.index == index {
            return Some(part.place);
        }
    }
    None
}

/// The value of a symbol that has this address, if any.
pub(crate) fn symbol_value(
    parts: &[MergedPart],
    address: Option<u64>,
    symbol: &Symbol,
) -> Option<u64>
    ensures { result ≡ laws.symbol_value (map plain_part parts.now) address symbol.now }
{
    if symbol.st_shndx == SHN_ABS {
        return Some(symbol.st_value);
    }
    match place_of(parts, symbol.st_shndx) {
        Some(place) => Some(place.wrapping_add(symbol.st_value)),
        None => address,
    }
}
