//! The relocations of each section that an object keeps.

ghost use Rattle.std.specs.Prelude.{◌≡◌, ◌<◌, ◌++◌, ◌∷◌, [], IfOk, OnOk, List, length, map, option_map};
ghost use Rattle.rv_elf_laws.specs.Sections.{section_count, relas_in};
ghost use Rattle.rv_object_types.specs.Parts.{relocation_of};
ghost use Rattle.rv_object_reader.specs.Found.{section_at};
ghost use Rattle.rv_object_file_laws.specs.Parts.{FileSection, kept, relocation_in, relocations_in};
ghost use Rattle.rv_object_reader.specs.Collected.{lists_of, lists_so_far, lists_in};

use crate::checked::Checked;
use crate::headers::is_loaded;
use crate::relocation_checks::{kind_numbered, rela_from};
use crate::tables::count_sections;
use rv_elf::{RELA_SIZE, SHT_RELA, SectionIndex};
use rv_elf_laws::Rela;
use rv_object_types::Relocation;
use std::alloc::{AllocError, Global};

/// The relocations of each section that an object keeps, in the order of the file; none of one that is not loaded.
pub(crate) fn relocations(
    alloc: Global,
    checked: &Checked<'_>,
) -> Result<Vec<Vec<Relocation>>, AllocError>
    ensures { IfOk result
        (λ lists. lists_in lists.items ≡ lists_of checked.now.view.file.now) }
{
    let mut lists = empty(alloc, checked)?;
    for earlier in 0..count_sections(&checked.view) {
        collect(&mut lists, checked, SectionIndex(earlier + 1))?;
    }
    Ok(lists)
}

/// For each section that an object keeps no relocation.
fn empty(alloc: Global, checked: &Checked<'_>) -> Result<Vec<Vec<Relocation>>, AllocError>
    ensures { IfOk result
        (λ lists. lists_in lists.items ≡ lists_so_far checked.now.view.file.now []) }
{
    let mut lists = Vec::new(alloc);
    for earlier in 0..count_sections(&checked.view) {
        if checked.place(SectionIndex(earlier + 1)).is_none() {
            continue;
        }
        lists.push(Vec::new(alloc))?;
    }
    Ok(lists)
}

/// Adds the relocations in the section of an index to those of the section that it names, if an object keeps these.
fn collect(
    lists: &mut Vec<Vec<Relocation>>,
    checked: &Checked<'_>,
    index: SectionIndex,
) -> Result<(), AllocError>
    requires some { 0 < index.0 }
    requires within { index.0 < section_count checked.now.view.file.now }
    requires long { length lists.old.items ≡ length (kept checked.now.view.file.now) }
    ensures { OnOk result ((before : List FileSection)
        → lists_in lists.old.items ≡ lists_so_far checked.now.view.file.now before
        → lists_in lists.new.items ≡ lists_so_far checked.now.view.file.now
        (before ++ section_at checked.now.view.file.now index.0 ∷ [])) }
{
    let header = checked.view.section_header(index);
    if header.sh_type != SHT_RELA {
        return Ok(());
    }
    let target = SectionIndex(header.sh_info as u16);
    if !is_loaded(&checked.view.section_header(target)) {
        return Ok(());
    }
    match checked.place(target) {
        Some(place) => append(&mut lists[place as usize], checked.view.contents(&header)),
        None => Ok(()),
    }
}

/// Adds the relocations in a section of these bytes.
fn append(list: &mut Vec<Relocation>, bytes: &[u8]) -> Result<(), AllocError>
    ensures { OnOk result (map relocation_of list.new.items
        ≡ map relocation_of list.old.items ++ relocations_in (relas_in bytes.now)) }
{
    for index in 0..bytes.len() / RELA_SIZE {
        let Some(relocation) = relocation(&rela_from(bytes, index)) else {
            continue;
        };
        list.push(relocation)?;
    }
    Ok(())
}

/// The relocation that a record is; none where the linker has no such kind.
fn relocation(rela: &Rela) -> Option<Relocation>
    ensures { option_map relocation_of result ≡ relocation_in rela.now }
{
    let kind = kind_numbered(rela.r_type)?;
    Some(Relocation {
        place: rela.r_offset,
        kind,
        symbol: rela.r_sym.checked_sub(1),
        addend: rela.r_addend,
    })
}
