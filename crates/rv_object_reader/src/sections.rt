//! The sections that an object keeps.

ghost use Rattle.std.specs.Prelude.{◌≡◌, ◌<◌, true, IfOk, map};
ghost use Rattle.rv_elf_laws.specs.Sections.{section_count};
ghost use Rattle.rv_object_types.specs.Parts.{relocation_of};
ghost use Rattle.rv_object_types.specs.Sections.{section_of};
ghost use Rattle.rv_object_reader.specs.Found.{section_at};
ghost use Rattle.rv_object_reader.specs.Names.{names_table};
ghost use Rattle.rv_object_file_laws.specs.ObjectOf.{section_in};
ghost use Rattle.rv_object_file_laws.specs.Parts.{is_kept, kept, sections as sections_in};
ghost use Rattle.rv_object_reader.specs.Collected.{lists_of, lists_in, list_so_far};

use crate::checked::Checked;
use crate::headers::{is_executable, is_loaded};
use crate::parts::{contents, is_writable, name, section_names};
use crate::strings::Strings;
use crate::tables::count_sections;
use rv_elf::SectionIndex;
use rv_object_types::{Relocation, Section};
use std::alloc::{AllocError, Global};
use std::mem;

/// The sections that an object keeps, with the relocations of each.
pub(crate) fn sections<'a>(
    alloc: Global,
    checked: &Checked<'a>,
    mut relocations: Vec<Vec<Relocation>>,
) -> Result<Vec<Section<'a>>, AllocError>
    requires { lists_in relocations.items ≡ lists_of checked.now.view.file.now }
    ensures { IfOk result (λ sections. map section_of sections.items
        ≡ map (section_in checked.now.view.file.now) (kept checked.now.view.file.now)) }
{
    let names = section_names(alloc, &checked.view)?;
    let mut sections = Vec::with_capacity(alloc, relocations.len())?;
    for earlier in 0..count_sections(&checked.view) {
        let index = SectionIndex(earlier + 1);
        let Some(place) = checked.place(index) else {
            continue;
        };
        let own = mem::replace(&mut relocations[place as usize], Vec::new(alloc));
        sections.push(section(checked, &names, index, own))?;
    }
    Ok(sections)
}

/// The section of an index, with its relocations.
fn section<'a>(
    checked: &Checked<'a>,
    names: &Strings<'a>,
    index: SectionIndex,
    relocations: Vec<Relocation>,
) -> Section<'a>
    requires named { names.now.table.now ≡ names_table checked.now.view.file.now }
    requires some { 0 < index.0 }
    requires within { index.0 < section_count checked.now.view.file.now }
    requires kept { is_kept checked.now.view.file.now
        (section_at checked.now.view.file.now index.0) ≡ true }
    requires own { map relocation_of relocations.items
        ≡ list_so_far checked.now.view.file.now (sections_in checked.now.view.file.now)
        (section_at checked.now.view.file.now index.0) }
    ensures { section_of result
        ≡ section_in checked.now.view.file.now (section_at checked.now.view.file.now index.0) }
{
    let view = &checked.view;
    let header = view.section_header(index);
    Section {
        name: name(view, names, &header),
        loaded: is_loaded(&header),
        executable: is_executable(&header),
        writable: is_writable(&header),
        contents: contents(view, &header),
        alignment: header.sh_addralign.max(1),
        relocations,
    }
}
