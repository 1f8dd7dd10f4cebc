//! Finds sections by their names and types.

ghost use Rattle.std.specs.Prelude.{◌≡◌, ◌-◌, ◌<◌, drop, nat_eq, IfSome};
ghost use Rattle.std.specs.List.{starts_with};
ghost use Rattle.rv_elf_laws.specs.Sections.{section_count};
ghost use Rattle.rv_object_file_laws.specs.Parts.{is_loaded, is_symbol_table};
ghost use Rattle.rv_debug_laws.specs.Carried as laws;

use rv_elf::{ElfView, SHF_ALLOC, SHT_PROGBITS, SHT_SYMTAB, SectionHeader, SectionIndex};

/// The index of the last section.
pub(crate) fn last_section(view: &ElfView<'_>) -> u16
    ensures { result ≡ section_count view.now.file.now - 1 }
{
    view.header().e_shnum.saturating_sub(1)
}

/// The table of the sections' names.
pub(crate) fn section_names_in<'a>(view: &ElfView<'a>) -> &'a [u8]
    ensures { result.now ≡ laws.section_names_in view.now.file.now }
{
    let header = view.header();
    if 0 < header.e_shstrndx && header.e_shstrndx < header.e_shnum {
        view.section(SectionIndex(header.e_shstrndx))
    } else {
        &[]
    }
}

/// The first section of this name that no program loads.
pub(crate) fn debug_section(view: &ElfView<'_>, strings: &[u8], name: &[u8]) -> Option<u16>
    ensures found { result
        ≡ laws.carried_section (laws.is_debug_section strings.now name.now) view.now.file.now }
    ensures within { IfSome result (λ index. index < section_count view.now.file.now) }
{
    for earlier in 0..last_section(view) {
        let header = view.section_header(SectionIndex(earlier + 1));
        if is_debug_section(strings, name, &header) {
            return Some(earlier + 1);
        }
    }
    None
}

/// Whether a section has this name, and no program loads it.
fn is_debug_section(strings: &[u8], name: &[u8], header: &SectionHeader) -> bool
    ensures { result ≡ laws.is_debug_section strings.now name.now header.now }
{
    let is_loaded = header.sh_flags / SHF_ALLOC % 2 == 1;
    header.sh_type == SHT_PROGBITS && !is_loaded && is_called(strings, name, header.sh_name)
}

/// Whether this name stands at an offset of a table of names.
fn is_called(strings: &[u8], name: &[u8], offset: u32) -> bool
    ensures { result ≡ starts_with nat_eq (drop offset strings.now) name.now }
{
    let rest = strings.get(offset as usize..).unwrap_or(&[]);
    rest.starts_with(name)
}

/// The first section of symbols.
pub fn symbol_section(view: &ElfView<'_>) -> Option<u16>
    ensures found { result ≡ laws.carried_section is_symbol_table view.now.file.now }
    ensures within { IfSome result (λ index. index < section_count view.now.file.now) }
{
    for earlier in 0..last_section(view) {
        let header = view.section_header(SectionIndex(earlier + 1));
        if is_symbol_table(&header) {
            return Some(earlier + 1);
        }
    }
    None
}

/// Whether a section has symbols.
fn is_symbol_table(header: &SectionHeader) -> bool
    ensures { result ≡ is_symbol_table header.now }
{
    header.sh_type == SHT_SYMTAB
}

/// The symbols of an object.
pub(crate) fn symbols_in<'a>(view: &ElfView<'a>) -> &'a [u8]
    ensures { result.now ≡ laws.symbol_bytes_in view.now.file.now }
{
    match symbol_section(view) {
        Some(index) => view.section(SectionIndex(index)),
        None => &[],
    }
}
