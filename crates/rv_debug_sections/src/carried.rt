//! The sections of objects that stand behind an executable, by their names.

ghost use Rattle.std.specs.Prelude.{◌≡◌, ◌-◌, ◌<◌, ◌++◌, ◌∷◌, [], bytes_eq, map, option_map, IfOk, OnOk};
ghost use Rattle.std.specs.List.{list_any};
ghost use Rattle.rv_elf_laws.specs.Sections.{section_count, section_header_of};
ghost use Rattle.rv_debug_laws.specs.Carried.{carried_section};
ghost use Rattle.rv_debug_laws.specs.CarriedNames as laws;
ghost use Rattle.rv_debug_sections.specs.Views.{all_names};

use crate::named::{last_section, section_names_in};
use crate::names::DEBUG_NAMES;
use rv_debug_laws::Carried;
use rv_elf::{
    ElfView, SHF_ALLOC, SHF_EXECINSTR, SHT_PROGBITS, SectionHeader, SectionIndex, string_in,
};
use std::alloc::{AllocError, Global};

/// `sh_flags`: linkers leave the section out.
const SHF_EXCLUDE: u64 = 0x8000_0000;

/// Whether a section has bytes that no program loads, and that are no code and not to be left out.
fn is_carried(header: &SectionHeader) -> bool
    ensures { result ≡ laws.is_carried header.now }
{
    let is_loaded = header.sh_flags / SHF_ALLOC % 2 == 1;
    let is_executable = header.sh_flags / SHF_EXECINSTR % 2 == 1;
    let is_excluded = header.sh_flags / SHF_EXCLUDE % 2 == 1;
    let has_bytes = header.sh_type == SHT_PROGBITS && header.sh_size != 0;
    has_bytes && !is_loaded && !is_executable && !is_excluded
}

/// Whether linkers leave sections of this name out, or they say of a source what only its own object has.
fn is_left_out(name: &[u8]) -> bool
    ensures { result ≡ laws.is_left_out name.now }
{
    name == b".note.GNU-stack".as_slice()
        || name == b".gnu_debuglink".as_slice()
        || name.starts_with(b".gnu.lto_")
        || name == b".rv.rows".as_slice()
        || name == b".rv.source".as_slice()
}

/// The name of a section, if it is carried.
fn carried_name<'a>(view: &ElfView<'a>, header: &SectionHeader) -> Option<&'a [u8]>
    ensures { option_map (λ name. name.now) result
        ≡ laws.carried_name view.now.file.now header.now }
{
    if !is_carried(header) {
        return None;
    }
    match string_in(section_names_in(view), header.sh_name) {
        Some(name) if !is_left_out(name) => Some(name),
        _ => None,
    }
}

/// Whether a section is carried.
pub(crate) fn is_carried_in(view: &ElfView<'_>, header: &SectionHeader) -> bool
    ensures { result ≡ laws.is_carried_in view.now.file.now header.now }
{
    carried_name(view, header).is_some()
}

/// The first section that is carried.
pub(crate) fn first_carried(view: &ElfView<'_>) -> Option<u16>
    ensures { result
        ≡ carried_section (laws.is_carried_in view.now.file.now) view.now.file.now }
{
    for earlier in 0..last_section(view) {
        let header = view.section_header(SectionIndex(earlier + 1));
        if is_carried_in(view, &header) {
            return Some(earlier + 1);
        }
    }
    None
}

/// The names of the sections that objects bring, each with a zero behind it and once, behind those of debug sections.
pub(crate) fn carried_names(
    alloc: Global,
    objects: &[Carried<'_>],
) -> Result<Vec<Vec<u8>>, AllocError>
    ensures { IfOk result (λ names. all_names names.items ≡ laws.carried_names objects.now) }
{
    let mut names = copied(alloc, &DEBUG_NAMES)?;
    for object in objects {
        put_names(alloc, &mut names, object.file)?;
    }
    Ok(names)
}

/// These names.
fn copied(alloc: Global, names: &[&'static [u8]]) -> Result<Vec<Vec<u8>>, AllocError>
    ensures { IfOk result (λ copies. all_names copies.items ≡ map (λ name. name.now) names.now) }
{
    let mut copies: Vec<Vec<u8>> = Vec::new(alloc);
    for name in names {
        copies.push(Vec::from_slice(alloc, name)?)?;
    }
    Ok(copies)
}

/// Adds the names of the sections that an object brings.
fn put_names(alloc: Global, names: &mut Vec<Vec<u8>>, file: &[u8]) -> Result<(), AllocError>
    ensures { OnOk result (all_names names.new.items
        ≡ laws.carried_names_in file.now (all_names names.old.items)) }
{
    match ElfView::open(file) {
        Ok(view) => put_all_names(alloc, names, &view),
        Err(_) => Ok(()),
    }
}

/// Adds the names of the sections of an object that are carried.
fn put_all_names(
    alloc: Global,
    names: &mut Vec<Vec<u8>>,
    view: &ElfView<'_>,
) -> Result<(), AllocError>
    ensures { OnOk result (all_names names.new.items
        ≡ laws.carried_names_from view.now.file.now 1 (section_count view.now.file.now - 1)
        (all_names names.old.items)) }
{
    for earlier in 0..last_section(view) {
        put_name_at(alloc, names, view, earlier + 1)?;
    }
    Ok(())
}

/// Adds the name of the section of an index, if it is carried.
fn put_name_at(
    alloc: Global,
    names: &mut Vec<Vec<u8>>,
    view: &ElfView<'_>,
    index: u16,
) -> Result<(), AllocError>
    requires { index < section_count view.now.file.now }
    ensures { OnOk result (all_names names.new.items
        ≡ laws.with_carried_name (all_names names.old.items)
        (laws.carried_name view.now.file.now (section_header_of view.now.file.now index))) }
{
    let header = view.section_header(SectionIndex(index));
    match carried_name(view, &header) {
        Some(name) => put_name(alloc, names, name),
        None => Ok(()),
    }
}

/// Adds a name, unless it is there.
fn put_name(alloc: Global, names: &mut Vec<Vec<u8>>, name: &[u8]) -> Result<(), AllocError>
    ensures { OnOk result (all_names names.new.items
        ≡ laws.with_name_once (all_names names.old.items) (name.now ++ 0 ∷ [])) }
{
    let named = with_zero(alloc, name)?;
    if is_among(names.as_slice(), named.as_slice()) {
        return Ok(());
    }
    Ok(names.push(named)?)
}

/// A name with a zero behind it.
fn with_zero(alloc: Global, name: &[u8]) -> Result<Vec<u8>, AllocError>
    ensures { IfOk result (λ named. named.items ≡ name.now ++ 0 ∷ []) }
{
    let mut named = Vec::from_slice(alloc, name)?;
    named.push(0)?;
    Ok(named)
}

/// Whether a name is among these.
fn is_among(names: &[Vec<u8>], name: &[u8]) -> bool
    ensures { result ≡ list_any (λ known. bytes_eq known name.now) (all_names names.now) }
{
    for known in names {
        if known.as_slice() == name {
            return true;
        }
    }
    false
}
