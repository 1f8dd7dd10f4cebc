//! The symbols to which the relocations of sections refer.

ghost use Rattle.std.specs.Prelude.{◌≡◌, ◌-◌, ◌<◌, ◌++◌, map, IfOk, OnOk};
ghost use Rattle.rv_elf_laws.specs.declared.rela.Rela.{Rela};
ghost use Rattle.rv_elf_laws.specs.Sections.{relas_in, section_count, section_header_of};
ghost use Rattle.rv_debug_laws.specs.CarriedNames as laws;

use crate::carried::is_carried_in;
use crate::fill::rela_from;
use crate::named::last_section;
use rv_elf::{ElfView, RELA_SIZE, SHT_RELA, SectionHeader, SectionIndex};
use std::alloc::{AllocError, Global};

/// The symbols of an object to which the relocations of its carried sections refer, in their order, by their numbers; none of
/// what is no object.
pub fn carried_references(alloc: Global, file: &[u8]) -> Result<Vec<u32>, AllocError>
    ensures { IfOk result (λ numbers. numbers.items ≡ laws.carried_references file.now) }
{
    match ElfView::open(file) {
        Ok(view) => references_in(alloc, &view),
        Err(_) => Ok(Vec::new(alloc)),
    }
}

/// The symbols to which the relocations of carried sections refer.
fn references_in(alloc: Global, view: &ElfView<'_>) -> Result<Vec<u32>, AllocError>
    ensures { IfOk result (λ numbers. numbers.items
        ≡ laws.references_from view.now.file.now 1 (section_count view.now.file.now - 1)) }
{
    let mut numbers: Vec<u32> = Vec::new(alloc);
    for earlier in 0..last_section(view) {
        put_references(&mut numbers, view, earlier + 1)?;
    }
    Ok(numbers)
}

/// Adds the symbols of the relocations that the section of an index has for a carried one.
fn put_references(numbers: &mut Vec<u32>, view: &ElfView<'_>, index: u16) -> Result<(), AllocError>
    requires { index < section_count view.now.file.now }
    ensures { OnOk result (numbers.new.items ≡ numbers.old.items
        ++ laws.references_by view.now.file.now (section_header_of view.now.file.now index)) }
{
    let header = view.section_header(SectionIndex(index));
    if header.sh_type != SHT_RELA || !is_carried_at(view, header.sh_info) {
        return Ok(());
    }
    put_symbols(numbers, view.contents(&header))
}

/// Whether the section of an index is carried.
fn is_carried_at(view: &ElfView<'_>, index: u32) -> bool
    ensures { result ≡ laws.is_carried_at view.now.file.now index }
{
    if index == 0 || index >= u32::from(view.header().e_shnum) {
        return false;
    }
    let header = view.section_header(SectionIndex(index as u16));
    is_carried_in(view, &header)
}

/// Adds the symbols of the relocations of a table.
fn put_symbols(numbers: &mut Vec<u32>, records: &[u8]) -> Result<(), AllocError>
    ensures { OnOk result (numbers.new.items
        ≡ numbers.old.items ++ map (λ (r : Rela). r.r_sym) (relas_in records.now)) }
{
    for index in 0..records.len() / RELA_SIZE {
        numbers.push(rela_from(records, index).r_sym)?;
    }
    Ok(())
}
