//! The relocations of an object's section, by their places.

use crate::columns::Column::{Decimal, Hexadecimal, Name, Text};
use crate::columns::{put, put_columns};
use crate::parts::{bytes_of, count_relas, rela_at, section_at, section_named, symbol_at};
use crate::relocation_name::kind_name;
use crate::section_lines::section_name;
use rv_elf::{ElfView, SHT_RELA, string_in};
use rv_elf_laws::{Rela, SectionHeader, Symbol};
use rv_fault::FileFault;
use std::alloc::{AllocError, Global};

/// A relocation and what it names.
#[derive(Clone, Copy, Drop)]
pub(crate) struct Relocation<'a> {
    /// The number of its section.
    section: u32,
    pub(crate) place: u64,
    kind: u32,
    name: &'a [u8],
    /// What the name stands for in its section, where it is the section's.
    offset: u64,
    addend: i64,
}

/// The relocations of a file, by their sections and places.
pub(crate) fn file_relocations<'a>(
    alloc: Global,
    view: &ElfView<'a>,
) -> Result<Vec<Relocation<'a>>, FileFault> {
    let mut relocations = Vec::new(alloc);
    add_tables(&mut relocations, view)?;
    relocations.sort_by_key(|relocation| (relocation.section, relocation.place))?;
    Ok(relocations)
}

/// Adds those of all sections of relocations.
fn add_tables<'a>(
    relocations: &mut Vec<Relocation<'a>>,
    view: &ElfView<'a>,
) -> Result<(), FileFault> {
    for index in 0..view.header().e_shnum {
        if let Some(header) = section_at(view, index) {
            if header.sh_type == SHT_RELA {
                add_table(relocations, view, &header)?;
            }
        }
    }
    Ok(())
}

/// Those of a section, of relocations in order.
pub(crate) fn relocations_in<'a>(
    ordered: &'a [Relocation<'a>],
    section: u32,
) -> &'a [Relocation<'a>] {
    let first = ordered.partition_point(|relocation| relocation.section < section);
    let last = ordered.partition_point(|relocation| relocation.section <= section);
    ordered.get(first..last).unwrap_or(&[])
}

/// Adds those of a section of relocations.
fn add_table<'a>(
    relocations: &mut Vec<Relocation<'a>>,
    view: &ElfView<'a>,
    header: &SectionHeader,
) -> Result<(), FileFault> {
    let bytes = bytes_of(view, header)?;
    let table = section_named(view, header.sh_link)?;
    let symbols = bytes_of(view, &table)?;
    let strings = bytes_of(view, &section_named(view, table.sh_link)?)?;
    for index in 0..count_relas(bytes) {
        let rela = rela_at(bytes, index).ok_or(FileFault::Truncated)?;
        let (name, offset) = named(view, symbols, strings, &rela)?;
        relocations.push(Relocation {
            section: header.sh_info,
            place: rela.r_offset,
            kind: rela.r_type,
            name,
            offset,
            addend: rela.r_addend,
        })?;
    }
    Ok(())
}

/// The name that a relocation has, and where that stands in its section if it is the section's.
fn named<'a>(
    view: &ElfView<'a>,
    symbols: &'a [u8],
    strings: &'a [u8],
    rela: &Rela,
) -> Result<(&'a [u8], u64), FileFault> {
    if rela.r_sym == 0 {
        return Ok((b"*ABS*", 0));
    }
    let symbol = symbol_at(symbols, rela.r_sym as usize).ok_or(FileFault::BadIndex)?;
    target(view, strings, &symbol)
}

/// The name of a symbol; where it has none, its section and where it stands there, which GNU's `objdump` does not say. All
/// other lines of the code of a file are those that it prints.
fn target<'a>(
    view: &ElfView<'a>,
    strings: &'a [u8],
    symbol: &Symbol,
) -> Result<(&'a [u8], u64), FileFault> {
    let name = string_in(strings, symbol.st_name).ok_or(FileFault::BadString)?;
    if !name.is_empty() {
        return Ok((name, 0));
    }
    match section_at(view, symbol.st_shndx) {
        Some(header) => Ok((section_name(view, &header), symbol.st_value)),
        None => Ok((b"", symbol.st_value)),
    }
}

/// Adds the line of a relocation.
pub(crate) fn put_relocation(
    text: &mut Vec<u8>,
    relocation: &Relocation<'_>,
) -> Result<(), AllocError> {
    let name = kind_name(relocation.kind);
    let distance = relocation.addend.wrapping_add_unsigned(relocation.offset);
    put_columns(
        text,
        &[
            Text(b"\t\t\t"),
            Hexadecimal(relocation.place, 0),
            Text(if name.is_some() { b": R_RISCV_" } else { b": " }),
            match name {
                Some(name) => Text(name),
                None => Decimal(u64::from(relocation.kind), 0),
            },
            Text(b"\t"),
            Name(relocation.name, 0),
        ],
    )?;
    if distance == 0 {
        return put(text, b"\n");
    }
    put_columns(
        text,
        &[
            Text(if distance < 0 { b"-0x" } else { b"+0x" }),
            Hexadecimal(distance.unsigned_abs(), 0),
            Text(b"\n"),
        ],
    )
}
