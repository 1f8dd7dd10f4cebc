//! The lines of a file's relocations.

use crate::columns::Column::{Decimal, Hexadecimal, Left, Name, Padded, Text};
use crate::columns::{put, put_columns};
use crate::parts::{bytes_of, count_relas, rela_at, section_at, section_named, symbol_at};
use crate::relocation_name::kind_name;
use crate::section_lines::section_name;
use crate::symbol_lines::symbol_name;
use rv_elf::{ElfView, SHT_RELA};
use rv_elf_laws::{Rela, SectionHeader};
use rv_fault::FileFault;
use std::alloc::AllocError;

const HEADING: &[u8] = b"    Offset             Info             Type               \
Symbol's Value  Symbol's Name + Addend
";

/// The symbols that relocations name, and their names.
#[derive(Clone, Copy, Drop)]
struct Symbols<'a> {
    table: &'a [u8],
    strings: &'a [u8],
}

const NO_SYMBOLS: Symbols<'static> = Symbols {
    table: b"",
    strings: b"",
};

/// How far the lines of the relocations are.
#[derive(Drop)]
pub(crate) struct RelocationLines<'a> {
    /// The index of the section after the one whose lines are added.
    section: u16,
    /// That one's relocations, and the index of the next of them.
    relas: &'a [u8],
    index: usize,
    symbols: Symbols<'a>,
    /// Whether a section of relocations, or that there is none, was told.
    any: bool,
}

impl<'a> RelocationLines<'a> {
    /// At their beginning.
    pub(crate) fn new() -> RelocationLines<'a> {
        RelocationLines {
            section: 0,
            relas: b"",
            index: 0,
            symbols: NO_SYMBOLS,
            any: false,
        }
    }

    /// Adds the line of the next relocation, or the lines above those of the next section; false where none is left.
    pub(crate) fn next(
        &mut self,
        text: &mut Vec<u8>,
        view: &ElfView<'a>,
    ) -> Result<bool, AllocError> {
        if let Some(rela) = rela_at(self.relas, self.index) {
            put_relocation(text, view, &self.symbols, &rela)?;
            self.index = self.index.saturating_add(1);
            return Ok(true);
        }
        if let Some(header) = self.next_section(view) {
            put_heading(text, view, &header, count_relas(self.relas))?;
            return Ok(true);
        }
        if self.any {
            return Ok(false);
        }
        self.any = true;
        put(text, b"\nThere are no relocations in this file.\n")?;
        Ok(true)
    }

    /// Goes on to the next section of relocations; its header, if there is one.
    fn next_section(&mut self, view: &ElfView<'a>) -> Option<SectionHeader> {
        for index in self.section..view.header().e_shnum {
            self.section = index.saturating_add(1);
            if let Some(header) = section_at(view, index) {
                if has_relocations(&header) {
                    self.relas = bytes_of(view, &header).unwrap_or(b"");
                    self.symbols = symbols_of(view, &header).unwrap_or(NO_SYMBOLS);
                    self.index = 0;
                    self.any = true;
                    return Some(header);
                }
            }
        }
        None
    }
}

/// Finds the first fault of the relocations, after which their lines have none.
pub(crate) fn check_relocations(view: &ElfView<'_>) -> Result<(), FileFault> {
    for index in 0..view.header().e_shnum {
        let header = section_at(view, index).ok_or(FileFault::BadIndex)?;
        if has_relocations(&header) {
            check_section(view, &header)?;
        }
    }
    Ok(())
}

/// Finds the first fault of a section of relocations.
fn check_section(view: &ElfView<'_>, header: &SectionHeader) -> Result<(), FileFault> {
    let bytes = bytes_of(view, header)?;
    let symbols = symbols_of(view, header)?;
    for index in 0..count_relas(bytes) {
        let rela = rela_at(bytes, index).ok_or(FileFault::Truncated)?;
        if rela.r_sym != 0 {
            target_of(view, &symbols, rela.r_sym)?;
        }
    }
    Ok(())
}

/// Whether a section has relocations.
fn has_relocations(header: &SectionHeader) -> bool {
    header.sh_type == SHT_RELA && header.sh_size != 0
}

/// The symbols of a section of relocations.
fn symbols_of<'a>(view: &ElfView<'a>, header: &SectionHeader) -> Result<Symbols<'a>, FileFault> {
    let table = section_named(view, header.sh_link)?;
    let strings = section_named(view, table.sh_link)?;
    Ok(Symbols {
        table: bytes_of(view, &table)?,
        strings: bytes_of(view, &strings)?,
    })
}

/// Adds the lines above the relocations of a section.
fn put_heading(
    text: &mut Vec<u8>,
    view: &ElfView<'_>,
    header: &SectionHeader,
    count: usize,
) -> Result<(), AllocError> {
    put_columns(
        text,
        &[
            Text(b"\nRelocation section '"),
            Name(section_name(view, header), 0),
            Text(b"' at offset 0x"),
            Hexadecimal(header.sh_offset, 0),
            Text(b" contains "),
            Decimal(count as u64, 0),
            Text(if count == 1 {
                b" entry:\n"
            } else {
                b" entries:\n"
            }),
            Text(HEADING),
        ],
    )
}

/// Adds the line of a relocation.
fn put_relocation<'a>(
    text: &mut Vec<u8>,
    view: &ElfView<'a>,
    symbols: &Symbols<'a>,
    rela: &Rela,
) -> Result<(), AllocError> {
    put_columns(
        text,
        &[
            Padded(rela.r_offset, 16),
            Text(b"  "),
            Padded(u64::from(rela.r_sym), 8),
            Padded(u64::from(rela.r_type), 8),
            Text(b" "),
        ],
    )?;
    put_kind(text, rela.r_type)?;
    if rela.r_sym == 0 {
        put_columns(text, &[Left(b"", 20)])?;
        return put_addend(text, b"", b"-", rela.r_addend);
    }
    put_target(text, view, symbols, rela.r_sym)?;
    put_addend(text, b" + ", b" - ", rela.r_addend)
}

/// Adds the kind of a relocation.
fn put_kind(text: &mut Vec<u8>, kind: u32) -> Result<(), AllocError> {
    match kind_name(kind) {
        Some(name) => put_columns(text, &[Text(b"R_RISCV_"), Left(name, 14)]),
        None => put_columns(
            text,
            &[
                Text(b"unrecognized: "),
                Hexadecimal(u64::from(kind), 0),
                Text(b" "),
            ],
        ),
    }
}

/// Adds the value and the name of a symbol.
fn put_target<'a>(
    text: &mut Vec<u8>,
    view: &ElfView<'a>,
    symbols: &Symbols<'a>,
    index: u32,
) -> Result<(), AllocError> {
    let (value, name) = target_of(view, symbols, index).unwrap_or((0, b""));
    let shown: &[u8] = if name.is_empty() { b"<null>" } else { name };
    put_columns(
        text,
        &[Text(b" "), Padded(value, 16), Text(b" "), Name(shown, 0)],
    )
}

/// The value and the name of a symbol.
fn target_of<'a>(
    view: &ElfView<'a>,
    symbols: &Symbols<'a>,
    index: u32,
) -> Result<(u64, &'a [u8]), FileFault> {
    let symbol = symbol_at(symbols.table, index as usize).ok_or(FileFault::BadIndex)?;
    let name = symbol_name(view, symbols.strings, &symbol)?;
    Ok((symbol.st_value, name))
}

/// Adds the number that is added, after the one sign or the other, and ends the line.
fn put_addend(
    text: &mut Vec<u8>,
    plus: &[u8],
    minus: &[u8],
    number: i64,
) -> Result<(), AllocError> {
    put_columns(
        text,
        &[
            Text(if number < 0 { minus } else { plus }),
            Hexadecimal(number.unsigned_abs(), 0),
            Text(b"\n"),
        ],
    )
}
