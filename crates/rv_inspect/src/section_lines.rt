//! The lines of a file's sections.

use crate::columns::Column::{Decimal, Hexadecimal, Left, Name, Padded, Text};
use crate::columns::{put, put_columns};
use crate::parts::section_at;
use rv_elf::{
    ElfView, SHT_GROUP, SHT_NOBITS, SHT_NOTE, SHT_NULL, SHT_PROGBITS, SHT_RELA, SHT_STRTAB,
    SHT_SYMTAB, SectionIndex,
};
use rv_elf_laws::SectionHeader;
use std::alloc::AllocError;

const HEADING: &[u8] = b"
Section Headers:
  [Nr] Name              Type            Address          Off    Size   ES Flg Lk Inf Al
";

const KEY: &[u8] = b"Key to Flags:
  W (write), A (alloc), X (execute), M (merge), S (strings), I (info),
  L (link order), O (extra OS processing required), G (group), T (TLS),
  C (compressed), x (unknown), o (OS specific), E (exclude),
  D (mbind), p (processor specific)
";

/// The letters of the flags, from the lowest bit up (gABI, "Sections"): `x` has no meaning.
const FLAGS: &[u8] = b"WAXxMSILOGTCxxxxxxxxoooooooopppE";

/// How far the lines of the sections are.
#[derive(Drop)]
pub(crate) struct SectionLines {
    has_heading: bool,
    /// The index of the next section.
    index: u16,
    has_key: bool,
}

impl SectionLines {
    /// At their beginning.
    pub(crate) fn new() -> SectionLines {
        SectionLines {
            has_heading: false,
            index: 0,
            has_key: false,
        }
    }

    /// Adds the heading, the line of the next section, or the key; false where none is left.
    pub(crate) fn next(
        &mut self,
        text: &mut Vec<u8>,
        view: &ElfView<'_>,
    ) -> Result<bool, AllocError> {
        if !self.has_heading {
            self.has_heading = true;
            put_heading(text, view)?;
            return Ok(true);
        }
        if let Some(header) = section_at(view, self.index) {
            put_section(text, view, self.index, &header)?;
            self.index = self.index.saturating_add(1);
            return Ok(true);
        }
        if self.has_key || view.header().e_shnum == 0 {
            return Ok(false);
        }
        self.has_key = true;
        put(text, KEY)?;
        Ok(true)
    }
}

/// Adds the lines above the sections.
fn put_heading(text: &mut Vec<u8>, view: &ElfView<'_>) -> Result<(), AllocError> {
    if view.header().e_shnum == 0 {
        return put(text, b"\nThere are no sections in this file.\n");
    }
    put(text, HEADING)
}

/// The name of a section; none where the file has no names of sections, or no name there.
pub fn section_name<'a>(view: &ElfView<'a>, header: &SectionHeader) -> &'a [u8] {
    let names = view.header().e_shstrndx;
    if names >= view.header().e_shnum {
        return b"";
    }
    view.name(SectionIndex(names), header.sh_name)
        .unwrap_or(b"")
}

/// Adds the line of a section.
fn put_section(
    text: &mut Vec<u8>,
    view: &ElfView<'_>,
    index: u16,
    header: &SectionHeader,
) -> Result<(), AllocError> {
    put_columns(
        text,
        &[
            Text(b"  ["),
            Decimal(u64::from(index), 2),
            Text(b"] "),
            Name(section_name(view, header), 17),
            Text(b" "),
        ],
    )?;
    put_type(text, header.sh_type)?;
    put_columns(
        text,
        &[
            Text(b" "),
            Padded(header.sh_addr, 16),
            Text(b" "),
            Padded(header.sh_offset, 6),
            Text(b" "),
            Padded(header.sh_size, 6),
            Text(b" "),
            Padded(header.sh_entsize, 2),
            Text(b" "),
        ],
    )?;
    put_flags(text, header.sh_flags)?;
    put_columns(
        text,
        &[
            Text(b" "),
            Decimal(u64::from(header.sh_link), 2),
            Text(b" "),
            Decimal(u64::from(header.sh_info), 3),
            Text(b" "),
            Decimal(header.sh_addralign, 2),
            Text(b"\n"),
        ],
    )
}

/// Adds the letters of the flags.
fn put_flags(text: &mut Vec<u8>, flags: u64) -> Result<(), AllocError> {
    let count = (flags & u64::from(u32::MAX)).count_ones() as usize;
    put_columns(text, &[Left(b"", 3usize.saturating_sub(count))])?;
    let mut left = flags;
    for letter in FLAGS {
        if left % 2 == 1 {
            text.push(*letter)?;
        }
        left /= 2;
    }
    Ok(())
}

/// Adds the type of a section.
fn put_type(text: &mut Vec<u8>, kind: u32) -> Result<(), AllocError> {
    match type_name(kind) {
        Some(name) => put_columns(text, &[Left(name, 15)]),
        None => put_other_type(text, kind),
    }
}

/// The name of a type of sections (gABI, "Sections"; psABI, "Section Types").
fn type_name(kind: u32) -> Option<&'static [u8]> {
    Some(match kind {
        SHT_NULL => b"NULL",
        SHT_PROGBITS => b"PROGBITS",
        SHT_SYMTAB => b"SYMTAB",
        SHT_STRTAB => b"STRTAB",
        SHT_RELA => b"RELA",
        5 => b"HASH",
        6 => b"DYNAMIC",
        SHT_NOTE => b"NOTE",
        SHT_NOBITS => b"NOBITS",
        9 => b"REL",
        11 => b"DYNSYM",
        14 => b"INIT_ARRAY",
        15 => b"FINI_ARRAY",
        16 => b"PREINIT_ARRAY",
        SHT_GROUP => b"GROUP",
        0x7000_0003 => b"RISCV_ATTRIBUTES",
        _ => return None,
    })
}

/// Adds a type that has no name, by the range that it lies in.
fn put_other_type(text: &mut Vec<u8>, kind: u32) -> Result<(), AllocError> {
    let number = u64::from(kind);
    if number >= 0x8000_0000 {
        put_offset(text, b"LOUSER+0x", number - 0x8000_0000)
    } else if number >= 0x7000_0000 {
        put_offset(text, b"LOPROC+0x", number - 0x7000_0000)
    } else if number >= 0x6000_0000 {
        put_offset(text, b"LOOS+0x", number - 0x6000_0000)
    } else {
        put_columns(text, &[Padded(number, 8), Text(b": <unknown>")])
    }
}

/// Adds the name of a range and a number, filled with blanks to the column's width.
fn put_offset(text: &mut Vec<u8>, range: &[u8], number: u64) -> Result<(), AllocError> {
    let start = text.len();
    put_columns(text, &[Text(range), Hexadecimal(number, 0)])?;
    let length = text.len().saturating_sub(start);
    put_columns(text, &[Left(b"", 15usize.saturating_sub(length))])
}
