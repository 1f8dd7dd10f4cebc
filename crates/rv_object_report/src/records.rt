//! The section and the record for which an object's file is refused: F1, F5 to F7, F9 and F10.
//!
//! They are looked for in the order in which a file is examined: section by section, a header before its records.

ghost use Rattle.std.specs.Prelude.{◌<◌};

use crate::indexes::{past_end, wrong_index, wrong_name};
use crate::tables::{is_rows, row_at, symbol_named};
use rv_elf::{
    ElfView, RELA_SIZE, SHF_ALLOC, SHF_EXECINSTR, SHT_GROUP, SHT_NOBITS, SHT_NOTE, SHT_PROGBITS,
    SHT_RELA, SHT_SYMTAB, SYMBOL_SIZE,
};
use rv_elf_laws::{Rela, SectionHeader};
use rv_fault::FileFault;
use rv_fault_texts::put_bytes;
use rv_inspect::{
    bytes_of, count_relas, kind_name, rela_at, section_at, section_name, section_named,
};
use rv_isa::Kind;
use rv_object_reader::{ROW_SIZE, kind_numbered};
use std::alloc::{AllocError, Global};

/// The largest alignment of a section.
const LARGEST_ALIGNMENT: u64 = 4096;
/// The most bytes of a padding.
const LONGEST_PADDING: i64 = 4094;

/// What is wrong in a section.
#[derive(Clone, Copy, Drop)]
pub(crate) struct Wrong {
    /// The index of the section.
    pub section: u16,
    /// The index of its record, from 0; none where its header is wrong.
    pub record: Option<usize>,
    pub what: &'static str,
}

impl Wrong {
    /// Of a section's header.
    pub(crate) fn of_section(section: u16, what: &'static str) -> Wrong {
        Wrong {
            section,
            record: None,
            what,
        }
    }
}

/// Adds which section and which record of a file have a fault, and why, where that is known.
pub(crate) fn put_record(
    alloc: Global,
    file: &[u8],
    fault: &FileFault,
    sentence: &mut String,
) -> Result<(), AllocError> {
    let Ok(view) = ElfView::open(file) else {
        return sentence.push_str(table_words(fault));
    };
    for section in 0..view.header().e_shnum {
        let Some(header) = section_at(&view, section) else {
            return Ok(());
        };
        if let Some(wrong) = wrong_in(&view, section, &header, fault) {
            put_wrong(alloc, &view, &header, &wrong, sentence)?;
            return put_kind(alloc, &view, &header, &wrong, fault, sentence);
        }
    }
    Ok(())
}

/// What is said of a file whose tables of headers have a fault.
fn table_words(fault: &FileFault) -> &'static str {
    match fault {
        FileFault::Truncated => "its tables of headers pass its end",
        FileFault::BadTable => "the sizes or counts of its tables of headers are none that ELF has",
        _ => "",
    }
}

/// What in a section has a fault.
fn wrong_in(
    view: &ElfView<'_>,
    section: u16,
    header: &SectionHeader,
    fault: &FileFault,
) -> Option<Wrong> {
    match fault {
        FileFault::UnsupportedRelocation(kind) => relocation_of_kind(view, section, header, *kind),
        FileFault::UnsupportedSection(kind) if is_left_out(header, *kind) => {
            Some(Wrong::of_section(
                section,
                "has a type that is left out: compile without constructors and groups",
            ))
        }
        FileFault::BadTable => match wrong_header(view, section, header) {
            Some(what) => Some(Wrong::of_section(section, what)),
            None => wrong_record(view, section, header),
        },
        FileFault::Truncated => Some(Wrong::of_section(section, past_end(view, header)?)),
        FileFault::BadString => wrong_name(view, section, header),
        FileFault::BadIndex => wrong_index(view, section, header),
        _ => None,
    }
}

/// Whether a section has this type, and that is left out.
fn is_left_out(header: &SectionHeader, kind: u32) -> bool {
    let is_known = kind == SHT_PROGBITS || kind == SHT_NOBITS || kind == SHT_NOTE;
    let is_loaded = header.sh_flags & SHF_ALLOC != 0;
    header.sh_type == kind && (kind == SHT_GROUP || is_loaded && !is_known)
}

/// The first relocation of a kind in a section that has those of a loaded one.
fn relocation_of_kind(
    view: &ElfView<'_>,
    section: u16,
    header: &SectionHeader,
    kind: u32,
) -> Option<Wrong> {
    target_of(view, header)?;
    let bytes = bytes_of(view, header).ok()?;
    for record in 0..count_relas(bytes) {
        if rela_at(bytes, record)?.r_type == kind {
            return Some(Wrong {
                section,
                record: Some(record),
                what: "is of a kind that is left out: compile without -fPIC and thread-local storage",
            });
        }
    }
    None
}

/// The loaded section that relocations change.
fn target_of(view: &ElfView<'_>, header: &SectionHeader) -> Option<SectionHeader> {
    if header.sh_type != SHT_RELA {
        return None;
    }
    let target = section_named(view, header.sh_info).ok()?;
    if target.sh_flags & SHF_ALLOC == 0 {
        return None;
    }
    Some(target)
}

/// What is wrong with the header of a section.
fn wrong_header(view: &ElfView<'_>, section: u16, header: &SectionHeader) -> Option<&'static str> {
    if is_rows(view, header) && has_before(view, section, true) {
        return Some("is a second table of rows");
    }
    if header.sh_type == SHT_SYMTAB && has_before(view, section, false) {
        return Some("is a second table of symbols");
    }
    wrong_size(view, header)
}

/// What is wrong with the size of a section or with its alignment.
fn wrong_size(view: &ElfView<'_>, header: &SectionHeader) -> Option<&'static str> {
    if header.sh_size % record_size(view, header) != 0 {
        return Some("has a size that is no multiple of its records'");
    }
    if header.sh_addralign & header.sh_addralign.wrapping_sub(1) != 0 {
        return Some("has an alignment that is no power of two");
    }
    if LARGEST_ALIGNMENT < header.sh_addralign {
        return Some("has an alignment above 4096");
    }
    if header.sh_flags & SHF_EXECINSTR != 0 && header.sh_size % 2 != 0 {
        return Some("has code of an odd size");
    }
    None
}

/// Whether a section before another has rows, or else symbols.
fn has_before(view: &ElfView<'_>, section: u16, of_rows: bool) -> bool {
    for index in 0..section {
        match section_at(view, index) {
            Some(header) if of_rows && is_rows(view, &header) => return true,
            Some(header) if !of_rows && header.sh_type == SHT_SYMTAB => return true,
            _ => {}
        }
    }
    false
}

/// The bytes of a record of a section, 1 where it has none.
fn record_size(view: &ElfView<'_>, header: &SectionHeader) -> u64
    ensures { 0 < result }
{
    if header.sh_type == SHT_SYMTAB {
        SYMBOL_SIZE as u64
    } else if header.sh_type == SHT_RELA {
        RELA_SIZE as u64
    } else if is_rows(view, header) {
        ROW_SIZE as u64
    } else {
        1
    }
}

/// The first record of a section that is wrong.
fn wrong_record(view: &ElfView<'_>, section: u16, header: &SectionHeader) -> Option<Wrong> {
    if is_rows(view, header) {
        return wrong_row(view, section, header);
    }
    let target = target_of(view, header)?;
    let bytes = bytes_of(view, header).ok()?;
    for record in 0..count_relas(bytes) {
        if let Some(what) = wrong_relocation(&target, &rela_at(bytes, record)?) {
            return Some(Wrong {
                section,
                record: Some(record),
                what,
            });
        }
    }
    None
}

/// What is wrong with a relocation of a section; that it shares bytes with another is not looked at.
fn wrong_relocation(target: &SectionHeader, rela: &Rela) -> Option<&'static str> {
    let kind = kind_numbered(rela.r_type)?;
    if kind == Kind::Align {
        return wrong_padding(target, rela);
    }
    let width = kind.width() as u64;
    let stop = rela.r_offset.saturating_add(width);
    if width != 0 && (target.sh_size < stop || target.sh_type == SHT_NOBITS) {
        return Some("has a field that is not in the bytes of its section");
    }
    None
}

/// What is wrong with a padding of a section.
fn wrong_padding(target: &SectionHeader, rela: &Rela) -> Option<&'static str> {
    if rela.r_addend < 0 || LONGEST_PADDING < rela.r_addend || rela.r_addend % 2 != 0 {
        return Some("is a padding of an odd count of bytes, or over 4,094");
    }
    if target.sh_flags & SHF_EXECINSTR == 0 {
        return None;
    }
    if rela.r_offset % 2 != 0 {
        return Some("is a padding of code at an odd offset");
    }
    if target.sh_size < rela.r_offset.saturating_add(rela.r_addend.unsigned_abs()) {
        return Some("is a padding that passes the end of its section");
    }
    None
}

/// The first row of a section that is wrong.
fn wrong_row(view: &ElfView<'_>, section: u16, header: &SectionHeader) -> Option<Wrong> {
    let bytes = bytes_of(view, header).ok()?;
    for record in 0..bytes.len() / ROW_SIZE {
        let row = row_at(bytes, record)?;
        let stop = row.r_offset.saturating_add(u64::from(row.r_bytes));
        let lies = match section_named(view, row.r_section) {
            Ok(home) => home.sh_flags & SHF_ALLOC != 0 && stop <= home.sh_size,
            Err(_) => false,
        };
        if !lies || row.r_reserved != 0 {
            return Some(Wrong {
                section,
                record: Some(record),
                what: "is not in a loaded section: a tool that moves sections leaves the rows wrong, \
and objcopy -R .rv.rows takes them out",
            });
        }
    }
    None
}

/// Adds what is wrong, and where.
fn put_wrong(
    alloc: Global,
    view: &ElfView<'_>,
    header: &SectionHeader,
    wrong: &Wrong,
    sentence: &mut String,
) -> Result<(), AllocError> {
    let section = wrong.section;
    let place = match wrong.record {
        Some(record) => format!(in alloc; "record {record} of section {section} ")?,
        None => format!(in alloc; "section {section} ")?,
    };
    sentence.push_str(place.as_str())?;
    put_section_name(section_name(view, header), sentence)?;
    sentence.push_str(wrong.what)
}

/// Adds the name of a section and a blank, if it has one.
fn put_section_name(name: &[u8], sentence: &mut String) -> Result<(), AllocError> {
    if name.is_empty() {
        return Ok(());
    }
    put_bytes(sentence, name)?;
    sentence.push_str(" ")
}

/// Adds the kind, the place and the symbol of a relocation that is left out.
fn put_kind(
    alloc: Global,
    view: &ElfView<'_>,
    header: &SectionHeader,
    wrong: &Wrong,
    fault: &FileFault,
    sentence: &mut String,
) -> Result<(), AllocError> {
    let (FileFault::UnsupportedRelocation(kind), Some(record)) = (fault, wrong.record) else {
        return Ok(());
    };
    let Some(rela) = rela_at(bytes_of(view, header).unwrap_or(b""), record) else {
        return Ok(());
    };
    put_name(sentence, "; it is ", kind_name(*kind).unwrap_or(b"unknown"))?;
    let offset = rela.r_offset;
    let place = format!(in alloc; " at 0x{offset:x}")?;
    sentence.push_str(place.as_str())?;
    match symbol_named(view, header.sh_link, rela.r_sym) {
        Some(symbol) => put_name(sentence, " of ", symbol.name),
        None => Ok(()),
    }
}

/// Adds a name behind words.
pub(crate) fn put_name(sentence: &mut String, words: &str, name: &[u8]) -> Result<(), AllocError> {
    sentence.push_str(words)?;
    put_bytes(sentence, name)
}
