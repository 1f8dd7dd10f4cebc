//! The letters of symbols, as GNU's `nm` has them: an upper one for what other objects see.

use crate::parts::section_at;
use crate::section_lines::section_name;
use rv_elf::{
    ElfView, SHF_ALLOC, SHF_EXECINSTR, SHF_WRITE, SHN_ABS, SHN_UNDEF, SHT_NOBITS, STB_LOCAL,
    STB_WEAK,
};
use rv_elf_laws::{SectionHeader, Symbol};

/// `st_shndx`: the symbol is to get bytes of its own (gABI, SHN_COMMON).
const SHN_COMMON: u16 = 0xFFF2;
/// The lower half of `st_info`: the symbol is data (gABI, STT_OBJECT).
const STT_OBJECT: u8 = 1;

/// The letter of a symbol.
pub(crate) fn letter_of(view: &ElfView<'_>, symbol: &Symbol) -> u8 {
    let home = symbol.st_shndx;
    if symbol.st_info / 16 == STB_WEAK {
        return weak_letter(symbol);
    }
    if home == SHN_UNDEF {
        return b'U';
    }
    if home == SHN_COMMON {
        return b'C';
    }
    let letter = if home == SHN_ABS {
        b'a'
    } else {
        home_letter(view, home)
    };
    if symbol.st_info / 16 == STB_LOCAL {
        return letter;
    }
    letter.to_ascii_uppercase()
}

/// The letter of a symbol that gives way to a global one.
fn weak_letter(symbol: &Symbol) -> u8 {
    let letter = if symbol.st_info % 16 == STT_OBJECT {
        b'v'
    } else {
        b'w'
    };
    if symbol.st_shndx == SHN_UNDEF {
        return letter;
    }
    letter.to_ascii_uppercase()
}

/// The letter of the section of an index.
fn home_letter(view: &ElfView<'_>, home: u16) -> u8 {
    match section_at(view, home) {
        Some(header) => section_letter(view, &header),
        None => b'?',
    }
}

/// The letter of a section.
fn section_letter(view: &ElfView<'_>, header: &SectionHeader) -> u8 {
    let flags = header.sh_flags;
    if flags & SHF_EXECINSTR != 0 {
        b't'
    } else if header.sh_type == SHT_NOBITS {
        b'b'
    } else if flags & SHF_ALLOC == 0 {
        if section_name(view, header).starts_with(b".debug") {
            b'N'
        } else {
            b'n'
        }
    } else if flags & SHF_WRITE == 0 {
        b'r'
    } else {
        b'd'
    }
}
