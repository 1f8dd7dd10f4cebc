//! The instructions of executables and objects, in the columns of GNU's `objdump -d -r`.

use crate::code_lines::{Code, Cursor, put_next};
use crate::code_names::{CodeNames, file_names, names_of_map};
use crate::columns::put;
use crate::line_numbers::LineNumbers;
use crate::pairs::Pairs;
use crate::parts::{bytes_of, section_at};
use crate::relocations::relocations_in;
use crate::scope::Scope;
use crate::section_lines::section_name;
use rv_elf::{ET_REL, ElfView, PF_X, PT_LOAD, SHF_EXECINSTR, SHT_NOBITS, lies_past};
use rv_elf_laws::{ProgramHeader, SectionHeader};
use rv_fault::FileFault;
use rv_map::Map;
use std::alloc::{AllocError, Global};

/// How instructions are shown.
#[derive(Clone, Copy, Drop)]
pub struct Style {
    /// By their shortest names (`li`, `ret`, `mv`, `beqz`); else by those of the instruction set, parcels by their `c.`
    /// mnemonics.
    pub aliases: bool,
    /// With the lines of source, where an executable has line tables.
    pub lines: bool,
}

/// A file whose code is shown, and what its lines are made by.
#[derive(Drop)]
pub struct CodeFile<'a> {
    view: ElfView<'a>,
    names: CodeNames<'a>,
    lines: LineNumbers<'a>,
    has_sections: bool,
    aliases: bool,
}

impl<'a> CodeFile<'a> {
    /// That of a file, or its first fault.
    ///
    /// Of an object, and of an executable with sections, all sections of code are shown, with the file's symbols. Where a
    /// map is given, or there are no such sections, all executable segments are, with the names of the map. Data in code
    /// is shown as data where the file's marks (`$d`, `$x`) tell it.
    pub fn of(
        alloc: Global,
        file: &'a [u8],
        map: Option<&'a Map>,
        style: Style,
    ) -> Result<Self, FileFault> {
        let view = ElfView::open(file)?;
        let has_sections = map.is_none() && has_code(&view);
        let names = if has_sections {
            file_names(alloc, &view)?
        } else {
            map_names(alloc, map)?
        };
        check_bytes(&view, has_sections)?;
        let lines = if style.lines && view.header().e_type != ET_REL {
            LineNumbers::of(alloc, file)?
        } else {
            LineNumbers::nothing(alloc)
        };
        Ok(CodeFile {
            view,
            names,
            lines,
            has_sections,
            aliases: style.aliases,
        })
    }

    /// Its lines, below its name.
    pub fn lines<'n>(&'a self, name: &'n str) -> CodeLines<'a, 'n> {
        CodeLines {
            file: self,
            name,
            has_heading: false,
            code: None,
            index: 0,
            cursor: Cursor::new(Pairs::new(self.names.pointer)),
        }
    }

    /// The code of the first section or segment from an index on that is shown, and the index after it.
    fn code_from(&'a self, index: u16) -> Option<(Code<'a>, u16)> {
        if self.has_sections {
            self.section_from(index)
        } else {
            self.segment_from(index)
        }
    }

    fn section_from(&'a self, first: u16) -> Option<(Code<'a>, u16)> {
        for index in first..self.view.header().e_shnum {
            let header = section_at(&self.view, index)?;
            if is_code(&header) {
                return Some((self.section(&header, index), index.saturating_add(1)));
            }
        }
        None
    }

    fn segment_from(&'a self, first: u16) -> Option<(Code<'a>, u16)> {
        for index in first..self.view.header().e_phnum {
            let header = self.view.program(index);
            if is_shown(&header) {
                return Some((self.segment(&header), index.saturating_add(1)));
            }
        }
        None
    }

    /// The code of a section.
    fn section(&'a self, header: &SectionHeader, index: u16) -> Code<'a> {
        let bytes = bytes_of(&self.view, header).unwrap_or(b"");
        let section = u32::from(index);
        Code {
            scope: Scope {
                name: section_name(&self.view, header),
                start: header.sh_addr,
                end: header.sh_addr.saturating_add(bytes.len() as u64),
                is_object: self.view.header().e_type == ET_REL,
                own: self.names.labels.of_section(section),
                all: self.names.labels.all(),
                is_bare: false,
            },
            bytes,
            marks: self.names.marks.of_section(section),
            relocations: relocations_in(&self.names.relocations, section),
            lines: &self.lines,
            aliases: self.aliases,
        }
    }

    /// The code of an executable segment.
    fn segment(&'a self, header: &ProgramHeader) -> Code<'a> {
        let bytes = segment_bytes(&self.view, header).unwrap_or(b"");
        let start = header.p_vaddr;
        let end = start.saturating_add(bytes.len() as u64);
        Code {
            scope: Scope {
                name: b".text",
                start,
                end,
                is_object: false,
                own: self.names.labels.within(start, end),
                all: self.names.labels.all(),
                is_bare: false,
            },
            bytes,
            marks: self.names.marks.of_section(0),
            relocations: &[],
            lines: &self.lines,
            aliases: self.aliases,
        }
    }
}

/// The lines of a file's code, which are made one by one: names that end in one string, or sections that lie over each
/// other, may have lines that are very much longer than their file.
#[derive(Drop)]
pub struct CodeLines<'a, 'n> {
    file: &'a CodeFile<'a>,
    name: &'n str,
    has_heading: bool,
    /// The section or segment whose lines are added, once there is one.
    code: Option<Code<'a>>,
    /// The index after it.
    index: u16,
    cursor: Cursor<'a>,
}

impl CodeLines<'_, '_> {
    /// Adds the next line; false where none is left.
    pub fn next(&mut self, text: &mut Vec<u8>) -> Result<bool, AllocError> {
        if !self.has_heading {
            self.has_heading = true;
            put_heading(text, self.name)?;
            return Ok(true);
        }
        if let Some(code) = &self.code {
            if put_next(text, code, &mut self.cursor)? {
                return Ok(true);
            }
        }
        let Some((code, index)) = self.file.code_from(self.index) else {
            return Ok(false);
        };
        self.index = index;
        self.begin();
        put_next(text, &code, &mut self.cursor)?;
        self.code = Some(code);
        Ok(true)
    }

    /// Goes to the beginning of another section or segment.
    fn begin(&mut self) {
        if self.file.has_sections {
            self.cursor.restart();
        } else {
            self.cursor = Cursor::new(Pairs::new(self.file.names.pointer));
        }
    }
}

/// Adds the lines above the code.
fn put_heading(text: &mut Vec<u8>, name: &str) -> Result<(), AllocError> {
    put(text, b"\n")?;
    put(text, name.as_bytes())?;
    put(text, b":     file format elf64-littleriscv\n\n")
}

/// Whether a section has code.
fn is_code(header: &SectionHeader) -> bool {
    header.sh_flags & SHF_EXECINSTR != 0 && header.sh_type != SHT_NOBITS && header.sh_size != 0
}

/// Whether a file has a section of code.
fn has_code(view: &ElfView<'_>) -> bool {
    for index in 0..view.header().e_shnum {
        if let Some(header) = section_at(view, index) {
            if is_code(&header) {
                return true;
            }
        }
    }
    false
}

/// Whether a segment has code.
fn is_shown(header: &ProgramHeader) -> bool {
    header.p_type == PT_LOAD && header.p_flags & PF_X != 0
}

/// The names of a map, if there is one.
fn map_names<'a>(alloc: Global, map: Option<&'a Map>) -> Result<CodeNames<'a>, AllocError> {
    match map {
        Some(map) => names_of_map(alloc, map),
        None => Ok(CodeNames::new(alloc)),
    }
}

/// Finds the first section or segment of code that does not lie in the file.
fn check_bytes(view: &ElfView<'_>, has_sections: bool) -> Result<(), FileFault> {
    if has_sections {
        check_sections(view)
    } else {
        check_segments(view)
    }
}

fn check_sections(view: &ElfView<'_>) -> Result<(), FileFault> {
    for index in 0..view.header().e_shnum {
        let header = section_at(view, index).ok_or(FileFault::BadIndex)?;
        if is_code(&header) {
            bytes_of(view, &header)?;
        }
    }
    Ok(())
}

fn check_segments(view: &ElfView<'_>) -> Result<(), FileFault> {
    for index in 0..view.header().e_phnum {
        let header = view.program(index);
        if is_shown(&header) {
            segment_bytes(view, &header)?;
        }
    }
    Ok(())
}

/// The bytes of a segment that lie in the file.
fn segment_bytes<'a>(view: &ElfView<'a>, header: &ProgramHeader) -> Result<&'a [u8], FileFault> {
    if lies_past(view.file(), header.p_offset, header.p_filesz) {
        return Err(FileFault::Truncated);
    }
    let rest = view.file().get(header.p_offset as usize..).unwrap_or(b"");
    Ok(rest.get(..header.p_filesz as usize).unwrap_or(rest))
}
