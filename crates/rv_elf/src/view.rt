//! A file, as its records.

ghost use Rattle.std.specs.Prelude.{◌≡◌, ◌+◌, ◌*◌, ◌<◌, ◌≤◌, None, Some, length, IfOk, MatchOption};
ghost use Rattle.rv_elf_laws.specs.Fields.{file_header_size, program_header_size, symbol_size, rela_size, number_in, e_phoff};
ghost use Rattle.rv_elf_laws.specs.FirstFault.{Finds, open_tests};
ghost use Rattle.rv_elf_laws.specs.Numbers.{shn_loreserve};
ghost use Rattle.rv_elf_laws.specs.Records.{file_header_in, program_header_at, symbol_at, rela_at};
ghost use Rattle.rv_elf_laws.specs.Sections.{HasPrograms, HasSections, program_count, section_count, section_header_of, indexed_contents, file_contents, string_at};

use crate::checks::{check_tables, file_type, lies_past};
use crate::fields::double;
use crate::file_header::read_file_header;
use crate::index::{SectionIndex, SymbolIndex};
use crate::numbers::SHT_NOBITS;
use crate::offsets::{E_PHOFF, E_SHOFF};
use crate::program_header::{PROGRAM_HEADER_SIZE, read_program_header};
use crate::rela::rela_in;
use crate::section_header::{SECTION_HEADER_SIZE, read_section_header};
use crate::string::string_in;
use crate::symbol::symbol_in;
use rv_elf_laws::{FileHeader, ProgramHeader, Rela, SectionHeader, Symbol};
use rv_fault::FileFault;

/// A file of this machine whose header and tables are good.
#[derive(Clone, Copy, Drop)]
pub struct ElfView<'a> {
    file: &'a [u8],
    ghost header: { file_header_size ≤ length file.now },
    ghost programs: { HasPrograms file.now },
    ghost sections: { HasSections file.now },
    ghost few: { section_count file.now < shn_loreserve },
}

impl<'a> ElfView<'a> {
    /// The file of these bytes, or the first fault of its header and tables.
    #[tactic(auto, using(rv_elf_laws::specs::FirstTrue::first_true_some, rv_elf_laws::specs::FirstTrue::first_true_none))]
    pub fn open(file: &'a [u8]) -> Result<ElfView<'a>, FileFault>
        ensures faults { Finds (open_tests file.now) result }
        ensures file { IfOk result (λ view. view.file.now ≡ file.now) }
    {
        file_type(file)?;
        check_tables(file)?;
        Ok(ElfView { file })
    }

    /// Its bytes.
    pub fn file(&self) -> &'a [u8]
        ensures { result.now ≡ self.now.file.now }
    {
        self.file
    }

    /// Its header.
    pub fn header(&self) -> FileHeader
        ensures { result ≡ file_header_in self.now.file.now }
    {
        read_file_header(self.file)
    }

    /// The program header of this index, from 0.
    pub fn program(&self, index: u16) -> ProgramHeader
        requires { index < program_count self.now.file.now }
        ensures { result ≡ program_header_at
            (number_in e_phoff 0 self.now.file.now + program_header_size * index)
            self.now.file.now }
    {
        let table = double(self.file, 0, E_PHOFF) as usize;
        read_program_header(self.file, table + PROGRAM_HEADER_SIZE * index as usize)
    }

    /// The header of a section.
    pub fn section_header(&self, index: SectionIndex) -> SectionHeader
        requires { index.0 < section_count self.now.file.now }
        ensures { result ≡ section_header_of self.now.file.now index.0 }
    {
        let table = double(self.file, 0, E_SHOFF) as usize;
        read_section_header(self.file, table + SECTION_HEADER_SIZE * index.0 as usize)
    }

    /// The bytes that the file has of a section with this header: none of one of zeros (`SHT_NOBITS`), and none
    /// where the contents do not lie in the file.
    pub fn contents(&self, header: &SectionHeader) -> &'a [u8]
        ensures { result.now ≡ file_contents self.now.file.now header.now }
    {
        let no_bytes = header.sh_type == SHT_NOBITS || header.sh_size == 0;
        if no_bytes || lies_past(self.file, header.sh_offset, header.sh_size) {
            return &[];
        }
        let start = header.sh_offset as usize;
        &self.file[start..start + header.sh_size as usize]
    }

    /// The bytes that the file has of a section, as `contents` of its header.
    pub fn section(&self, index: SectionIndex) -> &'a [u8]
        requires { index.0 < section_count self.now.file.now }
        ensures { result.now ≡ indexed_contents self.now.file.now index.0 }
    {
        self.contents(&self.section_header(index))
    }

    /// The string at an offset of a section, up to the first zero byte; `None` where no zero byte stands from there on.
    pub fn name(&self, section: SectionIndex, offset: u32) -> Option<&'a [u8]>
        requires { section.0 < section_count self.now.file.now }
        ensures { MatchOption result
            (string_at (indexed_contents self.now.file.now section.0) offset ≡ None)
            (λ name. string_at (indexed_contents self.now.file.now section.0) offset
            ≡ Some name.now) }
    {
        string_in(self.section(section), offset)
    }

    /// The symbol of this index in a section.
    pub fn symbol(&self, section: SectionIndex, index: SymbolIndex) -> Symbol
        requires section { section.0 < section_count self.now.file.now }
        requires inside { symbol_size * index.0 + symbol_size
            ≤ length (indexed_contents self.now.file.now section.0) }
        ensures { result ≡ symbol_at (symbol_size * index.0)
            (indexed_contents self.now.file.now section.0) }
    {
        symbol_in(self.section(section), index)
    }

    /// The relocation of this index, from 0, in a section.
    pub fn rela(&self, section: SectionIndex, index: u32) -> Rela
        requires section { section.0 < section_count self.now.file.now }
        requires inside { rela_size * index + rela_size
            ≤ length (indexed_contents self.now.file.now section.0) }
        ensures { result ≡ rela_at (rela_size * index)
            (indexed_contents self.now.file.now section.0) }
    {
        rela_in(self.section(section), index)
    }
}
