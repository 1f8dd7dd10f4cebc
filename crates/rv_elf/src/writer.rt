//! Writes a file, record after record.

ghost use Rattle.std.specs.Prelude.{◌≡◌, ◌≤◌, List, ℕ, [], ◌++◌, length, drop, replicate, OnOk, OnErr};
ghost use Rattle.rv_elf_laws.specs.Fields.{file_header_size};
ghost use Rattle.rv_elf_laws.specs.Records.{file_header_bytes, program_header_bytes, section_header_bytes, symbol_bytes, rela_bytes};

use crate::file_header::bytes_of_file_header;
use crate::program_header::bytes_of_program_header;
use crate::rela::bytes_of_rela;
use crate::section_header::bytes_of_section_header;
use crate::symbol::bytes_of_symbol;
use rv_elf_laws::{FileHeader, ProgramHeader, Rela, SectionHeader, Symbol};
use std::alloc::{AllocError, Global};
use std::marker::Model;

/// The bytes of a file so far; clauses see these. A call that is refused leaves them as they are.
#[derive(Drop)]
pub struct ElfWriter {
    bytes: Vec<u8>,
}

impl Model for ElfWriter {
    ghost Value = { List ℕ };

    ghost view = { λ writer. writer.bytes.items };
}

/// Puts bytes over the first ones.
fn put_over(bytes: &mut [u8], by: &[u8])
    requires { length by.now ≤ length bytes.old }
    ensures { bytes.new ≡ by.now ++ drop (length by.now) bytes.old }
{
    bytes[..by.len()].copy_from_slice(by);
}

impl ElfWriter {
    /// A file without bytes.
    pub fn new(alloc: Global) -> Self
        ensures { result ≡ [] }
    {
        ElfWriter {
            bytes: Vec::new(alloc),
        }
    }

    /// Writes the header of the file.
    pub fn header(&mut self, header: &FileHeader) -> Result<(), AllocError>
        ensures ok { OnOk result (self.new ≡ self.old ++ file_header_bytes header.now) }
        ensures err { OnErr result (self.new ≡ self.old) }
    {
        self.raw(&bytes_of_file_header(header))
    }

    /// Writes the header of the file over its first 64 bytes, where it is known only in the end what the header says.
    pub fn set_header(&mut self, header: &FileHeader)
        requires { file_header_size ≤ length self.old }
        ensures { self.new ≡ file_header_bytes header.now ++ drop file_header_size self.old }
    {
        put_over(&mut self.bytes, &bytes_of_file_header(header));
    }

    /// Writes a program header.
    pub fn program(&mut self, header: &ProgramHeader) -> Result<(), AllocError>
        ensures ok { OnOk result (self.new ≡ self.old ++ program_header_bytes header.now) }
        ensures err { OnErr result (self.new ≡ self.old) }
    {
        self.raw(&bytes_of_program_header(header))
    }

    /// Writes a section header.
    pub fn section_header(&mut self, header: &SectionHeader) -> Result<(), AllocError>
        ensures ok { OnOk result (self.new ≡ self.old ++ section_header_bytes header.now) }
        ensures err { OnErr result (self.new ≡ self.old) }
    {
        self.raw(&bytes_of_section_header(header))
    }

    /// Writes a symbol.
    pub fn symbol(&mut self, symbol: &Symbol) -> Result<(), AllocError>
        ensures ok { OnOk result (self.new ≡ self.old ++ symbol_bytes symbol.now) }
        ensures err { OnErr result (self.new ≡ self.old) }
    {
        self.raw(&bytes_of_symbol(symbol))
    }

    /// Writes a relocation.
    pub fn rela(&mut self, rela: &Rela) -> Result<(), AllocError>
        ensures ok { OnOk result (self.new ≡ self.old ++ rela_bytes rela.now) }
        ensures err { OnErr result (self.new ≡ self.old) }
    {
        self.raw(&bytes_of_rela(rela))
    }

    /// Writes bytes as they are.
    pub fn raw(&mut self, bytes: &[u8]) -> Result<(), AllocError>
        ensures ok { OnOk result (self.new ≡ self.old ++ bytes.now) }
        ensures err { OnErr result (self.new ≡ self.old) }
    {
        self.bytes.extend_from_slice(bytes)
    }

    /// Writes `count` zero bytes.
    pub fn zeros(&mut self, count: usize) -> Result<(), AllocError>
        ensures ok { OnOk result (self.new ≡ self.old ++ replicate count 0) }
        ensures err { OnErr result (self.new ≡ self.old) }
    {
        self.bytes.reserve(count)?;
        let length = self.bytes.len() + count;
        self.bytes.resize(length, 0)
    }

    /// How many bytes there are.
    pub fn len(&self) -> usize
        ensures { result ≡ length self.now }
    {
        self.bytes.len()
    }

    /// The bytes of the file.
    pub fn finish(self) -> Vec<u8>
        ensures { result.items ≡ self }
    {
        self.bytes
    }
}
