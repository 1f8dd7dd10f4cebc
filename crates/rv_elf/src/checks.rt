//! What every file of this machine is tested for.

ghost use Rattle.std.specs.Prelude.{◌≡◌, ◌*◌, ◌<◌, ◌≤◌, length, OnOk, IfOk};
ghost use Rattle.rv_elf_laws.specs.Fields.{file_header_size, number_in, e_type};
ghost use Rattle.rv_elf_laws.specs.FirstFault.{Finds, header_tests, table_tests};
ghost use Rattle.rv_elf_laws.specs.Sections.{HasPrograms, HasSections, is_past, section_count};
ghost use Rattle.rv_elf_laws.specs.Numbers.{shn_loreserve};

use crate::fields::{byte, half, word};
use crate::file_header::{FILE_HEADER_SIZE, read_file_header};
use crate::numbers::{
    ELFCLASS64, ELFDATA2LSB, ELFMAG, EM_RISCV, EV_CURRENT, PN_XNUM, SHN_LORESERVE,
};
use crate::offsets::{E_FLAGS, E_MACHINE, E_TYPE, EI_CLASS, EI_DATA, EI_VERSION};
use crate::program_header::PROGRAM_HEADER_SIZE;
use crate::section_header::SECTION_HEADER_SIZE;
use rv_fault::FileFault;

/// The type of a file of this machine (`e_type`), or the first fault of its header.
#[tactic(auto, unfolding(rv_elf_laws::specs::FirstFault::header_tests))]
pub fn file_type(file: &[u8]) -> Result<u16, FileFault>
    ensures faults { Finds (header_tests file.now) result }
    ensures size { OnOk result (file_header_size ≤ length file.now) }
    ensures value { IfOk result (λ kind. kind ≡ number_in e_type 0 file.now) }
{
    if file.len() < FILE_HEADER_SIZE {
        return Err(FileFault::Truncated);
    }
    if word(file, 0, 0) != ELFMAG {
        return Err(FileFault::BadMagic);
    }
    if byte(file, 0, EI_CLASS) != ELFCLASS64
        || byte(file, 0, EI_DATA) != ELFDATA2LSB
        || byte(file, 0, EI_VERSION) as u32 != EV_CURRENT
    {
        return Err(FileFault::WrongClass);
    }
    if half(file, 0, E_MACHINE) != EM_RISCV || word(file, 0, E_FLAGS) / 2 % 8 != 0 {
        return Err(FileFault::WrongMachine);
    }
    Ok(half(file, 0, E_TYPE))
}

/// Looks at the tables of program headers and section headers.
#[tactic(auto, unfolding(rv_elf_laws::specs::FirstFault::table_tests))]
pub(crate) fn check_tables(file: &[u8]) -> Result<(), FileFault>
    requires { file_header_size ≤ length file.now }
    ensures faults { Finds (table_tests file.now) result }
    ensures programs { OnOk result (HasPrograms file.now) }
    ensures sections { OnOk result (HasSections file.now) }
    ensures few { OnOk result (section_count file.now < shn_loreserve) }
{
    let header = read_file_header(file);
    let programs = header.e_phnum;
    let sections = header.e_shnum;
    let names = header.e_shstrndx;
    if sections >= SHN_LORESERVE || programs == PN_XNUM {
        return Err(FileFault::BadTable);
    }
    let program_size = header.e_phentsize as usize;
    let section_size = header.e_shentsize as usize;
    if programs != 0 && program_size != PROGRAM_HEADER_SIZE
        || sections != 0 && section_size != SECTION_HEADER_SIZE
    {
        return Err(FileFault::BadTable);
    }
    if names != 0 && names >= sections {
        return Err(FileFault::BadTable);
    }
    let program_bytes = PROGRAM_HEADER_SIZE as u64 * programs as u64;
    let section_bytes = SECTION_HEADER_SIZE as u64 * sections as u64;
    if lies_past(file, header.e_phoff, program_bytes)
        || lies_past(file, header.e_shoff, section_bytes)
    {
        return Err(FileFault::Truncated);
    }
    Ok(())
}

/// Whether some of the `size` bytes at a place lie past the file's end.
pub fn lies_past(file: &[u8], place: u64, size: u64) -> bool
    ensures { result ≡ is_past file.now place size }
{
    let length = file.len() as u64;
    size != 0 && (place > length || size > length - place)
}
