//! Program headers.

ghost use Rattle.std.specs.Prelude.{◌≡◌, ◌+◌, ◌≤◌, length};
ghost use Rattle.rv_elf_laws.specs.Fields.{program_header_size};
ghost use Rattle.rv_elf_laws.specs.Records.{program_header_at, program_header_bytes};

use crate::fields::{double, word};
use crate::offsets::{P_ALIGN, P_FILESZ, P_FLAGS, P_MEMSZ, P_OFFSET, P_PADDR, P_TYPE, P_VADDR};
use byteorder::{ByteOrder, LittleEndian};
use rv_elf_laws::ProgramHeader;

/// The bytes of a program header.
pub const PROGRAM_HEADER_SIZE: usize = 56;

/// The program header at a place.
pub(crate) fn read_program_header(file: &[u8], place: usize) -> ProgramHeader
    requires { place + program_header_size ≤ length file.now }
    ensures { result ≡ program_header_at place file.now }
{
    ProgramHeader {
        p_type: word(file, place, P_TYPE),
        p_flags: word(file, place, P_FLAGS),
        p_offset: double(file, place, P_OFFSET),
        p_vaddr: double(file, place, P_VADDR),
        p_paddr: double(file, place, P_PADDR),
        p_filesz: double(file, place, P_FILESZ),
        p_memsz: double(file, place, P_MEMSZ),
        p_align: double(file, place, P_ALIGN),
    }
}

/// The bytes that a program header has in a file.
#[tactic(auto, unfolding(rv_elf_laws::specs::Records::program_header_bytes))]
pub(crate) fn bytes_of_program_header(header: &ProgramHeader) -> [u8; PROGRAM_HEADER_SIZE]
    ensures { result ≡ program_header_bytes header.now }
{
    let mut bytes = [0; PROGRAM_HEADER_SIZE];
    LittleEndian::write_u32(&mut bytes[P_TYPE..], header.p_type);
    LittleEndian::write_u32(&mut bytes[P_FLAGS..], header.p_flags);
    LittleEndian::write_u64(&mut bytes[P_OFFSET..], header.p_offset);
    LittleEndian::write_u64(&mut bytes[P_VADDR..], header.p_vaddr);
    LittleEndian::write_u64(&mut bytes[P_PADDR..], header.p_paddr);
    LittleEndian::write_u64(&mut bytes[P_FILESZ..], header.p_filesz);
    LittleEndian::write_u64(&mut bytes[P_MEMSZ..], header.p_memsz);
    LittleEndian::write_u64(&mut bytes[P_ALIGN..], header.p_align);
    bytes
}
