//! The header of a file.

ghost use Rattle.std.specs.Prelude.{◌≡◌, ◌≤◌, length};
ghost use Rattle.rv_elf_laws.specs.Fields.{file_header_size};
ghost use Rattle.rv_elf_laws.specs.Records.{file_header_in, file_header_bytes};

use crate::fields::{double, half, word};
use crate::offsets::{
    E_EHSIZE, E_ENTRY, E_FLAGS, E_MACHINE, E_PHENTSIZE, E_PHNUM, E_PHOFF, E_SHENTSIZE, E_SHNUM,
    E_SHOFF, E_SHSTRNDX, E_TYPE, E_VERSION,
};
use byteorder::{ByteOrder, LittleEndian};
use rv_elf_laws::FileHeader;

/// The bytes of a file's header.
pub const FILE_HEADER_SIZE: usize = 64;

/// The header of these bytes.
pub(crate) fn read_file_header(file: &[u8]) -> FileHeader
    requires { file_header_size ≤ length file.now }
    ensures { result ≡ file_header_in file.now }
{
    FileHeader {
        e_type: half(file, 0, E_TYPE),
        e_machine: half(file, 0, E_MACHINE),
        e_version: word(file, 0, E_VERSION),
        e_entry: double(file, 0, E_ENTRY),
        e_phoff: double(file, 0, E_PHOFF),
        e_shoff: double(file, 0, E_SHOFF),
        e_flags: word(file, 0, E_FLAGS),
        e_ehsize: half(file, 0, E_EHSIZE),
        e_phentsize: half(file, 0, E_PHENTSIZE),
        e_phnum: half(file, 0, E_PHNUM),
        e_shentsize: half(file, 0, E_SHENTSIZE),
        e_shnum: half(file, 0, E_SHNUM),
        e_shstrndx: half(file, 0, E_SHSTRNDX),
    }
}

/// The bytes that a file header has in a file.
#[tactic(auto, unfolding(rv_elf_laws::specs::Records::file_header_bytes))]
pub(crate) fn bytes_of_file_header(header: &FileHeader) -> [u8; FILE_HEADER_SIZE]
    ensures { result ≡ file_header_bytes header.now }
{
    let mut bytes = [0; FILE_HEADER_SIZE];
    bytes[..7].copy_from_slice(b"\x7fELF\x02\x01\x01");
    LittleEndian::write_u16(&mut bytes[E_TYPE..], header.e_type);
    LittleEndian::write_u16(&mut bytes[E_MACHINE..], header.e_machine);
    LittleEndian::write_u32(&mut bytes[E_VERSION..], header.e_version);
    LittleEndian::write_u64(&mut bytes[E_ENTRY..], header.e_entry);
    LittleEndian::write_u64(&mut bytes[E_PHOFF..], header.e_phoff);
    LittleEndian::write_u64(&mut bytes[E_SHOFF..], header.e_shoff);
    LittleEndian::write_u32(&mut bytes[E_FLAGS..], header.e_flags);
    LittleEndian::write_u16(&mut bytes[E_EHSIZE..], header.e_ehsize);
    LittleEndian::write_u16(&mut bytes[E_PHENTSIZE..], header.e_phentsize);
    LittleEndian::write_u16(&mut bytes[E_PHNUM..], header.e_phnum);
    LittleEndian::write_u16(&mut bytes[E_SHENTSIZE..], header.e_shentsize);
    LittleEndian::write_u16(&mut bytes[E_SHNUM..], header.e_shnum);
    LittleEndian::write_u16(&mut bytes[E_SHSTRNDX..], header.e_shstrndx);
    bytes
}
