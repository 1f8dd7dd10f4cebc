//! Section headers.

ghost use Rattle.std.specs.Prelude.{◌≡◌, ◌+◌, ◌≤◌, length};
ghost use Rattle.rv_elf_laws.specs.Fields.{section_header_size};
ghost use Rattle.rv_elf_laws.specs.Records.{section_header_at, section_header_bytes};

use crate::fields::{double, word};
use crate::offsets::{
    SH_ADDR, SH_ADDRALIGN, SH_ENTSIZE, SH_FLAGS, SH_INFO, SH_LINK, SH_NAME, SH_OFFSET, SH_SIZE,
    SH_TYPE,
};
use byteorder::{ByteOrder, LittleEndian};
use rv_elf_laws::SectionHeader;

/// The bytes of a section header.
pub const SECTION_HEADER_SIZE: usize = 64;

/// The section header at a place.
pub(crate) fn read_section_header(file: &[u8], place: usize) -> SectionHeader
    requires { place + section_header_size ≤ length file.now }
    ensures { result ≡ section_header_at place file.now }
{
    SectionHeader {
        sh_name: word(file, place, SH_NAME),
        sh_type: word(file, place, SH_TYPE),
        sh_flags: double(file, place, SH_FLAGS),
        sh_addr: double(file, place, SH_ADDR),
        sh_offset: double(file, place, SH_OFFSET),
        sh_size: double(file, place, SH_SIZE),
        sh_link: word(file, place, SH_LINK),
        sh_info: word(file, place, SH_INFO),
        sh_addralign: double(file, place, SH_ADDRALIGN),
        sh_entsize: double(file, place, SH_ENTSIZE),
    }
}

/// The bytes that a section header has in a file.
#[tactic(auto, unfolding(rv_elf_laws::specs::Records::section_header_bytes))]
pub(crate) fn bytes_of_section_header(header: &SectionHeader) -> [u8; SECTION_HEADER_SIZE]
    ensures { result ≡ section_header_bytes header.now }
{
    let mut bytes = [0; SECTION_HEADER_SIZE];
    LittleEndian::write_u32(&mut bytes[SH_NAME..], header.sh_name);
    LittleEndian::write_u32(&mut bytes[SH_TYPE..], header.sh_type);
    LittleEndian::write_u64(&mut bytes[SH_FLAGS..], header.sh_flags);
    LittleEndian::write_u64(&mut bytes[SH_ADDR..], header.sh_addr);
    LittleEndian::write_u64(&mut bytes[SH_OFFSET..], header.sh_offset);
    LittleEndian::write_u64(&mut bytes[SH_SIZE..], header.sh_size);
    LittleEndian::write_u32(&mut bytes[SH_LINK..], header.sh_link);
    LittleEndian::write_u32(&mut bytes[SH_INFO..], header.sh_info);
    LittleEndian::write_u64(&mut bytes[SH_ADDRALIGN..], header.sh_addralign);
    LittleEndian::write_u64(&mut bytes[SH_ENTSIZE..], header.sh_entsize);
    bytes
}
