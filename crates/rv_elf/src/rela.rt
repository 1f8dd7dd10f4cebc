//! Relocations with addends.

ghost use Rattle.std.specs.Prelude.{◌≡◌, ◌+◌, ◌*◌, ◌≤◌, length};
ghost use Rattle.rv_elf_laws.specs.Fields.{rela_size};
ghost use Rattle.rv_elf_laws.specs.Records.{rela_at, rela_bytes};

use crate::fields::{double, signed_double, word};
use crate::offsets::{R_ADDEND, R_OFFSET, R_SYM, R_TYPE};
use byteorder::{ByteOrder, LittleEndian};
use rv_elf_laws::Rela;

/// The bytes of a relocation.
pub const RELA_SIZE: usize = 24;

/// The bytes that a relocation has in a file.
#[tactic(auto, unfolding(rv_elf_laws::specs::Records::rela_bytes))]
pub(crate) fn bytes_of_rela(rela: &Rela) -> [u8; RELA_SIZE]
    ensures { result ≡ rela_bytes rela.now }
{
    let mut bytes = [0; RELA_SIZE];
    LittleEndian::write_u64(&mut bytes[R_OFFSET..], rela.r_offset);
    LittleEndian::write_u32(&mut bytes[R_TYPE..], rela.r_type);
    LittleEndian::write_u32(&mut bytes[R_SYM..], rela.r_sym);
    LittleEndian::write_i64(&mut bytes[R_ADDEND..], rela.r_addend);
    bytes
}

/// The relocation of this index, from 0, in a section of these bytes.
pub fn rela_in(bytes: &[u8], index: u32) -> Rela
    requires { rela_size * index + rela_size ≤ length bytes.now }
    ensures { result ≡ rela_at (rela_size * index) bytes.now }
{
    let place = RELA_SIZE * index as usize;
    Rela {
        r_offset: double(bytes, place, R_OFFSET),
        r_type: word(bytes, place, R_TYPE),
        r_sym: word(bytes, place, R_SYM),
        r_addend: signed_double(bytes, place, R_ADDEND),
    }
}
