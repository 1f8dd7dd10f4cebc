//! The numbers in the fields of records, the lowest byte first.

ghost use Rattle.std.specs.Prelude.{◌≡◌, ◌+◌, ◌<◌, ◌≤◌, length};
ghost use Rattle.std.specs.Int.{cast_signed, w64};
ghost use Rattle.rv_elf_laws.specs.Fields.{field, number_in};

use byteorder::{ByteOrder, LittleEndian};

/// The byte at an offset in the record at a place.
#[tactic(auto, unfolding(rv_elf_laws::specs::Fields::number_in))]
pub(crate) fn byte(bytes: &[u8], place: usize, offset: usize) -> u8
    requires { place + offset < length bytes.now }
    ensures { result ≡ number_in (field offset 1) place bytes.now }
{
    bytes[place + offset]
}

/// The two bytes at an offset in the record at a place.
#[tactic(auto, unfolding(rv_elf_laws::specs::Fields::number_in))]
pub(crate) fn half(bytes: &[u8], place: usize, offset: usize) -> u16
    requires { place + offset + 2 ≤ length bytes.now }
    ensures { result ≡ number_in (field offset 2) place bytes.now }
{
    LittleEndian::read_u16(&bytes[place + offset..])
}

/// The four bytes at an offset in the record at a place.
#[tactic(auto, unfolding(rv_elf_laws::specs::Fields::number_in))]
pub(crate) fn word(bytes: &[u8], place: usize, offset: usize) -> u32
    requires { place + offset + 4 ≤ length bytes.now }
    ensures { result ≡ number_in (field offset 4) place bytes.now }
{
    LittleEndian::read_u32(&bytes[place + offset..])
}

/// The eight bytes at an offset in the record at a place.
#[tactic(auto, unfolding(rv_elf_laws::specs::Fields::number_in))]
pub(crate) fn double(bytes: &[u8], place: usize, offset: usize) -> u64
    requires { place + offset + 8 ≤ length bytes.now }
    ensures { result ≡ number_in (field offset 8) place bytes.now }
{
    LittleEndian::read_u64(&bytes[place + offset..])
}

/// The eight bytes at an offset in the record at a place, as two's complement.
pub(crate) fn signed_double(bytes: &[u8], place: usize, offset: usize) -> i64
    requires { place + offset + 8 ≤ length bytes.now }
    ensures { result ≡ cast_signed w64 (number_in (field offset 8) place bytes.now) }
{
    double(bytes, place, offset).cast_signed()
}
