//! Symbols.

ghost use Rattle.std.specs.Prelude.{◌≡◌, ◌+◌, ◌*◌, ◌≤◌, length};
ghost use Rattle.rv_elf_laws.specs.Fields.{symbol_size};
ghost use Rattle.rv_elf_laws.specs.Records.{symbol_at, symbol_bytes};

use crate::fields::{byte, double, half, word};
use crate::index::SymbolIndex;
use crate::offsets::{ST_INFO, ST_NAME, ST_OTHER, ST_SHNDX, ST_SIZE, ST_VALUE};
use byteorder::{ByteOrder, LittleEndian};
use rv_elf_laws::Symbol;

/// The bytes of a symbol.
pub const SYMBOL_SIZE: usize = 24;

/// The bytes that a symbol has in a file.
#[tactic(auto, unfolding(rv_elf_laws::specs::Records::symbol_bytes))]
pub(crate) fn bytes_of_symbol(symbol: &Symbol) -> [u8; SYMBOL_SIZE]
    ensures { result ≡ symbol_bytes symbol.now }
{
    let mut bytes = [0; SYMBOL_SIZE];
    LittleEndian::write_u32(&mut bytes[ST_NAME..], symbol.st_name);
    bytes[ST_INFO..ST_INFO + 1].copy_from_slice(&symbol.st_info.to_le_bytes());
    bytes[ST_OTHER..ST_OTHER + 1].copy_from_slice(&symbol.st_other.to_le_bytes());
    LittleEndian::write_u16(&mut bytes[ST_SHNDX..], symbol.st_shndx);
    LittleEndian::write_u64(&mut bytes[ST_VALUE..], symbol.st_value);
    LittleEndian::write_u64(&mut bytes[ST_SIZE..], symbol.st_size);
    bytes
}

/// The symbol of this index in a section of these bytes.
pub fn symbol_in(bytes: &[u8], index: SymbolIndex) -> Symbol
    requires { symbol_size * index.0 + symbol_size ≤ length bytes.now }
    ensures { result ≡ symbol_at (symbol_size * index.0) bytes.now }
{
    let place = SYMBOL_SIZE * index.0 as usize;
    Symbol {
        st_name: word(bytes, place, ST_NAME),
        st_info: byte(bytes, place, ST_INFO),
        st_other: byte(bytes, place, ST_OTHER),
        st_shndx: half(bytes, place, ST_SHNDX),
        st_value: double(bytes, place, ST_VALUE),
        st_size: double(bytes, place, ST_SIZE),
    }
}
