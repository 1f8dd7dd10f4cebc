//! The symbols of an object, as its file has them.

ghost use Rattle.std.specs.Prelude.{◌≡◌, ◌+◌, ◌*◌, ◌≤◌, length, drop, IfOk};
ghost use Rattle.rv_elf_laws.specs.Fields.{symbol_size};
ghost use Rattle.rv_elf_laws.specs.Records.{symbol_at};
ghost use Rattle.rv_elf_laws.specs.Sections.{symbols_in as symbols_of};
ghost use Rattle.rv_debug_sections.specs.Records.{symbol_records};

use crate::named::symbols_in;
use rv_elf::{ElfView, SYMBOL_SIZE, Symbol, SymbolIndex, symbol_in};
use std::alloc::{AllocError, Global};

/// The symbols of an object but the first, as its file has them; none of what is no object.
pub fn symbol_records(alloc: Global, file: &[u8]) -> Result<Vec<Symbol>, AllocError>
    ensures { IfOk result (λ symbols. symbols.items ≡ symbol_records file.now) }
{
    match ElfView::open(file) {
        Ok(view) => records_in(alloc, symbols_in(&view)),
        Err(_) => Ok(Vec::new(alloc)),
    }
}

/// The symbols in a table of these bytes, but the first.
fn records_in(alloc: Global, bytes: &[u8]) -> Result<Vec<Symbol>, AllocError>
    ensures { IfOk result (λ symbols. symbols.items ≡ drop 1 (symbols_of bytes.now)) }
{
    let others = (bytes.len() / SYMBOL_SIZE).saturating_sub(1);
    let mut symbols = Vec::with_capacity(alloc, others)?;
    for earlier in 0..others {
        symbols.push(record_from(bytes, earlier + 1))?;
    }
    Ok(symbols)
}

/// The symbol of this index in a table of these bytes.
fn record_from(bytes: &[u8], index: usize) -> Symbol
    requires { symbol_size * index + symbol_size ≤ length bytes.now }
    ensures { result ≡ symbol_at (symbol_size * index) bytes.now }
{
    symbol_in(&bytes[SYMBOL_SIZE * index..], SymbolIndex(0))
}
