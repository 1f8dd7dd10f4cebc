//! The sizes of symbols in their object.

ghost use Rattle.std.specs.Prelude.{◌≡◌, map, IfOk};

use rv_elf_laws::Symbol as SymbolRecord;
use std::alloc::{AllocError, Global};

/// How many bytes symbols have in their object, by the records of its file (`st_size`).
pub fn symbol_sizes(alloc: Global, records: &[SymbolRecord]) -> Result<Vec<u64>, AllocError>
    ensures { IfOk result (λ sizes. sizes.items ≡ map (λ r. r.st_size) records.now) }
{
    let mut sizes = Vec::with_capacity(alloc, records.len())?;
    for symbol in records {
        sizes.push(size_of(symbol))?;
    }
    Ok(sizes)
}

/// How many bytes a symbol has in its object.
fn size_of(symbol: &SymbolRecord) -> u64
    ensures { result ≡ symbol.now.st_size }
{
    symbol.st_size
}
