//! An object with what its relocations need.

ghost use Rattle.std.specs.Prelude.{◌≡◌};
ghost use Rattle.rv_debug_laws.specs.Carried as laws;

use crate::part::{MergedPart, symbol_value};
use rv_elf::{ElfView, SYMBOL_SIZE, SymbolIndex, symbol_in};

/// An object with what its relocations need.
#[derive(Clone, Copy, Drop)]
pub(crate) struct Source<'s, 'a> {
    pub view: ElfView<'a>,
    /// The bytes of its symbols.
    pub symbols: &'a [u8],
    /// The addresses of its symbols but the first.
    pub addresses: &'a [Option<u64>],
    /// Where its sections go.
    pub parts: &'s [MergedPart],
    ghost symbolic: { symbols.now ≡ laws.symbol_bytes_in view.file.now },
}

impl<'s, 'a> Source<'s, 'a> {
    ghost use Rattle.std.specs.Prelude.{◌-◌, ◌<◌};
    ghost use Rattle.std.specs.List.{slice_get};
    ghost use Rattle.rv_debug_sections.specs.Views.{plain_source};

    /// The value of the symbol of a number; none of one that the program has not. No symbol has a number past the table.
    pub(crate) fn carried_target(&self, number: u32) -> Option<Option<u64>>
        ensures { result ≡ laws.carried_target (plain_source self.now) number }
    {
        if number == 0 {
            return Some(Some(0));
        }
        if self.symbols.len() / SYMBOL_SIZE <= number as usize {
            return None;
        }
        let symbol = symbol_in(self.symbols, SymbolIndex(number));
        Some(symbol_value(self.parts, self.address(number), &symbol))
    }

    /// The address of the symbol of a number from 1 on.
    fn address(&self, number: u32) -> Option<u64>
        requires { 0 < number }
        ensures { result ≡ laws.join (slice_get self.now.addresses.now (number - 1)) }
    {
        match self.addresses.get(number as usize - 1) {
            Some(address) => *address,
            None => None,
        }
    }
}
