//! The indices of the symbols that uses name.
//!
//! Maps by name and by place are made once for all uses, so that a use costs one look-up and no search through the
//! symbols.

ghost use Rattle.std.specs.Prelude.{◌≡◌, ◌+◌, ◌^◌, ◌<◌, ◌++◌, ℕ, List, [], ◌∷◌, length, map, option_map, IfOk, OnOk};
ghost use Rattle.rv_expression.specs.Nodes.{symbol_of};
ghost use Rattle.rv_statement.specs.View.{now_of};
ghost use Rattle.rv_unit_laws.specs.Tables.{Tables};
ghost use Rattle.rv_unit.specs.Unit.{definition_of};
ghost use Rattle.rv_object_laws.specs.Object.{Symbol as SaidSymbol};
ghost use Rattle.rv_object_types.specs.Parts.{symbol_of as object_symbol};
ghost use Rattle.rv_assemble_laws.specs.LaidStatements.{LaidStatement};
ghost use Rattle.rv_assemble_laws.specs.Symbols.{laid_at};
ghost use Rattle.rv_symbols.specs.SymbolUse.{uses_of};
ghost use Rattle.rv_symbols.specs.Source.{IsSource};
ghost use Rattle.rv_symbols.specs.Numbers.{place_number, own_number, outer_number, number_by};
ghost use Rattle.rv_symbols.specs.Found.{definition_in};
ghost use Rattle.rv_symbols.specs.Indices.{AreNameIndices, ArePlaceIndices};

use crate::source::Source;
use crate::symbol_use::SymbolUse;
use indexmap::IndexSet;
use rv_expression::Symbol as Named;
use rv_object_types::{Definition as Defined, Symbol};
use rv_unit::Definition;
use std::alloc::{AllocError, Global};
use std::collections::HashMap;

/// Adds the name of the next symbol.
fn put_name<'a>(
    names: &mut HashMap<&'a [u8], u32>,
    next: u32,
    symbol: &Symbol<'a>,
) -> Result<(), AllocError>
    ensures { OnOk result ((xs : List SaidSymbol) → next ≡ length xs → AreNameIndices names.old xs
        → AreNameIndices names.new (xs ++ object_symbol symbol.now ∷ [])) }
{
    names.insert(symbol.name, next)?;
    Ok(())
}

/// How many symbols have a name.
fn count_named(symbols: &[Symbol<'_>]) -> usize {
    let mut count: u64 = 0;
    for symbol in symbols {
        count = count.saturating_add(u64::from(!symbol.name.is_empty()));
    }
    count as usize
}

/// The indices of the last symbols of each name.
fn name_indices<'a>(
    alloc: Global,
    symbols: &[Symbol<'a>],
) -> Result<HashMap<&'a [u8], u32>, AllocError>
    requires { length symbols.now < 2 ^ 32 }
    ensures { IfOk result (λ x. AreNameIndices x (map object_symbol symbols.now)) }
{
    let mut names = HashMap::with_capacity(alloc, count_named(symbols))?;
    for i in 0..symbols.len() {
        put_name(&mut names, i as u32, &symbols[i])?;
    }
    Ok(names)
}

/// Adds the place of the next symbol, if it has one and no name.
fn put_place(
    places: &mut HashMap<(u32, u64), u32>,
    next: u32,
    symbol: &Symbol<'_>,
) -> Result<(), AllocError>
    ensures { OnOk result ((xs : List SaidSymbol) → next ≡ length xs → ArePlaceIndices places.old xs
        → ArePlaceIndices places.new (xs ++ object_symbol symbol.now ∷ [])) }
{
    if !symbol.name.is_empty() {
        return Ok(());
    }
    let Defined::InSection(section, offset) = symbol.definition else {
        return Ok(());
    };
    places.insert((section, offset), next)?;
    Ok(())
}

/// The indices of the symbols without names, by their places.
fn place_indices(
    alloc: Global,
    symbols: &[Symbol<'_>],
) -> Result<HashMap<(u32, u64), u32>, AllocError>
    requires { length symbols.now < 2 ^ 32 }
    ensures { IfOk result (λ x. ArePlaceIndices x (map object_symbol symbols.now)) }
{
    let mut places = HashMap::new(alloc);
    for i in 0..symbols.len() {
        put_place(&mut places, i as u32, &symbols[i])?;
    }
    Ok(places)
}

/// The indices of symbols: those of a source's own, and after them those that it leaves undefined.
#[derive(Drop)]
struct Indices<'i, 'u, 'a> {
    source: &'i Source<'u, 'a>,
    /// How many are the source's own.
    count: usize,
    names: HashMap<&'a [u8], u32>,
    places: HashMap<(u32, u64), u32>,
    missing: &'i IndexSet<&'a [u8]>,
}

impl<'i, 'u, 'a> Indices<'i, 'u, 'a> {
    ghost use Rattle.rv_symbols.specs.Indexed.{AreIndices, AreFew};

    /// Those of these symbols.
    fn of(
        alloc: Global,
        source: &'i Source<'u, 'a>,
        own: &[Symbol<'a>],
        missing: &'i IndexSet<&'a [u8]>,
    ) -> Result<Self, AllocError>
        requires { length own.now < 2 ^ 32 }
        ensures source { IfOk result (λ x. x.source.now ≡ source.now) }
        ensures indices { IfOk result (λ x. AreIndices x (map object_symbol own.now)
            (map now_of (missing.now).keys)) }
    {
        let names = name_indices(alloc, own)?;
        let places = place_indices(alloc, own)?;
        Ok(Indices {
            source,
            count: own.len(),
            names,
            places,
            missing,
        })
    }

    /// The index of the symbol without a name where the statement of this ordinal stands.
    fn place_number(&self, ordinal: u32) -> u32
        ensures { (laid : List LaidStatement) (own : List SaidSymbol) (names : List (List ℕ))
            → IsSource (self.now).source.now laid → AreIndices self.now own names
            → result ≡ place_number own (laid_at laid ordinal) }
    {
        if ordinal == 0 {
            return 0;
        }
        match self.source.place((ordinal - 1) as usize) {
            Some(place) => self.places.get(&place).copied().unwrap_or(0),
            None => 0,
        }
    }

    /// The index of a symbol that is defined in the file.
    fn own_number(&self, symbol: Named<'_>, definition: Definition) -> u32
        ensures { (laid : List LaidStatement) (own : List SaidSymbol) (names : List (List ℕ))
            → IsSource (self.now).source.now laid → AreIndices self.now own names
            → result ≡ own_number own laid (definition_of definition) (symbol_of symbol.entry) }
    {
        match symbol {
            Named::Name(name) => self.names.get(&name).copied().unwrap_or(0),
            Named::Here => self.place_number(definition.ordinal),
            Named::Reference(_) => self.place_number(definition.ordinal),
        }
    }

    /// The index of a symbol that the file leaves undefined.
    fn outer_number(&self, symbol: Named<'_>) -> u32
        requires { AreFew self.now }
        ensures { (own : List SaidSymbol) (names : List (List ℕ)) → AreIndices self.now own names
            → result ≡ outer_number (length own) names (symbol_of symbol.entry) }
    {
        match symbol {
            Named::Name(name) => {
                let after = self.missing.get_index_of(&name).unwrap_or(0);
                (self.count + after) as u32
            }
            Named::Here => 0,
            Named::Reference(_) => 0,
        }
    }

    /// The index of the symbol that a use names.
    fn number(&self, symbol: Named<'_>, definition: Option<Definition>) -> u32
        requires { AreFew self.now }
        ensures { (laid : List LaidStatement) (own : List SaidSymbol) (names : List (List ℕ))
            → IsSource (self.now).source.now laid → AreIndices self.now own names
            → result ≡ number_by own names laid (symbol_of symbol.entry)
            (option_map definition_of definition) }
    {
        match definition {
            Some(definition) => self.own_number(symbol, definition),
            None => self.outer_number(symbol),
        }
    }
}

/// The index of the symbol of each use, among a source's own symbols and those after them that it leaves undefined.
pub(crate) fn numbers<'a>(
    alloc: Global,
    source: &Source<'_, 'a>,
    own: &[Symbol<'a>],
    missing: &IndexSet<&'a [u8]>,
    uses: &[SymbolUse<'a>],
    definitions: &[Option<Definition>],
) -> Result<Vec<u32>, AllocError>
    requires each { length definitions.now ≡ length uses.now }
    requires few { length own.now + length (missing.now).keys < 2 ^ 32 }
    ensures { IfOk result (λ x. (laid : List LaidStatement) (t : Tables) → IsSource source.now laid
        → map (option_map definition_of) definitions.now
        ≡ map (definition_in t) (uses_of uses.now)
        → x.items
        ≡ map (λ r. number_by (map object_symbol own.now) (map now_of (missing.now).keys) laid
        r.symbol (definition_in t r)) (uses_of uses.now)) }
{
    let indices = Indices::of(alloc, source, own, missing)?;
    let mut numbers = Vec::with_capacity(alloc, uses.len())?;
    for i in 0..uses.len() {
        numbers.push(indices.number(uses[i].symbol, definitions[i]))?;
    }
    Ok(numbers)
}
