//! What uses of symbols mean in their file.

ghost use Rattle.std.specs.Prelude.{◌≡◌, ◌<◌, ◌≤◌, ◌+◌, ◌-◌, ◌||◌, ◌==◌, ℕ, false, true, length, map, option_map, slice_index_or, IfOk, OnOk};
ghost use Rattle.rv_expression.specs.Nodes.{symbol_of};
ghost use Rattle.rv_statement.specs.View.{now_of};
ghost use Rattle.rv_unit_laws.specs.Tables.{Tables, tables};
ghost use Rattle.rv_unit.specs.Unit.{said, definition_of, IsFilled, IsScope};
ghost use Rattle.rv_assemble_laws.specs.Symbols.{is_unnamed};
ghost use Rattle.rv_assemble_laws.specs.ShownNames.{primary_names, are_shown, used_names, AreShown};
ghost use Rattle.rv_symbols.specs.SymbolUse.{use_of, uses_of};
ghost use Rattle.rv_symbols.specs.Numbers.{missing_names};
ghost use Rattle.rv_symbols.specs.Found.{definition_in, is_here, next_ordinal, means, missing_by, with_names, Rises, AreMarks};

use crate::symbol_use::SymbolUse;
use indexmap::IndexSet;
use rv_expression::Symbol;
use rv_unit::{Definition, Scope, Unit};
use std::alloc::{AllocError, Global};

/// Passes over so many statements.
fn pass(scope: &mut Scope<'_, '_>, count: u32)
    ensures unit { (scope.new).unit ≡ (scope.old).unit }
    ensures passes { (index : ℕ) → index + count ≤ length (said (scope.old).unit.now)
        → IsScope scope.old index → IsScope scope.new (index + count) }
{
    for _ in 0..count {
        scope.pass();
    }
}

/// Whether a symbol is the place of its own statement.
fn is_here(symbol: Symbol<'_>) -> bool
    ensures { result ≡ is_here (symbol_of symbol.entry) }
{
    match symbol {
        Symbol::Name(_) => false,
        Symbol::Here => true,
        Symbol::Reference(_) => false,
    }
}

/// The ordinal of the statement at which a use is looked up, where others led to this one before: `.` needs none.
fn next_ordinal(ordinal: u32, symbol_use: &SymbolUse<'_>) -> u32
    ensures { result ≡ next_ordinal ordinal (use_of symbol_use.now) }
{
    if is_here(symbol_use.symbol) {
        ordinal
    } else {
        symbol_use.ordinal
    }
}

/// Where the symbol of a use is defined, if the scope stands before its statement; `.` is anywhere the place of that one.
fn definition<'a>(scope: &Scope<'_, 'a>, symbol_use: &SymbolUse<'a>) -> Option<Definition>
    ensures { IsFilled (scope.now).unit.now
        → (is_here (use_of symbol_use.now).symbol ≡ false
        → (1 ≤ (symbol_use.now).ordinal) × IsScope scope.now ((symbol_use.now).ordinal - 1))
        → option_map definition_of result
        ≡ definition_in (tables (said (scope.now).unit.now)) (use_of symbol_use.now) }
{
    if is_here(symbol_use.symbol) {
        return Some(Definition {
            ordinal: symbol_use.ordinal,
            plus: 0,
        });
    }
    scope.definition(symbol_use.symbol)
}

/// Where the symbols of uses are defined in their file, a definition for each use.
pub(crate) fn definitions<'a>(
    alloc: Global,
    unit: &Unit<'a>,
    uses: &[SymbolUse<'a>],
) -> Result<Vec<Option<Definition>>, AllocError>
    ensures found { IfOk result (λ x. IsFilled unit.now
        → Rises 1 (length (said unit.now)) (uses_of uses.now)
        → map (option_map definition_of) x.items
        ≡ map (definition_in (tables (said unit.now))) (uses_of uses.now)) }
    ensures len { IfOk result (λ x. length x.items ≡ length uses.now) }
{
    let mut found = Vec::with_capacity(alloc, uses.len())?;
    let mut scope = Scope::new(unit);
    let mut ordinal = 1;
    for symbol_use in uses {
        let next = next_ordinal(ordinal, symbol_use);
        pass(&mut scope, next.saturating_sub(ordinal));
        ordinal = next;
        found.push(definition(&scope, symbol_use))?;
    }
    Ok(found)
}

/// Whether a symbol has no name.
fn is_nameless(symbol: Symbol<'_>) -> bool
    ensures { result ≡ is_unnamed (symbol_of symbol.entry) }
{
    match symbol {
        Symbol::Name(_) => false,
        Symbol::Here => true,
        Symbol::Reference(_) => true,
    }
}

/// Marks the statement that a use without a name means.
fn mark(meant: &mut Vec<bool>, symbol: Symbol<'_>, definition: Option<Definition>)
    ensures len { length meant.new.items ≡ length meant.old.items }
    ensures marks { (index : ℕ) → index < length meant.old.items
        → slice_index_or meant.new.items index false
        ≡ (slice_index_or meant.old.items index false
        || means (index + 1) (symbol_of symbol.entry) (option_map definition_of definition)) }
{
    if !is_nameless(symbol) {
        return;
    }
    let Some(definition) = definition else {
        return;
    };
    if definition.ordinal == 0 || definition.ordinal as usize > meant.len() {
        return;
    }
    meant[(definition.ordinal - 1) as usize] = true;
}

/// The statements, so many, that uses without a name mean.
pub(crate) fn marks(
    alloc: Global,
    count: usize,
    uses: &[SymbolUse<'_>],
    definitions: &[Option<Definition>],
) -> Result<Vec<bool>, AllocError>
    requires { length definitions.now ≡ length uses.now }
    ensures marks { IfOk result (λ x. (t : Tables)
        → map (option_map definition_of) definitions.now
        ≡ map (definition_in t) (uses_of uses.now)
        → AreMarks t (uses_of uses.now) x.items count) }
    ensures len { IfOk result (λ x. length x.items ≡ count) }
{
    let mut meant = Vec::new(alloc);
    meant.resize(count, false)?;
    for i in 0..uses.len() {
        mark(&mut meant, uses[i].symbol, definitions[i]);
    }
    Ok(meant)
}

/// Adds the name of a use that its file leaves undefined.
fn put_missing<'a>(
    names: &mut IndexSet<&'a [u8]>,
    symbol: Symbol<'a>,
    definition: Option<Definition>,
) -> Result<(), AllocError>
    ensures names { OnOk result (map now_of names.new.keys
        ≡ with_names (map now_of names.old.keys)
        (missing_by (option_map definition_of definition) (symbol_of symbol.entry))) }
    ensures few { OnOk result (length names.new.keys
        ≤ length names.old.keys + length (primary_names (symbol_of symbol.entry))) }
    ensures shown { OnOk result (are_shown (primary_names (symbol_of symbol.entry)) ≡ true
        → are_shown (map now_of names.old.keys) ≡ true
        → are_shown (map now_of names.new.keys) ≡ true) }
{
    if definition.is_some() {
        return Ok(());
    }
    let Symbol::Name(name) = symbol else {
        return Ok(());
    };
    names.insert(name)?;
    Ok(())
}

/// The names that a file leaves undefined, in the order of their first uses.
pub(crate) fn missing<'a>(
    alloc: Global,
    uses: &[SymbolUse<'a>],
    definitions: &[Option<Definition>],
) -> Result<IndexSet<&'a [u8]>, AllocError>
    requires { length definitions.now ≡ length uses.now }
    ensures names { IfOk result (λ x. (t : Tables)
        → map (option_map definition_of) definitions.now
        ≡ map (definition_in t) (uses_of uses.now)
        → map now_of x.keys ≡ missing_names t (uses_of uses.now)) }
    ensures few { IfOk result (λ x. length x.keys ≤ length (used_names (uses_of uses.now))) }
    ensures shown { IfOk result (λ x. AreShown (uses_of uses.now)
        → are_shown (map now_of x.keys) ≡ true) }
{
    let mut names = IndexSet::new(alloc);
    for i in 0..uses.len() {
        put_missing(&mut names, uses[i].symbol, definitions[i])?;
    }
    Ok(names)
}
