//! The symbols that a file defines: those of the file alone, and those that other files can mean.
//!
//! One pass over the statements finds both, so that a name is asked for its binding once.

ghost use Rattle.std.specs.Prelude.{◌≡◌, ◌<◌, ◌≤◌, ◌+◌, ◌*◌, ◌^◌, ◌++◌, ◌&&◌, ◌||◌, ℕ, List, [], ◌∷◌, Some, true, not, length, map, slice_get, if◌then◌else◌, IfOk, OnOk};
ghost use Rattle.std.specs.HashSet.{contains};
ghost use Rattle.rv_statement.specs.View.{statement_of};
ghost use Rattle.rv_unit.specs.Unit.{said};
ghost use Rattle.rv_object_laws.specs.declared.symbol.Binding.TheVariants.{Local};
ghost use Rattle.rv_object_laws.specs.declared.symbol.Definition.TheVariants.{InSection};
ghost use Rattle.rv_object_types.specs.Parts.{symbol_of};
ghost use Rattle.rv_assemble_laws.specs.LaidStatements.{LaidStatement};
ghost use Rattle.rv_assemble_laws.specs.Symbols.{local_symbol, named_symbols, exports_of, references};
ghost use Rattle.rv_assemble_laws.specs.ShownNames.{said_names, are_shown, HasNames};
ghost use Rattle.rv_symbols.specs.Source.{tables_of, place_in, IsSource};
ghost use Rattle.rv_symbols.specs.Numbers.{own_symbols as own_in};
ghost use Rattle.rv_symbols.specs.Found.{is_number, same_place, AreMarks};

use crate::source::Source;
use rv_object_types::{Binding, Definition, Symbol};
use rv_statement::{Statement, Statements};
use std::alloc::{AllocError, Global};
use std::collections::HashSet;

/// Whether a statement is the first at its place that a reference without a name means.
fn is_first(
    seen: &mut HashSet<(u32, u64)>,
    place: (u32, u64),
    meant: bool,
) -> Result<bool, AllocError>
    ensures first { IfOk result (λ b. b ≡ (meant && not (contains same_place seen.old place))) }
    ensures seen { OnOk result ((q : ℕ × ℕ) → contains same_place seen.new q
        ≡ (contains same_place seen.old q || meant && same_place place q)) }
{
    if !meant {
        return Ok(false);
    }
    let first = seen.insert(place)?;
    Ok(first)
}

/// Adds a symbol without a name, where a statement is the first at its place that a reference without a name means.
fn put_unnamed(
    symbols: &mut Vec<Symbol<'_>>,
    seen: &mut HashSet<(u32, u64)>,
    place: (u32, u64),
    meant: bool,
) -> Result<(), AllocError>
    ensures symbols { OnOk result (map symbol_of symbols.new.items ≡ map symbol_of symbols.old.items
        ++ (if meant && not (contains same_place seen.old place)
        then local_symbol [] (InSection place.0 place.1) ∷ [] else [])) }
    ensures few { OnOk result (length symbols.new.items ≤ length symbols.old.items + 1) }
    ensures seen { OnOk result ((q : ℕ × ℕ) → contains same_place seen.new q
        ≡ (contains same_place seen.old q || meant && same_place place q)) }
{
    if !is_first(seen, place, meant)? {
        return Ok(());
    }
    let (section, offset) = place;
    let unnamed = Symbol {
        name: b"",
        binding: Binding::Local,
        definition: Definition::InSection(section, offset),
    };
    symbols.push(unnamed)?;
    Ok(())
}

/// Whether a definition is a number.
fn is_number(definition: Definition) -> bool
    ensures { result ≡ is_number definition }
{
    match definition {
        Definition::Absolute(_) => true,
        _ => false,
    }
}

/// Adds the name that the statement at this index defines: to those of the file alone, or to those that other files can mean.
/// Constants of the file alone have no symbol.
fn put_name<'a>(
    symbols: &mut Vec<Symbol<'a>>,
    exported: &mut Vec<Symbol<'a>>,
    source: &Source<'_, '_>,
    index: usize,
    statement: &Statement<'a>,
) -> Result<(), AllocError>
    requires next { index + 1 < 2 ^ 64 }
    requires shown { are_shown (said_names (statement_of statement.now).kind) ≡ true }
    ensures symbols { OnOk result ((laid : List LaidStatement) (s : LaidStatement)
        → IsSource source.now laid
        → slice_get laid index ≡ Some s → (statement_of statement.now).kind ≡ s.located.kind
        → map symbol_of symbols.new.items ≡ map symbol_of symbols.old.items
        ++ named_symbols (tables_of source.now) laid s) }
    ensures exported { OnOk result ((laid : List LaidStatement) (s : LaidStatement)
        → IsSource source.now laid
        → slice_get laid index ≡ Some s → (statement_of statement.now).kind ≡ s.located.kind
        → map symbol_of exported.new.items ≡ map symbol_of exported.old.items
        ++ exports_of (tables_of source.now) laid s) }
    ensures few { OnOk result (length symbols.new.items ≤ length symbols.old.items + 1) }
    ensures few_exported { OnOk result (length exported.new.items ≤ length exported.old.items + 1) }
{
    let Some(name) = source.defined(index, statement) else {
        return Ok(());
    };
    let definition = source.definition(index, statement);
    if source.is_shared(name) {
        let binding = source.outer_binding(name);
        let shared = Symbol {
            name,
            binding,
            definition,
        };
        exported.push(shared)?;
        return Ok(());
    }
    if is_number(definition) {
        return Ok(());
    }
    let local = Symbol {
        name,
        binding: Binding::Local,
        definition,
    };
    symbols.push(local)?;
    Ok(())
}

/// Adds the symbols of the statement at this index: one for its place, where a reference without a name means it and none is
/// there yet, and the name that it defines.
fn put_both<'a>(
    symbols: &mut Vec<Symbol<'a>>,
    exported: &mut Vec<Symbol<'a>>,
    seen: &mut HashSet<(u32, u64)>,
    source: &Source<'_, '_>,
    index: usize,
    statement: &Statement<'a>,
    meant: bool,
) -> Result<(), AllocError>
    requires next { index + 1 < 2 ^ 64 }
    requires shown { are_shown (said_names (statement_of statement.now).kind) ≡ true }
    ensures symbols { OnOk result ((laid : List LaidStatement) (s : LaidStatement)
        → IsSource source.now laid
        → slice_get laid index ≡ Some s → (statement_of statement.now).kind ≡ s.located.kind
        → map symbol_of symbols.new.items ≡ map symbol_of symbols.old.items
        ++ ((if meant && not (contains same_place seen.old (place_in s))
        then local_symbol [] (InSection s.located.section s.offset) ∷ [] else [])
        ++ named_symbols (tables_of source.now) laid s)) }
    ensures exported { OnOk result ((laid : List LaidStatement) (s : LaidStatement)
        → IsSource source.now laid
        → slice_get laid index ≡ Some s → (statement_of statement.now).kind ≡ s.located.kind
        → map symbol_of exported.new.items ≡ map symbol_of exported.old.items
        ++ exports_of (tables_of source.now) laid s) }
    ensures few { OnOk result (length symbols.new.items ≤ length symbols.old.items + 2) }
    ensures few_exported { OnOk result (length exported.new.items ≤ length exported.old.items + 1) }
    ensures seen { OnOk result ((laid : List LaidStatement) (s : LaidStatement)
        → IsSource source.now laid
        → slice_get laid index ≡ Some s → (q : ℕ × ℕ) → contains same_place seen.new q
        ≡ (contains same_place seen.old q || meant && same_place (place_in s) q)) }
    ensures low { OnOk result ((laid : List LaidStatement) (s : LaidStatement)
        → IsSource source.now laid
        → slice_get laid index ≡ Some s → s.offset < 2 ^ 64) }
{
    put_unnamed(symbols, seen, source.here(index), meant)?;
    put_name(symbols, exported, source, index, statement)?;
    Ok(())
}

/// The symbols that a source defines, where these statements are meant by references without a name: those of the file alone,
/// then those that other files can mean.
pub(crate) fn own_symbols<'a>(
    alloc: Global,
    source: &Source<'_, 'a>,
    meant: &[bool],
) -> Result<Vec<Symbol<'a>>, AllocError>
    requires marks { length meant.now ≡ length (said (source.now).unit.now) }
    requires names { HasNames (said (source.now).unit.now) }
    ensures few { IfOk result (λ x. length x.items ≤ 3 * length meant.now) }
    ensures symbols { IfOk result (λ x. (laid : List LaidStatement) → IsSource source.now laid
        → AreMarks (tables_of source.now) (references (tables_of source.now) laid) meant.now
        (length meant.now)
        → map symbol_of x.items ≡ own_in (tables_of source.now) laid) }
    ensures low { IfOk result (λ _. (laid : List LaidStatement) → IsSource source.now laid
        → (i : ℕ) (s : LaidStatement) → slice_get laid i ≡ Some s → s.offset < 2 ^ 64) }
{
    let mut room = Statements::room();
    own_symbols_by(alloc, source, meant, &mut room)
}

/// The same, where each statement is read into the room.
fn own_symbols_by<'a>(
    alloc: Global,
    source: &Source<'_, 'a>,
    meant: &[bool],
    room: &mut Statement<'a>,
) -> Result<Vec<Symbol<'a>>, AllocError>
    requires marks { length meant.now ≡ length (said (source.now).unit.now) }
    requires names { HasNames (said (source.now).unit.now) }
    ensures few { IfOk result (λ x. length x.items ≤ 3 * length meant.now) }
    ensures symbols { IfOk result (λ x. (laid : List LaidStatement) → IsSource source.now laid
        → AreMarks (tables_of source.now) (references (tables_of source.now) laid) meant.now
        (length meant.now)
        → map symbol_of x.items ≡ own_in (tables_of source.now) laid) }
    ensures low { IfOk result (λ _. (laid : List LaidStatement) → IsSource source.now laid
        → (i : ℕ) (s : LaidStatement) → slice_get laid i ≡ Some s → s.offset < 2 ^ 64) }
{
    let statements = source.unit.statements();
    let mut symbols = Vec::new(alloc);
    let mut exported = Vec::new(alloc);
    let mut seen = HashSet::new(alloc);
    for i in 0..statements.len() {
        put_both(
            &mut symbols,
            &mut exported,
            &mut seen,
            source,
            i,
            statements.read(i, room),
            meant[i],
        )?;
    }
    symbols.append(&mut exported)?;
    Ok(symbols)
}
