//! The names of objects, one object after another.

ghost use Rattle.std.specs.Prelude.{◌≡◌, ◌++◌, List, map, flat_map, IfOk, OnOk};
ghost use Rattle.rv_map_laws.specs.declared.map.Row.{Row as MapRow};
ghost use Rattle.rv_object_laws.specs.declared.row.Row.{Row as SaidRow};
ghost use Rattle.rv_object_types.specs.Parts.{symbol_of};
ghost use Rattle.rv_debug_laws.specs.Labels as laws;
ghost use Rattle.rv_labels.specs.Indices.{AreSpans, ArePlaces};
ghost use Rattle.rv_labels.specs.Known.{described_of, known_of};

use crate::described::Described;
use crate::ends::are_ordered;
use crate::known::KnownName;
use crate::names::is_asked;
use crate::ordinals::ordinals;
use crate::places::Places;
use crate::said::said_names;
use rv_map::Region;
use rv_object_types::Symbol;
use std::alloc::{AllocError, Global};
use std::collections::HashMap;

/// The names of objects that have addresses: those that all files can mean, or else the labels.
pub(crate) fn object_names<'a>(
    alloc: Global,
    shared: bool,
    spans: &HashMap<(u64, u64), Option<Region>>,
    objects: &[Described<'a>],
) -> Result<Vec<KnownName<'a>>, AllocError>
    ensures { IfOk result (λ names. (known : List MapRow) → AreSpans spans.now known
        → map known_of names.items
        ≡ laws.names_from shared known 1 (map described_of objects.now)) }
{
    let mut names: Vec<KnownName<'a>> = Vec::new(alloc);
    let mut file = 0u64;
    for object in objects {
        file += 1;
        put_object(alloc, &mut names, shared, spans, file, object)?;
    }
    Ok(names)
}

/// Adds the names of an object, which is this file.
fn put_object<'a>(
    alloc: Global,
    names: &mut Vec<KnownName<'a>>,
    shared: bool,
    spans: &HashMap<(u64, u64), Option<Region>>,
    file: u64,
    described: &Described<'a>,
) -> Result<(), AllocError>
    ensures { OnOk result ((known : List MapRow) → AreSpans spans.now known
        → map known_of names.new.items ≡ map known_of names.old.items
        ++ laws.object_names shared known file (described_of described.now)) }
{
    let rows = described.object.rows.as_slice();
    let places = Places {
        spans,
        file,
        rows,
        are_ordered: are_ordered(rows),
        ordinals: ordinals(alloc, rows)?,
        said: said_names(alloc, described.marks.as_slice())?,
    };
    put_symbols(names, shared, &places, described.object.symbols.as_slice())?;
    Ok(())
}

/// Adds those symbols that are asked for.
fn put_symbols<'a>(
    names: &mut Vec<KnownName<'a>>,
    shared: bool,
    places: &Places<'_>,
    symbols: &[Symbol<'a>],
) -> Result<(), AllocError>
    ensures { OnOk result ((known : List MapRow) (rows : List SaidRow) (marks : List laws.Mark)
        → ArePlaces places.now known rows marks
        → map known_of names.new.items ≡ map known_of names.old.items
        ++ flat_map (laws.symbol_names shared known (places.now).file rows marks)
        (map symbol_of symbols.now)) }
{
    for symbol in symbols {
        put_symbol(names, shared, places, symbol)?;
    }
    Ok(())
}

/// Adds a symbol, if it is asked for and has an address.
fn put_symbol<'a>(
    names: &mut Vec<KnownName<'a>>,
    shared: bool,
    places: &Places<'_>,
    symbol: &Symbol<'a>,
) -> Result<(), AllocError>
    ensures { OnOk result ((known : List MapRow) (rows : List SaidRow) (marks : List laws.Mark)
        → ArePlaces places.now known rows marks
        → map known_of names.new.items ≡ map known_of names.old.items
        ++ laws.symbol_names shared known (places.now).file rows marks (symbol_of symbol.now)) }
{
    if !is_asked(shared, symbol) {
        return Ok(());
    }
    let Some(known) = places.known(symbol) else {
        return Ok(());
    };
    names.push(known)?;
    Ok(())
}
