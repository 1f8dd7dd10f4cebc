//! What is known of the globals of a map.

ghost use Rattle.std.specs.Prelude.{◌≡◌, ◌++◌, [], ◌∷◌, ℕ, Some, List, map, IfOk, OnOk};
ghost use Rattle.rv_map.specs.Views.{global_of};
ghost use Rattle.rv_debug_laws.specs.Labels as laws;
ghost use Rattle.rv_debug_laws.specs.Symbols.{KnownName as SaidName};
ghost use Rattle.rv_labels.specs.Indices.{AreLast};
ghost use Rattle.rv_labels.specs.Known.{known_of};

use crate::known::KnownName;
use rv_debug_laws::SymbolType;
use rv_map::Global;
use std::alloc::{AllocError, Global as Allocator};
use std::collections::BTreeMap;

/// What is known of globals, by the names of objects.
pub fn known_globals<'a>(
    alloc: Allocator,
    names: &[KnownName<'_>],
    globals: &'a [Global],
) -> Result<Vec<KnownName<'a>>, AllocError>
    ensures { IfOk result (λ known. map known_of known.items
        ≡ map (laws.known_global (map known_of names.now)) (map global_of globals.now)) }
{
    let last = last_names(alloc, names)?;
    let mut known: Vec<KnownName<'a>> = Vec::with_capacity(alloc, globals.len())?;
    for global in globals {
        known.push(known_global(&last, global))?;
    }
    Ok(known)
}

/// The last of each name.
fn last_names<'a>(
    alloc: Allocator,
    names: &[KnownName<'a>],
) -> Result<BTreeMap<&'a [u8], KnownName<'a>>, AllocError>
    ensures { IfOk result (λ last. AreLast last (map known_of names.now)) }
{
    let mut last = BTreeMap::new(alloc);
    for name in names {
        put_name(&mut last, name)?;
    }
    Ok(last)
}

/// Adds the next name.
fn put_name<'a>(
    last: &mut BTreeMap<&'a [u8], KnownName<'a>>,
    name: &KnownName<'a>,
) -> Result<(), AllocError>
    ensures { OnOk result ((names : List SaidName) → AreLast last.old names
        → AreLast last.new (names ++ known_of name.now ∷ [])) }
{
    last.insert(name.name, *name)?;
    Ok(())
}

/// What is known of a global.
fn known_global<'a>(last: &BTreeMap<&[u8], KnownName<'_>>, global: &'a Global) -> KnownName<'a>
    ensures { (names : List SaidName) → AreLast last.now names
        → known_of result ≡ laws.known_global names (global_of global.now) }
{
    match last.get(global.name.as_slice()) {
        Some(known) => global_by(global, known.address, known.kind, known.size),
        None => plain_global(global),
    }
}

/// A global of which an object knows this, if it stands at the same address.
fn global_by<'a>(global: &'a Global, address: u64, kind: SymbolType, size: u64) -> KnownName<'a>
    ensures { (name : List ℕ) → known_of result ≡ laws.global_by (global_of global.now)
        (Some (record { name = name; address = address; kind = kind; size = size })) }
{
    if address != global.address {
        return plain_global(global);
    }
    KnownName {
        name: global.name.as_slice(),
        address,
        kind,
        size,
    }
}

/// A global of which nothing more is known.
fn plain_global(global: &Global) -> KnownName<'_>
    ensures { known_of result ≡ laws.plain_global (global_of global.now) }
{
    KnownName {
        name: global.name.as_slice(),
        address: global.address,
        kind: SymbolType::NoType,
        size: 0,
    }
}
