//! The names of an object that concern other objects.

ghost use Rattle.std.specs.Prelude.{◌≡◌, map, IfOk};
ghost use Rattle.rv_inputs.specs.Plain.{plain_names, plain_texts};
ghost use Rattle.rv_object_types.specs.Parts.{symbol_of};
ghost use Rattle.rv_object_types.specs.View.{object_of};
ghost use Rattle.rv_link_laws.specs.Names as laws;
ghost use Rattle.rv_inputs.specs.Names.{gives_name, asks_name, names_said, names_where};

use crate::object_names::ObjectNames;
use rv_object_types::{Binding, Definition, Object, Symbol};
use std::alloc::{AllocError, Global};

/// The names of an object that concern other objects.
pub(crate) fn names_in<'a>(
    alloc: Global,
    object: &Object<'a>,
) -> Result<ObjectNames<'a>, AllocError>
    ensures { IfOk result (λ names. plain_names names ≡ names_said (object_of object.now)) }
{
    let symbols = object.symbols.as_slice();
    let defined = given_names(alloc, symbols)?;
    let undefined = asked_names(alloc, symbols)?;
    Ok(ObjectNames { defined, undefined })
}

/// The names that symbols define for all files.
fn given_names<'a>(alloc: Global, symbols: &[Symbol<'a>]) -> Result<Vec<&'a [u8]>, AllocError>
    ensures { IfOk result (λ names. plain_texts names.items
        ≡ names_where gives_name (map symbol_of symbols.now)) }
{
    let mut names = Vec::new(alloc);
    for i in 0..symbols.len() {
        let symbol = &symbols[i];
        if !gives_name(symbol) {
            continue;
        }
        names.push(symbol.name)?;
    }
    Ok(names)
}

/// The names that symbols leave to other objects.
fn asked_names<'a>(alloc: Global, symbols: &[Symbol<'a>]) -> Result<Vec<&'a [u8]>, AllocError>
    ensures { IfOk result (λ names. plain_texts names.items
        ≡ names_where asks_name (map symbol_of symbols.now)) }
{
    let mut names = Vec::new(alloc);
    for i in 0..symbols.len() {
        let symbol = &symbols[i];
        if !asks_name(symbol) {
            continue;
        }
        names.push(symbol.name)?;
    }
    Ok(names)
}

/// Whether a symbol defines its name for all files.
fn gives_name(symbol: &Symbol<'_>) -> bool
    ensures { result ≡ gives_name (symbol_of symbol.now) }
{
    match symbol.binding {
        Binding::Local => false,
        Binding::Global => is_defined(symbol.definition),
        Binding::Weak => is_defined(symbol.definition),
    }
}

/// Whether a symbol leaves its name to other objects, and does not do without.
fn asks_name(symbol: &Symbol<'_>) -> bool
    ensures { result ≡ asks_name (symbol_of symbol.now) }
{
    match symbol.binding {
        Binding::Local => false,
        Binding::Global => !is_defined(symbol.definition),
        Binding::Weak => false,
    }
}

/// Whether a symbol of this definition is its own object's.
fn is_defined(definition: Definition) -> bool
    ensures { result ≡ laws.is_defined definition }
{
    match definition {
        Definition::Undefined => false,
        Definition::Absolute(_) => true,
        Definition::InSection(_, _) => true,
        Definition::Skipped(_) => true,
    }
}
