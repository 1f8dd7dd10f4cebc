//! Names to which sections refer that no program loads.
//!
//! A link refuses a name without a definition where the program needs it. Behind an executable for debuggers such a name would
//! be 0, so it is refused there too, as GNU's linkers do.

use rv_chain::Fault;
use rv_debug::Object;
use rv_debug_sections::carried_references;
use rv_fault::LinkFault;
use rv_object_types::{Binding, Definition, Symbol};
use rv_system::{JobError, fault_line};
use std::alloc::{AllocError, Global};
use std::collections::HashSet;

/// Refuses the first name without a definition to which these files refer from sections that no program loads. Their objects'
/// symbols have these addresses.
pub(crate) fn check_references(
    alloc: Global,
    names: &[&str],
    files: &[&[u8]],
    objects: &[Object<'_>],
    addresses: &[Vec<Option<u64>>],
) -> Result<(), JobError> {
    let mut open: Vec<&[u8]> = Vec::new(alloc);
    for (file, (object, addresses)) in files.iter().zip(objects.iter().zip(addresses.iter())) {
        put_open(alloc, file, object, addresses.as_slice(), &mut open)?;
    }
    if open.is_empty() {
        return Ok(());
    }
    let defined = defined_names(alloc, objects)?;
    match open.iter().find(|name| !defined.contains(*name)) {
        Some(name) => {
            let name = Vec::from_slice(alloc, name)?;
            let fault = Fault::Link(LinkFault::Undefined(name));
            Err(fault_line(alloc, &fault, names)?)
        }
        None => Ok(()),
    }
}

/// Adds the names without an address to which an object refers from sections that no program loads.
fn put_open<'o>(
    alloc: Global,
    file: &[u8],
    object: &'o Object<'_>,
    addresses: &[Option<u64>],
    open: &mut Vec<&'o [u8]>,
) -> Result<(), AllocError> {
    let numbers = carried_references(alloc, file)?;
    for number in &numbers {
        let index = (*number as usize).wrapping_sub(1);
        let Some(symbol) = object.symbols.get(index) else {
            continue;
        };
        if is_open(symbol) && !matches!(addresses.get(index), Some(Some(_))) {
            open.push(symbol.name)?;
        }
    }
    Ok(())
}

/// Whether a symbol is a name that another object has to define.
fn is_open(symbol: &Symbol<'_>) -> bool {
    matches!(symbol.definition, Definition::Undefined) && matches!(symbol.binding, Binding::Global)
}

/// The names that objects define for all, also in sections that the program has not.
fn defined_names<'o>(
    alloc: Global,
    objects: &'o [Object<'_>],
) -> Result<HashSet<&'o [u8]>, AllocError> {
    let mut defined: HashSet<&'o [u8]> = HashSet::new(alloc);
    for object in objects {
        put_defined(object, &mut defined)?;
    }
    Ok(defined)
}

/// Adds the names that an object defines for all.
fn put_defined<'o>(
    object: &'o Object<'_>,
    defined: &mut HashSet<&'o [u8]>,
) -> Result<(), AllocError> {
    for symbol in &object.symbols {
        let is_local = matches!(symbol.binding, Binding::Local);
        if !is_local && !matches!(symbol.definition, Definition::Undefined) {
            defined.insert(symbol.name)?;
        }
    }
    Ok(())
}
