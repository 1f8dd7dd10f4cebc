//! The names of objects, one object after another.

ghost use Rattle.std.specs.Prelude.{◌≡◌, ◌++◌, IsTrue, map, option_map, OnOk};
ghost use Rattle.rv_map_laws.specs.Name.{is_name};
ghost use Rattle.rv_object_types.specs.Parts.{symbol_of};
ghost use Rattle.rv_labels.specs.Known.{known_of};
ghost use Rattle.rv_table_names.specs.Tables as laws;
ghost use Rattle.rv_table_names.specs.Views.{tabled_of};

use crate::asked::is_wanted;
use crate::tabled::{Tabled, extent_at, type_at};
use rv_labels::KnownName;
use rv_object_types::{Binding, Symbol};
use std::alloc::AllocError;

/// Adds the names of objects that are asked for.
pub(crate) fn put_names<'f>(
    names: &mut Vec<KnownName<'f>>,
    binding: Binding,
    objects: &[Tabled<'_, 'f>],
) -> Result<(), AllocError>
    ensures { OnOk result (map known_of names.new.items ≡ map known_of names.old.items
        ++ laws.wanted_names binding (map tabled_of objects.now)) }
{
    for object in objects {
        put_object(names, binding, object)?;
    }
    Ok(())
}

/// Adds those of an object.
fn put_object<'f>(
    names: &mut Vec<KnownName<'f>>,
    binding: Binding,
    object: &Tabled<'_, 'f>,
) -> Result<(), AllocError>
    ensures { OnOk result (map known_of names.new.items ≡ map known_of names.old.items
        ++ laws.object_names binding (tabled_of object.now)) }
{
    for index in 0..object.symbols.len() {
        put_symbol(names, binding, object, index, &object.symbols[index])?;
    }
    Ok(())
}

/// Adds the symbol at an index of an object, if it is asked for and is a name with an address.
fn put_symbol<'f>(
    names: &mut Vec<KnownName<'f>>,
    binding: Binding,
    object: &Tabled<'_, 'f>,
    index: usize,
    symbol: &Symbol<'f>,
) -> Result<(), AllocError>
    ensures { OnOk result (map known_of names.new.items ≡ map known_of names.old.items
        ++ laws.wanted_name binding (tabled_of object.now) index (symbol_of symbol.now)) }
{
    if !is_wanted(binding, symbol) {
        return Ok(());
    }
    let Some(known) = known(object, index, symbol) else {
        return Ok(());
    };
    names.push(known)?;
    Ok(())
}

/// What is known of the symbol at an index of an object, if it is a name with an address.
fn known<'f>(object: &Tabled<'_, 'f>, index: usize, symbol: &Symbol<'f>) -> Option<KnownName<'f>>
    requires { IsTrue (is_name (symbol.now).name.now) }
    ensures { option_map known_of result
        ≡ laws.symbol_name (tabled_of object.now) index (symbol_of symbol.now) }
{
    let kind = type_at(object.records, index)?;
    let extent = extent_at(object.extents, index)?;
    Some(KnownName {
        name: symbol.name,
        address: extent.address,
        kind,
        size: extent.size,
    })
}
