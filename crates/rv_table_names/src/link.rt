//! The names of a link.

ghost use Rattle.std.specs.Prelude.{◌≡◌, map, reverse, IfOk};
ghost use Rattle.rv_map.specs.Views.{global_of};
ghost use Rattle.rv_labels.specs.Known.{known_of, plain_names};
ghost use Rattle.rv_table_names.specs.Tables as laws;
ghost use Rattle.rv_table_names.specs.Views.{tabled_of};

use crate::names::put_names;
use crate::tabled::Tabled;
use rv_labels::{KnownName, Names, known_globals};
use rv_map::Global;
use rv_object_types::Binding;
use std::alloc::{AllocError, Global as Allocator};

/// The names of a link of these objects, whose map has these globals: the labels of the objects, and the globals, with the
/// types that the objects' tables say, and with the sizes that the link left.
pub fn table_names<'f, 'm>(
    alloc: Allocator,
    objects: &[Tabled<'_, 'f>],
    globals: &'m [Global],
) -> Result<Names<'f, 'm>, AllocError>
    ensures { IfOk result (λ names. plain_names names
        ≡ laws.table_names (map tabled_of objects.now) (map global_of globals.now)) }
{
    let mut labels = Vec::new(alloc);
    put_names(&mut labels, Binding::Local, objects)?;
    let defined = defined_names(alloc, objects)?;
    let globals = known_globals(alloc, defined.as_slice(), globals)?;
    Ok(Names { labels, globals })
}

/// The definitions that all objects can mean, the last one first.
fn defined_names<'f>(
    alloc: Allocator,
    objects: &[Tabled<'_, 'f>],
) -> Result<Vec<KnownName<'f>>, AllocError>
    ensures { IfOk result (λ names. map known_of names.items
        ≡ reverse (laws.defined_names (map tabled_of objects.now))) }
{
    let mut names = Vec::new(alloc);
    put_names(&mut names, Binding::Global, objects)?;
    put_names(&mut names, Binding::Weak, objects)?;
    names.reverse();
    Ok(names)
}
