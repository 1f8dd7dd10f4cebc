//! The names of a link.

ghost use Rattle.std.specs.Prelude.{◌≡◌, map, IfOk};
ghost use Rattle.rv_map.specs.Views.{global_of};
ghost use Rattle.rv_debug_laws.specs.Labels as laws;
ghost use Rattle.rv_labels.specs.Known.{described_of, plain_names};

use crate::described::Described;
use crate::globals::known_globals;
use crate::known::Names;
use crate::objects::object_names;
use crate::spans::spans;
use rv_map::{Global, Row};
use std::alloc::{AllocError, Global as Allocator};

/// The names of a link whose map has these rows and globals: the labels of its objects, and the globals, with the types
/// and the sizes that directives say.
pub fn names_of<'o, 'm>(
    alloc: Allocator,
    rows: &[Row],
    globals: &'m [Global],
    objects: &[Described<'o>],
) -> Result<Names<'o, 'm>, AllocError>
    ensures { IfOk result (λ names. plain_names names
        ≡ laws.link_names rows.now (map global_of globals.now) (map described_of objects.now)) }
{
    let spans = spans(alloc, rows)?;
    let labels = object_names(alloc, false, &spans, objects)?;
    let shared = object_names(alloc, true, &spans, objects)?;
    let globals = known_globals(alloc, shared.as_slice(), globals)?;
    Ok(Names { labels, globals })
}
