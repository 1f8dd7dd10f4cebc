//! The details of a program's map: its global names and its rows.
//!
//! A map is long beside its program, and has each name whole, so its names and rows are made only where someone wants
//! them. That a text could show them, as it can every map, is known without them.

ghost use Rattle.std.specs.Prelude.{◌≡◌, IfOk, map, ℕ};
ghost use Rattle.rv_map.specs.Views.{global_of};
ghost use Rattle.rv_link_laws.specs.declared.bounds.Ground.{Ground};
ghost use Rattle.rv_link_laws.specs.IsLinkOf.{rows_of};
ghost use Rattle.rv_link_laws.specs.Layout.{shown_globals};
ghost use Rattle.rv_shorten.specs.View.{short_object_of};
ghost use Rattle.rv_placement.specs.Placement.{starts_of, IsPlacement, layout_of};
ghost use Rattle.rv_addresses.specs.Resolution.{all};
ghost use Rattle.rv_link_laws.specs.WithMap.{listed_where};

use rv_addresses::Resolution;
use rv_map::Global as MapGlobal;
use rv_map_laws::Row as MapRow;
use rv_placement::Placement;
use rv_shorten::ShortObject;
use std::alloc::{AllocError, Global};

/// The global names of the map of placed objects; none where they are not wanted.
pub(crate) fn globals(
    alloc: Global,
    resolution: &Resolution<'_, '_, '_, '_>,
    placement: &Placement<'_>,
    with_map: bool,
) -> Result<Vec<MapGlobal>, AllocError>
    ensures { (bounds : Ground) → IsPlacement (all resolution.now) bounds placement.now
        → IfOk result (λ globals. map global_of globals.items
        ≡ listed_where with_map (shown_globals (all resolution.now) (layout_of placement.now))) }
{
    if with_map {
        return resolution.globals(alloc, placement);
    }
    Ok(Vec::new(alloc))
}

/// The rows of the map of placed objects; none where they are not wanted.
pub(crate) fn rows(
    alloc: Global,
    objects: &[ShortObject<'_, '_>],
    placement: &Placement<'_>,
    with_map: bool,
) -> Result<Vec<MapRow>, AllocError>
    ensures { (bounds : Ground) → IsPlacement (map short_object_of objects.now) bounds placement.now
        → IfOk result (λ rows. rows.items
        ≡ listed_where with_map (rows_of (starts_of placement.now) 1 (map short_object_of objects.now))) }
{
    if with_map {
        return placement.rows(alloc, objects);
    }
    Ok(Vec::new(alloc))
}
