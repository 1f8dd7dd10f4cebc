//! Where a link puts the symbols of its objects.
//!
//! A debugger wants the address of each symbol, also of those that no map shows. The passes are those of a link, up to the places of
//! sections: no byte is made.

ghost use Rattle.std.specs.Prelude.{IfErr, IfOk, length, map, true};
ghost use Rattle.rv_object_types.specs.View.{object_of};
ghost use Rattle.rv_link_laws.specs.Refusals.{HasNoProgram, IsUnlinked};
ghost use Rattle.rv_link_laws.specs.TextStart.{AreWithin};
ghost use Rattle.rv_names.specs.Names.{IsNames};
ghost use Rattle.rv_relax.specs.Plan.{planned_objects};
ghost use Rattle.rv_addresses.specs.Extents.{sizes_in};
ghost use Rattle.rv_link.specs.Extents.{AreExtents, AreExtentsLeft};
ghost use Rattle.rv_link.specs.Left.{HasNoLink};
ghost use Rattle.rv_link.specs.PlannedExtents.{AreExtentsOf};

use crate::options::GroundOptions;
use crate::passes::{named, placed, within_limits};
use crate::relaxation::relaxed;
use rv_addresses::{Resolution, SymbolExtent};
use rv_collect::Collection;
use rv_fault::LinkFault;
use rv_link_laws::Ground;
use rv_names::Names;
use rv_object_types::Object;
use rv_relax::Plan;
use std::alloc::Global;

/// Where the link of objects on a ground puts their symbols, and how many bytes are left of each: by file and symbol; none of a symbol
/// without an address, as in a section that is dropped or not loaded. `sizes` says how many bytes each has in its object, by file
/// and symbol too; of what it does not say none are left, nor of what does not lie in its section.
///
/// # Errors
///
/// Those of `link` that come until its sections have their places.
pub fn symbol_extents_on(
    alloc: Global,
    objects: &[Object<'_>],
    sizes: &[Vec<u64>],
    options: GroundOptions,
) -> Result<Vec<Vec<Option<SymbolExtent>>>, LinkFault>
    ensures extents { IfOk result (λ files. AreExtents (map object_of objects.now)
        (sizes_in sizes.now) options.bounds options.relax options.gc
        (map (λ row. row.items) files.items)) }
    ensures refuses { IfErr result (HasNoProgram (map object_of objects.now)
        options.bounds options.relax options.gc) }
{
    within_limits(objects.len(), options.bounds)?;
    let names = named(alloc, objects)?;
    if options.gc {
        return extents_collected(alloc, objects, &names, sizes, options);
    }
    extents_left(alloc, objects, &names, sizes, options)
}

/// Where the link of what collection leaves of objects, whose names mean this, puts their symbols.
fn extents_collected(
    alloc: Global,
    objects: &[Object<'_>],
    names: &Names<'_>,
    sizes: &[Vec<u64>],
    options: GroundOptions,
) -> Result<Vec<Vec<Option<SymbolExtent>>>, LinkFault>
    requires within { AreWithin (length objects.now) options.bounds }
    requires names { IsNames (map object_of objects.now) names.now }
    ensures extents { IfOk result (λ files. AreExtents (map object_of objects.now)
        (sizes_in sizes.now) options.bounds options.relax true
        (map (λ row. row.items) files.items)) }
    ensures refuses { IfErr result (HasNoProgram (map object_of objects.now)
        options.bounds options.relax true) }
{
    let collection = Collection::of(alloc, objects, names)?;
    let kept = collection.left(alloc, objects)?;
    extents_left(alloc, &kept, names, sizes, options)
}

/// Where the link of what relaxation leaves of objects, whose names mean this, puts their symbols.
fn extents_left(
    alloc: Global,
    objects: &[Object<'_>],
    names: &Names<'_>,
    sizes: &[Vec<u64>],
    options: GroundOptions,
) -> Result<Vec<Vec<Option<SymbolExtent>>>, LinkFault>
    requires within { AreWithin (length objects.now) options.bounds }
    requires names { IsNames (map object_of objects.now) names.now }
    ensures extents { IfOk result (λ files. AreExtentsLeft (map object_of objects.now)
        (sizes_in sizes.now) options.bounds options.relax
        (map (λ row. row.items) files.items)) }
    ensures refuses { IfErr result
        (HasNoLink (map object_of objects.now) options.bounds options.relax) }
{
    let plan = relaxed(alloc, objects, names, options.relax)?;
    extents_by_plan(alloc, &plan, names, sizes, options.bounds)
}

/// Where the link of objects by their plan, whose names mean this, puts their symbols.
fn extents_by_plan(
    alloc: Global,
    plan: &Plan<'_, '_>,
    names: &Names<'_>,
    sizes: &[Vec<u64>],
    bounds: Ground,
) -> Result<Vec<Vec<Option<SymbolExtent>>>, LinkFault>
    requires within { AreWithin (length (planned_objects plan.now)) bounds }
    requires names { IsNames (planned_objects plan.now) names.now }
    ensures extents { IfOk result (λ files. AreExtentsOf plan.now (sizes_in sizes.now) bounds
        (map (λ row. row.items) files.items)) }
    ensures refuses { IfErr result (IsUnlinked (planned_objects plan.now) bounds) }
{
    let objects = plan.objects.as_slice();
    let resolved = Resolution { objects, names };
    let placement = placed(alloc, plan, &resolved, bounds)?;
    let extents = resolved.extents(alloc, &placement, sizes)?;
    Ok(extents)
}
