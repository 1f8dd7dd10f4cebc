//! The program that objects become.

ghost use Rattle.std.specs.Prelude.{All, length, true, map, IfOk, IfErr};
ghost use Rattle.rv_image.specs.Views.{linked_of};
ghost use Rattle.rv_map_laws.specs.Limits.{IsDrop};
ghost use Rattle.rv_object_types.specs.View.{object_of};
ghost use Rattle.rv_link_laws.specs.Ground.{usual};
ghost use Rattle.rv_link_laws.specs.IsProgramOf.{IsProgramOf};
ghost use Rattle.rv_link_laws.specs.Refusals.{HasNoProgram};
ghost use Rattle.rv_names.specs.Names.{IsNames};
ghost use Rattle.rv_link.specs.Left.{HasNoLink, IsLinkOfLeft};
ghost use Rattle.rv_link_laws.specs.TextStart.{AreWithin};
ghost use Rattle.rv_link_laws.specs.WithMap.{IsProgramWith, IsProgramWithoutMap};

use crate::options::{GroundOptions, LinkOptions};
use crate::passes::{link_by_plan, named, within_limits};
use crate::relaxation::relaxed;
use rv_collect::Collection;
use rv_fault::LinkFault;
use rv_image::Linked;
use rv_map_laws::SectionId;
use rv_names::Names;
use rv_object_types::Object;
use std::alloc::Global;

/// Links objects into a program, whose text starts at an address below the stack. The objects are lent.
///
/// # Errors
///
/// The first fault of the objects that collection and relaxation leave, in the order of the passes: too many of them, a bad start
/// of the text, names that are defined twice or not at all, a missing entry, paddings without room, too much memory, and then
/// fields that cannot hold their values, by file, section and relocation.
pub fn link(
    alloc: Global,
    objects: &[Object<'_>],
    options: LinkOptions,
) -> Result<Linked, LinkFault>
    ensures links { IfOk result (λ l. IsProgramOf (map object_of objects.now)
        (usual options.text_start) options.relax options.gc (linked_of l)) }
    ensures refuses { IfErr result (HasNoProgram (map object_of objects.now)
        (usual options.text_start) options.relax options.gc) }
{
    link_on(alloc, objects, options.grounded())
}

/// Links objects as `link`, on any ground.
///
/// # Errors
///
/// Those of `link`.
pub fn link_on(
    alloc: Global,
    objects: &[Object<'_>],
    options: GroundOptions,
) -> Result<Linked, LinkFault>
    ensures links { IfOk result (λ l. IsProgramOf (map object_of objects.now)
        options.bounds options.relax options.gc (linked_of l)) }
    ensures refuses { IfErr result (HasNoProgram (map object_of objects.now)
        options.bounds options.relax options.gc) }
{
    link_with_map(alloc, objects, options, true)
}

/// Links objects as `link_on`, without the names and the rows of the map, which the executable does not need.
///
/// # Errors
///
/// Those of `link`.
pub fn link_exe_on(
    alloc: Global,
    objects: &[Object<'_>],
    options: GroundOptions,
) -> Result<Linked, LinkFault>
    ensures links { IfOk result (λ l. IsProgramWithoutMap (map object_of objects.now)
        options.bounds options.relax options.gc (linked_of l)) }
    ensures refuses { IfErr result (HasNoProgram (map object_of objects.now)
        options.bounds options.relax options.gc) }
{
    link_with_map(alloc, objects, options, false)
}

/// Links objects as `link`, with the names and the rows of the map where they are wanted.
fn link_with_map(
    alloc: Global,
    objects: &[Object<'_>],
    options: GroundOptions,
    with_map: bool,
) -> Result<Linked, LinkFault>
    ensures links { IfOk result (λ l. IsProgramWith (map object_of objects.now)
        options.bounds options.relax options.gc with_map (linked_of l)) }
    ensures refuses { IfErr result (HasNoProgram (map object_of objects.now)
        options.bounds options.relax options.gc) }
{
    within_limits(objects.len(), options.bounds)?;
    // where the program may stand is fixed from here on
    let names = named(alloc, objects)?;
    // what each name means is fixed: which symbol defines it, though not where that stands
    if options.gc {
        return link_collected(alloc, objects, &names, options, with_map);
    }
    link_left(alloc, objects, &names, Vec::new(alloc), options, with_map)
}

/// Links what collection leaves of objects, whose names mean this.
fn link_collected(
    alloc: Global,
    objects: &[Object<'_>],
    names: &Names<'_>,
    options: GroundOptions,
    with_map: bool,
) -> Result<Linked, LinkFault>
    requires within { AreWithin (length objects.now) options.bounds }
    requires names { IsNames (map object_of objects.now) names.now }
    ensures links { IfOk result (λ l. IsProgramWith (map object_of objects.now)
        options.bounds options.relax true with_map (linked_of l)) }
    ensures refuses { IfErr result (HasNoProgram (map object_of objects.now)
        options.bounds options.relax true) }
{
    let collection = Collection::of(alloc, objects, names)?;
    let kept = collection.left(alloc, objects)?;
    let drops = collection.drops(alloc, objects)?;
    // which sections are linked is fixed
    link_left(alloc, &kept, names, drops, options, with_map)
}

/// Links the objects that collection leaves, whose names mean this, into a program whose map says what it dropped.
fn link_left(
    alloc: Global,
    objects: &[Object<'_>],
    names: &Names<'_>,
    drops: Vec<SectionId>,
    options: GroundOptions,
    with_map: bool,
) -> Result<Linked, LinkFault>
    requires within { AreWithin (length objects.now) options.bounds }
    requires names { IsNames (map object_of objects.now) names.now }
    requires drops { All (λ d. IsDrop d) drops.items }
    ensures links { IfOk result (λ l. IsLinkOfLeft (map object_of objects.now)
        options.bounds options.relax drops.items with_map (linked_of l)) }
    ensures refuses { IfErr result
        (HasNoLink (map object_of objects.now) options.bounds options.relax) }
{
    let plan = relaxed(alloc, objects, names, options.relax)?;
    // no call and no padding changes any more
    link_by_plan(alloc, &plan, names, drops, options.bounds, with_map)
}
