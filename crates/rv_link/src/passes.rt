//! The passes of a link of objects by their plan, which tells what is kept of each call and of each padding.
//!
//! Each pass fixes one thing: what names mean was first, then come addresses, then bytes. The order of the faults is that of the passes,
//! so what costs least to see is told first.

ghost use Rattle.std.specs.Prelude.{◌≡◌, ◌%◌, ◌<◌, ◌≤◌, [], All, List, Some, length, map, true, IfOk, IfErr, OnOk};
ghost use Rattle.std.specs.List.{list_any};
ghost use Rattle.rv_map_laws.specs.Globals.{AreDistinct};
ghost use Rattle.rv_image_laws.specs.Free as frees;
ghost use Rattle.rv_image.specs.Views.{linked_of};
ghost use Rattle.rv_object_laws.specs.Object.{Object as SaidObject};
ghost use Rattle.rv_object_types.specs.View.{object_of};
ghost use Rattle.rv_link_laws.specs.IsLinkOf.{most_files};
ghost use Rattle.rv_link_laws.specs.Names.{global_names, entry_of};
ghost use Rattle.rv_link_laws.specs.Refusals.{AreDoubled, ArePast, AreUnnamed, AreUnplaced, IsOddEntry, IsUnlinked};
ghost use Rattle.rv_shorten.specs.View.{short_object_of};
ghost use Rattle.rv_relax.specs.Plan.{are_roomy_objects, planned_objects};
ghost use Rattle.rv_placement.specs.Placement.{IsPlacement, are_roomy, starts_of, layout_of};
ghost use Rattle.rv_map_laws.specs.Limits.{IsDrop, IsMap};
ghost use Rattle.rv_link.specs.Made.{made};
ghost use Rattle.rv_link.specs.Left.{IsLinkWith};
ghost use Rattle.rv_link_laws.specs.WithMap.{map_where};
ghost use Rattle.rv_names.specs.Names.{IsDuplicate, IsNames};
ghost use Rattle.rv_addresses.specs.Resolution.{all};
ghost use Rattle.rv_link_laws.specs.Entry.{has_entry};
ghost use Rattle.rv_link_laws.specs.Exports.{first_duplicate};
ghost use Rattle.rv_link_laws.specs.Undefined.{first_undefined};
ghost use Rattle.rv_fault.specs.declared.link_fault.LinkFault.TheVariants.{EntryMissing, OutOfMemory};
ghost use Rattle.rv_link.specs.Untaken.{AreUnfilled};
ghost use Rattle.rv_link_laws.specs.TextStart.{AreWithin};
ghost use Rattle.rv_link.specs.Regions.{AreGrown, HasLinkNames, IsReady, IsPlaced};

use crate::fixed::Fixed;
use crate::ground::free_until;
use crate::regions::Regions;
use crate::with_map::{globals as globals_of_map, rows as rows_of_map};
use rv_addresses::Resolution;
use rv_fault::LinkFault;
use rv_image::Linked;
use rv_link_laws::Ground;
use rv_link_values::Values;
use rv_map::Map;
use rv_map_laws::SectionId;
use rv_names::{Names, ResolveFault};
use rv_object_types::Object;
use rv_placement::Placement;
use rv_relax::Plan;
use rv_shorten::ShortObject;
use std::alloc::{AllocError, Global};

/// The most files that are linked at once.
pub const MOST_FILES: usize = 1024;

/// Links objects by their plan into a program on a ground, whose names mean this. Its map says what was
/// dropped of them before, and has names and rows where they are wanted.
pub(crate) fn link_by_plan(
    alloc: Global,
    plan: &Plan<'_, '_>,
    names: &Names<'_>,
    drops: Vec<SectionId>,
    bounds: Ground,
    with_map: bool,
) -> Result<Linked, LinkFault>
    requires within { AreWithin (length (planned_objects plan.now)) bounds }
    requires names { IsNames (planned_objects plan.now) names.now }
    requires drops { All (λ d. IsDrop d) drops.items }
    ensures links { IfOk result (λ l. IsLinkWith (planned_objects plan.now)
        bounds drops.items with_map (linked_of l)) }
    ensures refuses { IfErr result (IsUnlinked (planned_objects plan.now) bounds) }
{
    let objects = plan.objects.as_slice();
    let resolved = Resolution { objects, names };
    let placement = placed(alloc, plan, &resolved, bounds)?;
    let entry = entry(&resolved, &placement)?;
    // all addresses are fixed: those of sections, of what is kept of them, and of names
    let regions = fill(alloc, &resolved, &placement)?;
    // all bytes are fixed; what is left is to show them
    let linked = finish(alloc, &resolved, drops, placement, entry, regions, with_map)?;
    Ok(linked)
}

/// Where the sections of objects stand by their plan, on a ground: each reference has a meaning, a run can begin, and each padding has
/// room.
pub(crate) fn placed<'p>(
    alloc: Global,
    plan: &'p Plan<'_, '_>,
    resolution: &Resolution<'_, '_, '_, '_>,
    bounds: Ground,
) -> Result<Placement<'p>, LinkFault>
    requires within { AreWithin (length (planned_objects plan.now)) bounds }
    requires same { all resolution.now ≡ planned_objects plan.now }
    ensures named { IfOk result (λ _. HasLinkNames (all resolution.now)) }
    ensures begins { IfOk result (λ _. has_entry (all resolution.now) ≡ true) }
    ensures placed { IfOk result (IsPlacement (all resolution.now) bounds) }
    ensures room { IfOk result (λ placement. are_roomy placement ≡ true) }
    ensures refuses { IfErr result (IsUnlinked (planned_objects plan.now) bounds) }
{
    resolve(alloc, resolution)?;
    if !resolution.has_entry() {
        return Err(LinkFault::EntryMissing);
    }
    if !plan.is_roomy() {
        return Err(LinkFault::AlignmentShort);
    }
    let placement = place(alloc, plan, bounds)?;
    Ok(placement)
}

/// Whether so many files can be linked, to a program on a ground.
pub fn within_limits(files: usize, bounds: Ground) -> Result<(), LinkFault>
    ensures within { OnOk result (AreWithin files bounds) }
    ensures refuses { IfErr result (ArePast files bounds) }
{
    if MOST_FILES < files {
        return Err(LinkFault::TooManyFiles);
    }
    let free = free_until(bounds.text);
    if bounds.text % 4096 != 0 || bounds.ceiling <= bounds.text || free < bounds.ceiling {
        return Err(LinkFault::BadTextStart);
    }
    Ok(())
}

/// What the names of objects mean: each has one definition for all files at most.
pub(crate) fn named<'a>(alloc: Global, objects: &[Object<'a>]) -> Result<Names<'a>, LinkFault>
    ensures names { IfOk result (IsNames (map object_of objects.now)) }
    ensures refuses { IfErr result (AreDoubled (map object_of objects.now)) }
{
    match Names::of(alloc, objects) {
        Ok(names) => Ok(names),
        Err(fault) => Err(of_names(alloc, fault)?),
    }
}

/// No reference is to a name without a meaning.
fn resolve(alloc: Global, resolution: &Resolution<'_, '_, '_, '_>) -> Result<(), LinkFault>
    ensures named { OnOk result (HasLinkNames (all resolution.now)) }
    ensures refuses { IfErr result (AreUnnamed (all resolution.now)) }
{
    match resolution.undefined() {
        Some(name) => Err(undefined(alloc, name)?),
        None => Ok(()),
    }
}

/// The fault of names.
fn of_names(alloc: Global, fault: ResolveFault<'_>) -> Result<LinkFault, AllocError>
    ensures { (os : List SaidObject) → IsDuplicate fault.entry (first_duplicate os)
        → IfOk result (AreDoubled os) }
{
    match fault {
        ResolveFault::Duplicate(name) => {
            let name = Vec::from_slice(alloc, name)?;
            Ok(LinkFault::Duplicate(name))
        }
        ResolveFault::OutOfMemory => Ok(LinkFault::OutOfMemory),
    }
}

/// The fault of a name that nobody defines.
fn undefined(alloc: Global, name: &[u8]) -> Result<LinkFault, AllocError>
    ensures { (os : List SaidObject) → AreDistinct (global_names os)
        → first_undefined os ≡ Some name.now → IfOk result (AreUnnamed os) }
{
    let name = Vec::from_slice(alloc, name)?;
    Ok(LinkFault::Undefined(name))
}

/// Where the sections of objects stand by their plan.
fn place<'p>(
    alloc: Global,
    plan: &'p Plan<'_, '_>,
    bounds: Ground,
) -> Result<Placement<'p>, LinkFault>
    requires page { bounds.text % 4096 ≡ 0 }
    requires low { bounds.text < bounds.ceiling }
    requires free { bounds.ceiling ≤ frees.free_until bounds.text }
    requires roomy { are_roomy_objects (planned_objects plan.now) ≡ true }
    ensures placed { IfOk result (IsPlacement (planned_objects plan.now) bounds) }
    ensures room { IfOk result (λ placement. are_roomy placement ≡ true) }
    ensures refuses { IfErr result (AreUnplaced (planned_objects plan.now) bounds) }
{
    let placement = Placement::of(alloc, plan, bounds)?;
    Ok(placement)
}

/// Where a run begins: at an even address, as that of each even place of code is.
fn entry(
    resolution: &Resolution<'_, '_, '_, '_>,
    placement: &Placement<'_>,
) -> Result<u64, LinkFault>
    requires { IsPlaced (all resolution.now) placement.now }
    ensures entry { IfOk result
        (λ a. entry_of (starts_of placement.now) (all resolution.now) ≡ Some a) }
    ensures even { IfOk result (λ a. a % 2 ≡ 0) }
    ensures refuses { IfErr result (λ fault. (fault ≡ EntryMissing)
        × IsOddEntry (all resolution.now) (layout_of placement.now)) }
{
    match resolution.entry(placement) {
        Some(entry) => {
            if entry % 2 == 0 {
                Ok(entry)
            } else {
                Err(LinkFault::EntryMissing)
            }
        }
        None => Err(LinkFault::EntryMissing),
    }
}

/// The bytes of the regions of placed objects.
fn fill(
    alloc: Global,
    resolution: &Resolution<'_, '_, '_, '_>,
    placement: &Placement<'_>,
) -> Result<Regions, LinkFault>
    requires { IsReady (all resolution.now) placement.now }
    ensures filled { IfOk result (AreGrown (all resolution.now) placement.now (λ goes. [])) }
    ensures refuses { IfErr result (AreUnfilled (all resolution.now) placement.now) }
{
    let values = Values::of(alloc, resolution, placement)?;
    let fixed = Fixed {
        objects: resolution.objects,
        placement,
        values: &values,
    };
    Regions::of(alloc, &fixed)
}

/// The program of placed objects, whose regions are filled, and its map, with names and rows where they are wanted.
fn finish(
    alloc: Global,
    resolution: &Resolution<'_, '_, '_, '_>,
    drops: Vec<SectionId>,
    placement: Placement<'_>,
    entry: u64,
    regions: Regions,
    with_map: bool,
) -> Result<Linked, LinkFault>
    requires few { length (resolution.now).objects.now ≤ most_files }
    requires placed { IsPlaced (all resolution.now) placement }
    requires free { placement.bss.end ≤ frees.free_until placement.text.start }
    requires grown { AreGrown (all resolution.now) placement (λ goes. []) regions }
    requires even { entry % 2 ≡ 0 }
    requires drops { All (λ d. IsDrop d) drops.items }
    ensures made { IfOk result
        (λ l. linked_of l ≡ map_where with_map
        (made drops.items (all resolution.now) placement.entry entry regions)) }
    ensures readable { IfOk result (λ _. IsMap
        (made drops.items (all resolution.now) placement.entry entry regions).map) }
    ensures refuses { IfErr result (λ fault. fault ≡ OutOfMemory) }
{
    let globals = globals_of_map(alloc, resolution, &placement, with_map)?;
    let rows = rows_of_map(alloc, resolution.objects, &placement, with_map)?;
    let map = Map {
        text: placement.text,
        rodata: placement.rodata,
        data: placement.data,
        bss: placement.bss,
        entry,
        gaps: placement.gaps,
        globals,
        drops,
        rows,
    };
    Ok(Linked {
        text: regions.text,
        rodata: regions.rodata,
        data: regions.data,
        map,
        rvc: has_compressed(resolution.objects),
    })
}

/// Whether an object has compressed code.
fn has_compressed(objects: &[ShortObject<'_, '_>]) -> bool
    ensures { result ≡ list_any (λ o. o.rvc) (map short_object_of objects.now) }
{
    objects.iter().any(|object| object.whole.rvc)
}
