//! The sections of objects with their places.

ghost use Rattle.std.specs.Prelude.{◌≡◌, ◌+◌, ◌%◌, ◌<◌, ◌≤◌, ℕ, true, IfOk, IfErr, Some, map, option_map};
ghost use Rattle.std.specs.List.{slice_get};
ghost use Rattle.rv_image_laws.specs.Free.{free_until};
ghost use Rattle.rv_object_laws.specs.Object.{Object as PlainObject};
ghost use Rattle.rv_link_laws.specs.declared.bounds.Ground.{Ground as SaidGround};
ghost use Rattle.rv_link_laws.specs.Names.{offset_address};
ghost use Rattle.rv_shorten.specs.Sections.{short_section_of};
ghost use Rattle.rv_shorten.specs.View.{short_object_of};
ghost use Rattle.rv_relax.specs.Plan.{are_roomy_objects, planned_objects};
ghost use Rattle.rv_link_laws.specs.Layout as laws;
ghost use Rattle.rv_placement.specs.Placement.{starts_of, placed_at, are_roomy, IsPlacement, IsUnplaced};

use crate::fault::PlacementFault;
use crate::regions::{Regions, regions_behind};
use crate::text::put_files;
use rv_image::MEMORY_LIMIT;
use rv_link_laws::Ground;
use rv_map_laws::Region;
use rv_object_types::{FileIndex, Place, SectionIndex};
use rv_relax::{Plan, SectionPaddings};
use rv_shorten::{ShortObject, ShortSection};
use std::alloc::Global;

/// A section with its address, and what is kept of it.
#[derive(Drop)]
pub struct PlacedSection<'p> {
    /// The address of its first byte; 0 if it has no place in memory.
    pub start: u64,
    /// What is kept of its paddings.
    pub plan: &'p SectionPaddings,
}

/// Where the sections of objects stand.
#[derive(Drop)]
pub struct Placement<'p> {
    /// By object, and then by section, in their order.
    pub files: Vec<Vec<PlacedSection<'p>>>,
    /// The instructions.
    pub text: Region,
    /// The constants.
    pub rodata: Region,
    /// The variables, but for those that begin as zeros.
    pub data: Region,
    /// The variables that begin as zeros.
    pub bss: Region,
    /// The parts of the text between its sections.
    pub gaps: Vec<Region>,
}

/// The bytes of memory that the regions need.
fn memory_of(text: Region, behind: Regions) -> u64
    requires { (text.end ≤ behind.rodata.start) × (behind.rodata.start ≤ behind.rodata.end)
        × (behind.rodata.end ≤ behind.data.start) }
    ensures { result ≡ laws.memory_of text behind.rodata behind.data behind.bss }
{
    text.end.saturating_sub(text.start)
        + behind.rodata.end.saturating_sub(behind.rodata.start)
        + behind.bss.end.saturating_sub(behind.data.start)
}

/// A section of a file.
pub(crate) fn section_at<'s, 'o, 'a>(
    objects: &'s [ShortObject<'o, 'a>],
    file: FileIndex,
    index: SectionIndex,
) -> Option<&'s ShortSection<'o, 'a>>
    ensures { option_map (λ s. short_section_of s.now) result
        ≡ laws.object_section (map short_object_of objects.now) file.0 index.0 }
{
    let object = objects.get(file.0)?;
    object.sections.get(index.0)
}

impl<'p> Placement<'p> {
    /// Places the sections of objects by their plan, in which each padding has room. The text begins where the ground does.
    pub fn of(
        alloc: Global,
        plan: &'p Plan<'_, '_>,
        bounds: Ground,
    ) -> Result<Placement<'p>, PlacementFault>
        requires page { bounds.text % 4096 ≡ 0 }
        requires low { bounds.text < bounds.ceiling }
        requires free { bounds.ceiling ≤ free_until bounds.text }
        requires roomy { are_roomy_objects (planned_objects plan.now) ≡ true }
        ensures placement { IfOk result (IsPlacement (planned_objects plan.now) bounds) }
        ensures room { IfOk result (λ placement. are_roomy placement ≡ true) }
        ensures refuses { IfErr result (IsUnplaced (planned_objects plan.now) bounds) }
    {
        let mut files: Vec<Vec<PlacedSection<'p>>> = Vec::new(alloc);
        let mut gaps = Vec::new(alloc);
        let objects = plan.objects.as_slice();
        let found = put_files(
            alloc,
            &mut files,
            &mut gaps,
            objects,
            plan.paddings.as_slice(),
            bounds.text,
            bounds.ceiling,
        )?;
        let Some(end) = found else {
            return Err(PlacementFault::TooLarge);
        };
        let text = Region {
            start: bounds.text,
            end,
        };
        let Some(behind) = regions_behind(files.as_mut_slice(), objects, end, bounds.ceiling) else {
            return Err(PlacementFault::TooLarge);
        };
        if memory_of(text, behind) > MEMORY_LIMIT {
            return Err(PlacementFault::TooLarge);
        }
        Ok(Placement {
            files,
            text,
            rodata: behind.rodata,
            data: behind.data,
            bss: behind.bss,
            gaps,
        })
    }

    /// Where a section of a file stands, with what is kept of it.
    pub fn section(&self, file: FileIndex, index: SectionIndex) -> Option<&PlacedSection<'p>>
        ensures { option_map (λ q. q.now) result ≡ placed_at self.now file.0 index.0 }
    {
        let section = self.files.get(file.0)?;
        section.get(index.0)
    }

    /// The address of a place of the objects; none where its section has none.
    pub fn address(&self, objects: &[ShortObject<'_, '_>], place: Place) -> Option<u64>
        ensures { (bounds : SaidGround) (o : PlainObject)
            → IsPlacement (map short_object_of objects.now) bounds self.now
            → slice_get (map short_object_of objects.now) place.file.0 ≡ Some o
            → result ≡ offset_address (starts_of self.now (place.file.0 + 1) place.section.0)
            place.offset (slice_get o.sections place.section.0) }
    {
        let stands = section_at(objects, place.file, place.section)?;
        let placed = self.section(place.file, place.section)?;
        if !stands.whole.loaded {
            return None;
        }
        Some(
            placed
                .start
                .wrapping_add(placed.plan.new_offset(place.offset)),
        )
    }
}
