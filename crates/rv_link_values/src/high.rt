//! The high parts of distances, by where they stand.
//!
//! The high parts of distances are indexed always, in one pass, by file, section and moved offset, the first at each. To
//! know whether a low part exists would take the same pass; where there is no high part nothing is allocated.

ghost use Rattle.std.specs.Prelude.{◌≡◌, ℕ, [], ◌∷◌, Some, map, option_map, IfOk, OnOk};
ghost use Rattle.std.specs.List.{slice_get};
ghost use Rattle.rv_object_types.specs.Parts.{relocation_of};
ghost use Rattle.rv_link_laws.specs.Moves.{new_offset};
ghost use Rattle.rv_link_laws.specs.Values.{is_high};
ghost use Rattle.rv_cut_laws.specs.Cutting.{cut_relocation};
ghost use Rattle.rv_shorten.specs.Sections.{moves_in, short_section_of};
ghost use Rattle.rv_shorten.specs.View.{short_object_of};
ghost use Rattle.rv_relax.specs.Kept.{moves_of};
ghost use Rattle.rv_placement.specs.Placement.{placed_at};
ghost use Rattle.rv_link_values.specs.Highs.{found, high_to, high_in, high_of, HasBefore, HasFileBefore};

use rv_isa::Kind;
use rv_object_types::{FileIndex, Place, Relocation, SectionIndex};
use rv_placement::{PlacedSection, Placement};
use rv_relax::SectionPaddings;
use rv_shorten::{ShortObject, ShortSection};
use std::alloc::{AllocError, Global};
use std::collections::BTreeMap;

/// The first PCREL_HI20 at each place, in the order of places: a file can choose places of one hash. Offsets are those in what is
/// kept of a section.
#[derive(Drop)]
pub(crate) struct Highs {
    pub(crate) by_place: BTreeMap<Place, Relocation>,
}

/// Whether a relocation is the high part of a distance.
fn is_high(kind: Kind) -> bool
    ensures { result ≡ is_high kind }
{
    matches!(kind, Kind::PcrelHi20)
}

impl Highs {
    /// The high parts of objects.
    pub(crate) fn of(
        alloc: Global,
        objects: &[ShortObject<'_, '_>],
        placement: &Placement<'_>,
    ) -> Result<Highs, AllocError>
        ensures { IfOk result (λ h. (file section offset : ℕ) → found h file section offset
            ≡ high_of placement.now (map short_object_of objects.now) file section offset) }
    {
        let mut highs = Highs {
            by_place: BTreeMap::new(alloc),
        };
        for (file, object) in objects.iter().enumerate() {
            highs.add_object(FileIndex(file), object, placement)?;
        }
        Ok(highs)
    }

    /// The high part at a place.
    pub(crate) fn at(&self, place: Place) -> Option<Relocation>
        ensures { option_map relocation_of result
            ≡ found self.now place.file.0 place.section.0 place.offset }
    {
        self.by_place.get(&place).copied()
    }

    /// Adds the high parts of an object.
    fn add_object(
        &mut self,
        file: FileIndex,
        object: &ShortObject<'_, '_>,
        placement: &Placement<'_>,
    ) -> Result<(), AllocError>
        ensures { OnOk result (HasFileBefore self.old self.new file.0 (λ s offset.
            high_in (placed_at placement.now file.0 s)
            (slice_get (short_object_of object.now).sections s) offset)) }
    {
        let Some(places) = placement.files.get(file.0) else {
            return Ok(());
        };
        for (index, section) in object.sections.iter().enumerate() {
            self.add_section(file, SectionIndex(index), section, places)?;
        }
        Ok(())
    }

    /// Adds the high parts of a section, if it has a place.
    fn add_section(
        &mut self,
        file: FileIndex,
        index: SectionIndex,
        section: &ShortSection<'_, '_>,
        places: &[PlacedSection<'_>],
    ) -> Result<(), AllocError>
        ensures { OnOk result (HasBefore self.old self.new file.0 index.0
            (high_in (slice_get places.now index.0) (Some (short_section_of section.now)))) }
    {
        match places.get(index.0) {
            Some(place) => self.add_all(file, index, section, place.plan),
            None => Ok(()),
        }
    }

    /// Adds the high parts among the relocations of a section, the last first: so the first at a place
    /// stays.
    fn add_all(
        &mut self,
        file: FileIndex,
        index: SectionIndex,
        section: &ShortSection<'_, '_>,
        plan: &SectionPaddings,
    ) -> Result<(), AllocError>
        ensures { OnOk result (HasBefore self.old self.new file.0 index.0 (λ offset.
            high_to (new_offset (moves_of plan.now)) offset
            (short_section_of section.now).relocations)) }
    {
        let mut left = section.whole.relocations.as_slice();
        while let [front @ .., last] = left {
            self.add(file, index, section, plan, last)?;
            left = front;
        }
        Ok(())
    }

    /// Adds a relocation of a section, if it is a high part, in place of another that stands where it does.
    fn add(
        &mut self,
        file: FileIndex,
        index: SectionIndex,
        section: &ShortSection<'_, '_>,
        plan: &SectionPaddings,
        relocation: &Relocation,
    ) -> Result<(), AllocError>
        ensures { OnOk result (HasBefore self.old self.new file.0 index.0 (λ offset.
            high_to (new_offset (moves_of plan.now)) offset
            (cut_relocation (moves_in section.now) (relocation_of relocation.now) ∷ []))) }
    {
        // no call becomes a high part, so only those have to be moved
        if !is_high(relocation.kind) {
            return Ok(());
        }
        let relocation = section.relocation(relocation);
        let place = Place {
            file,
            section: index,
            offset: plan.new_offset(relocation.place),
        };
        self.by_place.insert(place, relocation)?;
        Ok(())
    }
}
