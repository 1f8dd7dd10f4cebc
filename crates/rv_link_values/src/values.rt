//! The values of relocations.

ghost use Rattle.std.specs.Prelude.{◌≡◌, ◌+◌, ◌%◌, ◌^◌, ℕ, List, unwrap_or, Some, IfOk, IfErr};
ghost use Rattle.std.specs.List.{slice_get};
ghost use Rattle.rv_isa.specs.Kinds.{is_low_part};
ghost use Rattle.rv_object_laws.specs.Object.{Object as PlainObject};
ghost use Rattle.rv_object_types.specs.Parts.{relocation_of};
ghost use Rattle.rv_object_types.specs.Places.{place_of};
ghost use Rattle.rv_link_laws.specs.declared.bounds.Ground.{Ground};
ghost use Rattle.rv_link_laws.specs.Inputs.{InputSection};
ghost use Rattle.rv_link_laws.specs.Values as laws;
ghost use Rattle.rv_link_laws.specs.Layout.{outer_in};
ghost use Rattle.rv_link_laws.specs.Untaken.{IsValueOf, IsDangling};
ghost use Rattle.rv_placement.specs.declared.placement.Placement.{Placement as Placed};
ghost use Rattle.rv_placement.specs.Placement.{starts_of, IsPlacement, layout_of};
ghost use Rattle.rv_addresses.specs.Resolution.{all};
ghost use Rattle.rv_link_values.specs.Values.{IsInputAt, IsValues};

use crate::fault::ValueFault;
use crate::high::Highs;
use rv_addresses::Resolution;
use rv_isa::Kind;
use rv_object_types::{FileIndex, Place, Relocation, SectionIndex, SymbolIndex};
use rv_placement::Placement;
use std::alloc::{AllocError, Global};

/// What the relocations of placed objects are worth.
#[derive(Drop)]
pub struct Values<'p, 'o, 'a, 'n> {
    pub(crate) resolution: &'p Resolution<'p, 'o, 'a, 'n>,
    pub(crate) placement: &'p Placement<'p>,
    pub(crate) highs: Highs,
}

/// Whether a relocation is the low part of a distance, whose high part is another.
fn is_low_part(kind: Kind) -> bool
    ensures { result ≡ is_low_part kind }
{
    matches!(kind, Kind::PcrelLo12I | Kind::PcrelLo12S)
}

impl<'p, 'o, 'a, 'n> Values<'p, 'o, 'a, 'n> {
    /// Those of objects, with their sections placed, and of what their names mean.
    pub fn of(
        alloc: Global,
        resolution: &'p Resolution<'p, 'o, 'a, 'n>,
        placement: &'p Placement<'p>,
    ) -> Result<Values<'p, 'o, 'a, 'n>, AllocError>
        ensures { (bounds : Ground) → IsPlacement (all resolution.now) bounds placement.now
            → IfOk result (IsValues (all resolution.now) placement.now) }
    {
        let highs = Highs::of(alloc, resolution.objects, placement)?;
        Ok(Values {
            resolution,
            placement,
            highs,
        })
    }

    /// The value of a relocation of a section of a file. The relocation stands where calls that are cut short have moved it.
    ///
    /// `Dangling`: it is the low part of a distance (`PcrelLo12I`, `PcrelLo12S`), and has no high part,
    /// or an addend.
    pub fn value(
        &self,
        file: FileIndex,
        index: SectionIndex,
        relocation: &Relocation,
    ) -> Result<i64, ValueFault>
        ensures value { (os : List PlainObject) (p : Placed) (i : InputSection)
            → IsValues os p self.now → IsInputAt os file.0 index.0 i → IfOk result
            (IsValueOf (outer_in os (layout_of p)) (starts_of p) os i (relocation_of relocation.now)) }
        ensures refuses { (os : List PlainObject) (p : Placed) (i : InputSection)
            → IsValues os p self.now → IsInputAt os file.0 index.0 i → IfErr result (λ _.
            IsDangling (outer_in os (layout_of p)) (starts_of p) os i (relocation_of relocation.now)) }
    {
        if !is_low_part(relocation.kind) {
            return Ok(self.own_value(file, index, relocation));
        }
        if relocation.addend != 0 {
            return Err(ValueFault::Dangling);
        }
        self.paired(file, relocation.symbol)
            .ok_or(ValueFault::Dangling)
    }

    /// The value by the relocation's own symbol, addend and place.
    fn own_value(&self, file: FileIndex, index: SectionIndex, relocation: &Relocation) -> i64
        ensures { (os : List PlainObject) (p : Placed) (i : InputSection) → IsValues os p self.now
            → IsInputAt os file.0 index.0 i → result
            ≡ laws.own_value (outer_in os (layout_of p)) (starts_of p i.file) i.object
            (starts_of p i.file i.index) i.section (relocation_of relocation.now) }
    {
        let symbol = self.target(file, relocation.symbol);
        let place = self.moved(Place {
            file,
            section: index,
            offset: relocation.place,
        });
        rv_reloc::value(relocation.kind, symbol, relocation.addend, place)
    }

    /// The address of a relocation's symbol; 0 where it has none.
    fn target(&self, file: FileIndex, symbol: Option<u32>) -> u64
        ensures { (os : List PlainObject) (p : Placed) (o : PlainObject) → IsValues os p self.now
            → slice_get os file.0 ≡ Some o → result ≡ unwrap_or
            (laws.target (outer_in os (layout_of p)) (starts_of p (file.0 + 1)) o symbol) 0 }
    {
        match symbol {
            Some(index) => self
                .resolution
                .address(self.placement, file, SymbolIndex(index as usize))
                .unwrap_or(0),
            None => 0,
        }
    }

    /// The address of a place, modulo 2^64.
    fn moved(&self, place: Place) -> u64
        ensures { (os : List PlainObject) (p : Placed) (i : InputSection) → IsValues os p self.now
            → IsInputAt os place.file.0 place.section.0 i
            → result ≡ laws.moved (starts_of p i.file i.index) i.section place.offset % 2 ^ 64 }
    {
        match self.placement.section(place.file, place.section) {
            Some(placed) => placed
                .start
                .wrapping_add(placed.plan.new_offset(place.offset)),
            None => 0,
        }
    }

    /// The value of the high part at the place of a symbol of a file.
    fn paired(&self, file: FileIndex, symbol: Option<u32>) -> Option<i64>
        ensures { (os : List PlainObject) (p : Placed) (o : PlainObject) → IsValues os p self.now
            → slice_get os file.0 ≡ Some o → result
            ≡ laws.paired (outer_in os (layout_of p)) (starts_of p) os (file.0 + 1) o symbol }
    {
        let index = symbol?;
        let place = self.resolution.place(file, SymbolIndex(index as usize))?;
        self.value_at(place)
    }

    /// The value of the high part at a place.
    fn value_at(&self, place: Place) -> Option<i64>
        ensures { (os : List PlainObject) (p : Placed) → IsValues os p self.now → result
            ≡ laws.value_at (outer_in os (layout_of p)) (starts_of p) os
            (Some (place_of place)) }
    {
        let placed = self.placement.section(place.file, place.section)?;
        let high = self.highs.at(Place {
            offset: placed.plan.new_offset(place.offset),
            ..place
        })?;
        Some(self.own_value(place.file, place.section, &high))
    }
}
