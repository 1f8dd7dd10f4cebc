//! The addresses of what symbols mean, where sections stand.
//!
//! No name is compared here but with the few that the linker gives: many references to one long name cost no more than those to
//! a short one.

ghost use Rattle.std.specs.Prelude.{◌≡◌, ◌+◌, ℕ, List, Some, None, map, option_and_then, if◌then◌else◌};
ghost use Rattle.std.specs.List.{slice_get};
ghost use Rattle.std.specs.Option.{option_or};
ghost use Rattle.rv_map_laws.specs.Globals.{global_address, linker_symbols};
ghost use Rattle.rv_object_laws.specs.Object.{Object as SaidObject};
ghost use Rattle.rv_object_laws.specs.Bindings as bindings;
ghost use Rattle.rv_link_laws.specs.declared.bounds.Ground.{Ground};
ghost use Rattle.rv_link_laws.specs.Names as laws;
ghost use Rattle.rv_link_laws.specs.Layout.{outer_in, regions_of};
ghost use Rattle.rv_shorten.specs.View.{short_object_of};
ghost use Rattle.rv_placement.specs.Placement.{starts_of, IsPlacement, layout_of};

use crate::resolution::{Resolution, can_begin, symbol_at};
use rv_names::is_weak;
use rv_object_types::{Binding, Definition, FileIndex, Place, SectionIndex, SymbolIndex};
use rv_placement::Placement;
use rv_shorten::ShortObject;

impl Resolution<'_, '_, '_, '_> {
    ghost use Rattle.rv_addresses.specs.Resolution.{all};

    /// What the symbol at an index of a file means: its address; none where it has none, or there is no symbol.
    pub fn address(
        &self,
        placement: &Placement<'_>,
        file: FileIndex,
        index: SymbolIndex,
    ) -> Option<u64>
        ensures { (bounds : Ground) (o : SaidObject) → IsPlacement (all self.now) bounds placement.now
            → slice_get (all self.now) file.0 ≡ Some o → result ≡ option_and_then
            (laws.symbol_address (outer_in (all self.now) (layout_of placement.now))
            (starts_of placement.now (file.0 + 1)) o)
            (slice_get o.symbols index.0) }
    {
        let (symbol, definition) = symbol_at(self.objects, file, index)?;
        match self.meant(file, index, symbol.binding, definition) {
            Some(meant) => defined_address(self.objects, placement, meant.file, meant.definition),
            None => undefined_address(placement, symbol.binding, symbol.name),
        }
    }

    /// Where a run begins: the address of what `_start` means, if that stands at an even place of a section of text.
    pub fn entry(&self, placement: &Placement<'_>) -> Option<u64>
        ensures { (bounds : Ground) → IsPlacement (all self.now) bounds placement.now
            → result ≡ laws.entry_of (starts_of placement.now) (all self.now) }
    {
        match self.start() {
            Some(meant) => {
                if can_begin(self.objects, meant.file, meant.definition) {
                    defined_address(self.objects, placement, meant.file, meant.definition)
                } else {
                    None
                }
            }
            None => None,
        }
    }
}

/// The address of what a file defines.
pub(crate) fn defined_address(
    objects: &[ShortObject<'_, '_>],
    placement: &Placement<'_>,
    file: FileIndex,
    definition: Definition,
) -> Option<u64>
    ensures { (bounds : Ground) (o : SaidObject)
        → IsPlacement (map short_object_of objects.now) bounds placement.now
        → slice_get (map short_object_of objects.now) file.0 ≡ Some o
        → result ≡ laws.defined_address (starts_of placement.now (file.0 + 1)) o definition }
{
    match definition {
        Definition::Undefined => None,
        Definition::Absolute(number) => Some(number),
        Definition::InSection(section, offset) => {
            let section = SectionIndex(section as usize);
            let place = Place {
                file,
                section,
                offset,
            };
            placement.address(objects, place)
        }
        Definition::Skipped(_) => None,
    }
}

/// The address of a name that no object defines: what the linker gives; where it gives none, 0 for a weak symbol.
pub(crate) fn undefined_address(
    placement: &Placement<'_>,
    binding: Binding,
    name: &[u8],
) -> Option<u64>
    ensures { (os : List SaidObject) (bounds : Ground) → IsPlacement os bounds placement.now
        → result ≡ option_or (global_address (linker_symbols (regions_of (layout_of placement.now))) name.now)
        (if bindings.is_weak binding then Some 0 else None) }
{
    match linker_address(placement, name) {
        Some(address) => Some(address),
        None => { if is_weak(binding) { Some(0) } else { None } }
    }
}

/// The address of a name that the linker gives.
fn linker_address(placement: &Placement<'_>, name: &[u8]) -> Option<u64>
    ensures { (os : List SaidObject) (bounds : Ground) → IsPlacement os bounds placement.now
        → result ≡ global_address (linker_symbols (regions_of (layout_of placement.now))) name.now }
{
    if name == b"_etext".as_slice() {
        Some(placement.text.end)
    } else if name == b"__bss_start".as_slice() {
        Some(placement.bss.start)
    } else if name == b"_edata".as_slice() {
        Some(placement.data.end)
    } else if name == b"_end".as_slice() {
        Some(placement.bss.end)
    } else if name == b"__global_pointer$".as_slice() {
        Some(global_pointer(placement))
    } else {
        None
    }
}

/// The address of `__global_pointer$`, from which code reaches the most of the variables.
pub(crate) fn global_pointer(placement: &Placement<'_>) -> u64
    ensures { (os : List SaidObject) (bounds : Ground) → IsPlacement os bounds placement.now
        → result ≡ (placement.now).data.start + 0x800 }
{
    placement.data.start.wrapping_add(0x800)
}
