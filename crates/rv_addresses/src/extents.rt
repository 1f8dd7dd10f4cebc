//! Where symbols stand, and how many bytes are left of each.
//!
//! An object says how many bytes a symbol has. Relaxation takes some of them, and paddings others: what is left ends at the address of
//! the place that was so many bytes behind the symbol's, which moves as any place does. So an end is a definition, and has
//! an address as all others.

ghost use Rattle.std.specs.Prelude.{◌≡◌, ◌+◌, false, IfOk, Some, map, option_and_then, option_map};
ghost use Rattle.std.specs.List.{slice_get};
ghost use Rattle.rv_object_laws.specs.Object.{Object as SaidObject, Symbol as SaidSymbol};
ghost use Rattle.rv_link_laws.specs.declared.bounds.Ground.{Ground};
ghost use Rattle.rv_link_laws.specs.Layout.{outer_in};
ghost use Rattle.rv_link_laws.specs.Names as laws;
ghost use Rattle.rv_shorten.specs.View.{short_object_of, whole_object_of};
ghost use Rattle.rv_placement.specs.Placement.{IsPlacement, layout_of, starts_of};
ghost use Rattle.rv_addresses.specs.Ended.{all_ended, short_ended, short_ended_from};
ghost use Rattle.rv_addresses.specs.Extents.{addresses_in, addresses_of, definition_end, end_offset, end_within, extent, extents_by, extents_in, listed_size, sizes_in};
ghost use Rattle.rv_addresses.specs.Meant.{meant_by, meant_of};
ghost use Rattle.rv_addresses.specs.Moved.{with_definition};
ghost use Rattle.rv_addresses.specs.Resolution.{all};

use crate::addresses::{defined_address, undefined_address};
use crate::resolution::{Meant, Resolution};
use rv_names::is_sure;
use rv_object_types::{Binding, Definition, FileIndex, SectionIndex, Symbol, SymbolIndex};
use rv_placement::Placement;
use rv_shorten::ShortObject;
use std::alloc::{AllocError, Global};

/// Where a symbol stands in a linked program.
#[derive(Clone, Copy, PartialEq, Eq, Drop)]
pub struct SymbolExtent {
    /// Its address.
    pub address: u64,
    /// How many bytes are left of it, from there on.
    pub size: u64,
}

impl Resolution<'_, '_, '_, '_> {
    /// Where each symbol of each object stands, and how many bytes are left of it; none where it has no address. The sizes are how
    /// many bytes symbols have in their objects, by file and symbol: what they do not have is 0.
    ///
    /// # Errors
    ///
    /// Want of memory.
    pub fn extents(
        &self,
        alloc: Global,
        placement: &Placement<'_>,
        sizes: &[Vec<u64>],
    ) -> Result<Vec<Vec<Option<SymbolExtent>>>, AllocError>
        ensures { IfOk result (λ extents. (bounds : Ground)
            → IsPlacement (all self.now) bounds placement.now
            → map (λ row. row.items) extents.items
            ≡ extents_by (addresses_of (all self.now) (layout_of placement.now))
            (addresses_of (all_ended (sizes_in sizes.now) self.now) (layout_of placement.now))) }
    {
        let mut files = Vec::with_capacity(alloc, self.objects.len())?;
        for file in 0..self.objects.len() {
            let object = &self.objects[file];
            let row = self.file_extents(alloc, placement, sizes, FileIndex(file), object)?;
            files.push(row)?;
        }
        Ok(files)
    }

    /// Where each symbol of a file stands.
    fn file_extents(
        &self,
        alloc: Global,
        placement: &Placement<'_>,
        sizes: &[Vec<u64>],
        file: FileIndex,
        object: &ShortObject<'_, '_>,
    ) -> Result<Vec<Option<SymbolExtent>>, AllocError>
        ensures { IfOk result (λ extents. (bounds : Ground)
            → IsPlacement (all self.now) bounds placement.now
            → slice_get (all self.now) file.0 ≡ Some (short_object_of object.now)
            → slice_get (all_ended (sizes_in sizes.now) self.now) file.0
            ≡ Some (short_ended (sizes_in sizes.now file.0) object.now)
            → extents.items ≡ extents_in
            (addresses_in (outer_in (all self.now) (layout_of placement.now))
            (starts_of placement.now (file.0 + 1)) (short_object_of object.now))
            (addresses_in (outer_in (all_ended (sizes_in sizes.now) self.now)
            (layout_of placement.now)) (starts_of placement.now (file.0 + 1))
            (short_ended (sizes_in sizes.now file.0) object.now))) }
    {
        let mut extents = Vec::with_capacity(alloc, object.whole.symbols.len())?;
        for index in 0..object.whole.symbols.len() {
            extents.push(self.extent(placement, sizes, file, SymbolIndex(index)))?;
        }
        Ok(extents)
    }

    /// Where the symbol at an index of a file stands.
    fn extent(
        &self,
        placement: &Placement<'_>,
        sizes: &[Vec<u64>],
        file: FileIndex,
        index: SymbolIndex,
    ) -> Option<SymbolExtent>
        ensures { (bounds : Ground) (o e : SaidObject)
            → IsPlacement (all self.now) bounds placement.now
            → slice_get (all self.now) file.0 ≡ Some o
            → slice_get (all_ended (sizes_in sizes.now) self.now) file.0 ≡ Some e
            → result ≡ extent (option_and_then
            (laws.symbol_address (outer_in (all self.now) (layout_of placement.now))
            (starts_of placement.now (file.0 + 1)) o) (slice_get o.symbols index.0))
            (option_and_then
            (laws.symbol_address (outer_in (all_ended (sizes_in sizes.now) self.now)
            (layout_of placement.now)) (starts_of placement.now (file.0 + 1)) e)
            (slice_get e.symbols index.0)) }
    {
        let address = self.address(placement, file, index)?;
        let end = self.end(placement, sizes, file, index).unwrap_or(address);
        Some(SymbolExtent {
            address,
            size: end.saturating_sub(address),
        })
    }

    /// The address of the end of what the symbol at an index of a file means; none where that has no address.
    fn end(
        &self,
        placement: &Placement<'_>,
        sizes: &[Vec<u64>],
        file: FileIndex,
        index: SymbolIndex,
    ) -> Option<u64>
        ensures { (bounds : Ground) (e : SaidObject)
            → IsPlacement (all self.now) bounds placement.now
            → slice_get (all_ended (sizes_in sizes.now) self.now) file.0 ≡ Some e
            → result ≡ option_and_then
            (laws.symbol_address (outer_in (all_ended (sizes_in sizes.now) self.now)
            (layout_of placement.now)) (starts_of placement.now (file.0 + 1)) e)
            (slice_get e.symbols index.0) }
    {
        let (symbol, end) = end_at(self.objects, sizes, file, index)?;
        match self.meant_end(sizes, file, index, symbol.binding, end) {
            Some(meant) => defined_address(self.objects, placement, meant.file, meant.definition),
            None => undefined_address(placement, symbol.binding, symbol.name),
        }
    }

    /// The end of what the symbol at an index of a file means, by its own binding and end.
    fn meant_end(
        &self,
        sizes: &[Vec<u64>],
        file: FileIndex,
        index: SymbolIndex,
        binding: Binding,
        end: Definition,
    ) -> Option<Meant>
        ensures { (e : SaidObject) (s : SaidSymbol)
            → slice_get (all_ended (sizes_in sizes.now) self.now) file.0 ≡ Some e
            → slice_get e.symbols index.0 ≡ Some s → s.binding ≡ binding → s.definition ≡ end
            → result ≡ meant_by (all_ended (sizes_in sizes.now) self.now) file.0 s }
    {
        if is_sure(binding, end) {
            return Some(Meant {
                file,
                definition: end,
            });
        }
        self.end_outside(sizes, file, index)
    }

    /// The end of what a symbol means that its own object does not surely define.
    fn end_outside(&self, sizes: &[Vec<u64>], file: FileIndex, index: SymbolIndex) -> Option<Meant>
        ensures { (e : SaidObject) (s : SaidSymbol)
            → slice_get (all_ended (sizes_in sizes.now) self.now) file.0 ≡ Some e
            → slice_get e.symbols index.0 ≡ Some s → laws.is_sure s ≡ false
            → result ≡ option_map meant_of
            (laws.chosen (all_ended (sizes_in sizes.now) self.now) s.name) }
    {
        let exported = self.names.outside(file, index)?;
        let (_, definition) = end_at(self.objects, sizes, exported.file, exported.symbol)?;
        Some(Meant {
            file: exported.file,
            definition,
        })
    }
}

/// The symbol at an index of a file, and its end as that has moved.
fn end_at<'o, 'a>(
    objects: &[ShortObject<'o, 'a>],
    sizes: &[Vec<u64>],
    file: FileIndex,
    index: SymbolIndex,
) -> Option<(&'o Symbol<'a>, Definition)>
    ensures { (e : SaidObject)
        → slice_get (short_ended_from (sizes_in sizes.now) 0 objects.now) file.0 ≡ Some e
        → option_map with_definition result ≡ slice_get e.symbols index.0 }
{
    let object = objects.get(file.0)?;
    let symbol = object.whole.symbols.get(index.0)?;
    let size = size_at(sizes, file, index).unwrap_or(0);
    Some((
        symbol,
        object.definition(definition_end(object, size, symbol.definition)),
    ))
}

/// How many bytes the symbol at an index of a file has, if that is said.
fn size_at(sizes: &[Vec<u64>], file: FileIndex, index: SymbolIndex) -> Option<u64>
    ensures { result ≡ listed_size sizes.now file.0 index.0 }
{
    let file = sizes.get(file.0)?;
    file.get(index.0).copied()
}

/// The end of what has so many bytes from a definition on; a section that ends before has none of them.
fn definition_end(object: &ShortObject<'_, '_>, size: u64, definition: Definition) -> Definition
    ensures { result ≡ definition_end (whole_object_of object.now) size definition }
{
    match definition {
        Definition::InSection(section, offset) => {
            let end = end_offset(object, SectionIndex(section as usize), offset, size);
            Definition::InSection(section, end)
        }
        Definition::Undefined => Definition::Undefined,
        Definition::Absolute(number) => Definition::Absolute(number),
        Definition::Skipped(value) => Definition::Skipped(value),
    }
}

/// The end of so many bytes from an offset on in a section of an object.
fn end_offset(object: &ShortObject<'_, '_>, section: SectionIndex, offset: u64, size: u64) -> u64
    ensures { result ≡ end_offset offset size
        (slice_get (whole_object_of object.now).sections section.0) }
{
    match object.sections.get(section.0) {
        Some(section) => end_within(section.whole.contents.size(), offset, size),
        None => offset,
    }
}

/// The end of so many bytes from an offset on among bytes; that of none, where these end before.
fn end_within(total: u64, offset: u64, size: u64) -> u64
    ensures { result ≡ end_within total offset size }
{
    if offset <= total && size <= total - offset {
        offset + size
    } else {
        offset
    }
}
