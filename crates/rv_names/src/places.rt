//! Where in objects that stands which a symbol means.
//!
//! `Names` knows by file and symbol which definition a symbol means. So no name is compared here: many references to one long
//! name cost no more than those to a short one.

ghost use Rattle.std.specs.Prelude.{◌≡◌, ◌+◌, Some, map, option_map};
ghost use Rattle.std.specs.List.{slice_get};
ghost use Rattle.rv_object_laws.specs.Object.{Object as SaidObject, Symbol as SaidSymbol};
ghost use Rattle.rv_object_types.specs.Places.{place_of};
ghost use Rattle.rv_object_types.specs.View.{object_of};
ghost use Rattle.rv_link_laws.specs.Collects.{entry_place, run_place};
ghost use Rattle.rv_link_laws.specs.Names as laws;
ghost use Rattle.rv_names.specs.Names.{IsAt, IsNames};

use crate::definitions::Exported;
use crate::names::Names;
use crate::symbol::is_sure;
use rv_object_types::{Binding, Definition, FileIndex, Object, Place, SectionIndex, SymbolIndex};

impl Names<'_> {
    /// Where the symbol at an index of a file stands, by its own binding and definition. None where it is a number, the linker's,
    /// or 0.
    pub fn place_of(
        &self,
        objects: &[Object<'_>],
        file: FileIndex,
        index: SymbolIndex,
        binding: Binding,
        definition: Definition,
    ) -> Option<Place>
        ensures { (o : SaidObject) (s : SaidSymbol) → IsNames (map object_of objects.now) self.now
            → slice_get (map object_of objects.now) file.0 ≡ Some o
            → slice_get o.symbols index.0 ≡ Some s → s.binding ≡ binding → s.definition ≡ definition
            → option_map place_of result
            ≡ laws.symbol_place (map object_of objects.now) (file.0 + 1) s }
    {
        if is_sure(binding, definition) {
            return placed(file, definition);
        }
        match self.outside(file, index) {
            Some(exported) => place_at(objects, exported),
            None => None,
        }
    }

    /// Where a run begins: an even offset of a section of text. None where `_start` means no such place.
    pub fn entry_place(&self, objects: &[Object<'_>]) -> Option<Place>
        ensures { IsNames (map object_of objects.now) self.now
            → option_map place_of result ≡ entry_place (map object_of objects.now) }
    {
        match self.named(b"_start") {
            Some(exported) => run_place(objects, exported),
            None => None,
        }
    }
}

/// Where a definition for all files stands, if a run can begin there.
fn run_place(objects: &[Object<'_>], exported: Exported) -> Option<Place>
    ensures { (e : laws.Export) → IsAt (map object_of objects.now) exported e
        → option_map place_of result ≡ run_place e }
{
    let place = place_at(objects, exported)?;
    if is_text(objects, place.file, place.section) && place.offset % 2 == 0 {
        Some(place)
    } else {
        None
    }
}

/// Whether a section of a file is one of text.
fn is_text(objects: &[Object<'_>], file: FileIndex, section: SectionIndex) -> bool
    ensures { (o : SaidObject) → slice_get (map object_of objects.now) file.0 ≡ Some o
        → result ≡ laws.is_in_text (slice_get o.sections section.0) }
{
    match objects.get(file.0) {
        Some(object) => match object.sections.get(section.0) {
            Some(section) => section.is_text(),
            None => false,
        },
        None => false,
    }
}

/// Where a definition for all files stands.
fn place_at(objects: &[Object<'_>], exported: Exported) -> Option<Place>
    ensures { (e : laws.Export) → IsAt (map object_of objects.now) exported e
        → option_map place_of result ≡ laws.place_in e.file e.symbol.definition }
{
    let object = objects.get(exported.file.0)?;
    let symbol = object.symbols.get(exported.symbol.0)?;
    placed(exported.file, symbol.definition)
}

/// Where a definition of a file stands, if it is in a section.
pub fn placed(file: FileIndex, definition: Definition) -> Option<Place>
    ensures { option_map place_of result ≡ laws.place_in (file.0 + 1) definition }
{
    match definition {
        Definition::InSection(section, offset) => Some(Place {
            file,
            section: SectionIndex(section as usize),
            offset,
        }),
        _ => None,
    }
}
