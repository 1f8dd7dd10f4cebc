//! What symbols mean of what is left of objects, wherever its sections come to stand.
//!
//! `Names` knows by file and symbol which definition a symbol means. So no name is compared here, and what a definition is
//! afterwards is asked of what is left of its object.

ghost use Rattle.std.specs.Prelude.{◌≡◌, ◌+◌, false, Some, codes, map, option_map, option_and_then};
ghost use Rattle.std.specs.List.{slice_get};
ghost use Rattle.rv_object_laws.specs.Object.{Object as SaidObject, Symbol as SaidSymbol};
ghost use Rattle.rv_link_laws.specs.Names as laws;
ghost use Rattle.rv_link_laws.specs.Entry.{has_entry};
ghost use Rattle.rv_object_types.specs.Places.{place_of};
ghost use Rattle.rv_names.specs.Names.{IsAt, IsNames};
ghost use Rattle.rv_shorten.specs.View.{short_object_of};
ghost use Rattle.rv_addresses.specs.Meant.{meant_by, meant_of};
ghost use Rattle.rv_addresses.specs.Moved.{with_definition};
ghost use Rattle.rv_addresses.specs.Named.{distinct_prop};
ghost use Rattle.std.proofs.Props.{props};

use rv_names::{Exported, Names, is_sure, placed};
use rv_object_types::{Binding, Definition, FileIndex, Place, SectionIndex, Symbol, SymbolIndex};
use rv_shorten::ShortObject;

/// What a symbol means: a definition, and the file that has it.
#[derive(Clone, Copy, Drop)]
pub(crate) struct Meant {
    pub file: FileIndex,
    pub definition: Definition,
}

/// What is left of objects, and what their names mean.
#[derive(Drop)]
pub struct Resolution<'p, 'o, 'a, 'n> {
    pub objects: &'p [ShortObject<'o, 'a>],
    pub names: &'p Names<'n>,
    /// The names are those of the objects.
    pub ghost named: { IsNames (map short_object_of objects.now) names.now } by { Prim.hlevel (props, distinct_prop) },
}

impl Resolution<'_, '_, '_, '_> {
    ghost use Rattle.rv_addresses.specs.Resolution.{all};

    /// What the symbol at an index of a file means, by its own binding and definition: what its object surely defines, else the
    /// definition of its name.
    pub(crate) fn meant(
        &self,
        file: FileIndex,
        index: SymbolIndex,
        binding: Binding,
        definition: Definition,
    ) -> Option<Meant>
        ensures { (o : SaidObject) (s : SaidSymbol) → slice_get (all self.now) file.0 ≡ Some o
            → slice_get o.symbols index.0 ≡ Some s → s.binding ≡ binding
            → s.definition ≡ definition → result ≡ meant_by (all self.now) file.0 s }
    {
        if is_sure(binding, definition) {
            return Some(Meant { file, definition });
        }
        self.meant_outside(file, index)
    }

    /// What a symbol means that its own object does not surely define.
    pub(crate) fn meant_outside(&self, file: FileIndex, index: SymbolIndex) -> Option<Meant>
        ensures { (o : SaidObject) (s : SaidSymbol) → slice_get (all self.now) file.0 ≡ Some o
            → slice_get o.symbols index.0 ≡ Some s → laws.is_sure s ≡ false
            → result ≡ option_map meant_of (laws.chosen (all self.now) s.name) }
    {
        let exported = self.names.outside(file, index)?;
        defined(self.objects, exported)
    }

    /// What the name `_start` means.
    pub(crate) fn start(&self) -> Option<Meant>
        ensures { result ≡ option_map meant_of (laws.chosen (all self.now) (codes "_start")) }
    {
        match self.names.named(b"_start") {
            Some(exported) => defined(self.objects, exported),
            None => None,
        }
    }

    /// Where the symbol at an index of a file stands, with the paddings whole. None where it is a number, the linker's, or 0, or
    /// there is no symbol.
    pub fn place(&self, file: FileIndex, index: SymbolIndex) -> Option<Place>
        ensures { (o : SaidObject) → slice_get (all self.now) file.0 ≡ Some o
            → option_map place_of result
            ≡ option_and_then (laws.symbol_place (all self.now) (file.0 + 1))
            (slice_get o.symbols index.0) }
    {
        let (symbol, definition) = symbol_at(self.objects, file, index)?;
        match self.meant(file, index, symbol.binding, definition) {
            Some(meant) => placed(meant.file, meant.definition),
            None => None,
        }
    }

    /// Whether a run can begin: what `_start` means stands at an even place of a section of text, wherever that stands.
    pub fn has_entry(&self) -> bool
        ensures { result ≡ has_entry (all self.now) }
    {
        match self.start() {
            Some(meant) => can_begin(self.objects, meant.file, meant.definition),
            None => false,
        }
    }
}

/// What a symbol defines for all files, as it has moved.
fn defined(objects: &[ShortObject<'_, '_>], exported: Exported) -> Option<Meant>
    ensures { (e : laws.Export) → IsAt (map short_object_of objects.now) exported e
        → result ≡ Some (meant_of e) }
{
    let (_, definition) = symbol_at(objects, exported.file, exported.symbol)?;
    Some(Meant {
        file: exported.file,
        definition,
    })
}

/// The symbol at an index of a file, and its definition as it has moved.
pub(crate) fn symbol_at<'o, 'a>(
    objects: &[ShortObject<'o, 'a>],
    file: FileIndex,
    index: SymbolIndex,
) -> Option<(&'o Symbol<'a>, Definition)>
    ensures { (o : SaidObject) → slice_get (map short_object_of objects.now) file.0 ≡ Some o
        → option_map with_definition result ≡ slice_get o.symbols index.0 }
{
    let object = objects.get(file.0)?;
    let symbol = object.whole.symbols.get(index.0)?;
    Some((symbol, object.definition(symbol.definition)))
}

/// Whether a run can begin at a definition of a file: at an even place of a section of text, whatever becomes of its address.
pub(crate) fn can_begin(
    objects: &[ShortObject<'_, '_>],
    file: FileIndex,
    definition: Definition,
) -> bool
    ensures { (o : SaidObject) → slice_get (map short_object_of objects.now) file.0 ≡ Some o
        → result ≡ laws.can_begin o definition }
{
    match definition {
        Definition::InSection(section, offset) => {
            is_in_text(objects, file, SectionIndex(section as usize)) && offset % 2 == 0
        }
        _ => false,
    }
}

/// Whether a section of a file is one of text.
fn is_in_text(objects: &[ShortObject<'_, '_>], file: FileIndex, section: SectionIndex) -> bool
    ensures { (o : SaidObject) → slice_get (map short_object_of objects.now) file.0 ≡ Some o
        → result ≡ laws.is_in_text (slice_get o.sections section.0) }
{
    match objects.get(file.0) {
        Some(object) => match object.sections.get(section.0) {
            Some(section) => section.whole.is_text(),
            None => false,
        },
        None => false,
    }
}
