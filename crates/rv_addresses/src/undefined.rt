//! References without a meaning.
//!
//! The first of them is told, by file, section and place. Sections that are not loaded are passed over, as nothing of them
//! comes into the program.

ghost use Rattle.std.specs.Prelude.{◌≡◌, ◌++◌, Some, None, false, List, map, option_map, IfNone};
ghost use Rattle.std.specs.List.{slice_get};
ghost use Rattle.rv_map_laws.specs.Globals.{is_one_of};
ghost use Rattle.rv_map_laws.specs.Map.{Map};
ghost use Rattle.rv_object_laws.specs.Object.{Object as SaidObject, Symbol as SaidSymbol};
ghost use Rattle.rv_object_types.specs.Parts.{relocation_of, symbol_of};
ghost use Rattle.rv_link_laws.specs.Inputs.{Starts};
ghost use Rattle.rv_link_laws.specs.Moves.{Move};
ghost use Rattle.rv_link_laws.specs.Names.{chosen, globals_of, is_sure as means_own, outer_address, shown_linker_symbols};
ghost use Rattle.rv_addresses.specs.Meant.{name_bytes};
ghost use Rattle.rv_addresses.specs.Resolved.{AreResolved};
ghost use Rattle.rv_link_laws.specs.Undefined as laws;
ghost use Rattle.rv_cut_laws.specs.Cutting.{cut_symbol};
ghost use Rattle.rv_shorten.specs.View.{short_object_of};

use crate::resolution::Resolution;
use rv_names::{is_sure, is_weak};
use rv_object_types::{Definition, FileIndex, Relocation, SectionIndex, Symbol, SymbolIndex};
use rv_shorten::ShortObject;

impl<'n> Resolution<'_, '_, 'n, '_> {
    ghost use Rattle.rv_addresses.specs.Resolution.{all};

    /// The first reference without a meaning, by object, section and relocation: the name of its symbol.
    pub fn undefined(&self) -> Option<&'n [u8]>
        ensures first { option_map name_bytes result
            ≡ laws.first_undefined (all self.now) }
        ensures resolved { IfNone result ((starts : Starts) (m : Map) → m.globals
            ≡ globals_of starts (all self.now)
            ++ shown_linker_symbols (all self.now) m
            → AreResolved starts (all self.now)
            (outer_address (all self.now) m.globals)) }
    {
        for file in 0..self.objects.len() {
            match self.undefined_in(FileIndex(file), &self.objects[file]) {
                Some(name) => return Some(name),
                None => (),
            }
        }
        None
    }

    /// The first in an object.
    fn undefined_in(&self, file: FileIndex, object: &ShortObject<'_, 'n>) -> Option<&'n [u8]>
        ensures { slice_get (all self.now) file.0 ≡ Some (short_object_of object.now)
            → option_map name_bytes result
            ≡ laws.first_some
            (laws.undefined_in (all self.now) (short_object_of object.now))
            (short_object_of object.now).sections }
    {
        for section in &object.sections {
            if !section.whole.loaded {
                continue;
            }
            let relocations = section.whole.relocations.as_slice();
            match self.undefined_among(file, object, relocations) {
                Some(name) => return Some(name),
                None => (),
            }
        }
        None
    }

    /// The first of relocations of an object.
    fn undefined_among(
        &self,
        file: FileIndex,
        object: &ShortObject<'_, 'n>,
        relocations: &[Relocation],
    ) -> Option<&'n [u8]>
        ensures { slice_get (all self.now) file.0 ≡ Some (short_object_of object.now)
            → option_map name_bytes result
            ≡ laws.first_some
            (λ r. laws.undefined_name (all self.now)
            (short_object_of object.now) r.symbol)
            (map relocation_of relocations.now) }
    {
        for relocation in relocations {
            match self.undefined_name(file, object, relocation) {
                Some(name) => return Some(name),
                None => (),
            }
        }
        None
    }

    /// The name of a relocation's symbol, if that has no address.
    fn undefined_name(
        &self,
        file: FileIndex,
        object: &ShortObject<'_, 'n>,
        relocation: &Relocation,
    ) -> Option<&'n [u8]>
        ensures { slice_get (all self.now) file.0 ≡ Some (short_object_of object.now)
            → option_map name_bytes result
            ≡ laws.undefined_name (all self.now) (short_object_of object.now)
            (relocation.now).symbol }
    {
        let index = relocation.symbol?;
        let index = SymbolIndex(index as usize);
        match object.whole.symbols.get(index.0) {
            Some(symbol) => {
                if self.is_resolved(file, index, symbol) {
                    None
                } else {
                    Some(symbol.name)
                }
            }
            None => Some(b"".as_slice()),
        }
    }

    /// Whether the symbol at an index of an object has an address, wherever sections stand and whatever is cut of them.
    fn is_resolved(&self, file: FileIndex, index: SymbolIndex, symbol: &Symbol<'_>) -> bool
        ensures { (o : SaidObject) (cuts : List (List Move))
            → slice_get (all self.now) file.0 ≡ Some o
            → slice_get o.symbols index.0 ≡ Some (cut_symbol cuts (symbol_of symbol.now))
            → result ≡ laws.is_resolved (all self.now) o
            (cut_symbol cuts (symbol_of symbol.now)) }
    {
        if is_sure(symbol.binding, symbol.definition) {
            return has_address(self.objects, file, symbol.definition);
        }
        self.is_known(file, index, symbol)
    }

    /// Whether the symbol at an index of an object, which does not surely define it, means what has an address.
    fn is_known(&self, file: FileIndex, index: SymbolIndex, symbol: &Symbol<'_>) -> bool
        ensures { (o : SaidObject) (s : SaidSymbol)
            → slice_get (all self.now) file.0 ≡ Some o
            → slice_get o.symbols index.0 ≡ Some s → means_own s ≡ false
            → s.name ≡ (symbol_of symbol.now).name → s.binding ≡ (symbol_of symbol.now).binding
            → result ≡ laws.is_known s (chosen (all self.now) s.name) }
    {
        match self.meant_outside(file, index) {
            Some(meant) => has_address(self.objects, meant.file, meant.definition),
            None => is_given(symbol),
        }
    }
}

/// Whether a definition of a file has an address, wherever sections stand.
fn has_address(objects: &[ShortObject<'_, '_>], file: FileIndex, definition: Definition) -> bool
    ensures { (o : SaidObject) → slice_get (map short_object_of objects.now) file.0 ≡ Some o
        → result ≡ laws.has_address o definition }
{
    match definition {
        Definition::Undefined => false,
        Definition::Absolute(_) => true,
        Definition::InSection(section, _) => {
            is_loaded(objects, file, SectionIndex(section as usize))
        }
        Definition::Skipped(_) => false,
    }
}

/// Whether a section of a file has a place in memory.
fn is_loaded(objects: &[ShortObject<'_, '_>], file: FileIndex, section: SectionIndex) -> bool
    ensures { (o : SaidObject) → slice_get (map short_object_of objects.now) file.0 ≡ Some o
        → result ≡ laws.is_loaded_at (slice_get o.sections section.0) }
{
    match objects.get(file.0) {
        Some(object) => match object.sections.get(section.0) {
            Some(section) => section.whole.loaded,
            None => false,
        },
        None => false,
    }
}

/// Whether a symbol that no object defines has an address: the linker gives its name, or it is weak and so 0.
fn is_given(symbol: &Symbol<'_>) -> bool
    ensures { result ≡ laws.is_known (symbol_of symbol.now) None }
{
    is_linker_name(symbol.name) || is_weak(symbol.binding)
}

/// Whether the linker gives a name.
fn is_linker_name(name: &[u8]) -> bool
    ensures { result ≡ is_one_of laws.linker_names name.now }
{
    name == b"_etext".as_slice()
        || name == b"__bss_start".as_slice()
        || name == b"_edata".as_slice()
        || name == b"_end".as_slice()
        || name == b"__global_pointer$".as_slice()
}
