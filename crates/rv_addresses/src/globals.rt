//! The names that a map shows.

ghost use Rattle.std.specs.Prelude.{◌≡◌, ◌++◌, ◌+◌, ◌<◌, ◌^◌, ℕ, IsTrue, List, [], ◌∷◌, Some, All, map, not, filter, is_some, option_map, IfOk, IfSome, OnOk};
ghost use Rattle.std.specs.List.{slice_get};
ghost use Rattle.rv_map_laws.specs.Globals.{global};
ghost use Rattle.rv_map_laws.specs.Limits.{IsGlobal};
ghost use Rattle.rv_map.specs.Views.{global_of};
ghost use Rattle.rv_map_laws.specs.Name.{is_name};
ghost use Rattle.rv_object_laws.specs.Object.{Object as SaidObject, Symbol as SaidSymbol};
ghost use Rattle.rv_object_types.specs.Parts.{symbol_of};
ghost use Rattle.rv_link_laws.specs.declared.bounds.Ground.{Ground};
ghost use Rattle.rv_link_laws.specs.Moves.{Move};
ghost use Rattle.rv_link_laws.specs.Layout.{shown_globals, regions_of};
ghost use Rattle.rv_object_laws.specs.Bindings as bindings;
ghost use Rattle.rv_link_laws.specs.Names as laws;
ghost use Rattle.rv_placement.specs.Placement.{IsPlacement, layout_of};
ghost use Rattle.rv_names.specs.Chosen.{definer};
ghost use Rattle.rv_names.specs.Names.{exported_of};
ghost use Rattle.rv_addresses.specs.Shown.{is_kept, shown_in, is_chosen_at, listed};
ghost use Rattle.rv_cut_laws.specs.Cutting.{cut_symbol};
ghost use Rattle.rv_shorten.specs.View.{short_object_of};

use crate::addresses::{defined_address, global_pointer};
use crate::resolution::Resolution;
use rv_map::Global;
use rv_names::is_defined;
use rv_object_types::{Binding, FileIndex, Symbol, SymbolIndex};
use rv_placement::Placement;
use rv_shorten::ShortObject;
use std::alloc::{AllocError, Global as Allocator};

impl<'n> Resolution<'_, '_, 'n, '_> {
    ghost use Rattle.rv_addresses.specs.Resolution.{all};

    /// The names that a map shows: the definitions that names mean, with addresses, by file and symbol, then the linker's that
    /// nobody defines.
    pub fn globals(
        &self,
        alloc: Allocator,
        placement: &Placement<'_>,
    ) -> Result<Vec<Global>, AllocError>
        ensures known { IfOk result (λ globals. All (λ g. IsGlobal (global_of g)) globals.items) }
        ensures shown { (bounds : Ground) → IsPlacement (all self.now) bounds placement.now
            → IfOk result (λ globals. map global_of globals.items
            ≡ shown_globals (all self.now) (layout_of placement.now)) }
    {
        let mut globals = Vec::new(alloc);
        for file in 0..self.objects.len() {
            self.put_globals(
                alloc,
                &mut globals,
                placement,
                FileIndex(file),
                &self.objects[file],
            )?;
        }
        self.put_linker_symbols(alloc, &mut globals, placement)?;
        Ok(globals)
    }

    /// Adds the names that the linker gives, but for those that an object defines.
    fn put_linker_symbols(
        &self,
        alloc: Allocator,
        globals: &mut Vec<Global>,
        placement: &Placement<'_>,
    ) -> Result<(), AllocError>
        ensures known { OnOk result (All (λ g. IsGlobal (global_of g)) globals.old.items
            → All (λ g. IsGlobal (global_of g)) globals.new.items) }
        ensures added { OnOk result ((bounds : Ground) → IsPlacement (all self.now) bounds placement.now
            → map global_of globals.new.items ≡ map global_of globals.old.items
            ++ laws.shown_linker_symbols (all self.now) (regions_of (layout_of placement.now))) }
    {
        self.put_linker_symbol(alloc, globals, b"_etext", placement.text.end)?;
        self.put_linker_symbol(alloc, globals, b"__bss_start", placement.bss.start)?;
        self.put_linker_symbol(alloc, globals, b"_edata", placement.data.end)?;
        self.put_linker_symbol(alloc, globals, b"_end", placement.bss.end)?;
        self.put_linker_symbol(
            alloc,
            globals,
            b"__global_pointer$",
            global_pointer(placement),
        )?;
        Ok(())
    }

    /// Adds a name that the linker gives, unless an object defines it.
    fn put_linker_symbol(
        &self,
        alloc: Allocator,
        globals: &mut Vec<Global>,
        name: &[u8],
        address: u64,
    ) -> Result<(), AllocError>
        requires { IsTrue (is_name name.now) }
        ensures known { OnOk result (All (λ g. IsGlobal (global_of g)) globals.old.items
            → All (λ g. IsGlobal (global_of g)) globals.new.items) }
        ensures added { OnOk result (map global_of globals.new.items
            ≡ map global_of globals.old.items
            ++ filter (λ g. not (is_some (laws.chosen (all self.now) g.name)))
            (global name.now address ∷ [])) }
    {
        if self.names.named(name).is_some() {
            return Ok(());
        }
        let name = Vec::from_slice(alloc, name)?;
        globals.push(Global { name, address })?;
        Ok(())
    }

    /// Adds the definitions with addresses that names mean among the symbols of a file.
    fn put_globals(
        &self,
        alloc: Allocator,
        globals: &mut Vec<Global>,
        placement: &Placement<'_>,
        file: FileIndex,
        object: &ShortObject<'_, '_>,
    ) -> Result<(), AllocError>
        ensures known { OnOk result (All (λ g. IsGlobal (global_of g)) globals.old.items
            → All (λ g. IsGlobal (global_of g)) globals.new.items) }
        ensures added { OnOk result ((bounds : Ground)
            → IsPlacement (all self.now) bounds placement.now
            → slice_get (all self.now) file.0 ≡ Some (short_object_of object.now)
            → map global_of globals.new.items ≡ map global_of globals.old.items
            ++ shown_in (all self.now) placement.now file.0
            (short_object_of object.now) 0 (short_object_of object.now).symbols) }
    {
        for index in 0..object.whole.symbols.len() {
            self.put_global(alloc, globals, placement, file, SymbolIndex(index))?;
        }
        Ok(())
    }

    /// Adds the symbol at an index of a file, if its name means it and it has an address.
    fn put_global(
        &self,
        alloc: Allocator,
        globals: &mut Vec<Global>,
        placement: &Placement<'_>,
        file: FileIndex,
        index: SymbolIndex,
    ) -> Result<(), AllocError>
        ensures known { OnOk result (All (λ g. IsGlobal (global_of g)) globals.old.items
            → All (λ g. IsGlobal (global_of g)) globals.new.items) }
        ensures added { OnOk result ((bounds : Ground) (o : SaidObject) (s : SaidSymbol)
            → IsPlacement (all self.now) bounds placement.now
            → slice_get (all self.now) file.0 ≡ Some o
            → slice_get o.symbols index.0 ≡ Some s
            → map global_of globals.new.items ≡ map global_of globals.old.items
            ++ shown_in (all self.now) placement.now file.0 o index.0 (s ∷ [])) }
    {
        match self.shown_at(placement, file, index) {
            Some((name, address)) => {
                let name = Vec::from_slice(alloc, name)?;
                globals.push(Global { name, address })?;
                Ok(())
            }
            None => Ok(()),
        }
    }

    /// The name and the address of the symbol at an index of a file, if its name means it and it has an address.
    fn shown_at(
        &self,
        placement: &Placement<'_>,
        file: FileIndex,
        index: SymbolIndex,
    ) -> Option<(&'n [u8], u64)>
        ensures named { IfSome result (λ p. IsTrue (is_name p.0.now)) }
        ensures fits { IfSome result (λ p. p.1 < 2 ^ 64) }
        ensures shown { (bounds : Ground) (o : SaidObject) (s : SaidSymbol)
            → IsPlacement (all self.now) bounds placement.now
            → slice_get (all self.now) file.0 ≡ Some o
            → slice_get o.symbols index.0 ≡ Some s → listed result
            ≡ shown_in (all self.now) placement.now file.0 o index.0 (s ∷ []) }
    {
        let object = self.objects.get(file.0)?;
        let symbol = object.whole.symbols.get(index.0)?;
        if !self.is_chosen(file, index, symbol) {
            return None;
        }
        let definition = object.definition(symbol.definition);
        let address = defined_address(self.objects, placement, file, definition)?;
        Some((symbol.name, address))
    }

    /// Whether the symbol at an index of a file is a definition that its name means. A global one is, as no name has two.
    fn is_chosen(&self, file: FileIndex, index: SymbolIndex, symbol: &Symbol<'_>) -> bool
        ensures shared { IsTrue result → IsTrue (bindings.is_shared (symbol.now).binding) }
        ensures chosen { (o : SaidObject) (cuts : List (List Move))
            → slice_get (all self.now) file.0 ≡ Some o
            → slice_get o.symbols index.0 ≡ Some (cut_symbol cuts (symbol_of symbol.now))
            → result ≡ is_chosen_at (all self.now) file.0 o index.0
            (cut_symbol cuts (symbol_of symbol.now)) }
    {
        match symbol.binding {
            Binding::Local => false,
            Binding::Global => is_defined(symbol.definition),
            Binding::Weak => {
                is_defined(symbol.definition) && self.is_named(file, index, symbol.name)
            }
        }
    }

    /// Whether a name means the symbol at an index of a file.
    fn is_named(&self, file: FileIndex, index: SymbolIndex, name: &[u8]) -> bool
        ensures { result
            ≡ is_kept file.0 index.0 (option_map exported_of (definer (all self.now) name.now)) }
    {
        match self.names.named(name) {
            Some(exported) => exported.file == file && exported.symbol == index,
            None => false,
        }
    }
}
