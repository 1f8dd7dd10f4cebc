//! The definitions of objects that names mean in all files.

ghost use Rattle.std.specs.Prelude.{List, ◌++◌, map, IfOk, IfErr, OnOk};
ghost use Rattle.rv_map_laws.specs.Globals.{AreDistinct};
ghost use Rattle.rv_object_types.specs.Parts.{symbol_of};
ghost use Rattle.rv_object_types.specs.View.{object_of};
ghost use Rattle.rv_object_laws.specs.Bindings.{is_global, is_weak};
ghost use Rattle.rv_link_laws.specs.Names.{global_names};
ghost use Rattle.rv_names.specs.Chosen.{Definer, seen, seen_of, definers_at, definers_in, definers_from, definitions};
ghost use Rattle.rv_link_laws.specs.Exports.{first_duplicate};
ghost use Rattle.rv_names.specs.Names.{AnswersFirst, IsDefinitionTable, IsRefused, IsDuplicate};

use crate::fault::ResolveFault;
use crate::symbol::{is_global_definition, is_weak_definition};
use rv_object_types::{FileIndex, Object, Symbol, SymbolIndex};
use std::alloc::{AllocError, Global};
use std::collections::BTreeMap;

/// A symbol that is a definition for all files, by its file and its index there: so it stays the same, wherever what it defines
/// moves.
#[derive(Clone, Copy, Drop)]
pub struct Exported {
    pub file: FileIndex,
    pub symbol: SymbolIndex,
}

/// The definitions that names mean in all files, by name: in the order of the names, which costs the same whatever names a file
/// has, while names of one hash can be made at will.
#[derive(Drop)]
pub(crate) struct Definitions<'o> {
    pub(crate) by_name: BTreeMap<&'o [u8], Exported>,
}

impl<'o> Definitions<'o> {
    /// Those of objects: the global ones, and where a name has none the first weak one. A name that has two global ones is
    /// refused: the first second one, by file and symbol.
    pub(crate) fn of(
        alloc: Global,
        objects: &[Object<'o>],
    ) -> Result<Definitions<'o>, ResolveFault<'o>>
        ensures answers { IfOk result (AnswersFirst (definitions (map object_of objects.now))) }
        ensures distinct { IfOk result
            (λ _. AreDistinct (global_names (map object_of objects.now))) }
        ensures refuses { IfErr result
            (λ fault. IsDuplicate fault (first_duplicate (map object_of objects.now))) }
    {
        let mut definitions = Definitions::global(alloc, objects)?;
        definitions.put_weak(objects)?;
        Ok(definitions)
    }

    /// The global ones.
    fn global(alloc: Global, objects: &[Object<'o>]) -> Result<Definitions<'o>, ResolveFault<'o>>
        ensures answers { IfOk result
            (AnswersFirst (definers_from is_global 0 (seen_of (map object_of objects.now)))) }
        ensures distinct { IfOk result
            (λ _. AreDistinct (global_names (map object_of objects.now))) }
        ensures refuses { IfErr result
            (λ fault. IsDuplicate fault (first_duplicate (map object_of objects.now))) }
    {
        let mut definitions = Definitions {
            by_name: BTreeMap::new(alloc),
        };
        for file in 0..objects.len() {
            definitions.put_all(FileIndex(file), objects[file].symbols.as_slice())?;
        }
        Ok(definitions)
    }

    /// Adds the global definitions among the symbols of a file.
    fn put_all(&mut self, file: FileIndex, symbols: &[Symbol<'o>]) -> Result<(), ResolveFault<'o>>
        ensures added { OnOk result ((ds : List Definer) → IsDefinitionTable ds self.old
            → IsDefinitionTable (ds
            ++ definers_in is_global file.0 0 (map seen (map symbol_of symbols.now)))
            self.new) }
        ensures refuses { IfErr result (λ fault. (ds : List Definer) → IsDefinitionTable ds self.old
            → IsRefused fault
            (ds ++ definers_in is_global file.0 0 (map seen (map symbol_of symbols.now)))) }
    {
        for index in 0..symbols.len() {
            self.put(file, SymbolIndex(index), &symbols[index])?;
        }
        Ok(())
    }

    /// Adds a symbol of a file, by its index there, if it is a global definition.
    fn put(
        &mut self,
        file: FileIndex,
        index: SymbolIndex,
        symbol: &Symbol<'o>,
    ) -> Result<(), ResolveFault<'o>>
        ensures added { OnOk result ((ds : List Definer) → IsDefinitionTable ds self.old
            → IsDefinitionTable (ds
            ++ definers_at is_global file.0 index.0 (seen (symbol_of symbol.now)))
            self.new) }
        ensures refuses { IfErr result (λ fault. (ds : List Definer) → IsDefinitionTable ds self.old
            → IsRefused fault
            (ds ++ definers_at is_global file.0 index.0 (seen (symbol_of symbol.now)))) }
    {
        if !is_global_definition(symbol) {
            return Ok(());
        }
        let exported = Exported {
            file,
            symbol: index,
        };
        match self.by_name.insert(symbol.name, exported)? {
            Some(_) => Err(ResolveFault::Duplicate(symbol.name)),
            None => Ok(()),
        }
    }

    /// Adds the weak definitions of objects whose names are new.
    fn put_weak(&mut self, objects: &[Object<'o>]) -> Result<(), AllocError>
        ensures { OnOk result ((ds : List Definer) → AnswersFirst ds self.old
            → AnswersFirst (ds ++ definers_from is_weak 0 (seen_of (map object_of objects.now)))
            self.new) }
    {
        for file in 0..objects.len() {
            self.put_weak_of(FileIndex(file), objects[file].symbols.as_slice())?;
        }
        Ok(())
    }

    /// Adds those among the symbols of a file.
    fn put_weak_of(&mut self, file: FileIndex, symbols: &[Symbol<'o>]) -> Result<(), AllocError>
        ensures { OnOk result ((ds : List Definer) → AnswersFirst ds self.old
            → AnswersFirst (ds ++ definers_in is_weak file.0 0 (map seen (map symbol_of symbols.now)))
            self.new) }
    {
        for index in 0..symbols.len() {
            self.put_weak_one(file, SymbolIndex(index), &symbols[index])?;
        }
        Ok(())
    }

    /// Adds a symbol of a file, by its index there, if it is a weak definition and its name is new.
    fn put_weak_one(
        &mut self,
        file: FileIndex,
        index: SymbolIndex,
        symbol: &Symbol<'o>,
    ) -> Result<(), AllocError>
        ensures { OnOk result ((ds : List Definer) → AnswersFirst ds self.old
            → AnswersFirst (ds ++ definers_at is_weak file.0 index.0 (seen (symbol_of symbol.now)))
            self.new) }
    {
        if !is_weak_definition(symbol) {
            return Ok(());
        }
        if self.by_name.get(symbol.name).is_some() {
            return Ok(());
        }
        let exported = Exported {
            file,
            symbol: index,
        };
        self.by_name.insert(symbol.name, exported)?;
        Ok(())
    }
}
