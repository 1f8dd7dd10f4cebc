//! What the names of objects mean.
//!
//! The tables tell which symbol defines what another means, and not where that stands: so they hold for objects and for what
//! relaxation leaves of them, and names are looked up once in a link.
//!
//! Names are in a tree, not in a hash table: objects come from anyone, and no hash here has a seed that a file could not
//! know. It costs n log n: a link with 100,000 global names takes three times the host instructions that a table by hash
//! took.

ghost use Rattle.std.specs.Prelude.{◌≡◌, false, Some, List, map, option_map, IfOk, IfErr};
ghost use Rattle.std.specs.List.{slice_get};
ghost use Rattle.rv_map_laws.specs.Globals.{AreDistinct};
ghost use Rattle.rv_object_laws.specs.Object.{Object as SaidObject, Symbol as SaidSymbol};
ghost use Rattle.rv_object_types.specs.View.{object_of};
ghost use Rattle.rv_link_laws.specs.Names.{global_names, is_sure};
ghost use Rattle.rv_link_laws.specs.Exports.{first_duplicate};
ghost use Rattle.rv_names.specs.Chosen.{definer};
ghost use Rattle.rv_names.specs.Names.{IsNames, IsDuplicate, exported_of};

use crate::definitions::{Definitions, Exported};
use crate::fault::ResolveFault;
use crate::meanings::Meanings;
use rv_object_types::{FileIndex, Object, SymbolIndex};
use std::alloc::Global;

/// The definitions that names mean in all files, and which of them each symbol means.
#[derive(Drop)]
pub struct Names<'o> {
    pub(crate) definitions: Definitions<'o>,
    pub(crate) meanings: Meanings,
}

impl<'o> Names<'o> {
    /// Those of objects. A name that has two global definitions is refused: the first second one, by file and symbol.
    pub fn of(alloc: Global, objects: &[Object<'o>]) -> Result<Names<'o>, ResolveFault<'o>>
        ensures names { IfOk result (λ names. IsNames (map object_of objects.now) names) }
        ensures distinct { IfOk result
            (λ _. AreDistinct (global_names (map object_of objects.now))) }
        ensures refuses { IfErr result
            (λ fault. IsDuplicate fault (first_duplicate (map object_of objects.now))) }
    {
        let definitions = Definitions::of(alloc, objects)?;
        let meanings = Meanings::of(alloc, objects, &definitions)?;
        Ok(Names {
            definitions,
            meanings,
        })
    }

    /// The symbol that defines a name for all files.
    pub fn named(&self, name: &[u8]) -> Option<Exported>
        ensures { (os : List SaidObject) → IsNames os self.now
            → result ≡ option_map exported_of (definer os name.now) }
    {
        self.definitions.by_name.get(name).copied()
    }

    /// The symbol that defines what the symbol at an index of a file means, if its own object does not surely define it.
    pub fn outside(&self, file: FileIndex, index: SymbolIndex) -> Option<Exported>
        ensures { (os : List SaidObject) (o : SaidObject) (s : SaidSymbol) → IsNames os self.now
            → slice_get os file.0 ≡ Some o → slice_get o.symbols index.0 ≡ Some s
            → is_sure s ≡ false → result ≡ option_map exported_of (definer os s.name) }
    {
        self.meanings.at(file, index)
    }
}
