//! A source that was named is found.

ghost use Rattle.std.specs.Prelude.{◌≡◌, List, ℕ, None, Some};
ghost use Rattle.rv_object_laws.specs.Object.{Object};
ghost use Rattle.rv_object_file_laws.specs.FirstFault.{first_fault};
ghost use Rattle.rv_object_file_laws.specs.ObjectOf.{ObjectOf};
ghost use Rattle.rv_debug_laws.specs.SourceNames.{IsSourceName, SourceName, source_of, with_source};

/// The file of an object with the section of a name names this source, whatever else the object has.
pub fn source_is_read()
    ensures { (file : List ℕ) (o : Object) (name : SourceName) → first_fault file ≡ None
        → ObjectOf file (with_source name o) → IsSourceName name → source_of file ≡ Some name }
{}
