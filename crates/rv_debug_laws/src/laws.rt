//! What is written is found.

ghost use Rattle.std.specs.Prelude.{◌≡◌, ℕ, List, true};
ghost use Rattle.rv_map_laws.specs.Map.{Map};
ghost use Rattle.rv_debug_laws.specs.declared.line_row.SourceFile.{SourceFile};
ghost use Rattle.rv_debug_laws.specs.declared.carried.Carried.{Carried};
ghost use Rattle.rv_debug_laws.specs.CarriedFile.{IsCarriedFile, IsLoadedSame};
ghost use Rattle.rv_debug_laws.specs.DebugFile.{HasDebug, IsDebugFile};
ghost use Rattle.rv_debug_laws.specs.Stored.{can_grow};
ghost use Rattle.rv_debug_laws.specs.Symbols.{Names};

/// A reader of a file with debug information finds the sections, symbols and line tables, and an image that is that of the
/// executable.
pub fn debug_file_is_read()
    ensures { (exe directory file : List ℕ) (m : Map) (names : Names)
        (sources : List SourceFile) → IsDebugFile exe m names directory sources file
        → HasDebug exe m names directory sources file }
{}

/// A file with the debug sections of objects is loaded as the executable, of which nothing stands in the header.
pub fn carried_file_is_loaded()
    ensures { (file new : List ℕ) (objects : List Carried) → IsCarriedFile file objects new
        → can_grow file ≡ true → IsLoadedSame file new }
{}
