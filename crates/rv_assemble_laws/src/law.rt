//! Laws of the definitions.

ghost use Rattle.std.specs.Prelude.{◌≡◌, ℕ, List, Some, true, length, flat_map};
ghost use Rattle.std.specs.List.{slice_get};
ghost use Rattle.rv_map_laws.specs.Name.{is_name};
ghost use Rattle.rv_statement_laws.specs.Statement.{Statement};
ghost use Rattle.rv_parse_laws.specs.Reading.{Reads};
ghost use Rattle.rv_unit_laws.specs.Sections.{Section};
ghost use Rattle.rv_unit_laws.specs.Tables.{Tables, opened_of, tables};
ghost use Rattle.rv_assemble_laws.specs.LaidStatements.{LaidStatement, Tile, end_of, part_bytes, parts};
ghost use Rattle.rv_assemble_laws.specs.ShownNames.{HasNames};
ghost use Rattle.rv_assemble_laws.specs.Small.{AreSmall};

/// The statements of a section end where its bytes end.
pub fn statements_fill_sections()
    ensures { (t : Tables) (laid : List LaidStatement) → Tile t 0 laid →
        end_of 0 laid ≡ length (flat_map part_bytes (parts t laid)) }
{}

/// A map can show each name that a source says: labels, names that are set or listed, symbols in expressions, sections.
pub fn names_are_shown()
    ensures { (text : List ℕ) (statements : List Statement) → Reads text statements →
        HasNames statements }
{}

/// So it can the name of each section of such a source, those that open by themselves among them.
pub fn sections_are_named()
    ensures { (statements : List Statement) (index : ℕ) (section : Section) → HasNames statements →
        slice_get (opened_of (tables statements)).sections index ≡ Some section →
        is_name section.name ≡ true }
{}

/// The statements of a source are few, and so are their names: each stands in the text as a token of its own.
pub fn statements_are_small()
    ensures { (text : List ℕ) (statements : List Statement) → Reads text statements →
        AreSmall statements }
{}
