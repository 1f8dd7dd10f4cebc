//! Laws of the objects of sources, and of the faults of statements.

ghost use Rattle.std.specs.Prelude.{◌≡◌, ◌≤◌, ◌&&◌, true, ℕ, List, length};
ghost use Rattle.std.specs.List.{AllByRecursion};
ghost use Rattle.rv_statement_laws.specs.Statement.{Statement};
ghost use Rattle.rv_parse_laws.specs.Reading.{Reads};
ghost use Rattle.rv_unit_laws.specs.Sections.{most_sections};
ghost use Rattle.rv_unit_laws.specs.Tables.{longest_section};
ghost use Rattle.rv_unit_laws.specs.Faults.{StatementFault};
ghost use Rattle.rv_object_laws.specs.Object.{Object, size_of};
ghost use Rattle.rv_object_file_laws.specs.Written.{HasFile};
ghost use Rattle.rv_assemble_laws.specs.Refusals.{IsTooLong, IsStatementsFault};
ghost use Rattle.rv_assemble_laws.specs.ShownNames.{HasNames};
ghost use Rattle.rv_assemble_laws.specs.IsObjectOf.{IsObjectOf};

/// Statements have one object, whatever assembles them: their sizes, the order of symbols and the symbol of each relocation
/// are all said. No name is empty in statements that a text reads as (`names_are_shown`); an empty one could not be told from
/// a place without a name.
pub fn one_object_of_statements()
    ensures { (statements : List Statement) (o p : Object) → HasNames statements →
        IsObjectOf statements o → IsObjectOf statements p → o ≡ p }
{}

/// Such an object has few sections, and none of those that go to the text is long: what a linker asks of it.
pub fn objects_are_small()
    ensures few { (statements : List Statement) (o : Object) → IsObjectOf statements o →
        length o.sections ≤ most_sections }
    ensures short { (statements : List Statement) (o : Object) → IsObjectOf statements o →
        AllByRecursion (λ s. (s.loaded && s.executable) ≡ true →
        size_of s.contents ≤ longest_section) o.sections }
{}

/// Statements that have an object are not refused for a section of code that becomes too long: the sizes of their code are
/// those that the object has for it.
pub fn objects_are_not_too_long()
    ensures { (statements : List Statement) (o : Object) (f : StatementFault) →
        IsObjectOf statements o → IsTooLong statements f → ⊥ }
{}

/// Statements are refused for one fault: sizes, which are looked at last, are those of one family.
pub fn statements_have_one_fault()
    ensures { (statements : List Statement) (f g : StatementFault) →
        IsStatementsFault statements f → IsStatementsFault statements g → f ≡ g }
{}

/// The object of a source has a file: its sections have numbers of 16 bits, and its symbols and its tables of names
/// numbers of 32, since each name stands in the text as a token of its own, and a text has 16 MiB at most.
pub fn objects_have_files()
    ensures { (text : List ℕ) (statements : List Statement) (o : Object) → Reads text statements →
        IsObjectOf statements o → HasFile o }
{}
