//! The laws, each the contract of a function with nothing to do.

ghost use Rattle.std.specs.Prelude.{◌≡◌, ◌⊎◌, ◌≤◌, ◌<◌, ◌^◌, ◌∷◌, ◌++◌, [], ℕ, ℤ, false, pos, List, length, slice_index, Some};
ghost use Rattle.std.specs.Int.{w64, int_wrap};
ghost use Rattle.std.specs.List.{AllByRecursion};
ghost use Rattle.rv_isa.specs.Operations.{format_of};
ghost use Rattle.rv_isa_laws.specs.Arithmetic.{wrapped};
ghost use Rattle.rv_size_laws.specs.declared.item.Item.{Item};
ghost use Rattle.rv_size_laws.specs.Branches.{IsLeastGood, item_at, smallest};
ghost use Rattle.rv_expression_laws.specs.Expression.{Primary, Here};
ghost use Rattle.rv_expression_laws.specs.Values.{Meaning, InSection, Open, Symbolic, add, value_of};
ghost use Rattle.rv_parse_laws.specs.Reading.{Reads, longest_source};
ghost use Rattle.rv_pseudo_laws.specs.Code.{Constants};
ghost use Rattle.rv_pseudo_laws.specs.Filled.{FieldValue, filled_part};
ghost use Rattle.rv_source_laws.specs.Lines.{constant_of, distance as distance_to, form_in, parts_by_size};
ghost use Rattle.rv_listing_laws.specs.declared.code.Code.{Code};
ghost use Rattle.rv_listing_laws.specs.Raw.{IsSourced, lines_text, raw_lines};
ghost use Rattle.rv_raw_theorems.specs.Statements.{IsSmall, code_statement, from_dot, constant_expression, on_lines, raw_statements};
ghost use Rattle.rv_raw_theorems.specs.Meaning.{KnowsNumbers, Leads, LeadsFromItself, code_width, instruction_at, named_by, part_of};

/// The lines of a raw listing read as the statements of its instructions, in order, one a line; unless they are too long for
/// a source.
pub fn listing_reads()
    ensures { (before after : List Code) → AllByRecursion IsSourced (before ++ after) →
        length (lines_text (raw_lines before after)) ≤ longest_source →
        Reads (lines_text (raw_lines before after)) (on_lines 1 (raw_statements before after)) }
{}

/// A number is its own value, and `.` with a distance leads that far, from any address.
pub fn numbers_are_kept()
    ensures constants { (m : Primary → Meaning) (z : ℤ) → IsSmall z →
        constant_of (value_of m (constant_expression z)) ≡ Some z }
    ensures targets { (m : Primary → Meaning) (section offset : ℕ) (z : ℤ) → IsSmall z →
        (m Here ≡ InSection section offset) ⊎ (m Here ≡ Open) →
        value_of m (from_dot z) ≡ Symbolic Here (m Here) (wrapped z) }
    ensures addends { (z : ℤ) → IsSmall z → int_wrap w64 (pos (wrapped z)) ≡ z }
    ensures distances { (address : ℕ) (z : ℤ) → IsSmall z → address < 2 ^ 64 →
        distance_to address (add address (wrapped z)) ≡ z }
{}

/// The code of each statement is the instruction from which its line was written, once a branch or a jump has its offset; a
/// parcel's names its form, unless it leads somewhere.
pub fn statements_are_instructions()
    ensures parts { (v : Constants) → KnowsNumbers v → (code : Code) → IsSourced code →
        parts_by_size v false (code_width code) (code_statement code) ≡ Some (part_of code ∷ []) }
    ensures filled { (value : FieldValue) (address : ℕ) (code : Code) →
        Leads value address (format_of (instruction_at code)) →
        filled_part value address (part_of code) ≡ instruction_at code ∷ [] }
    ensures forms { (v : Constants) → KnowsNumbers v → (code : Code) → IsSourced code →
        form_in v (code_statement code) ≡ named_by code }
{}

/// Where branches lead to themselves and a distance in their range, and all else is settled, the least sizes are the
/// smallest.
pub fn branches_to_themselves_are_small()
    ensures { (items : List Item) (sizes : List ℕ) →
        ((i : ℕ) → LeadsFromItself i (item_at items i)) → IsLeastGood items sizes →
        (i : ℕ) → slice_index sizes i ≡ smallest (item_at items i).forms }
{}
