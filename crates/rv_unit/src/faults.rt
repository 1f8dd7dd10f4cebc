//! The faults of one statement.
//!
//! Of several faults of a statement the one with the lowest code counts, so each function gives the lowest of its part
//! and `lower` joins two, as the definitions join two lists of codes. No function needs to know what the others look
//! at.

ghost use Rattle.std.specs.Prelude.{◌≡◌, ◌<◌, ℕ, List, ◌++◌, Option, Some, None, not, ◌&&◌, ◌||◌, ◌==◌};
ghost use Rattle.rv_expression_laws.specs.Codes as codes;
ghost use Rattle.rv_expression_laws.specs.Codes.{duplicate_label, wrong_section};
ghost use Rattle.rv_fault.specs.SourceFault.{source_fault_number, IsLowest};
ghost use Rattle.rv_unit_laws.specs.Sections.{is_nobits};
ghost use Rattle.rv_unit_laws.specs.Faults as laws;
ghost use Rattle.rv_unit_laws.specs.Tables as tables;
ghost use Rattle.rv_expression_laws.specs.Values.{value_of};
ghost use Rattle.rv_expression.specs.Nodes.{symbol_of};
ghost use Rattle.rv_expression.specs.Expr.{tree_of_expr};
ghost use Rattle.rv_expression.specs.Eval.{meaning_of, IsOutcome};
ghost use Rattle.rv_unit.specs.Faults.{ForValue, open_meaning, is_difference};
ghost use Rattle.rv_unit.specs.Sections.{section_of};

use crate::align::{GREATEST_ALIGNMENT, LONGEST_SECTION, is_power_below, padding};
use crate::section::Section;
use rv_expression::{Expr, SourceCode, SourceFault, Symbol, SymbolMeaning, Value, symbolic_value};
use rv_statement_laws::Choice;

/// What an expression is worth, or its fault.
pub(crate) type Outcome<'a> = Result<Value<'a>, SourceFault>;

/// The lower of two codes, where there are any.
#[tactic(auto, using(crate::proofs::LowestLemmas::lowest_append))]
pub(crate) fn lower(one: Option<SourceCode>, other: Option<SourceCode>) -> Option<SourceCode>
    ensures { (cs ds : List ℕ) → IsLowest one cs → IsLowest other ds → IsLowest result (cs ++ ds) }
{
    match (one, other) {
        (Some(a), Some(b)) => Some(if a.number() <= b.number() { a } else { b }),
        (Some(a), None) => Some(a),
        (None, found) => found,
    }
}

/// The code, where it is a fault.
pub(crate) fn faulty_if(test: bool, code: SourceCode) -> Option<SourceCode>
    ensures { IsLowest result (codes.faulty_if test (source_fault_number code)) }
{
    if test { Some(code) } else { None }
}

/// The fault of a value where a constant is wanted.
pub(crate) fn constant_fault(value: &Outcome<'_>) -> Option<SourceCode>
    ensures { ForValue value.now (λ v. IsLowest result (laws.constant_faults v)) }
{
    match value {
        Ok(Value::Constant(_)) => None,
        Ok(_) => Some(SourceCode::NotConstant),
        Err(SourceFault::At { code, .. }) => Some(*code),
        Err(SourceFault::OutOfMemory) => None,
    }
}

/// The fault of a value as a size.
pub(crate) fn size_fault(value: &Outcome<'_>) -> Option<SourceCode>
    ensures { ForValue value.now (λ v. IsLowest result (laws.size_faults v)) }
{
    match value {
        Ok(Value::Constant(number)) => faulty_if(*number >= 1 << 63, SourceCode::ImmediateRange),
        _ => constant_fault(value),
    }
}

/// The fault of a value as the power of two of an alignment.
pub(crate) fn power_fault(value: &Outcome<'_>) -> Option<SourceCode>
    ensures { ForValue value.now (λ v. IsLowest result (laws.power_faults v)) }
{
    match value {
        Ok(Value::Constant(power)) => {
            if *power < 1 << 63 {
                faulty_if(*power >= 13, SourceCode::Limit)
            } else {
                Some(SourceCode::ImmediateRange)
            }
        }
        _ => constant_fault(value),
    }
}

/// The fault of a value as the bytes of an alignment.
pub(crate) fn bytes_fault(value: &Outcome<'_>) -> Option<SourceCode>
    ensures { ForValue value.now (λ v. IsLowest result (laws.bytes_faults v)) }
{
    match value {
        Ok(Value::Constant(number)) => {
            if is_power_below(63, *number) {
                faulty_if(*number > GREATEST_ALIGNMENT, SourceCode::Limit)
            } else {
                Some(SourceCode::ImmediateRange)
            }
        }
        _ => constant_fault(value),
    }
}

/// The fault of a value of data of a width.
pub(crate) fn value_fault(width: u64, value: &Outcome<'_>) -> Option<SourceCode>
    ensures { ForValue value.now (λ v. IsLowest result (laws.value_faults width v)) }
{
    match value {
        Ok(Value::Constant(_)) | Ok(Value::Difference(..)) => None,
        Ok(Value::Symbolic(..)) => faulty_if(width < 4, SourceCode::NotConstant),
        Err(SourceFault::At { code, .. }) => Some(*code),
        Err(SourceFault::OutOfMemory) => None,
    }
}

/// What a symbol means where each name is open.
fn open_meaning(symbol: Symbol<'_>) -> SymbolMeaning
    ensures { meaning_of result ≡ open_meaning (symbol_of symbol.entry) }
{
    match symbol {
        Symbol::Name(_) => SymbolMeaning::Open,
        Symbol::Here => SymbolMeaning::UndefinedLocal,
        Symbol::Reference(_) => SymbolMeaning::UndefinedLocal,
    }
}

/// The value of an expression where each name is open.
fn open_value<'e>(expression: &Expr<'e>) -> Outcome<'e>
    ensures { IsOutcome result 0 (value_of open_meaning (tree_of_expr expression.now)) }
{
    symbolic_value(expression, 0, &|symbol| { open_meaning(symbol) })
}

/// Whether a value is a difference.
fn tells_difference(value: &Outcome<'_>) -> bool
    ensures { ForValue value.now (λ v. result ≡ is_difference v) }
{
    match value {
        Ok(Value::Difference(..)) => true,
        Ok(Value::Constant(_)) => false,
        Ok(Value::Symbolic(..)) => false,
        Err(SourceFault::At { .. }) => false,
        Err(SourceFault::OutOfMemory) => false,
    }
}

/// Whether an expression is a difference of two names, wherever these are.
pub(crate) fn is_difference(expression: &Expr<'_>) -> bool
    ensures { result ≡ is_difference (value_of open_meaning (tree_of_expr expression.now)) }
{
    tells_difference(&open_value(expression))
}

/// The fault of data at an offset.
pub(crate) fn past_section(executable: bool, offset: u32, bytes: u64) -> Option<SourceCode>
    ensures { IsLowest result (laws.past_section executable offset bytes) }
{
    let past = match u64::from(offset).checked_add(bytes) {
        Some(end) => end > LONGEST_SECTION,
        None => true,
    };
    faulty_if(!executable && past, SourceCode::Limit)
}

/// The fault of data at an offset, but for the faults of its values.
pub(crate) fn data_fault(section: Section<'_>, offset: u32, bytes: u64) -> Option<SourceCode>
    ensures { IsLowest result
        (codes.faulty_if
        (section.entry.executable || is_nobits (section_of section.entry)) wrong_section
        ++ laws.past_section section.entry.executable offset bytes) }
{
    let misplaced = faulty_if(
        section.executable || section.is_nobits(),
        SourceCode::WrongSection,
    );
    lower(misplaced, past_section(section.executable, offset, bytes))
}

/// The fault of zero bytes, by the value of their count.
pub(crate) fn zero_fault(
    section: Section<'_>,
    offset: u32,
    value: &Outcome<'_>,
) -> Option<SourceCode>
    ensures { ForValue value.now
        (λ v. IsLowest result (laws.zero_faults (section_of section.entry) offset v)) }
{
    let past = match value {
        Ok(Value::Constant(count)) if *count < 1 << 63 => {
            past_section(section.executable, offset, *count)
        }
        _ => None,
    };
    let misplaced = faulty_if(section.executable, SourceCode::WrongSection);
    lower(size_fault(value), lower(misplaced, past))
}

/// The fault of an alignment in code: above 2 it has bytes, which a section without them cannot have.
fn code_alignment_fault(nobits: bool, alignment: Option<u32>) -> Option<SourceCode>
    ensures { IsLowest result (laws.code_alignment_faults nobits alignment) }
{
    match alignment {
        None => None,
        Some(alignment) => faulty_if(nobits && alignment > 2, SourceCode::WrongSection),
    }
}

/// The fault of an alignment at an offset, by its value.
pub(crate) fn alignment_fault(
    section: Section<'_>,
    offset: u32,
    alignment: Option<u32>,
) -> Option<SourceCode>
    ensures { IsLowest result (laws.alignment_faults (section_of section.entry) offset alignment) }
{
    if section.executable {
        return code_alignment_fault(section.is_nobits(), alignment);
    }
    past_section(false, offset, padding(alignment, offset))
}

/// The fault of a `.set` that gives no location, of a name that a label or a location has before.
fn constant_set_fault(placed: bool, value: &Outcome<'_>) -> Option<SourceCode>
    ensures { ForValue value.now
        (λ v. IsLowest result (laws.constant_faults v ++ codes.faulty_if placed duplicate_label)) }
{
    lower(
        constant_fault(value),
        faulty_if(placed, SourceCode::DuplicateLabel),
    )
}

/// The fault of a `.set` in a section, by the value of its expression, where the name has a definition before, and one as a
/// label or a location.
pub(crate) fn set_fault(
    section: Section<'_>,
    defined: bool,
    placed: bool,
    value: &Outcome<'_>,
) -> Option<SourceCode>
    ensures { (t : tables.Tables) (ordinal : ℕ) (name : List ℕ) →
        defined ≡ tables.is_defined t ordinal name → placed ≡ tables.has_location t ordinal name
        → ForValue value.now
        (λ v. IsLowest result (laws.set_faults t ordinal (section_of section.entry) name v)) }
{
    match value {
        Ok(Value::Symbolic(Symbol::Here, _)) => lower(
            faulty_if(defined, SourceCode::DuplicateLabel),
            faulty_if(section.executable, SourceCode::WrongSection),
        ),
        Ok(Value::Symbolic(Symbol::Name(_), _)) | Ok(Value::Symbolic(Symbol::Reference(_), _)) =>
            constant_set_fault(placed, value),
        Ok(Value::Constant(_)) | Ok(Value::Difference(..)) => constant_set_fault(placed, value),
        Err(SourceFault::At { .. }) => constant_set_fault(placed, value),
        Err(SourceFault::OutOfMemory) => constant_set_fault(placed, value),
    }
}

/// The fault of an option, after so many pushes without their pop: a pop without its push.
pub(crate) fn choice_fault(depth: usize, choice: Choice) -> Option<SourceCode>
    ensures { IsLowest result (laws.choice_faults depth choice) }
{
    match choice {
        Choice::Pop => faulty_if(depth == 0, SourceCode::OptionStack),
        Choice::Rvc => None,
        Choice::Norvc => None,
        Choice::Relax => None,
        Choice::Norelax => None,
        Choice::Push => None,
        Choice::Nopic => None,
    }
}

/// The fault of an instruction in a section: it is none of code, or one without bytes.
pub(crate) fn instruction_fault(section: Section<'_>) -> Option<SourceCode>
    ensures { IsLowest result
        (codes.faulty_if
        (not section.entry.executable || is_nobits (section_of section.entry)) wrong_section) }
{
    faulty_if(
        !section.executable || section.is_nobits(),
        SourceCode::WrongSection,
    )
}
