//! Branches and jumps as their sizes see them: the forms that they have, and where they lead.
//!
//! The sizes of branches depend on one another, so a statement says only its forms and its target here. `rv_draft`
//! finds the one least family of sizes.
//!
//! Source: RISC-V Unprivileged ISA 20191213, chapters 2.5 and 16; GNU as, "RISC-V-Directives".

ghost use Rattle.std.specs.Prelude.{◌≡◌, ◌==◌, ◌+◌, ◌≤◌, pos, Some, IfSome};
ghost use Rattle.std.specs.Int.{w64, int_wrap};
ghost use Rattle.rv_expression_laws.specs.Values as values;
ghost use Rattle.rv_statement_laws.specs.Statement.{Expression};
ghost use Rattle.rv_statement.specs.View.{statement_kind};
ghost use Rattle.rv_unit_laws.specs.Tables.{tables};
ghost use Rattle.rv_unit.specs.Faults.{ForValue};
ghost use Rattle.rv_unit.specs.Unit.{said, definition_of};
ghost use Rattle.rv_source_laws.specs.Sizes as sizes;
ghost use Rattle.rv_instruction.specs.Code.{near_forms_of};
ghost use Rattle.rv_instruction.specs.Near as laws;
ghost use Rattle.rv_instruction.specs.Scoped.{values_at, AtNext};

use crate::worth::Outcome;
use rv_expression::Value;
use rv_isa::{BranchOperation, Reg};
use rv_size_laws::{Forms, Item};
use rv_statement::{Operation, Statement, StatementKind};
use rv_statement_laws::{Function, ZeroBranchOperation};
use rv_unit::{Definition, Scope, SectionOffset};

/// Whether a register is one of x8 to x15.
fn is_short_register(register: Reg) -> bool
    ensures { result ≡ sizes.is_short_register register }
{
    let number = register.number();
    8 <= number && number <= 15
}

/// Whether a branch is taken on equality, or on the opposite.
fn is_equality(operation: BranchOperation) -> bool
    ensures { result ≡ sizes.is_equality operation }
{
    matches!(operation, BranchOperation::Beq | BranchOperation::Bne)
}

/// Whether a branch on two registers has a form of two bytes.
fn is_short_branch(operation: BranchOperation, rs1: Reg, rs2: Reg) -> bool
    ensures { result ≡ sizes.is_short_branch operation rs1 rs2 }
{
    is_equality(operation) && rs2.number() == 0 && is_short_register(rs1)
}

/// The forms of a branch.
fn branch_forms(short: bool) -> Forms
    ensures { result ≡ sizes.branch_forms short }
{
    if short {
        Forms::CompressedBranch
    } else {
        Forms::Branch
    }
}

/// The forms of a jump.
fn jump_forms(compressed: bool) -> Forms
    ensures { result ≡ sizes.jump_forms compressed }
{
    if compressed {
        Forms::CompressedJump
    } else {
        Forms::Settled(4)
    }
}

/// Whether a branch that compares a register with zero has a form of two bytes.
fn is_short_zero_branch(operation: ZeroBranchOperation, rs: Reg) -> bool
    ensures { result ≡ laws.is_short_zero_branch operation rs }
{
    match operation {
        ZeroBranchOperation::Beqz => is_short_register(rs),
        ZeroBranchOperation::Bnez => is_short_register(rs),
        _ => false,
    }
}

/// The forms of `jal rd` to a target, where it may be near.
fn jal_forms(rd: Reg, compressed: bool) -> Option<Forms>
    ensures { result ≡ laws.jal_forms rd compressed }
{
    if rd.number() == 0 {
        Some(jump_forms(compressed))
    } else {
        None
    }
}

/// The forms of an operation on a target, where it may be near.
fn target_forms(operation: Operation, compressed: bool) -> Option<Forms>
    ensures { (e : Expression)
        → result ≡ near_forms_of compressed (laws.statement_of operation e) }
{
    match operation {
        Operation::Branch(operation, rs1, rs2) => {
            Some(branch_forms(compressed && is_short_branch(operation, rs1, rs2)))
        }
        Operation::ZeroBranch(operation, rs) => {
            Some(branch_forms(compressed && is_short_zero_branch(operation, rs)))
        }
        Operation::SwappedBranch(..) => Some(Forms::Branch),
        Operation::Jal(rd) => jal_forms(rd, compressed),
        Operation::J => Some(jump_forms(compressed)),
        Operation::Call(_) => Some(Forms::Settled(8)),
        Operation::CallLinked => Some(Forms::Settled(8)),
        Operation::Tail => Some(Forms::Settled(8)),
        Operation::Jump(_) => Some(Forms::Settled(8)),
        _ => None,
    }
}

/// The forms of an operation on a function of a value.
fn function_forms(operation: Operation, compressed: bool) -> Option<Forms>
    ensures { (function : Function) (e : Expression)
        → result ≡ near_forms_of compressed (laws.function_statement operation function e) }
{
    match operation {
        Operation::Branch(operation, rs1, rs2) => {
            Some(branch_forms(compressed && is_short_branch(operation, rs1, rs2)))
        }
        Operation::ZeroBranch(operation, rs) => {
            Some(branch_forms(compressed && is_short_zero_branch(operation, rs)))
        }
        Operation::SwappedBranch(..) => Some(Forms::Branch),
        Operation::J => Some(jump_forms(compressed)),
        Operation::Call(_) => Some(Forms::Settled(8)),
        Operation::CallLinked => Some(Forms::Settled(8)),
        Operation::Tail => Some(Forms::Settled(8)),
        Operation::Jump(_) => Some(Forms::Settled(8)),
        _ => None,
    }
}

/// The forms of a branch or a jump that may be near, shortest first, and of a call; none of other
/// statements.
pub fn near_forms(kind: &StatementKind<'_>, compressed: bool) -> Option<Forms>
    ensures { result ≡ near_forms_of compressed (statement_kind kind.now) }
{
    match kind {
        StatementKind::With(operation, _) => target_forms(*operation, compressed),
        StatementKind::WithFunction(operation, _, _) => function_forms(*operation, compressed),
        _ => None,
    }
}

// ---- where they lead

/// The section of the statement of an ordinal.
fn section_at(places: &[SectionOffset], ordinal: u32) -> Option<u32>
    ensures is { result ≡ laws.section_by_ordinal places.now ordinal }
    ensures some { IfSome result (λ _. 1 ≤ ordinal) }
{
    if ordinal == 0 {
        return None;
    }
    match places.get((ordinal - 1) as usize) {
        Some(place) => Some(place.section),
        None => None,
    }
}

/// What is added, as a number that wraps.
pub(crate) fn addend(plus: u64) -> i64
    ensures { result ≡ int_wrap w64 (pos plus) }
{
    plus.cast_signed()
}

/// What sizes see of a statement that has so many bytes.
fn settled(section: u32, bytes: u32) -> Item
    ensures { result ≡ laws.settled_in section bytes }
{
    Item {
        addend: 0,
        section,
        target: 0,
        forms: Forms::Settled(bytes),
    }
}

/// The bytes of a branch or a jump to another section or another file.
fn far_form(forms: Forms) -> u32
    ensures { result ≡ sizes.far_form forms }
{
    match forms {
        Forms::Settled(bytes) => bytes,
        Forms::CompressedJump => 4,
        _ => 8,
    }
}

/// What sizes see of a branch or a jump of these forms to a definition and so many bytes on.
fn leading(
    places: &[SectionOffset],
    section: u32,
    forms: Forms,
    definition: Definition,
    plus: u64,
) -> Item
    ensures { result ≡ laws.branch_in section forms
        (laws.near_in (laws.section_by_ordinal places.now) section
        (Some (definition_of definition)) plus) }
{
    match section_at(places, definition.ordinal) {
        Some(other) if other == section => {
            Item {
                addend: addend(plus),
                section,
                target: definition.ordinal - 1,
                forms,
            }
        }
        _ => settled(section, far_form(forms)),
    }
}

/// What sizes see of the branch or jump of these forms that is next, to a value.
fn target_item<'a>(
    scope: &Scope<'_, 'a>,
    places: &[SectionOffset],
    section: u32,
    forms: Forms,
    value: &Outcome<'a>,
) -> Item
    ensures { AtNext scope.now (λ index. ForValue value.now (λ v.
        result ≡ laws.branch_in section forms
        (laws.near_value_in (laws.section_by_ordinal places.now) section
        (tables (said (scope.now).unit.now)) (index + 1) v))) }
{
    match value {
        Ok(Value::Symbolic(symbol, plus)) => match scope.sure_definition(*symbol) {
            Some(definition) => leading(places, section, forms, definition, *plus),
            None => settled(section, far_form(forms)),
        },
        _ => settled(section, far_form(forms)),
    }
}

/// What sizes see of the statement that is next, which stands at the place and has so many bytes,
/// unless it is a branch or a jump that may be near. `places` are those of all statements.
pub fn item<'a>(
    statement: &Statement<'a>,
    scope: &Scope<'_, 'a>,
    places: &[SectionOffset],
    place: SectionOffset,
    compressed: bool,
    bytes: u32,
) -> Item
    ensures { AtNext scope.now (λ index. result ≡ laws.item_in (laws.section_by_ordinal places.now)
        place.section (tables (said (scope.now).unit.now)) (index + 1)
        (values_at scope.now index place) compressed bytes (statement_kind (statement.now).kind)) }
{
    let section = place.section;
    match &statement.kind {
        StatementKind::With(operation, expression) => {
            match target_forms(*operation, compressed) {
                Some(Forms::Settled(size)) => settled(section, size),
                Some(forms) => {
                    let value = scope.value(place, expression, statement.line);
                    target_item(scope, places, section, forms, &value)
                }
                None => settled(section, bytes),
            }
        }
        StatementKind::WithFunction(operation, _, _) => {
            match function_forms(*operation, compressed) {
                Some(Forms::Settled(size)) => settled(section, size),
                Some(forms) => settled(section, far_form(forms)),
                None => settled(section, bytes),
            }
        }
        _ => settled(section, bytes),
    }
}
