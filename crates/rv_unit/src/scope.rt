//! What names mean, statement by statement.

ghost use Rattle.std.specs.Prelude.{◌≡◌, ℕ, ◌+◌, ◌<◌, true, false, length, option_map, is_some};
ghost use Rattle.rv_expression_laws.specs.Expression.{Reference};
ghost use Rattle.rv_expression.specs.Nodes.{symbol_of};
ghost use Rattle.rv_expression.specs.Expr.{tree_of_expr};
ghost use Rattle.rv_lexer.specs.Reference.{digits_in, is_ahead};
ghost use Rattle.rv_expression.specs.Eval.{meaning_of, IsOutcome};
ghost use Rattle.rv_unit_laws.specs.Tables as laws;
ghost use Rattle.rv_unit_laws.proofs.BeforeLemmas.{IsBefore};
ghost use Rattle.rv_unit.specs.Sections.{offset_of};
ghost use Rattle.rv_unit.specs.Tables.{tables_of, numeric_label_at, assignment_of, IsIndexed};
ghost use Rattle.rv_unit.specs.Unit.{said, passed, definition_of, IsApart, IsFilled, IsScope};

use crate::fill::assigned;
use crate::section_offset::{Definition, SectionOffset};
use crate::tables::{Assignment, NumericLabel};
use crate::unit::Unit;
use rv_expression::{Expr, NumericReference, SourceFault, Symbol, SymbolMeaning, Value};
use rv_statement::Setting;

/// Names as the statements see them, one after the other.
#[derive(Drop)]
pub struct Scope<'u, 'a> {
    pub(crate) unit: &'u Unit<'a>,
    /// The ordinal of the statement that is next.
    pub(crate) ordinal: u32,
}

/// Where a numeric label stands.
fn definition_of_numeric_label(numeric_label: Option<NumericLabel>) -> Option<Definition>
    ensures { (number : ℕ) → option_map definition_of result
        ≡ laws.numeric_definition (option_map (numeric_label_at number) numeric_label) }
{
    match numeric_label {
        Some(numeric_label) => Some(Definition {
            ordinal: numeric_label.ordinal,
            plus: 0,
        }),
        None => None,
    }
}

/// The definition of a name that is assigned, if it is a location.
fn definition_of_assignment(assignment: Option<Assignment<'_>>) -> Option<Definition>
    ensures { option_map definition_of result
        ≡ laws.assigned_definition (option_map assignment_of assignment.entry) }
{
    match assignment {
        Some(assignment) => {
            if assignment.is_location() {
                Some(Definition {
                    ordinal: assignment.ordinal,
                    plus: assignment.plus,
                })
            } else {
                None
            }
        }
        None => None,
    }
}

impl<'u, 'a> Scope<'u, 'a> {
    /// The names as the first statement sees them.
    pub fn new(unit: &'u Unit<'a>) -> Self
        ensures unit { result.unit.now ≡ unit.now }
        ensures start { IsScope result 0 }
    {
        Scope { unit, ordinal: 1 }
    }

    /// What a symbol means in the statement that is next, which stands at the offset.
    pub fn meaning(&self, place: SectionOffset, symbol: Symbol<'a>) -> SymbolMeaning
        ensures { (index : ℕ) → IsFilled (self.now).unit.now → IsScope self.now index →
            meaning_of result
            ≡ laws.meaning (laws.tables (said (self.now).unit.now)) true (index + 1)
            (offset_of place) (symbol_of symbol.entry) }
    {
        self.unit.meaning(self.ordinal, place, symbol)
    }

    /// Where a symbol of the statement that is next stands in this source; none where it stands nowhere in it.
    pub fn definition(&self, symbol: Symbol<'a>) -> Option<Definition>
        ensures { (index : ℕ) → IsFilled (self.now).unit.now → IsScope self.now index →
            option_map definition_of result
            ≡ laws.definition (laws.tables (said (self.now).unit.now)) (index + 1)
            (symbol_of symbol.entry) }
    {
        match symbol {
            Symbol::Name(name) => self.definition_of_name(name),
            Symbol::Here => Some(Definition {
                ordinal: self.ordinal,
                plus: 0,
            }),
            Symbol::Reference(reference) => self.definition_of_reference(reference),
        }
    }

    /// Where the numeric label of a reference stands.
    fn definition_of_reference(&self, reference: NumericReference<'_>) -> Option<Definition>
        ensures { IsIndexed (self.now).unit.now.tables → (o : ℕ) →
            IsBefore (tables_of (self.now).unit.now.tables) o →
            option_map definition_of result
            ≡ laws.definition (tables_of (self.now).unit.now.tables) (self.now).ordinal
            (Reference (digits_in reference.entry.word.now) (is_ahead reference.entry.word.now)) }
    {
        let digits = reference.digits();
        if reference.is_forward() {
            definition_of_numeric_label(self.unit.tables.numeric_label_after(self.ordinal, digits))
        } else {
            definition_of_numeric_label(self.unit.tables.numeric_label_before(self.ordinal, digits))
        }
    }

    /// Where a symbol of the statement that is next stands, whatever other files say; none where it is weak, or another
    /// file's.
    pub fn sure_definition(&self, symbol: Symbol<'a>) -> Option<Definition>
        ensures { (index : ℕ) → IsFilled (self.now).unit.now → IsScope self.now index →
            option_map definition_of result
            ≡ laws.sure_definition (laws.tables (said (self.now).unit.now)) (index + 1)
            (symbol_of symbol.entry) }
    {
        if self.gives_way(symbol) {
            return None;
        }
        self.definition(symbol)
    }

    /// Whether another file's definition may stand for a symbol's own.
    fn gives_way(&self, symbol: Symbol<'a>) -> bool
        ensures { IsIndexed (self.now).unit.now.tables → result
            ≡ laws.gives_way (tables_of (self.now).unit.now.tables) (symbol_of symbol.entry) }
    {
        match symbol {
            Symbol::Name(name) => self.unit.tables.is_weak(name),
            Symbol::Here => false,
            Symbol::Reference(_) => false,
        }
    }

    /// Where a name stands.
    fn definition_of_name(&self, name: &[u8]) -> Option<Definition>
        ensures { IsIndexed (self.now).unit.now.tables → (o : ℕ) →
            let tables = tables_of (self.now).unit.now.tables in
            IsBefore tables o → IsApart tables →
            option_map definition_of result
            ≡ laws.first_definition
            (laws.assigned_definition
            (laws.assigned_before tables.assignments (self.now).ordinal name.now))
            (laws.labelled_definition (laws.label_of tables.labels true 0 name.now)
            (laws.assigned_definition (laws.assigned_ever tables.assignments name.now))) }
    {
        match self.unit.tables.label(name) {
            Some(label) => Some(Definition {
                ordinal: label.ordinal,
                plus: 0,
            }),
            None => self.definition_of_assigned(name),
        }
    }

    /// Where a name without a label stands.
    fn definition_of_assigned(&self, name: &[u8]) -> Option<Definition>
        ensures { IsIndexed (self.now).unit.now.tables → (o : ℕ) →
            let tables = tables_of (self.now).unit.now.tables in
            IsBefore tables o →
            option_map definition_of result
            ≡ laws.first_definition
            (laws.assigned_definition
            (laws.assigned_before tables.assignments (self.now).ordinal name.now))
            (laws.assigned_definition (laws.assigned_ever tables.assignments name.now)) }
    {
        if let Some(definition) = definition_of_assignment(
            self.unit.tables.assignment_before(self.ordinal, name),
        ) {
            return Some(definition);
        }
        definition_of_assignment(self.unit.tables.assignment(name))
    }

    /// Whether a name is that of a label of this source, before the statement that is next or after it.
    pub fn is_label(&self, name: &[u8]) -> bool
        ensures { IsFilled (self.now).unit.now
            → result ≡ is_some
            (laws.label_of (laws.tables (said (self.now).unit.now)).labels true 0 name.now) }
    {
        self.unit.tables.label(name).is_some()
    }

    /// The value of an expression of the statement that is next, which stands at the offset; a fault has this line.
    #[inline(always)]
    pub fn value<'e>(
        &self,
        place: SectionOffset,
        expression: &Expr<'e>,
        line: u32,
    ) -> Result<Value<'e>, SourceFault>
        ensures { (index : ℕ) → IsFilled (self.now).unit.now → IsScope self.now index →
            IsOutcome result line
            (laws.value_by_tables (laws.tables (said (self.now).unit.now)) true (index + 1)
            (offset_of place) (tree_of_expr expression.now)) }
    {
        match expression {
            Expr::Number(number) => Ok(Value::Constant(*number)),
            Expr::Negative(number) => Ok(Value::Constant(0u64.wrapping_sub(*number))),
            _ => self.unit.value(self.ordinal, place, expression, line),
        }
    }

    /// Whether the `.set` that is the next statement, which stands at the offset, gives a location.
    pub fn gives_location(&self, place: SectionOffset, assignment: &Setting<'a>) -> bool
        ensures { (index : ℕ) → IsFilled (self.now).unit.now → IsScope self.now index →
            offset_of place ≡ laws.here (passed (said (self.now).unit.now) index)
            → result
            ≡ laws.gives_location
            (laws.assigned (assignment.now).name.now (index + 1)
            (laws.value_by_tables (passed (said (self.now).unit.now) index) false (index + 1)
            (laws.here (passed (said (self.now).unit.now) index))
            (tree_of_expr (assignment.now).expression))) }
    {
        let here = self.unit.tables.stands(place);
        let value = self
            .unit
            .past_value(self.ordinal, place, &assignment.expression);
        match assigned(here, self.ordinal, assignment.name, value) {
            Some(assigned) => assigned.is_location(),
            None => false,
        }
    }

    /// Goes on after the next statement, if there is one.
    pub fn pass(&mut self)
        ensures unit { (self.new).unit ≡ (self.old).unit }
        ensures passes { (index : ℕ) → index < length (said (self.old).unit.now) →
            IsScope self.old index → IsScope self.new (index + 1) }
    {
        if self.ordinal as usize <= self.unit.statements.len() {
            self.ordinal += 1;
        }
    }
}
