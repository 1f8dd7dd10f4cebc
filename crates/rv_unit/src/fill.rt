//! What each statement changes in the tables.
//!
//! Nothing is refused here but for want of memory: which statement is the first with a fault is asked later, of the
//! full tables. So a faulty statement has an effect too, or none, as a second label of a name. A statement stands where
//! its section ends before it, but one that enters a section stands after that. The bindings of names are gathered
//! before all else: a distance from a weak label is no constant, wherever `.weak` stands, and sizes count at once.

ghost use Rattle.std.specs.Prelude.{◌≡◌, ◌≤◌, ℕ, false, [], length, option_map, map, OnOk, IfOk, IfSome};
ghost use Rattle.rv_expression_laws.specs.Expression.{Primary, Here, Tree as Expression};
ghost use Rattle.rv_expression_laws.specs.Values as values;
ghost use Rattle.rv_expression_laws.specs.Values.{Symbolic, value_of};
ghost use Rattle.rv_expression.specs.Nodes.{symbol_of};
ghost use Rattle.rv_expression.specs.Expr.{tree_of_expr};
ghost use Rattle.rv_expression.specs.Eval.{meaning_of, value_told, IsOutcome};
ghost use Rattle.rv_statement_laws.specs.Limits.{most_statements};
ghost use Rattle.rv_statement_laws.specs.Statement.{Zeros, As_power, As_bytes, Aligns, Emits};
ghost use Rattle.rv_statement.specs.Statements.{statements_of};
ghost use Rattle.rv_statement.specs.View.{statement_kind, opening_of};
ghost use Rattle.rv_unit_laws.specs.Bindings.{bound_by};
ghost use Rattle.rv_unit_laws.specs.Sections.{entered_by};
ghost use Rattle.rv_unit_laws.specs.Tables as laws;
ghost use Rattle.rv_unit_laws.proofs.BeforeLemmas.{IsBefore};
ghost use Rattle.rv_unit.specs.Options.{options_of};
ghost use Rattle.rv_unit.specs.Sections.{offset_of};
ghost use Rattle.rv_unit.specs.Tables.{tables_of, assignment_of, IsIndexed};

use crate::align::{byte_alignment, counted, padding, power_alignment, strings_size, values_size};
use crate::options::Options;
use crate::section::Section;
use crate::section_offset::SectionOffset;
use crate::tables::{Assignment, Tables};
use rv_expression::{Expr, SourceFault, Symbol, SymbolMeaning, Value};
use rv_statement::{Opening, Setting, Statement, StatementKind, Statements};
use std::alloc::{AllocError, Global};

/// Whether a statement enters a section.
fn enters(kind: &StatementKind<'_>) -> bool
    ensures { result ≡ laws.enters (statement_kind kind.now) }
{
    matches!(kind, StatementKind::Enters(_) | StatementKind::Opens(_))
}

/// What a symbol and a number give the name of a `.set`, where `.` means this: a location, if the symbol is `.` in data.
fn assigned_symbol<'a>(
    here: SymbolMeaning,
    ordinal: u32,
    name: &'a [u8],
    symbol: Symbol<'_>,
    plus: u64,
) -> Option<Assignment<'a>>
    ensures ordinal { IfSome result (λ g. g.ordinal ≡ ordinal) }
    ensures value { option_map assignment_of result
        ≡ laws.assigned name.now ordinal
        (Symbolic (symbol_of symbol.entry) (meaning_of here) plus) }
{
    match symbol {
        Symbol::Here => match here {
            SymbolMeaning::InSection(section, offset) => Some(Assignment {
                name,
                ordinal,
                meaning: SymbolMeaning::InSection(section, offset.wrapping_add(plus)),
                plus,
            }),
            SymbolMeaning::Constant(_) => None,
            SymbolMeaning::Open => None,
            SymbolMeaning::NotConstant => None,
            SymbolMeaning::UndefinedLocal => None,
        },
        Symbol::Name(_) => None,
        Symbol::Reference(_) => None,
    }
}

/// What a value gives the name of a `.set`, where `.` means this.
fn assigned_value<'a>(
    here: SymbolMeaning,
    ordinal: u32,
    name: &'a [u8],
    value: Value<'_>,
) -> Option<Assignment<'a>>
    ensures ordinal { IfSome result (λ g. g.ordinal ≡ ordinal) }
    ensures value { (means : Primary → values.Meaning) (e : Expression) →
        meaning_of here ≡ means Here → value_told value.entry (value_of means e) →
        option_map assignment_of result ≡ laws.assigned name.now ordinal (value_of means e) }
{
    match value {
        Value::Constant(number) => Some(Assignment {
            name,
            ordinal,
            meaning: SymbolMeaning::Constant(number),
            plus: 0,
        }),
        Value::Symbolic(symbol, plus) => assigned_symbol(here, ordinal, name, symbol, plus),
        Value::Difference(..) => None,
    }
}

/// What the value of its expression gives the name of a `.set`, where `.` means this.
pub(crate) fn assigned<'a>(
    here: SymbolMeaning,
    ordinal: u32,
    name: &'a [u8],
    value: Result<Value<'_>, SourceFault>,
) -> Option<Assignment<'a>>
    ensures ordinal { IfSome result (λ g. g.ordinal ≡ ordinal) }
    ensures value { (means : Primary → values.Meaning) (e : Expression) →
        meaning_of here ≡ means Here → IsOutcome value.entry 0 (value_of means e) →
        option_map assignment_of result ≡ laws.assigned name.now ordinal (value_of means e) }
{
    match value {
        Ok(value) => assigned_value(here, ordinal, name, value),
        Err(_) => None,
    }
}

/// Where each statement stands, and in which options.
#[derive(Drop)]
pub(crate) struct Filled {
    pub places: Vec<SectionOffset>,
    pub options: Vec<Options>,
}

impl<'a> Tables<'a> {
    /// Enters the section of a `.section`.
    fn add_section(&mut self, opening: &Opening<'a>) -> Result<(), AllocError>
        ensures tables { OnOk result
            (IsIndexed self.old →
            tables_of self.new
            ≡ laws.with_section (tables_of self.old) (entered_by (opening_of opening.now))) }
        ensures indexed { OnOk result (IsIndexed self.old → IsIndexed self.new) }
    {
        self.enter(Section::of(opening.name, opening.flags, opening.kind))
    }

    /// Sets the name of a `.set`.
    fn add_assignment(&mut self, ordinal: u32, assignment: &Setting<'a>) -> Result<(), AllocError>
        ensures tables { OnOk result
            (IsIndexed self.old → IsBefore (tables_of self.old) ordinal →
            tables_of self.new
            ≡ laws.with_assignment (tables_of self.old)
            (laws.assigned (assignment.now).name.now ordinal
            (laws.value_by_tables (tables_of self.old) false ordinal
            (laws.here (tables_of self.old))
            (tree_of_expr (assignment.now).expression)))) }
        ensures indexed { OnOk result (IsIndexed self.old → IsIndexed self.new) }
    {
        let value = self.value(&assignment.expression);
        match assigned(self.stands(self.here()), ordinal, assignment.name, value) {
            Some(assigned) => self.set(assigned),
            None => Ok(()),
        }
    }

    /// Adds zero bytes.
    fn add_zeros(&mut self, count: &Expr<'a>)
        ensures tables { IsIndexed self.old → (o : ℕ) → IsBefore (tables_of self.old) o →
            tables_of self.new
            ≡ laws.after_directive (tables_of self.old) o (Emits (Zeros (tree_of_expr count.now))) }
        ensures indexed { IsIndexed self.old → IsIndexed self.new }
    {
        let bytes = counted(self.value(count));
        self.extend(bytes, None)
    }

    /// Aligns to a power of two.
    fn align_to_power(&mut self, exponent: &Expr<'a>)
        ensures tables { IsIndexed self.old → (o : ℕ) → IsBefore (tables_of self.old) o →
            tables_of self.new
            ≡ laws.after_directive (tables_of self.old) o
            (Aligns As_power (tree_of_expr exponent.now)) }
        ensures indexed { IsIndexed self.old → IsIndexed self.new }
    {
        let alignment = power_alignment(self.value(exponent));
        self.extend(padding(alignment, self.offset()), alignment)
    }

    /// Aligns to a number of bytes.
    fn align_to_bytes(&mut self, bytes: &Expr<'a>)
        ensures tables { IsIndexed self.old → (o : ℕ) → IsBefore (tables_of self.old) o →
            tables_of self.new
            ≡ laws.after_directive (tables_of self.old) o
            (Aligns As_bytes (tree_of_expr bytes.now)) }
        ensures indexed { IsIndexed self.old → IsIndexed self.new }
    {
        let alignment = byte_alignment(self.value(bytes));
        self.extend(padding(alignment, self.offset()), alignment)
    }

    /// What a statement of this ordinal changes.
    fn add(&mut self, ordinal: u32, kind: &StatementKind<'a>) -> Result<(), AllocError>
        ensures tables { OnOk result
            (IsIndexed self.old → IsBefore (tables_of self.old) ordinal →
            tables_of self.new
            ≡ laws.after (tables_of self.old) ordinal (statement_kind kind.now)) }
        ensures indexed { OnOk result
            (IsIndexed self.old → IsBefore (tables_of self.old) ordinal → IsIndexed self.new) }
    {
        match kind {
            StatementKind::Label(name) => self.add_label(ordinal, *name),
            StatementKind::Numbered(digits) => self.add_numeric_label(ordinal, *digits),
            StatementKind::Enters(section) => self.enter(Section::standard(*section)),
            StatementKind::Opens(opening) => self.add_section(opening),
            StatementKind::Sets(assignment) => self.add_assignment(ordinal, assignment),
            StatementKind::Chooses(choice) => self.choose(*choice),
            StatementKind::AlignsToPower(exponent) => {
                self.align_to_power(exponent);
                Ok(())
            }
            StatementKind::AlignsToBytes(bytes) => {
                self.align_to_bytes(bytes);
                Ok(())
            }
            StatementKind::Value(width, _) => {
                self.extend_by(values_size(*width, 1));
                Ok(())
            }
            StatementKind::Values(width, values) => {
                self.extend_by(values_size(*width, values.len()));
                Ok(())
            }
            StatementKind::Ascii(strings) => {
                self.extend_by(strings_size(false, strings));
                Ok(())
            }
            StatementKind::Asciz(strings) => {
                self.extend_by(strings_size(true, strings));
                Ok(())
            }
            StatementKind::Zeros(count) => {
                self.add_zeros(count);
                Ok(())
            }
            StatementKind::Plain(_) => Ok(()),
            StatementKind::With(..) => Ok(()),
            StatementKind::WithFunction(..) => Ok(()),
            StatementKind::Binds(..) => Ok(()),
            StatementKind::Ignored => Ok(()),
        }
    }

    /// What a statement changes, and where it stands.
    fn stand(&mut self, ordinal: u32, kind: &StatementKind<'a>) -> Result<SectionOffset, AllocError>
        ensures tables { OnOk result
            (IsIndexed self.old → IsBefore (tables_of self.old) ordinal →
            tables_of self.new
            ≡ laws.after (tables_of self.old) ordinal (statement_kind kind.now)) }
        ensures indexed { OnOk result
            (IsIndexed self.old → IsBefore (tables_of self.old) ordinal → IsIndexed self.new) }
        ensures place { IfOk result
            (λ place. IsIndexed self.old → IsBefore (tables_of self.old) ordinal →
            offset_of place ≡ laws.stood (tables_of self.old) ordinal (statement_kind kind.now)) }
    {
        let before = self.here();
        self.add(ordinal, kind)?;
        if enters(kind) {
            return Ok(self.here());
        }
        Ok(before)
    }

    /// The bindings of names after a statement.
    fn bind_by(&mut self, kind: &StatementKind<'a>) -> Result<(), AllocError>
        ensures tables { OnOk result (tables_of self.new
            ≡ record
            (tables_of self.old) {
              bindings = bound_by (statement_kind kind.now) (tables_of self.old).bindings;
            }) }
        ensures indexed { OnOk result (IsIndexed self.old → IsIndexed self.new) }
    {
        match kind {
            StatementKind::Binds(binding, names) => self.bind(*binding, names.as_slice()),
            StatementKind::Label(_) => Ok(()),
            StatementKind::Numbered(_) => Ok(()),
            StatementKind::Plain(_) => Ok(()),
            StatementKind::With(..) => Ok(()),
            StatementKind::WithFunction(..) => Ok(()),
            StatementKind::Enters(_) => Ok(()),
            StatementKind::Opens(_) => Ok(()),
            StatementKind::Sets(_) => Ok(()),
            StatementKind::AlignsToPower(_) => Ok(()),
            StatementKind::AlignsToBytes(_) => Ok(()),
            StatementKind::Value(..) => Ok(()),
            StatementKind::Values(..) => Ok(()),
            StatementKind::Ascii(_) => Ok(()),
            StatementKind::Asciz(_) => Ok(()),
            StatementKind::Zeros(_) => Ok(()),
            StatementKind::Chooses(_) => Ok(()),
            StatementKind::Ignored => Ok(()),
        }
    }

    /// The bindings of names after all statements, each of which is read into the room.
    fn bind_names(
        &mut self,
        statements: &Statements<'a>,
        room: &mut Statement<'a>,
    ) -> Result<(), AllocError>
        ensures tables { OnOk result (tables_of self.new
            ≡ laws.bound_tables (statements_of statements.now) (tables_of self.old)) }
        ensures indexed { OnOk result (IsIndexed self.old → IsIndexed self.new) }
    {
        for index in 0..statements.len() {
            let statement = statements.read(index, room);
            self.bind_by(&statement.kind)?;
        }
        Ok(())
    }

    /// What all statements change where the bindings of names are known, and where each stands, in which options.
    fn stand_all(
        &mut self,
        alloc: Global,
        statements: &Statements<'a>,
        room: &mut Statement<'a>,
    ) -> Result<Filled, AllocError>
        requires { length (statements_of statements.now) ≤ most_statements }
        ensures tables { OnOk result
            (tables_of self.old ≡ laws.at_start (statements_of statements.now) →
            IsIndexed self.old →
            tables_of self.new ≡ laws.tables (statements_of statements.now)) }
        ensures indexed { OnOk result
            (tables_of self.old ≡ laws.at_start (statements_of statements.now) →
            IsIndexed self.old → IsIndexed self.new) }
        ensures places { IfOk result
            (λ filled. tables_of self.old ≡ laws.at_start (statements_of statements.now) →
            IsIndexed self.old →
            map offset_of filled.places.items ≡ laws.places (statements_of statements.now)) }
        ensures options { IfOk result
            (λ filled. tables_of self.old ≡ laws.at_start (statements_of statements.now) →
            IsIndexed self.old
            → map options_of filled.options.items
            ≡ laws.all_options (statements_of statements.now)) }
    {
        let mut places = Vec::with_capacity(alloc, statements.len())?;
        let mut options = Vec::with_capacity(alloc, statements.len())?;
        for index in 0..statements.len() {
            let statement = statements.read(index, room);
            options.push(self.options)?;
            let place = self.stand(index as u32 + 1, &statement.kind)?;
            places.push(place)?;
        }
        Ok(Filled { places, options })
    }

    /// What all statements change from the start on, and where each stands, in which options.
    pub fn fill(
        &mut self,
        alloc: Global,
        statements: &Statements<'a>,
        room: &mut Statement<'a>,
    ) -> Result<Filled, AllocError>
        requires { length (statements_of statements.now) ≤ most_statements }
        ensures tables { OnOk result
            (tables_of self.old ≡ laws.at_start [] → IsIndexed self.old →
            tables_of self.new ≡ laws.tables (statements_of statements.now)) }
        ensures indexed { OnOk result
            (tables_of self.old ≡ laws.at_start [] → IsIndexed self.old → IsIndexed self.new) }
        ensures places { IfOk result
            (λ filled. tables_of self.old ≡ laws.at_start [] → IsIndexed self.old →
            map offset_of filled.places.items ≡ laws.places (statements_of statements.now)) }
        ensures options { IfOk result
            (λ filled. tables_of self.old ≡ laws.at_start [] → IsIndexed self.old
            → map options_of filled.options.items
            ≡ laws.all_options (statements_of statements.now)) }
    {
        self.bind_names(statements, room)?;
        self.stand_all(alloc, statements, room)
    }
}
