//! A source's statements with what they define.

ghost use Rattle.std.specs.Prelude.{◌≡◌, ◌<◌, ◌≤◌, Some, None, length, map, option_map, IfOk, IfErr, IfSome, IfNone};
ghost use Rattle.rv_expression_laws.specs.Codes.{limit};
ghost use Rattle.rv_statement_laws.specs.Limits.{most_statements};
ghost use Rattle.rv_statement.specs.Statements.{statements_of};
ghost use Rattle.rv_statement.specs.View.{statement_of};
ghost use Rattle.rv_unit_laws.specs.Faults.{first_unit_fault};
ghost use Rattle.rv_unit_laws.specs.Tables.{tables, assigned_ever};
ghost use Rattle.rv_unit.specs.Options.{options_of};
ghost use Rattle.rv_unit.specs.Tables.{assignment_of};
ghost use Rattle.rv_unit.specs.Filled.{AreFilled};

use crate::options::Options;
use crate::section::Extent;
use crate::section_offset::SectionOffset;
use crate::tables::{Assignment, Tables};
use rv_expression::{SourceCode, SourceFault};
use rv_statement::{MOST_STATEMENTS, Statement, Statements};
use rv_statement_laws::Binding;
use std::alloc::{AllocError, Global};

/// A source's statements, where and in which options they stand, its sections and its names.
#[derive(Drop)]
pub struct Unit<'a> {
    pub(crate) statements: Statements<'a>,
    pub(crate) places: Vec<SectionOffset>,
    pub(crate) options: Vec<Options>,
    pub(crate) tables: Tables<'a>,
    /// No more than a source may have.
    pub ghost few: { length (statements_of statements) ≤ most_statements },
    /// The offsets, the options and the tables are those of the statements.
    pub ghost filled: { AreFilled places.items options.items tables (statements_of statements) },
}

/// The line of the first statement that is too many.
fn line_past_most<'a>(statements: &Statements<'a>, room: &mut Statement<'a>) -> Option<u32>
    ensures past { IfSome result
        (λ line. first_unit_fault (statements_of statements.now)
        ≡ Some (record { code = limit; line = line })) }
    ensures few { IfNone result (length (statements_of statements.now) ≤ most_statements) }
{
    if statements.len() <= MOST_STATEMENTS {
        return None;
    }
    Some(statements.read(MOST_STATEMENTS, room).line)
}

/// The line of the first statement of a plain list that is too many.
fn extra_line(statements: &[Statement<'_>]) -> Option<u32>
    ensures past { IfSome result
        (λ line. first_unit_fault (map statement_of statements.now)
        ≡ Some (record { code = limit; line = line })) }
    ensures few { IfNone result (length statements.now ≤ most_statements) }
{
    match statements.get(MOST_STATEMENTS) {
        Some(extra) => Some(extra.line),
        None => None,
    }
}

impl<'a> Unit<'a> {
    ghost use Rattle.rv_unit.specs.Unit.{said, passed, NamesFirst};

    /// The statements with their offsets, their sections and their names; or that there are too many of them, or the
    /// first faulty label or directive, or instruction outside code, at the line of its statement.
    pub fn build(alloc: Global, statements: Vec<Statement<'a>>) -> Result<Unit<'a>, SourceFault>
        ensures same { IfOk result (λ u. said u ≡ map statement_of statements.entry.items) }
        ensures good { IfOk result (λ u. first_unit_fault (said u) ≡ None) }
        ensures refuses { IfErr result
            (λ e. NamesFirst e (map statement_of statements.entry.items)) }
    {
        if let Some(line) = extra_line(statements.as_slice()) {
            return Err(SourceFault::At {
                code: SourceCode::Limit,
                line,
            });
        }
        let statements = Statements::of(alloc, statements)?;
        Unit::of(alloc, statements)
    }

    /// The same of a list that keeps most statements in few bytes.
    pub fn of(alloc: Global, statements: Statements<'a>) -> Result<Unit<'a>, SourceFault>
        ensures same { IfOk result (λ u. u.statements ≡ statements.entry) }
        ensures good { IfOk result (λ u. first_unit_fault (said u) ≡ None) }
        ensures refuses { IfErr result
            (λ e. NamesFirst e (statements_of statements.entry)) }
    {
        let mut room = Statements::room();
        Unit::read(alloc, statements, &mut room)
    }

    /// The same; in each pass the statements that a list doesn't hold whole are made again in the room.
    fn read(
        alloc: Global,
        statements: Statements<'a>,
        room: &mut Statement<'a>,
    ) -> Result<Unit<'a>, SourceFault>
        ensures same { IfOk result (λ u. u.statements ≡ statements.entry) }
        ensures good { IfOk result (λ u. first_unit_fault (said u) ≡ None) }
        ensures refuses { IfErr result
            (λ e. NamesFirst e (statements_of statements.entry)) }
    {
        if let Some(line) = line_past_most(&statements, room) {
            return Err(SourceFault::At {
                code: SourceCode::Limit,
                line,
            });
        }
        let unit = Unit::fill(alloc, statements, room)?;
        match unit.first_fault(room) {
            None => Ok(unit),
            Some((code, line)) => Err(SourceFault::At { code, line }),
        }
    }

    /// The statements with their offsets, their sections and their names.
    fn fill(
        alloc: Global,
        statements: Statements<'a>,
        room: &mut Statement<'a>,
    ) -> Result<Unit<'a>, AllocError>
        requires { length (statements_of statements) ≤ most_statements }
        ensures same { IfOk result (λ u. u.statements ≡ statements.entry) }
    {
        let mut tables = Tables::new(alloc)?;
        let filled = tables.fill(alloc, &statements, room)?;
        Ok(Unit {
            statements,
            places: filled.places,
            options: filled.options,
            tables,
        })
    }

    /// The statements.
    pub fn statements(&self) -> &Statements<'a>
        ensures { result.now ≡ (self.now).statements }
    {
        &self.statements
    }

    /// The section and the offset of each statement.
    pub fn places(&self) -> &[SectionOffset]
        ensures { result.now ≡ (self.now).places.items }
    {
        self.places.as_slice()
    }

    /// The options in which the statement at this index, from 0, stands.
    pub fn options_at(&self, index: usize) -> Options
        ensures { index < length (said self.now)
            → options_of result ≡ (passed (said self.now) index).options }
    {
        match self.options.get(index) {
            Some(options) => *options,
            None => Options::Both,
        }
    }

    /// The sections, in the order in which they are opened first.
    pub fn sections(&self) -> &[Extent<'a>]
        ensures { result.now ≡ (self.now).tables.extents.items }
    {
        self.tables.extents.as_slice()
    }

    /// The binding of a name: what the last `.globl`, `.local` or `.weak` that lists it says.
    pub fn binding(&self, name: &[u8]) -> Binding
        ensures { result ≡ (tables (said self.now)).bindings name.now }
    {
        self.tables.binding(name)
    }

    /// What the `.set`s give, in their order.
    pub fn assignments(&self) -> &[Assignment<'a>]
        ensures { result.now ≡ (self.now).tables.assignments.items }
    {
        self.tables.assignments.as_slice()
    }

    /// What `.set` gives a name last.
    pub fn assignment(&self, name: &[u8]) -> Option<Assignment<'a>>
        ensures { option_map assignment_of result
            ≡ assigned_ever (tables (said self.now)).assignments name.now }
    {
        self.tables.assignment(name)
    }
}
