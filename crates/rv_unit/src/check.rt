//! The first fault of the labels and the directives of a source.
//!
//! The tables of the whole source answer all but one question: names and sections by the ordinal of the statement and by
//! where it stands. The depth of the option stack is counted on the way.

ghost use Rattle.std.specs.Prelude.{◌≡◌, ℕ, ◌+◌, ◌<◌, ◌≤◌, ◌^◌, ◌-◌, List, [], Some, flat_map, map, true, length, option_map};
ghost use Rattle.rv_expression.specs.Expr.{tree_of_expr};
ghost use Rattle.rv_statement_laws.specs.Limits.{most_statements};
ghost use Rattle.rv_statement_laws.specs.Statement.{Operand as SpecOperand, Instruction, Label, Directs, Values, Strings, Zeros, As_power, As_bytes, Aligns, Emits};
ghost use Rattle.rv_statement_laws.specs.declared.mnemonic.Mnemonic.{Mnemonic as SpecMnemonic};
ghost use Rattle.rv_statement_laws.specs.Widths.{width_bytes};
ghost use Rattle.rv_statement.specs.View.{quoted, setting_of, statement_kind};
ghost use Rattle.rv_unit_laws.specs.Faults as faults;
ghost use Rattle.rv_unit_laws.specs.Tables as laws;
ghost use Rattle.rv_unit_laws.proofs.AskedLemmas.{depth_after as depth_then};
ghost use Rattle.rv_unit.specs.Sections.{section_of, offset_of};
ghost use Rattle.rv_unit.specs.declared.section_offset.SectionOffset.{SectionOffset as SectionOffsetOf};
ghost use Rattle.rv_fault.specs.SourceFault.{IsLowest};
ghost use Rattle.rv_unit.specs.FaultsAt.{faults_at, directive_faults_at};
ghost use Rattle.rv_unit.specs.Unit.{said, passed, fault_of, IsStatementOf, IsFilled};

use crate::align::{byte_alignment, power_alignment, strings_size, values_size, width_in_bytes};
use crate::faults::{
    alignment_fault, bytes_fault, choice_fault, data_fault, faulty_if, instruction_fault,
    is_difference, lower, power_fault, set_fault, value_fault, zero_fault,
};
use crate::section::Section;
use crate::section_offset::SectionOffset;
use crate::unit::Unit;
use rv_expression::{Expr, SourceCode};
use rv_statement::{Setting, Statement, StatementKind};
use rv_statement_laws::{Choice, Width};

/// The depth of the option stack after a statement.
fn depth_after(depth: usize, kind: &StatementKind<'_>) -> usize
    requires { depth < 2 ^ 64 - 1 }
    ensures depth { result ≡ depth_then depth (statement_kind kind.now) }
    ensures bound { result ≤ depth + 1 }
{
    match kind {
        StatementKind::Chooses(Choice::Push) => depth + 1,
        StatementKind::Chooses(Choice::Pop) => depth.saturating_sub(1),
        _ => depth,
    }
}

/// How many labels there are after a statement, as far as a number shows it.
fn labels_after(labels: usize, kind: &StatementKind<'_>) -> usize {
    match kind {
        StatementKind::Label(_) => labels.saturating_add(1),
        _ => labels,
    }
}

/// The ordinal of the statement at an index.
fn ordinal_of(index: usize) -> u32
    requires { index < most_statements }
    ensures { result ≡ index + 1 }
{
    index as u32 + 1
}

impl<'a> Unit<'a> {
    /// The fault of a `.set`.
    fn fault_of_assignment(
        &self,
        ordinal: u32,
        place: SectionOffset,
        assignment: &Setting<'a>,
    ) -> Option<SourceCode>
        ensures { (index : ℕ) →
            IsStatementOf self.now index ordinal place (Directs (setting_of assignment.now))
            → IsLowest result (directive_faults_at self.now index (setting_of assignment.now)) }
    {
        let value = self.early_value(ordinal, place, &assignment.expression);
        set_fault(
            self.tables.section_at(place.section),
            self.is_defined_before(ordinal, 0, assignment.name),
            self.has_location_before(ordinal, assignment.name),
            &value,
        )
    }

    /// The fault of a count of zero bytes.
    fn fault_of_zeros(
        &self,
        ordinal: u32,
        place: SectionOffset,
        count: &Expr<'a>,
    ) -> Option<SourceCode>
        ensures { (index : ℕ) →
            IsStatementOf self.now index ordinal place (Directs (Emits (Zeros (tree_of_expr count.now))))
            → IsLowest result
            (directive_faults_at self.now index (Emits (Zeros (tree_of_expr count.now)))) }
    {
        let value = self.early_value(ordinal, place, count);
        zero_fault(self.tables.section_at(place.section), place.offset, &value)
    }

    /// The fault of an alignment to a power of two.
    fn fault_of_power(
        &self,
        ordinal: u32,
        place: SectionOffset,
        exponent: &Expr<'a>,
    ) -> Option<SourceCode>
        ensures { (index : ℕ) →
            IsStatementOf self.now index ordinal place
            (Directs (Aligns As_power (tree_of_expr exponent.now)))
            → IsLowest result
            (directive_faults_at self.now index (Aligns As_power (tree_of_expr exponent.now))) }
    {
        let value = self.early_value(ordinal, place, exponent);
        let found = power_fault(&value);
        lower(
            found,
            alignment_fault(
                self.tables.section_at(place.section),
                place.offset,
                power_alignment(value),
            ),
        )
    }

    /// The fault of an alignment in bytes.
    fn fault_of_bytes(
        &self,
        ordinal: u32,
        place: SectionOffset,
        bytes: &Expr<'a>,
    ) -> Option<SourceCode>
        ensures { (index : ℕ) →
            IsStatementOf self.now index ordinal place
            (Directs (Aligns As_bytes (tree_of_expr bytes.now)))
            → IsLowest result
            (directive_faults_at self.now index (Aligns As_bytes (tree_of_expr bytes.now))) }
    {
        let value = self.early_value(ordinal, place, bytes);
        let found = bytes_fault(&value);
        lower(
            found,
            alignment_fault(
                self.tables.section_at(place.section),
                place.offset,
                byte_alignment(value),
            ),
        )
    }

    /// Whether a value of data is a difference of names that have places, as none is set: it then has no fault.
    fn is_distance(&self, value: &Expr<'a>) -> bool
        ensures { (width o : ℕ) (p : laws.SectionOffset) → IsFilled self.now → result ≡ true
            → faults.value_faults width
            (laws.value_by_tables (laws.tables (said self.now)) true o p (tree_of_expr value.now))
            ≡ [] }
    {
        if !self.sets_none() {
            return false;
        }
        is_difference(value)
    }

    /// Whether a value of data has no fault at once: a number, or a difference of names that have places.
    fn is_faultless(&self, value: &Expr<'a>) -> bool
        ensures { (width o : ℕ) (p : laws.SectionOffset) → IsFilled self.now → result ≡ true
            → faults.value_faults width
            (laws.value_by_tables (laws.tables (said self.now)) true o p (tree_of_expr value.now))
            ≡ [] }
    {
        match value {
            Expr::Number(_) => true,
            Expr::Negative(_) => true,
            _ => self.is_distance(value),
        }
    }

    /// The fault of a value of data. Most have none at once: numbers, and differences of names, which are not looked up.
    fn fault_of_value(
        &self,
        ordinal: u32,
        place: SectionOffset,
        width: Width,
        value: &Expr<'a>,
    ) -> Option<SourceCode>
        ensures { (o : ℕ) → IsFilled self.now → ordinal ≡ o
            → IsLowest result (faults.value_faults (width_bytes width)
            (laws.value_by_tables (laws.tables (said self.now)) true o (offset_of place)
            (tree_of_expr value.now))) }
    {
        if self.is_faultless(value) {
            return None;
        }
        let found = self.value(ordinal, place, value, 0);
        value_fault(width_in_bytes(width), &found)
    }

    /// The fault of the values of data, one by one.
    fn fault_of_each(
        &self,
        ordinal: u32,
        place: SectionOffset,
        width: Width,
        values: &[Expr<'a>],
    ) -> Option<SourceCode>
        ensures { (o : ℕ) → IsFilled self.now → ordinal ≡ o
            → IsLowest result (flat_map
            (λ e. faults.value_faults (width_bytes width)
            (laws.value_by_tables (laws.tables (said self.now)) true o (offset_of place) e))
            (map tree_of_expr values.now)) }
    {
        let mut found = None;
        for value in values {
            found = lower(found, self.fault_of_value(ordinal, place, width, value));
        }
        found
    }

    /// The fault of values of data.
    fn fault_of_values(
        &self,
        ordinal: u32,
        place: SectionOffset,
        width: Width,
        values: &[Expr<'a>],
    ) -> Option<SourceCode>
        ensures { (index : ℕ) →
            IsStatementOf self.now index ordinal place
            (Directs (Emits (Values (width_bytes width) (map tree_of_expr values.now))))
            → IsLowest result
            (directive_faults_at self.now index
            (Emits (Values (width_bytes width) (map tree_of_expr values.now)))) }
    {
        let each = self.fault_of_each(ordinal, place, width, values);
        let bytes = values_size(width, values.len());
        lower(
            each,
            data_fault(self.tables.section_at(place.section), place.offset, bytes),
        )
    }

    /// The fault of strings.
    fn fault_of_strings(
        &self,
        place: SectionOffset,
        ended: bool,
        strings: &[&[u8]],
    ) -> Option<SourceCode>
        ensures { (index o : ℕ) →
            IsStatementOf self.now index o place (Directs (Emits (Strings ended (map quoted strings.now))))
            → IsLowest result
            (directive_faults_at self.now index (Emits (Strings ended (map quoted strings.now)))) }
    {
        let bytes = strings_size(ended, strings);
        data_fault(self.tables.section_at(place.section), place.offset, bytes)
    }

    /// The fault of a label: its name is defined before. So many labels stand before it.
    fn fault_of_label(&self, ordinal: u32, labels: usize, name: &[u8]) -> Option<SourceCode>
        ensures { (index : ℕ) (p : SectionOffsetOf)
            → IsStatementOf self.now index ordinal p (Label name.now)
            → IsLowest result (faults_at self.now index (Label name.now)) }
    {
        faulty_if(
            self.is_defined_before(ordinal, labels, name),
            SourceCode::DuplicateLabel,
        )
    }

    /// The fault of an instruction: it stands in no section of code, or in one without bytes.
    fn fault_of_instruction(&self, place: SectionOffset) -> Option<SourceCode>
        ensures { (index o : ℕ) (mnemonic : SpecMnemonic) (operands : List SpecOperand)
            → IsStatementOf self.now index o place (Instruction mnemonic operands)
            → IsLowest result (faults_at self.now index (Instruction mnemonic operands)) }
    {
        instruction_fault(self.tables.section_at(place.section))
    }

    /// The fault of a section that is entered: it is one more than there may be, so that the source has none of its name.
    fn fault_of_section(&self, section: Section<'_>) -> Option<SourceCode>
        ensures { (index : ℕ) → IsFilled self.now → index < length (said self.now)
            → laws.opened_of (passed (said self.now) (index + 1))
            ≡ laws.opened_of
            (laws.with_section (passed (said self.now) index) (Some (section_of section.entry)))
            → IsLowest result
            (faults.section_faults (laws.opened_of (passed (said self.now) index)).sections
            (Some (section_of section.entry))) }
    {
        faulty_if(!self.tables.knows(section.name), SourceCode::Limit)
    }

    /// The fault of a statement of an ordinal, at the offset where it stands, after so many labels, and after so many
    /// pushes without their pop.
    fn fault(
        &self,
        ordinal: u32,
        place: SectionOffset,
        labels: usize,
        depth: usize,
        kind: &StatementKind<'a>,
    ) -> Option<SourceCode>
        ensures { (index : ℕ) → IsStatementOf self.now index ordinal place (statement_kind kind.now)
            → depth ≡ length (passed (said self.now) index).kept
            → IsLowest result (faults_at self.now index (statement_kind kind.now)) }
    {
        match kind {
            StatementKind::Label(name) => self.fault_of_label(ordinal, labels, *name),
            StatementKind::Numbered(_) => None,
            StatementKind::Plain(_) => self.fault_of_instruction(place),
            StatementKind::With(..) => self.fault_of_instruction(place),
            StatementKind::WithFunction(..) => self.fault_of_instruction(place),
            StatementKind::Enters(standard) => self.fault_of_section(Section::standard(*standard)),
            StatementKind::Opens(opening) => self.fault_of_section(Section::of(
                opening.name,
                opening.flags,
                opening.kind,
            )),
            StatementKind::Sets(assignment) => self.fault_of_assignment(ordinal, place, assignment),
            StatementKind::AlignsToPower(exponent) => {
                self.fault_of_power(ordinal, place, exponent)
            }
            StatementKind::AlignsToBytes(bytes) => self.fault_of_bytes(ordinal, place, bytes),
            StatementKind::Value(width, value) => {
                self.fault_of_values(ordinal, place, *width, std::slice::from_ref(value))
            }
            StatementKind::Values(width, values) => {
                self.fault_of_values(ordinal, place, *width, values)
            }
            StatementKind::Ascii(strings) => self.fault_of_strings(place, false, strings),
            StatementKind::Asciz(strings) => self.fault_of_strings(place, true, strings),
            StatementKind::Zeros(count) => self.fault_of_zeros(ordinal, place, count),
            StatementKind::Chooses(choice) => choice_fault(depth, *choice),
            StatementKind::Binds(..) => None,
            StatementKind::Ignored => None,
        }
    }

    /// The first fault of the statements, with its line: a label's, a directive's, or that of an instruction outside code.
    /// Each is read into the room.
    pub(crate) fn first_fault(&self, room: &mut Statement<'a>) -> Option<(SourceCode, u32)>
        ensures { option_map fault_of result ≡ faults.first_unit_fault (said self.now) }
    {
        let statements = self.statements();
        let places = self.places();
        let mut labels: usize = 0;
        let mut depth: usize = 0;
        for index in 0..statements.len() {
            let statement = statements.read(index, room);
            let place = places[index];
            match self.fault(ordinal_of(index), place, labels, depth, &statement.kind) {
                Some(code) => return Some((code, statement.line)),
                None => {
                    labels = labels_after(labels, &statement.kind);
                    depth = depth_after(depth, &statement.kind);
                }
            }
        }
        None
    }
}
