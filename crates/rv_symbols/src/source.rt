//! A source's names, and where its statements stand.

ghost use Rattle.std.specs.Prelude.{◌≡◌, ◌+◌, ◌^◌, ◌<◌, Some, List, [], ◌∷◌, slice_get, option_map, if◌then◌else◌, true, IfOk, IfSome};
ghost use Rattle.rv_statement.specs.View.{statement_of};
ghost use Rattle.rv_unit_laws.specs.Bindings.{is_shared};
ghost use Rattle.rv_unit_laws.specs.Tables.{tables, assigned_ever};
ghost use Rattle.rv_unit.specs.Tables.{assignment_of};
ghost use Rattle.rv_unit.specs.Unit.{said, IsFilled};
ghost use Rattle.rv_map_laws.specs.Name.{is_name};
ghost use Rattle.rv_object_laws.specs.Valid.{is_shown};
ghost use Rattle.rv_source_laws.specs.Exports.{sets_first, defined_name};
ghost use Rattle.rv_assemble_laws.specs.LaidStatements.{LaidStatement};
ghost use Rattle.rv_assemble_laws.specs.Symbols.{laid_at, after_found, assigned_definition, statement_definition, outer_binding};
ghost use Rattle.rv_assemble_laws.specs.ShownNames.{said_names, are_shown};
ghost use Rattle.rv_symbols.specs.Settings.{AreFirsts};

use crate::settings::FirstSettings;
use rv_expression::SymbolMeaning;
use rv_object_types::{Binding as ObjectBinding, Definition};
use rv_statement::{Statement, StatementKind};
use rv_unit::{Assignment, Binding, Item, Unit};
use std::alloc::{AllocError, Global};

/// A source: its unit says what its names are; and where its statements stand.
#[derive(Drop)]
pub(crate) struct Source<'u, 'a> {
    pub(crate) unit: &'u Unit<'a>,
    /// Where each statement stands in its section.
    pub(crate) items: &'u [Item],
    /// Where `.set` gives names first.
    pub(crate) firsts: FirstSettings<'a>,
}

impl<'u, 'a> Source<'u, 'a> {
    ghost use Rattle.rv_symbols.specs.Source.{optional_name, tables_of, place_in, IsSource};

    /// A source whose statements stand at the offsets of these items.
    pub(crate) fn of(
        alloc: Global,
        unit: &'u Unit<'a>,
        items: &'u [Item],
    ) -> Result<Self, AllocError>
        ensures unit { IfOk result (λ x. x.unit.now ≡ unit.now) }
        ensures items { IfOk result (λ x. x.items.now ≡ items.now) }
        ensures firsts { IfOk result (λ x. IsFilled unit.now
            → AreFirsts x.firsts.ordinals (tables (said unit.now)).assignments) }
    {
        let firsts = FirstSettings::of(alloc, unit.assignments())?;
        Ok(Source {
            unit,
            items,
            firsts,
        })
    }

    /// Whether other files can mean a name.
    pub(crate) fn is_shared(&self, name: &[u8]) -> bool
        ensures { (laid : List LaidStatement) → IsSource self.now laid
            → result ≡ is_shared ((tables_of self.now).bindings name.now) }
    {
        !matches!(self.unit.binding(name), Binding::Local)
    }

    /// The binding in an object of a name that other files can mean, or define.
    pub(crate) fn outer_binding(&self, name: &[u8]) -> ObjectBinding
        ensures binding { (laid : List LaidStatement) → IsSource self.now laid
            → result ≡ outer_binding ((tables_of self.now).bindings name.now) }
        ensures shown { is_name name.now ≡ true → is_shown result name.now ≡ true }
    {
        match self.unit.binding(name) {
            Binding::Local => ObjectBinding::Global,
            Binding::Global => ObjectBinding::Global,
            Binding::Weak => ObjectBinding::Weak,
        }
    }

    /// The name that the statement at this index defines.
    pub(crate) fn defined<'s>(&self, index: usize, statement: &Statement<'s>) -> Option<&'s [u8]>
        requires { index + 1 < 2 ^ 64 }
        ensures name { (laid : List LaidStatement) → IsSource self.now laid
            → optional_name result
            ≡ defined_name (tables_of self.now) (index + 1) (statement_of statement.now).kind }
        ensures shown { are_shown (said_names (statement_of statement.now).kind) ≡ true
            → IfSome result (λ n. is_name n.now ≡ true) }
    {
        match &statement.kind {
            StatementKind::Label(name) => Some(*name),
            StatementKind::Sets(setting) => self.first_set(index, setting.name),
            _ => None,
        }
    }

    /// The name, where the statement at this index is the first that gives it.
    fn first_set<'s>(&self, index: usize, name: &'s [u8]) -> Option<&'s [u8]>
        requires { index + 1 < 2 ^ 64 }
        ensures same { IfSome result (λ n. n.now ≡ name.now) }
        ensures name { (laid : List LaidStatement) → IsSource self.now laid
            → optional_name result
            ≡ (if sets_first (tables_of self.now).assignments (index + 1) name.now
            then name.now ∷ [] else []) }
    {
        if self.firsts.is_first(index + 1, name) {
            Some(name)
        } else {
            None
        }
    }

    /// The section and the offset of the statement at this index, if there is one.
    pub(crate) fn place(&self, index: usize) -> Option<(u32, u64)>
        ensures { (laid : List LaidStatement) → IsSource self.now laid
            → result ≡ option_map place_in (slice_get laid index) }
    {
        let Some(place) = self.unit.places().get(index) else {
            return None;
        };
        let Some(item) = self.items.get(index) else {
            return None;
        };
        Some((place.section, u64::from(item.offset)))
    }

    /// The section and the offset of the statement at this index.
    pub(crate) fn here(&self, index: usize) -> (u32, u64)
        ensures { (laid : List LaidStatement) (s : LaidStatement) → IsSource self.now laid
            → slice_get laid index ≡ Some s → result ≡ place_in s }
    {
        match self.place(index) {
            Some(place) => place,
            None => (0, 0),
        }
    }

    /// So many bytes after the start of the statement of this ordinal.
    fn after(&self, ordinal: usize, plus: u64) -> Definition
        ensures { (laid : List LaidStatement) → IsSource self.now laid
            → result ≡ after_found (laid_at laid ordinal) plus }
    {
        if ordinal == 0 {
            return Definition::Skipped(0);
        }
        match self.place(ordinal - 1) {
            Some((section, offset)) => Definition::InSection(section, offset.wrapping_add(plus)),
            None => Definition::Skipped(0),
        }
    }

    /// A number, or a place that `.set` gives.
    fn assigned(&self, assignment: Assignment<'a>) -> Definition
        ensures { (laid : List LaidStatement) → IsSource self.now laid
            → result ≡ assigned_definition laid (Some (assignment_of assignment.entry)) }
    {
        match assignment.meaning {
            SymbolMeaning::Constant(number) => Definition::Absolute(number),
            SymbolMeaning::InSection(_, _) => self.after(
                assignment.ordinal as usize,
                assignment.plus,
            ),
            _ => Definition::Skipped(0),
        }
    }

    /// What `.set` gives a name last.
    fn set_definition(&self, name: &[u8]) -> Definition
        ensures { (laid : List LaidStatement) → IsSource self.now laid
            → result ≡ assigned_definition laid
            (assigned_ever (tables_of self.now).assignments name.now) }
    {
        match self.unit.assignment(name) {
            Some(assignment) => self.assigned(assignment),
            None => Definition::Skipped(0),
        }
    }

    /// What the statement at this index defines: a label its own place, `.set` what the name has last.
    pub(crate) fn definition(&self, index: usize, statement: &Statement<'_>) -> Definition
        ensures { (laid : List LaidStatement) (s : LaidStatement) → IsSource self.now laid
            → slice_get laid index ≡ Some s
            → result ≡ statement_definition (tables_of self.now) laid s
            (statement_of statement.now).kind }
    {
        match &statement.kind {
            StatementKind::Sets(setting) => self.set_definition(setting.name),
            _ => {
                let (section, offset) = self.here(index);
                Definition::InSection(section, offset)
            }
        }
    }
}
