//! The tables that statements fill, one after the other.
//!
//! They are asked twice: while they are filled, by the statements whose sizes count at once, and when they are full, by
//! all others. So nothing is taken out again, and whatever can stand more than once, assignments and numeric labels,
//! keeps the ordinals of its statements in order: what came before a statement is then found by halving. A label stands
//! once, in a map by its name.

ghost use Rattle.std.specs.Prelude.{◌≡◌, ℕ, ◌-◌, ◌^◌, min, ◌<◌, ◌||◌, ◌==◌, [], false, true, not, is_some, Some, None, option_map, map, IfOk, OnOk};
ghost use Rattle.std.specs.List.{find};
ghost use Rattle.rv_expression_laws.specs.Bytes.{digits_value};
ghost use Rattle.rv_expression_laws.specs.Values.{Open};
ghost use Rattle.rv_expression.specs.Nodes.{symbol_of};
ghost use Rattle.rv_expression.specs.Expr.{tree_of_expr};
ghost use Rattle.rv_lexer.specs.Reference.{digits_in, is_ahead};
ghost use Rattle.rv_expression.specs.Eval.{meaning_of, IsOutcome};
ghost use Rattle.rv_statement_laws.specs.declared.directive.Choice.TheVariants.{Pop};
ghost use Rattle.rv_statement.specs.View.{now_of};
ghost use Rattle.rv_unit_laws.specs.Bindings.{bound, is_weak};
ghost use Rattle.rv_unit_laws.specs.Sections as sections;
ghost use Rattle.rv_unit_laws.specs.Tables as laws;
ghost use Rattle.rv_unit_laws.proofs.BeforeLemmas.{IsBefore};
ghost use Rattle.rv_unit.specs.Sections.{section_of, offset_of};
ghost use Rattle.rv_unit.specs.Tables.{tables_of, label_at, numeric_label_at, assignment_of, IsIndexed};

use crate::assignments::{add_assigned, latest_before};
use crate::bindings::{bind_all, weak_after};
use crate::number::Number;
use crate::numbered::add_numbered;
use crate::numeric_labels::NumericLabels;
use crate::options::Options;
use crate::section::{Extent, Section};
use crate::section_offset::SectionOffset;
use indexmap::IndexMap;
use rv_expression::{
    Expr, NumericReference, SourceFault, Symbol, SymbolMeaning, Value, symbolic_value,
};
use rv_statement_laws::{Binding, Choice};
use std::alloc::{AllocError, Global};

/// The most sections of a source.
pub(crate) const MOST_SECTIONS: usize = 32_000;

/// A label: the ordinal of its statement, and where it stands.
#[derive(Clone, Copy, Drop)]
pub(crate) struct Label {
    /// The ordinal of its statement, from 1.
    pub ordinal: u32,
    pub place: SectionOffset,
}

/// A numeric label of a number: the ordinal of its statement, and where it stands.
#[derive(Clone, Copy, Drop)]
pub(crate) struct NumericLabel {
    /// The ordinal of its statement, from 1.
    pub ordinal: u32,
    pub place: SectionOffset,
}

/// What a `.set` gives a name: a number, or a location and how far after the statement that is.
#[derive(Clone, Copy, Drop)]
pub struct Assignment<'a> {
    pub name: &'a [u8],
    /// The ordinal of its statement, from 1.
    pub ordinal: u32,
    pub meaning: SymbolMeaning,
    /// The bytes between its statement and a location.
    pub plus: u64,
}

impl Assignment<'_> {
    /// Whether the name is a location.
    pub fn is_location(&self) -> bool
        ensures { result ≡ laws.is_location (assignment_of self.now) }
    {
        matches!(self.meaning, SymbolMeaning::InSection(..))
    }
}

/// What the statements so far define.
#[derive(Drop)]
pub(crate) struct Tables<'a> {
    /// The sections in their order, with the numbers of their names.
    pub extents: Vec<Extent<'a>>,
    pub(crate) numbers: IndexMap<&'a [u8], u32>,
    /// The number of the current one.
    pub(crate) current: u32,
    pub(crate) labels: IndexMap<&'a [u8], Label>,
    /// The numeric labels of each number, in their order.
    pub(crate) numbered: IndexMap<Number<'a>, NumericLabels>,
    /// The assignments in their order, and those of each name.
    pub assignments: Vec<Assignment<'a>>,
    pub(crate) by_name: IndexMap<&'a [u8], Vec<Assignment<'a>>>,
    /// The options that are set, and those that were kept, in their order.
    pub(crate) options: Options,
    pub(crate) kept: Vec<Options>,
    /// What the source says last of each name of which it says a binding.
    pub(crate) bindings: IndexMap<&'a [u8], Binding>,
    /// Whether it says of any name that it is weak: most sources do not, and then no name need be looked up.
    pub(crate) has_weak: bool,
}

impl<'a> Tables<'a> {
    /// The tables before the first statement.
    pub fn new(alloc: Global) -> Result<Self, AllocError>
        ensures tables { IfOk result (λ b. tables_of b ≡ laws.at_start []) }
        ensures indexed { IfOk result (λ b. IsIndexed b) }
    {
        let section = Section::text();
        let mut extents = Vec::new(alloc);
        extents.push(Extent::empty(section))?;
        let mut numbers = IndexMap::new(alloc);
        numbers.insert(section.name, 0)?;
        Ok(Tables {
            extents,
            numbers,
            current: 0,
            labels: IndexMap::new(alloc),
            numbered: IndexMap::new(alloc),
            assignments: Vec::new(alloc),
            by_name: IndexMap::new(alloc),
            options: Options::Both,
            kept: Vec::new(alloc),
            bindings: IndexMap::new(alloc),
            has_weak: false,
        })
    }

    /// Where the next statement stands.
    pub(crate) fn here(&self) -> SectionOffset
        ensures { offset_of result ≡ laws.here (tables_of self.now) }
    {
        SectionOffset {
            section: self.current,
            offset: self.offset(),
        }
    }

    /// The bytes of data so far in the current section.
    pub(crate) fn offset(&self) -> u32
        ensures { result ≡ (laws.here (tables_of self.now)).offset }
    {
        match self.extents.get(self.current as usize) {
            Some(extent) => extent.bytes,
            None => 0,
        }
    }

    /// A section by its number.
    pub fn section_at(&self, number: u32) -> Section<'a>
        ensures { section_of result
            ≡ sections.section_at (laws.opened_of (tables_of self.now)) number }
    {
        match self.extents.get(number as usize) {
            Some(extent) => extent.section,
            None => Section::text(),
        }
    }

    /// What an offset means: in data it has a known distance from others of its section.
    pub fn stands(&self, place: SectionOffset) -> SymbolMeaning
        ensures { meaning_of result
            ≡ laws.stands (laws.opened_of (tables_of self.now)) (offset_of place) }
    {
        if self.section_at(place.section).executable {
            SymbolMeaning::Open
        } else {
            SymbolMeaning::InSection(place.section, u64::from(place.offset))
        }
    }

    /// The label of a name.
    pub fn label(&self, name: &[u8]) -> Option<Label>
        ensures { option_map (label_at name.now) result
            ≡ laws.label_of (tables_of self.now).labels true 0 name.now }
    {
        self.labels.get(&name).copied()
    }

    /// The label of a name, which may be the one of this index: labels have the order of their statements, so that the
    /// index saves most look-ups.
    pub fn label_hinted(&self, index: usize, name: &[u8]) -> Option<Label>
        ensures { option_map (label_at name.now) result
            ≡ laws.label_of (tables_of self.now).labels true 0 name.now }
    {
        if let Some((key, label)) = self.labels.get_index(index) {
            if *key == name {
                return Some(*label);
            }
        }
        self.label(name)
    }

    /// The label of a name, if it stands before an ordinal.
    pub fn label_before(&self, ordinal: u32, name: &[u8]) -> Option<Label>
        ensures { (o : ℕ) → IsBefore (tables_of self.now) o →
            option_map (label_at name.now) result
            ≡ laws.label_of (tables_of self.now).labels false ordinal name.now }
    {
        match self.label(name) {
            Some(label) => {
                if label.ordinal < ordinal {
                    Some(label)
                } else {
                    None
                }
            }
            None => None,
        }
    }

    /// The latest assignment of a name.
    pub fn assignment(&self, name: &[u8]) -> Option<Assignment<'a>>
        ensures { IsIndexed self.now →
            option_map assignment_of result
            ≡ laws.assigned_ever (tables_of self.now).assignments name.now }
    {
        if self.assignments.is_empty() {
            return None;
        }
        match self.by_name.get(&name) {
            Some(assignments) => assignments.as_slice().last().copied(),
            None => None,
        }
    }

    /// The latest assignment of a name before an ordinal.
    pub fn assignment_before(&self, ordinal: u32, name: &[u8]) -> Option<Assignment<'a>>
        ensures { IsIndexed self.now → (o : ℕ) → IsBefore (tables_of self.now) o →
            option_map assignment_of result
            ≡ laws.assigned_before (tables_of self.now).assignments ordinal name.now }
    {
        if self.assignments.is_empty() {
            return None;
        }
        match self.by_name.get(&name) {
            Some(assignments) => latest_before(assignments.as_slice(), ordinal),
            None => None,
        }
    }

    /// The latest numeric label of a number.
    pub(crate) fn latest_numeric_label(&self, digits: &[u8]) -> Option<NumericLabel>
        ensures { IsIndexed self.now →
            option_map (numeric_label_at (digits_value 10 digits.now)) result
            ≡ find (λ m. m.number == digits_value 10 digits.now)
            (tables_of self.now).numeric_labels }
    {
        match self.numbered.get(Number { digits }) {
            Some(numeric_labels) => numeric_labels.last(),
            None => None,
        }
    }

    /// The nearest numeric label before an ordinal.
    pub fn numeric_label_before(&self, ordinal: u32, digits: &[u8]) -> Option<NumericLabel>
        ensures { IsIndexed self.now → (o : ℕ) → IsBefore (tables_of self.now) o →
            option_map (numeric_label_at (digits_value 10 digits.now)) result
            ≡ laws.numeric_label_before (tables_of self.now).numeric_labels ordinal
            (digits_value 10 digits.now) }
    {
        match self.numbered.get(Number { digits }) {
            Some(numeric_labels) => numeric_labels.last_before(ordinal),
            None => None,
        }
    }

    /// The nearest numeric label after an ordinal.
    pub fn numeric_label_after(&self, ordinal: u32, digits: &[u8]) -> Option<NumericLabel>
        ensures { IsIndexed self.now → (o : ℕ) → IsBefore (tables_of self.now) o →
            option_map (numeric_label_at (digits_value 10 digits.now)) result
            ≡ laws.numeric_label_after (tables_of self.now).numeric_labels ordinal
            (digits_value 10 digits.now) }
    {
        match self.numbered.get(Number { digits }) {
            Some(numeric_labels) => numeric_labels.first_after(ordinal),
            None => None,
        }
    }

    /// What a name means so far.
    fn named(&self, name: &[u8]) -> SymbolMeaning
        ensures { IsIndexed self.now → (o : ℕ) → IsBefore (tables_of self.now) o →
            meaning_of result ≡ laws.named (tables_of self.now) false o name.now }
    {
        self.weakened(name, self.own_named(name))
    }

    /// What a name means that means this in its own file: a place whose name is weak is open, as another file's may stand
    /// for it.
    pub fn weakened(&self, name: &[u8], meaning: SymbolMeaning) -> SymbolMeaning
        ensures { IsIndexed self.now → meaning_of result
            ≡ laws.weakened ((tables_of self.now).bindings name.now) (meaning_of meaning) }
    {
        match meaning {
            SymbolMeaning::InSection(..) => if self.is_weak(name) {
                SymbolMeaning::Open
            } else {
                meaning
            },
            meaning => meaning,
        }
    }

    /// What a name means so far in its own file.
    fn own_named(&self, name: &[u8]) -> SymbolMeaning
        ensures { IsIndexed self.now → (o : ℕ) → IsBefore (tables_of self.now) o →
            meaning_of result ≡ laws.own_named (tables_of self.now) false o name.now }
    {
        match self.assignment(name) {
            Some(assignment) => assignment.meaning,
            None => self.labelled(name),
        }
    }

    /// What a name that is not set means so far.
    fn labelled(&self, name: &[u8]) -> SymbolMeaning
        ensures { meaning_of result
            ≡ laws.labelled (laws.opened_of (tables_of self.now))
            (laws.label_of (tables_of self.now).labels true 0 name.now) Open }
    {
        match self.label(name) {
            Some(label) => self.stands(label.place),
            None => SymbolMeaning::Open,
        }
    }

    /// What a numeric label before means so far.
    fn backward(&self, digits: &[u8]) -> SymbolMeaning
        ensures { IsIndexed self.now → (o : ℕ) → IsBefore (tables_of self.now) o →
            meaning_of result
            ≡ laws.referred (tables_of self.now) false o (digits_value 10 digits.now) false }
    {
        match self.latest_numeric_label(digits) {
            Some(numeric_label) => self.stands(numeric_label.place),
            None => SymbolMeaning::UndefinedLocal,
        }
    }

    /// What the numeric label of a reference means so far.
    fn referred(&self, reference: NumericReference<'_>) -> SymbolMeaning
        ensures { IsIndexed self.now → (o : ℕ) → IsBefore (tables_of self.now) o →
            meaning_of result
            ≡ laws.referred (tables_of self.now) false o
            (digits_value 10 (digits_in reference.entry.word.now))
            (is_ahead reference.entry.word.now) }
    {
        if reference.is_forward() {
            SymbolMeaning::UndefinedLocal
        } else {
            self.backward(reference.digits())
        }
    }

    /// What a symbol means in the next statement, as far as the statements before it say.
    fn meaning(&self, symbol: Symbol<'a>) -> SymbolMeaning
        ensures { IsIndexed self.now → (o : ℕ) → IsBefore (tables_of self.now) o →
            meaning_of result
            ≡ laws.meaning (tables_of self.now) false o (laws.here (tables_of self.now))
            (symbol_of symbol.entry) }
    {
        match symbol {
            Symbol::Name(name) => self.named(name),
            Symbol::Here => self.stands(self.here()),
            Symbol::Reference(reference) => self.referred(reference),
        }
    }

    /// The value of an expression of the next statement, as far as the statements before it say.
    pub(crate) fn value(&self, expression: &Expr<'a>) -> Result<Value<'a>, SourceFault>
        ensures { IsIndexed self.now → (o : ℕ) → IsBefore (tables_of self.now) o →
            IsOutcome result 0
            (laws.value_by_tables (tables_of self.now) false o (laws.here (tables_of self.now))
            (tree_of_expr expression.now)) }
    {
        symbolic_value(expression, 0, &|symbol| self.meaning(symbol))
    }

    /// Whether a section of the name is open.
    pub fn knows(&self, name: &[u8]) -> bool
        ensures { IsIndexed self.now →
            result
            ≡ is_some
            (sections.place_of_name (laws.opened_of (tables_of self.now)).sections name.now) }
    {
        self.numbers.get(&name).is_some()
    }

    /// Whether a label or an assignment has the name.
    pub(crate) fn is_defined(&self, name: &[u8]) -> bool
        ensures { IsIndexed self.now → result
            ≡ (is_some (laws.label_of (tables_of self.now).labels true 0 name.now)
            || is_some (laws.assigned_ever (tables_of self.now).assignments name.now)) }
    {
        self.label(name).is_some() || self.assignment(name).is_some()
    }

    /// Whether a label or a location has the name.
    pub(crate) fn has_location(&self, name: &[u8]) -> bool
        ensures { IsIndexed self.now → result
            ≡ (is_some (laws.label_of (tables_of self.now).labels true 0 name.now)
            || laws.gives_location (laws.assigned_ever (tables_of self.now).assignments name.now)) }
    {
        if self.label(name).is_some() {
            return true;
        }
        match self.assignment(name) {
            Some(assignment) => assignment.is_location(),
            None => false,
        }
    }

    /// Enters a section; a new one while there is room.
    pub(crate) fn enter(&mut self, section: Section<'a>) -> Result<(), AllocError>
        ensures tables { OnOk result
            (IsIndexed self.old →
            tables_of self.new
            ≡ laws.with_section (tables_of self.old) (Some (section_of section.entry))) }
        ensures indexed { OnOk result (IsIndexed self.old → IsIndexed self.new) }
    {
        if let Some(number) = self.numbers.get(&section.name).copied() {
            self.current = number;
            return Ok(());
        }
        let count = self.extents.len();
        if count >= MOST_SECTIONS {
            return Ok(());
        }
        let number = count as u32;
        self.extents.push(Extent::empty(section))?;
        self.numbers.insert(section.name, number)?;
        self.current = number;
        Ok(())
    }

    /// Defines a label, unless its name is defined. Few are, so that the name is looked up once, and the label that it had
    /// is put back.
    pub(crate) fn add_label(&mut self, ordinal: u32, name: &'a [u8]) -> Result<(), AllocError>
        ensures tables { OnOk result
            (IsIndexed self.old → IsBefore (tables_of self.old) ordinal →
            tables_of self.new ≡ laws.with_label (tables_of self.old) ordinal name.now) }
        ensures indexed { OnOk result (IsIndexed self.old → IsIndexed self.new) }
    {
        if self.assignment(name).is_some() {
            return Ok(());
        }
        let place = self.here();
        let before = self.labels.insert(name, Label { ordinal, place })?;
        if let Some(first) = before {
            self.labels.insert(name, first)?;
            return Ok(());
        }
        Ok(())
    }

    /// Defines a numeric label.
    pub(crate) fn add_numeric_label(
        &mut self,
        ordinal: u32,
        digits: &'a [u8],
    ) -> Result<(), AllocError>
        ensures tables { OnOk result
            (IsBefore (tables_of self.old) ordinal →
            tables_of self.new
            ≡ laws.with_numeric_label (tables_of self.old) ordinal (digits_value 10 digits.now)) }
        ensures indexed { OnOk result
            (IsIndexed self.old → IsBefore (tables_of self.old) ordinal → IsIndexed self.new) }
    {
        let label = NumericLabel {
            ordinal,
            place: self.here(),
        };
        add_numbered(
            *self.extents.allocator(),
            &mut self.numbered,
            Number { digits },
            label,
        )
    }

    /// Whether a setting's name is defined, where one of the two is a label or a location.
    pub(crate) fn is_taken(&self, assigned: &Assignment<'a>) -> bool
        ensures { IsIndexed self.now → IsBefore (tables_of self.now) (assigned.now).ordinal →
            not result
            ≡ laws.may_set (tables_of self.now) (assigned.now).ordinal (assigned.now).name.now
            (meaning_of (assigned.now).meaning) }
    {
        if assigned.is_location() {
            self.is_defined(assigned.name)
        } else {
            self.has_location(assigned.name)
        }
    }

    /// Sets a name, unless one of the two is a label or a location.
    pub(crate) fn set(&mut self, assigned: Assignment<'a>) -> Result<(), AllocError>
        ensures tables { OnOk result
            (IsIndexed self.old → IsBefore (tables_of self.old) (assigned.entry).ordinal →
            tables_of self.new
            ≡ laws.with_assignment (tables_of self.old) (Some (assignment_of assigned.entry))) }
        ensures indexed { OnOk result (IsIndexed self.old → IsIndexed self.new) }
    {
        if self.is_taken(&assigned) {
            return Ok(());
        }
        self.assignments.push(assigned)?;
        add_assigned(*self.assignments.allocator(), &mut self.by_name, assigned)
    }

    /// Adds data at the end of the current section, where it does not pass the longest one, and an alignment of it. A
    /// section of code does not count data.
    pub(crate) fn extend(&mut self, size: u64, alignment: Option<u32>)
        ensures tables { tables_of self.new
            ≡ laws.with_data (tables_of self.old)
            (laws.within (laws.here (tables_of self.old)).offset size) alignment }
        ensures indexed { IsIndexed self.old → IsIndexed self.new }
    {
        let number = self.current as usize;
        if number >= self.extents.len() {
            return;
        }
        let extent = self.extents[number];
        self.extents[number] = extent.longer(extent.end_after(size), alignment);
    }

    /// Adds data of a size that shows all its bytes, or as many as a number can: those do not fit.
    pub(crate) fn extend_by(&mut self, size: u64)
        ensures tables { (bytes : ℕ) → size ≡ min bytes (2 ^ 64 - 1) →
            tables_of self.new
            ≡ laws.with_data (tables_of self.old)
            (laws.within (laws.here (tables_of self.old)).offset bytes) None }
        ensures indexed { IsIndexed self.old → IsIndexed self.new }
    {
        self.extend(size, None)
    }

    /// Sets an option, keeps the options, or takes them back.
    pub(crate) fn choose(&mut self, choice: Choice) -> Result<(), AllocError>
        ensures tables { OnOk result
            (tables_of self.new ≡ laws.with_choice (tables_of self.old) choice) }
        ensures indexed { OnOk result (IsIndexed self.old → IsIndexed self.new) }
    {
        match choice {
            Choice::Rvc => self.options = Options::new(true, self.options.relax()),
            Choice::Norvc => self.options = Options::new(false, self.options.relax()),
            Choice::Relax => self.options = Options::new(self.options.rvc(), true),
            Choice::Norelax => self.options = Options::new(self.options.rvc(), false),
            Choice::Push => self.kept.push(self.options)?,
            Choice::Pop => self.take_back(),
            Choice::Nopic => (),
        }
        Ok(())
    }

    /// Gives names a binding.
    pub(crate) fn bind(&mut self, binding: Binding, names: &[&'a [u8]]) -> Result<(), AllocError>
        ensures tables { OnOk result (tables_of self.new
            ≡ record
            (tables_of self.old) {
              bindings = bound binding (map now_of names.now)
                  (tables_of self.old).bindings;
            }) }
        ensures indexed { OnOk result (IsIndexed self.old → IsIndexed self.new) }
    {
        self.has_weak = weak_after(self.has_weak, binding);
        bind_all(&mut self.bindings, binding, names)
    }

    /// The binding of a name: what was said last of it.
    pub fn binding(&self, name: &[u8]) -> Binding
        ensures { result ≡ (tables_of self.now).bindings name.now }
    {
        self.bindings.get(&name).copied().unwrap_or(Binding::Local)
    }

    /// Whether a name is weak.
    pub fn is_weak(&self, name: &[u8]) -> bool
        ensures { IsIndexed self.now
            → result ≡ is_weak ((tables_of self.now).bindings name.now) }
    {
        if !self.has_weak {
            return false;
        }
        matches!(self.binding(name), Binding::Weak)
    }

    /// The options that were kept last are set again, if there are any.
    fn take_back(&mut self)
        ensures tables { tables_of self.new ≡ laws.with_choice (tables_of self.old) Pop }
        ensures indexed { IsIndexed self.old → IsIndexed self.new }
    {
        if let Some(options) = self.kept.pop() {
            self.options = options;
        }
    }
}
