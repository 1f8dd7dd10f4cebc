//! What names mean in a statement, by its ordinal.
//!
//! There are three questions. In most statements a name means what the whole source gives it. Where a size counts at
//! once (`early_..`), later definitions are no constants, since where these stand depends on that size. And a check in
//! the order of the source (`past_..`) asks by the statements before alone, as if nothing came after: it uses the full
//! tables all the same, by ordinals, so that a source needs one set of tables.
//!
//! A weak name has no place in any of them, as another file's may stand for it.

ghost use Rattle.std.specs.Prelude.{◌≡◌, ℕ, ◌+◌, ◌≤◌, ◌<◌, ◌||◌, true, false, [], is_some, length, IfSome};
ghost use Rattle.rv_expression_laws.specs.Bytes.{digits_value};
ghost use Rattle.rv_expression_laws.specs.Expression.{Symbol as SymbolOf};
ghost use Rattle.rv_expression_laws.specs.Values.{Open};
ghost use Rattle.rv_lexer.specs.Reference.{digits_in, is_ahead};
ghost use Rattle.rv_expression.specs.Nodes.{symbol_of};
ghost use Rattle.rv_expression.specs.Expr.{lone_primary, expr_of, tree_of_expr};
ghost use Rattle.rv_expression.specs.Eval.{meaning_of, IsOutcome};
ghost use Rattle.rv_unit_laws.specs.Tables as laws;
ghost use Rattle.rv_unit_laws.proofs.BeforeLemmas.{IsBefore};
ghost use Rattle.rv_unit.specs.Sections.{offset_of};
ghost use Rattle.rv_unit.specs.Tables.{tables_of, IsIndexed};
ghost use Rattle.rv_unit.specs.Unit.{said, passed, IsApart, IsFilled, comes_after};
ghost use Rattle.rv_unit.specs.declared.names.Question.TheVariants.{Whole, Early, Past};

use crate::section_offset::SectionOffset;
use crate::unit::Unit;
use rv_expression::{
    Expr, NumericReference, SourceFault, Symbol, SymbolMeaning, Value, symbolic_value,
};

/// Whether a symbol is a numeric label that comes after.
fn comes_after(symbol: Symbol<'_>) -> bool
    ensures { result ≡ comes_after (symbol_of symbol.entry) }
{
    match symbol {
        Symbol::Name(_) => false,
        Symbol::Here => false,
        Symbol::Reference(reference) => reference.is_forward(),
    }
}

/// Which of the three questions is asked.
#[derive(Clone, Copy, Drop)]
enum Question {
    Whole,
    Early,
    Past,
}

impl<'a> Unit<'a> {
    /// What a symbol means in the statement of an ordinal, which stands at the offset.
    pub(crate) fn meaning(
        &self,
        ordinal: u32,
        place: SectionOffset,
        symbol: Symbol<'_>,
    ) -> SymbolMeaning
        ensures { (o : ℕ) → IsFilled self.now → ordinal ≡ o →
            meaning_of result
            ≡ laws.meaning (laws.tables (said self.now)) true o (offset_of place)
            (symbol_of symbol.entry) }
    {
        match symbol {
            Symbol::Name(name) => self.named(ordinal, name),
            Symbol::Here => self.tables.stands(place),
            Symbol::Reference(reference) => self.referred(ordinal, reference),
        }
    }

    /// No name is set, so that each has a place, or one that is not known.
    pub(crate) fn sets_none(&self) -> bool
        ensures { result ≡ true → (self.now).tables.assignments.items ≡ [] }
    {
        self.tables.assignments.is_empty()
    }

    /// The name that an expression is, where none is set: it is then no number, and has no fault.
    fn placed_name<'e>(&self, expression: &Expr<'e>) -> Option<&'e [u8]>
        ensures name { IfSome result
            (λ name. expr_of expression.now ≡ lone_primary (SymbolOf name.now)) }
        ensures none { IfSome result (λ _. (self.now).tables.assignments.items ≡ []) }
    {
        if !self.sets_none() {
            return None;
        }
        match expression {
            Expr::Name(name) => Some(*name),
            _ => None,
        }
    }

    /// The value of an expression of that statement; a fault has this line. A name is not looked up where it is no number
    /// in any case, as in most jumps and branches.
    pub(crate) fn value<'e>(
        &self,
        ordinal: u32,
        place: SectionOffset,
        expression: &Expr<'e>,
        line: u32,
    ) -> Result<Value<'e>, SourceFault>
        ensures { (o : ℕ) → IsFilled self.now → ordinal ≡ o →
            IsOutcome result line
            (laws.value_by_tables (laws.tables (said self.now)) true o (offset_of place)
            (tree_of_expr expression.now)) }
    {
        if let Some(name) = self.placed_name(expression) {
            return Ok(Value::Symbolic(Symbol::Name(name), 0));
        }
        self.answer(Question::Whole, ordinal, place, expression, line)
    }

    /// What a name means.
    fn named(&self, ordinal: u32, name: &[u8]) -> SymbolMeaning
        ensures { IsIndexed (self.now).tables → (o : ℕ) →
            IsBefore (tables_of (self.now).tables) o → IsApart (tables_of (self.now).tables) →
            meaning_of result ≡ laws.named (tables_of (self.now).tables) true ordinal name.now }
    {
        self.tables.weakened(name, self.own_named(ordinal, name))
    }

    /// What a name means in its own file.
    fn own_named(&self, ordinal: u32, name: &[u8]) -> SymbolMeaning
        ensures { IsIndexed (self.now).tables → (o : ℕ) →
            IsBefore (tables_of (self.now).tables) o → IsApart (tables_of (self.now).tables) →
            meaning_of result
            ≡ laws.own_named (tables_of (self.now).tables) true ordinal name.now }
    {
        match self.tables.label(name) {
            Some(label) => self.tables.stands(label.place),
            None => self.assigned(ordinal, name),
        }
    }

    /// What a name without a label means: what it is set to before, else the location that it is set to later.
    fn assigned(&self, ordinal: u32, name: &[u8]) -> SymbolMeaning
        ensures { IsIndexed (self.now).tables → (o : ℕ) →
            IsBefore (tables_of (self.now).tables) o →
            meaning_of result
            ≡ laws.assigned_first
            (laws.assigned_before (tables_of (self.now).tables).assignments ordinal name.now)
            (laws.assigned_later true
            (laws.assigned_ever (tables_of (self.now).tables).assignments name.now)) }
    {
        match self.tables.assignment_before(ordinal, name) {
            Some(assignment) => assignment.meaning,
            None => self.assigned_later(name),
        }
    }

    /// What a name means that is only set later: a location that it has then, or another file's.
    fn assigned_later(&self, name: &[u8]) -> SymbolMeaning
        ensures { IsIndexed (self.now).tables →
            meaning_of result
            ≡ laws.assigned_later true
            (laws.assigned_ever (tables_of (self.now).tables).assignments name.now) }
    {
        match self.tables.assignment(name) {
            Some(assignment) => match assignment.meaning {
                SymbolMeaning::Constant(_) => SymbolMeaning::NotConstant,
                meaning => meaning,
            },
            None => SymbolMeaning::Open,
        }
    }

    /// What the numeric label of a reference means.
    fn referred(&self, ordinal: u32, reference: NumericReference<'_>) -> SymbolMeaning
        ensures { IsIndexed (self.now).tables → (o : ℕ) →
            IsBefore (tables_of (self.now).tables) o →
            meaning_of result
            ≡ laws.referred (tables_of (self.now).tables) true ordinal
            (digits_value 10 (digits_in reference.entry.word.now))
            (is_ahead reference.entry.word.now) }
    {
        if reference.is_forward() {
            self.forward(ordinal, reference.digits())
        } else {
            self.backward(ordinal, reference.digits())
        }
    }

    /// What the nearest numeric label before means.
    fn backward(&self, ordinal: u32, digits: &[u8]) -> SymbolMeaning
        ensures { IsIndexed (self.now).tables → (o : ℕ) →
            IsBefore (tables_of (self.now).tables) o →
            meaning_of result
            ≡ laws.backward_in (laws.opened_of (tables_of (self.now).tables))
            (laws.numeric_label_before (tables_of (self.now).tables).numeric_labels ordinal
            (digits_value 10 digits.now)) }
    {
        match self.tables.numeric_label_before(ordinal, digits) {
            Some(numeric_label) => self.tables.stands(numeric_label.place),
            None => SymbolMeaning::UndefinedLocal,
        }
    }

    /// What the nearest numeric label after means.
    fn forward(&self, ordinal: u32, digits: &[u8]) -> SymbolMeaning
        ensures { IsIndexed (self.now).tables → (o : ℕ) →
            IsBefore (tables_of (self.now).tables) o →
            meaning_of result
            ≡ laws.forward_in (laws.opened_of (tables_of (self.now).tables)) true
            (laws.numeric_label_after (tables_of (self.now).tables).numeric_labels ordinal
            (digits_value 10 digits.now)) }
    {
        match self.tables.numeric_label_after(ordinal, digits) {
            Some(numeric_label) => self.tables.stands(numeric_label.place),
            None => SymbolMeaning::UndefinedLocal,
        }
    }

    /// What a symbol means in the statement of an ordinal, which stands at the offset, where later definitions do not count.
    pub(crate) fn early_meaning(
        &self,
        ordinal: u32,
        place: SectionOffset,
        symbol: Symbol<'_>,
    ) -> SymbolMeaning
        ensures { (o : ℕ) → IsFilled self.now → ordinal ≡ o →
            meaning_of result
            ≡ laws.meaning (laws.tables (said self.now)) false o (offset_of place)
            (symbol_of symbol.entry) }
    {
        match symbol {
            Symbol::Name(name) => self.early_named(ordinal, name),
            Symbol::Here => self.tables.stands(place),
            Symbol::Reference(reference) => self.early_referred(ordinal, reference),
        }
    }

    /// The value of an expression of that statement, where later definitions do not count.
    pub(crate) fn early_value(
        &self,
        ordinal: u32,
        place: SectionOffset,
        expression: &Expr<'a>,
    ) -> Result<Value<'a>, SourceFault>
        ensures { (o : ℕ) → IsFilled self.now → ordinal ≡ o →
            IsOutcome result 0
            (laws.value_by_tables (laws.tables (said self.now)) false o (offset_of place)
            (tree_of_expr expression.now)) }
    {
        self.answer(Question::Early, ordinal, place, expression, 0)
    }

    /// What a name means by what is defined before.
    fn early_named(&self, ordinal: u32, name: &[u8]) -> SymbolMeaning
        ensures { IsIndexed (self.now).tables → (o : ℕ) →
            IsBefore (tables_of (self.now).tables) o →
            meaning_of result ≡ laws.named (tables_of (self.now).tables) false ordinal name.now }
    {
        self.tables
            .weakened(name, self.early_own_named(ordinal, name))
    }

    /// What a name means in its own file, by what is defined before.
    fn early_own_named(&self, ordinal: u32, name: &[u8]) -> SymbolMeaning
        ensures { IsIndexed (self.now).tables → (o : ℕ) →
            IsBefore (tables_of (self.now).tables) o →
            meaning_of result
            ≡ laws.own_named (tables_of (self.now).tables) false ordinal name.now }
    {
        match self.tables.assignment_before(ordinal, name) {
            Some(assignment) => assignment.meaning,
            None => self.early_labelled(ordinal, name),
        }
    }

    /// What a name means that is not set before.
    fn early_labelled(&self, ordinal: u32, name: &[u8]) -> SymbolMeaning
        ensures { IsIndexed (self.now).tables → (o : ℕ) →
            IsBefore (tables_of (self.now).tables) o →
            meaning_of result
            ≡ laws.labelled (laws.opened_of (tables_of (self.now).tables))
            (laws.label_of (tables_of (self.now).tables).labels false ordinal name.now) Open }
    {
        match self.tables.label_before(ordinal, name) {
            Some(label) => self.tables.stands(label.place),
            None => SymbolMeaning::Open,
        }
    }

    /// What the numeric label of a reference means, where one after is no constant.
    fn early_referred(&self, ordinal: u32, reference: NumericReference<'_>) -> SymbolMeaning
        ensures { IsIndexed (self.now).tables → (o : ℕ) →
            IsBefore (tables_of (self.now).tables) o →
            meaning_of result
            ≡ laws.referred (tables_of (self.now).tables) false ordinal
            (digits_value 10 (digits_in reference.entry.word.now))
            (is_ahead reference.entry.word.now) }
    {
        if reference.is_forward() {
            self.early_forward(ordinal, reference.digits())
        } else {
            self.backward(ordinal, reference.digits())
        }
    }

    /// What a numeric label after means: no constant, if there is one.
    fn early_forward(&self, ordinal: u32, digits: &[u8]) -> SymbolMeaning
        ensures { IsIndexed (self.now).tables → (o : ℕ) →
            IsBefore (tables_of (self.now).tables) o →
            meaning_of result
            ≡ laws.forward_in (laws.opened_of (tables_of (self.now).tables)) false
            (laws.numeric_label_after (tables_of (self.now).tables).numeric_labels ordinal
            (digits_value 10 digits.now)) }
    {
        match self.tables.numeric_label_after(ordinal, digits) {
            Some(_) => SymbolMeaning::NotConstant,
            None => SymbolMeaning::UndefinedLocal,
        }
    }

    /// Whether a label or an assignment has the name before an ordinal. The name may be that of the label of this index.
    pub(crate) fn is_defined_before(&self, ordinal: u32, labels: usize, name: &[u8]) -> bool
        ensures { IsIndexed (self.now).tables → (o : ℕ) → IsBefore (tables_of (self.now).tables) o
            → IsApart (tables_of (self.now).tables)
            → result ≡ laws.is_defined (tables_of (self.now).tables) ordinal name.now }
    {
        match self.tables.label_hinted(labels, name) {
            Some(label) => label.ordinal < ordinal,
            None => self.tables.assignment_before(ordinal, name).is_some(),
        }
    }

    /// Whether a label or a location has the name before an ordinal.
    pub(crate) fn has_location_before(&self, ordinal: u32, name: &[u8]) -> bool
        ensures { IsIndexed (self.now).tables → (o : ℕ) → IsBefore (tables_of (self.now).tables) o
            → result
            ≡ (is_some (laws.label_of (tables_of (self.now).tables).labels false ordinal name.now)
            || laws.gives_location
            (laws.assigned_before (tables_of (self.now).tables).assignments ordinal name.now)) }
    {
        if self.tables.label_before(ordinal, name).is_some() {
            return true;
        }
        match self.tables.assignment_before(ordinal, name) {
            Some(assignment) => assignment.is_location(),
            None => false,
        }
    }

    /// What a symbol means in the statement of an ordinal by the statements before it alone, where nothing comes after it.
    fn past_meaning(&self, ordinal: u32, place: SectionOffset, symbol: Symbol<'_>) -> SymbolMeaning
        ensures { (index : ℕ) → IsFilled self.now → index ≤ length (said self.now) →
            ordinal ≡ index + 1 →
            place.section < length (laws.opened_of (passed (said self.now) index)).sections
            → meaning_of result
            ≡ laws.meaning (passed (said self.now) index) false (index + 1) (offset_of place)
            (symbol_of symbol.entry) }
    {
        if comes_after(symbol) {
            return SymbolMeaning::UndefinedLocal;
        }
        self.early_meaning(ordinal, place, symbol)
    }

    /// The value of an expression of that statement by the statements before it alone.
    pub(crate) fn past_value(
        &self,
        ordinal: u32,
        place: SectionOffset,
        expression: &Expr<'a>,
    ) -> Result<Value<'a>, SourceFault>
        ensures { (index : ℕ) → IsFilled self.now → index ≤ length (said self.now) →
            ordinal ≡ index + 1 →
            place.section < length (laws.opened_of (passed (said self.now) index)).sections
            → IsOutcome result 0
            (laws.value_by_tables (passed (said self.now) index) false (index + 1) (offset_of place)
            (tree_of_expr expression.now)) }
    {
        self.answer(Question::Past, ordinal, place, expression, 0)
    }

    /// What a symbol means in that statement, as is asked.
    fn told(
        &self,
        question: Question,
        ordinal: u32,
        place: SectionOffset,
        symbol: Symbol<'_>,
    ) -> SymbolMeaning
        ensures whole { question ≡ Whole → (o : ℕ) → IsFilled self.now → ordinal ≡ o →
            meaning_of result
            ≡ laws.meaning (laws.tables (said self.now)) true o (offset_of place)
            (symbol_of symbol.entry) }
        ensures early { question ≡ Early → (o : ℕ) → IsFilled self.now → ordinal ≡ o →
            meaning_of result
            ≡ laws.meaning (laws.tables (said self.now)) false o (offset_of place)
            (symbol_of symbol.entry) }
        ensures past { question ≡ Past → (index : ℕ) → IsFilled self.now →
            index ≤ length (said self.now) → ordinal ≡ index + 1 →
            place.section < length (laws.opened_of (passed (said self.now) index)).sections
            → meaning_of result
            ≡ laws.meaning (passed (said self.now) index) false (index + 1) (offset_of place)
            (symbol_of symbol.entry) }
    {
        match question {
            Question::Whole => self.meaning(ordinal, place, symbol),
            Question::Early => self.early_meaning(ordinal, place, symbol),
            Question::Past => self.past_meaning(ordinal, place, symbol),
        }
    }

    /// The value of an expression of that statement, as is asked; a fault has this line.
    fn answer<'e>(
        &self,
        question: Question,
        ordinal: u32,
        place: SectionOffset,
        expression: &Expr<'e>,
        line: u32,
    ) -> Result<Value<'e>, SourceFault>
        ensures whole { question ≡ Whole → (o : ℕ) → IsFilled self.now → ordinal ≡ o →
            IsOutcome result line
            (laws.value_by_tables (laws.tables (said self.now)) true o (offset_of place)
            (tree_of_expr expression.now)) }
        ensures early { question ≡ Early → (o : ℕ) → IsFilled self.now → ordinal ≡ o →
            IsOutcome result line
            (laws.value_by_tables (laws.tables (said self.now)) false o (offset_of place)
            (tree_of_expr expression.now)) }
        ensures past { question ≡ Past → (index : ℕ) → IsFilled self.now →
            index ≤ length (said self.now) → ordinal ≡ index + 1 →
            place.section < length (laws.opened_of (passed (said self.now) index)).sections
            → IsOutcome result line
            (laws.value_by_tables (passed (said self.now) index) false (index + 1) (offset_of place)
            (tree_of_expr expression.now)) }
    {
        symbolic_value(
            expression,
            line,
            &|symbol| { self.told(question, ordinal, place, symbol) },
        )
    }
}
