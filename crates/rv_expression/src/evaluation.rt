//! The value of an expression.
//!
//! An expression is evaluated wherever its value is wanted, for faults, sizes and code, so it may not want memory: its
//! values stand in an array, and that 200 are enough for every nesting that is read is proved. The cells of an array
//! are written before they are used. So one operator on two operands is computed without it, as in the distance of two
//! labels, and most others with a small one.

ghost use Rattle.std.specs.Prelude.{◌≡◌, ℕ, List, ◌<◌, ◌≤◌, ◌+◌, ◌++◌, [], ◌∷◌, true, length, min, IfSome};
ghost use Rattle.rv_expression_laws.specs.Expression.{Primary, tree_of};
ghost use Rattle.rv_expression_laws.specs.Values as values;
ghost use Rattle.rv_expression_laws.specs.declared.operator.BinaryOperator.TheVariants.{Divide, Remainder};
ghost use Rattle.rv_fault.specs.SourceFault.{source_fault_number};
ghost use Rattle.rv_expression.specs.Nodes.{symbol_of, spelling_of, node_of, nodes_of};
ghost use Rattle.rv_expression.specs.Expr.{tree_of_expr};
ghost use Rattle.rv_expression.specs.Eval.{meaning_of, name_meaning_of, part_value, tops, Means, MeansWords, IsOutcome};

use crate::expr::Expr;
use crate::node::{Node, Nodes, Symbol};
use crate::pair::{Pair, SymbolPair};
use arrayvec::ArrayVec;
use rv_expression_laws::{BinaryOperator, UnaryOperator};
use rv_fault::{SourceCode, SourceFault};

/// The most values that wait for an operator, in an expression that is read.
const MOST_VALUES: usize = 200;

/// The most values that wait for an operator in most expressions: there is less room to be cleared.
const FEW_VALUES: usize = 8;

/// What a name, `.` or a numeric reference means.
#[derive(Clone, Copy, Drop)]
pub enum Meaning {
    /// A number.
    Constant(u64),
    /// In a data section, whose statements keep their distances: the section's index, and the offset in bytes.
    InSection(u32, u64),
    /// An address that is not known yet.
    Open,
}

/// What a symbol means where it stands, or why it means nothing.
#[derive(Clone, Copy, Drop)]
pub enum SymbolMeaning {
    /// A number.
    Constant(u64),
    /// In a section whose statements keep their distances: the section's index, and the offset in bytes.
    InSection(u32, u64),
    /// An address that is not known yet.
    Open,
    /// A constant that is used before it is set.
    NotConstant,
    /// A numeric label that does not come.
    UndefinedLocal,
}

/// The value of an expression.
#[derive(Clone, Copy, Drop)]
pub enum Value<'a> {
    /// A number, modulo 2^64.
    Constant(u64),
    /// A symbol, and a number to be added.
    Symbolic(Symbol<'a>, u64),
    /// The difference of two symbols, and a number to be added.
    Difference(Symbol<'a>, Symbol<'a>, u64),
}

/// The value of a part of an expression, or why it has none.
#[derive(Clone, Copy, Drop)]
pub(crate) enum Part<'a> {
    Constant(u64),
    Symbolic(Symbol<'a>, SymbolMeaning, u64),
    Difference(Symbol<'a>, Symbol<'a>, u64),
    Faulty(SourceCode),
}

impl Default for Part<'_> {
    fn default() -> Self {
        Part::Constant(0)
    }
}

/// The fault with the lower number.
fn lower(first: SourceCode, second: SourceCode) -> SourceCode
    ensures { source_fault_number result
        ≡ min (source_fault_number first) (source_fault_number second) }
{
    if first.number() <= second.number() {
        first
    } else {
        second
    }
}

/// The quotient of two signed numbers, truncated.
fn divide<'a>(a: u64, b: u64) -> Part<'a>
    ensures { part_value result ≡ values.arithmetic Divide a b }
{
    if b == 0 {
        Part::Faulty(SourceCode::DivisionByZero)
    } else {
        Part::Constant(
            a.cast_signed()
                .wrapping_div(b.cast_signed())
                .cast_unsigned(),
        )
    }
}

/// What the quotient leaves.
fn remainder<'a>(a: u64, b: u64) -> Part<'a>
    ensures { part_value result ≡ values.arithmetic Remainder a b }
{
    if b == 0 {
        Part::Faulty(SourceCode::DivisionByZero)
    } else {
        Part::Constant(
            a.cast_signed()
                .wrapping_rem(b.cast_signed())
                .cast_unsigned(),
        )
    }
}

/// An operator on two constants.
fn arithmetic<'a>(operator: BinaryOperator, a: u64, b: u64) -> Part<'a>
    ensures { part_value result ≡ values.arithmetic operator a b }
{
    match operator {
        BinaryOperator::Multiply => Part::Constant(a.wrapping_mul(b)),
        BinaryOperator::Divide => divide(a, b),
        BinaryOperator::Remainder => remainder(a, b),
        BinaryOperator::ShiftLeft if b < 64 => Part::Constant(a << b),
        BinaryOperator::ShiftRight if b < 64 => Part::Constant(a >> b),
        BinaryOperator::ShiftLeft | BinaryOperator::ShiftRight => {
            Part::Faulty(SourceCode::ShiftTooLarge)
        }
        BinaryOperator::Or => Part::Constant(a | b),
        BinaryOperator::And => Part::Constant(a & b),
        BinaryOperator::ExclusiveOr => Part::Constant(a ^ b),
        BinaryOperator::Add => Part::Constant(a.wrapping_add(b)),
        BinaryOperator::Subtract => Part::Constant(a.wrapping_sub(b)),
    }
}

/// The fault of an operator by its right operand, where the left one is no constant.
fn operand_fault(operator: BinaryOperator, b: u64) -> SourceCode
    ensures { source_fault_number result ≡ values.operand_fault operator b }
{
    match operator {
        BinaryOperator::Divide | BinaryOperator::Remainder if b == 0 => SourceCode::DivisionByZero,
        BinaryOperator::ShiftLeft | BinaryOperator::ShiftRight if b >= 64 => {
            SourceCode::ShiftTooLarge
        }
        _ => SourceCode::NotConstant,
    }
}

/// An operator on operands of which one is no constant; of several faults the lowest counts.
fn refused<'a>(operator: BinaryOperator, left: Part<'a>, right: Part<'a>) -> Part<'a>
    ensures { part_value result
        ≡ values.refused operator (part_value left.entry) (part_value right.entry) }
{
    match (left, right) {
        (Part::Faulty(code), Part::Faulty(other)) => Part::Faulty(lower(code, other)),
        (Part::Faulty(code), Part::Constant(b)) => Part::Faulty(lower(
            code,
            operand_fault(operator, b),
        )),
        (Part::Faulty(code), _) => Part::Faulty(code),
        (_, Part::Faulty(code)) => Part::Faulty(code),
        (_, Part::Constant(b)) => Part::Faulty(operand_fault(operator, b)),
        _ => Part::Faulty(SourceCode::NotConstant),
    }
}

/// The difference of two symbols: in one section a constant.
fn apart<'a>(
    left: (Symbol<'a>, SymbolMeaning),
    right: (Symbol<'a>, SymbolMeaning),
    plus: u64,
) -> Part<'a>
    ensures { part_value result
        ≡ values.apart (meaning_of left.entry.1) (meaning_of right.entry.1)
        (symbol_of left.entry.0) (symbol_of right.entry.0) plus }
{
    match (left, right) {
        ((_, SymbolMeaning::InSection(section, a)), (_, SymbolMeaning::InSection(other, b)))
            if section == other => { Part::Constant(plus.wrapping_add(a.wrapping_sub(b))) }
        ((symbol, _), (minus, _)) => Part::Difference(symbol, minus, plus),
    }
}

/// The sum of two parts.
fn sum<'a>(left: Part<'a>, right: Part<'a>) -> Part<'a>
    ensures { part_value result ≡ values.sum (part_value left.entry) (part_value right.entry) }
{
    match (left, right) {
        (Part::Constant(a), Part::Constant(b)) => Part::Constant(a.wrapping_add(b)),
        (Part::Constant(a), Part::Symbolic(symbol, at, plus))
        | (Part::Symbolic(symbol, at, plus), Part::Constant(a)) => {
            Part::Symbolic(symbol, at, plus.wrapping_add(a))
        }
        (Part::Constant(a), Part::Difference(symbol, minus, plus))
        | (Part::Difference(symbol, minus, plus), Part::Constant(a)) => {
            Part::Difference(symbol, minus, plus.wrapping_add(a))
        }
        _ => refused(BinaryOperator::Add, left, right),
    }
}

/// The difference of two parts.
fn difference<'a>(left: Part<'a>, right: Part<'a>) -> Part<'a>
    ensures { part_value result
        ≡ values.difference (part_value left.entry) (part_value right.entry) }
{
    match (left, right) {
        (Part::Constant(a), Part::Constant(b)) => Part::Constant(a.wrapping_sub(b)),
        (Part::Symbolic(symbol, at, plus), Part::Constant(b)) => {
            Part::Symbolic(symbol, at, plus.wrapping_sub(b))
        }
        (Part::Difference(symbol, minus, plus), Part::Constant(b)) => {
            Part::Difference(symbol, minus, plus.wrapping_sub(b))
        }
        (Part::Symbolic(symbol, at, plus), Part::Symbolic(minus, other, less)) => {
            apart((symbol, at), (minus, other), plus.wrapping_sub(less))
        }
        _ => refused(BinaryOperator::Subtract, left, right),
    }
}

/// An operator that takes constants alone.
fn constants<'a>(operator: BinaryOperator, left: Part<'a>, right: Part<'a>) -> Part<'a>
    ensures { part_value result
        ≡ values.constants_alone operator (part_value left.entry) (part_value right.entry) }
{
    match (left, right) {
        (Part::Constant(a), Part::Constant(b)) => arithmetic(operator, a, b),
        _ => refused(operator, left, right),
    }
}

/// An operator on two parts.
fn both<'a>(operator: BinaryOperator, left: Part<'a>, right: Part<'a>) -> Part<'a>
    ensures { part_value result
        ≡ values.both operator (part_value left.entry) (part_value right.entry) }
{
    match operator {
        BinaryOperator::Add => sum(left, right),
        BinaryOperator::Subtract => difference(left, right),
        _ => constants(operator, left, right),
    }
}

/// An operator on one part.
fn alone<'a>(operator: UnaryOperator, part: Part<'a>) -> Part<'a>
    ensures { part_value result ≡ values.unary_value operator (part_value part.entry) }
{
    match (operator, part) {
        (UnaryOperator::Keep, _) => part,
        (UnaryOperator::Negate, Part::Constant(a)) => Part::Constant(0u64.wrapping_sub(a)),
        (UnaryOperator::Complement, Part::Constant(a)) => Part::Constant(!a),
        (_, Part::Faulty(code)) => Part::Faulty(code),
        _ => Part::Faulty(SourceCode::NotConstant),
    }
}

/// A symbol with this meaning.
fn meant<'a>(symbol: Symbol<'a>, meaning: SymbolMeaning) -> Part<'a>
    ensures { part_value result ≡ values.meant (symbol_of symbol.entry) (meaning_of meaning) }
{
    match meaning {
        SymbolMeaning::Constant(number) => Part::Constant(number),
        SymbolMeaning::NotConstant => Part::Faulty(SourceCode::NotConstant),
        SymbolMeaning::UndefinedLocal => Part::Faulty(SourceCode::UndefinedLocal),
        SymbolMeaning::InSection(..) | SymbolMeaning::Open => Part::Symbolic(symbol, meaning, 0),
    }
}

/// The part as a value, or as a fault of this line.
fn outcome<'a>(part: Part<'a>, line: u32) -> Result<Value<'a>, SourceFault>
    ensures { IsOutcome result line (part_value part.entry) }
{
    match part {
        Part::Constant(number) => Ok(Value::Constant(number)),
        Part::Symbolic(symbol, _, plus) => Ok(Value::Symbolic(symbol, plus)),
        Part::Difference(symbol, minus, plus) => Ok(Value::Difference(symbol, minus, plus)),
        Part::Faulty(code) => Err(SourceFault::At { code, line }),
    }
}

/// The last value of a stack.
fn pop<'a>(stack: &mut ArrayVec<Part<'a>, MOST_VALUES>) -> Part<'a>
    requires { 0 < length stack.old.items }
    ensures items { stack.old.items ≡ stack.new.items ++ result ∷ [] }
    ensures len { length stack.new.items + 1 ≡ length stack.old.items }
{
    stack.pop().unwrap()
}

/// The values after a node.
fn step<'a, F: Fn(Symbol<'a>) -> SymbolMeaning>(
    stack: &mut ArrayVec<Part<'a>, MOST_VALUES>,
    node: Node<'a>,
    names: &F,
)
    requires callable { F.IsAlwaysCallable names.now }
    requires fits { values.node_fits (node_of node) (length stack.old.items) ≡ true }
    requires room { length stack.old.items ≤ values.most_values }
    ensures values { (m : Primary → values.Meaning) → Means (F.post names.now) m →
        tops stack.new.items ≡ values.after_node m (node_of node.entry) (tops stack.old.items) }
    ensures count { length stack.new.items
        ≡ values.count_after (node_of node.entry) (length stack.old.items) }
    ensures room { length stack.new.items ≤ values.most_values }
{
    match node {
        Node::Number(number) => stack.push(Part::Constant(number)),
        Node::Symbol(symbol) => stack.push(meant(symbol, names(symbol))),
        Node::Unary(operator) => {
            let operand = pop(stack);
            stack.push(alone(operator, operand));
        }
        Node::Binary(operator) => {
            let right = pop(stack);
            let left = pop(stack);
            stack.push(both(operator, left, right));
        }
    }
}

/// The value of a symbol that stands alone.
fn lone<'a, F: Fn(Symbol<'a>) -> SymbolMeaning>(symbol: Symbol<'a>, names: &F) -> Part<'a>
    requires { F.IsAlwaysCallable names.now }
    ensures { (m : Primary → values.Meaning) → Means (F.post names.now) m →
        part_value result ≡ values.primary_value m (symbol_of symbol.entry) }
{
    meant(symbol, names(symbol))
}

/// The value of the nodes.
fn evaluate<'a, F: Fn(Symbol<'a>) -> SymbolMeaning>(nodes: &Nodes<'a>, names: &F) -> Part<'a>
    requires callable { F.IsAlwaysCallable names.now }
    requires fits { values.nodes_fit (nodes_of nodes.now) 0 ≡ true }
    ensures { (m : Primary → values.Meaning) → Means (F.post names.now) m →
        part_value result ≡ values.value_of m (tree_of (nodes_of nodes.now)) }
{
    let mut stack: ArrayVec<Part<'a>, MOST_VALUES> = ArrayVec::new();
    step(&mut stack, nodes.first, names);
    for node in &nodes.rest {
        step(&mut stack, *node, names);
    }
    pop(&mut stack)
}

/// One value more, where there is room.
fn push_few<'a>(stack: &mut ArrayVec<Part<'a>, FEW_VALUES>, part: Part<'a>) -> Option<()>
    ensures { IfSome result (λ _. stack.new.items ≡ stack.old.items ++ part.entry ∷ []) }
{
    if stack.is_full() {
        return None;
    }
    stack.push(part);
    Some(())
}

/// The last of few values, where there is one.
fn pop_few<'a>(stack: &mut ArrayVec<Part<'a>, FEW_VALUES>) -> Option<Part<'a>>
    ensures { IfSome result (λ part. stack.old.items ≡ stack.new.items ++ part ∷ []) }
{
    stack.pop()
}

/// The few values after a node, where there is room for them.
fn step_few<'a, F: Fn(Symbol<'a>) -> SymbolMeaning>(
    stack: &mut ArrayVec<Part<'a>, FEW_VALUES>,
    node: Node<'a>,
    names: &F,
) -> Option<()>
    requires { F.IsAlwaysCallable names.now }
    ensures { IfSome result
        (λ _. (m : Primary → values.Meaning) → Means (F.post names.now) m →
        tops stack.new.items ≡ values.after_node m (node_of node.entry) (tops stack.old.items)) }
{
    match node {
        Node::Number(number) => push_few(stack, Part::Constant(number)),
        Node::Symbol(symbol) => push_few(stack, lone(symbol, names)),
        Node::Unary(operator) => {
            let operand = pop_few(stack)?;
            push_few(stack, alone(operator, operand))
        }
        Node::Binary(operator) => {
            let right = pop_few(stack)?;
            let left = pop_few(stack)?;
            push_few(stack, both(operator, left, right))
        }
    }
}

/// The value of the nodes, where few values wait for an operator, as in most expressions.
fn value_of_few<'a, F: Fn(Symbol<'a>) -> SymbolMeaning>(
    nodes: &Nodes<'a>,
    names: &F,
) -> Option<Part<'a>>
    requires callable { F.IsAlwaysCallable names.now }
    requires fits { values.nodes_fit (nodes_of nodes.now) 0 ≡ true }
    ensures { IfSome result
        (λ part. (m : Primary → values.Meaning) → Means (F.post names.now) m →
        part_value part ≡ values.value_of m (tree_of (nodes_of nodes.now))) }
{
    let mut stack: ArrayVec<Part<'a>, FEW_VALUES> = ArrayVec::new();
    step_few(&mut stack, nodes.first, names)?;
    for node in &nodes.rest {
        step_few(&mut stack, *node, names)?;
    }
    pop_few(&mut stack)
}

/// The value of a symbol and a number under their operator.
fn pair_value<'a, F: Fn(Symbol<'a>) -> SymbolMeaning>(pair: &Pair<'a>, names: &F) -> Part<'a>
    requires { F.IsAlwaysCallable names.now }
    ensures { (m : Primary → values.Meaning) → Means (F.post names.now) m →
        part_value result
        ≡ values.both pair.now.operator (values.primary_value m (symbol_of pair.now.symbol))
        (values.Constant pair.now.number) }
{
    both(
        pair.operator,
        lone(pair.symbol, names),
        Part::Constant(pair.number),
    )
}

/// The value of two symbols under their operator.
fn symbols_value<'a, F: Fn(Symbol<'a>) -> SymbolMeaning>(
    pair: &SymbolPair<'a>,
    names: &F,
) -> Part<'a>
    requires { F.IsAlwaysCallable names.now }
    ensures { (m : Primary → values.Meaning) → Means (F.post names.now) m →
        part_value result
        ≡ values.both pair.now.operator (values.primary_value m (symbol_of pair.now.left))
        (values.primary_value m (symbol_of pair.now.right)) }
{
    both(
        pair.operator,
        lone(pair.left, names),
        lone(pair.right, names),
    )
}

/// The value of the nodes of an expression with operators.
fn compound_value<'a, F: Fn(Symbol<'a>) -> SymbolMeaning>(nodes: &Nodes<'a>, names: &F) -> Part<'a>
    requires callable { F.IsAlwaysCallable names.now }
    requires fits { values.nodes_fit (nodes_of nodes.now) 0 ≡ true }
    ensures { (m : Primary → values.Meaning) → Means (F.post names.now) m →
        part_value result ≡ values.value_of m (tree_of (nodes_of nodes.now)) }
{
    match value_of_few(nodes, names) {
        Some(part) => part,
        None => evaluate(nodes, names),
    }
}

/// The value of an expression, by what its symbols mean; a fault has this line, and of several the lowest number counts.
/// A unit calls this and not `eval`, since it knows more than words: constants not set yet, numeric labels that do not come.
pub fn symbolic_value<'a, F: Fn(Symbol<'a>) -> SymbolMeaning>(
    expr: &Expr<'a>,
    line: u32,
    names: &F,
) -> Result<Value<'a>, SourceFault>
    requires { F.IsAlwaysCallable names.now }
    ensures { (m : Primary → values.Meaning) → Means (F.post names.now) m →
        IsOutcome result line (values.value_of m (tree_of_expr expr.now)) }
{
    match expr {
        Expr::Number(number) => Ok(Value::Constant(*number)),
        Expr::Name(name) => outcome(lone(Symbol::Name(name), names), line),
        Expr::Here => outcome(lone(Symbol::Here, names), line),
        Expr::Reference(reference) => outcome(lone(Symbol::Reference(*reference), names), line),
        Expr::Negative(number) => Ok(Value::Constant(0u64.wrapping_sub(*number))),
        Expr::NamePair(operator, number, name) => {
            let pair = Pair {
                symbol: Symbol::Name(name),
                operator: *operator,
                number: u64::from(*number),
            };
            outcome(pair_value(&pair, names), line)
        }
        Expr::Pair(pair) => outcome(pair_value(pair, names), line),
        Expr::SymbolPair(pair) => outcome(symbols_value(pair, names), line),
        Expr::Compound(compound) => outcome(compound_value(&compound.nodes, names), line),
    }
}

/// The meaning of a symbol that has one.
fn settled(meaning: Meaning) -> SymbolMeaning
    ensures { meaning_of result ≡ name_meaning_of meaning }
{
    match meaning {
        Meaning::Constant(number) => SymbolMeaning::Constant(number),
        Meaning::InSection(section, offset) => SymbolMeaning::InSection(section, offset),
        Meaning::Open => SymbolMeaning::Open,
    }
}

/// The value of an expression, by what its names, `.` and its numeric references mean, each as it is written: `1b` with
/// its letter. A fault has this line, and of several the lowest number counts.
pub fn eval<'a, F: Fn(&[u8]) -> Meaning>(
    expr: &Expr<'a>,
    line: u32,
    names: &F,
) -> Result<Value<'a>, SourceFault>
    requires { F.IsAlwaysCallable names.now }
    ensures { (m : List ℕ → values.Meaning) → MeansWords (F.post names.now) m →
        IsOutcome result line
        (values.value_of (λ p. m (spelling_of p)) (tree_of_expr expr.now)) }
{
    symbolic_value(expr, line, &|symbol| { settled(names(symbol.spelling())) })
}
