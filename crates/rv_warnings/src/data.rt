//! Data that is not as it is written: numbers without room, sections that are not loaded, and what these refer to.

use crate::effect::is_instruction;
use crate::facts::Facts;
use crate::warning::{Doubt, Warning, put};
use rv_expression::{Expr, Value};
use rv_statement::{Opening, Statement, StatementKind, Width};
use rv_unit::{Scope, Section, SectionOffset};
use std::alloc::{AllocError, Global};

/// Adds the numbers in data that have no room there.
pub(crate) fn put_cut<'a>(
    facts: &Facts<'a>,
    room: &mut Statement<'a>,
    found: &mut Vec<Warning>,
) -> Result<(), AllocError> {
    let statements = facts.unit.statements();
    for index in 0..statements.len() {
        let statement = statements.read(index, room);
        if let Some(doubt) = cut_in(facts, &statement.kind) {
            put(found, doubt, index)?;
        }
    }
    Ok(())
}

/// The first number of a statement that has no room.
fn cut_in<'a>(facts: &Facts<'a>, kind: &StatementKind<'a>) -> Option<Doubt> {
    match kind {
        StatementKind::Value(width, expression) => cut_of(facts, *width, expression),
        StatementKind::Values(width, expressions) => {
            for expression in expressions {
                let found = cut_of(facts, *width, expression);
                if found.is_some() {
                    return found;
                }
            }
            None
        }
        _ => None,
    }
}

/// A number that has no room in so many bytes, with a sign or without.
fn cut_of<'a>(facts: &Facts<'a>, width: Width, expression: &Expr<'a>) -> Option<Doubt> {
    let number = facts.number(expression)?;
    let most: u64 = match width {
        Width::Byte => 0xFF,
        Width::Half => 0xFFFF,
        Width::Word => 0xFFFF_FFFF,
        Width::Double => return None,
    };
    let least = (most / 2).wrapping_add(1).wrapping_neg();
    if most < number && number < least {
        Some(Doubt::Cut(width, number))
    } else {
        None
    }
}

/// Adds the sections whose bytes are not loaded, for want of flags.
pub(crate) fn put_unloaded<'a>(
    facts: &Facts<'a>,
    room: &mut Statement<'a>,
    found: &mut Vec<Warning>,
) -> Result<(), AllocError> {
    let mut opened: Option<usize> = None;
    let statements = facts.unit.statements();
    for index in 0..statements.len() {
        let statement = statements.read(index, room);
        match &statement.kind {
            StatementKind::Enters(_) => opened = None,
            StatementKind::Opens(opening) => {
                opened = if is_unloaded(opening) {
                    Some(index)
                } else {
                    None
                };
            }
            kind => {
                if let Some(first) = opened
                    && has_bytes(kind)
                {
                    put(found, Doubt::Unloaded, first)?;
                    opened = None;
                }
            }
        }
    }
    Ok(())
}

/// Whether a section is opened without flags, and its name has none; those of notes, debuggers and tools are to be so.
fn is_unloaded(opening: &Opening<'_>) -> bool {
    if opening.flags.is_some() || opening.kind.is_some() || is_of_tools(opening.name) {
        return false;
    }
    !Section::of(opening.name, None, None).loaded
}

/// Whether a section is for tools.
fn is_of_tools(name: &[u8]) -> bool {
    name.starts_with(b".note")
        || name.starts_with(b".debug")
        || name.starts_with(b".comment")
        || name.starts_with(b".stab")
        || name.starts_with(b".riscv")
        || name.starts_with(b".gnu")
}

/// Adds the first value of each section that is not loaded of which nothing is kept, since it is no number.
pub(crate) fn put_lost<'a>(
    alloc: Global,
    facts: &Facts<'a>,
    room: &mut Statement<'a>,
    found: &mut Vec<Warning>,
) -> Result<(), AllocError> {
    let mut told: Vec<u32> = Vec::new(alloc);
    let mut scope = Scope::new(&facts.unit);
    let statements = facts.unit.statements();
    for index in 0..statements.len() {
        let statement = statements.read(index, room);
        if let Some(section) = facts.section(index)
            && !facts.is_loaded(section)
            && !told.contains(&section)
            && is_lost(facts, &scope, index, &statement.kind)
        {
            put(found, Doubt::Lost, index)?;
            told.push(section)?;
        }
        scope.pass();
    }
    Ok(())
}

/// Whether a statement, the next one of the scope, has a value that is no number.
fn is_lost<'a>(
    facts: &Facts<'a>,
    scope: &Scope<'_, 'a>,
    index: usize,
    kind: &StatementKind<'a>,
) -> bool {
    let Some(place) = facts.unit.places().get(index) else {
        return false;
    };
    match kind {
        StatementKind::Value(_, expression) => is_open(scope, *place, expression),
        StatementKind::Values(_, expressions) => {
            for expression in expressions {
                if is_open(scope, *place, expression) {
                    return true;
                }
            }
            false
        }
        _ => false,
    }
}

/// Whether an expression of the next statement of the scope is no number.
fn is_open<'a>(scope: &Scope<'_, 'a>, place: SectionOffset, expression: &Expr<'a>) -> bool {
    match scope.value(place, expression, 1) {
        Ok(Value::Constant(_)) | Err(_) => false,
        Ok(_) => true,
    }
}

/// Whether a statement has bytes.
fn has_bytes(kind: &StatementKind<'_>) -> bool {
    let is_data = matches!(
        kind,
        StatementKind::Value(..)
            | StatementKind::Values(..)
            | StatementKind::Ascii(_)
            | StatementKind::Asciz(_)
            | StatementKind::Zeros(_)
    );
    is_data || is_instruction(kind)
}
