//! The first fault of a source with its place, as those who show it want it.
//!
//! The passes behind the parser tell a fault's statement by its line, of which several may stand on one. Here each
//! statement has its ordinal as its line, so that the same passes tell the statement.

ghost use Rattle.std.specs.Prelude.{◌≡◌, ◌≤◌, ◌-◌, ℕ, List, None, length, map, slice_index, IfOk, IfErr, IfSome, IfNone};
ghost use Rattle.rv_fault.specs.declared.source_fault.SourceFault.TheVariants.{At};
ghost use Rattle.rv_statement_laws.specs.Limits.{most_statements};
ghost use Rattle.rv_statement_laws.specs.Statement.{Statement as SpecStatement};
ghost use Rattle.rv_statement.specs.View.{statement_of};
ghost use Rattle.rv_parse_laws.specs.Reading.{Reads};
ghost use Rattle.rv_parse.specs.Left.{RefusedAt};
ghost use Rattle.rv_parse.specs.Offsets.{BeginIn};
ghost use Rattle.rv_assemble_laws.specs.Refusals.{statements_fault};
ghost use Rattle.rv_assemble_laws.specs.FirstFault.{IsFirstFault};
ghost use Rattle.rv_assemble.specs.declared.placed.Culprit.TheVariants.{Statement as Faulty};
ghost use Rattle.rv_assemble.specs.Ordinals.{by_ordinal, line_of};
ghost use Rattle.rv_assemble.specs.Placed.{IsPlaced, AreRefused};

use rv_draft::Draft;
use rv_expression::{ReadError, SourceCode, SourceFault};
use rv_parse::parse_placed;
use rv_statement::Statement;
use rv_unit::Unit;
use std::alloc::{AllocError, Global};

/// What of a source is at fault.
#[derive(Clone, Copy, Drop)]
pub enum Culprit {
    /// Its text, at the byte of this offset.
    Byte(usize),
    /// A statement: its ordinal, from 1, and the offset of its first byte.
    Statement(u32, usize),
}

/// The first fault of a source, and where it stands.
#[derive(Clone, Copy, Drop)]
pub struct PlacedFault {
    pub code: SourceCode,
    /// From 1; 0 for a source that is too long.
    pub line: u32,
    pub culprit: Culprit,
}

/// Gives a statement another line; the one that it had.
fn replace_line(statement: &mut Statement<'_>, line: u32) -> u32
    ensures old { result ≡ (statement_of statement.old).line }
    ensures new { statement_of statement.new
        ≡ record { line = line; kind = (statement_of statement.old).kind } }
{
    let old = statement.line;
    statement.line = line;
    old
}

/// Gives each statement its ordinal as its line; the lines that they had.
fn number(alloc: Global, statements: &mut [Statement<'_>]) -> Result<Vec<u32>, AllocError>
    requires { length statements.old ≤ most_statements }
    ensures numbered { IfOk result (λ _.
        map statement_of statements.new ≡ by_ordinal (map statement_of statements.old)) }
    ensures lines { IfOk result
        (λ lines. lines.items ≡ map line_of (map statement_of statements.old)) }
{
    let mut lines = Vec::with_capacity(alloc, statements.len())?;
    for index in 0..statements.len() {
        let line = replace_line(&mut statements[index], index as u32 + 1);
        lines.push(line)?;
    }
    Ok(lines)
}

/// Whether statements have no fault behind the parser; else their first one.
fn checked(alloc: Global, statements: Vec<Statement<'_>>) -> Result<(), SourceFault>
    ensures sound { IfOk result
        (λ _. statements_fault (map statement_of statements.entry.items) ≡ None) }
    ensures refuses { IfErr result
        (λ e. AreRefused (map statement_of statements.entry.items) e) }
{
    let unit = Unit::build(alloc, statements)?;
    let _draft = Draft::of(alloc, &unit)?;
    Ok(())
}

/// The fault of this code of the statement of an ordinal, by the lines and the offsets of all.
fn fault_at(code: SourceCode, ordinal: u32, lines: &[u32], offsets: &[usize]) -> PlacedFault
    requires first { 1 ≤ ordinal }
    requires line { ordinal ≤ length lines.now }
    requires offset { ordinal ≤ length offsets.now }
    ensures code { result.code ≡ code }
    ensures line { result.line ≡ slice_index lines.now (ordinal - 1) }
    ensures culprit { result.culprit
        ≡ Faulty ordinal (slice_index offsets.now (ordinal - 1)) }
{
    let index = ordinal as usize - 1;
    PlacedFault {
        code,
        line: lines[index],
        culprit: Culprit::Statement(ordinal, offsets[index]),
    }
}

/// The first fault of statements that stand at these offsets.
fn fault_of(
    alloc: Global,
    statements: Vec<Statement<'_>>,
    offsets: &[usize],
) -> Result<Option<PlacedFault>, AllocError>
    requires few { length statements.items ≤ most_statements }
    requires each { length offsets.now ≡ length statements.items }
    ensures placed { (text : List ℕ) → Reads text (map statement_of statements.entry.items)
        → BeginIn text (map statement_of statements.entry.items) offsets.now
        → IfOk result (λ found. IfSome found (λ f. IsPlaced text f)) }
    ensures none { IfOk result (λ found. IfNone found
        (statements_fault (map statement_of statements.entry.items) ≡ None)) }
{
    let mut numbered = statements;
    let lines = number(alloc, numbered.as_mut_slice())?;
    match checked(alloc, numbered) {
        Ok(()) => Ok(None),
        Err(SourceFault::At { code, line }) => {
            Ok(Some(fault_at(code, line, lines.as_slice(), offsets)))
        }
        Err(SourceFault::OutOfMemory) => Err(AllocError),
    }
}

/// The fault of a text, at its byte.
fn fault_of_text(error: ReadError) -> Result<PlacedFault, AllocError>
    ensures { (text : List ℕ) → RefusedAt text error → IfOk result (λ f. IsPlaced text f) }
{
    match error {
        ReadError::At(wrong) => Ok(PlacedFault {
            code: wrong.code,
            line: wrong.line,
            culprit: Culprit::Byte(wrong.offset),
        }),
        ReadError::OutOfMemory => Err(AllocError),
    }
}

/// The first fault of a source, as `assemble` answers it, with its place.
pub fn first_fault(alloc: Global, source: &[u8]) -> Result<Option<PlacedFault>, AllocError>
    ensures placed { IfOk result (λ found. IfSome found (λ f. IsPlaced source.now f)) }
    ensures first { IfOk result
        (λ found. IfSome found (λ f. IsFirstFault source.now (At f.code f.line))) }
    ensures none { IfOk result (λ found. IfNone found
        ((ss : List SpecStatement) × Reads source.now ss × (statements_fault ss ≡ None))) }
{
    match parse_placed(alloc, source) {
        Ok(parsed) => fault_of(alloc, parsed.statements, parsed.offsets.as_slice()),
        Err(error) => Ok(Some(fault_of_text(error)?)),
    }
}
