//! The lists that a source's statements are put into.

ghost use Rattle.std.specs.Prelude.{◌≡◌, ◌<◌, ◌^◌, ◌++◌, List, [], ◌∷◌, length, map, ⊤, OnOk};
ghost use Rattle.rv_expression_laws.specs.Lexing.{Token};
ghost use Rattle.rv_statement_laws.specs.Statement.{Statement as SpecStatement};
ghost use Rattle.rv_statement.specs.View.{statement_of};
ghost use Rattle.rv_parse.specs.Offsets.{BeginsAt, HaveOffsets};

use rv_statement::{Statement, Statements};
use std::alloc::{AllocError, Global};

/// A list that takes the statements of a source, one after the other.
pub(crate) trait StatementList<'a>: Drop {
    /// Those that it has.
    ghost said: { Self → List SpecStatement };

    /// The offsets that it keeps, if it does, are those of its statements among these tokens.
    ghost begin_in: { Self → List Token → Type 0 };

    /// Adds a statement whose bytes begin at `from` in the source.
    fn put(&mut self, statement: Statement<'a>, from: usize) -> Result<(), AllocError>
        requires { length (said self.old) < 2 ^ 32 }
        ensures said { OnOk result (said self.new
            ≡ said self.old ++ statement_of statement.entry ∷ []) }
        ensures begin { OnOk result ((ts : List Token) → begin_in self.old ts
            → BeginsAt ts (said self.new) (length (said self.old)) from
            → begin_in self.new ts) };
}

impl<'a> StatementList<'a> for Statements<'a> {
    ghost use Rattle.rv_statement.specs.Statements.{statements_of};

    ghost said = { λ list. statements_of list };

    ghost begin_in = { λ list ts. ⊤ };

    #[inline(always)]
    fn put(&mut self, statement: Statement<'a>, from: usize) -> Result<(), AllocError> {
        self.push(statement, from)
    }
}

impl<'a> StatementList<'a> for Vec<Statement<'a>> {
    ghost said = { λ list. map statement_of list.items };

    ghost begin_in = { λ list ts. ⊤ };

    #[inline(always)]
    fn put(&mut self, statement: Statement<'a>, _from: usize) -> Result<(), AllocError> {
        self.push(statement)?;
        Ok(())
    }
}

/// The statements of a source, and where each begins.
#[derive(Drop)]
pub struct PlacedStatements<'a> {
    pub statements: Vec<Statement<'a>>,
    /// The offset of the first byte of each.
    pub offsets: Vec<usize>,
}

impl<'a> PlacedStatements<'a> {
    /// None yet.
    pub(crate) fn new(alloc: Global) -> Self
        ensures none { map statement_of result.statements.items ≡ [] }
        ensures begin { (ts : List Token)
            → HaveOffsets ts (map statement_of result.statements.items) result.offsets.items }
    {
        PlacedStatements {
            statements: Vec::new(alloc),
            offsets: Vec::new(alloc),
        }
    }
}

impl<'a> StatementList<'a> for PlacedStatements<'a> {
    ghost said = { λ list. map statement_of list.statements.items };

    ghost begin_in = { λ list ts.
        HaveOffsets ts (map statement_of list.statements.items) list.offsets.items };

    fn put(&mut self, statement: Statement<'a>, from: usize) -> Result<(), AllocError> {
        self.offsets.push(from)?;
        self.statements.push(statement)?;
        Ok(())
    }
}
