//! The statements of a source, as they are kept.
//!
//! A source may have 4 million of them: one of registers alone and a numeric label take 12 bytes, any other 52, since 16 for all of
//! them cost more instructions. Callers who want a slice take a plain vector, by `parse`.

ghost use Rattle.std.specs.Prelude.{◌≡◌, ◌<◌, ◌≤◌, ◌^◌, ◌==◌, ◌++◌, [], ◌∷◌, Some, length, map, IsTrue, IfOk, OnOk, OnErr};
ghost use Rattle.std.specs.List.{slice_get, list_all};
ghost use Rattle.rv_statement.specs.View.{statement_of};
ghost use Rattle.rv_statement.specs.declared.record.Record.{Record as RecordOf};
ghost use Rattle.rv_statement.specs.Records.{part_end, least_whole, statement_in, recorded, has_its_part, has_its_whole};

use crate::record::{Record, Words, made, packed};
use crate::statement::{Statement, StatementKind};
use std::alloc::{AllocError, Global};

/// The statements of a source, in its order.
#[derive(Drop)]
pub struct Statements<'a> {
    pub(crate) source: &'a [u8],
    pub(crate) records: Vec<Record>,
    /// Those that a record can't hold.
    pub(crate) whole: Vec<Statement<'a>>,
    /// Each part that a record names lies in the source.
    ghost inside: { IsTrue (list_all (has_its_part (length source.now)) records.items) },
    /// Each index that a record names is one of those kept whole.
    ghost kept: { IsTrue (list_all (has_its_whole (length whole.items)) records.items) },
    /// None is kept whole without a record.
    ghost fewer: { length whole.items ≤ length records.items },
}

/// A record for each statement that is kept whole.
fn whole_records(alloc: Global, whole: &[Statement<'_>]) -> Result<Vec<Record>, AllocError>
    requires { length whole.now < 2 ^ 32 }
    ensures said { IfOk result
        (λ records. map (recorded [] whole.now) records.items ≡ map statement_of whole.now) }
    ensures inside { IfOk result (λ records. IsTrue (list_all (has_its_part 0) records.items)) }
    ensures kept { IfOk result
        (λ records. IsTrue (list_all (has_its_whole (length whole.now)) records.items)) }
    ensures each { IfOk result (λ records. length records.items ≡ length whole.now) }
{
    let mut records = Vec::with_capacity(alloc, whole.len())?;
    for index in 0..whole.len() {
        records.push(Record {
            words: Words::Whole(index as u32),
            line: whole[index].line,
        })?;
    }
    Ok(records)
}

#[tactic(auto, unfolding(crate::specs::Statements::statements_of))]
impl<'a> Statements<'a> {
    ghost use Rattle.rv_statement.specs.Statements.{statements_of};

    /// None of a source's statements yet.
    pub fn new(alloc: Global, source: &'a [u8]) -> Self
        ensures { statements_of result ≡ [] }
    {
        Statements {
            source,
            records: Vec::new(alloc),
            whole: Vec::new(alloc),
        }
    }

    /// Statements that stand in a list of their own already: each is kept whole.
    pub fn of(alloc: Global, whole: Vec<Statement<'a>>) -> Result<Self, AllocError>
        requires { length whole.items < 2 ^ 32 }
        ensures { IfOk result (λ s. statements_of s ≡ map statement_of whole.entry.items) }
    {
        let records = whole_records(alloc, whole.as_slice())?;
        Ok(Statements {
            source: &[],
            records,
            whole,
        })
    }

    /// Adds a statement whose bytes begin at `from` in the source. Another `from` costs memory alone. Where memory runs
    /// out, the statements stay as they were.
    #[inline(always)]
    pub fn push(&mut self, statement: Statement<'a>, from: usize) -> Result<(), AllocError>
        requires { length (statements_of self.old) < 2 ^ 32 }
        ensures added { OnOk result (statements_of self.new
            ≡ statements_of self.old ++ statement_of statement.entry ∷ []) }
        ensures err { OnErr result (statements_of self.new ≡ statements_of self.old) }
    {
        let line = statement.line;
        match packed(self.source, from, &statement.kind) {
            Some(words) => self.push_record(words, line),
            None => self.push_whole(statement),
        }
    }

    /// Adds a record.
    fn push_record(&mut self, words: Words, line: u32) -> Result<(), AllocError>
        requires inside { part_end words ≤ length self.old.source.now }
        requires kept { least_whole words ≤ length self.old.whole.items }
        ensures added { OnOk result (statements_of self.new ≡ statements_of self.old
            ++ statement_in self.old.source.now self.old.whole.items line words ∷ []) }
        ensures err { OnErr result (statements_of self.new ≡ statements_of self.old) }
    {
        self.records.push(Record { words, line })?;
        Ok(())
    }

    /// Adds a statement that is kept whole.
    #[inline(always)]
    fn push_whole(&mut self, statement: Statement<'a>) -> Result<(), AllocError>
        requires { length (statements_of self.old) < 2 ^ 32 }
        ensures added { OnOk result (statements_of self.new
            ≡ statements_of self.old ++ statement_of statement.entry ∷ []) }
        ensures err { OnErr result (statements_of self.new ≡ statements_of self.old) }
    {
        // room first, so that no statement is kept without a record
        self.records.reserve(1)?;
        let words = Words::Whole(self.whole.len() as u32);
        let line = statement.line;
        self.whole.push(statement)?;
        self.records.push(Record { words, line })?;
        Ok(())
    }

    /// How many there are.
    pub fn len(&self) -> usize
        ensures { result ≡ length (statements_of self.now) }
    {
        self.records.len()
    }

    /// Whether there are none.
    pub fn is_empty(&self) -> bool
        ensures { result ≡ (length (statements_of self.now) == 0) }
    {
        self.records.is_empty()
    }

    /// Room for a statement that [`read`](Statements::read) makes again.
    pub fn room() -> Statement<'a> {
        Statement {
            kind: StatementKind::Ignored,
            line: 0,
        }
    }

    /// The statement at an index, from 0: lent, or made again in the room.
    #[inline(always)]
    pub fn read<'r, 's: 'r>(
        &'s self,
        index: usize,
        room: &'r mut Statement<'a>,
    ) -> &'r Statement<'a>
        requires { index < length (statements_of self.now) }
        ensures { slice_get (statements_of self.now) index ≡ Some (statement_of result.now) }
    {
        match self.records[index].words {
            Words::Whole(place) => &self.whole[place as usize],
            Words::Plain(_) | Words::Numbered(..) => self.make(index, room),
        }
    }

    /// Makes the statement at an index again, which says little. Out of line, so that what is lent is read quickly.
    #[inline(never)]
    fn make<'r>(&self, index: usize, room: &'r mut Statement<'a>) -> &'r Statement<'a>
        requires within { index < length (statements_of self.now) }
        requires little { (found : RecordOf) →
            slice_get self.now.records.items index ≡ Some found → least_whole found.words ≡ 0 }
        ensures { slice_get (statements_of self.now) index ≡ Some (statement_of result.now) }
    {
        let record = self.records[index];
        room.kind = made(self.source, record.words);
        room.line = record.line;
        room
    }
}
