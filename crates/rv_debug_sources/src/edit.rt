//! Edits of a source.

ghost use Rattle.std.specs.Prelude.{◌≡◌, ◌-◌, ◌++◌, take, drop, codes, IfOk, OnOk};
ghost use Rattle.rv_debug_sources.specs.LineText as said;
ghost use Rattle.rv_debug_sources.specs.Sources as laws;

use crate::label::{put_end_label, put_row_label};
use crate::leb128::{put_signed_bytes, put_unsigned_bytes};
use crate::line::{LineRow, SaidFile};
use std::alloc::{AllocError, Global};

/// A text that is put into a source.
#[derive(Clone, Copy, Drop)]
pub enum Change {
    /// The flag `a`.
    Flag,
    /// Flags, behind a name.
    Flags,
    /// The bytes of an unsigned number.
    Unsigned(u64),
    /// Those of a signed number: a size, or, if it is negative, the number that much below -1.
    Signed(bool, u64),
    /// The label of the row of a statement at this offset.
    RowLabel(u32),
    /// The label of the end of a sequence, in front of the statement at this offset.
    EndLabel(u32),
    /// No text.
    Nothing,
}

/// The bytes of a source from one offset to another give way to a text.
#[derive(Clone, Copy, Drop)]
pub struct Edit {
    pub start: usize,
    pub stop: usize,
    pub change: Change,
}

/// What becomes of a statement.
#[derive(Clone, Copy, Drop)]
pub enum Statement {
    /// It stays as it is.
    Kept,
    /// It is changed.
    Changed(Edit),
    /// It names a file.
    Named(Edit, SaidFile),
    /// It is a row of the line table.
    Placed(Edit, LineRow),
}

impl Change {
    /// Whether a plain source has none of it.
    fn is_mark(self) -> bool
        ensures { result ≡ laws.is_mark self }
    {
        match self {
            Change::Unsigned(_) | Change::Signed(_, _) => false,
            _ => true,
        }
    }

    /// Adds its text.
    fn put(self, text: &mut Vec<u8>) -> Result<(), AllocError>
        ensures { OnOk result (text.new.items ≡ laws.with_change text.old.items self) }
    {
        match self {
            Change::Flag => text.extend_from_slice(b"a"),
            Change::Flags => text.extend_from_slice(b",\"a\""),
            Change::Unsigned(number) => put_unsigned_bytes(text, number),
            Change::Signed(negative, size) => put_signed_bytes(text, negative, size),
            Change::RowLabel(at) => put_row_mark(text, at),
            Change::EndLabel(at) => put_end_mark(text, at),
            Change::Nothing => Ok(()),
        }
    }

    /// Adds its text, if the source has it.
    fn put_in(self, is_plain: bool, text: &mut Vec<u8>) -> Result<(), AllocError>
        ensures { OnOk result (text.new.items ≡ laws.with_change_in is_plain text.old.items self) }
    {
        if is_plain && self.is_mark() {
            return Ok(());
        }
        self.put(text)
    }
}

/// Adds the label of a row, as a statement.
fn put_row_mark(text: &mut Vec<u8>, at: u32) -> Result<(), AllocError>
    ensures { OnOk result (text.new.items
        ≡ said.with_label text.old.items said.row_front at ++ codes ":") }
{
    put_row_label(text, at)?;
    text.extend_from_slice(b":")
}

/// Adds the label of an end, as a statement.
fn put_end_mark(text: &mut Vec<u8>, at: u32) -> Result<(), AllocError>
    ensures { OnOk result (text.new.items
        ≡ said.with_label text.old.items said.end_front at ++ codes ": ") }
{
    put_end_label(text, at)?;
    text.extend_from_slice(b": ")
}

/// A source with these edits; a plain one without its marks.
pub(crate) fn edited(
    alloc: Global,
    is_plain: bool,
    source: &[u8],
    edits: &[Edit],
) -> Result<Vec<u8>, AllocError>
    ensures { IfOk result (λ text. text.items ≡ laws.edited is_plain source.now edits.now) }
{
    let mut text: Vec<u8> = Vec::new(alloc);
    let mut at = 0;
    for edit in edits {
        text.extend_from_slice(part(at, edit.start, source))?;
        edit.change.put_in(is_plain, &mut text)?;
        at = edit.stop;
    }
    text.extend_from_slice(behind(at, source))?;
    Ok(text)
}

/// The bytes from one offset to another.
pub(crate) fn part(from: usize, to: usize, bytes: &[u8]) -> &[u8]
    ensures { result.now ≡ said.part from to bytes.now }
{
    let behind = behind(from, bytes);
    behind.get(..to.saturating_sub(from)).unwrap_or(behind)
}

/// The bytes from an offset on.
fn behind(at: usize, bytes: &[u8]) -> &[u8]
    ensures { result.now ≡ drop at bytes.now }
{
    bytes.get(at..).unwrap_or(&[])
}
