//! The fields of a section of code that no padding was looked for in.
//!
//! Relocations mostly stand in the order of their places, so a padding mostly begins behind all fields before it. Then
//! none of them is searched, and none need be in order.

ghost use Rattle.std.specs.Prelude.{◌≡◌, ◌<◌, ◌≤◌, ◌+◌, ◌++◌, ◌∷◌, ◌||◌, [], ℕ, true, false, IfOk, OnOk};
ghost use Rattle.std.specs.List.{list_any, list_all};
ghost use Rattle.rv_object_reader.specs.Stretches.{starts_in, is_short, ends_by};

use crate::fields::Fields;
use std::alloc::{AllocError, Global};

/// Fields in the order of their records, which may share bytes.
#[derive(Drop)]
pub(crate) struct Recent {
    /// The offset of the first byte of each, and the end behind its last.
    pub(crate) spans: Vec<(u64, u64)>,
    /// None of them ends behind this.
    furthest: u64,
    ghost short: { list_all is_short spans.items ≡ true },
    ghost within: { list_all (ends_by furthest) spans.items ≡ true },
}

impl Recent {
    /// None.
    pub(crate) fn new(alloc: Global) -> Recent
        ensures { result.spans.items ≡ [] }
    {
        Recent {
            spans: Vec::new(alloc),
            furthest: 0,
        }
    }

    /// Whether one of them, or of others, has a byte at `start` or later and before `end`.
    pub(crate) fn meet(
        &mut self,
        fields: &mut Fields,
        start: u64,
        end: u64,
    ) -> Result<bool, AllocError>
        requires { start < end }
        ensures meet { IfOk result (λ meet. meet ≡ list_any (starts_in start end)
            (self.old.spans.items ++ fields.old.by_start.entries)) }
        ensures same { OnOk result ((a b : ℕ) → list_any (starts_in a b)
            (self.new.spans.items ++ fields.new.by_start.entries)
            ≡ list_any (starts_in a b) (self.old.spans.items ++ fields.old.by_start.entries)) }
    {
        if self.are_before(start) {
            return Ok(fields.meet(start, end));
        }
        self.settle(fields)?;
        Ok(fields.meet(start, end))
    }

    /// Whether it is plain that none of them has a byte at `start` or later.
    fn are_before(&self, start: u64) -> bool
        ensures { result ≡ true
            → (end : ℕ) → list_any (starts_in start end) self.now.spans.items ≡ false }
    {
        self.furthest <= start
    }

    /// One more.
    pub(crate) fn put(&mut self, start: u64, end: u64) -> Result<(), AllocError>
        requires { end ≤ start + 8 }
        ensures { OnOk result (self.new.spans.items ≡ self.old.spans.items ++ (start, end) ∷ []) }
    {
        self.spans.push((start, end))?;
        self.furthest = self.furthest.max(end);
        Ok(())
    }

    /// Moves all of them to others.
    fn settle(&mut self, fields: &mut Fields) -> Result<(), AllocError>
        ensures none { OnOk result (self.new.spans.items ≡ []) }
        ensures moved { OnOk result ((a b : ℕ)
            → list_any (starts_in a b) fields.new.by_start.entries
            ≡ list_any (starts_in a b) (self.old.spans.items ++ fields.old.by_start.entries)) }
    {
        put_all(fields, self.spans.as_slice())?;
        self.spans.clear();
        self.furthest = 0;
        Ok(())
    }
}

/// Puts fields to others.
fn put_all(fields: &mut Fields, spans: &[(u64, u64)]) -> Result<(), AllocError>
    requires { list_all is_short spans.now ≡ true }
    ensures { OnOk result ((a b : ℕ) → list_any (starts_in a b) fields.new.by_start.entries
        ≡ list_any (starts_in a b) (spans.now ++ fields.old.by_start.entries)) }
{
    for index in 0..spans.len() {
        put_one(fields, &spans[index])?;
    }
    Ok(())
}

/// Puts a field to others.
fn put_one(fields: &mut Fields, span: &(u64, u64)) -> Result<(), AllocError>
    requires { is_short span.now ≡ true }
    ensures { OnOk result ((a b : ℕ) → list_any (starts_in a b) fields.new.by_start.entries
        ≡ starts_in a b span.now || list_any (starts_in a b) fields.old.by_start.entries) }
{
    fields.put(span.0, span.1)
}
