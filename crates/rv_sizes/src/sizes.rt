//! The sizes of all statements.

ghost use Rattle.std.specs.Prelude.{◌≡◌, ◌+◌, ◌*◌, ◌≤◌, ◌<◌, length, slice_index, IfOk};
ghost use Rattle.std.specs.List.{list_any};
ghost use Rattle.rv_size_laws.specs.Branches.{IsLeastGood, branches, is_branch as of_branch, smallest_sizes};
ghost use Rattle.rv_sizes.specs.Passes.{IsInput};

use crate::items::Items;
use crate::passes::settle;
use crate::reach::smallest_size;
use rv_size_laws::Forms;
use std::alloc::{AllocError, Global};

/// A size for each statement, and how long it took to find them.
#[derive(Drop)]
pub struct Family {
    /// The bytes of each statement.
    pub sizes: Vec<u32>,
    /// How many passes over the statements there were, the last of which widened nothing; none where no statement has
    /// several forms.
    pub rounds: usize,
}

/// The smallest size of each statement.
fn smallest(alloc: Global, items: &Items) -> Result<Vec<u32>, AllocError>
    ensures { IfOk result (λ sizes. sizes.items ≡ smallest_sizes items.now) }
{
    let mut sizes = Vec::with_capacity(alloc, items.len())?;
    for i in 0..items.len() {
        sizes.push(smallest_size(items.get(i).forms))?;
    }
    Ok(sizes)
}

/// Whether the forms are several.
fn is_branch(forms: Forms) -> bool
    ensures { result ≡ of_branch forms }
{
    !matches!(forms, Forms::Settled(_))
}

/// Whether a statement has several forms.
fn has_branch(items: &Items) -> bool
    ensures { result ≡ list_any (λ item. of_branch item.forms) items.now }
{
    for i in 0..items.len() {
        if is_branch(items.get(i).forms) {
            return true;
        }
    }
    false
}

impl Family {
    /// The least sizes of statements with which each form below a statement's largest reaches.
    ///
    /// `items` are the statements of a source, in the order of the source, and `sections` is the number of their sections;
    /// targets are indices of `items`.
    ///
    /// # Errors
    ///
    /// `AllocError` where there is no memory for 4 bytes a statement, and where one has several forms for 8 more.
    pub fn least(alloc: Global, items: &Items, sections: usize) -> Result<Family, AllocError>
        requires { IsInput items.now sections }
        ensures least { IfOk result (λ found. IsLeastGood items.now found.sizes.items) }
        ensures rounds { IfOk result (λ found. found.rounds ≤ 2 * branches items.now + 1) }
    {
        let mut sizes = smallest(alloc, items)?;
        if !has_branch(items) {
            // nothing asks for a distance, so that the table of where statements stand would be for nothing
            return Ok(Family { sizes, rounds: 0 });
        }
        let mut stands = vec![in alloc; 0; items.len()]?;
        let mut ends = vec![in alloc; 0; sections]?;
        let rounds = settle(items, &mut sizes, &mut stands, &mut ends);
        Ok(Family { sizes, rounds })
    }

    /// The bytes of the statement of an index, from 0.
    pub fn size(&self, index: usize) -> u32
        requires { index < length (self.now).sizes.items }
        ensures { result ≡ slice_index (self.now).sizes.items index }
    {
        self.sizes[index]
    }

    /// How many passes over the statements there were.
    pub fn rounds(&self) -> usize
        ensures { result ≡ (self.now).rounds }
    {
        self.rounds
    }
}
