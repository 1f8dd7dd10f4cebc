//! In which order calls are looked at again.
//!
//! A call that lacks some bytes to a shorter form cannot take it before so many more are dropped of the whole text. So it waits
//! until then, and no look is lost on those that lack more. Whether a call may be shorter is not decided here.

ghost use Rattle.std.specs.Prelude.{◌≡◌, ◌<◌, IfOk, IfSome, length};

use std::alloc::{AllocError, Global};

/// Calls by how much of the text is dropped when they are looked at.
#[derive(Drop)]
pub(crate) struct Agenda {
    /// For each two bytes that are dropped the first call that waits for them, as its site from 1; 0 where none waits.
    first: Vec<usize>,
    /// For each site the call behind it that waits for the same, in the same way.
    pub(crate) next: Vec<usize>,
    /// How many twos are looked through.
    now: usize,
}

impl Agenda {
    /// None yet, of so many sites, of which as many calls drop at most six bytes each.
    pub(crate) fn new(alloc: Global, sites: usize) -> Result<Self, AllocError>
        ensures { IfOk result (λ agenda. length agenda.next.items ≡ sites) }
    {
        Ok(Agenda {
            first: vec![in alloc; 0; sites.saturating_mul(3).saturating_add(1)]?,
            next: vec![in alloc; 0; sites]?,
            now: 0,
        })
    }

    /// Has a call wait until so many twos are dropped. One that waits for more than there can be is never looked at.
    pub(crate) fn put(&mut self, site: usize, due: usize)
        ensures { length (self.new).next.items ≡ length (self.old).next.items }
    {
        if due < self.first.len() && site < self.next.len() {
            self.next[site] = self.first[due];
            self.first[due] = site + 1;
        }
    }

    /// A call that waits for so many twos or fewer, if there is one: it waits no more.
    pub(crate) fn take(&mut self, dropped: usize) -> Option<usize>
        ensures within { IfSome result (λ site. site < length (self.new).next.items) }
        ensures same { length (self.new).next.items ≡ length (self.old).next.items }
    {
        while self.now < dropped && self.first.get(self.now) == Some(&0) {
            self.now += 1;
        }
        let first = self.first.get_mut(self.now)?;
        let site = first.checked_sub(1)?;
        *first = *self.next.get(site)?;
        Some(site)
    }
}
