//! The search for the objects that a link takes.

ghost use Rattle.std.specs.Prelude.{◌≡◌, ◌≤◌, ◌<◌, ℕ, true, false, [], ◌∷◌, ◌++◌, List, length, map, None, IfOk, OnOk, IfSome, MatchOption};
ghost use Rattle.std.specs.BTreeSet.{contains};
ghost use Rattle.std.specs.Option.{option_copied};
ghost use Rattle.std.specs.Ordering.{nat_cmp};
ghost use Rattle.rv_archive_laws.specs.Taken.{ObjectNames as SaidNames, front, next_offer, is_due, is_asked};
ghost use Rattle.rv_inputs.specs.Plain.{plain_offer, plain_texts, plain_names};
ghost use Rattle.rv_inputs.specs.Filed.{AreFiled};

use crate::asking::{give_all, nameless, want_all};
use crate::chains::Chains;
use crate::object_names::ObjectNames;
use crate::offer::Offer;
use crate::pending::first_in;
use crate::standings::Standings;
use crate::stretches::stretches;
use std::alloc::{AllocError, Global};
use std::collections::BTreeSet;

/// The search for the objects that a link takes of offers, as far as it has come.
#[derive(Drop)]
pub struct Search<'g, 'a> {
    pub(crate) offers: &'g [Offer<'a>],
    pub(crate) chains: Chains<'a>,
    pub(crate) standings: Standings<'a>,
    /// The numbers of offers: those that are due, and some more.
    pub(crate) pending: BTreeSet<usize>,
    /// The objects taken.
    pub(crate) taken: BTreeSet<usize>,
    /// Behind how many offers the search stands, and in which file and group.
    pub(crate) place: usize,
    pub(crate) file: usize,
    pub(crate) group: usize,
}

impl<'g, 'a> Search<'g, 'a> {
    ghost use Rattle.rv_inputs.specs.Left.{left, IsFree};
    ghost use Rattle.rv_inputs.specs.State.{position_of, IsState, IsNext, IsFirstPending};

    /// The search of offers, in the order of their files, for names that are wanted from the start.
    pub fn of(
        alloc: Global,
        offers: &'g [Offer<'a>],
        wanted: &[&'a [u8]],
    ) -> Result<Search<'g, 'a>, AllocError>
        ensures offers { IfOk result (λ search. search.offers.now ≡ offers.now) }
        ensures front { IfOk result (λ search. position_of search ≡ front) }
        ensures state { IfOk result (λ search. (names_of : ℕ → SaidNames)
            → IsState names_of (plain_texts wanted.now) search []) }
    {
        let chains = Chains::of(alloc, offers)?;
        let mut standings = Standings::new(alloc);
        let mut pending = nameless(alloc, offers)?;
        want_all(&chains, &mut standings, &mut pending, wanted)?;
        Ok(Search {
            offers,
            chains,
            standings,
            pending,
            taken: BTreeSet::new(alloc),
            place: 0,
            file: 0,
            group: 0,
        })
    }

    /// The object that is taken next, behind whose offer the search then stands; none where no offer is due.
    pub fn next(&mut self) -> Option<usize>
        requires { AreFiled (map plain_offer self.old.offers.now) }
        ensures offers { self.new.offers.now ≡ self.old.offers.now }
        ensures next { (names_of : ℕ → SaidNames) (wanted : List (List ℕ)) (taken : List ℕ)
            → IsState names_of wanted self.old taken
            → MatchOption result
            (next_offer names_of wanted (map plain_offer self.old.offers.now)
            (position_of self.old) taken ≡ None)
            (λ object. IsNext names_of wanted (map plain_offer self.old.offers.now)
            (position_of self.old) taken object (position_of self.new)) }
        ensures state { (names_of : ℕ → SaidNames) (wanted : List (List ℕ)) (taken : List ℕ)
            → IsState names_of wanted self.old taken → IsState names_of wanted self.new taken }
        ensures free { IfSome result (IsFree self.new) }
        ensures left { left self.new ≡ left self.old }
    {
        while let Some(i) = self.first_pending() {
            let offer = self.offers[i];
            if self.is_due(&offer) {
                self.place = i + 1;
                self.file = offer.file;
                self.group = offer.group;
                return Some(offer.object);
            }
            self.pending.remove(&i);
        }
        None
    }

    /// Takes an object, which says this of names.
    pub fn put(&mut self, object: usize, names: &ObjectNames<'a>) -> Result<(), AllocError>
        ensures offers { OnOk result (self.new.offers.now ≡ self.old.offers.now) }
        ensures stays { OnOk result (position_of self.new ≡ position_of self.old) }
        ensures state { OnOk result ((names_of : ℕ → SaidNames) (wanted : List (List ℕ))
            (taken : List ℕ) → IsState names_of wanted self.old taken
            → plain_names names.now ≡ names_of object
            → IsState names_of wanted self.new (taken ++ object ∷ [])) }
        // so a loop that takes what is next ends
        ensures falls { OnOk result (IsFree self.old object → left self.new < left self.old) }
    {
        self.taken.insert(object)?;
        give_all(&mut self.standings, names.defined.as_slice())?;
        want_all(
            &self.chains,
            &mut self.standings,
            &mut self.pending,
            names.undefined.as_slice(),
        )?;
        Ok(())
    }

    /// The first offer of those that may be due.
    fn first_pending(&self) -> Option<usize>
        ensures within { IfSome result (λ i. i < length self.now.offers.now) }
        ensures first { AreFiled (map plain_offer self.now.offers.now)
            → IsFirstPending self.now result }
    {
        let stretches = stretches(self.offers, self.place, self.file, self.group);
        first_in(&self.pending, &stretches)
    }

    /// Whether an offer is due.
    fn is_due(&self, offer: &Offer<'_>) -> bool
        ensures free { result ≡ true → contains nat_cmp self.now.taken offer.now.object ≡ false }
        ensures due { (names_of : ℕ → SaidNames) (wanted : List (List ℕ)) (taken : List ℕ)
            → IsState names_of wanted self.now taken
            → result ≡ is_due names_of wanted taken (plain_offer offer.now) }
    {
        self.is_asked(offer.name) && !self.taken.contains(&offer.object)
    }

    /// Whether an object is asked for by this name, or without one.
    fn is_asked(&self, name: Option<&[u8]>) -> bool
        ensures { (names_of : ℕ → SaidNames) (wanted : List (List ℕ)) (taken : List ℕ)
            → IsState names_of wanted self.now taken
            → result ≡ is_asked names_of wanted taken (option_copied name.entry) }
    {
        match name {
            Some(name) => self.standings.is_open(name),
            None => true,
        }
    }
}
