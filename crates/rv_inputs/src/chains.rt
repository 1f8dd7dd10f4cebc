//! The offers of each name, as a chain: from the last one to the one before, up to the first.

ghost use Rattle.std.specs.Prelude.{◌≡◌, ℕ, ◌++◌, true, List, [], ◌∷◌, ◌<◌, length, map, Option, Some, IfOk, IfSome, OnOk, option_and_then};
ghost use Rattle.std.specs.List.{slice_get};
ghost use Rattle.std.specs.BTreeSet.{contains};
ghost use Rattle.std.specs.Ordering.{nat_cmp};
ghost use Rattle.rv_inputs.specs.Naming.{offer_name};
ghost use Rattle.rv_inputs.specs.Chain.{Falls, AreChainsBy};

use crate::offer::Offer;
use std::alloc::{AllocError, Global};
use std::collections::{BTreeMap, BTreeSet};

/// Makes an offer the last one of its name; the one that was it before.
fn put<'a>(
    last: &mut BTreeMap<&'a [u8], usize>,
    i: usize,
    offer: &Offer<'a>,
) -> Result<Option<usize>, AllocError>
    ensures chains { IfOk result (λ before. (links : List (Option ℕ)) (names : List (Option (List ℕ)))
        → length names ≡ i → AreChainsBy last.old links names
        → AreChainsBy last.new (links ++ before ∷ []) (names ++ offer_name offer.now ∷ [])) }
    ensures below { IfOk result (λ before. (links : List (Option ℕ)) (names : List (Option (List ℕ)))
        → length names ≡ i → AreChainsBy last.old links names → IfSome before (λ b. b < i)) }
{
    match offer.name {
        Some(name) => {
            let before = last.insert(name, i)?;
            Ok(before)
        }
        None => Ok(None),
    }
}

/// The chains of offers, by their numbers.
#[derive(Drop)]
pub(crate) struct Chains<'a> {
    /// The last offer of each name.
    last: BTreeMap<&'a [u8], usize>,
    /// For each offer the one before it of the same name.
    before: Vec<Option<usize>>,
    ghost falls: { Falls before.items },
}

impl<'a> Chains<'a> {
    /// Those of offers.
    pub(crate) fn of(alloc: Global, offers: &[Offer<'a>]) -> Result<Chains<'a>, AllocError>
        ensures { IfOk result (λ chains. AreChainsBy chains.last chains.before.items
            (map offer_name offers.now)) }
    {
        let mut last = BTreeMap::new(alloc);
        let mut before = Vec::with_capacity(alloc, offers.len())?;
        for i in 0..offers.len() {
            before.push(put(&mut last, i, &offers[i])?)?;
        }
        Ok(Chains { last, before })
    }

    /// Adds the offers of a name to those that may be due.
    pub(crate) fn ask(&self, pending: &mut BTreeSet<usize>, name: &[u8]) -> Result<(), AllocError>
        ensures kept { OnOk result ((j : ℕ) → contains nat_cmp pending.old j ≡ true
            → contains nat_cmp pending.new j ≡ true) }
        ensures asked { OnOk result ((j : ℕ) (names : List (Option (List ℕ)))
            → AreChainsBy self.now.last self.now.before.items names → slice_get names j ≡ Some (Some name.now)
            → contains nat_cmp pending.new j ≡ true) }
    {
        let mut at = self.last.get(name).copied();
        while let Some(i) = at {
            pending.insert(i)?;
            at = self.one_before(i);
        }
        Ok(())
    }

    /// The offer before one of the same name.
    fn one_before(&self, i: usize) -> Option<usize>
        ensures { result ≡ option_and_then (λ b. b) (slice_get self.now.before.items i) }
    {
        *self.before.get(i)?
    }
}
