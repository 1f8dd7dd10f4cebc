//! Names that are wanted or defined, and the offers that they ask for.

ghost use Rattle.std.specs.Prelude.{◌≡◌, ◌||◌, ℕ, Bool, true, false, List, map, Option, Some, None, bytes_eq, IfOk, OnOk};
ghost use Rattle.std.specs.List.{slice_get};
ghost use Rattle.std.specs.BTreeSet.{contains};
ghost use Rattle.std.specs.Ordering.{nat_cmp};
ghost use Rattle.rv_archive_laws.specs.Taken.{has_name};
ghost use Rattle.rv_inputs.specs.Chain.{AreChainsBy};
ghost use Rattle.rv_inputs.specs.Naming.{offer_name};
ghost use Rattle.rv_inputs.specs.Plain.{plain_texts};
ghost use Rattle.rv_inputs.specs.Standing.{StandBy};

use crate::chains::Chains;
use crate::offer::Offer;
use crate::standings::Standings;
use std::alloc::{AllocError, Global};
use std::collections::BTreeSet;

/// Names are defined.
pub(crate) fn give_all<'a>(
    standings: &mut Standings<'a>,
    names: &[&'a [u8]],
) -> Result<(), AllocError>
    ensures { OnOk result ((given wanted : List ℕ → Bool) → StandBy standings.old given wanted
        → StandBy standings.new (λ q. given q || has_name (plain_texts names.now) q) wanted) }
{
    for i in 0..names.len() {
        standings.give(names[i])?;
    }
    Ok(())
}

/// Names are wanted: the offers of those that are open from now on may be due.
pub(crate) fn want_all<'a>(
    chains: &Chains<'a>,
    standings: &mut Standings<'a>,
    pending: &mut BTreeSet<usize>,
    names: &[&'a [u8]],
) -> Result<(), AllocError>
    ensures stand { OnOk result ((given wanted : List ℕ → Bool) → StandBy standings.old given wanted
        → StandBy standings.new given (λ q. wanted q || has_name (plain_texts names.now) q)) }
    ensures kept { OnOk result ((j : ℕ) → contains nat_cmp pending.old j ≡ true
        → contains nat_cmp pending.new j ≡ true) }
    ensures asked { OnOk result ((given wanted : List ℕ → Bool) (offered : List (Option (List ℕ)))
        → StandBy standings.old given wanted
        → AreChainsBy chains.now.last chains.now.before.items offered
        → (j : ℕ) (q : List ℕ) → slice_get offered j ≡ Some (Some q) → given q ≡ false
        → wanted q ≡ false → has_name (plain_texts names.now) q ≡ true
        → contains nat_cmp pending.new j ≡ true) }
{
    for i in 0..names.len() {
        want(chains, standings, pending, names[i])?;
    }
    Ok(())
}

/// A name is wanted: its offers may be due if it is open from now on.
fn want<'a>(
    chains: &Chains<'a>,
    standings: &mut Standings<'a>,
    pending: &mut BTreeSet<usize>,
    name: &'a [u8],
) -> Result<(), AllocError>
    ensures stand { OnOk result ((given wanted : List ℕ → Bool) → StandBy standings.old given wanted
        → StandBy standings.new given (λ q. wanted q || bytes_eq q name.now)) }
    ensures kept { OnOk result ((j : ℕ) → contains nat_cmp pending.old j ≡ true
        → contains nat_cmp pending.new j ≡ true) }
    ensures asked { OnOk result ((given wanted : List ℕ → Bool) (offered : List (Option (List ℕ)))
        → StandBy standings.old given wanted
        → AreChainsBy chains.now.last chains.now.before.items offered
        → (j : ℕ) → slice_get offered j ≡ Some (Some name.now) → given name.now ≡ false
        → wanted name.now ≡ false → contains nat_cmp pending.new j ≡ true) }
{
    let opens = standings.want(name)?;
    if !opens {
        return Ok(());
    }
    chains.ask(pending, name)?;
    Ok(())
}

/// The offers without a name, by their numbers.
pub(crate) fn nameless(alloc: Global, offers: &[Offer<'_>]) -> Result<BTreeSet<usize>, AllocError>
    ensures { IfOk result (λ pending. (j : ℕ) → slice_get (map offer_name offers.now) j ≡ Some None
        → contains nat_cmp pending j ≡ true) }
{
    let mut pending = BTreeSet::new(alloc);
    for i in 0..offers.len() {
        if offers[i].name.is_some() {
            continue;
        }
        pending.insert(i)?;
    }
    Ok(pending)
}
