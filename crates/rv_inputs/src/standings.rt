//! How names stand: whether an object that was taken wants them, or defines them.
//!
//! Names stand in their order, which costs the same whatever names a file has, while names of one hash can be made at will.

ghost use Rattle.std.specs.Prelude.{◌≡◌, ℕ, Bool, false, not, ◌&&◌, ◌||◌, List, bytes_eq, IfOk, OnOk};
ghost use Rattle.rv_inputs.specs.Standing.{StandBy};

use std::alloc::{AllocError, Global};
use std::collections::BTreeMap;

/// The names that are wanted or defined, and whether they are defined.
#[derive(Drop)]
pub(crate) struct Standings<'a> {
    by_name: BTreeMap<&'a [u8], bool>,
}

impl<'a> Standings<'a> {
    /// No name is wanted.
    pub(crate) fn new(alloc: Global) -> Self
        ensures { StandBy result (λ _. false) (λ _. false) }
    {
        Standings {
            by_name: BTreeMap::new(alloc),
        }
    }

    /// Whether a name is wanted, and not defined.
    pub(crate) fn is_open(&self, name: &[u8]) -> bool
        ensures { (given wanted : List ℕ → Bool) → StandBy self.now given wanted
            → result ≡ (wanted name.now && not (given name.now)) }
    {
        match self.by_name.get(name).copied() {
            Some(is_given) => !is_given,
            None => false,
        }
    }

    /// A name is defined.
    pub(crate) fn give(&mut self, name: &'a [u8]) -> Result<(), AllocError>
        ensures { OnOk result ((given wanted : List ℕ → Bool) → StandBy self.old given wanted
            → StandBy self.new (λ q. given q || bytes_eq q name.now) wanted) }
    {
        self.by_name.insert(name, true)?;
        Ok(())
    }

    /// A name is wanted; whether it is open from now on, and was not before.
    pub(crate) fn want(&mut self, name: &'a [u8]) -> Result<bool, AllocError>
        ensures opens { IfOk result (λ opens. (given wanted : List ℕ → Bool)
            → StandBy self.old given wanted → opens ≡ (not (wanted name.now) && not (given name.now))) }
        ensures stand { OnOk result ((given wanted : List ℕ → Bool) → StandBy self.old given wanted
            → StandBy self.new given (λ q. wanted q || bytes_eq q name.now)) }
    {
        if self.by_name.get(name).is_some() {
            return Ok(false);
        }
        self.by_name.insert(name, false)?;
        Ok(true)
    }
}
