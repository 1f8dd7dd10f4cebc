//! Where `.set` gives names first.

ghost use Rattle.std.specs.Prelude.{◌≡◌, List, ◌∷◌, Option, map, reverse, IfOk, OnOk};
ghost use Rattle.rv_unit_laws.specs.Tables.{Assignment as SaidSetting};
ghost use Rattle.rv_unit.specs.Tables.{assignment_of};
ghost use Rattle.rv_source_laws.specs.Exports.{sets_first};
ghost use Rattle.rv_symbols.specs.Settings as laws;

use rv_unit::Assignment;
use std::alloc::{AllocError, Global};
use std::collections::HashMap;

/// The ordinal of the first statement that gives a name, for each name that `.set` gives.
#[derive(Drop)]
pub(crate) struct FirstSettings<'a> {
    pub(crate) ordinals: HashMap<&'a [u8], usize>,
}

/// The lower of two ordinals.
fn least(ordinal: usize, other: Option<usize>) -> usize
    ensures { result ≡ laws.least ordinal other }
{
    match other {
        Some(other) => ordinal.min(other),
        None => ordinal,
    }
}

impl<'a> FirstSettings<'a> {
    ghost use Rattle.rv_symbols.specs.Settings.{AreFirsts};

    /// Those of what `.set`s give, in their order.
    pub(crate) fn of(alloc: Global, assignments: &[Assignment<'a>]) -> Result<Self, AllocError>
        ensures { IfOk result
            (λ firsts. AreFirsts firsts.ordinals (reverse (map assignment_of assignments.now))) }
    {
        let mut firsts = FirstSettings {
            ordinals: HashMap::new(alloc),
        };
        for setting in assignments {
            firsts.put(setting)?;
        }
        Ok(firsts)
    }

    /// Adds a setting.
    fn put(&mut self, setting: &Assignment<'a>) -> Result<(), AllocError>
        ensures { OnOk result ((assignments : List SaidSetting)
            → AreFirsts (self.old).ordinals assignments
            → AreFirsts (self.new).ordinals (assignment_of setting.now ∷ assignments)) }
    {
        let other = self.ordinals.get(&setting.name).copied();
        let first = least(setting.ordinal as usize, other);
        self.ordinals.insert(setting.name, first)?;
        Ok(())
    }

    /// Whether the statement of an ordinal is the first that gives the name.
    pub(crate) fn is_first(&self, ordinal: usize, name: &[u8]) -> bool
        ensures { (assignments : List SaidSetting) → AreFirsts (self.now).ordinals assignments
            → result ≡ sets_first assignments ordinal name.now }
    {
        match self.ordinals.get(&name).copied() {
            Some(first) => first == ordinal,
            None => false,
        }
    }
}
