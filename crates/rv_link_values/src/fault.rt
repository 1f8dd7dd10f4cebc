//! Why a relocation has no value.

ghost use Rattle.std.specs.Prelude.{◌≡◌};

use rv_fault::LinkFault;
use thiserror::Error;

/// Why a relocation has no value.
#[derive(Clone, Copy, Debug, Drop, Error)]
pub enum ValueFault {
    /// The low part of a distance has no high part at its symbol's place, or an addend of its own.
    #[error("the low part of a distance has no high part")]
    Dangling,
}

impl From<ValueFault> for LinkFault {
    ghost use Rattle.rv_fault.specs.declared.link_fault.LinkFault.TheVariants.{DanglingPcrel};

    ghost from_gives = { λ _ e. e ≡ DanglingPcrel };

    fn from(fault: ValueFault) -> Self {
        match fault {
            ValueFault::Dangling => LinkFault::DanglingPcrel,
        }
    }
}
