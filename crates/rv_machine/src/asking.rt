//! What the code at an address asks, and what stands there.

ghost use Rattle.rv_isa_laws.specs.Word.{Spells};
ghost use Rattle.rv_parcel.specs.Parcel.{StandsFor};
ghost use Rattle.rv_isa_laws.specs.Reader.{Reader};
ghost use Rattle.rv_machine.specs.Asked.{Asks, HasWidths};
ghost use Rattle.rv_machine.specs.Fetch.{spelled_at};

use crate::action::{Action, asked};
use crate::fetch::{Fetched, spelled};
use crate::hart::Hart;

/// What the code at an address asks.
#[derive(Clone, Copy, Drop)]
pub(crate) enum Asked {
    /// There is none that may be executed.
    NoRight,
    NoInstruction,
    /// What an instruction asks, and its bytes: 4 of a word, 2 of a parcel.
    Got(Action, u64),
}

/// What bits at a hart's address ask.
pub(crate) fn asked_at(bits: Option<u32>, hart: &Hart) -> Asked
    ensures width { HasWidths result }
    ensures asks { (reader : Reader Spells StandsFor) → Asks (spelled_at reader bits) hart.now result }
{
    match spelled(bits) {
        Fetched::Got(inst, bytes) => Asked::Got(asked(inst, bytes, hart), bytes),
        Fetched::NoRight => Asked::NoRight,
        Fetched::NoInstruction => Asked::NoInstruction,
    }
}
