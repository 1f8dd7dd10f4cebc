//! That the registers which events tell are the machine's. Nothing here runs.

ghost use Rattle.std.specs.Prelude.{◌≡◌, ℕ, List};
ghost use Rattle.rv_isa_laws.specs.Hart.{start};
ghost use Rattle.rv_isa_laws.specs.Memory.{Mem};
ghost use Rattle.rv_isa_laws.specs.Reader.{Reader};
ghost use Rattle.rv_isa_laws.specs.Word.{Spells};
ghost use Rattle.rv_parcel.specs.Parcel.{StandsFor};
ghost use Rattle.rv_event_laws.specs.Event.{events};
ghost use Rattle.rv_machine.specs.LastState.{last_state};
ghost use Rattle.rv_counts.specs.Counted.{told_registers};

/// The registers that the events of a run tell are those of the machine after it.
pub fn registers_are_told()
    ensures { (reader : Reader Spells StandsFor) (n entry : ℕ) (input : List ℕ) (m : Mem) →
        told_registers (events reader n (start entry input) m)
        ≡ (last_state reader n (start entry input) m).0.registers }
{}
