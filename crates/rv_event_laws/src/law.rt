//! That an event tells all. Nothing here runs.

ghost use Rattle.std.specs.Prelude.{◌≡◌, ℕ, false, None};
ghost use Rattle.rv_isa_laws.specs.Effect.{Conditional, On};
ghost use Rattle.rv_isa_laws.specs.Hart.{Hart};
ghost use Rattle.rv_isa_laws.specs.Memory.{Mem};
ghost use Rattle.rv_isa_laws.specs.Run.{Fetched, done};
ghost use Rattle.rv_event_laws.specs.Changes.{Changes};
ghost use Rattle.rv_event_laws.specs.Event.{event_of, stored_by};

/// A step that goes on changes memory, registers, input and console by what its event tells, and by nothing else.
pub fn changes_are_told()
    ensures { (f : Fetched) (h g : Hart) (m n : Mem) →
        done f h m ≡ On g n → Changes (event_of f h m) h m g n }
{}

/// An sc whose bytes are not reserved tells no store (ISA, 8.2).
pub fn failed_conditional_stores_nothing()
    ensures { (address bytes value : ℕ) (next : Hart) (m : Mem) →
        stored_by (Conditional address bytes value false next) m ≡ None }
{}
