//! That an event can be read back from its line. Nothing here runs.

ghost use Rattle.std.specs.Prelude.{◌≡◌, ℕ, List};
ghost use Rattle.std.specs.List.{AllByRecursion};
ghost use Rattle.rv_isa_laws.specs.Hart.{Hart};
ghost use Rattle.rv_isa_laws.specs.Memory.{Mem};
ghost use Rattle.rv_isa_laws.specs.Reader.{Reader};
ghost use Rattle.rv_isa_laws.specs.Word.{Spells};
ghost use Rattle.rv_parcel.specs.Parcel.{StandsFor};
ghost use Rattle.rv_event_laws.specs.Event.{Event, events};
ghost use Rattle.rv_event_text_laws.specs.EventLine.{event_line, lines_of};
ghost use Rattle.rv_event_text_laws.specs.InRange.{IsMachine, IsMachineEvent};

/// Two events of a machine have different lines, and two lists of them different texts.
pub fn lines_are_apart()
    ensures events { (e f : Event) → IsMachineEvent e → IsMachineEvent f
        → event_line e ≡ event_line f → e ≡ f }
    ensures lists { (es fs : List Event) → AllByRecursion IsMachineEvent es
        → AllByRecursion IsMachineEvent fs → lines_of es ≡ lines_of fs → es ≡ fs }
{}

/// Each event of a run is one of a machine.
pub fn runs_have_such_events()
    ensures { (reader : Reader Spells StandsFor) (n : ℕ) (h : Hart) (m : Mem) → IsMachine h m
        → AllByRecursion IsMachineEvent (events reader n h m) }
{}
