//! Laws of what no step changes. Nothing here runs.

ghost use Rattle.std.specs.Prelude.{◌≡◌, ℕ, List, Some};
ghost use Rattle.rv_parcel.specs.Parcel.{StandsFor};
ghost use Rattle.rv_isa_laws.specs.Word.{Spells};
ghost use Rattle.rv_isa_laws.specs.Hart.{Hart};
ghost use Rattle.rv_isa_laws.specs.Memory.{Mem};
ghost use Rattle.rv_isa_laws.specs.Reader.{Reader};
ghost use Rattle.rv_image_laws.specs.Image.{Image};
ghost use Rattle.rv_image_laws.specs.Memory.{mem_of};
ghost use Rattle.rv_machine.specs.LastState.{last_state};
ghost use Rattle.rv_states.specs.Keeps.{Keeps};
ghost use Rattle.rv_states.specs.Snapshot.{state_in};

/// A run changes no right, and no byte that may not be written, wherever it stands.
pub fn runs_keep()
    ensures { (h h' : Hart) (m m' : Mem) → ((reader : Reader Spells StandsFor) →
        (n : ℕ) × (last_state reader n h m ≡ (h', m'))) → Keeps m m' }
{}

/// The memory of a snapshot has the rights of the image's, and its bytes wherever it may not be written.
pub fn snapshots_keep()
    ensures { (image : Image) (input snapshot : List ℕ) (h : Hart) (m : Mem) →
        state_in image input snapshot ≡ Some (h, m) → Keeps (mem_of image) m }
{}

/// What is kept from one memory to another and from there to a third is kept from the first to the third.
pub fn keeping_goes_on()
    ensures start { (m : Mem) → Keeps m m }
    ensures on { (l m n : Mem) → Keeps l m → Keeps m n → Keeps l n }
{}
