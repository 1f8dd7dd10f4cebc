//! Laws of runs. Nothing here runs.

ghost use Rattle.std.specs.Prelude.{◌≡◌, ℕ};
ghost use Rattle.rv_parcel.specs.Parcel.{StandsFor};
ghost use Rattle.rv_isa_laws.specs.Word.{Spells};
ghost use Rattle.rv_isa_laws.specs.Hart.{Hart};
ghost use Rattle.rv_isa_laws.specs.Memory.{Mem};
ghost use Rattle.rv_isa_laws.specs.Reader.{Reader};
ghost use Rattle.rv_isa_laws.specs.Run.{run};

/// A run is the same by whatever reading, so long as it answers exactly what is spelled.
pub fn runs_agree()
    ensures { (r s : Reader Spells StandsFor) (n : ℕ) (h : Hart) (m : Mem) →
        run r n h m ≡ run s n h m }
{}
