//! What holds of the definitions of fields and ranges. Nothing here runs.

ghost use Rattle.rv_isa.specs.declared.kind.Kind.{Kind};
ghost use Rattle.rv_reloc_laws.specs.Fields.{
  IsHeld,
  i_type,
  s_type,
  b_type,
  u_type,
  j_type,
  cb_type,
  cj_type,
  low_six,
};
ghost use Rattle.rv_reloc_laws.specs.Ranges.{Refuses, Takes};
ghost use Rattle.rv_fault.specs.declared.link_fault.LinkFault.{LinkFault};
ghost use Rattle.rv_fault.specs.declared.link_fault.LinkFault.TheVariants.{Overflow, OddTarget};
ghost use Rattle.std.specs.Prelude.{ℤ};

/// A field whose immediate is set to a number has that immediate, and every other bit as before.
pub fn immediates_are_held()
    ensures i_type { IsHeld i_type 12 1 }
    ensures s_type { IsHeld s_type 12 1 }
    ensures b_type { IsHeld b_type 13 2 }
    ensures u_type { IsHeld u_type 20 1 }
    ensures j_type { IsHeld j_type 21 2 }
    ensures cb_type { IsHeld cb_type 9 2 }
    ensures cj_type { IsHeld cj_type 12 2 }
    ensures low_six { IsHeld low_six 6 1 }
{}

/// A value that a field takes is not refused, and no value is refused for both causes.
pub fn refusals_are_exact()
    ensures taken { (k : Kind) (v : ℤ) (fault : LinkFault) → Takes k v → Refuses k v fault → ⊥ }
    ensures one { (k : Kind) (v : ℤ) → Refuses k v Overflow → Refuses k v OddTarget → ⊥ }
{}
