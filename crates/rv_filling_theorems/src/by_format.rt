//! The laws, a clause a format.

ghost use Rattle.rv_parcel.specs.declared.form.Compressed.TheVariants.{Beqz, Bnez};
ghost use Rattle.rv_filling_theorems.specs.Formats.{
  BranchesFill,
  CallsFill,
  ImmediatesFill,
  JumpsFill,
  ShortBranchesFill,
  ShortJumpsFill,
  StoresFill,
  UppersFill,
};

/// A word whose immediate is patched is that of the same instruction with the value, or a half of it, as immediate;
/// whatever the immediate was.
pub fn words_fill()
    ensures branches { BranchesFill }
    ensures jumps { JumpsFill }
    ensures uppers { UppersFill }
    ensures immediates { ImmediatesFill }
    ensures stores { StoresFill }
    ensures calls { CallsFill }
{}

/// The same of parcels.
pub fn parcels_fill()
    ensures zero { ShortBranchesFill Beqz }
    ensures nonzero { ShortBranchesFill Bnez }
    ensures jumps { ShortJumpsFill }
{}
