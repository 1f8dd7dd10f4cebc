//! What holds of the definitions themselves.

ghost use Rattle.rv_compress.specs.Laws.{HasReader, StandsForValid};

/// An exact reader of parcels exists: whether a parcel stands for an instruction can be computed, and it
/// stands for no other.
pub fn parcels_have_a_reader()
    ensures { HasReader }
{}

/// What a parcel stands for is a valid instruction.
pub fn parcels_stand_for_valid_instructions()
    ensures { StandsForValid }
{}
