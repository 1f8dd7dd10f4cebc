//! A law of the layout.

ghost use Rattle.std.specs.Prelude.{ℕ, List};
ghost use Rattle.rv_object_laws.specs.Object.{Object};
ghost use Rattle.rv_placement.specs.Placement.{HasLayout};

/// All sections have a layout, so that what `IsTooLarge` says of each is said of one.
pub fn sections_stand()
    ensures { (os : List Object) (text_start : ℕ) → HasLayout os text_start }
{}
