//! What holds of the sites of objects of the code.

ghost use Rattle.std.specs.Prelude.{ℕ, List, map};
ghost use Rattle.rv_size_laws.specs.Calls.{IsText, site_at};
ghost use Rattle.rv_object_types.specs.View.{object_of};
ghost use Rattle.rv_object_types.specs.declared.object.Object.{Object};
ghost use Rattle.rv_link_laws.specs.CallSites.{length_of, sites_of};
ghost use Rattle.rv_link_laws.specs.Inputs.{goes_to_text, inputs};
ghost use Rattle.rv_link_laws.specs.Within.{IsWithin};

/// The sites of objects make a text: they stand in order, and no call leads strictly inside another. All of it is within the
/// line of the text.
pub fn sites_make_a_text()
    ensures text { (objects : List Object) → IsText (sites_of (map object_of objects)) }
    ensures within { (objects : List Object) (i : ℕ) →
        IsWithin (length_of (inputs goes_to_text (map object_of objects)))
        (site_at (sites_of (map object_of objects)) i) }
{}
