//! What holds of listings.

ghost use Rattle.std.specs.Prelude.{◌≡◌, ℕ, List};
ghost use Rattle.rv_isa_laws.specs.Word.{Spells};
ghost use Rattle.rv_parcel.specs.Parcel.{StandsFor};
ghost use Rattle.rv_isa_laws.specs.Reader.{Reader};
ghost use Rattle.rv_map_laws.specs.Map.{Map};
ghost use Rattle.rv_image_laws.specs.Image.{Image};
ghost use Rattle.rv_listing_laws.specs.Listing.{IsListing};
ghost use Rattle.rv_listing_laws.specs.Raw.{IsRawListing};

/// An image with a map has one listing.
pub fn one_listing()
    ensures { (reader : Reader Spells StandsFor) (image : Image) (m : Map) (text other : List ℕ) →
        IsListing reader image m text → IsListing reader image m other → text ≡ other }
{}

/// An image has one raw listing at most.
pub fn one_raw_listing()
    ensures { (image : Image) (text other : List ℕ) →
        IsRawListing image text → IsRawListing image other → text ≡ other }
{}
