//! The laws of listings: that of a linked program's image is that of its sources at the map, and it names instructions as
//! sources do.

ghost use Rattle.std.specs.Prelude.{◌≡◌, ◌↔◌, ℕ, Bool, List};
ghost use Rattle.rv_isa_laws.specs.Word.{Spells};
ghost use Rattle.rv_parcel.specs.Parcel.{StandsFor};
ghost use Rattle.rv_isa_laws.specs.Reader.{Reader};
ghost use Rattle.rv_statement_laws.specs.Statement.{Statement};
ghost use Rattle.rv_image_laws.specs.Linked.{Linked};
ghost use Rattle.rv_image_laws.specs.Executable.{linked_image};
ghost use Rattle.rv_source_laws.specs.Program.{Program, program};
ghost use Rattle.rv_listing_laws.specs.Listing.{IsListing};
ghost use Rattle.rv_chain_laws.specs.Contents.{IsLinked};
ghost use Rattle.rv_chain_laws.specs.Named.{ListingsNameAlike};
ghost use Rattle.rv_chain_laws.specs.SourceListing.{IsSourceListing};

/// Where a linked program is that of sources, the listing of its image with its map, by whatever reading of words and
/// parcels, is the sources' own listing at that map: a text is the one where it is the other.
pub fn listing_is_the_sources()
    ensures { (start : ℕ) (sources : List (List Statement)) (relax gc : Bool) (l : Linked)
        → IsLinked sources start relax gc l → (reader : Reader Spells StandsFor) (text : List ℕ)
        → IsListing reader (linked_image l) l.map text
        ↔ IsSourceListing (program sources l.map) text }
{}

/// The statements of sources at a map have one listing.
pub fn one_source_listing()
    ensures { (p : Program) (text other : List ℕ)
        → IsSourceListing p text → IsSourceListing p other → text ≡ other }
{}

/// The text of each instruction begins with the word that means it in sources; but a fence that no source spells is shown
/// as unknown.
pub fn listings_name_alike()
    ensures { ListingsNameAlike }
{}
