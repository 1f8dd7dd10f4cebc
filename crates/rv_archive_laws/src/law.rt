//! What holds of all archives, and of what is taken of them.

ghost use Rattle.std.specs.Prelude.{◌≡◌, ℕ, List, Result};
ghost use Rattle.rv_archive_laws.specs.declared.fault.ArchiveFault.{ArchiveFault as Fault};
ghost use Rattle.rv_archive_laws.specs.Reads.{Archive, Reads};
ghost use Rattle.rv_archive_laws.specs.Taken.{Offer, ObjectNames, Takes};

/// A file is at most one archive, or has at most one first fault, and is never both.
pub fn one_archive()
    ensures { (file : List ℕ) (r s : Result Archive Fault) → Reads file r → Reads file s → r ≡ s }
{}

/// A link takes its objects in at most one way.
pub fn one_selection()
    ensures { (names_of : ℕ → ObjectNames) (wanted : List (List ℕ)) (offers : List Offer)
        (xs ys : List ℕ) → Takes names_of wanted offers xs → Takes names_of wanted offers ys
        → xs ≡ ys }
{}
