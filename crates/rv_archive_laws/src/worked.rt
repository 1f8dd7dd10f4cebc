//! Worked archives, as contracts that the check computes.

ghost use Rattle.std.specs.Prelude.{◌≡◌, [], ◌∷◌, Ok, Err, codes};
ghost use Rattle.rv_archive_laws.specs.declared.fault.ArchiveFault.TheVariants.{NoIndex, BadIndex, BsdArchive};
ghost use Rattle.rv_archive_laws.specs.Parts.{FindsParts, magic_size};
ghost use Rattle.rv_archive_laws.specs.Members.{members_of, member_parts, table_of};
ghost use Rattle.rv_archive_laws.specs.Index.{entries_in};
ghost use Rattle.rv_archive_laws.specs.Reads.{Reads};
ghost use Rattle.rv_archive_laws.specs.Names.{member_name};
ghost use Rattle.rv_archive_laws.specs.Taken.{Takes};
ghost use Rattle.rv_archive_laws.specs.Worked.{worked_file, worked_parts, worked_members, worked_index, indexed_members, worked_entries, chain_offers, chain_names};

/// An archive of two texts, as GNU ar writes it without an index: a table of long names, and two members.
pub fn texts_are_members()
    ensures parts { FindsParts worked_file magic_size (Ok worked_parts) }
    ensures members { members_of (table_of worked_parts) (member_parts worked_parts)
        ≡ Ok worked_members }
    ensures read { Reads worked_file (Err NoIndex) }
{}

/// The index that GNU ar writes of two objects, of which the first defines f, and the second g and h.
pub fn index_names_members()
    ensures entries { entries_in 4 worked_index indexed_members ≡ Ok worked_entries }
    ensures nowhere { entries_in 4 worked_index [] ≡ Err BadIndex }
{}

/// Names that begin as BSD's do are names where a slash ends them, as GNU ar writes it.
pub fn slashes_end_names()
    ensures sharp { member_name [] (codes "#1/             ") ≡ Ok (codes "#1") }
    ensures index { member_name [] (codes "__.SYMDEFx.o/   ") ≡ Ok (codes "__.SYMDEFx.o") }
    ensures long { member_name [] (codes "#1/20           ") ≡ Err BsdArchive }
    ensures sorted { member_name [] (codes "__.SYMDEF SORTED") ≡ Err BsdArchive }
{}

/// A member that another one needs is taken behind it, though it stands before it; and one that nobody needs is not.
pub fn members_are_taken()
    ensures { Takes chain_names (codes "_start" ∷ []) chain_offers (0 ∷ 2 ∷ 1 ∷ []) }
{}
