//! Two files, worked.

ghost use Rattle.std.specs.Prelude.{[], ◌∷◌};
ghost use Rattle.rv_assemble_laws.specs.IsObjectOf.{IsObjectOf};
ghost use Rattle.rv_link_laws.specs.Ground.{usual};
ghost use Rattle.rv_link_laws.specs.IsLinkOf.{IsLinkOf};
ghost use Rattle.rv_sources_link_theorems.specs.TwoFiles.{first_source, second_source, first_object, second_object, two_files};

/// The objects of two files, byte by byte: open values are zeros under relocations.
pub fn two_files_are_objects()
    ensures first { IsObjectOf first_source first_object }
    ensures second { IsObjectOf second_source second_object }
{}

/// Their program: a name means its own file's label, else the other's.
pub fn two_files_link()
    ensures { IsLinkOf (first_object ∷ second_object ∷ []) (usual 0x10000) two_files }
{}
