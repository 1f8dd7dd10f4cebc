//! The law that joins assembling and linking.

ghost use Rattle.std.specs.Prelude.{Bool, List};
ghost use Rattle.rv_map_laws.specs.declared.map.SectionId.{SectionId};
ghost use Rattle.rv_collect_laws.specs.Graph.{AreDrops};
ghost use Rattle.rv_statement_laws.specs.Statement.{Statement};
ghost use Rattle.rv_source_laws.specs.Collected.{graph_of};
ghost use Rattle.rv_object_laws.specs.Object.{Object};
ghost use Rattle.rv_link_laws.specs.Collects.{Collects};
ghost use Rattle.rv_sources_link_theorems.specs.Joins.{AreObjectsOf, Joins, IsFlagged};

/// The objects of these sources, linked so, are the linked program of the sources: its map fits them with the least
/// sizes and resolves their names, and its regions hold the bytes of their statements, whatever the number of sources
/// and of their sections.
pub fn objects_of_sources_link()
    ensures { Joins }
{}

/// That program is flagged as compressed code where one of the sources' statements is compressed code.
pub fn linked_objects_are_flagged()
    ensures { IsFlagged }
{}

/// What collection drops of the objects of sources is what it drops of the sources: the objects have the same sections with
/// an address, a run of them begins in the same one, and each refers to the same others.
pub fn sources_are_collected_alike()
    ensures { (gc : Bool) (sources : List (List Statement)) (os : List Object)
        (drops : List SectionId) → AreObjectsOf sources os → Collects gc os drops →
        AreDrops gc (graph_of sources) drops }
{}
