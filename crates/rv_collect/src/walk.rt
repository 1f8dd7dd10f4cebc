//! The walk from the entry to all that stays.
//!
//! Sections are queued as they are marked, and gone over in that order: each section and each relocation once, whatever the
//! references are. In which order they are marked is no matter (`rv_collect_laws`), so the queue is as simple as it can be.

ghost use Rattle.std.specs.Prelude.{◌≡◌, ◌+◌, Some, true, map, option_map, option_and_then, OnOk, IfOk};
ghost use Rattle.std.specs.List.{slice_get};
ghost use Rattle.rv_map_laws.specs.declared.map.SectionId.{SectionId};
ghost use Rattle.rv_object_laws.specs.Object.{Object as SaidObject};
ghost use Rattle.rv_object_types.specs.Parts.{relocation_of};
ghost use Rattle.rv_object_types.specs.Places.{place_of};
ghost use Rattle.rv_object_types.specs.View.{object_of};
ghost use Rattle.rv_link_laws.specs.Collects.{entry_place, graph_of, lies_in};
ghost use Rattle.rv_names.specs.Names.{IsNames};
ghost use Rattle.rv_link_laws.specs.Undefined.{is_loaded_at};
ghost use Rattle.rv_collect.specs.Drops.{id_at};
ghost use Rattle.rv_collect.specs.Targets.{leads_in, target_in};
ghost use Rattle.rv_collect_laws.specs.Graph.{Has};

use crate::marks::Marks;
use rv_names::Names;
use rv_object_types::{FileIndex, Object, Place, Relocation, SectionIndex, SymbolIndex};
use std::alloc::{AllocError, Global};

/// The sections that are marked so far.
#[derive(Drop)]
pub(crate) struct Walk {
    /// Which they are.
    pub(crate) marks: Marks,
    /// Their files and their indices there, in the order in which they were marked.
    pub(crate) queue: Vec<(FileIndex, SectionIndex)>,
}

impl Walk {
    ghost use Rattle.rv_collect.specs.Marks.{is_marked};
    ghost use Rattle.rv_collect.specs.Walk.{AreFollowed, Grows, IsEnded, IsMarked, IsPlaceMarked, IsReached, IsWalk};

    /// Marks the section of the entry, and all to which marked ones refer.
    pub(crate) fn of(
        alloc: Global,
        objects: &[Object<'_>],
        names: &Names<'_>,
    ) -> Result<Walk, AllocError>
        requires { IsNames (map object_of objects.now) names.now }
        ensures { IfOk result (IsEnded (map object_of objects.now)) }
    {
        let mut walk = Walk::start(alloc, objects)?;
        walk.enter(objects, names)?;
        walk.follow(objects, names)?;
        Ok(walk)
    }

    /// Nothing is marked yet.
    fn start(alloc: Global, objects: &[Object<'_>]) -> Result<Walk, AllocError>
        ensures { IfOk result (IsWalk (map object_of objects.now)) }
    {
        let marks = Marks::none(alloc, objects)?;
        Ok(Walk {
            marks,
            queue: Vec::new(alloc),
        })
    }

    /// Marks the section of the entry.
    fn enter(&mut self, objects: &[Object<'_>], names: &Names<'_>) -> Result<(), AllocError>
        requires names { IsNames (map object_of objects.now) names.now }
        requires walk { IsWalk (map object_of objects.now) self.old }
        ensures walk { OnOk result (IsWalk (map object_of objects.now) self.new) }
        ensures begun { OnOk result (IsPlaceMarked (map object_of objects.now) self.new
            (entry_place (map object_of objects.now))) }
    {
        self.mark_place(objects, names.entry_place(objects))
    }

    /// Marks all to which marked sections refer, and all to which those refer.
    fn follow(&mut self, objects: &[Object<'_>], names: &Names<'_>) -> Result<(), AllocError>
        requires names { IsNames (map object_of objects.now) names.now }
        requires walk { IsWalk (map object_of objects.now) self.old }
        requires begun { IsPlaceMarked (map object_of objects.now) self.old
            (entry_place (map object_of objects.now)) }
        ensures { OnOk result (IsEnded (map object_of objects.now) self.new) }
    {
        let mut next = 0;
        while next < self.queue.len() {
            let section = self.queue[next];
            self.mark_targets(objects, names, section.0, section.1)?;
            next += 1;
        }
        Ok(())
    }

    /// Marks all to which a marked section of a file refers.
    fn mark_targets(
        &mut self,
        objects: &[Object<'_>],
        names: &Names<'_>,
        file: FileIndex,
        index: SectionIndex,
    ) -> Result<(), AllocError>
        requires names { IsNames (map object_of objects.now) names.now }
        requires walk { IsWalk (map object_of objects.now) self.old }
        requires has { Has (graph_of (map object_of objects.now)) (id_at file.0 index.0) }
        requires marked { is_marked (self.old).marks (id_at file.0 index.0) ≡ true }
        ensures walk { OnOk result (IsWalk (map object_of objects.now) self.new) }
        ensures grows { OnOk result (Grows self.old self.new) }
        ensures followed { OnOk result
            (AreFollowed (map object_of objects.now) self.new (id_at file.0 index.0)) }
    {
        let object = &objects[file.0];
        let section = &object.sections[index.0];
        self.mark_all(objects, names, file, object, section.relocations.as_slice())?;
        Ok(())
    }

    /// Marks the sections where the symbols of relocations of an object stand, which is a file.
    fn mark_all(
        &mut self,
        objects: &[Object<'_>],
        names: &Names<'_>,
        file: FileIndex,
        object: &Object<'_>,
        relocations: &[Relocation],
    ) -> Result<(), AllocError>
        requires names { IsNames (map object_of objects.now) names.now }
        requires object { slice_get (map object_of objects.now) file.0
            ≡ Some (object_of object.now) }
        requires walk { IsWalk (map object_of objects.now) self.old }
        requires reached { (t : SectionId) → leads_in (map object_of objects.now) file.0
            (object_of object.now) t (map relocation_of relocations.now) ≡ true
            → IsReached (map object_of objects.now) self.old t }
        ensures walk { OnOk result (IsWalk (map object_of objects.now) self.new) }
        ensures grows { OnOk result (Grows self.old self.new) }
        ensures marked { OnOk result ((t : SectionId) → leads_in (map object_of objects.now) file.0
            (object_of object.now) t (map relocation_of relocations.now) ≡ true
            → IsMarked (map object_of objects.now) self.new t) }
    {
        for relocation in relocations {
            self.mark_target(objects, names, file, object, relocation)?;
        }
        Ok(())
    }

    /// Marks the section where the symbol of a relocation of an object stands, which is a file.
    fn mark_target(
        &mut self,
        objects: &[Object<'_>],
        names: &Names<'_>,
        file: FileIndex,
        object: &Object<'_>,
        relocation: &Relocation,
    ) -> Result<(), AllocError>
        requires names { IsNames (map object_of objects.now) names.now }
        requires object { slice_get (map object_of objects.now) file.0
            ≡ Some (object_of object.now) }
        requires walk { IsWalk (map object_of objects.now) self.old }
        requires reached { (t : SectionId) → lies_in t
            (target_in (map object_of objects.now) file.0 (object_of object.now)
            (relocation_of relocation.now)) ≡ true
            → IsReached (map object_of objects.now) self.old t }
        ensures walk { OnOk result (IsWalk (map object_of objects.now) self.new) }
        ensures grows { OnOk result (Grows self.old self.new) }
        ensures marked { OnOk result (IsPlaceMarked (map object_of objects.now) self.new
            (target_in (map object_of objects.now) file.0 (object_of object.now)
            (relocation_of relocation.now))) }
    {
        self.mark_place(objects, target(objects, names, file, object, relocation))
    }

    /// Marks the section of a place, if there is one.
    fn mark_place(&mut self, objects: &[Object<'_>], place: Option<Place>) -> Result<(), AllocError>
        requires walk { IsWalk (map object_of objects.now) self.old }
        requires reached { (t : SectionId) → lies_in t (option_map place_of place) ≡ true
            → IsReached (map object_of objects.now) self.old t }
        ensures walk { OnOk result (IsWalk (map object_of objects.now) self.new) }
        ensures grows { OnOk result (Grows self.old self.new) }
        ensures marked { OnOk result
            (IsPlaceMarked (map object_of objects.now) self.new (option_map place_of place)) }
    {
        let Some(place) = place else {
            return Ok(());
        };
        self.mark(objects, place.file, place.section)?;
        Ok(())
    }

    /// Marks a section of a file, if it has an address and isn't marked yet.
    fn mark(
        &mut self,
        objects: &[Object<'_>],
        file: FileIndex,
        index: SectionIndex,
    ) -> Result<(), AllocError>
        requires walk { IsWalk (map object_of objects.now) self.old }
        requires reached { IsReached (map object_of objects.now) self.old (id_at file.0 index.0) }
        ensures walk { OnOk result (IsWalk (map object_of objects.now) self.new) }
        ensures grows { OnOk result (Grows self.old self.new) }
        ensures marked { OnOk result
            (IsMarked (map object_of objects.now) self.new (id_at file.0 index.0)) }
    {
        if !is_loaded(objects, file, index) {
            return Ok(());
        }
        if self.marks.at(file, index) {
            return Ok(());
        }
        self.marks.put(file, index);
        self.queue.push((file, index))?;
        Ok(())
    }
}

/// Where the symbol of a relocation of an object stands, which is a file.
fn target(
    objects: &[Object<'_>],
    names: &Names<'_>,
    file: FileIndex,
    object: &Object<'_>,
    relocation: &Relocation,
) -> Option<Place>
    ensures { IsNames (map object_of objects.now) names.now
        → slice_get (map object_of objects.now) file.0 ≡ Some (object_of object.now)
        → option_map place_of result
        ≡ target_in (map object_of objects.now) file.0 (object_of object.now)
        (relocation_of relocation.now) }
{
    let index = relocation.symbol?;
    let index = SymbolIndex(index as usize);
    let symbol = object.symbols.get(index.0)?;
    names.place_of(objects, file, index, symbol.binding, symbol.definition)
}

/// Whether a section of a file has an address.
fn is_loaded(objects: &[Object<'_>], file: FileIndex, index: SectionIndex) -> bool
    ensures { result ≡ is_loaded_at
        (option_and_then (λ (o : SaidObject). slice_get o.sections index.0)
        (slice_get (map object_of objects.now) file.0)) }
{
    match objects.get(file.0) {
        Some(object) => match object.sections.get(index.0) {
            Some(section) => section.loaded,
            None => false,
        },
        None => false,
    }
}
