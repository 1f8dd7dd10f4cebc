//! What collection keeps, and what it drops.

ghost use Rattle.std.specs.Prelude.{◌≡◌, ◌++◌, ◌+◌, ◌^◌, ◌<◌, [], ◌∷◌, All, true, map, if◌then◌else◌, OnOk, IfOk};
ghost use Rattle.rv_map_laws.specs.Limits.{IsDrop};
ghost use Rattle.rv_object_types.specs.Sections.{section_of};
ghost use Rattle.rv_object_types.specs.View.{object_of};
ghost use Rattle.rv_link_laws.specs.Collects.{Collects};
ghost use Rattle.rv_link_laws.specs.Without.{without};
ghost use Rattle.rv_names.specs.Names.{IsNames};
ghost use Rattle.rv_collect.specs.Drops.{drops_in, dropped_from, id_at};

use crate::left::{is_dropped, left_object};
use crate::marks::Marks;
use crate::walk::Walk;
use rv_map_laws::SectionId;
use rv_names::Names;
use rv_object_types::{FileIndex, Object, Section, SectionIndex};
use std::alloc::{AllocError, Global};

/// Which sections of objects stay.
#[derive(Drop)]
pub struct Collection {
    pub(crate) marks: Marks,
}

impl Collection {
    ghost use Rattle.rv_collect.specs.Marks.{drops_of};

    /// The sections that are kept: the fewest that hold the entry's section and, with a section, those to which it refers.
    pub fn of(
        alloc: Global,
        objects: &[Object<'_>],
        names: &Names<'_>,
    ) -> Result<Collection, AllocError>
        requires { IsNames (map object_of objects.now) names.now }
        ensures { IfOk result (λ c. Collects true (map object_of objects.now)
            (drops_of (map object_of objects.now) c)) }
    {
        let walk = Walk::of(alloc, objects, names)?;
        Ok(Collection { marks: walk.marks })
    }

    /// What is dropped, by file and number.
    pub fn drops(&self, alloc: Global, objects: &[Object<'_>]) -> Result<Vec<SectionId>, AllocError>
        ensures known { IfOk result (λ drops. All (λ d. IsDrop d) drops.items) }
        ensures dropped { IfOk result
            (λ drops. drops.items ≡ drops_of (map object_of objects.now) self.now) }
    {
        let mut drops = Vec::new(alloc);
        for file in 0..objects.len() {
            let marks = self.marks.of_file(FileIndex(file));
            put_drops(
                &mut drops,
                FileIndex(file),
                objects[file].sections.as_slice(),
                marks,
            )?;
        }
        Ok(drops)
    }

    /// The objects that are left. They lend names and bytes from those before: none is copied.
    pub fn left<'o>(
        &self,
        alloc: Global,
        objects: &'o [Object<'_>],
    ) -> Result<Vec<Object<'o>>, AllocError>
        ensures { IfOk result (λ left. map object_of left.items
            ≡ without (drops_of (map object_of objects.now) self.now)
            (map object_of objects.now)) }
    {
        let mut left = Vec::with_capacity(alloc, objects.len())?;
        for file in 0..objects.len() {
            let marks = self.marks.of_file(FileIndex(file));
            let object = left_object(alloc, &objects[file], marks)?;
            left.push(object)?;
        }
        Ok(left)
    }
}

/// Adds the sections of a file that are dropped.
fn put_drops(
    drops: &mut Vec<SectionId>,
    file: FileIndex,
    sections: &[Section<'_>],
    marks: &[bool],
) -> Result<(), AllocError>
    requires { file.0 + 1 < 2 ^ 64 }
    ensures known { OnOk result (All (λ d. IsDrop d) drops.old.items
        → All (λ d. IsDrop d) drops.new.items) }
    ensures dropped { OnOk result (drops.new.items ≡ drops.old.items
        ++ dropped_from (drops_in (map section_of sections.now) marks.now) file.0 0
        (map section_of sections.now)) }
{
    for index in 0..sections.len() {
        let index = SectionIndex(index);
        put_drop(drops, file, index, is_dropped(sections, marks, index))?;
    }
    Ok(())
}

/// Adds a section of a file, if it is dropped.
fn put_drop(
    drops: &mut Vec<SectionId>,
    file: FileIndex,
    index: SectionIndex,
    dropped: bool,
) -> Result<(), AllocError>
    requires file { file.0 + 1 < 2 ^ 64 }
    requires index { index.0 + 1 < 2 ^ 64 }
    ensures known { OnOk result (All (λ d. IsDrop d) drops.old.items
        → All (λ d. IsDrop d) drops.new.items) }
    ensures dropped { OnOk result (drops.new.items ≡ drops.old.items
        ++ (if dropped then id_at file.0 index.0 ∷ [] else [])) }
{
    if !dropped {
        return Ok(());
    }
    drops.push(section_id(file, index))?;
    Ok(())
}

/// The numbers of a section of a file.
fn section_id(file: FileIndex, index: SectionIndex) -> SectionId
    requires file { file.0 + 1 < 2 ^ 64 }
    requires index { index.0 + 1 < 2 ^ 64 }
    ensures known { IsDrop result }
    ensures numbered { result ≡ id_at file.0 index.0 }
{
    SectionId {
        file: file.0 as u64 + 1,
        section: index.0 as u64 + 1,
    }
}
