//! Marks of sections.

ghost use Rattle.std.specs.Prelude.{◌≡◌, ◌<◌, ◌||◌, ◌&&◌, ◌==◌, ℕ, false, length, map, replicate, IfOk};
ghost use Rattle.rv_object_types.specs.View.{object_of};
ghost use Rattle.rv_collect.specs.Drops as laws;

use rv_object_types::{FileIndex, Object, SectionIndex};
use std::alloc::{AllocError, Global};

/// Which sections are marked.
#[derive(Drop)]
pub(crate) struct Marks {
    /// The mark of each section, by its file and its index there.
    pub(crate) files: Vec<Vec<bool>>,
}

impl Marks {
    ghost use Rattle.rv_collect.specs.Marks.{AreLike, mark_at, row_of, mark_rows};

    /// Marks for the sections of objects, of which none is marked.
    pub(crate) fn none(alloc: Global, objects: &[Object<'_>]) -> Result<Marks, AllocError>
        ensures none { IfOk result (λ marks. (file index : ℕ)
            → mark_at marks file index ≡ false) }
        ensures like { IfOk result (AreLike (map object_of objects.now)) }
    {
        let mut files = Vec::with_capacity(alloc, objects.len())?;
        for object in objects {
            let row = unmarked(alloc, object.sections.len())?;
            files.push(row)?;
        }
        Ok(Marks { files })
    }

    /// The marks of a file.
    pub(crate) fn of_file(&self, file: FileIndex) -> &[bool]
        ensures { result.now ≡ row_of self.now file.0 }
    {
        match self.files.get(file.0) {
            Some(row) => row.as_slice(),
            None => &[],
        }
    }

    /// Whether a section of a file is marked.
    pub(crate) fn at(&self, file: FileIndex, index: SectionIndex) -> bool
        ensures { result ≡ mark_at self.now file.0 index.0 }
    {
        mark_in(self.of_file(file), index)
    }

    /// Marks a section of a file.
    pub(crate) fn put(&mut self, file: FileIndex, index: SectionIndex)
        requires { index.0 < length (row_of self.old file.0) }
        ensures marked { (f i : ℕ) → mark_at self.new f i
            ≡ (f == file.0) && (i == index.0) || mark_at self.old f i }
        ensures like { map length (mark_rows self.new) ≡ map length (mark_rows self.old) }
    {
        let row = &mut self.files[file.0];
        row[index.0] = true;
    }
}

/// So many marks, none of them set.
fn unmarked(alloc: Global, count: usize) -> Result<Vec<bool>, AllocError>
    ensures { IfOk result (λ row. row.items ≡ replicate count false) }
{
    vec![in alloc; false; count]
}

/// The mark of a section, by its index in its file.
pub(crate) fn mark_in(row: &[bool], index: SectionIndex) -> bool
    ensures { result ≡ laws.mark_in row.now index.0 }
{
    match row.get(index.0) {
        Some(mark) => *mark,
        None => false,
    }
}
