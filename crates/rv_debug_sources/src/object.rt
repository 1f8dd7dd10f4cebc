//! Objects without the rows of sections that are not loaded, which rows do not name.

ghost use Rattle.std.specs.Prelude.{◌≡◌, map};
ghost use Rattle.rv_object_types.specs.Sections.{section_of};
ghost use Rattle.rv_object_types.specs.View.{object_of};
ghost use Rattle.rv_debug_sources.specs.Unloaded as laws;

use rv_object_types::{Object, Row, Section};

/// An object without the rows of sections that are not loaded among others, those of the source itself.
pub fn without_unloaded_rows<'a>(object: Object<'a>, own: &[Section<'_>]) -> Object<'a>
    ensures { object_of result
        ≡ laws.without_unloaded_rows (map section_of own.now) (object_of object.entry) }
{
    let Object {
        sections,
        symbols,
        rows,
        rvc,
    } = object;
    let mut rows = rows;
    rows.retain(|row| keeps_row(own, row));
    Object {
        sections,
        symbols,
        rows,
        rvc,
    }
}

/// Whether a row is one of a loaded section.
fn keeps_row(own: &[Section<'_>], row: &Row) -> bool
    ensures { result ≡ laws.keeps_row (map section_of own.now) row.now }
{
    is_loaded(own, row.section as usize)
}

/// Whether the section of this index is loaded.
pub(crate) fn is_loaded(own: &[Section<'_>], index: usize) -> bool
    ensures { result ≡ laws.is_loaded_at (map section_of own.now) index }
{
    match own.get(index) {
        Some(section) => section.loaded,
        None => false,
    }
}
