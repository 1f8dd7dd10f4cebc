//! What is left of an object without the sections that are dropped.
//!
//! It lends names and bytes from the object before, and has its own lists of sections, symbols and rows. So no pass behind has to
//! know that sections can be dropped: an object is all that it sees.

ghost use Rattle.std.specs.Prelude.{◌≡◌, ◌++◌, [], ◌∷◌, true, not, map, filter, if◌then◌else◌, IfOk, OnOk};
ghost use Rattle.rv_object_types.specs.Parts.{symbol_of};
ghost use Rattle.rv_object_types.specs.Sections.{section_of};
ghost use Rattle.rv_object_types.specs.View.{object_of};
ghost use Rattle.rv_link_laws.specs.Without.{without_object, without_section, without_sections};
ghost use Rattle.rv_collect.specs.Drops.{drops_in};

use crate::marks::mark_in;
use rv_object_types::{Object, Row, Section, SectionIndex, Symbol};
use std::alloc::{AllocError, Global};

/// What is left of an object, with the marks of its sections.
pub(crate) fn left_object<'o>(
    alloc: Global,
    object: &'o Object<'_>,
    marks: &[bool],
) -> Result<Object<'o>, AllocError>
    ensures { IfOk result (λ left. object_of left
        ≡ without_object (drops_in (object_of object.now).sections marks.now)
        (object_of object.now)) }
{
    let sections = left_sections(alloc, object.sections.as_slice(), marks)?;
    let symbols = same_symbols(alloc, object.symbols.as_slice())?;
    let rows = left_rows(
        alloc,
        object.rows.as_slice(),
        object.sections.as_slice(),
        marks,
    )?;
    Ok(Object {
        sections,
        symbols,
        rows,
        rvc: object.rvc,
    })
}

/// Whether the section at an index is dropped: one with an address that isn't marked.
pub(crate) fn is_dropped(sections: &[Section<'_>], marks: &[bool], index: SectionIndex) -> bool
    ensures { result ≡ drops_in (map section_of sections.now) marks.now index.0 }
{
    match sections.get(index.0) {
        Some(section) => section.loaded && !mark_in(marks, index),
        None => false,
    }
}

/// What is left of the sections of an object.
fn left_sections<'o>(
    alloc: Global,
    sections: &'o [Section<'_>],
    marks: &[bool],
) -> Result<Vec<Section<'o>>, AllocError>
    ensures { IfOk result (λ left. map section_of left.items
        ≡ without_sections (drops_in (map section_of sections.now) marks.now) 0
        (map section_of sections.now)) }
{
    let mut left = Vec::with_capacity(alloc, sections.len())?;
    for index in 0..sections.len() {
        let dropped = is_dropped(sections, marks, SectionIndex(index));
        let section = left_section(alloc, &sections[index], dropped)?;
        left.push(section)?;
    }
    Ok(left)
}

/// What is left of a section.
fn left_section<'o>(
    alloc: Global,
    section: &'o Section<'_>,
    dropped: bool,
) -> Result<Section<'o>, AllocError>
    ensures { IfOk result
        (λ left. section_of left ≡ without_section dropped (section_of section.now)) }
{
    if dropped {
        Ok(dropped_section(alloc, section))
    } else {
        kept_section(alloc, section)
    }
}

/// A section that is dropped: it has no address, and so no relocations.
fn dropped_section<'o>(alloc: Global, section: &'o Section<'_>) -> Section<'o>
    ensures { section_of result ≡ without_section true (section_of section.now) }
{
    Section {
        name: section.name,
        loaded: false,
        executable: section.executable,
        writable: section.writable,
        contents: section.contents.lent(),
        alignment: section.alignment,
        relocations: Vec::new(alloc),
    }
}

/// A section that stays.
fn kept_section<'o>(alloc: Global, section: &'o Section<'_>) -> Result<Section<'o>, AllocError>
    ensures { IfOk result (λ kept. section_of kept ≡ section_of section.now) }
{
    let relocations = Vec::from_slice(alloc, section.relocations.as_slice())?;
    Ok(Section {
        name: section.name,
        loaded: section.loaded,
        executable: section.executable,
        writable: section.writable,
        contents: section.contents.lent(),
        alignment: section.alignment,
        relocations,
    })
}

/// The symbols of an object: they stay, and so names mean what they meant.
fn same_symbols<'o>(alloc: Global, symbols: &'o [Symbol<'_>]) -> Result<Vec<Symbol<'o>>, AllocError>
    ensures { IfOk result
        (λ same. map symbol_of same.items ≡ map symbol_of symbols.now) }
{
    let mut same = Vec::with_capacity(alloc, symbols.len())?;
    for symbol in symbols {
        same.push(same_symbol(symbol))?;
    }
    Ok(same)
}

/// A symbol once more.
fn same_symbol<'o>(symbol: &'o Symbol<'_>) -> Symbol<'o>
    ensures { symbol_of result ≡ symbol_of symbol.now }
{
    Symbol {
        name: symbol.name,
        binding: symbol.binding,
        definition: symbol.definition,
    }
}

/// The rows of an object whose sections stay.
fn left_rows(
    alloc: Global,
    rows: &[Row],
    sections: &[Section<'_>],
    marks: &[bool],
) -> Result<Vec<Row>, AllocError>
    ensures { IfOk result (λ left. left.items
        ≡ filter (λ r. not (drops_in (map section_of sections.now) marks.now r.section))
        rows.now) }
{
    let mut left = Vec::new(alloc);
    for row in rows {
        put_row(&mut left, *row, sections, marks)?;
    }
    Ok(left)
}

/// Adds a row, if its section stays.
fn put_row(
    left: &mut Vec<Row>,
    row: Row,
    sections: &[Section<'_>],
    marks: &[bool],
) -> Result<(), AllocError>
    ensures { OnOk result (left.new.items ≡ left.old.items
        ++ (if not (drops_in (map section_of sections.now) marks.now row.section)
        then row ∷ [] else [])) }
{
    if is_dropped(sections, marks, SectionIndex(row.section as usize)) {
        return Ok(());
    }
    left.push(row)?;
    Ok(())
}
