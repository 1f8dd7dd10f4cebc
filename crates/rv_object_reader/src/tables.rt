//! What is looked up in a file, once.

ghost use Rattle.std.specs.Prelude.{◌≡◌, ◌<◌, ◌≤◌, ◌-◌, ◌+◌, IfOk, IfSome, None, Some, option_map, if◌then◌else◌};
ghost use Rattle.std.specs.Option.{ForSome};
ghost use Rattle.rv_elf_laws.specs.Sections.{section_count};
ghost use Rattle.rv_object_file_laws.specs.Parts.{symbol_table};
ghost use Rattle.rv_object_reader.specs.Found.{section_at, places_of, rows_section};

use crate::headers::is_symbol_table;
use crate::names::Names;
use rv_elf::{ElfView, SectionIndex};
use std::alloc::{AllocError, Global};

/// A file with what is looked up in it.
#[derive(Drop)]
pub(crate) struct Tables<'a> {
    /// The file, and the names of its sections.
    pub(crate) names: Names<'a>,
    /// The place of each section among those that an object keeps, by its index in the file.
    pub(crate) places: Vec<Option<u16>>,
    /// The first section of symbols.
    pub(crate) symbols: Option<SectionIndex>,
    /// The first section of rows.
    pub(crate) rows: Option<SectionIndex>,
    ghost placed: { places.items ≡ places_of names.view.file.now },
    ghost has_symbols: { symbol_table names.view.file.now
        ≡ option_map (λ i. section_at names.view.file.now i.0) symbols },
    ghost symbols_within: { ForSome symbols (λ i. i.0 < section_count names.view.file.now) },
    ghost has_rows: { rows_section names.view.file.now
        ≡ option_map (λ i. section_at names.view.file.now i.0) rows },
    ghost rows_within: { ForSome rows (λ i. i.0 < section_count names.view.file.now) },
}

impl<'a> Tables<'a> {
    /// Those of a file.
    pub(crate) fn of(alloc: Global, names: Names<'a>) -> Result<Tables<'a>, AllocError>
        ensures { IfOk result (λ tables. tables.names.view.file.now ≡ names.entry.view.file.now) }
    {
        Ok(Tables {
            places: places(alloc, &names)?,
            symbols: first_symbols(&names),
            rows: first_rows(&names),
            names,
        })
    }
}

/// How many sections there are behind section 0.
pub(crate) fn count_sections(view: &ElfView<'_>) -> u16
    ensures { result ≡ section_count view.now.file.now - 1 }
{
    view.header().e_shnum.saturating_sub(1)
}

/// The place of each section among those that an object keeps.
fn places(alloc: Global, names: &Names<'_>) -> Result<Vec<Option<u16>>, AllocError>
    ensures { IfOk result (λ places. places.items ≡ places_of names.now.view.file.now) }
{
    let mut places = Vec::new(alloc);
    places.push(None)?;
    let mut next = 0;
    for earlier in 0..count_sections(&names.view) {
        let header = names.view.section_header(SectionIndex(earlier + 1));
        let kept = names.is_kept(&header);
        places.push(place(kept, next))?;
        next = following(kept, next, earlier);
    }
    Ok(places)
}

/// The next place, of a section that is kept.
fn place(kept: bool, next: u16) -> Option<u16>
    ensures { result ≡ (if kept then Some next else None) }
{
    if kept { Some(next) } else { None }
}

/// The place that is next behind a section with `earlier` others before it.
fn following(kept: bool, next: u16, earlier: u16) -> u16
    requires few { earlier < 0xFF00 }
    requires within { next ≤ earlier }
    ensures { result ≡ (if kept then next + 1 else next) }
{
    if kept { next + 1 } else { next }
}

/// The first section of symbols.
fn first_symbols(names: &Names<'_>) -> Option<SectionIndex>
    ensures found { symbol_table names.now.view.file.now
        ≡ option_map (λ i. section_at names.now.view.file.now i.0) result }
    ensures within { IfSome result (λ i. i.0 < section_count names.now.view.file.now) }
{
    for earlier in 0..count_sections(&names.view) {
        let index = SectionIndex(earlier + 1);
        if is_symbol_table(&names.view.section_header(index)) {
            return Some(index);
        }
    }
    None
}

/// The first section of rows.
fn first_rows(names: &Names<'_>) -> Option<SectionIndex>
    ensures found { rows_section names.now.view.file.now
        ≡ option_map (λ i. section_at names.now.view.file.now i.0) result }
    ensures within { IfSome result (λ i. i.0 < section_count names.now.view.file.now) }
{
    for earlier in 0..count_sections(&names.view) {
        let index = SectionIndex(earlier + 1);
        if names.is_rows(&names.view.section_header(index)) {
            return Some(index);
        }
    }
    None
}
