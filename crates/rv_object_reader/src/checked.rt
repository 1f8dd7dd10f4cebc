//! A file that was found to be an object, with what is looked up in it.

ghost use Rattle.std.specs.Prelude.{◌≡◌, ◌<◌, None, IfSome, option_map};
ghost use Rattle.std.specs.Option.{ForSome, is_some};
ghost use Rattle.rv_elf_laws.specs.Sections.{section_count};
ghost use Rattle.rv_object_file_laws.specs.FirstFault.{first_fault};
ghost use Rattle.rv_object_file_laws.specs.Parts.{is_kept, symbol_table};
ghost use Rattle.rv_object_reader.specs.Found.{section_at, place_at, places_of, rows_section};

use rv_elf::{ElfView, SectionIndex};

/// A file that is an object: none of its faults is there.
#[derive(Drop)]
pub(crate) struct Checked<'a> {
    /// The file.
    pub view: ElfView<'a>,
    /// The place of each section among those that an object keeps, by its index in the file.
    pub(crate) places: Vec<Option<u16>>,
    /// The symbol table, if it has one.
    pub(crate) symbols: Option<SectionIndex>,
    /// The section of rows, if it has one.
    pub(crate) rows: Option<SectionIndex>,
    /// It is an object.
    pub ghost good: { first_fault view.file.now ≡ None },
    ghost placed: { places.items ≡ places_of view.file.now },
    ghost has_symbols: { symbol_table view.file.now
        ≡ option_map (λ i. section_at view.file.now i.0) symbols },
    ghost symbols_within: { ForSome symbols (λ i. i.0 < section_count view.file.now) },
    ghost has_rows: { rows_section view.file.now
        ≡ option_map (λ i. section_at view.file.now i.0) rows },
    ghost rows_within: { ForSome rows (λ i. i.0 < section_count view.file.now) },
}

impl<'a> Checked<'a> {
    /// The place of the section of an index among those that an object keeps; `None` of one that is not kept.
    pub fn place(&self, index: SectionIndex) -> Option<u16>
        requires { index.0 < section_count self.now.view.file.now }
        ensures place { result ≡ place_at self.now.view.file.now index.0 }
        ensures kept { 0 < index.0 → is_some result
            ≡ is_kept self.now.view.file.now (section_at self.now.view.file.now index.0) }
    {
        self.places[index.0 as usize]
    }

    /// The index of the symbol table; `None` where there is none.
    pub fn symbol_table(&self) -> Option<SectionIndex>
        ensures found { symbol_table self.now.view.file.now
            ≡ option_map (λ i. section_at self.now.view.file.now i.0) result }
        ensures within { IfSome result (λ i. i.0 < section_count self.now.view.file.now) }
    {
        self.symbols
    }

    /// The index of the section with the rows; `None` where there is none.
    pub fn rows(&self) -> Option<SectionIndex>
        ensures found { rows_section self.now.view.file.now
            ≡ option_map (λ i. section_at self.now.view.file.now i.0) result }
        ensures within { IfSome result (λ i. i.0 < section_count self.now.view.file.now) }
    {
        self.rows
    }
}
