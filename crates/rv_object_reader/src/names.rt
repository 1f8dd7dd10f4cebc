//! The names of a file's sections.

ghost use Rattle.std.specs.Prelude.{◌≡◌, ◌<◌, ℕ, not};
ghost use Rattle.rv_elf_laws.specs.Sections.{section_count, names_section};
ghost use Rattle.rv_object_file_laws.specs.FirstFault.{is_none};
ghost use Rattle.rv_object_file_laws.specs.Parts.{name_at, name_of, is_named, is_rows, is_kept};
ghost use Rattle.rv_object_file_laws.specs.Rows.{rows_name};
ghost use Rattle.rv_object_reader.specs.Names.{names_table, names_end};

use crate::shown_strings::end_of_strings;
use rv_elf::{ElfView, SectionIndex};
use rv_elf_laws::SectionHeader;

/// The name of the section of rows, as a table of names has it.
const ROWS_NAME: &[u8] = b".rv.rows\0";

/// The names of a file's sections.
#[derive(Clone, Copy, Drop)]
pub(crate) struct Names<'a> {
    /// The file.
    pub(crate) view: ElfView<'a>,
    /// The bytes of the table of names; none where the file has no such table.
    table: &'a [u8],
    /// Strings that begin from here on have no end; offset 0 is no name, wherever that is.
    end: u64,
    ghost tabled: { table.now ≡ names_table view.file.now },
    ghost ended: { end ≡ names_end view.file.now },
}

impl<'a> Names<'a> {
    /// Those of a file.
    pub(crate) fn of(view: ElfView<'a>) -> Names<'a>
        requires { 0 < names_section view.file.now
            → names_section view.file.now < section_count view.file.now }
        ensures { result.view.file.now ≡ view.entry.file.now }
    {
        let index = view.header().e_shstrndx;
        if index == 0 {
            return Names {
                view,
                table: &[],
                end: 1 << 32,
            };
        }
        let table = view.section(SectionIndex(index));
        let end = end_of_strings(table);
        Names { view, table, end }
    }

    /// Whether the section has no name, or one that ends.
    pub(crate) fn has_name(&self, header: &SectionHeader) -> bool
        ensures { result ≡ not (is_none (name_of self.now.view.file.now header.now)) }
    {
        header.sh_name == 0 || u64::from(header.sh_name) < self.end
    }

    /// Whether the section has the rows.
    pub(crate) fn is_rows(&self, header: &SectionHeader) -> bool
        ensures { result ≡ is_rows self.now.view.file.now header.now }
    {
        header.sh_type == 1 && is_rows_name(self.table, header.sh_name)
    }

    /// Whether an object keeps the section.
    pub(crate) fn is_kept(&self, header: &SectionHeader) -> bool
        ensures { (i : ℕ) → result ≡ is_kept self.now.view.file.now
            (record { index = i; header = header.now }) }
    {
        header.sh_type == 1 && !self.is_rows(header) || header.sh_type == 7 || header.sh_type == 8
    }
}

/// Whether the name at an offset is that of the section of rows.
fn is_rows_name(table: &[u8], offset: u32) -> bool
    ensures { result ≡ is_named rows_name (name_at table.now offset) }
{
    if offset == 0 {
        return false;
    }
    match table.get(offset as usize..) {
        Some(rest) => rest.starts_with(ROWS_NAME),
        None => false,
    }
}
