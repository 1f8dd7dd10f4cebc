//! Sections of an object.

ghost use Rattle.std.specs.Prelude.{◌≡◌, IsTrue, map};
ghost use Rattle.rv_link_laws.specs.Inputs.{goes_to_text};
ghost use Rattle.rv_object_types.specs.Parts.{relocation_of, contents_of};
ghost use Rattle.rv_object_laws.specs.Valid.{is_section_alignment, is_string, keeps_name, is_even, is_loaded_alone, fit_inside, are_paddings};

use crate::contents::Contents;
use crate::relocation::Relocation;

/// A section (gABI, "Sections").
#[derive(Drop)]
pub struct Section<'a> {
    /// The bytes of its name.
    pub name: &'a [u8],
    /// It has a place in memory (SHF_ALLOC).
    pub loaded: bool,
    /// It has instructions (SHF_EXECINSTR).
    pub executable: bool,
    /// A program may write to it (SHF_WRITE).
    pub writable: bool,
    /// Its bytes.
    pub contents: Contents<'a>,
    /// It begins at a multiple of this many bytes.
    pub alignment: u64,
    /// The fields of its bytes that the linker fills in, in the order in which it does.
    pub relocations: Vec<Relocation>,
    /// Its name has no zero byte.
    pub ghost named: { IsTrue (is_string name.now) },
    /// Bytes of the program have another name than the rows.
    pub ghost kept: { IsTrue (keeps_name (contents_of contents) name.now) },
    /// A power of two, from 1 to 4096.
    pub ghost aligned: { IsTrue (is_section_alignment alignment) },
    /// Code ends at an even offset.
    pub ghost even: { IsTrue (is_even executable (contents_of contents)) },
    /// Only sections with a place in memory have relocations.
    pub ghost alone: { IsTrue (is_loaded_alone loaded (map relocation_of relocations.items)) },
    /// Each field lies in the section's bytes.
    pub ghost inside: { IsTrue
        (fit_inside (contents_of contents) (map relocation_of relocations.items)) },
    /// Each padding lies there as well, in code at an even offset, and meets no field.
    pub ghost paddings: { IsTrue
        (are_paddings executable (contents_of contents) (map relocation_of relocations.items)) },
}

impl Section<'_> {
    ghost use Rattle.rv_object_types.specs.Sections.{section_of};

    /// Whether it goes to the text.
    pub fn is_text(&self) -> bool
        ensures { result ≡ goes_to_text (section_of self.now) }
    {
        self.loaded && self.executable
    }
}
