//! A section of which calls are cut short.

ghost use Rattle.std.specs.Prelude.{◌≡◌, true, IsTrue, length, map};
ghost use Rattle.rv_object_laws.specs.Object.{size_of, stored};
ghost use Rattle.rv_object_types.specs.Parts.{relocation_of};
ghost use Rattle.rv_object_types.specs.Sections.{section_of};
ghost use Rattle.rv_link_laws.specs.Inputs as inputs;
ghost use Rattle.rv_link_laws.specs.Moves.{new_offset as offset_of};
ghost use Rattle.rv_shorten.specs.Cut.{are_in_order, move_of};
ghost use Rattle.rv_cut_laws.specs.Cutting.{AreCuts, are_cuts, cut_relocation, cut_section, fits, keeps_paddings};

use crate::bytes::LeftBytes;
use crate::cut::Cut;
use crate::offsets::new_offset;
use crate::relocations::moved;
use rv_object_types::{Contents, Relocation, Section};

/// A section, less what is cut of its calls. It is lent, and nothing of it is copied: what moves is told when it is asked for.
#[derive(Drop)]
pub struct ShortSection<'o, 'a> {
    /// The section as it was. Its name, its flags and its alignment stay.
    pub whole: &'o Section<'a>,
    /// Its calls that are cut short.
    pub(crate) cuts: Vec<Cut>,
    /// They stand one behind the other.
    ghost order: { IsTrue (are_in_order 0 0 cuts.items) },
    /// They lie in the bytes that the section has in the file.
    ghost within: { IsTrue
        (are_cuts 0 (length (stored (section_of whole.now).contents)) (map move_of cuts.items)) },
    /// Its bytes are what is left of them.
    ghost sized: { size_of (cut_section (map move_of cuts.items) (section_of whole.now)).contents
        ≡ offset_of (map move_of cuts.items) (size_of (section_of whole.now).contents) },
    /// Each field lies in the bytes that are left.
    pub ghost inside: { IsTrue
        (fits (cut_section (map move_of cuts.items) (section_of whole.now))) },
    /// Each padding lies there as well, in code at an even offset, and meets no field.
    pub ghost paddings: { IsTrue
        (keeps_paddings (cut_section (map move_of cuts.items) (section_of whole.now))) },
}

impl<'o, 'a> ShortSection<'o, 'a> {
    ghost use Rattle.rv_shorten.specs.Bytes.{left_bytes};
    ghost use Rattle.rv_shorten.specs.Sections.{moves_in, short_section_of, whole_section_of};

    /// A section of which these calls are cut short.
    pub(crate) fn of(whole: &'o Section<'a>, cuts: Vec<Cut>) -> ShortSection<'o, 'a>
        requires order { are_in_order 0 0 cuts.items ≡ true }
        requires cuts { AreCuts (section_of whole.now) (map move_of cuts.items) }
        ensures whole { whole_section_of result ≡ section_of whole.now }
        ensures cuts { moves_in result ≡ map move_of cuts.items }
        ensures left { short_section_of result
            ≡ cut_section (map move_of cuts.items) (section_of whole.now) }
    {
        ShortSection { whole, cuts }
    }

    /// Whether the file has no bytes of it.
    pub fn is_nobits(&self) -> bool
        ensures { result ≡ inputs.has_no_bytes (short_section_of self.now).contents }
    {
        match &self.whole.contents {
            Contents::Progbits(_) | Contents::Note(_) => false,
            Contents::Nobits(_) => true,
        }
    }

    /// Its bytes in memory.
    pub fn size(&self) -> u64
        ensures { result ≡ size_of (short_section_of self.now).contents }
    {
        new_offset(&self.cuts, self.whole.contents.size())
    }

    /// Where an offset of it is afterwards.
    pub fn new_offset(&self, old: u64) -> u64
        ensures { result ≡ offset_of (moves_in self.now) old }
    {
        new_offset(&self.cuts, old)
    }

    /// What one of its relocations is afterwards.
    pub fn relocation(&self, relocation: &Relocation) -> Relocation
        ensures { relocation_of result
            ≡ cut_relocation (moves_in self.now) (relocation_of relocation.now) }
    {
        moved(relocation, &self.cuts)
    }

    /// The bytes that are left of those that it has in the file.
    pub fn bytes(&self) -> LeftBytes<'_>
        ensures { left_bytes result ≡ stored (short_section_of self.now).contents }
    {
        LeftBytes::behind(&self.cuts, self.whole.contents.stored())
    }
}
