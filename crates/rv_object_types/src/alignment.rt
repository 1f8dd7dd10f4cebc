//! The multiples at which sections begin, and the paddings of alignments in their code.
//!
//! Source: RISC-V ELF psABI, "Linker Relaxation", R_RISCV_ALIGN; gABI, "Sections", sh_addralign.

ghost use Rattle.std.specs.Prelude.{◌≡◌, ◌<◌, ◌≤◌, map, max};
ghost use Rattle.rv_link_laws.specs.Inputs as inputs;
ghost use Rattle.rv_link_laws.specs.Moves as moves;
ghost use Rattle.rv_object_types.specs.Alignments as laws;
ghost use Rattle.rv_object_types.specs.Parts.{relocation_of};
ghost use Rattle.rv_object_types.specs.Sections.{section_of};

use crate::relocation::Relocation;
use crate::section::Section;
use rv_isa::Kind;

/// The powers of two for which an alignment can ask.
const ALIGNMENTS: [u64; 12] = [2, 4, 8, 16, 32, 64, 128, 256, 512, 1024, 2048, 4096];

impl Relocation {
    /// The bytes of the padding that stands at an alignment.
    pub fn full_padding(&self) -> u64
        ensures { result ≡ moves.full_padding (relocation_of self.now) }
    {
        if self.addend < 0 {
            0
        } else {
            self.addend as u64
        }
    }

    /// The power of two for which an alignment asks: the least above its bytes of padding.
    pub fn asked_alignment(&self) -> u64
        ensures value { result ≡ moves.alignment_of (relocation_of self.now) }
        ensures some { 0 < result }
        ensures low { result ≤ 4096 }
    {
        let full = self.full_padding();
        for power in ALIGNMENTS {
            if full < power {
                return power;
            }
        }
        4096
    }

    /// Whether it is an alignment with bytes of padding.
    pub fn has_padding(&self) -> bool
        ensures { result ≡ moves.has_padding (relocation_of self.now) }
    {
        matches!(self.kind, Kind::Align) && self.full_padding() > 0
    }
}

impl Section<'_> {
    /// The multiple at which it begins: its own alignment, 2 or more for text, and that of each alignment in its text.
    pub fn begins_at(&self) -> u64
        ensures value { result ≡ inputs.begins_at (section_of self.now) }
        ensures some { 0 < result }
        ensures small { result ≤ 4096 }
    {
        if self.is_text() {
            raised(self.alignment.max(2), self.relocations.as_slice())
        } else {
            self.alignment.max(1)
        }
    }
}

/// The multiple for which a relocation asks; 0 where it is no alignment with bytes of padding.
fn asked(relocation: &Relocation) -> u64
    ensures value { result ≡ laws.asked (relocation_of relocation.now) }
    ensures small { result ≤ 4096 }
{
    if relocation.has_padding() {
        relocation.asked_alignment()
    } else {
        0
    }
}

/// The greatest of a number and the multiples for which relocations ask.
fn raised(alignment: u64, relocations: &[Relocation]) -> u64
    requires small { alignment ≤ 4096 }
    ensures value { result ≡ laws.raised_by (map relocation_of relocations.now) alignment }
    ensures small { result ≤ 4096 }
    ensures more { alignment ≤ result }
{
    let mut greatest = alignment;
    for relocation in relocations {
        greatest = greatest.max(asked(relocation));
    }
    greatest
}
