//! What sections have in a file.
//!
//! Their bytes are lent by the file that a reader has, or are the assembler's own.

ghost use Rattle.std.specs.Prelude.{◌≡◌};
ghost use Rattle.rv_object_laws.specs.Object as said;
ghost use Rattle.rv_object_types.specs.Parts.{contents_of};

use std::borrow::CowSlice;

/// What a section has in the file (gABI, "Sections", sh_type).
#[derive(Drop)]
pub enum Contents<'a> {
    /// Bytes of the program (SHT_PROGBITS).
    Progbits(CowSlice<'a, u8>),
    /// Bytes that tell something of it (SHT_NOTE).
    Note(CowSlice<'a, u8>),
    /// No bytes in the file (SHT_NOBITS): the size of the zeros in memory.
    Nobits(u64),
}

impl Contents<'_> {
    /// How many bytes of memory they take.
    pub fn size(&self) -> u64
        ensures { result ≡ said.size_of (contents_of self.now) }
    {
        match self {
            Contents::Progbits(bytes) => bytes.len() as u64,
            Contents::Note(bytes) => bytes.len() as u64,
            Contents::Nobits(size) => *size,
        }
    }

    /// The bytes that the file has of them.
    pub fn stored(&self) -> &[u8]
        ensures { result.now ≡ said.stored (contents_of self.now) }
    {
        match self {
            Contents::Progbits(bytes) => bytes.as_slice(),
            Contents::Note(bytes) => bytes.as_slice(),
            Contents::Nobits(_) => &[],
        }
    }

    /// The same, lent.
    pub fn lent(&self) -> Contents<'_>
        ensures { contents_of result ≡ contents_of self.now }
    {
        match self {
            Contents::Progbits(bytes) => Contents::Progbits(CowSlice::Borrowed(bytes.as_slice())),
            Contents::Note(bytes) => Contents::Note(CowSlice::Borrowed(bytes.as_slice())),
            Contents::Nobits(size) => Contents::Nobits(*size),
        }
    }
}
