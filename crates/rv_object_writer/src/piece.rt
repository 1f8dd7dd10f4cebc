//! Sections as the file has them.

ghost use Rattle.std.specs.Prelude.{◌≡◌, ◌<◌, ◌^◌};
ghost use Rattle.rv_object_laws.specs.Object.{size_of};
ghost use Rattle.rv_object_types.specs.Parts.{contents_of};
ghost use Rattle.rv_object_types.specs.Sections.{section_of};
ghost use Rattle.rv_object_file_laws.specs.Written.{kind_of, flags_of};

use rv_elf::{SHF_ALLOC, SHF_EXECINSTR, SHF_WRITE, SHT_NOBITS, SHT_NOTE, SHT_PROGBITS};
use rv_object_types::{Contents, Row, Section};

/// What the file has of a section.
#[derive(Clone, Copy, Drop)]
pub(crate) enum Body<'p> {
    Bytes(&'p [u8]),
    /// Rows, whose bytes are made where they are written: an object may have 4 million of them.
    Rows(&'p [Row]),
}

/// A section of the file, but for the offset of its contents.
#[derive(Clone, Copy, Drop)]
pub(crate) struct Piece<'p> {
    pub name: &'p [u8],
    /// What it is (`sh_type`).
    pub kind: u32,
    pub flags: u64,
    /// What the file has of it.
    pub body: Body<'p>,
    /// Its size in memory or in the file, in bytes.
    pub size: u128,
    pub link: u128,
    pub info: u128,
    pub alignment: u64,
    pub entry_size: u64,
}

impl<'p> Piece<'p> {
    ghost use Rattle.rv_object_file_laws.specs.Written.{section_piece, table_piece};
    ghost use Rattle.rv_elf_laws.specs.Numbers.{sht_progbits};
    ghost use Rattle.rv_object_file_laws.specs.Rows.{rows_name};
    ghost use Rattle.rv_object_writer.specs.Pieces.{piece_of, rows_bytes};

    /// A section of the object.
    pub(crate) fn of(section: &'p Section<'p>) -> Self
        ensures is { piece_of result ≡ section_piece (section_of section.now) }
        ensures size { size_of (section_of section.now).contents < 2 ^ 64 }
    {
        Piece {
            name: section.name,
            kind: kind(&section.contents),
            flags: flags(section),
            body: Body::Bytes(section.contents.stored()),
            size: u128::from(section.contents.size()),
            link: 0,
            info: 0,
            alignment: section.alignment,
            entry_size: 0,
        }
    }

    /// A table that the file adds; `entry_size` is 0 where its records have no size of their own.
    pub(crate) fn table(
        name: &'p [u8],
        kind: u32,
        bytes: &'p [u8],
        alignment: u64,
        entry_size: u64,
    ) -> Self
        ensures { piece_of result
            ≡ table_piece name.now kind bytes.now 0 0 alignment entry_size }
    {
        Piece {
            name,
            kind,
            flags: 0,
            body: Body::Bytes(bytes),
            size: bytes.len() as u128,
            link: 0,
            info: 0,
            alignment,
            entry_size,
        }
    }

    /// The section of rows.
    #[tactic(auto, using(crate::proofs::StepsLemmas::rows_long))]
    pub(crate) fn rows(rows: &'p [Row]) -> Self
        ensures { piece_of result
            ≡ table_piece rows_name sht_progbits (rows_bytes rows.now) 0 0 1 0 }
    {
        Piece {
            name: b".rv.rows",
            kind: SHT_PROGBITS,
            flags: 0,
            body: Body::Rows(rows),
            size: 32 * rows.len() as u128,
            link: 0,
            info: 0,
            alignment: 1,
            entry_size: 0,
        }
    }
}

/// The type of a section with these contents (`sh_type`).
fn kind(contents: &Contents<'_>) -> u32
    ensures { result ≡ kind_of (contents_of contents.now) }
{
    match contents {
        Contents::Progbits(_) => SHT_PROGBITS,
        Contents::Note(_) => SHT_NOTE,
        Contents::Nobits(_) => SHT_NOBITS,
    }
}

/// How the section is used (`sh_flags`).
fn flags(section: &Section<'_>) -> u64
    ensures { result ≡ flags_of (section_of section.now) }
{
    let write = if section.writable { SHF_WRITE } else { 0 };
    let alloc = if section.loaded { SHF_ALLOC } else { 0 };
    let execute = if section.executable { SHF_EXECINSTR } else { 0 };
    write + alloc + execute
}
