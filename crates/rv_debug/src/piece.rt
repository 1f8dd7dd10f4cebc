//! Sections that are not loaded.

ghost use Rattle.std.specs.Prelude.{◌≡◌};
ghost use Rattle.rv_debug_laws.specs.File.{plain_piece, piece_header};
ghost use Rattle.rv_debug.specs.Views.{piece_of};

use rv_elf::SectionHeader;

/// A section that is not loaded, but for its place in the file.
#[derive(Clone, Copy, Drop)]
pub(crate) struct Piece<'p> {
    /// The offset of its name in the names.
    pub name: u32,
    /// What it is (`sh_type`).
    pub kind: u32,
    pub link: u32,
    pub info: u32,
    pub alignment: u64,
    pub entry_size: u64,
    pub bytes: &'p [u8],
}

impl<'p> Piece<'p> {
    /// A section without alignment, records and other sections that it needs.
    pub(crate) fn plain(name: u32, kind: u32, bytes: &'p [u8]) -> Self
        ensures { piece_of result ≡ plain_piece name kind bytes.now }
    {
        Piece {
            name,
            kind,
            link: 0,
            info: 0,
            alignment: 1,
            entry_size: 0,
            bytes,
        }
    }

    /// Its header, where its contents stand at this place.
    pub(crate) fn header(&self, place: u64) -> SectionHeader
        ensures { result ≡ piece_header place (piece_of self.now) }
    {
        SectionHeader {
            sh_name: self.name,
            sh_type: self.kind,
            sh_flags: 0,
            sh_addr: 0,
            sh_offset: place,
            sh_size: self.bytes.len() as u64,
            sh_link: self.link,
            sh_info: self.info,
            sh_addralign: self.alignment,
            sh_entsize: self.entry_size,
        }
    }
}
