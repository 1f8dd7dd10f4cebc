//! The relocations of objects' files: where their records stand, and whose value may be one that its field does not take.

use rv_elf::{ElfView, RELA_SIZE, SHF_ALLOC, SHT_RELA};
use rv_elf_laws::{Rela, SectionHeader};
use rv_inspect::{bytes_of, count_relas, rela_at, section_at, section_named};
use rv_isa::Kind;
use rv_object_reader::kind_numbered;
use std::alloc::{AllocError, Global};

/// A relocation of a file.
#[derive(Clone, Copy, Drop)]
pub struct Site {
    /// The index of its file.
    pub file: usize,
    /// The index of the section that it changes.
    pub section: u32,
    /// The index of the table of symbols that it names.
    pub symbols: u32,
    /// The offset of its record in the file.
    pub record: usize,
    pub rela: Rela,
}

/// The relocations whose values may be refused, each list in the order of the link.
#[derive(Drop)]
pub(crate) struct Sites {
    /// Those that can be left out without a trace: neither calls, whose size follows from them, nor lower parts.
    pub plain: Vec<Site>,
    /// Lower parts of distances, which want an upper part elsewhere.
    pub lower: Vec<Site>,
    pub calls: Vec<Site>,
}

impl Sites {
    /// Those of files.
    pub(crate) fn of(alloc: Global, files: &[&[u8]]) -> Result<Sites, AllocError> {
        let mut sites = Sites {
            plain: Vec::new(alloc),
            lower: Vec::new(alloc),
            calls: Vec::new(alloc),
        };
        for file in 0..files.len() {
            let all = sites_in(alloc, files[file], file)?;
            sites.put_all(all.as_slice())?;
        }
        Ok(sites)
    }

    /// Those of calls, or the plain ones.
    pub(crate) fn calls_or_plain(&self, are_calls: bool) -> &[Site] {
        if are_calls {
            self.calls.as_slice()
        } else {
            self.plain.as_slice()
        }
    }

    /// Adds some, each where it belongs.
    fn put_all(&mut self, sites: &[Site]) -> Result<(), AllocError> {
        for site in sites {
            self.put(site)?;
        }
        Ok(())
    }

    /// Adds one where it belongs.
    fn put(&mut self, site: &Site) -> Result<(), AllocError> {
        let Some(kind) = kind_numbered(site.rela.r_type) else {
            return Ok(());
        };
        if matches!(kind, Kind::PcrelLo12I | Kind::PcrelLo12S) {
            self.lower.push(*site)?;
        } else if matches!(kind, Kind::Call | Kind::CallPlt) {
            self.calls.push(*site)?;
        } else if has_range(kind) {
            self.plain.push(*site)?;
        }
        Ok(())
    }
}

/// Whether a field of this kind does not take every value; calls and lower parts aside.
fn has_range(kind: Kind) -> bool {
    matches!(
        kind,
        Kind::Abs32
            | Kind::Branch
            | Kind::Jal
            | Kind::PcrelHi20
            | Kind::Hi20
            | Kind::RvcBranch
            | Kind::RvcJump
            | Kind::Pcrel32
    )
}

/// The relocations of the loaded sections of a file, in the order of the link.
pub(crate) fn sites_in(alloc: Global, file: &[u8], number: usize) -> Result<Vec<Site>, AllocError> {
    let mut sites = Vec::new(alloc);
    let Ok(view) = ElfView::open(file) else {
        return Ok(sites);
    };
    for index in 0..view.header().e_shnum {
        if let Some(header) = section_at(&view, index) {
            put_sites(&view, &header, number, &mut sites)?;
        }
    }
    Ok(sites)
}

/// Adds the relocations of a section, if it has those of a loaded one.
fn put_sites(
    view: &ElfView<'_>,
    header: &SectionHeader,
    file: usize,
    sites: &mut Vec<Site>,
) -> Result<(), AllocError> {
    if header.sh_type != SHT_RELA || !is_of_loaded(view, header) {
        return Ok(());
    }
    let bytes = bytes_of(view, header).unwrap_or(b"");
    let start = header.sh_offset as usize;
    for index in 0..count_relas(bytes) {
        if let Some(rela) = rela_at(bytes, index) {
            sites.push(Site {
                file,
                section: header.sh_info,
                symbols: header.sh_link,
                record: start.saturating_add(index.saturating_mul(RELA_SIZE)),
                rela,
            })?;
        }
    }
    Ok(())
}

/// Whether a section of relocations is of a loaded section.
fn is_of_loaded(view: &ElfView<'_>, header: &SectionHeader) -> bool {
    match section_named(view, header.sh_info) {
        Ok(target) => target.sh_flags & SHF_ALLOC != 0,
        Err(_) => false,
    }
}
