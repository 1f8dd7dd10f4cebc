//! Copies of files whose relocations are rewritten.

use crate::sites::Site;
use rv_isa::Kind;
use std::alloc::{AllocError, Global};

/// The offset of the kind in a record (gABI, "Relocation": the lower half of `r_info`).
const KIND: usize = 8;
/// The offset of the addend.
const ADDEND: usize = 16;

/// Copies of files.
pub(crate) fn copies(alloc: Global, files: &[&[u8]]) -> Result<Vec<Vec<u8>>, AllocError> {
    let mut drafts = Vec::new(alloc);
    for file in files {
        drafts.push(file.to_vec(alloc)?)?;
    }
    Ok(drafts)
}

/// The same bytes, borrowed.
pub fn borrowed<'a>(alloc: Global, drafts: &'a [Vec<u8>]) -> Result<Vec<&'a [u8]>, AllocError> {
    let mut files: Vec<&'a [u8]> = Vec::new(alloc);
    for draft in drafts {
        files.push(draft.as_slice())?;
    }
    Ok(files)
}

/// Leaves those relocations in the copies whose places in a list are from one to another, and none of the others of the list.
pub(crate) fn leave(drafts: &mut [Vec<u8>], sites: &[Site], from: usize, to: usize) {
    let mut index = 0usize;
    for site in sites {
        if from <= index && index < to {
            put_kind(drafts, site, site.rela.r_type);
        } else {
            put_kind(drafts, site, Kind::None.number());
        }
        index = index.saturating_add(1);
    }
}

/// Gives a relocation a kind.
pub(crate) fn put_kind(drafts: &mut [Vec<u8>], site: &Site, kind: u32) {
    put_bytes(drafts, site, KIND, kind.to_le_bytes().as_slice());
}

/// Gives a relocation an addend.
pub(crate) fn put_addend(drafts: &mut [Vec<u8>], site: &Site, addend: i64) {
    put_bytes(drafts, site, ADDEND, addend.to_le_bytes().as_slice());
}

/// Puts bytes into the record of a relocation.
fn put_bytes(drafts: &mut [Vec<u8>], site: &Site, offset: usize, bytes: &[u8]) {
    let start = site.record.saturating_add(offset);
    if let Some(draft) = drafts.get_mut(site.file) {
        for (old, new) in draft.iter_mut().skip(start).zip(bytes) {
            *old = *new;
        }
    }
}
