//! The relocation whose value is refused, found by linking without some.
//!
//! A relocation that is left out moves nothing, but for those of calls. So the first that is refused is the last of the fewest
//! from the front with which the fault is there.

use crate::drafts::{borrowed, copies, leave};
use crate::sites::{Site, Sites};
use rv_chain::link_objects_exe_on;
use rv_fault::Fault;
use rv_link::{GroundOptions, LinkFault};
use std::alloc::Global;

/// More halvings than files have relocations.
const HALVINGS: usize = 64;

/// The relocation for whose value a link of files is refused, where it can be told; an error is want of memory.
pub fn faulty_site(
    alloc: Global,
    files: &[&[u8]],
    fault: &LinkFault,
    options: GroundOptions,
) -> Result<Option<Site>, Fault> {
    let mut drafts = copies(alloc, files)?;
    let sites = Sites::of(alloc, files)?;
    let wanted = fault.number();
    if matches!(fault, LinkFault::DanglingPcrel) {
        return search(
            alloc,
            drafts.as_mut_slice(),
            sites.lower.as_slice(),
            wanted,
            options,
        );
    }
    leave(drafts.as_mut_slice(), sites.lower.as_slice(), 0, 0);
    leave(drafts.as_mut_slice(), sites.plain.as_slice(), 0, 0);
    let is_of_call = is_there(alloc, drafts.as_slice(), wanted, options)?;
    search(
        alloc,
        drafts.as_mut_slice(),
        sites.calls_or_plain(is_of_call),
        wanted,
        options,
    )
}

/// The first of some relocations that brings the fault of a number.
fn search(
    alloc: Global,
    drafts: &mut [Vec<u8>],
    suspects: &[Site],
    wanted: Option<u8>,
    options: GroundOptions,
) -> Result<Option<Site>, Fault> {
    let mut low = 0usize;
    let mut high = suspects.len();
    for _ in 0..HALVINGS {
        if high.saturating_sub(low) <= 1 {
            break;
        }
        let middle = low.saturating_add(high.saturating_sub(low) / 2);
        leave(drafts, suspects, 0, middle);
        if is_there(alloc, drafts, wanted, options)? {
            high = middle;
        } else {
            low = middle;
        }
    }
    leave(drafts, suspects, low, high);
    if is_there(alloc, drafts, wanted, options)? {
        Ok(suspects.get(low).copied())
    } else {
        Ok(None)
    }
}

/// Whether a link of files is refused for the fault of a number.
fn is_there(
    alloc: Global,
    drafts: &[Vec<u8>],
    wanted: Option<u8>,
    options: GroundOptions,
) -> Result<bool, Fault> {
    let files = borrowed(alloc, drafts)?;
    match link_objects_exe_on(alloc, files.as_slice(), options) {
        Ok(_) => Ok(false),
        Err(Fault::Memory) => Err(Fault::Memory),
        Err(Fault::Link(fault)) => Ok(fault.number() == wanted),
        Err(_) => Ok(false),
    }
}
