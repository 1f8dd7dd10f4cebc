//! What is kept of the paddings of a section.
//!
//! A padding of no bytes counts for nothing: it may be inside another padding or a field, as GNU as writes it with `.reloc`.

ghost use Rattle.std.specs.Prelude.{◌≡◌, ◌++◌, IsTrue, IfOk, OnOk};
ghost use Rattle.std.specs.List.{list_all};
ghost use Rattle.rv_link_laws.specs.Moves.{has_room, kept, lost as lost_of, new_offset as offset_of};
ghost use Rattle.rv_relax.specs.Paddings.{are_in_order, lost_sums};
ghost use Rattle.rv_shorten.specs.Bytes.{left_bytes};

use crate::alignments::alignments;
use crate::bytes::put_kept;
use crate::losses::{lost, sums};
use crate::paddings::paddings;
use crate::pieces::{have_room, left_at};
use rv_shorten::{LeftBytes, Piece, ShortSection, dropped_before};
use std::alloc::{AllocError, Global};

/// What is kept of each padding of a section.
#[derive(Drop)]
pub struct SectionPaddings {
    paddings: Vec<Piece<()>>,
    /// Of each, the instructions that it and those before it lose.
    sums: Vec<u64>,
    /// The paddings stand one behind the other.
    ghost order: { IsTrue (are_in_order 0 0 paddings.items) },
    /// The sums are theirs.
    ghost summed: { sums.items ≡ lost_sums 0 paddings.items },
}

impl SectionPaddings {
    ghost use Rattle.rv_relax.specs.Kept.{kept_in, moves_of, pad_at};

    /// What is kept of the paddings of a section.
    pub(crate) fn of(
        alloc: Global,
        section: &ShortSection<'_, '_>,
    ) -> Result<SectionPaddings, AllocError>
        ensures { IfOk result (λ p. moves_of p ≡ kept_in section.now) }
    {
        if !section.whole.loaded || !section.whole.executable {
            return Ok(SectionPaddings {
                paddings: Vec::new(alloc),
                sums: Vec::new(alloc),
            });
        }
        // tells that what is left of the section has a size in 64 bits
        let _size = section.size();
        let alignments = alignments(alloc, section)?;
        let paddings = paddings(alloc, &alignments)?;
        let sums = sums(alloc, &paddings)?;
        Ok(SectionPaddings { paddings, sums })
    }

    /// Where a byte of the section stands afterwards: its new offset.
    pub fn new_offset(&self, old: u64) -> u64
        ensures { result ≡ offset_of (moves_of self.now) old }
    {
        old - dropped_before(&self.paddings, old)
    }

    /// Whether each padding is as long as what is needed of it.
    pub fn is_roomy(&self) -> bool
        ensures { result ≡ list_all has_room (moves_of self.now) }
    {
        have_room(&self.paddings)
    }

    /// The instructions that go from a range of bytes.
    pub fn lost(&self, offset: u64, bytes: u32) -> u64
        ensures { result ≡ lost_of (moves_of self.now) offset bytes }
    {
        lost(&self.paddings, &self.sums, offset, bytes)
    }

    /// The bytes that are kept of the padding at a place; 0 where none stands.
    pub(crate) fn pad(&self, place: u64) -> u32
        ensures { result ≡ pad_at (moves_of self.now) place }
    {
        left_at(&self.paddings, place)
    }

    /// Adds what is kept of the section's bytes.
    pub fn put_kept(&self, out: &mut Vec<u8>, bytes: LeftBytes<'_>) -> Result<(), AllocError>
        ensures { OnOk result
            (out.new.items ≡ out.old.items ++ kept 0 (moves_of self.now) (left_bytes bytes.entry)) }
    {
        put_kept(out, &self.paddings, bytes)
    }
}
