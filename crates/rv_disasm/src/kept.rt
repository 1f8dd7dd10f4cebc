//! Lines that were made.
//!
//! A map that was read may have thousands of rows over the same bytes, and each a step further: what they show is made
//! once. Where no rows lie over each other, none are kept.

ghost use Rattle.std.specs.Prelude.{◌≡◌, ◌≤◌, IfSome};
ghost use Rattle.rv_disasm.specs.KeptLine.{IsLineOf};

use arrayvec::ArrayVec;
use std::alloc::{AllocError, Global};

/// How many lines are kept.
const KEPT: usize = 0x1_0000;

/// The most bytes of a line that is kept.
const LONGEST: usize = 48;

/// The line of an address with these bytes.
#[derive(Drop)]
struct KeptLine {
    address: u64,
    /// The bytes, as many as an instruction may have, as a number.
    word: u32,
    text: ArrayVec<u8, LONGEST>,
    /// How many of the bytes it stands for.
    count: usize,
    ghost is: { IsLineOf address word text.items count },
    ghost some: { (1 ≤ count) × (count ≤ 4) },
}

/// Lines, each in the place that its address tells.
///
/// They are kept where rows lie over each other, since a small map can ask for the same lines millions of times.
#[derive(Drop)]
pub(crate) struct KeptLines {
    lines: Vec<Option<KeptLine>>,
}

impl KeptLines {
    /// No lines, and no room for any.
    pub(crate) fn new(alloc: Global) -> Self {
        KeptLines {
            lines: Vec::new(alloc),
        }
    }

    /// Makes room for lines.
    pub(crate) fn make_room(&mut self) -> Result<(), AllocError> {
        while self.lines.len() < KEPT {
            self.lines.push(None)?;
        }
        Ok(())
    }

    /// The line of an address with these bytes and how many of them it stands for, if it is kept.
    pub(crate) fn find(&self, address: u64, word: u32) -> Option<(&[u8], usize)>
        ensures line { IfSome result (λ found. IsLineOf address word found.0.now found.1) }
        ensures some { IfSome result (λ found. (1 ≤ found.1) × (found.1 ≤ 4)) }
    {
        match self.lines.get(place(address)) {
            Some(Some(line)) if line.address == address && line.word == word => {
                Some((line.text.as_slice(), line.count))
            }
            _ => None,
        }
    }

    /// Keeps a line, where there is room.
    pub(crate) fn keep(&mut self, address: u64, word: u32, line: &[u8], count: usize)
        requires line { IsLineOf address word line.now count }
        requires some { (1 ≤ count) × (count ≤ 4) }
    {
        let Some(kept) = self.lines.get_mut(place(address)) else {
            return;
        };
        let mut text = ArrayVec::new();
        if text.try_extend_from_slice(line).is_ok() {
            *kept = Some(KeptLine {
                address,
                word,
                text,
                count,
            });
        }
    }
}

/// The index at which the line of an address is kept.
fn place(address: u64) -> usize {
    (address / 2) as usize % KEPT
}
