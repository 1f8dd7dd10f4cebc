//! The instructions that a run comes to, each once.
//!
//! An instruction is the bits that stand at its address: code that changes itself has one for each.

use rv_counts::CodeIndex;
use rv_image::Image;
use rv_isa::Inst;
use rv_machine::{Fetched, spelled};
use std::alloc::{AllocError, Global};

/// An instruction at an address.
#[derive(Clone, Copy, Drop)]
pub(crate) struct VisitedInstruction {
    pub pc: u64,
    /// The bits of the word, or of the parcel.
    pub bits: u32,
    pub inst: Inst,
}

impl VisitedInstruction {
    /// The length of the instruction in bytes.
    pub(crate) fn bytes(&self) -> u64 {
        if self.bits % 4 == 3 { 4 } else { 2 }
    }
}

/// The instructions that a run has come to.
#[derive(Drop)]
pub(crate) struct VisitedInstructions {
    index: CodeIndex,
    instructions: Vec<VisitedInstruction>,
}

impl VisitedInstructions {
    /// No instructions yet of an image's code.
    pub(crate) fn new(alloc: Global, image: &Image) -> Result<Self, AllocError> {
        Ok(VisitedInstructions {
            index: CodeIndex::new(alloc, image)?,
            instructions: Vec::new(alloc),
        })
    }

    /// All instructions, in the order in which the run came to them.
    pub(crate) fn all(&self) -> &[VisitedInstruction] {
        self.instructions.as_slice()
    }

    /// The index of the instruction that these bits spell at an address, which is added where it is none of these; none where they
    /// spell no instruction.
    #[inline]
    pub(crate) fn find(&mut self, pc: u64, bits: u32) -> Result<Option<usize>, AllocError> {
        if let Some(index) = self.index.get(pc) {
            if let Some(visited) = self.instructions.get(index) {
                if visited.pc == pc && visited.bits == bits {
                    return Ok(Some(index));
                }
            }
        }
        self.add(pc, bits)
    }

    /// Adds an instruction; its index.
    #[inline(never)]
    fn add(&mut self, pc: u64, bits: u32) -> Result<Option<usize>, AllocError> {
        let Fetched::Got(inst, _) = spelled(Some(bits)) else {
            return Ok(None);
        };
        let index = self.instructions.len();
        self.instructions
            .push(VisitedInstruction { pc, bits, inst })?;
        self.index.set(pc, index);
        Ok(Some(index))
    }
}
