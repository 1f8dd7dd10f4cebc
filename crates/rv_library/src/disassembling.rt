//! From bytes to the text of an instruction.

ghost use Rattle.std.specs.Prelude.{◌≡◌, IfOk};
ghost use Rattle.rv_library.specs.Shown.{GivesInstruction, IsShown, instruction_text};

use crate::answers::{Answer, Made, give};
use rv_compress::next_inst;
use rv_disasm::{Targets, put_instruction};
use rv_fault::Fault;
use rv_isa::Inst;
use std::alloc::{AllocError, Global};

/// Shows the instruction at the front of bytes: `rv_disassemble` of `include/rv.h`.
#[unsafe(no_mangle)]
pub extern "C" fn rv_disassemble(
    alloc: Global,
    bytes: &[u8],
    address: u64,
    text: &mut [u8],
    taken: &mut u64,
    answer: &mut Answer,
) -> u32
    // the instruction that the bytes spell, as a listing shows it, and how it is given
    ensures { GivesInstruction bytes.now address taken.new result text.old text.new answer.new }
{
    *taken = 0;
    let Some((inst, count)) = next_inst(bytes) else {
        return give(alloc, Ok(None), text, &mut [], answer);
    };
    *taken = count as u64;
    let made = shown(alloc, address, inst);
    give(alloc, made, text, &mut [], answer)
}

/// The text of an instruction at an address.
fn shown(alloc: Global, address: u64, inst: Inst) -> Result<Option<Made>, Fault>
    ensures { IsShown address inst result }
{
    let first = text_of(alloc, address, inst)?;
    Ok(Some(Made {
        first,
        second: Vec::new(alloc),
    }))
}

/// The same as bytes.
fn text_of(alloc: Global, address: u64, inst: Inst) -> Result<Vec<u8>, AllocError>
    ensures { IfOk result (λ text. text.items ≡ instruction_text address inst) }
{
    let mut text = Vec::new(alloc);
    put_instruction(&mut text, Targets::Addresses(address), inst)?;
    Ok(text)
}
