//! The instructions of a line number program, one function each; a contract says what the bytes do from any registers on.
//!
//! Source: DWARF 5, 6.2.5 "The Line Number Program".

ghost use Rattle.std.specs.Prelude.{◌+◌, pos, [], ◌∷◌, OnOk};
ghost use Rattle.rv_debug_laws.specs.LineProgram.{Registers, Row, End, start};
ghost use Rattle.rv_debug_laws.specs.LineUnit.{header};
ghost use Rattle.rv_debug.specs.Writing.{Writes};

use crate::leb128::{put_signed, put_unsigned};
use std::alloc::AllocError;

/// The byte before the length of an extended opcode.
const EXTENDED: u8 = 0;

const DW_LNS_COPY: u8 = 1;

const DW_LNS_ADVANCE_PC: u8 = 2;

const DW_LNS_ADVANCE_LINE: u8 = 3;

const DW_LNS_SET_FILE: u8 = 4;

const DW_LNE_END_SEQUENCE: u8 = 1;

const DW_LNE_SET_ADDRESS: u8 = 2;

/// Appends a row.
#[tactic(auto, using(crate::proofs::InstructionLemmas::wrote_copy))]
pub(crate) fn put_copy(out: &mut Vec<u8>) -> Result<(), AllocError>
    ensures { OnOk result ((r : Registers) → Writes out.old.items out.new.items r (Row r ∷ []) r) }
{
    Ok(out.push(DW_LNS_COPY)?)
}

/// Ends the sequence.
#[tactic(auto, using(crate::proofs::InstructionLemmas::wrote_end))]
pub(crate) fn put_end(out: &mut Vec<u8>) -> Result<(), AllocError>
    ensures { OnOk result ((r : Registers) →
        Writes out.old.items out.new.items r (End r.address ∷ []) (start header)) }
{
    out.extend_from_slice(&[EXTENDED, 1, DW_LNE_END_SEQUENCE])?;
    Ok(())
}

/// Sets the address.
#[tactic(auto, using(crate::proofs::InstructionLemmas::wrote_address))]
pub(crate) fn put_address(out: &mut Vec<u8>, address: u64) -> Result<(), AllocError>
    ensures { OnOk result ((r : Registers) →
        Writes out.old.items out.new.items r [] (record r { address = address })) }
{
    out.extend_from_slice(&[EXTENDED, 9, DW_LNE_SET_ADDRESS])?;
    out.extend_from_slice(&address.to_le_bytes())?;
    Ok(())
}

/// Advances the address by this many bytes.
#[tactic(auto, using(crate::proofs::InstructionLemmas::wrote_bytes))]
pub(crate) fn put_bytes(out: &mut Vec<u8>, bytes: u64) -> Result<(), AllocError>
    ensures { OnOk result ((r : Registers) →
        Writes out.old.items out.new.items r [] (record r { address = r.address + bytes })) }
{
    out.push(DW_LNS_ADVANCE_PC)?;
    put_unsigned(out, bytes)?;
    Ok(())
}

/// Goes from one line to another.
#[tactic(auto, using(crate::proofs::InstructionLemmas::wrote_line))]
pub(crate) fn put_line(out: &mut Vec<u8>, from: u64, line: u64) -> Result<(), AllocError>
    ensures { OnOk result ((r : Registers) →
        Writes out.old.items out.new.items (record r { line = pos from }) [] (record r { line = pos line })) }
{
    out.push(DW_LNS_ADVANCE_LINE)?;
    if from <= line {
        put_signed(out, false, line - from)?;
        return Ok(());
    }
    put_signed(out, true, from - line - 1)?;
    Ok(())
}

/// Goes from one file to another.
#[tactic(auto, using(crate::proofs::InstructionLemmas::wrote_file))]
pub(crate) fn put_file(out: &mut Vec<u8>, from: u64, file: u64) -> Result<(), AllocError>
    ensures { OnOk result ((r : Registers) →
        Writes out.old.items out.new.items (record r { file = from }) [] (record r { file = file })) }
{
    if from == file {
        return Ok(());
    }
    out.push(DW_LNS_SET_FILE)?;
    put_unsigned(out, file)?;
    Ok(())
}
