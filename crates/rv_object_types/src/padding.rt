//! Padding in code: instructions without effect.
//!
//! Source: RISC-V ELF psABI, "Linker Relaxation"; Unprivileged ISA, "NOP Instruction" and "C.NOP".

ghost use Rattle.std.specs.Prelude.{◌≡◌, ◌++◌, OnOk};
ghost use Rattle.rv_object_laws.specs.Padding.{no_operations, operations_in};

use std::alloc::AllocError;

/// `addi zero, zero, 0`.
const NOP: [u8; 4] = [0x13, 0, 0, 0];
/// `c.nop`.
const C_NOP: [u8; 2] = [1, 0];

/// Adds instructions without effect: four bytes each, and two where no more are left.
pub fn put_no_operations(out: &mut Vec<u8>, bytes: u32) -> Result<(), AllocError>
    ensures { OnOk result (out.new.items ≡ out.old.items ++ no_operations bytes) }
{
    for _ in 0..bytes / 4 {
        out.extend_from_slice(&NOP)?;
    }
    if bytes % 4 < 2 {
        return Ok(());
    }
    out.extend_from_slice(&C_NOP)?;
    Ok(())
}

/// How many instructions so many bytes of padding are.
pub fn operations(bytes: u32) -> u32
    ensures { result ≡ operations_in bytes }
{
    bytes / 4 + bytes % 4 / 2
}
