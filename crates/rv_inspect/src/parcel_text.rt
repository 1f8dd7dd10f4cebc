//! The text of a parcel, by its `c.` mnemonic, as GNU's `objdump -M no-aliases` has it.

use crate::columns::put;
use crate::instruction_text::{put_amount, put_registers, put_sum, put_target, set_tab, target_of};
use crate::scope::Scope;
use rv_isa::Reg;
use rv_parcel::Compressed;
use std::alloc::AllocError;

/// Adds the text of the parcel at an address. It is that of a listing but for a tab, numbers of shifts in hexadecimal, the
/// names of targets, and `c.nop`.
pub(crate) fn put_parcel(
    text: &mut Vec<u8>,
    scope: &Scope<'_>,
    address: u64,
    form: &Compressed,
) -> Result<(), AllocError> {
    let name = form.operation().name();
    match *form {
        Compressed::Nop { immediate } => put_sum(text, "c.addi", &[Reg::ZERO], immediate),
        Compressed::Srli { rd, amount }
        | Compressed::Srai { rd, amount }
        | Compressed::Slli { rd, amount } => put_shift(text, name, rd, amount),
        Compressed::J { offset } => {
            put_target(text, scope, name, &[], target_of(address, offset))
        }
        Compressed::Beqz { rs1, offset } | Compressed::Bnez { rs1, offset } => {
            put_target(text, scope, name, &[rs1], target_of(address, offset))
        }
        _ => {
            let start = text.len();
            rv_disasm::put_parcel(text, form)?;
            set_tab(text, start);
            Ok(())
        }
    }
}

fn put_shift(text: &mut Vec<u8>, name: &str, rd: Reg, amount: u8) -> Result<(), AllocError> {
    if amount == 0 {
        put(text, name.as_bytes())?;
        return put_registers(text, "64", &[rd]);
    }
    put_amount(text, name, &[rd], u64::from(amount))
}
