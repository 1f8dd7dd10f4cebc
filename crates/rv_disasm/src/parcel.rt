//! The text of a parcel, by its `c.` mnemonic.
//!
//! Source: RISC-V Unprivileged ISA 20191213, section 16.8.

ghost use Rattle.std.specs.Prelude.{◌≡◌, ◌++◌, ◌∷◌, [], OnOk, pos, decimal};
ghost use Rattle.std.specs.Fmt.{signed_decimal};
ghost use Rattle.rv_listing_laws.specs.Instruction as shows;
ghost use Rattle.rv_listing_laws.specs.Numbers.{prefixed};
ghost use Rattle.rv_listing_laws.specs.Parcels.{parcel_text};

use crate::instruction::{put, put_in_parentheses, put_register};
use crate::numbers::{put_decimal, put_distance, put_prefixed, put_signed};
use rv_isa::Reg;
use rv_parcel::Compressed;
use std::alloc::AllocError;

/// Adds the text of a parcel of this form.
pub fn put_parcel(text: &mut Vec<u8>, form: &Compressed) -> Result<(), AllocError>
    ensures { OnOk result (text.new.items ≡ text.old.items ++ parcel_text form.now) }
{
    put(text, form.operation().name())?;
    match *form {
        Compressed::Nop { .. } | Compressed::Ebreak => Ok(()),
        Compressed::Jr { rs1 } | Compressed::Jalr { rs1 } => put_register(text, b' ', rs1),
        Compressed::Sub { rd, rs2 }
        | Compressed::Xor { rd, rs2 }
        | Compressed::Or { rd, rs2 }
        | Compressed::And { rd, rs2 }
        | Compressed::Subw { rd, rs2 }
        | Compressed::Addw { rd, rs2 }
        | Compressed::Mv { rd, rs2 }
        | Compressed::Add { rd, rs2 } => put_registers(text, rd, rs2),
        Compressed::Addi { rd, immediate }
        | Compressed::Addiw { rd, immediate }
        | Compressed::Li { rd, immediate }
        | Compressed::Andi { rd, immediate } => put_immediate(text, rd, immediate),
        Compressed::Addi16sp { immediate } => put_immediate(text, Reg::SP, immediate),
        Compressed::Addi4spn { rd, immediate } => put_stack_address(text, rd, immediate),
        Compressed::Lui { rd, immediate } => put_upper(text, rd, immediate),
        Compressed::Srli { rd, amount }
        | Compressed::Srai { rd, amount }
        | Compressed::Slli { rd, amount } => put_amount(text, rd, amount),
        Compressed::Lw { rd, rs1, offset } | Compressed::Ld { rd, rs1, offset } => {
            put_access(text, rd, offset, rs1)
        }
        Compressed::Sw { rs1, rs2, offset } | Compressed::Sd { rs1, rs2, offset } => {
            put_access(text, rs2, offset, rs1)
        }
        Compressed::Lwsp { rd, offset } | Compressed::Ldsp { rd, offset } => {
            put_access(text, rd, offset, Reg::SP)
        }
        Compressed::Swsp { rs2, offset } | Compressed::Sdsp { rs2, offset } => {
            put_access(text, rs2, offset, Reg::SP)
        }
        Compressed::J { offset } => put_distance(text, b' ', offset),
        Compressed::Beqz { rs1, offset } | Compressed::Bnez { rs1, offset } => {
            put_branch(text, rs1, offset)
        }
    }
}

/// Adds two registers.
fn put_registers(text: &mut Vec<u8>, first: Reg, second: Reg) -> Result<(), AllocError>
    ensures { OnOk result (text.new.items ≡ text.old.items
        ++ shows.operands (shows.abi_register first ∷ shows.abi_register second ∷ [])) }
{
    put_register(text, b' ', first)?;
    put_register(text, b',', second)?;
    Ok(())
}

/// Adds a register and a number with its sign.
fn put_immediate(text: &mut Vec<u8>, reg: Reg, immediate: i32) -> Result<(), AllocError>
    ensures { OnOk result (text.new.items ≡ text.old.items
        ++ shows.operands (shows.abi_register reg ∷ signed_decimal immediate ∷ [])) }
{
    put_register(text, b' ', reg)?;
    put_signed(text, b',', immediate)?;
    Ok(())
}

/// Adds the operands of `c.addi4spn`.
fn put_stack_address(text: &mut Vec<u8>, rd: Reg, immediate: u32) -> Result<(), AllocError>
    ensures { OnOk result (text.new.items ≡ text.old.items
        ++ shows.operands (shows.abi_register rd ∷ shows.abi_register 2 ∷ decimal immediate ∷ [])) }
{
    put_registers(text, rd, Reg::SP)?;
    put_decimal(text, b',', u64::from(immediate))?;
    Ok(())
}

/// Adds the operands of `c.lui`.
fn put_upper(text: &mut Vec<u8>, rd: Reg, immediate: u32) -> Result<(), AllocError>
    ensures { OnOk result (text.new.items ≡ text.old.items
        ++ shows.operands (shows.abi_register rd ∷ prefixed immediate ∷ [])) }
{
    put_register(text, b' ', rd)?;
    put_prefixed(text, b',', u64::from(immediate))?;
    Ok(())
}

/// Adds the operands of a shift.
fn put_amount(text: &mut Vec<u8>, rd: Reg, amount: u8) -> Result<(), AllocError>
    ensures { OnOk result (text.new.items ≡ text.old.items
        ++ shows.operands (shows.abi_register rd ∷ decimal amount ∷ [])) }
{
    put_register(text, b' ', rd)?;
    put_decimal(text, b',', u64::from(amount))?;
    Ok(())
}

/// Adds the operands of a load or a store.
fn put_access(text: &mut Vec<u8>, reg: Reg, offset: u32, base: Reg) -> Result<(), AllocError>
    ensures { OnOk result (text.new.items ≡ text.old.items
        ++ shows.operands (shows.abi_register reg ∷ shows.based (pos offset) base ∷ [])) }
{
    put_register(text, b' ', reg)?;
    put_decimal(text, b',', u64::from(offset))?;
    put_in_parentheses(text, base)?;
    Ok(())
}

/// Adds the operands of `c.beqz` and `c.bnez`.
fn put_branch(text: &mut Vec<u8>, rs1: Reg, offset: i32) -> Result<(), AllocError>
    ensures { OnOk result (text.new.items ≡ text.old.items
        ++ shows.operands (shows.abi_register rs1 ∷ shows.distant offset ∷ [])) }
{
    put_register(text, b' ', rs1)?;
    put_distance(text, b',', offset)?;
    Ok(())
}
