//! The text of an instruction.
//!
//! Source: RISC-V Assembly Programmer's Manual; RISC-V Unprivileged ISA 20191213, chapters 2, 5, 7 and 8.

ghost use Rattle.std.specs.Prelude.{◌≡◌, ◌++◌, ◌∷◌, [], OnOk, codes, decimal};
ghost use Rattle.std.specs.Fmt.{signed_decimal};
ghost use Rattle.rv_isa.specs.Operations.{format_of};
ghost use Rattle.rv_isa.specs.Mnemonics.{ordering as order};
ghost use Rattle.rv_isa_laws.specs.Arithmetic.{wrapped, sum_of};
ghost use Rattle.rv_listing_laws.specs.Numbers.{prefixed};
ghost use Rattle.rv_listing_laws.specs.Instruction as shows;

use crate::numbers::{put_decimal, put_distance, put_prefixed, put_signed};
use rv_isa::{Atomic, BType, Fence, Format, IType, Inst, JType, RType, Reg, Reserve, Shift, UType};
use rv_listing_laws::Targets;
use std::alloc::AllocError;

/// Adds the text of an instruction.
pub fn put_instruction(text: &mut Vec<u8>, targets: Targets, inst: Inst) -> Result<(), AllocError>
    ensures { OnOk result (text.new.items
        ≡ text.old.items ++ shows.text_with (shows.shown_target targets) (format_of inst)) }
{
    match inst.format() {
        Format::Registers(operation, x) => put_registers(text, operation.name(), x),
        Format::Immediate(operation, x) => put_immediate(text, operation.name(), x),
        Format::Shift(operation, x) => put_shift(text, operation.name(), x),
        Format::Upper(operation, x) => put_upper(text, operation.name(), x),
        Format::Load(operation, x) => {
            put_access(text, operation.name(), x.rd, x.immediate, x.rs1)
        }
        Format::Store(operation, x) => {
            put_access(text, operation.name(), x.rs2, x.immediate, x.rs1)
        }
        Format::Branch(operation, x) => put_branch(text, targets, operation.name(), x),
        Format::Jal(x) => put_jump(text, targets, x),
        Format::Jalr(x) => put_access(text, "jalr", x.rd, x.immediate, x.rs1),
        Format::LoadReserved(double, x) => put_load_reserved(text, double, x),
        Format::Atomic(operation, double, x) => put_atomic(text, operation.name(double), x),
        Format::Fence(x) => put_fence(text, &x),
        Format::Ecall => put(text, "ecall"),
        Format::Ebreak => put(text, "ebreak"),
    }
}

pub(crate) fn put(text: &mut Vec<u8>, name: &str) -> Result<(), AllocError>
    ensures { OnOk result (text.new.items ≡ text.old.items ++ name.now) }
{
    text.extend_from_slice(name.as_bytes())?;
    Ok(())
}

/// Adds a register by its ABI name, after a byte.
#[tactic(auto, using(crate::proofs::RegistersLemmas::register_is))]
pub(crate) fn put_register(text: &mut Vec<u8>, before: u8, reg: Reg) -> Result<(), AllocError>
    ensures { OnOk result (text.new.items ≡ text.old.items ++ before ∷ shows.abi_register reg) }
{
    text.push(before)?;
    text.extend_from_slice(reg.abi_name().as_bytes())?;
    Ok(())
}

/// Adds a register in parentheses.
pub(crate) fn put_in_parentheses(text: &mut Vec<u8>, reg: Reg) -> Result<(), AllocError>
    ensures { OnOk result (text.new.items ≡ text.old.items ++ shows.in_parentheses reg) }
{
    put_register(text, b'(', reg)?;
    text.push(b')')?;
    Ok(())
}

/// Adds where a branch or a jump leads, after a comma.
fn put_target(text: &mut Vec<u8>, targets: Targets, offset: i32) -> Result<(), AllocError>
    ensures { OnOk result
        (text.new.items ≡ text.old.items ++ 44 ∷ shows.shown_target targets offset) }
{
    match targets {
        Targets::Addresses(address) => put_prefixed(text, b',', target(address, offset)),
        Targets::Distances => put_distance(text, b',', offset),
    }
}

/// The address `offset` bytes on, modulo 2^64.
fn target(address: u64, offset: i32) -> u64
    ensures { result ≡ sum_of address (wrapped offset) }
{
    address.wrapping_add(i64::from(offset).cast_unsigned())
}

fn put_registers(text: &mut Vec<u8>, name: &str, x: RType) -> Result<(), AllocError>
    ensures { OnOk result (text.new.items ≡ text.old.items ++ name.now
        ++ shows.operands
        (shows.abi_register x.rd ∷ shows.abi_register x.rs1 ∷ shows.abi_register x.rs2 ∷ [])) }
{
    put(text, name)?;
    put_register(text, b' ', x.rd)?;
    put_register(text, b',', x.rs1)?;
    put_register(text, b',', x.rs2)?;
    Ok(())
}

fn put_immediate(text: &mut Vec<u8>, name: &str, x: IType) -> Result<(), AllocError>
    ensures { OnOk result (text.new.items ≡ text.old.items ++ name.now
        ++ shows.operands
        (shows.abi_register x.rd ∷ shows.abi_register x.rs1 ∷ signed_decimal x.immediate ∷ [])) }
{
    put(text, name)?;
    put_register(text, b' ', x.rd)?;
    put_register(text, b',', x.rs1)?;
    put_signed(text, b',', x.immediate)?;
    Ok(())
}

fn put_shift(text: &mut Vec<u8>, name: &str, x: Shift) -> Result<(), AllocError>
    ensures { OnOk result (text.new.items ≡ text.old.items ++ name.now
        ++ shows.operands (shows.abi_register x.rd ∷ shows.abi_register x.rs1 ∷ decimal x.amount ∷
        [])) }
{
    put(text, name)?;
    put_register(text, b' ', x.rd)?;
    put_register(text, b',', x.rs1)?;
    put_decimal(text, b',', u64::from(x.amount))?;
    Ok(())
}

fn put_upper(text: &mut Vec<u8>, name: &str, x: UType) -> Result<(), AllocError>
    ensures { OnOk result (text.new.items ≡ text.old.items ++ name.now
        ++ shows.operands (shows.abi_register x.rd ∷ prefixed x.immediate ∷ [])) }
{
    put(text, name)?;
    put_register(text, b' ', x.rd)?;
    put_prefixed(text, b',', u64::from(x.immediate))?;
    Ok(())
}

/// Adds a load, a store or `jalr`: a register and the address of an access, or where it jumps.
fn put_access(
    text: &mut Vec<u8>,
    name: &str,
    reg: Reg,
    offset: i32,
    base: Reg,
) -> Result<(), AllocError>
    ensures { OnOk result (text.new.items ≡ text.old.items ++ name.now
        ++ shows.operands (shows.abi_register reg ∷ shows.based offset base ∷ [])) }
{
    put(text, name)?;
    put_register(text, b' ', reg)?;
    put_signed(text, b',', offset)?;
    put_in_parentheses(text, base)?;
    Ok(())
}

fn put_branch(text: &mut Vec<u8>, targets: Targets, name: &str, x: BType) -> Result<(), AllocError>
    ensures { OnOk result (text.new.items ≡ text.old.items ++ name.now
        ++ shows.operands
        (shows.abi_register x.rs1 ∷ shows.abi_register x.rs2
        ∷ shows.shown_target targets x.offset ∷ [])) }
{
    put(text, name)?;
    put_register(text, b' ', x.rs1)?;
    put_register(text, b',', x.rs2)?;
    put_target(text, targets, x.offset)?;
    Ok(())
}

fn put_jump(text: &mut Vec<u8>, targets: Targets, x: JType) -> Result<(), AllocError>
    ensures { OnOk result (text.new.items ≡ text.old.items ++ codes "jal"
        ++ shows.operands (shows.abi_register x.rd ∷ shows.shown_target targets x.offset ∷ [])) }
{
    put(text, "jal")?;
    put_register(text, b' ', x.rd)?;
    put_target(text, targets, x.offset)?;
    Ok(())
}

/// The end of an atomic's mnemonic.
fn ordering(acquire: bool, release: bool) -> &'static str
    ensures { result.now ≡ order acquire release }
{
    match (acquire, release) {
        (false, false) => "",
        (true, false) => ".aq",
        (false, true) => ".rl",
        (true, true) => ".aqrl",
    }
}

/// Adds an atomic's mnemonic and its first operand.
fn put_ordered(text: &mut Vec<u8>, name: &str, order: &str, reg: Reg) -> Result<(), AllocError>
    ensures { OnOk result (text.new.items
        ≡ text.old.items ++ name.now ++ order.now ++ 32 ∷ shows.abi_register reg) }
{
    put(text, name)?;
    put(text, order)?;
    put_register(text, b' ', reg)?;
    Ok(())
}

fn put_load_reserved(text: &mut Vec<u8>, double: bool, x: Reserve) -> Result<(), AllocError>
    ensures { OnOk result (text.new.items ≡ text.old.items
        ++ shows.load_reserved_name double ++ order x.acquire x.release
        ++ shows.operands (shows.abi_register x.rd ∷ shows.in_parentheses x.rs1 ∷ [])) }
{
    let name = if double { "lr.d" } else { "lr.w" };
    put_ordered(text, name, ordering(x.acquire, x.release), x.rd)?;
    text.push(b',')?;
    put_in_parentheses(text, x.rs1)?;
    Ok(())
}

fn put_atomic(text: &mut Vec<u8>, name: &str, x: Atomic) -> Result<(), AllocError>
    ensures { OnOk result (text.new.items ≡ text.old.items
        ++ name.now ++ order x.acquire x.release
        ++ shows.operands
        (shows.abi_register x.rd ∷ shows.abi_register x.rs2 ∷ shows.in_parentheses x.rs1 ∷ [])) }
{
    put_ordered(text, name, ordering(x.acquire, x.release), x.rd)?;
    put_register(text, b',', x.rs2)?;
    text.push(b',')?;
    put_in_parentheses(text, x.rs1)?;
    Ok(())
}

/// Whether `fence.tso` spells it.
pub(crate) fn is_tso(x: &Fence) -> bool
    ensures { result ≡ shows.is_tso x.now }
{
    x.fm == 8 && x.pred == 3 && x.succ == 3 && x.rs1.number() == 0 && x.rd.number() == 0
}

/// Whether `fence` with two sets of accesses spells it.
pub(crate) fn is_between(x: &Fence) -> bool
    ensures { result ≡ shows.is_between x.now }
{
    x.fm == 0 && x.pred != 0 && x.succ != 0 && x.rs1.number() == 0 && x.rd.number() == 0
}

/// The letters of a set of accesses: i is 8, o is 4, r is 2, w is 1.
fn accesses(set: u8) -> &'static str
    ensures { result.now ≡ shows.accesses set }
{
    match set % 16 {
        0 => "",
        1 => "w",
        2 => "r",
        3 => "rw",
        4 => "o",
        5 => "ow",
        6 => "or",
        7 => "orw",
        8 => "i",
        9 => "iw",
        10 => "ir",
        11 => "irw",
        12 => "io",
        13 => "iow",
        14 => "ior",
        _ => "iorw",
    }
}

/// Adds a fence between two sets of accesses.
fn put_between(text: &mut Vec<u8>, before: u8, after: u8) -> Result<(), AllocError>
    ensures { OnOk result (text.new.items ≡ text.old.items ++ codes "fence"
        ++ shows.operands (shows.accesses before ∷ shows.accesses after ∷ [])) }
{
    put(text, "fence ")?;
    put(text, accesses(before))?;
    text.push(b',')?;
    put(text, accesses(after))?;
    Ok(())
}

fn put_fence(text: &mut Vec<u8>, x: &Fence) -> Result<(), AllocError>
    ensures { OnOk result (text.new.items ≡ text.old.items ++ shows.fence_text x.now) }
{
    if is_tso(x) {
        return put(text, "fence.tso");
    }
    if is_between(x) {
        return put_between(text, x.pred, x.succ);
    }
    put(text, "unknown")
}
