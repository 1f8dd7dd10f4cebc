//! The text of an instruction as GNU's `objdump -M no-aliases` has it, with the names of targets.

use crate::columns::Column::{Hexadecimal, Signed, Text};
use crate::columns::{put, put_columns};
use crate::scope::{Scope, put_address};
use rv_disasm::Targets;
use rv_isa::{Fence, Format, Inst, Reg};
use std::alloc::AllocError;

/// The sets of accesses of a fence, by their bits.
const SETS: [&[u8]; 16] = [
    b"unknown", b"w", b"r", b"rw", b"o", b"ow", b"or", b"orw", b"i", b"iw", b"ir", b"irw", b"io",
    b"iow", b"ior", b"iorw",
];

/// Adds the text of the instruction at an address. It is that of a listing but for a tab, numbers of shifts in hexadecimal,
/// the names of targets, and fences with an empty set.
pub(crate) fn put_instruction(
    text: &mut Vec<u8>,
    scope: &Scope<'_>,
    address: u64,
    inst: &Inst,
) -> Result<(), AllocError> {
    match (*inst).format() {
        Format::Shift(operation, x) => {
            put_amount(text, operation.name(), &[x.rd, x.rs1], u64::from(x.amount))
        }
        Format::Branch(operation, x) => {
            let target = target_of(address, x.offset);
            put_target(text, scope, operation.name(), &[x.rs1, x.rs2], target)
        }
        Format::Jal(x) => put_target(text, scope, "jal", &[x.rd], target_of(address, x.offset)),
        Format::Fence(x) => put_fence(text, &x),
        _ => {
            let start = text.len();
            rv_disasm::put_instruction(text, Targets::Distances, *inst)?;
            set_tab(text, start);
            Ok(())
        }
    }
}

/// Puts a tab in the place of the blank before the operands of what is added to a text from here on.
pub(crate) fn set_tab(text: &mut Vec<u8>, start: usize) {
    for place in start..text.len() {
        if let Some(byte) = text.get_mut(place) {
            if *byte == b' ' {
                *byte = b'\t';
                return;
            }
        }
    }
}

/// Where a branch or a jump leads to.
pub(crate) fn target_of(address: u64, offset: i32) -> u64 {
    address.wrapping_add_signed(i64::from(offset))
}

/// Adds a mnemonic and registers.
pub(crate) fn put_registers(
    text: &mut Vec<u8>,
    name: &str,
    registers: &[Reg],
) -> Result<(), AllocError> {
    put(text, name.as_bytes())?;
    let mut before: &[u8] = b"\t";
    for register in registers {
        put_columns(text, &[Text(before), Text(register.abi_name().as_bytes())])?;
        before = b",";
    }
    Ok(())
}

/// Adds what ends with a number that has a sign.
pub(crate) fn put_sum(
    text: &mut Vec<u8>,
    name: &str,
    registers: &[Reg],
    number: i32,
) -> Result<(), AllocError> {
    put_registers(text, name, registers)?;
    put_columns(text, &[Text(b","), Signed(number)])
}

/// Adds what ends with a number in hexadecimal.
pub(crate) fn put_amount(
    text: &mut Vec<u8>,
    name: &str,
    registers: &[Reg],
    number: u64,
) -> Result<(), AllocError> {
    put_registers(text, name, registers)?;
    put_columns(text, &[Text(b",0x"), Hexadecimal(number, 0)])
}

/// Adds what reads or writes memory, or jumps to a register.
pub(crate) fn put_access(
    text: &mut Vec<u8>,
    name: &str,
    register: Reg,
    offset: i32,
    base: Reg,
) -> Result<(), AllocError> {
    put_registers(text, name, &[register])?;
    put_base(text, b",", offset, base)
}

/// Adds an offset and a register in parentheses.
pub(crate) fn put_base(
    text: &mut Vec<u8>,
    before: &[u8],
    offset: i32,
    base: Reg,
) -> Result<(), AllocError> {
    put_columns(
        text,
        &[
            Text(before),
            Signed(offset),
            Text(b"("),
            Text(base.abi_name().as_bytes()),
            Text(b")"),
        ],
    )
}

/// Adds what leads to an address: `jal ra,10008 <f+0x8>`.
pub(crate) fn put_target(
    text: &mut Vec<u8>,
    scope: &Scope<'_>,
    name: &str,
    registers: &[Reg],
    target: u64,
) -> Result<(), AllocError> {
    put_registers(text, name, registers)?;
    put(text, if registers.is_empty() { b"\t" } else { b"," })?;
    put_address(text, scope, target)
}

/// Whether the text of a fence has all of its fields.
pub(crate) fn is_plain_fence(x: &Fence) -> bool {
    let is_known = x.fm == 0 || (x.fm == 8 && x.pred == 3 && x.succ == 3);
    is_known && x.rd.number() == 0 && x.rs1.number() == 0
}

/// Adds a fence; its reserved fields are not shown.
pub(crate) fn put_fence(text: &mut Vec<u8>, x: &Fence) -> Result<(), AllocError> {
    if x.fm != 0 {
        return put(text, b"fence.tso");
    }
    put_columns(
        text,
        &[
            Text(b"fence\t"),
            Text(SETS[(x.pred % 16) as usize]),
            Text(b","),
            Text(SETS[(x.succ % 16) as usize]),
        ],
    )
}
