//! The text of an instruction by its shortest name, as GNU's `objdump` has it: `li`, `ret`, `mv`, `beqz`.
//!
//! What takes a number in place of a register has the name of the other form: `add a0,a0,1`. A parcel has the text of the
//! instruction that it stands for; one without effect (a HINT) keeps its `c.` mnemonic.

use crate::columns::Column::{Signed, Text};
use crate::columns::{put, put_columns};
use crate::instruction_text::{
    put_access, put_amount, put_base, put_fence, put_instruction, put_registers, put_sum,
    put_target, target_of,
};
use crate::parcel_text::put_parcel;
use crate::scope::Scope;
use rv_compress::read;
use rv_isa::{
    BType, BranchOperation, Fence, Format, IType, ImmediateOperation, Inst, JType, RType, Reg,
    RegisterOperation, Shift, ShiftOperation,
};
use rv_parcel::Compressed;
use std::alloc::AllocError;

/// Adds the text of the instruction at an address that these bits spell, by its shortest name; but as in listings a blank
/// is before the operands, and a target is an address with `0x`.
pub fn put_shortest(
    text: &mut Vec<u8>,
    address: u64,
    bits: u32,
    inst: Inst,
) -> Result<(), AllocError> {
    let scope = Scope {
        name: b"",
        start: 0,
        end: 0,
        is_object: false,
        own: &[],
        all: &[],
        is_bare: true,
    };
    let start = text.len();
    let parcel = if bits % 4 == 3 {
        None
    } else {
        read((bits % 0x1_0000) as u16)
    };
    match parcel {
        Some(parcel) => put_parcel_alias(text, &scope, address, &parcel, &inst)?,
        None => put_alias(text, &scope, address, &inst)?,
    }
    set_blank(text, start);
    Ok(())
}

/// Puts a blank in the place of the tab before the operands of what is added to a text from here on.
fn set_blank(text: &mut Vec<u8>, start: usize) {
    for place in start..text.len() {
        if let Some(byte) = text.get_mut(place) {
            if *byte == b'\t' {
                *byte = b' ';
                return;
            }
        }
    }
}

/// Adds the text of the parcel at an address, which stands for an instruction.
pub(crate) fn put_parcel_alias(
    text: &mut Vec<u8>,
    scope: &Scope<'_>,
    address: u64,
    parcel: &Compressed,
    inst: &Inst,
) -> Result<(), AllocError> {
    match *parcel {
        Compressed::Addi { rd, immediate } => put_sum(text, "add", &[rd, rd], immediate),
        Compressed::Mv { rd, rs2 } => put_move(text, rd, rs2),
        Compressed::Nop { immediate } => put_nop(text, immediate),
        form => {
            if form.is_hint() {
                return put_parcel(text, scope, address, parcel);
            }
            put_alias(text, scope, address, inst)
        }
    }
}

fn put_move(text: &mut Vec<u8>, rd: Reg, rs2: Reg) -> Result<(), AllocError> {
    put_registers(text, if is_zero(rd) { "c.mv" } else { "mv" }, &[rd, rs2])
}

fn put_nop(text: &mut Vec<u8>, immediate: i32) -> Result<(), AllocError> {
    if immediate == 0 {
        return put(text, b"nop");
    }
    put_columns(text, &[Text(b"c.nop\t"), Signed(immediate)])
}

/// Adds the text of the instruction at an address.
pub(crate) fn put_alias(
    text: &mut Vec<u8>,
    scope: &Scope<'_>,
    address: u64,
    inst: &Inst,
) -> Result<(), AllocError> {
    match (*inst).format() {
        Format::Registers(operation, x) => put_operation(text, operation, &x),
        Format::Immediate(operation, x) => put_immediate_form(text, operation, &x),
        Format::Shift(operation, x) => put_shift(text, operation, &x),
        Format::Branch(operation, x) => put_branch(text, scope, address, operation, &x),
        Format::Jal(x) => put_jump(text, scope, address, &x),
        Format::Jalr(x) => put_register_jump(text, &x),
        Format::Fence(x) => put_short_fence(text, &x),
        _ => put_instruction(text, scope, address, inst),
    }
}

fn is_zero(register: Reg) -> bool {
    register.number() == 0
}

fn put_operation(
    text: &mut Vec<u8>,
    operation: RegisterOperation,
    x: &RType,
) -> Result<(), AllocError> {
    if is_zero(x.rs2) && matches!(operation, RegisterOperation::Slt) {
        return put_registers(text, "sltz", &[x.rd, x.rs1]);
    }
    match from_zero(operation) {
        Some(name) if is_zero(x.rs1) => put_registers(text, name, &[x.rd, x.rs2]),
        _ => put_registers(text, operation.name(), &[x.rd, x.rs1, x.rs2]),
    }
}

/// The name of an operation on `zero` and another register.
fn from_zero(operation: RegisterOperation) -> Option<&'static str> {
    match operation {
        RegisterOperation::Sub => Some("neg"),
        RegisterOperation::Subw => Some("negw"),
        RegisterOperation::Sltu => Some("snez"),
        RegisterOperation::Slt => Some("sgtz"),
        _ => None,
    }
}

fn put_immediate_form(
    text: &mut Vec<u8>,
    operation: ImmediateOperation,
    x: &IType,
) -> Result<(), AllocError> {
    if matches!(operation, ImmediateOperation::Addi) && is_zero(x.rs1) {
        return put_load_immediate(text, x);
    }
    match with_number(operation, x.immediate) {
        Some(name) => put_registers(text, name, &[x.rd, x.rs1]),
        None => put_sum(text, short_name(operation), &[x.rd, x.rs1], x.immediate),
    }
}

fn put_load_immediate(text: &mut Vec<u8>, x: &IType) -> Result<(), AllocError> {
    if is_zero(x.rd) && x.immediate == 0 {
        return put(text, b"nop");
    }
    put_sum(text, "li", &[x.rd], x.immediate)
}

/// The name of an operation with this number, where it has one.
fn with_number(operation: ImmediateOperation, number: i32) -> Option<&'static str> {
    match (operation, number) {
        (ImmediateOperation::Addi, 0) => Some("mv"),
        (ImmediateOperation::Addiw, 0) => Some("sext.w"),
        (ImmediateOperation::Sltiu, 1) => Some("seqz"),
        (ImmediateOperation::Xori, -1) => Some("not"),
        (ImmediateOperation::Andi, 255) => Some("zext.b"),
        _ => None,
    }
}

fn short_name(operation: ImmediateOperation) -> &'static str {
    match operation {
        ImmediateOperation::Addi => "add",
        ImmediateOperation::Slti => "slti",
        ImmediateOperation::Sltiu => "sltiu",
        ImmediateOperation::Xori => "xor",
        ImmediateOperation::Ori => "or",
        ImmediateOperation::Andi => "and",
        ImmediateOperation::Addiw => "addw",
    }
}

fn put_shift(text: &mut Vec<u8>, operation: ShiftOperation, x: &Shift) -> Result<(), AllocError> {
    let name = match operation {
        ShiftOperation::Slli => "sll",
        ShiftOperation::Srli => "srl",
        ShiftOperation::Srai => "sra",
        ShiftOperation::Slliw => "sllw",
        ShiftOperation::Srliw => "srlw",
        ShiftOperation::Sraiw => "sraw",
    };
    put_amount(text, name, &[x.rd, x.rs1], u64::from(x.amount))
}

fn put_branch(
    text: &mut Vec<u8>,
    scope: &Scope<'_>,
    address: u64,
    operation: BranchOperation,
    x: &BType,
) -> Result<(), AllocError> {
    let left = is_zero(x.rs1);
    let right = is_zero(x.rs2);
    let target = target_of(address, x.offset);
    match from_branch(operation, left, right) {
        Some(name) if right => put_target(text, scope, name, &[x.rs1], target),
        Some(name) => put_target(text, scope, name, &[x.rs2], target),
        None => put_target(text, scope, operation.name(), &[x.rs1, x.rs2], target),
    }
}

/// The name of a branch that compares with `zero` on the left or the right.
fn from_branch(operation: BranchOperation, left: bool, right: bool) -> Option<&'static str> {
    match operation {
        BranchOperation::Beq if right => Some("beqz"),
        BranchOperation::Bne if right => Some("bnez"),
        BranchOperation::Bge if left => Some("blez"),
        BranchOperation::Bge if right => Some("bgez"),
        BranchOperation::Blt if right => Some("bltz"),
        BranchOperation::Blt if left => Some("bgtz"),
        _ => None,
    }
}

fn put_jump(
    text: &mut Vec<u8>,
    scope: &Scope<'_>,
    address: u64,
    x: &JType,
) -> Result<(), AllocError> {
    let target = target_of(address, x.offset);
    match x.rd.number() {
        0 => put_target(text, scope, "j", &[], target),
        1 => put_target(text, scope, "jal", &[], target),
        _ => put_target(text, scope, "jal", &[x.rd], target),
    }
}

fn put_register_jump(text: &mut Vec<u8>, x: &IType) -> Result<(), AllocError> {
    match (x.rd.number(), x.immediate) {
        (0, 0) if x.rs1.number() == 1 => put(text, b"ret"),
        (0, 0) => put_registers(text, "jr", &[x.rs1]),
        (1, 0) => put_registers(text, "jalr", &[x.rs1]),
        (_, 0) => put_registers(text, "jalr", &[x.rd, x.rs1]),
        (0, offset) => put_base(text, b"jr\t", offset, x.rs1),
        (1, offset) => put_base(text, b"jalr\t", offset, x.rs1),
        (_, offset) => put_access(text, "jalr", x.rd, offset, x.rs1),
    }
}

fn put_short_fence(text: &mut Vec<u8>, x: &Fence) -> Result<(), AllocError> {
    if x.fm == 0 && x.pred == 15 && x.succ == 15 {
        return put(text, b"fence");
    }
    put_fence(text, x)
}
