//! Statements with a number, or with a part of an address in place of one.
//!
//! A constant goes into its field here. A part of an address is known to the linker alone: the field stays 0, and the
//! template carries the relocation that fills it, so both cases make the same instruction. Ranges are tested before
//! (`fault`), so each function here asks for a number in range and refuses none.

ghost use Rattle.std.specs.Prelude.{◌≡◌, ◌<◌, ◌^◌, IfSome, Option, true, false};
ghost use Rattle.rv_isa.specs.Operations.{of_immediate, of_shift, of_upper, of_load, of_store};
ghost use Rattle.rv_isa.specs.declared.kind.Kind.{Kind as SpecKind};
ghost use Rattle.rv_isa.specs.Ranges.{IsSigned12, shift_limit};
ghost use Rattle.rv_isa_laws.specs.Arithmetic.{wrapped};
ghost use Rattle.rv_isa_laws.specs.Halves.{hi, lo};
ghost use Rattle.rv_parse_laws.specs.Syntax as syntax;
ghost use Rattle.rv_pseudo_laws.specs.Code as row;
ghost use Rattle.rv_pseudo_laws.specs.Li.{is_signed};
ghost use Rattle.rv_pseudo_laws.specs.Valid.{form_takes, is_amount, is_upper_20, takes};
ghost use Rattle.rv_pseudo.specs.Faults as faults;
ghost use Rattle.rv_pseudo.specs.Templates as is;

use crate::bare::jalr;
use crate::li::{halves, li_sequence};
use crate::parcel;
use crate::template::{Templates, all_plain, with_reloc};
use arrayvec::ArrayVec;
use rv_isa::{
    IType, ImmediateOperation, Inst, Kind, LoadOperation, Reg, RegisterOperation, SType, Shift,
    ShiftOperation, StoreOperation, UType, UpperOperation,
};
use rv_statement::Operation;
use rv_statement_laws::Function;

/// A number of 12 bits in two's complement.
fn immediate(number: i64) -> i32
    requires { is_signed 12 number ≡ true }
    ensures same { result ≡ number }
    ensures range { IsSigned12 result }
{
    number as i32
}

/// An operation on a register and a number of 12 bits.
fn with_immediate(operation: ImmediateOperation, rd: Reg, rs1: Reg, number: i64) -> Inst
    requires { is_signed 12 number ≡ true }
    ensures { result ≡ of_immediate operation (row.i_type rd rs1 number) }
{
    let immediate = immediate(number);
    operation.instruction(IType { immediate, rd, rs1 })
}

/// The amount of a shift.
fn amount(operation: ShiftOperation, number: i64) -> u8
    requires { is_amount operation number ≡ true }
    ensures same { result ≡ wrapped number }
    ensures range { result < shift_limit operation }
{
    number as u8
}

/// A number of 20 bits.
fn upper_field(number: i64) -> u32
    requires { is_upper_20 number ≡ true }
    ensures same { result ≡ wrapped number }
    ensures range { result < 2 ^ 20 }
{
    number as u32
}

/// A shift by a number.
fn shift(operation: ShiftOperation, rd: Reg, rs1: Reg, number: i64) -> Inst
    requires { is_amount operation number ≡ true }
    ensures { result ≡ of_shift operation (row.shift_by rd rs1 (wrapped number)) }
{
    let amount = amount(operation, number);
    operation.instruction(Shift { rd, rs1, amount })
}

/// The upper 20 bits of an instruction.
fn upper(operation: UpperOperation, rd: Reg, number: i64) -> Inst
    requires { is_upper_20 number ≡ true }
    ensures { result ≡ of_upper operation (row.u_type rd (wrapped number)) }
{
    let immediate = upper_field(number);
    operation.instruction(UType { immediate, rd })
}

/// An operation on registers with a number in place of the last.
fn with_constant(operation: RegisterOperation, rd: Reg, rs1: Reg, number: i64) -> Inst
    requires { form_takes (syntax.with_constant operation) number ≡ true }
    ensures { (reloc : Option SpecKind) →
        is.IsConstantRow (syntax.with_constant operation) rd rs1 number reloc
        (is.with_reloc reloc result) }
{
    match operation {
        RegisterOperation::Add => with_immediate(ImmediateOperation::Addi, rd, rs1, number),
        RegisterOperation::Slt => with_immediate(ImmediateOperation::Slti, rd, rs1, number),
        RegisterOperation::Sltu => with_immediate(ImmediateOperation::Sltiu, rd, rs1, number),
        RegisterOperation::Xor => with_immediate(ImmediateOperation::Xori, rd, rs1, number),
        RegisterOperation::Or => with_immediate(ImmediateOperation::Ori, rd, rs1, number),
        RegisterOperation::And => with_immediate(ImmediateOperation::Andi, rd, rs1, number),
        RegisterOperation::Addw => with_immediate(ImmediateOperation::Addiw, rd, rs1, number),
        RegisterOperation::Sll => shift(ShiftOperation::Slli, rd, rs1, number),
        RegisterOperation::Srl => shift(ShiftOperation::Srli, rd, rs1, number),
        RegisterOperation::Sra => shift(ShiftOperation::Srai, rd, rs1, number),
        RegisterOperation::Sllw => shift(ShiftOperation::Slliw, rd, rs1, number),
        RegisterOperation::Srlw => shift(ShiftOperation::Srliw, rd, rs1, number),
        RegisterOperation::Sraw => shift(ShiftOperation::Sraiw, rd, rs1, number),
        _ => Inst::default(),
    }
}

/// A load at a register and a number.
fn load(operation: LoadOperation, rd: Reg, rs1: Reg, number: i64) -> Inst
    requires { is_signed 12 number ≡ true }
    ensures { result ≡ of_load operation (row.i_type rd rs1 number) }
{
    let immediate = immediate(number);
    operation.instruction(IType { immediate, rd, rs1 })
}

/// A store at a register and a number.
fn store(operation: StoreOperation, rs2: Reg, rs1: Reg, number: i64) -> Inst
    requires { is_signed 12 number ≡ true }
    ensures { result ≡ of_store operation (row.s_type rs2 rs1 number) }
{
    let immediate = immediate(number);
    operation.instruction(SType {
        immediate,
        rs1,
        rs2,
    })
}

/// A jump to a register and a number.
fn jump(rd: Reg, rs1: Reg, number: i64) -> Inst
    requires { is_signed 12 number ≡ true }
    ensures { result ≡ row.jalr rd rs1 number }
{
    jalr(rd, rs1, immediate(number))
}

/// The one instruction of a statement with a number that is in the range of its field, unless it says more.
fn instruction(operation: Operation, number: i64) -> Option<Inst>
    requires range { takes (faults.mnemonic_of operation) number ≡ true }
    requires away { faults.takes_target operation ≡ false }
    ensures is { is.IsNumberedOne operation number result }
    ensures whole { IfSome result (λ i. is.says_more_with operation ≡ false) }
{
    match operation {
        Operation::Registers(operation, rd, rs1) => {
            Some(with_constant(operation, rd, rs1, number))
        }
        Operation::Immediate(operation, rd, rs1) => {
            Some(with_immediate(operation, rd, rs1, number))
        }
        Operation::Shift(operation, rd, rs1) => Some(shift(operation, rd, rs1, number)),
        Operation::Upper(operation, rd) => Some(upper(operation, rd, number)),
        Operation::Load(operation, rd, rs1) => Some(load(operation, rd, rs1, number)),
        Operation::Store(operation, rs2, rs1) => Some(store(operation, rs2, rs1, number)),
        Operation::Jalr(rd, rs1) => Some(jump(rd, rs1, number)),
        Operation::JalrThen(rd, rs1) => Some(jump(rd, rs1, number)),
        Operation::JalrLinked(rs1) => Some(jump(Reg::RA, rs1, number)),
        Operation::Jr(rs) => Some(jump(Reg::ZERO, rs, number)),
        _ => None,
    }
}

/// The same of an operation that is lent.
pub(crate) fn numbered_one(operation: &Operation, number: i64) -> Option<Inst>
    requires range { takes (faults.mnemonic_of operation.now) number ≡ true }
    requires away { faults.takes_target operation.now ≡ false }
    ensures is { is.IsNumberedOne operation.now number result }
    ensures whole { IfSome result (λ i. is.says_more_with operation.now ≡ false) }
{
    instruction(*operation, number)
}

/// The templates of `li`, or of a parcel, with a number.
fn more(operation: Operation, number: i64) -> Templates
    requires { is.says_more_with operation ≡ true }
    ensures { (reloc : Option SpecKind) → is.AreNumbered operation number reloc result.items }
{
    match operation {
        Operation::Li(rd) => all_plain(li_sequence(rd, number)),
        Operation::Parcel(operation, a, b) => parcel::with_number(operation, a, b, number),
        _ => ArrayVec::new(),
    }
}

/// The templates of a statement with a number that is in the range of its field.
pub(crate) fn numbered(operation: Operation, number: i64, reloc: Option<Kind>) -> Templates
    requires range { takes (faults.mnemonic_of operation) number ≡ true }
    requires away { faults.takes_target operation ≡ false }
    ensures { is.AreNumbered operation number reloc result.items }
{
    match numbered_one(&operation, number) {
        Some(inst) => with_reloc(inst, reloc),
        None => more(operation, number),
    }
}

/// The upper part of a number.
pub(crate) fn upper_part(value: i64) -> i64
    ensures { result ≡ hi value }
{
    halves(value).0
}

/// The lower part of a number.
pub(crate) fn lower_part(value: i64) -> i64
    ensures { result ≡ lo value }
{
    i64::from(halves(value).1)
}

/// The number of an operand, by its function and its value: 0 where it is open.
pub(crate) fn number(function: Option<Function>, value: Option<i64>) -> i64
    ensures { result ≡ faults.number function value }
{
    let Some(value) = value else { return 0 };
    match function {
        None => value,
        Some(Function::Hi) => upper_part(value),
        Some(Function::Lo) => lower_part(value),
        Some(Function::PcrelHi) | Some(Function::PcrelLo) => 0,
    }
}

/// The relocation of a part of an address.
fn kind_of(function: Function, store: bool) -> Kind
    ensures { is.IsKindOf function store result }
{
    match (function, store) {
        (Function::Hi, _) => Kind::Hi20,
        (Function::PcrelHi, _) => Kind::PcrelHi20,
        (Function::Lo, false) => Kind::Lo12I,
        (Function::Lo, true) => Kind::Lo12S,
        (Function::PcrelLo, false) => Kind::PcrelLo12I,
        (Function::PcrelLo, true) => Kind::PcrelLo12S,
    }
}

/// The relocation of an operand, where it is a part of an address that is open.
pub(crate) fn relocation(
    function: Option<Function>,
    value: Option<i64>,
    store: bool,
) -> Option<Kind>
    ensures { is.Puts function value store (faults.number function value) result }
{
    match (function, value) {
        (None, _) => None,
        (Some(Function::Hi), Some(_)) => None,
        (Some(Function::Lo), Some(_)) => None,
        (Some(Function::PcrelHi), Some(_)) => Some(kind_of(Function::PcrelHi, store)),
        (Some(Function::PcrelLo), Some(_)) => Some(kind_of(Function::PcrelLo, store)),
        (Some(function), None) => Some(kind_of(function, store)),
    }
}
