//! Statements without an expression.

ghost use Rattle.std.specs.Prelude.{◌≡◌, ◌<◌, [], ◌∷◌, ◌==◌, map, true, IfSome};
ghost use Rattle.rv_isa.specs.Operations.{of_reserve, of_atomic, of_shift};
ghost use Rattle.rv_isa.specs.Ranges.{shift_limit};
ghost use Rattle.rv_statement_laws.specs.declared.pseudo.UnaryOperation.TheVariants.{Mv};
ghost use Rattle.rv_statement.specs.View.{plain_of};
ghost use Rattle.rv_pseudo_laws.specs.Code as row;
ghost use Rattle.rv_pseudo_laws.specs.Li as li;
ghost use Rattle.rv_pseudo.specs.Templates as is;

use crate::parcel;
use crate::template::{Templates, one, plain, two};
use arrayvec::ArrayVec;
use rv_fault::SourceCode;
use rv_isa::{
    Atomic, AtomicForm, AtomicOperation, IType, Inst, RType, Reg, Reserve, SType, Shift,
    ShiftOperation, fence,
};
use rv_statement::Plain;
use rv_statement_laws::{CompareOperation, UnaryOperation};

/// Whether a register is x0.
pub(crate) fn is_x0(register: Reg) -> bool
    ensures { result ≡ (register == 0) }
{
    register.number() == 0
}

/// `jalr rd, immediate(rs1)`
pub(crate) fn jalr(rd: Reg, rs1: Reg, immediate: i32) -> Inst
    ensures { result ≡ row.jalr rd rs1 immediate }
{
    Inst::Jalr(IType { immediate, rd, rs1 })
}

/// A load-reserved of four or eight bytes.
fn load_reserved(form: AtomicForm, rd: Reg, rs1: Reg) -> Inst
    ensures { result ≡ of_reserve form.double (row.reserve form rd rs1) }
{
    let AtomicForm {
        double,
        acquire,
        release,
    } = form;
    let x = Reserve {
        rd,
        rs1,
        acquire,
        release,
    };
    x.instruction(double)
}

/// A store-conditional or an atomic memory operation.
fn atomic(operation: AtomicOperation, form: AtomicForm, rd: Reg, rs2: Reg, rs1: Reg) -> Inst
    ensures { result ≡ of_atomic operation form.double (row.atomic form rd rs2 rs1) }
{
    let AtomicForm {
        double,
        acquire,
        release,
    } = form;
    let x = Atomic {
        rd,
        rs1,
        rs2,
        acquire,
        release,
    };
    operation.instruction(double, x)
}

/// `mv`, in the form that has two bytes where compressed code is on.
fn mv(rvc: bool, rd: Reg, rs: Reg) -> Inst
    ensures { result ∷ [] ≡ row.unary rvc Mv rd rs }
{
    if rvc && !is_x0(rd) && !is_x0(rs) {
        Inst::Add(r_type(rd, Reg::ZERO, rs))
    } else {
        Inst::Addi(i_type(rd, rs, 0))
    }
}

/// A part of a register: shifted to its upper end, and back with its sign or without.
fn extended(back: ShiftOperation, rd: Reg, rs: Reg, amount: u8) -> Templates
    requires left { amount < 64 }
    requires back { amount < shift_limit back }
    ensures { result.items
        ≡ is.plain (li.slli rd rs amount) ∷ is.plain (of_shift back (row.shift_by rd rd amount)) ∷
        [] }
{
    let there = Inst::Slli(Shift {
        rd,
        rs1: rs,
        amount,
    });
    let and_back = back.instruction(Shift {
        rd,
        rs1: rd,
        amount,
    });
    two(plain(there), plain(and_back))
}

/// `rd, rs1, immediate`
fn i_type(rd: Reg, rs1: Reg, immediate: i32) -> IType
    ensures { result ≡ row.i_type rd rs1 immediate }
{
    IType { immediate, rd, rs1 }
}

/// `rd, rs1, rs2`
fn r_type(rd: Reg, rs1: Reg, rs2: Reg) -> RType
    ensures { result ≡ row.r_type rd rs1 rs2 }
{
    RType { rd, rs1, rs2 }
}

/// An operation on one register, as one instruction or as two shifts.
fn unary(rvc: bool, operation: UnaryOperation, rd: Reg, rs: Reg) -> Templates
    ensures { result.items ≡ is.all_templates (map row.Closed (row.unary rvc operation rd rs)) }
{
    match operation {
        UnaryOperation::Mv => one(plain(mv(rvc, rd, rs))),
        UnaryOperation::Not => one(plain(Inst::Xori(i_type(rd, rs, -1)))),
        UnaryOperation::Neg => one(plain(Inst::Sub(r_type(rd, Reg::ZERO, rs)))),
        UnaryOperation::Negw => one(plain(Inst::Subw(r_type(rd, Reg::ZERO, rs)))),
        UnaryOperation::SextW => one(plain(Inst::Addiw(i_type(rd, rs, 0)))),
        UnaryOperation::ZextB => one(plain(Inst::Andi(i_type(rd, rs, 255)))),
        UnaryOperation::SextB => extended(ShiftOperation::Srai, rd, rs, 56),
        UnaryOperation::SextH => extended(ShiftOperation::Srai, rd, rs, 48),
        UnaryOperation::ZextH => extended(ShiftOperation::Srli, rd, rs, 48),
        UnaryOperation::ZextW => extended(ShiftOperation::Srli, rd, rs, 32),
        UnaryOperation::Seqz => one(plain(Inst::Sltiu(i_type(rd, rs, 1)))),
        UnaryOperation::Snez => one(plain(Inst::Sltu(r_type(rd, Reg::ZERO, rs)))),
        UnaryOperation::Sltz => one(plain(Inst::Slt(r_type(rd, rs, Reg::ZERO)))),
        UnaryOperation::Sgtz => one(plain(Inst::Slt(r_type(rd, Reg::ZERO, rs)))),
    }
}

/// A comparison with its sources swapped.
fn compare(operation: CompareOperation, rd: Reg, rs1: Reg, rs2: Reg) -> Inst
    ensures { result ≡ row.compare operation rd rs1 rs2 }
{
    let swapped = RType {
        rd,
        rs1: rs2,
        rs2: rs1,
    };
    match operation {
        CompareOperation::Sgt => Inst::Slt(swapped),
        CompareOperation::Sgtu => Inst::Sltu(swapped),
    }
}

/// The one instruction of a statement without an expression, unless it says more.
fn instruction(statement: Plain) -> Option<Inst>
    ensures is { is.IsBareOne (plain_of statement) (is.says_more statement) result }
    ensures unnamed { IfSome result (λ i. is.IsUnnamed (plain_of statement)) }
{
    match statement {
        Plain::Registers(operation, rd, rs1, rs2) => {
            Some(operation.instruction(r_type(rd, rs1, rs2)))
        }
        Plain::Load(operation, rd, rs1) => Some(operation.instruction(i_type(rd, rs1, 0))),
        Plain::Store(operation, rs2, rs1) => Some(operation.instruction(SType {
            immediate: 0,
            rs1,
            rs2,
        })),
        Plain::Jalr(rd, rs1) => Some(jalr(rd, rs1, 0)),
        Plain::JalrLinked(rs1) => Some(jalr(Reg::RA, rs1, 0)),
        Plain::LoadReserved(form, rd, rs1) => Some(load_reserved(form, rd, rs1)),
        Plain::Atomic(operation, form, rd, rs2, rs1) => Some(atomic(operation, form, rd, rs2, rs1)),
        Plain::Fence => Some(fence(0, 15, 15)),
        Plain::FenceBetween(before, after) => Some(fence(0, before.bits(), after.bits())),
        Plain::FenceTso => Some(fence(8, 3, 3)),
        Plain::Ecall => Some(Inst::Ecall),
        Plain::Ebreak => Some(Inst::Ebreak),
        Plain::Nop => Some(Inst::Addi(i_type(Reg::ZERO, Reg::ZERO, 0))),
        Plain::Unary(..) => None,
        Plain::Compare(operation, rd, rs1, rs2) => Some(compare(operation, rd, rs1, rs2)),
        Plain::Jr(rs) => Some(jalr(Reg::ZERO, rs, 0)),
        Plain::Ret => Some(jalr(Reg::ZERO, Reg::RA, 0)),
        Plain::Parcel(..) => None,
    }
}

/// The one instruction of a statement without an expression; none of an operation on one register, which may have two,
/// and of a parcel, of which one has to know the form.
pub fn single_bare(statement: &Plain) -> Option<Inst>
    ensures is { is.IsBareOne (plain_of statement.now) (is.says_more statement.now) result }
    ensures unnamed { IfSome result (λ i. is.IsUnnamed (plain_of statement.now)) }
{
    instruction(*statement)
}

/// The templates of a statement that says more than one instruction, or that there is no row.
fn more(statement: Plain, rvc: bool) -> Result<Templates, SourceCode>
    requires { is.says_more statement ≡ true }
    ensures { is.AnswersBare rvc (plain_of statement) result }
{
    match statement {
        Plain::Unary(operation, rd, rs) => Ok(unary(rvc, operation, rd, rs)),
        Plain::Parcel(operation, a, b) => parcel::without_number(operation, a, b),
        _ => Ok(ArrayVec::new()),
    }
}

/// The templates of a statement without an expression.
///
/// # Errors
///
/// E9 for a parcel with registers that it does not take, or without the number that it has.
pub fn without_operand(statement: Plain, rvc: bool) -> Result<Templates, SourceCode>
    ensures { is.AnswersBare rvc (plain_of statement) result }
{
    match single_bare(&statement) {
        Some(inst) => Ok(one(plain(inst))),
        None => more(statement, rvc),
    }
}
