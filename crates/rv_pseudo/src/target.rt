//! Statements with a target: branches, jumps, calls, and addresses of symbols.
//!
//! A target is never a number here: where code stands is settled later, by sizes and by the linker, so each of these
//! has a relocation. A branch that does not reach is the opposite branch over a `jal`, since only `jal` reaches a
//! megabyte.

ghost use Rattle.std.specs.Prelude.{◌≡◌, Bool, true, false, pos};
ghost use Rattle.rv_isa.specs.declared.kind.Kind.TheVariants.{PcrelLo12I, PcrelLo12S};
ghost use Rattle.rv_isa.specs.Operations.{of_branch, of_load, of_store};
ghost use Rattle.rv_isa.specs.Ranges.{IsBranchOffset};
ghost use Rattle.rv_statement_laws.specs.Statement.{Expression, Target};
ghost use Rattle.rv_statement.specs.View.{with_operand};
ghost use Rattle.rv_pseudo_laws.specs.Code as row;
ghost use Rattle.rv_pseudo_laws.specs.Li.{addi};
ghost use Rattle.rv_pseudo.specs.Faults as faults;
ghost use Rattle.rv_pseudo.specs.Templates as is;

use crate::bare::{is_x0, jalr};
use crate::parcel;
use crate::template::{Templates, one, plain, two, under};
use arrayvec::ArrayVec;
use rv_isa::{
    BType, BranchOperation, IType, Inst, JType, Kind, LoadOperation, Reg, SType, StoreOperation,
    UType,
};
use rv_parcel::OperandShape;
use rv_statement::Operation;
use rv_statement_laws::{SwappedBranchOperation, ZeroBranchOperation};

/// The branch that is taken where this one is not.
fn inverted(operation: BranchOperation) -> BranchOperation
    ensures { result ≡ row.inverted operation }
{
    match operation {
        BranchOperation::Beq => BranchOperation::Bne,
        BranchOperation::Bne => BranchOperation::Beq,
        BranchOperation::Blt => BranchOperation::Bge,
        BranchOperation::Bge => BranchOperation::Blt,
        BranchOperation::Bltu => BranchOperation::Bgeu,
        BranchOperation::Bgeu => BranchOperation::Bltu,
    }
}

/// `jal rd` to a target that is open.
fn jal(rd: Reg) -> Inst
    ensures { result ≡ row.jal rd }
{
    Inst::Jal(JType { offset: 0, rd })
}

/// A branch over `offset` bytes.
fn branch_over(operation: BranchOperation, rs1: Reg, rs2: Reg, offset: i32) -> Inst
    requires { IsBranchOffset offset }
    ensures { result ≡ of_branch operation (row.b_type rs1 rs2 offset) }
{
    operation.instruction(BType { offset, rs1, rs2 })
}

/// A branch of 2, 4 or 8 bytes.
pub(crate) fn branch(bytes: u8, operation: BranchOperation, rs1: Reg, rs2: Reg) -> Templates
    ensures { result.items ≡ is.all_templates (row.branch bytes operation rs1 rs2) }
{
    match bytes {
        2 => one(under(Kind::RvcBranch, branch_over(operation, rs1, rs2, 0))),
        8 => two(
            plain(branch_over(inverted(operation), rs1, rs2, 8)),
            under(Kind::Jal, jal(Reg::ZERO)),
        ),
        _ => one(under(Kind::Branch, branch_over(operation, rs1, rs2, 0))),
    }
}

/// A jump of 2 or 4 bytes.
pub(crate) fn jump(bytes: u8, rd: Reg) -> Templates
    ensures { result.items ≡ is.all_templates (row.jump bytes rd) }
{
    if is_x0(rd) && bytes == 2 {
        one(under(Kind::RvcJump, jal(rd)))
    } else {
        one(under(Kind::Jal, jal(rd)))
    }
}

/// `auipc rd` of a distance that is open.
fn auipc(rd: Reg) -> Inst
    ensures { result ≡ row.auipc rd }
{
    Inst::Auipc(UType { immediate: 0, rd })
}

/// The upper part of a distance in a register, and the instruction that takes the rest.
fn near(rd: Reg, kind: Kind, rest: Inst) -> Templates
    ensures { result.items ≡ is.all_templates (row.near rd kind rest) }
{
    two(under(Kind::PcrelHi20, auipc(rd)), under(kind, rest))
}

/// A call through a register, in eight bytes.
fn far(link: Reg, through: Reg) -> Templates
    ensures { result.items ≡ is.all_templates (row.far 8 link through) }
{
    two(
        under(Kind::CallPlt, auipc(through)),
        plain(jalr(link, through, 0)),
    )
}

/// The address of a symbol.
fn address(rd: Reg) -> Templates
    ensures { result.items ≡ is.all_templates (row.near rd PcrelLo12I (addi rd rd (pos 0))) }
{
    let rest = Inst::Addi(IType {
        immediate: 0,
        rd,
        rs1: rd,
    });
    near(rd, Kind::PcrelLo12I, rest)
}

/// A load from a symbol.
fn load_symbol(operation: LoadOperation, rd: Reg) -> Templates
    ensures { result.items
        ≡ is.all_templates (row.near rd PcrelLo12I (of_load operation (row.i_type rd rd (pos 0)))) }
{
    let rest = operation.instruction(IType {
        immediate: 0,
        rd,
        rs1: rd,
    });
    near(rd, Kind::PcrelLo12I, rest)
}

/// A store to a symbol, whose address goes through `rt`.
fn store_symbol(operation: StoreOperation, rs2: Reg, rt: Reg) -> Templates
    ensures { result.items ≡ is.all_templates
        (row.near rt PcrelLo12S (of_store operation (row.s_type rs2 rt (pos 0)))) }
{
    let rest = operation.instruction(SType {
        immediate: 0,
        rs1: rt,
        rs2,
    });
    near(rt, Kind::PcrelLo12S, rest)
}

/// A branch where a register compares so with zero.
fn zero_branch(bytes: u8, operation: ZeroBranchOperation, rs: Reg) -> Templates
    ensures { result.items ≡ is.all_templates (row.zero_branch bytes operation rs) }
{
    match operation {
        ZeroBranchOperation::Beqz => branch(bytes, BranchOperation::Beq, rs, Reg::ZERO),
        ZeroBranchOperation::Bnez => branch(bytes, BranchOperation::Bne, rs, Reg::ZERO),
        ZeroBranchOperation::Bgez => branch(bytes, BranchOperation::Bge, rs, Reg::ZERO),
        ZeroBranchOperation::Bltz => branch(bytes, BranchOperation::Blt, rs, Reg::ZERO),
        ZeroBranchOperation::Blez => branch(bytes, BranchOperation::Bge, Reg::ZERO, rs),
        ZeroBranchOperation::Bgtz => branch(bytes, BranchOperation::Blt, Reg::ZERO, rs),
    }
}

/// A branch with its sources swapped.
fn swapped_branch(bytes: u8, operation: SwappedBranchOperation, a: Reg, b: Reg) -> Templates
    ensures { result.items ≡ is.all_templates (row.swapped_branch bytes operation a b) }
{
    let operation = match operation {
        SwappedBranchOperation::Bgt => BranchOperation::Blt,
        SwappedBranchOperation::Ble => BranchOperation::Bge,
        SwappedBranchOperation::Bgtu => BranchOperation::Bltu,
        SwappedBranchOperation::Bleu => BranchOperation::Bgeu,
    };
    branch(bytes, operation, b, a)
}

/// Whether a target stands beside the registers of a parcel.
fn is_target(shape: OperandShape) -> bool
    ensures { result ≡ faults.is_target shape }
{
    matches!(shape, OperandShape::Target)
}

/// Whether the expression of an operation is a target, and not a number.
pub fn takes_target(operation: &Operation) -> bool
    ensures { result ≡ faults.takes_target operation.now }
{
    match operation {
        Operation::Branch(..)
        | Operation::ZeroBranch(..)
        | Operation::SwappedBranch(..)
        | Operation::Jal(_)
        | Operation::JalLinked
        | Operation::J
        | Operation::La(_)
        | Operation::LoadSymbol(..)
        | Operation::StoreSymbol(..)
        | Operation::Call(_)
        | Operation::CallLinked
        | Operation::Tail
        | Operation::Jump(_) => true,
        Operation::Parcel(operation, ..) => is_target(operation.shape()),
        _ => false,
    }
}

/// The templates of a statement with a target that is open.
pub(crate) fn targeted(bytes: u8, operation: Operation) -> Templates
    requires target { faults.takes_target operation ≡ true }
    requires written { faults.is_written operation ≡ true }
    requires scratch { faults.is_bad_scratch operation ≡ false }
    ensures { (rvc : Bool) (e : Expression) →
        is.AreTemplates rvc bytes (with_operand operation (Target e)) result.items }
{
    match operation {
        Operation::Branch(operation, rs1, rs2) => branch(bytes, operation, rs1, rs2),
        Operation::ZeroBranch(operation, rs) => zero_branch(bytes, operation, rs),
        Operation::SwappedBranch(operation, a, b) => swapped_branch(bytes, operation, a, b),
        Operation::Jal(rd) => jump(bytes, rd),
        Operation::JalLinked => jump(bytes, Reg::RA),
        Operation::J => jump(bytes, Reg::ZERO),
        Operation::La(rd) => address(rd),
        Operation::LoadSymbol(operation, rd) => load_symbol(operation, rd),
        Operation::StoreSymbol(operation, rs2, rt) => store_symbol(operation, rs2, rt),
        Operation::Call(rd) => far(rd, rd),
        Operation::CallLinked => far(Reg::RA, Reg::RA),
        Operation::Tail => far(Reg::ZERO, Reg::T1),
        Operation::Jump(rt) => far(Reg::ZERO, rt),
        Operation::Parcel(operation, a, _) => parcel::with_target(operation, a),
        _ => ArrayVec::new(),
    }
}
