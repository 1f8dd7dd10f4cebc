//! Statements as the code holds them: names, digits and strings are parts of the source.
//!
//! A statement has 40 bytes, since a source may have 4 million of them. `.set`, `.section` and expressions with
//! operators are behind a pointer.

use rv_expression::Expr;
use rv_isa::{
    AccessSet, AtomicForm, AtomicOperation, BranchOperation, ImmediateOperation, LoadOperation,
    Reg, RegisterOperation, ShiftOperation, StoreOperation, UpperOperation,
};
use rv_parcel::ParcelOperation;
use rv_statement_laws::{
    Binding, Choice, CompareOperation, Function, Standard, SwappedBranchOperation, UnaryOperation,
    Width, ZeroBranchOperation,
};

/// The most statements of a source.
pub const MOST_STATEMENTS: usize = 1 << 22;

/// An instruction without an expression.
#[derive(Clone, Copy, Drop)]
pub enum Plain {
    /// `add rd, rs1, rs2`
    Registers(RegisterOperation, Reg, Reg, Reg),
    /// `lw rd, (rs1)`
    Load(LoadOperation, Reg, Reg),
    /// `sw rs2, (rs1)`
    Store(StoreOperation, Reg, Reg),
    /// `jalr rd, rs1` or `jalr rd, (rs1)`
    Jalr(Reg, Reg),
    /// `jalr rs1` or `jalr (rs1)`
    JalrLinked(Reg),
    /// `lr.w rd, (rs1)`
    LoadReserved(AtomicForm, Reg, Reg),
    /// `amoadd.w rd, rs2, (rs1)`
    Atomic(AtomicOperation, AtomicForm, Reg, Reg, Reg),
    /// `fence`
    Fence,
    /// `fence before, after`
    FenceBetween(AccessSet, AccessSet),
    FenceTso,
    Ecall,
    Ebreak,
    Nop,
    /// `mv rd, rs`
    Unary(UnaryOperation, Reg, Reg),
    /// `sgt rd, rs1, rs2`
    Compare(CompareOperation, Reg, Reg, Reg),
    /// `jr rs` or `jr (rs)`
    Jr(Reg),
    Ret,
    /// `c.add rd, rs2`, `c.jr rs1`, `c.nop` or `c.lw rd, (rs1)`: registers that it does not have are x0.
    Parcel(ParcelOperation, Reg, Reg),
}

/// A mnemonic with its registers, and an expression among them.
#[derive(Clone, Copy, Drop)]
pub enum Operation {
    /// `add rd, rs1, ..`
    Registers(RegisterOperation, Reg, Reg),
    /// `addi rd, rs1, ..`
    Immediate(ImmediateOperation, Reg, Reg),
    /// `slli rd, rs1, ..`
    Shift(ShiftOperation, Reg, Reg),
    /// `lui rd, ..`
    Upper(UpperOperation, Reg),
    /// `lw rd, ..(rs1)`
    Load(LoadOperation, Reg, Reg),
    /// `sw rs2, ..(rs1)`
    Store(StoreOperation, Reg, Reg),
    /// `jalr rd, ..(rs1)`
    Jalr(Reg, Reg),
    /// `jalr rd, rs1, ..`
    JalrThen(Reg, Reg),
    /// `jalr ..(rs1)`
    JalrLinked(Reg),
    /// `beq rs1, rs2, ..`
    Branch(BranchOperation, Reg, Reg),
    /// `jal rd, ..`
    Jal(Reg),
    /// `jal ..`
    JalLinked,
    /// `lw rd, ..`, where an address stands in place of an offset and a register.
    LoadSymbol(LoadOperation, Reg),
    /// `sw rs2, .., rt`, where an address stands in place of an offset and a register.
    StoreSymbol(StoreOperation, Reg, Reg),
    /// `beqz rs, ..`
    ZeroBranch(ZeroBranchOperation, Reg),
    /// `bgt rs1, rs2, ..`
    SwappedBranch(SwappedBranchOperation, Reg, Reg),
    /// `j ..`
    J,
    /// `jr ..(rs)`
    Jr(Reg),
    /// `la rd, ..`
    La(Reg),
    /// `li rd, ..`
    Li(Reg),
    /// `call rd, ..`
    Call(Reg),
    /// `call ..`
    CallLinked,
    /// `tail ..`
    Tail,
    /// `jump .., rt`
    Jump(Reg),
    /// `c.addi rd, ..`, `c.lw rd, ..(rs1)` or `c.j ..`: registers that it does not have are x0.
    Parcel(ParcelOperation, Reg, Reg),
}

/// What `.section` says.
#[derive(Drop)]
pub struct Opening<'a> {
    pub name: &'a [u8],
    /// The flags' letters, as they stand between the quotes.
    pub flags: Option<&'a [u8]>,
    /// The type's name.
    pub kind: Option<&'a [u8]>,
}

/// What `.set` says.
#[derive(Drop)]
pub struct Setting<'a> {
    pub name: &'a [u8],
    pub expression: Expr<'a>,
}

/// What a statement says.
#[derive(Drop)]
pub enum StatementKind<'a> {
    /// A label.
    Label(&'a [u8]),
    /// A numeric label, by its decimal digits.
    Numbered(&'a [u8]),
    /// An instruction without an expression.
    Plain(Plain),
    /// An instruction with an expression among its operands.
    With(Operation, Expr<'a>),
    /// An instruction with a function of an expression among its operands.
    WithFunction(Operation, Function, Expr<'a>),
    /// `.text`, `.data`, `.rodata` and `.bss`
    Enters(Standard),
    /// `.section`
    Opens(Box<Opening<'a>>),
    /// `.globl`, `.global`, `.local` or `.weak`, with its names in order.
    Binds(Binding, Vec<&'a [u8]>),
    /// `.set` or `.equ`
    Sets(Box<Setting<'a>>),
    /// `.align` or `.p2align`: to this power of two.
    AlignsToPower(Expr<'a>),
    /// `.balign`: to so many bytes.
    AlignsToBytes(Expr<'a>),
    /// `.byte` to `.quad` with one value.
    Value(Width, Expr<'a>),
    /// `.byte` to `.quad` with several values.
    Values(Width, Vec<Expr<'a>>),
    /// `.ascii`: strings, each as it stands between its quotes.
    Ascii(Vec<&'a [u8]>),
    /// `.asciz` or `.string`: strings with a zero byte behind each.
    Asciz(Vec<&'a [u8]>),
    /// `.zero`, `.space` or `.skip`: so many zero bytes.
    Zeros(Expr<'a>),
    /// `.option`
    Chooses(Choice),
    /// A directive without effect.
    Ignored,
}

/// A statement, with the line of its first byte, from 1. Its ordinal is its place in the source's list, from 1.
#[derive(Drop)]
pub struct Statement<'a> {
    pub kind: StatementKind<'a>,
    pub line: u32,
}

const _: () = prove!(size_of::<Statement<'static>>() <= 40);
