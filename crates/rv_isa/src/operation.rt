//! The operations of each format: what tells the instructions of a format apart, what each writes, and its name.
//!
//! Source: RISC-V Unprivileged ISA 20191213, chapters 2, 5, 7, 8 and 24.

ghost use Rattle.std.specs.Prelude.{◌≡◌, ◌<◌, ◌^◌, true, false};
ghost use Rattle.rv_isa.specs.Operations as is;
ghost use Rattle.rv_isa.specs.Ranges.{IsValid, IsSigned12, IsBranchOffset, shift_limit};

use crate::instruction::{Atomic, BType, Fence, IType, Inst, RType, Reserve, SType, Shift, UType};
use crate::register::Reg;

/// `rd, rs1, rs2`: an operation on two registers.
#[derive(Clone, Copy, Drop)]
pub enum RegisterOperation {
    Add,
    Sub,
    Sll,
    Slt,
    Sltu,
    Xor,
    Srl,
    Sra,
    Or,
    And,
    Addw,
    Subw,
    Sllw,
    Srlw,
    Sraw,
    Mul,
    Mulh,
    Mulhsu,
    Mulhu,
    Div,
    Divu,
    Rem,
    Remu,
    Mulw,
    Divw,
    Divuw,
    Remw,
    Remuw,
}

/// `rd, rs1, immediate`: an operation on a register and 12 signed bits.
#[derive(Clone, Copy, Drop)]
pub enum ImmediateOperation {
    Addi,
    Slti,
    Sltiu,
    Xori,
    Ori,
    Andi,
    Addiw,
}

/// `rd, rs1, amount`: a shift by a constant.
#[derive(Clone, Copy, Drop)]
pub enum ShiftOperation {
    Slli,
    Srli,
    Srai,
    Slliw,
    Srliw,
    Sraiw,
}

/// `rd, immediate`: the upper 20 bits.
#[derive(Clone, Copy, Drop)]
pub enum UpperOperation {
    Lui,
    Auipc,
}

/// `rd, offset(rs1)`: a load.
#[derive(Clone, Copy, Drop)]
pub enum LoadOperation {
    Lb,
    Lh,
    Lw,
    Ld,
    Lbu,
    Lhu,
    Lwu,
}

/// `rs2, offset(rs1)`: a store.
#[derive(Clone, Copy, Drop)]
pub enum StoreOperation {
    Sb,
    Sh,
    Sw,
    Sd,
}

/// `rs1, rs2, offset`: a jump where two registers compare so.
#[derive(Clone, Copy, Drop)]
pub enum BranchOperation {
    Beq,
    Bne,
    Blt,
    Bge,
    Bltu,
    Bgeu,
}

/// `rd, rs2, (rs1)`: a store-conditional or an atomic memory operation.
#[derive(Clone, Copy, Drop)]
pub enum AtomicOperation {
    Sc,
    Amoswap,
    Amoadd,
    Amoxor,
    Amoand,
    Amoor,
    Amomin,
    Amomax,
    Amominu,
    Amomaxu,
}

/// The end of an atomic's mnemonic: its width and its ordering bits.
#[derive(Clone, Copy, Drop)]
pub struct AtomicForm {
    /// Eight bytes, else four.
    pub double: bool,
    /// The aq bit.
    pub acquire: bool,
    /// The rl bit.
    pub release: bool,
}

/// The accesses that a fence orders, before it or after it.
#[derive(Clone, Copy, Drop)]
pub struct AccessSet {
    pub input: bool,
    pub output: bool,
    pub reads: bool,
    pub writes: bool,
}

impl RegisterOperation {
    /// The instruction of this operation with its operands.
    pub fn instruction(self, x: RType) -> Inst
        ensures { (result ≡ is.of_registers self x) × IsValid result }
    {
        match self {
            RegisterOperation::Add => Inst::Add(x),
            RegisterOperation::Sub => Inst::Sub(x),
            RegisterOperation::Sll => Inst::Sll(x),
            RegisterOperation::Slt => Inst::Slt(x),
            RegisterOperation::Sltu => Inst::Sltu(x),
            RegisterOperation::Xor => Inst::Xor(x),
            RegisterOperation::Srl => Inst::Srl(x),
            RegisterOperation::Sra => Inst::Sra(x),
            RegisterOperation::Or => Inst::Or(x),
            RegisterOperation::And => Inst::And(x),
            RegisterOperation::Addw => Inst::Addw(x),
            RegisterOperation::Subw => Inst::Subw(x),
            RegisterOperation::Sllw => Inst::Sllw(x),
            RegisterOperation::Srlw => Inst::Srlw(x),
            RegisterOperation::Sraw => Inst::Sraw(x),
            RegisterOperation::Mul => Inst::Mul(x),
            RegisterOperation::Mulh => Inst::Mulh(x),
            RegisterOperation::Mulhsu => Inst::Mulhsu(x),
            RegisterOperation::Mulhu => Inst::Mulhu(x),
            RegisterOperation::Div => Inst::Div(x),
            RegisterOperation::Divu => Inst::Divu(x),
            RegisterOperation::Rem => Inst::Rem(x),
            RegisterOperation::Remu => Inst::Remu(x),
            RegisterOperation::Mulw => Inst::Mulw(x),
            RegisterOperation::Divw => Inst::Divw(x),
            RegisterOperation::Divuw => Inst::Divuw(x),
            RegisterOperation::Remw => Inst::Remw(x),
            RegisterOperation::Remuw => Inst::Remuw(x),
        }
    }

    /// Its mnemonic in lower case.
    pub fn name(self) -> &'static str
        ensures { result.now ≡ is.register_name self }
    {
        match self {
            RegisterOperation::Add => "add",
            RegisterOperation::Sub => "sub",
            RegisterOperation::Sll => "sll",
            RegisterOperation::Slt => "slt",
            RegisterOperation::Sltu => "sltu",
            RegisterOperation::Xor => "xor",
            RegisterOperation::Srl => "srl",
            RegisterOperation::Sra => "sra",
            RegisterOperation::Or => "or",
            RegisterOperation::And => "and",
            RegisterOperation::Addw => "addw",
            RegisterOperation::Subw => "subw",
            RegisterOperation::Sllw => "sllw",
            RegisterOperation::Srlw => "srlw",
            RegisterOperation::Sraw => "sraw",
            RegisterOperation::Mul => "mul",
            RegisterOperation::Mulh => "mulh",
            RegisterOperation::Mulhsu => "mulhsu",
            RegisterOperation::Mulhu => "mulhu",
            RegisterOperation::Div => "div",
            RegisterOperation::Divu => "divu",
            RegisterOperation::Rem => "rem",
            RegisterOperation::Remu => "remu",
            RegisterOperation::Mulw => "mulw",
            RegisterOperation::Divw => "divw",
            RegisterOperation::Divuw => "divuw",
            RegisterOperation::Remw => "remw",
            RegisterOperation::Remuw => "remuw",
        }
    }
}

impl ImmediateOperation {
    /// The instruction of this operation with its operands.
    pub fn instruction(self, x: IType) -> Inst
        requires { IsSigned12 x.immediate }
        ensures { (result ≡ is.of_immediate self x) × IsValid result }
    {
        match self {
            ImmediateOperation::Addi => Inst::Addi(x),
            ImmediateOperation::Slti => Inst::Slti(x),
            ImmediateOperation::Sltiu => Inst::Sltiu(x),
            ImmediateOperation::Xori => Inst::Xori(x),
            ImmediateOperation::Ori => Inst::Ori(x),
            ImmediateOperation::Andi => Inst::Andi(x),
            ImmediateOperation::Addiw => Inst::Addiw(x),
        }
    }

    /// Its mnemonic in lower case.
    pub fn name(self) -> &'static str
        ensures { result.now ≡ is.immediate_name self }
    {
        match self {
            ImmediateOperation::Addi => "addi",
            ImmediateOperation::Slti => "slti",
            ImmediateOperation::Sltiu => "sltiu",
            ImmediateOperation::Xori => "xori",
            ImmediateOperation::Ori => "ori",
            ImmediateOperation::Andi => "andi",
            ImmediateOperation::Addiw => "addiw",
        }
    }
}

impl ShiftOperation {
    /// The instruction of this operation with its operands.
    pub fn instruction(self, x: Shift) -> Inst
        requires { x.amount < shift_limit self }
        ensures { (result ≡ is.of_shift self x) × IsValid result }
    {
        match self {
            ShiftOperation::Slli => Inst::Slli(x),
            ShiftOperation::Srli => Inst::Srli(x),
            ShiftOperation::Srai => Inst::Srai(x),
            ShiftOperation::Slliw => Inst::Slliw(x),
            ShiftOperation::Srliw => Inst::Srliw(x),
            ShiftOperation::Sraiw => Inst::Sraiw(x),
        }
    }

    /// Its mnemonic in lower case.
    pub fn name(self) -> &'static str
        ensures { result.now ≡ is.shift_name self }
    {
        match self {
            ShiftOperation::Slli => "slli",
            ShiftOperation::Srli => "srli",
            ShiftOperation::Srai => "srai",
            ShiftOperation::Slliw => "slliw",
            ShiftOperation::Srliw => "srliw",
            ShiftOperation::Sraiw => "sraiw",
        }
    }
}

impl UpperOperation {
    /// The instruction of this operation with its operands.
    pub fn instruction(self, x: UType) -> Inst
        requires { x.immediate < 2 ^ 20 }
        ensures { (result ≡ is.of_upper self x) × IsValid result }
    {
        match self {
            UpperOperation::Lui => Inst::Lui(x),
            UpperOperation::Auipc => Inst::Auipc(x),
        }
    }

    /// Its mnemonic in lower case.
    pub fn name(self) -> &'static str
        ensures { result.now ≡ is.upper_name self }
    {
        match self {
            UpperOperation::Lui => "lui",
            UpperOperation::Auipc => "auipc",
        }
    }
}

impl LoadOperation {
    /// The instruction of this operation with its operands.
    pub fn instruction(self, x: IType) -> Inst
        requires { IsSigned12 x.immediate }
        ensures { (result ≡ is.of_load self x) × IsValid result }
    {
        match self {
            LoadOperation::Lb => Inst::Lb(x),
            LoadOperation::Lh => Inst::Lh(x),
            LoadOperation::Lw => Inst::Lw(x),
            LoadOperation::Ld => Inst::Ld(x),
            LoadOperation::Lbu => Inst::Lbu(x),
            LoadOperation::Lhu => Inst::Lhu(x),
            LoadOperation::Lwu => Inst::Lwu(x),
        }
    }

    /// Its mnemonic in lower case.
    pub fn name(self) -> &'static str
        ensures { result.now ≡ is.load_name self }
    {
        match self {
            LoadOperation::Lb => "lb",
            LoadOperation::Lh => "lh",
            LoadOperation::Lw => "lw",
            LoadOperation::Ld => "ld",
            LoadOperation::Lbu => "lbu",
            LoadOperation::Lhu => "lhu",
            LoadOperation::Lwu => "lwu",
        }
    }

    /// The bytes that it loads (sections 2.6 and 5.3).
    pub fn width(self) -> u64
        ensures { result ≡ is.load_width self }
    {
        match self {
            LoadOperation::Lb | LoadOperation::Lbu => 1,
            LoadOperation::Lh | LoadOperation::Lhu => 2,
            LoadOperation::Lw | LoadOperation::Lwu => 4,
            LoadOperation::Ld => 8,
        }
    }
}

impl StoreOperation {
    /// The instruction of this operation with its operands.
    pub fn instruction(self, x: SType) -> Inst
        requires { IsSigned12 x.immediate }
        ensures { (result ≡ is.of_store self x) × IsValid result }
    {
        match self {
            StoreOperation::Sb => Inst::Sb(x),
            StoreOperation::Sh => Inst::Sh(x),
            StoreOperation::Sw => Inst::Sw(x),
            StoreOperation::Sd => Inst::Sd(x),
        }
    }

    /// Its mnemonic in lower case.
    pub fn name(self) -> &'static str
        ensures { result.now ≡ is.store_name self }
    {
        match self {
            StoreOperation::Sb => "sb",
            StoreOperation::Sh => "sh",
            StoreOperation::Sw => "sw",
            StoreOperation::Sd => "sd",
        }
    }

    /// The bytes that it stores.
    pub fn width(self) -> u64
        ensures { result ≡ is.store_width self }
    {
        match self {
            StoreOperation::Sb => 1,
            StoreOperation::Sh => 2,
            StoreOperation::Sw => 4,
            StoreOperation::Sd => 8,
        }
    }
}

impl BranchOperation {
    /// The instruction of this operation with its operands.
    pub fn instruction(self, x: BType) -> Inst
        requires { IsBranchOffset x.offset }
        ensures { (result ≡ is.of_branch self x) × IsValid result }
    {
        match self {
            BranchOperation::Beq => Inst::Beq(x),
            BranchOperation::Bne => Inst::Bne(x),
            BranchOperation::Blt => Inst::Blt(x),
            BranchOperation::Bge => Inst::Bge(x),
            BranchOperation::Bltu => Inst::Bltu(x),
            BranchOperation::Bgeu => Inst::Bgeu(x),
        }
    }

    /// Its mnemonic in lower case.
    pub fn name(self) -> &'static str
        ensures { result.now ≡ is.branch_name self }
    {
        match self {
            BranchOperation::Beq => "beq",
            BranchOperation::Bne => "bne",
            BranchOperation::Blt => "blt",
            BranchOperation::Bge => "bge",
            BranchOperation::Bltu => "bltu",
            BranchOperation::Bgeu => "bgeu",
        }
    }
}

impl AtomicOperation {
    /// The instruction of this operation on eight bytes.
    fn on_double(self, x: Atomic) -> Inst
        ensures { (result ≡ is.of_atomic self true x) × IsValid result }
    {
        match self {
            AtomicOperation::Sc => Inst::ScD(x),
            AtomicOperation::Amoswap => Inst::AmoswapD(x),
            AtomicOperation::Amoadd => Inst::AmoaddD(x),
            AtomicOperation::Amoxor => Inst::AmoxorD(x),
            AtomicOperation::Amoand => Inst::AmoandD(x),
            AtomicOperation::Amoor => Inst::AmoorD(x),
            AtomicOperation::Amomin => Inst::AmominD(x),
            AtomicOperation::Amomax => Inst::AmomaxD(x),
            AtomicOperation::Amominu => Inst::AmominuD(x),
            AtomicOperation::Amomaxu => Inst::AmomaxuD(x),
        }
    }

    /// The instruction of this operation on four bytes.
    fn on_word(self, x: Atomic) -> Inst
        ensures { (result ≡ is.of_atomic self false x) × IsValid result }
    {
        match self {
            AtomicOperation::Sc => Inst::ScW(x),
            AtomicOperation::Amoswap => Inst::AmoswapW(x),
            AtomicOperation::Amoadd => Inst::AmoaddW(x),
            AtomicOperation::Amoxor => Inst::AmoxorW(x),
            AtomicOperation::Amoand => Inst::AmoandW(x),
            AtomicOperation::Amoor => Inst::AmoorW(x),
            AtomicOperation::Amomin => Inst::AmominW(x),
            AtomicOperation::Amomax => Inst::AmomaxW(x),
            AtomicOperation::Amominu => Inst::AmominuW(x),
            AtomicOperation::Amomaxu => Inst::AmomaxuW(x),
        }
    }

    /// The instruction of this operation with its operands, on eight bytes or on four.
    pub fn instruction(self, double: bool, x: Atomic) -> Inst
        ensures { (result ≡ is.of_atomic self double x) × IsValid result }
    {
        if double {
            self.on_double(x)
        } else {
            self.on_word(x)
        }
    }

    /// Its mnemonic on eight bytes.
    fn name_on_double(self) -> &'static str
        ensures { result.now ≡ is.atomic_name self true }
    {
        match self {
            AtomicOperation::Sc => "sc.d",
            AtomicOperation::Amoswap => "amoswap.d",
            AtomicOperation::Amoadd => "amoadd.d",
            AtomicOperation::Amoxor => "amoxor.d",
            AtomicOperation::Amoand => "amoand.d",
            AtomicOperation::Amoor => "amoor.d",
            AtomicOperation::Amomin => "amomin.d",
            AtomicOperation::Amomax => "amomax.d",
            AtomicOperation::Amominu => "amominu.d",
            AtomicOperation::Amomaxu => "amomaxu.d",
        }
    }

    /// Its mnemonic on four bytes.
    fn name_on_word(self) -> &'static str
        ensures { result.now ≡ is.atomic_name self false }
    {
        match self {
            AtomicOperation::Sc => "sc.w",
            AtomicOperation::Amoswap => "amoswap.w",
            AtomicOperation::Amoadd => "amoadd.w",
            AtomicOperation::Amoxor => "amoxor.w",
            AtomicOperation::Amoand => "amoand.w",
            AtomicOperation::Amoor => "amoor.w",
            AtomicOperation::Amomin => "amomin.w",
            AtomicOperation::Amomax => "amomax.w",
            AtomicOperation::Amominu => "amominu.w",
            AtomicOperation::Amomaxu => "amomaxu.w",
        }
    }

    /// Its mnemonic in lower case, with its width.
    pub fn name(self, double: bool) -> &'static str
        ensures { result.now ≡ is.atomic_name self double }
    {
        if double {
            self.name_on_double()
        } else {
            self.name_on_word()
        }
    }
}

impl Reserve {
    /// The load-reserved of eight bytes or of four.
    pub fn instruction(self, double: bool) -> Inst
        ensures { (result ≡ is.of_reserve double self) × IsValid result }
    {
        if double {
            Inst::LrD(self)
        } else {
            Inst::LrW(self)
        }
    }
}

impl AccessSet {
    /// The four bits of this set in a fence's word.
    pub fn bits(self) -> u8
        ensures { (result ≡ is.access_bits self) × (result < 16) }
    {
        let AccessSet {
            input,
            output,
            reads,
            writes,
        } = self;
        8 * u8::from(input) + 4 * u8::from(output) + 2 * u8::from(reads) + u8::from(writes)
    }
}

/// A fence between the accesses of `pred` before it and those of `succ` after it.
pub fn fence(fm: u8, pred: u8, succ: u8) -> Inst
    requires { (fm < 16) × (pred < 16) × (succ < 16) }
    ensures { (result ≡ is.fence fm pred succ) × IsValid result }
{
    Inst::Fence(Fence {
        fm,
        pred,
        succ,
        rs1: Reg::ZERO,
        rd: Reg::ZERO,
    })
}
