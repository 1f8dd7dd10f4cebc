//! Instructions into words: one sum of fields a format, one line a mnemonic.

ghost use Rattle.std.specs.Prelude.{◌≡◌, ◌<◌};
ghost use Rattle.rv_isa.specs.Ranges.{
  IsRType,
  IsIType,
  IsShift,
  IsWordShift,
  IsSType,
  IsBType,
  IsUType,
  IsJType,
  IsAtomic,
  IsReserve,
  IsFence,
  IsValid,
};
ghost use Rattle.rv_isa_laws.specs.Word.{
  form,
  word,
  Register,
  Immediate,
  ShiftBy,
  WordShift,
  Store,
  Branch,
  Upper,
  Jump,
  Memory,
  LoadReserved,
  Ordering,
};

use crate::signed::{field_12, field_13, field_21};
use rv_isa::{Atomic, BType, Fence, IType, Inst, JType, RType, Reg, Reserve, SType, Shift, UType};

fn bits(reg: Reg) -> u32
    ensures value { result ≡ reg }
    ensures below { result < 32 }
{
    u32::from(reg.number())
}

fn register(opcode: u32, funct3: u32, funct7: u32, x: RType) -> u32
    requires opcode { opcode < 128 }
    requires funct3 { funct3 < 8 }
    requires funct7 { funct7 < 128 }
    requires operands { IsRType x }
    ensures { result ≡ word (Register opcode funct3 funct7 x) }
{
    opcode | bits(x.rd) << 7 | funct3 << 12 | bits(x.rs1) << 15 | bits(x.rs2) << 20 | funct7 << 25
}

fn immediate(opcode: u32, funct3: u32, x: IType) -> u32
    requires opcode { opcode < 128 }
    requires funct3 { funct3 < 8 }
    requires operands { IsIType x }
    ensures { result ≡ word (Immediate opcode funct3 x) }
{
    opcode | bits(x.rd) << 7 | funct3 << 12 | bits(x.rs1) << 15 | field_12(x.immediate) << 20
}

fn shift_by(opcode: u32, funct3: u32, funct6: u32, x: Shift) -> u32
    requires opcode { opcode < 128 }
    requires funct3 { funct3 < 8 }
    requires funct6 { funct6 < 64 }
    requires operands { IsShift x }
    ensures { result ≡ word (ShiftBy opcode funct3 funct6 x) }
{
    let amount = u32::from(x.amount);
    opcode | bits(x.rd) << 7 | funct3 << 12 | bits(x.rs1) << 15 | amount << 20 | funct6 << 26
}

fn word_shift(opcode: u32, funct3: u32, funct7: u32, x: Shift) -> u32
    requires opcode { opcode < 128 }
    requires funct3 { funct3 < 8 }
    requires funct7 { funct7 < 128 }
    requires operands { IsWordShift x }
    ensures { result ≡ word (WordShift opcode funct3 funct7 x) }
{
    let amount = u32::from(x.amount);
    opcode | bits(x.rd) << 7 | funct3 << 12 | bits(x.rs1) << 15 | amount << 20 | funct7 << 25
}

fn store(opcode: u32, funct3: u32, x: SType) -> u32
    requires opcode { opcode < 128 }
    requires funct3 { funct3 < 8 }
    requires operands { IsSType x }
    ensures { result ≡ word (Store opcode funct3 x) }
{
    let i = field_12(x.immediate);
    opcode | (i & 0x1f) << 7 | funct3 << 12 | bits(x.rs1) << 15 | bits(x.rs2) << 20 | i >> 5 << 25
}

fn branch(opcode: u32, funct3: u32, x: BType) -> u32
    requires opcode { opcode < 128 }
    requires funct3 { funct3 < 8 }
    requires operands { IsBType x }
    ensures { result ≡ word (Branch opcode funct3 x) }
{
    let i = field_13(x.offset);
    opcode
        | (i >> 11 & 1) << 7
        | (i >> 1 & 0xf) << 8
        | funct3 << 12
        | bits(x.rs1) << 15
        | bits(x.rs2) << 20
        | (i >> 5 & 0x3f) << 25
        | i >> 12 << 31
}

fn upper(opcode: u32, x: UType) -> u32
    requires opcode { opcode < 128 }
    requires operands { IsUType x }
    ensures { result ≡ word (Upper opcode x) }
{
    opcode | bits(x.rd) << 7 | x.immediate << 12
}

fn jump(opcode: u32, x: JType) -> u32
    requires opcode { opcode < 128 }
    requires operands { IsJType x }
    ensures { result ≡ word (Jump opcode x) }
{
    let i = field_21(x.offset);
    opcode
        | bits(x.rd) << 7
        | (i >> 12 & 0xff) << 12
        | (i >> 11 & 1) << 20
        | (i >> 1 & 0x3ff) << 21
        | i >> 20 << 31
}

fn memory(opcode: u32, funct3: u32, funct5: u32, x: Atomic) -> u32
    requires opcode { opcode < 128 }
    requires funct3 { funct3 < 8 }
    requires funct5 { funct5 < 32 }
    requires operands { IsAtomic x }
    ensures { result ≡ word (Memory opcode funct3 funct5 x) }
{
    opcode
        | bits(x.rd) << 7
        | funct3 << 12
        | bits(x.rs1) << 15
        | bits(x.rs2) << 20
        | u32::from(x.release) << 25
        | u32::from(x.acquire) << 26
        | funct5 << 27
}

fn load_reserved(opcode: u32, funct3: u32, funct5: u32, x: Reserve) -> u32
    requires opcode { opcode < 128 }
    requires funct3 { funct3 < 8 }
    requires funct5 { funct5 < 32 }
    requires operands { IsReserve x }
    ensures { result ≡ word (LoadReserved opcode funct3 funct5 x) }
{
    opcode
        | bits(x.rd) << 7
        | funct3 << 12
        | bits(x.rs1) << 15
        | u32::from(x.release) << 25
        | u32::from(x.acquire) << 26
        | funct5 << 27
}

fn ordering(opcode: u32, funct3: u32, x: Fence) -> u32
    requires opcode { opcode < 128 }
    requires funct3 { funct3 < 8 }
    requires operands { IsFence x }
    ensures { result ≡ word (Ordering opcode funct3 x) }
{
    opcode
        | bits(x.rd) << 7
        | funct3 << 12
        | bits(x.rs1) << 15
        | u32::from(x.succ) << 20
        | u32::from(x.pred) << 24
        | u32::from(x.fm) << 28
}

/// The word that spells this instruction.
pub fn encode(inst: Inst) -> u32
    requires { IsValid inst }
    ensures { result ≡ word (form inst) }
{
    match inst {
        Inst::Lui(x) => upper(0x37, x),
        Inst::Auipc(x) => upper(0x17, x),
        Inst::Jal(x) => jump(0x6f, x),
        Inst::Jalr(x) => immediate(0x67, 0, x),
        Inst::Beq(x) => branch(0x63, 0, x),
        Inst::Bne(x) => branch(0x63, 1, x),
        Inst::Blt(x) => branch(0x63, 4, x),
        Inst::Bge(x) => branch(0x63, 5, x),
        Inst::Bltu(x) => branch(0x63, 6, x),
        Inst::Bgeu(x) => branch(0x63, 7, x),
        Inst::Lb(x) => immediate(0x03, 0, x),
        Inst::Lh(x) => immediate(0x03, 1, x),
        Inst::Lw(x) => immediate(0x03, 2, x),
        Inst::Ld(x) => immediate(0x03, 3, x),
        Inst::Lbu(x) => immediate(0x03, 4, x),
        Inst::Lhu(x) => immediate(0x03, 5, x),
        Inst::Lwu(x) => immediate(0x03, 6, x),
        Inst::Sb(x) => store(0x23, 0, x),
        Inst::Sh(x) => store(0x23, 1, x),
        Inst::Sw(x) => store(0x23, 2, x),
        Inst::Sd(x) => store(0x23, 3, x),
        Inst::Addi(x) => immediate(0x13, 0, x),
        Inst::Slti(x) => immediate(0x13, 2, x),
        Inst::Sltiu(x) => immediate(0x13, 3, x),
        Inst::Xori(x) => immediate(0x13, 4, x),
        Inst::Ori(x) => immediate(0x13, 6, x),
        Inst::Andi(x) => immediate(0x13, 7, x),
        Inst::Slli(x) => shift_by(0x13, 1, 0x00, x),
        Inst::Srli(x) => shift_by(0x13, 5, 0x00, x),
        Inst::Srai(x) => shift_by(0x13, 5, 0x10, x),
        Inst::Add(x) => register(0x33, 0, 0x00, x),
        Inst::Sub(x) => register(0x33, 0, 0x20, x),
        Inst::Sll(x) => register(0x33, 1, 0x00, x),
        Inst::Slt(x) => register(0x33, 2, 0x00, x),
        Inst::Sltu(x) => register(0x33, 3, 0x00, x),
        Inst::Xor(x) => register(0x33, 4, 0x00, x),
        Inst::Srl(x) => register(0x33, 5, 0x00, x),
        Inst::Sra(x) => register(0x33, 5, 0x20, x),
        Inst::Or(x) => register(0x33, 6, 0x00, x),
        Inst::And(x) => register(0x33, 7, 0x00, x),
        Inst::Addiw(x) => immediate(0x1b, 0, x),
        Inst::Slliw(x) => word_shift(0x1b, 1, 0x00, x),
        Inst::Srliw(x) => word_shift(0x1b, 5, 0x00, x),
        Inst::Sraiw(x) => word_shift(0x1b, 5, 0x20, x),
        Inst::Addw(x) => register(0x3b, 0, 0x00, x),
        Inst::Subw(x) => register(0x3b, 0, 0x20, x),
        Inst::Sllw(x) => register(0x3b, 1, 0x00, x),
        Inst::Srlw(x) => register(0x3b, 5, 0x00, x),
        Inst::Sraw(x) => register(0x3b, 5, 0x20, x),
        Inst::Fence(x) => ordering(0x0f, 0, x),
        Inst::Ecall => 0x0000_0073,
        Inst::Ebreak => 0x0010_0073,
        Inst::Mul(x) => register(0x33, 0, 0x01, x),
        Inst::Mulh(x) => register(0x33, 1, 0x01, x),
        Inst::Mulhsu(x) => register(0x33, 2, 0x01, x),
        Inst::Mulhu(x) => register(0x33, 3, 0x01, x),
        Inst::Div(x) => register(0x33, 4, 0x01, x),
        Inst::Divu(x) => register(0x33, 5, 0x01, x),
        Inst::Rem(x) => register(0x33, 6, 0x01, x),
        Inst::Remu(x) => register(0x33, 7, 0x01, x),
        Inst::Mulw(x) => register(0x3b, 0, 0x01, x),
        Inst::Divw(x) => register(0x3b, 4, 0x01, x),
        Inst::Divuw(x) => register(0x3b, 5, 0x01, x),
        Inst::Remw(x) => register(0x3b, 6, 0x01, x),
        Inst::Remuw(x) => register(0x3b, 7, 0x01, x),
        Inst::LrW(x) => load_reserved(0x2f, 2, 0x02, x),
        Inst::ScW(x) => memory(0x2f, 2, 0x03, x),
        Inst::AmoswapW(x) => memory(0x2f, 2, 0x01, x),
        Inst::AmoaddW(x) => memory(0x2f, 2, 0x00, x),
        Inst::AmoxorW(x) => memory(0x2f, 2, 0x04, x),
        Inst::AmoandW(x) => memory(0x2f, 2, 0x0c, x),
        Inst::AmoorW(x) => memory(0x2f, 2, 0x08, x),
        Inst::AmominW(x) => memory(0x2f, 2, 0x10, x),
        Inst::AmomaxW(x) => memory(0x2f, 2, 0x14, x),
        Inst::AmominuW(x) => memory(0x2f, 2, 0x18, x),
        Inst::AmomaxuW(x) => memory(0x2f, 2, 0x1c, x),
        Inst::LrD(x) => load_reserved(0x2f, 3, 0x02, x),
        Inst::ScD(x) => memory(0x2f, 3, 0x03, x),
        Inst::AmoswapD(x) => memory(0x2f, 3, 0x01, x),
        Inst::AmoaddD(x) => memory(0x2f, 3, 0x00, x),
        Inst::AmoxorD(x) => memory(0x2f, 3, 0x04, x),
        Inst::AmoandD(x) => memory(0x2f, 3, 0x0c, x),
        Inst::AmoorD(x) => memory(0x2f, 3, 0x08, x),
        Inst::AmominD(x) => memory(0x2f, 3, 0x10, x),
        Inst::AmomaxD(x) => memory(0x2f, 3, 0x14, x),
        Inst::AmominuD(x) => memory(0x2f, 3, 0x18, x),
        Inst::AmomaxuD(x) => memory(0x2f, 3, 0x1c, x),
    }
}
