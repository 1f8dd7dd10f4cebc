//! From an instruction to the form that is chosen to stand for it.

ghost use Rattle.std.specs.Prelude.{◌≡◌, ◌≢◌, ◌↔◌, ◌<◌, ℕ, pos, IsTrue, MatchOption};
ghost use Rattle.rv_parcel.specs.Parcel.{
  IsBranch,
  IsFormOf,
  IsJump,
  IsMultiple,
  IsShort,
  IsShortOf,
  IsSixBits,
  IsStackStep,
  IsUpper,
};

use crate::writing::write;
use rv_isa::{BType, IType, Inst, JType, RType, Reg, SType, Shift, UType};
use rv_parcel::Compressed;

/// Whether a register is one of x8 to x15.
fn is_short(register: Reg) -> bool
    ensures { IsTrue result ↔ IsShort register }
{
    (8..16).contains(&register.number())
}

/// Whether a number has six bits with sign.
fn is_six_bits(value: i32) -> bool
    ensures { IsTrue result ↔ IsSixBits value }
{
    -32 <= value && value < 32
}

/// An offset that is a multiple of `unit` below `limit`.
fn scaled(value: i32, unit: u32, limit: u32) -> Option<u32>
    requires { 0 < unit }
    ensures { MatchOption result
        ((u : ℕ) → value ≡ pos u → IsMultiple unit limit u → ⊥)
        (λ u. (value ≡ pos u) × IsMultiple unit limit u) }
{
    if value < 0 {
        return None;
    }
    let offset = value as u32;
    if offset < limit && offset % unit == 0 {
        Some(offset)
    } else {
        None
    }
}

/// `addi rd, x0, immediate`: `c.li` or `c.nop`.
fn constant(rd: Reg, immediate: i32) -> Option<Compressed>
    ensures { IsFormOf result (Inst.Addi record { rd = rd; rs1 = 0; immediate = immediate }) }
{
    if rd.number() == 0 {
        if immediate == 0 {
            Some(Compressed::Nop { immediate })
        } else {
            None
        }
    } else if is_six_bits(immediate) {
        Some(Compressed::Li { rd, immediate })
    } else {
        None
    }
}

/// `addi sp, sp, immediate`: `c.addi` before `c.addi16sp`.
fn stack_step(immediate: i32) -> Option<Compressed>
    ensures { IsFormOf result (Inst.Addi record { rd = 2; rs1 = 2; immediate = immediate }) }
{
    let rd = Reg::SP;
    let is_step = -512 <= immediate && immediate < 512 && immediate.unsigned_abs() % 16 == 0;
    match is_six_bits(immediate) {
        true if immediate == 0 => None,
        true => Some(Compressed::Addi { rd, immediate }),
        false if is_step => Some(Compressed::Addi16sp { immediate }),
        false => None,
    }
}

/// `addi rd, sp, immediate` into another register: `c.addi4spn`.
fn stack_address(rd: Reg, immediate: i32) -> Option<Compressed>
    requires { rd ≢ 2 }
    ensures { IsFormOf result (Inst.Addi record { rd = rd; rs1 = 2; immediate = immediate }) }
{
    if !is_short(rd) || immediate == 0 {
        return None;
    }
    let immediate = scaled(immediate, 4, 1024)?;
    Some(Compressed::Addi4spn { rd, immediate })
}

fn addi(x: IType) -> Option<Compressed>
    ensures { IsFormOf result (Inst.Addi x) }
{
    match x.rs1.number() {
        0 => constant(x.rd, x.immediate),
        2 => if x.rd.number() == 2 {
            stack_step(x.immediate)
        } else {
            stack_address(x.rd, x.immediate)
        },
        _ => increment(x),
    }
}

/// `addi` of a register that is neither x0 nor sp: `c.addi`.
fn increment(x: IType) -> Option<Compressed>
    requires zero { x.rs1 ≢ 0 }
    requires stack { x.rs1 ≢ 2 }
    ensures { IsFormOf result (Inst.Addi x) }
{
    let IType { rd, rs1, immediate } = x;
    let fits = immediate != 0 && is_six_bits(immediate);
    if rd == rs1 && fits {
        Some(Compressed::Addi { rd, immediate })
    } else {
        None
    }
}

fn addiw(x: IType) -> Option<Compressed>
    ensures { IsFormOf result (Inst.Addiw x) }
{
    let IType { rd, rs1, immediate } = x;
    let fits = rd.number() != 0 && is_six_bits(immediate);
    if rd == rs1 && fits {
        Some(Compressed::Addiw { rd, immediate })
    } else {
        None
    }
}

fn andi(x: IType) -> Option<Compressed>
    ensures { IsFormOf result (Inst.Andi x) }
{
    let IType { rd, rs1, immediate } = x;
    let fits = is_short(rd) && is_six_bits(immediate);
    if rd == rs1 && fits {
        Some(Compressed::Andi { rd, immediate })
    } else {
        None
    }
}

fn lui(x: UType) -> Option<Compressed>
    ensures { IsFormOf result (Inst.Lui x) }
{
    let UType { rd, immediate } = x;
    let fits = 0 < immediate && immediate < 0x20 || 0xfffe0 <= immediate && immediate < 0x100000;
    if rd.number() == 0 || rd.number() == 2 || !fits {
        return None;
    }
    Some(Compressed::Lui { rd, immediate })
}

fn slli(x: Shift) -> Option<Compressed>
    ensures { IsFormOf result (Inst.Slli x) }
{
    let Shift { rd, rs1, amount } = x;
    let fits = rd.number() != 0 && 0 < amount && amount < 64;
    if rd == rs1 && fits {
        Some(Compressed::Slli { rd, amount })
    } else {
        None
    }
}

fn srli(x: Shift) -> Option<Compressed>
    ensures { IsFormOf result (Inst.Srli x) }
{
    let Shift { rd, rs1, amount } = x;
    let fits = is_short(rd) && 0 < amount && amount < 64;
    if rd == rs1 && fits {
        Some(Compressed::Srli { rd, amount })
    } else {
        None
    }
}

fn srai(x: Shift) -> Option<Compressed>
    ensures { IsFormOf result (Inst.Srai x) }
{
    let Shift { rd, rs1, amount } = x;
    let fits = is_short(rd) && 0 < amount && amount < 64;
    if rd == rs1 && fits {
        Some(Compressed::Srai { rd, amount })
    } else {
        None
    }
}

fn lw(x: IType) -> Option<Compressed>
    ensures { IsFormOf result (Inst.Lw x) }
{
    let IType { rd, rs1, immediate } = x;
    if rs1.number() == 2 && rd.number() != 0 {
        let offset = scaled(immediate, 4, 256)?;
        Some(Compressed::Lwsp { rd, offset })
    } else if is_short(rs1) && is_short(rd) {
        let offset = scaled(immediate, 4, 128)?;
        Some(Compressed::Lw { rd, rs1, offset })
    } else {
        None
    }
}

fn ld(x: IType) -> Option<Compressed>
    ensures { IsFormOf result (Inst.Ld x) }
{
    let IType { rd, rs1, immediate } = x;
    if rs1.number() == 2 && rd.number() != 0 {
        let offset = scaled(immediate, 8, 512)?;
        Some(Compressed::Ldsp { rd, offset })
    } else if is_short(rs1) && is_short(rd) {
        let offset = scaled(immediate, 8, 256)?;
        Some(Compressed::Ld { rd, rs1, offset })
    } else {
        None
    }
}

fn sw(x: SType) -> Option<Compressed>
    ensures { IsFormOf result (Inst.Sw x) }
{
    let SType {
        rs1,
        rs2,
        immediate,
    } = x;
    if rs1.number() == 2 {
        let offset = scaled(immediate, 4, 256)?;
        Some(Compressed::Swsp { rs2, offset })
    } else if is_short(rs1) && is_short(rs2) {
        let offset = scaled(immediate, 4, 128)?;
        Some(Compressed::Sw { rs1, rs2, offset })
    } else {
        None
    }
}

fn sd(x: SType) -> Option<Compressed>
    ensures { IsFormOf result (Inst.Sd x) }
{
    let SType {
        rs1,
        rs2,
        immediate,
    } = x;
    if rs1.number() == 2 {
        let offset = scaled(immediate, 8, 512)?;
        Some(Compressed::Sdsp { rs2, offset })
    } else if is_short(rs1) && is_short(rs2) {
        let offset = scaled(immediate, 8, 256)?;
        Some(Compressed::Sd { rs1, rs2, offset })
    } else {
        None
    }
}

/// Whether an operation is on x8 to x15 and its first operand is its destination.
fn is_short_pair(rd: Reg, rs1: Reg, rs2: Reg) -> bool
    ensures { IsTrue result ↔ ((rd ≡ rs1) × IsShort rd × IsShort rs2) }
{
    rd == rs1 && is_short(rd) && is_short(rs2)
}

/// `add`: `c.mv` or `c.add`; its operands are never exchanged.
fn add(x: RType) -> Option<Compressed>
    ensures { IsFormOf result (Inst.Add x) }
{
    let RType { rd, rs1, rs2 } = x;
    if rd.number() == 0 || rs2.number() == 0 {
        None
    } else if rs1.number() == 0 {
        Some(Compressed::Mv { rd, rs2 })
    } else if rd == rs1 {
        Some(Compressed::Add { rd, rs2 })
    } else {
        None
    }
}

fn jal(x: JType) -> Option<Compressed>
    ensures { IsFormOf result (Inst.Jal x) }
{
    let JType { rd, offset } = x;
    let reaches = -2048 <= offset && offset < 2048 && offset.unsigned_abs() % 2 == 0;
    if rd.number() == 0 && reaches {
        Some(Compressed::J { offset })
    } else {
        None
    }
}

fn jalr(x: IType) -> Option<Compressed>
    ensures { IsFormOf result (Inst.Jalr x) }
{
    if x.immediate != 0 || x.rs1.number() == 0 {
        return None;
    }
    match x.rd.number() {
        0 => Some(Compressed::Jr { rs1: x.rs1 }),
        1 => Some(Compressed::Jalr { rs1: x.rs1 }),
        _ => None,
    }
}

/// Whether a branch compares one of x8 to x15 with x0 and is within the reach of nine bits.
fn is_short_branch(rs1: Reg, rs2: Reg, offset: i32) -> bool
    ensures { IsTrue result ↔ (IsShort rs1 × (rs2 ≡ 0) × IsBranch offset) }
{
    let reaches = -256 <= offset && offset < 256 && offset.unsigned_abs() % 2 == 0;
    is_short(rs1) && rs2.number() == 0 && reaches
}

/// The form that is chosen to stand for an instruction, if there is one.
fn chosen(inst: Inst) -> Option<Compressed>
    ensures { IsFormOf result inst }
{
    match inst {
        Inst::Addi(x) => addi(x),
        Inst::Addiw(x) => addiw(x),
        Inst::Andi(x) => andi(x),
        Inst::Lui(x) => lui(x),
        Inst::Slli(x) => slli(x),
        Inst::Srli(x) => srli(x),
        Inst::Srai(x) => srai(x),
        Inst::Lw(x) => lw(x),
        Inst::Ld(x) => ld(x),
        Inst::Sw(x) => sw(x),
        Inst::Sd(x) => sd(x),
        Inst::Add(x) => add(x),
        Inst::Jal(x) => jal(x),
        Inst::Jalr(x) => jalr(x),
        Inst::Ebreak => Some(Compressed::Ebreak),
        Inst::Sub(RType { rd, rs1, rs2 }) => if is_short_pair(rd, rs1, rs2) {
            Some(Compressed::Sub { rd, rs2 })
        } else {
            None
        },
        Inst::Xor(RType { rd, rs1, rs2 }) => if is_short_pair(rd, rs1, rs2) {
            Some(Compressed::Xor { rd, rs2 })
        } else {
            None
        },
        Inst::Or(RType { rd, rs1, rs2 }) => if is_short_pair(rd, rs1, rs2) {
            Some(Compressed::Or { rd, rs2 })
        } else {
            None
        },
        Inst::And(RType { rd, rs1, rs2 }) => if is_short_pair(rd, rs1, rs2) {
            Some(Compressed::And { rd, rs2 })
        } else {
            None
        },
        Inst::Subw(RType { rd, rs1, rs2 }) => if is_short_pair(rd, rs1, rs2) {
            Some(Compressed::Subw { rd, rs2 })
        } else {
            None
        },
        Inst::Addw(RType { rd, rs1, rs2 }) => if is_short_pair(rd, rs1, rs2) {
            Some(Compressed::Addw { rd, rs2 })
        } else {
            None
        },
        Inst::Beq(BType { rs1, rs2, offset }) => if is_short_branch(rs1, rs2, offset) {
            Some(Compressed::Beqz { rs1, offset })
        } else {
            None
        },
        Inst::Bne(BType { rs1, rs2, offset }) => if is_short_branch(rs1, rs2, offset) {
            Some(Compressed::Bnez { rs1, offset })
        } else {
            None
        },
        _ => None,
    }
}

/// The parcel that is chosen to stand for an instruction: no HINT, and c.addi before c.addi16sp;
/// `None` exactly where no such parcel does. Operands are never exchanged.
///
/// Unprivileged ISA 20191213, chapter 16.
pub fn shrink(inst: Inst) -> Option<u16>
    ensures { (parcel : ℕ) → result ≡ Some parcel ↔ IsShortOf inst parcel }
{
    match chosen(inst) {
        Some(form) => Some(write(form)),
        None => None,
    }
}
