//! The 16-bit forms of the C extension for RV64IMAC, with their operands.
//!
//! Source: RISC-V Unprivileged ISA 20191213, chapter 16.

use rv_isa::Reg;

/// A 16-bit form and its operands, named by its `c.` mnemonic.
///
/// Registers of the three-bit fields are x8 to x15. Offsets and immediates count bytes and ones, as
/// the assembler writes them.
#[derive(Clone, Copy, Drop)]
pub enum Compressed {
    /// `c.addi4spn rd, sp, immediate`: a multiple of 4, from 4 to 1020.
    Addi4spn { rd: Reg, immediate: u32 },
    /// `c.lw rd, offset(rs1)`: a multiple of 4, up to 124.
    Lw { rd: Reg, rs1: Reg, offset: u32 },
    /// `c.ld rd, offset(rs1)`: a multiple of 8, up to 248.
    Ld { rd: Reg, rs1: Reg, offset: u32 },
    /// `c.sw rs2, offset(rs1)`: a multiple of 4, up to 124.
    Sw { rs1: Reg, rs2: Reg, offset: u32 },
    /// `c.sd rs2, offset(rs1)`: a multiple of 8, up to 248.
    Sd { rs1: Reg, rs2: Reg, offset: u32 },
    /// `c.nop`: immediate -32 to 31, a HINT unless 0.
    Nop { immediate: i32 },
    /// `c.addi rd, immediate`: rd not x0, immediate -32 to 31, a HINT at 0.
    Addi { rd: Reg, immediate: i32 },
    /// `c.addiw rd, immediate`: rd not x0, immediate -32 to 31.
    Addiw { rd: Reg, immediate: i32 },
    /// `c.li rd, immediate`: -32 to 31; a HINT at x0.
    Li { rd: Reg, immediate: i32 },
    /// `c.addi16sp sp, immediate`: a multiple of 16 from -512 to 496, not 0.
    Addi16sp { immediate: i32 },
    /// `c.lui rd, immediate`: rd not x2, the upper 20 bits of a six-bit number with sign that is not 0, so
    /// 1 to 31 or 1048544 to 1048575; a HINT at x0.
    Lui { rd: Reg, immediate: u32 },
    /// `c.srli rd, amount`: 0 to 63, a HINT at 0.
    Srli { rd: Reg, amount: u8 },
    /// `c.srai rd, amount`: 0 to 63, a HINT at 0.
    Srai { rd: Reg, amount: u8 },
    /// `c.andi rd, immediate`: -32 to 31.
    Andi { rd: Reg, immediate: i32 },
    /// `c.sub rd, rs2`.
    Sub { rd: Reg, rs2: Reg },
    /// `c.xor rd, rs2`.
    Xor { rd: Reg, rs2: Reg },
    /// `c.or rd, rs2`.
    Or { rd: Reg, rs2: Reg },
    /// `c.and rd, rs2`.
    And { rd: Reg, rs2: Reg },
    /// `c.subw rd, rs2`.
    Subw { rd: Reg, rs2: Reg },
    /// `c.addw rd, rs2`.
    Addw { rd: Reg, rs2: Reg },
    /// `c.j offset`: even, -2048 to 2046, from the instruction's own address.
    J { offset: i32 },
    /// `c.beqz rs1, offset`: even, -256 to 254, from the instruction's own address.
    Beqz { rs1: Reg, offset: i32 },
    /// `c.bnez rs1, offset`: even, -256 to 254, from the instruction's own address.
    Bnez { rs1: Reg, offset: i32 },
    /// `c.slli rd, amount`: 0 to 63; a HINT at x0 or at 0.
    Slli { rd: Reg, amount: u8 },
    /// `c.lwsp rd, offset(sp)`: rd not x0, a multiple of 4, up to 252.
    Lwsp { rd: Reg, offset: u32 },
    /// `c.ldsp rd, offset(sp)`: rd not x0, a multiple of 8, up to 504.
    Ldsp { rd: Reg, offset: u32 },
    /// `c.jr rs1`: rs1 not x0.
    Jr { rs1: Reg },
    /// `c.mv rd, rs2`: rs2 not x0; a HINT at rd x0.
    Mv { rd: Reg, rs2: Reg },
    /// `c.ebreak`.
    Ebreak,
    /// `c.jalr rs1`: rs1 not x0.
    Jalr { rs1: Reg },
    /// `c.add rd, rs2`: rs2 not x0; a HINT at rd x0.
    Add { rd: Reg, rs2: Reg },
    /// `c.swsp rs2, offset(sp)`: a multiple of 4, up to 252.
    Swsp { rs2: Reg, offset: u32 },
    /// `c.sdsp rs2, offset(sp)`: a multiple of 8, up to 504.
    Sdsp { rs2: Reg, offset: u32 },
}
