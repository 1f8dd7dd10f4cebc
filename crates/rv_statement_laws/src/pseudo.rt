//! The operations of pseudo-instructions that share their operands.
//!
//! Source: RISC-V Assembly Programmer's Manual, "pseudoinstructions"; GNU as, "RISC-V-Modifiers".

/// `rd, rs`: an operation on one register.
#[derive(Clone, Copy, Drop)]
pub enum UnaryOperation {
    Mv,
    Not,
    Neg,
    Negw,
    SextB,
    SextH,
    SextW,
    ZextB,
    ZextH,
    ZextW,
    Seqz,
    Snez,
    Sltz,
    Sgtz,
}

/// `rd, rs1, rs2`: a comparison with its sources swapped.
#[derive(Clone, Copy, Drop)]
pub enum CompareOperation {
    Sgt,
    Sgtu,
}

/// `rs, target`: a branch where a register compares so with zero.
#[derive(Clone, Copy, Drop)]
pub enum ZeroBranchOperation {
    Beqz,
    Bnez,
    Bgez,
    Bltz,
    Blez,
    Bgtz,
}

/// `rs1, rs2, target`: a branch with its sources swapped.
#[derive(Clone, Copy, Drop)]
pub enum SwappedBranchOperation {
    Bgt,
    Ble,
    Bgtu,
    Bleu,
}

/// The function of a value: which part of an address, or of the distance to one, it gives.
#[derive(Clone, Copy, Drop)]
pub enum Function {
    /// `%hi`
    Hi,
    /// `%lo`
    Lo,
    /// `%pcrel_hi`
    PcrelHi,
    /// `%pcrel_lo`
    PcrelLo,
}
