//! Where an expression stands in a statement.

/// Where an expression stands, which decides what is wrong around it.
#[derive(Clone, Copy, Drop)]
pub enum Role {
    /// As an operand of an instruction, or before the register of an address.
    Operand,
    /// In place of a register.
    Source,
    /// As the operand of `lui`.
    Upper,
    /// As the operand of `auipc`.
    PcrelUpper,
    /// In a directive.
    Directive,
    /// As an alignment.
    Alignment,
    /// As the target of a branch, a jump, a call or `la`, or as the address of a load or a store.
    Target,
}
