//! Pseudo-instructions: the base instructions that stand for each statement of code, with the relocations of its operands
//! that are still open.
//!
//! It takes a statement of `rv_statement` and a [`Form`] of it: whether compressed code is on, the bytes of a branch or a
//! jump, and the constant that its expression is. It gives [`Template`]s, or the lowest code of its faults.
//!
//! Main contracts: `expansion` answers the statement's row of the one table, `rv_pseudo_laws/specs/Code`, as templates
//! (`specs/Templates`), exactly where it has no fault (`rv_pseudo_laws/specs/InstructionFaults`); `without_operand` and `with_operand` answer the same of a
//! statement without an expression and of an operation with one; `li_sequence` answers `li`; `named` answers the form of a
//! parcel that a `c.` mnemonic names, since its templates are base instructions too. What the rows are worth the laws of
//! `rv_pseudo_laws` say. None takes memory. It must not know what names mean, where a statement stands, or
//! how an instruction is written as bits.
//!
//! ```text
//! let sequence = li_sequence(a0, 2048);            // lui a0, 1 and addiw a0, a0, -2048
//! let form = Form { rvc: true, bytes: 4, value: None };
//! let templates = expansion(&statement, form)?;    // of `la a0, x`: auipc under PCREL_HI20, addi under PCREL_LO12_I
//! ```
//!
//! Source: RISC-V Assembly Programmer's Manual, "pseudoinstructions" and "Load Immediate".
#![tactic(auto)]

mod bare;
mod expanding;
mod fault;
mod li;
mod number;
mod parcel;
mod target;
mod template;

pub use bare::{single_bare, without_operand};
pub use expanding::{expansion, single, with_operand};
pub use li::li_sequence;
pub use parcel::{named, named_bare, named_with};
pub use target::takes_target;
pub use template::{Form, Manner, Template, Templates, Worth};
