//! What stands for each statement of code, and what holds of the sequences of `li`.
//!
//! It gives the one table of pseudo-instructions (`specs/Code`): for the operands of a statement the parts of its code, base
//! instructions with the fields that stay open; what they are once these are filled (`Filled`); which operands they can have
//! (`Valid`); the sequences of `li` (`Li`) and what instructions do one after another (`Runs`). Its laws say that every operand
//! of a statement's code is in its range (`code_valid`), also once the fields are filled (`filling_valid`), what `li` does to
//! a hart, and how its sequences are made. Nothing here runs, and nothing here knows what names mean or where a statement
//! stands.
//!
//! Source: RISC-V Assembly Programmer's Manual, "pseudoinstructions" and "Load Immediate"; RISC-V ELF psABI, "Relocations".
#![tactic(auto)]

mod laws;

pub use laws::{code_valid, filling_valid, li_recurs, li_sets, li_shrinks, li_valid};
