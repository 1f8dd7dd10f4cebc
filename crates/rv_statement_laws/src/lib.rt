//! What a statement of a source says, as plain data, with the mnemonics, functions and words of directives in it.
//!
//! [`Statement`] has a line and a kind: a label, an instruction with its operands, or a directive. The enums here are those
//! that definitions and code share: [`Mnemonic`], which groups mnemonics by their operands, [`Function`], and what directives
//! choose from. Beside them are the name of each section with a directive of its own ([`Sections`]) and the most statements of
//! a source ([`Limits`]).
//!
//! Nothing here runs, and nothing here knows how a statement is spelled, where it stands, or what it does.
//!
//! [`Statement`]: ../specs/Statement.antt
//! [`Sections`]: ../specs/Sections.antt
//! [`Limits`]: ../specs/Limits.antt
//!
//! Source: RISC-V Assembly Programmer's Manual; GNU as, "Pseudo Ops" and "RISC-V Dependent Features".
#![tactic(auto)]

mod directive;
mod mnemonic;
mod pseudo;

pub use directive::{Binding, Choice, DirectiveWord, Standard, Width};
pub use mnemonic::Mnemonic;
pub use pseudo::{
    CompareOperation, Function, SwappedBranchOperation, UnaryOperation, ZeroBranchOperation,
};
