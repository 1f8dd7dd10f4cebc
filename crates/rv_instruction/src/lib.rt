//! The code of a statement, with its open fields, or why it has none.
//!
//! It takes a statement of a unit with the scope before it (`rv_unit`), where compressed code is on
//! or off, and how long a branch or a jump is to be. It gives its base instructions (`rv_pseudo`) as
//! they lie in memory, part by part: in their least form where no operand is open, else with 0 in
//! each open field and the kind of its relocation; none where it is no instruction; or the lowest
//! code of its faults.
//!
//! The main contract: clause `codes` of [`code`] says that the faults are those of
//! `rv_assemble_laws` (`InstructionFaults`), and the code the statement's (`Coded`).
//!
//! It knows no address, and of other statements what the scope tells of names.
//!
//! ```text
//! let mut scope = Scope::new(&unit);
//! let mut room = Statements::room();
//! let statement = unit.statements().read(0, &mut room);
//! let code = code(statement, &scope, unit.places()[0], false, 4)?;
//! // of `li a0, 1`: Word(0x00100513), without an open field
//! scope.pass();
//! ```
//!
//! Source: RISC-V Unprivileged ISA 20191213, chapters 16 and 24; RISC-V Assembly Programmer's
//! Manual.
#![tactic(auto)]

mod coding;
mod encoded;
mod known;
mod named;
mod near;
mod opened;
mod worth;

pub use coding::{code, constant, one_code};
pub use encoded::{Code, Coded, Encoded};
pub use near::{item, near_forms};
pub use opened::{Reference, is_closed, open_field};
