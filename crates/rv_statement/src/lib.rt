//! Statements of a source: each with its line and its kind, as the code holds them, and the same as data for contracts.
//!
//! Takes nothing: these are types. Gives `Statement` with a `StatementKind`, whose names, digits and strings are parts of
//! the source, and `Statements`, a source's list of them. `Mnemonic`, `DirectiveWord` and what directives choose from are types
//! of `rv_statement_laws`, which has the statements of contracts too.
//! Main contract: `specs/View`, which says of each statement of the code what statement of contracts it is,
//! `Statements::push` and `read`, by which a list hands out what it was given, and `section_name`, the name of a section
//! with a directive of its own.
//! Must not know how a statement is spelled, where it stands, or what it does.
//!
//! ```text
//! let mut room = Statements::room();
//! for index in 0..statements.len() {
//!     match &statements.read(index, &mut room).kind {
//!         StatementKind::Label(name) => ..,
//!         StatementKind::With(operation, expression) => ..,
//! ```
//!
//! Source: RISC-V Assembly Programmer's Manual; GNU as, "Pseudo Ops" and "RISC-V Dependent Features".
#![tactic(auto)]

mod directive;
mod record;
mod statement;
mod statements;

pub use directive::section_name;
pub use rv_statement_laws::{
    Binding, Choice, CompareOperation, DirectiveWord, Function, Mnemonic, Standard,
    SwappedBranchOperation, UnaryOperation, Width, ZeroBranchOperation,
};
pub use statement::{
    MOST_STATEMENTS, Opening, Operation, Plain, Setting, Statement, StatementKind,
};
pub use statements::Statements;
