//! What the statements of one source define, and which of them is the first to be wrong beyond its syntax. Nothing here
//! runs: `rv_unit` is the code. The enum stands in definitions and in code alike.
//!
//! It takes statements as `rv_statement_laws` has them (`specs/Statement`), and defines, each in a module of `specs/`: the
//! sections of a source (`Sections`), what a directive contributes to its section (`Contributions`), what `.option` sets
//! (`Options`), which names other files can mean (`Bindings`), the tables that the statements fill one after the other, what a name means in each of them and in which
//! options each stands (`Tables`: `after`, `tables`, `meaning`, `definition`, `all_options`), and the faults (`Faults`:
//! `first_unit_fault`).
//!
//! It knows no text, no instruction, no address and no other source.
//!
//! ```text
//! first_fault statements ≡ None
//! value (tables statements) true ordinal (here t) expression ≡ Constant 4
//! ```
//!
//! Source: GNU as, "Sections", "Symbols", "Expressions" and "Pseudo Ops".
#![tactic(auto)]

mod section_type;

pub use section_type::SectionType;
