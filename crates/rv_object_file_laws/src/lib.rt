//! What the file of an object is, and what object a file holds: definitions, and the law that a written object is
//! read again as itself. Nothing runs here.
//!
//! `specs/Written` is the file of an object; `specs/ObjectOf` is the object of a file, whoever wrote it;
//! `specs/FirstFault` is why a file is refused. `specs/Rows` is the table of the fields of `.rv.rows`.
//!
//! Source: System V gABI; RISC-V ELF psABI; this project's order of sections and of refusals.
#![tactic(auto)]

mod law;

pub use law::{one_object, written_object_is_read};
