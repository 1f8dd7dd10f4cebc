//! The jobs of the program that build: they run sources, write executables, objects and maps, and load what a run that is
//! looked at is of.
//!
//! Main functions: `run`, `build_files`, `assemble`, `link_files`, `print_map`, `load_program`. What is built, assembled and
//! linked is said by the clauses of `build`, `build_exe`, `assemble_object` and `link_objects`, of which the bytes are handed
//! on as they are; which members of archives are linked, by those of `taken_objects` (`rv_inputs`). It does not know the
//! words of a command line.
//!
//! ```text
//! // rv build -o a a.s
//! if let Job::Build(asked) = &job {
//!     let status = build_files(system, asked)?;
//! }
//! ```
#![tactic(auto)]

mod additions;
mod boards;
mod building;
mod carrying;
mod debug_objects;
mod debugging;
mod defining;
mod files;
mod linking;
mod loading;
mod padding;
mod references;
mod refusing;
mod rows;
mod settling;
mod tabling;
mod taking;

pub use boards::run_on_board;
pub use building::{assemble, build_files, print_map, run};
pub use linking::link_files;
pub use loading::load_program;
