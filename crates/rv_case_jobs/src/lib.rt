//! The job of the program that runs cases, and says of which what came is what must come.
//!
//! Main function: `run_cases`. A case is a source with its head, as `rv_cases` reads it, or one in a folder with files beside
//! it; what is said of a case that fails is for people, an object of JSON, or XML as JUnit writes it. One case never keeps
//! another from being run.
//!
//! Main contract: the status (`specs/Status`). It does not know the words of a command line.
//!
//! ```text
//! // rv test cases/
//! let status = run_cases(system, &asked)?;
//! ```
#![tactic(auto)]

mod difference;
mod failure;
mod files;
mod formats;
mod looking;
mod running;
mod trying;
mod xml;

pub use running::run_cases;
