//! The jobs of the program that run a guest and look at it: reports of why it ended, its last state, traces, and counts.
//!
//! Main functions: `run_with_results`, `trace`, `stats`; `check_sources` for an executable whose sources are named. That a run that is looked at is the run, and that the machine of a
//! report is in its last state, is said by the clause of `run_watched`; the texts are those of `rv_trace`, and the lines of
//! events those of `rv_event_text`. It knows neither the words of a command line nor how a program is built.
//!
//! ```text
//! // rv run --report a.s
//! let (program, image) = load_program(system, asked)?;
//! let status = run_with_results(system, asked, results, program, image)?;
//! ```
#![tactic(auto)]

mod fitting;
mod stepping;
mod watching;

pub use fitting::check_sources;
pub use watching::{KnownSource, run_with_results, stats, trace};
