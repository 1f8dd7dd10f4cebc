//! The program `rv` below its `main`: from the words of a command line to an exit status.
//!
//! It takes the words and a [`Guests`](rv_guests::Guests), which gives files and the standard streams and runs guests, and gives
//! the exit status, after it has written what the words ask for, or one line that says why not.
//!
//! Main function: `exit_status`. What it prints, and when, is tested; the status of an error is said by `report`
//! (`specs/Status`). What the words mean is known to `rv_command_line`, and what a job does to the crates of jobs. Of the
//! system it knows only what this trait has: `rv_cli` has the real one, and a test stands in for it.
//!
//! ```text
//! let mut host = Host { rt: &rt };
//! let words = env::args(&rt)?.collect(rt.alloc())?;
//! let status = exit_status(&mut host, words.as_slice());
//! // rv build -o a a.s: 0, and the file `a` is there
//! // rv run b.s: 1, and 'rv: b.s: cannot read' on standard error
//! ```
#![tactic(auto)]

mod error;
mod jobs;
mod status;

pub use error::CliError;
pub use status::{exit_status, report};
