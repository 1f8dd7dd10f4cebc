//! Cases: what must come of a source, as the comments at its head say it, and whether it came.
//!
//! It takes the text of a source and gives its [`Case`]: an input, a limit, and what must come, which is a fault of the
//! build, or an end of the run and what it writes. A line of the head that looks like a key and is none is refused with
//! its number, so that a misspelled key never makes a case that expects less.
//!
//! Main contracts: whether a run came to what was wanted ([`ends_so`], [`Case::is_met`], `specs/Cases`). How a head is
//! read and how texts are shown is tested. It must not know files, nor how a source is built and run.
//!
//! ```text
//! let case = Case::of(alloc, b"# exit: 7\n_start: ..", None, None)?;
//! case.is_met(&outcome)
//! ```
#![tactic(auto)]

mod case;
mod escapes;
mod fault;
mod head;
mod keys;

pub use case::{Case, Wanted, WantedEnd, ends_so};
pub use escapes::shown;
pub use fault::{CaseError, CaseFault};
