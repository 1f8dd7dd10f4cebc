//! The jobs of the program that say something of sources: what is wrong with them, what their lines become, and what a
//! code means.
//!
//! Main functions: `check_files`, `list`, `explain`. What they say is that of `rv_check`, for people, as compilers
//! write it, or in JSON; that the first fault is the one of a
//! build is said by its clause. It does not know the words of a command line.
//!
//! ```text
//! // rv check a.s
//! let status = check_files(system, &["a.s"], default_options(), ReportFormat::Text)?;
//! ```
#![tactic(auto)]

mod checking;
mod explaining;
mod formats;
mod listing;

pub use checking::check_files;
pub use explaining::explain;
pub use formats::finding_value;
pub use listing::{ListStyle, list};
