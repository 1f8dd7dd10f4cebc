//! For people: all faults of sources, in words and with their places, or what they come to.
//!
//! It takes sources and their names, and gives each fault of them, or sizes and warnings. A fault's words are those of
//! `rv_fault_texts`; which faults there are, and which statement has one, is found by building and assembling.
//!
//! [`remark_of`] says of the one fault of a build what [`check`] says of its first.
//!
//! Main contract: [`check`], clause `first`: the first finding is of the fault for which a build of the sources is refused,
//! and there is none only if they have no fault. What is said of a fault, and the faults after the first, are tested.
//! It must not know where files come from, nor how the line of a fault is written.
//!
//! ```text
//! let report = check(alloc, &["a.s"], &[source], options)?;  // report.first, report.others, report.warnings, report.closing
//! ```
#![tactic(auto)]

mod checking;
mod linking;
mod placing;
mod report;
mod suspects;

pub use checking::{check, remark_of};
pub use report::{Finding, Report};
