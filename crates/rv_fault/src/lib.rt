//! Why a build, a link or a run is refused, whoever says so.
//!
//! It gives the faults of sources ([`SourceFault`]) and of files ([`FileFault`]) with their numbers and names, and a fault of
//! any layer as one of all layers, with the file's number ([`Fault`]).
//!
//! Main contract: want of memory is `Fault::Memory` alone, whichever layer wanted it (`of_link`), so any other fault
//! names its cause (`IsNamed` in `specs/Fault`). [`LinkFault`] has the faults of all passes of a link, with their
//! numbers and names; the crates of the passes say which of them their faults are. It must not know who finds a fault,
//! nor how one is told.
//!
//! ```text
//! Fault::from(LinkFault::EntryMissing)   // Fault::Link(LinkFault::EntryMissing)
//! Fault::from(LinkFault::OutOfMemory)    // Fault::Memory
//! ```
#![tactic(auto)]

mod fault;
mod file_fault;
mod link_fault;
mod source_fault;

pub use fault::Fault;
pub use file_fault::FileFault;
pub use link_fault::LinkFault;
pub use source_fault::{SourceCode, SourceFault};
