//! That a raw listing is a source, has a program, and gives its bytes again. Nothing here runs.
//!
//! It takes the lines of a raw listing (`rv_listing_laws`), what it is to read a source (`rv_parse_laws`), which code a
//! statement has (`rv_pseudo_laws`, `rv_source_laws`), why a source has no object (`rv_assemble_laws`) and objects no
//! program (`rv_link_laws`), and what the linked program of sources is (`rv_chain_laws`). Main contracts:
//!
//! - its text reads as one statement a line ([`listing_reads`]), and each statement stands for the instruction from which its
//!   line was written ([`statements_are_instructions`], over constants by which numbers stand for themselves, as they do by
//!   [`numbers_are_kept`]; [`branches_to_themselves_are_small`])
//! - it is refused for nothing but its length ([`raw_listings_have_no_fault`], [`raw_objects_have_a_program`])
//! - assembled and linked again it is the same code ([`raw_listings_reassemble`])
//!
//! It must not know how a listing is made of a file.
//!
//! ```text
//! specs/Statements   the statement of each line: read this first
//! specs/Meaning      the code of each, and how far it leads
//! specs/Reassembles  what is built of it is the code that it lists
//! ```
//!
//! Source: RISC-V Assembly Programmer's Manual; RISC-V Unprivileged ISA 20191213, chapters 16 and 24; RISC-V ELF psABI,
//! "Relocations"; GNU ld.
#![tactic(auto)]

mod linking;
mod reading;
mod reassembling;

pub use linking::{raw_listings_have_no_fault, raw_objects_have_a_program};
pub use reading::{
    branches_to_themselves_are_small, listing_reads, numbers_are_kept, statements_are_instructions,
};
pub use reassembling::raw_listings_reassemble;
