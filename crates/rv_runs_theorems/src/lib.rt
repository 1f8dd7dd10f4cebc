//! The law that an executable does what its sources say: where the regions of a linked program hold the sections of its
//! sources, the image's run agrees with the sources' run for every input and every limit, and on every platform.
//!
//! It takes what `rv_chain_laws` says of a whole build, and what sources mean (`rv_source_laws`) and machines do
//! (`rv_isa_laws`, `rv_board_laws`). Its main contracts are the laws [`linked_runs_agree`] and
//! [`linked_runs_agree_on`], for the board virt [`virt_runs_agree`]. [`code_has_a_reader`] says that this speaks of
//! some reading of code, and [`lines_do_as_meant`] is its core: the instructions of each statement do what it means.
//! Beside it, [`listing_is_the_sources`]: the listing of a linked program's image is the sources' own listing, in which
//! no byte occurs, and there is one alone ([`one_source_listing`]); it names instructions as sources do
//! ([`listings_name_alike`]).
//!
//! Nothing here runs, and nothing here knows how a source is read or linked.
//!
//! Source: RISC-V Unprivileged ISA 20191213; RISC-V Assembly Programmer's Manual.
#![tactic(auto)]

mod law;
mod listing;

pub use law::{
    code_has_a_reader, lines_do_as_meant, linked_runs_agree, linked_runs_agree_on, runs_agree,
    runs_agree_on, sources_run_as_usual, virt_runs_agree,
};
pub use listing::{listing_is_the_sources, listings_name_alike, one_source_listing};
