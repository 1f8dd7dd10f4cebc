//! Which sections stay and which collection drops (`--gc-sections`), and why any order of work finds the same ones. Nothing
//! here runs.
//!
//! A graph has sections, says with which of them a set begins, and which of them refers to which. A set is *closed* if it
//! holds each section that begins and, with a section, all to which it refers. What stays is the *least closed* set: the one
//! that lies in every other (`specs/Graph`). What collection drops are the sections outside it, in the order of the graph;
//! with collection off, none.
//!
//! It is said as a set, because any order of marking ends there: a set is marked one section after the other, each one that
//! begins or follows from a marked one, until none is left to mark. So a queue, a stack or rounds find the same sections, and
//! code is free to choose. Closure asks only of sections of the graph: what has no address, and no place in it, is never
//! marked and never dropped. That a section refers to itself is no matter, so graphs of objects and of sources may differ
//! there.
//!
//! Main contracts: [`marking_ends`], that marks are few, and that where they end is the least closed set; [`one_drops`], that
//! there is one list of what is dropped, the same for graphs that are alike. Must not know objects, statements, or what makes
//! one section refer to another: a section is a `SectionId` of `rv_map_laws`, of which only equality counts.
//!
//! Source: GNU ld, "Command-line Options", `--gc-sections`.
#![tactic(auto)]

mod law;

pub use law::{marking_ends, one_drops};
