//! Why a run ended, and how it went: reports, traces and counts, in words of the program's symbols and lines.
//!
//! It takes a machine that [`run_watched`](rv_machine::run_watched) runs, and what is known of the program's addresses
//! ([`Places`], from its map and its sources, or from an executable's own tables), and gives texts: the instructions
//! executed one by one ([`Trace`]), how often each was (`counts_text`, `lines_text`, `lcov_text`, of the counts of
//! `rv_counts`), and why the run ended ([`Latest`], `report_text`).
//!
//! Main contract: that of `run_watched`, by which a run that is watched is the run of the machine, and each watcher is told
//! exactly its events; the counts that are shown are those of `rv_counts`. How the texts show them is tested. It must not know files or the words of a command line.
//!
//! ```text
//! let places = Places::new(alloc, Some(&map), &[Source { name: "a.s", text }])?;
//! let mut counts = Counts::new(alloc, &image)?;
//! let mut machine = Watched::new(Paged::new(alloc, image)?, entry);
//! let end = run_watched(&mut machine, &mut reader, &mut writer, &mut counts, limit)?;
//! let text = counts_text(alloc, &counts, &places)?;
//! ```
//!
//! Source: RISC-V Unprivileged ISA 20191213, chapters 2, 8 and 16; geninfo(1) of lcov, "Tracefile format".
#![tactic(auto)]

mod access;
mod columns;
mod counter;
mod cure;
mod digest;
mod ending;
mod json_counts;
mod json_report;
mod last;
mod lines;
mod members;
mod memory_lines;
mod moved;
mod own_tables;
mod parts;
mod pattern;
mod places;
mod plain;
mod refusals;
mod report;
mod summary;
mod trace;
mod visited;

pub use ending::Ending;
pub use json_counts::counts_json;
pub use json_report::report_json;
pub use last::{Last, state_text};
pub use lines::{lcov_text, lines_text};
pub use places::{Places, Source};
pub use plain::PlainTrace;
pub use report::{Latest, Segments, report_text};
pub use rv_debug_reader::DebugTables;
pub use summary::counts_text;
pub use trace::Trace;
