//! The events of a run as text, a line each, from which each event can be read back.
//!
//! It takes the events of `rv_machine` and gives their lines ([`put_event`]), and a watcher that writes the line of each step
//! of a run ([`EventLines`]).
//!
//! Main contracts: [`put_event`] adds `event_line` of the event, which `rv_event_text_laws` defines and by which two events of a
//! machine have different lines; and what [`EventLines`] has seen, so that by the contract of
//! [`run_watched`](rv_machine::run_watched) the lines are those of the events of the run, all of them and no others. It must not
//! know symbols, sources or files.
//!
//! ```text
//! let mut lines = EventLines::new(alloc, writer);
//! let end = run_watched(&mut machine, &mut reader, &mut console, &mut lines, limit)?;
//! lines.finish()?;
//! ```
//!
//! Source: RISC-V Unprivileged ISA 20191213, sections 1.5, 2.2, 2.6 and 8.2; the line is this program's own.
#![tactic(auto)]

mod digits;
mod fault;
mod line;
mod lines;
mod moved;
mod whole;

pub use fault::LineFault;
pub use line::put_event;
pub use lines::EventLines;
pub use whole::run_with_lines;
