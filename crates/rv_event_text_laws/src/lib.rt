//! The line of an event: what a step tells, in a text from which it can be read back. Nothing here runs.
//!
//! It takes the events of `rv_event_laws` and gives `event_line`, the line of one, and `lines_of`, those of a run
//! (`specs/EventLine`): where the step stands, what is fetched there, what is read, set and stored, the bytes that a call
//! takes and puts, and how the run ends. Each part has a fixed width, or a mark that closes it. `IsMachineEvent`
//! (`specs/InRange`) says what events a machine has: its registers are 32, its numbers have 64 bits, and a word spells each
//! instruction.
//!
//! Main contracts: [`lines_are_apart`], that two such events have different lines, and two lists of them different texts; and
//! [`runs_have_such_events`], that a run has no others. It must not know how a text is made, nor what else a trace shows.
//!
//! ```text
//! 0000000000010004 4 00452503 [0000000000011004] -> 00000007 x10 <- 0000000000000007
//! 0000000000010008 2 00a12023 [000000003ffffff0] <- 00000007
//! 000000000001000a 4 00000073 x10 <- 0000000000000002 output 6869
//! 000000000001000e 4 00000073 end Exited 07
//! ```
//!
//! Source: RISC-V Unprivileged ISA 20191213, sections 1.5, 2.2, 2.6 and 8.2; the line is this program's own.
#![tactic(auto)]

mod law;
mod worked;

pub use law::{lines_are_apart, runs_have_such_events};
pub use worked::{worked_calls, worked_ends, worked_steps};
