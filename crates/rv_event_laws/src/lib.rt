//! What a step of a run tells: its *event*, a function of what the definitions make of the step. Nothing here runs.
//!
//! It takes the meanings and the run of `rv_isa_laws`. It gives `event_of`, the event of a step: where it stands, what is
//! fetched there, the bytes read and the bytes written, the register that is set and its new value, the input that a call
//! takes, the bytes that it puts onto the console, and how the step ends the run; and `events`, those of a run in order
//! (`specs/Event`). Of code there are the types that definitions and code share: [`Access`], bytes of memory as a number,
//! and [`Setting`], a register with its value.
//!
//! Main contract: [`changes_are_told`], that memory, registers, input and console after a step are those before it with
//! exactly what its event tells (`specs/Changes`): so no other register and no other byte changes, and an `sc` that fails
//! stores nothing. It must not know how instructions are spelled, nor what a trace or a count makes of an event.
//!
//! ```text
//! event_of (fetch reader m h.pc) h m   -- of the step at hart h over memory m
//! events reader n h m                  -- of at most n steps
//! ```
//!
//! Source: RISC-V Unprivileged ISA 20191213, sections 1.5, 2.6, 2.8, 8.2 and 8.4.
#![tactic(auto)]

mod access;
mod law;

pub use access::{Access, Setting};
pub use law::{changes_are_told, failed_conditional_stores_nothing};
