//! A hart that runs an image.
//!
//! It takes an image, an input and a limit, and gives what the program has written and how its run ended; or it takes
//! streams in place of the input, and writes as the program does.
//!
//! Main contract: `run` answers, by every reading that is exact, the outcome `machine_run` of the image's memory, its
//! entry and the input; `Machine::step` does one `step` of that run. `run_io` reads and writes streams so that it comes
//! to `machine_run` of what was read, and where a stream fails to the beginning of its console. `run_watched` does the
//! same, and tells a [`Watcher`] exactly the events of the run, which `rv_event_laws` defines. `run_machine` runs a machine
//! that is lent, and leaves it in the run's last state; what a load or a store there asks ([`Request`]), another may answer
//! in place of memory. It must not know sources, maps or files: an image is all that it sees.
//!
//! A step is fetched and done by `advance`, but for the bytes that a call moves (`Flow`): those a machine takes from its
//! input and puts onto its console, and `run_io` moves between memory and streams.
//!
//! ```text
//! let end = run_io(alloc, image, &mut Io::new(reader), &mut Io::new(writer), limit)?;
//! let outcome = run(alloc, image, input, limit)?;
//! let text = outcome.console.as_slice();
//! match outcome.end {
//!     End::Exited(code) => ..,
//!     end => .. end.name() .. end.address() ..,
//! ```
//!
//! Source: RISC-V Unprivileged ISA 20191213, chapters 2, 5, 7 and 8.
#![tactic(auto)]

mod access;
mod action;
mod alu;
mod asking;
mod calls;
mod console;
mod end;
mod event;
mod fetch;
mod flow;
mod formats;
mod hart;
mod io;
mod laws;
mod machine;
mod outcome;
mod parcel;
mod putting;
mod quick;
mod registers;
mod request;
mod running;
mod seeing;
mod state;
mod streams;
mod telling;
mod transfers;
mod watching;
mod word;

pub use action::{Load, Store};
pub use end::End;
pub use event::{Event, Span, Step, destination_of};
pub use fetch::{Fetched, Look, bits_at, spelled};
pub use hart::{Hart, Reservation};
pub use io::Io;
pub use laws::runs_agree;
pub use machine::Machine;
pub use outcome::{Outcome, run};
pub use registers::Registers;
pub use request::Request;
pub use running::{Ran, RunFault, run_counted, run_io, run_machine};
pub use streams::{GuestIn, GuestOut, IoFailed};
pub use watching::{Parts, ShowFault, WatchFault, Watched, Watcher, run_watched};
