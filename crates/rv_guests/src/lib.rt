//! How the program's jobs run guests: by a system, or over an input at hand; and the lines that they say of a run.
//!
//! A run over the system's streams goes through one trait, [`Guests`], which has all that [`System`](rv_system::System) has. So
//! jobs that only read and write files stand on no machine and no memory, and a test that stands in for the system says how a
//! guest is run.
//!
//! Jobs that run many programs in one process take an image, an input and a limit, and get an
//! [`Outcome`](rv_machine::Outcome). A guest that writes without end would take all memory of the others, so its console is
//! kept up to [`CONSOLE_LIMIT`], and a run that writes more is refused. These runs are those of [`run_io`](rv_machine::run_io) and
//! [`run_watched`](rv_machine::run_watched), by whose contracts a console has what the guest has written.
//!
//! Main contracts: the lines of ends are those of `specs/Messages` (`run_line`, `end_line`), and the status of a run is the
//! guest's, where it has one (`report_end`, `specs/Status`). It does not know the words of a command line, nor where inputs come
//! from.
//!
//! ```text
//! let end = system.run(image, GuestInput::Standard, limit)?;
//! let status = report_end(system, &end);
//! let outcome = run_kept(alloc, image, b"3 4", 1_000_000)?;
//! let (outcome, count) = run_counted(alloc, image, b"3 4", 1_000_000)?;
//! ```
#![tactic(auto)]

mod console;
mod ends;
mod guests;
mod messages;
mod run;

pub use console::{CONSOLE_LIMIT, Console};
pub use ends::{report_end, status_of};
pub use guests::{GuestInput, GuestOutput, Guests};
pub use messages::{end_line, run_line};
pub use run::{KeptFault, run_counted, run_kept};
