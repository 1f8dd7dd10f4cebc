//! The states of a run: had again by running, or kept as bytes to go on from there.
//!
//! A [`Replay`] takes an image and an input. It is a machine in some state of the run, named by how many instructions come before
//! it, which goes on, and goes back by running again from the start or from a state that was kept on the way, as a machine is a
//! function of its image and its input. What the guest has written is given out once, however often the run comes by there.
//!
//! [`snapshot`] takes a machine between two steps and gives its state as bytes, and [`resume`] takes such bytes and gives a machine
//! in that state. A snapshot has the hart, how many bytes of the input were taken, and pieces of memory. It has no rights: those,
//! and all bytes that it does not name, are those of the executable's image, since no step changes a right or a byte that may not
//! be written. So nothing in a snapshot has to be believed: each piece is put only where it may be written, and any bytes are
//! either the state of `state_in` or refused.
//!
//! Main contracts: the machine of a replay ([`Replay::machine`]) is in the state that the definitions give after its count of
//! instructions of the image with that input (`IsReplayed`, `specs/Replayed`), wherever it went before. `resume` gives the machine
//! of `state_in` (`specs/Snapshot`), and of what `snapshot` gives, `state_in` is the machine that it was given. That it may be
//! called for a machine of a run, the laws tell: [`runs_keep`], [`snapshots_keep`] and [`keeping_goes_on`]. It knows neither who
//! looks at states nor why, nor files, streams or how a run ends.
//!
//! ```text
//! let mut replay = Replay::new(alloc, image, input)?;
//! replay.advance(1)?;
//! replay.go_to(alloc, 0)?;
//! .. replay.machine().pc() ..
//! let kept = snapshot(alloc, &image, &machine, taken)?;
//! let resumed = resume(alloc, image, &kept, input)?;
//! ```
//!
//! Source: RISC-V Unprivileged ISA 20191213, section 1.5.
#![tactic(auto)]

mod copied;
mod fault;
mod given;
mod kept;
mod pieces;
mod replay;
mod running;
mod snapshot_laws;
mod snapshot_reading;
mod snapshot_writing;
mod steps;
mod written;

pub use fault::ReplayFault;
pub use replay::Replay;
pub use snapshot_laws::{keeping_goes_on, runs_keep, snapshots_keep};
pub use snapshot_reading::{Resumed, resume};
pub use snapshot_writing::snapshot;

/// How many numbers the head of a snapshot has.
pub(crate) const HEAD_NUMBERS: usize = 37;
/// How many bytes these are.
pub(crate) const HEAD_BYTES: usize = 296;
