//! A session of GDB with a run: what each packet asks, what is done to the run, and what is answered.
//!
//! It takes the contents of packets and gives the contents of the answers. The run is a [`Replay`](rv_states::Replay), so it can
//! go back as well as on: to go back is to run again from the start and to stop earlier. A wish to run is answered bit by
//! bit ([`Session::go_on`]), so that whoever moves the packets can look for an interrupt in between.
//!
//! Each state that a session shows is that of its replay: the state after a count of instructions of the image with its
//! input, by the clause of [`Replay::machine`](rv_states::Replay::machine). When a session stops, and which packet it
//! answers how, is tested.
//!
//! Memory is shown as bytes in digits: all that exists, whatever may be done with it (`put_memory`); where nothing was written,
//! these are the memory's own bytes. A value that GDB writes makes a new image with a loader, whose run comes to the state that
//! is wanted (`beginning_at`); that it does is tested. A session knows neither how packets are written nor where they come from.
//!
//! ```text
//! match session.answer(packet, &mut reply)? {
//!     Then::Answer => .. reply ..,
//!     Then::Run => while !session.go_on(1 << 16, &mut reply)? { .. }
//!     Then::Leave => ..,
//! }
//! ```
//!
//! Source: GDB manual, "Remote Protocol": "Packets" and "Stop Reply Packets".
#![tactic(auto)]

mod beginning;
mod going;
mod memory;
mod monitor;
mod reach;
mod reply;
mod session;
mod stop;
mod writing;

pub use session::{Session, Then};
