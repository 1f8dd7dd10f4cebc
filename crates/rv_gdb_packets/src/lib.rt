//! Packets of GDB's remote protocol: how they stand in a stream of bytes, what they ask of a hart of RISC-V, and the parts of
//! answers that no state has a say in.
//!
//! It takes the bytes of a stream one by one, and gives what they say: a packet's content, an interrupt, a wish to hear the
//! latest packet again, or that a packet came damaged. The other way round it takes a content and gives the bytes of its
//! packet.
//!
//! Of a content it gives the [`Command`], whose numbers are read; it gives numbers and bytes as digits, what this side can do,
//! and the description of the target. It keeps the points where a program is to stop ([`Points`]), and says which of them an
//! instruction meets. It does not know what a run is.
//!
//! Main contracts: [`Receiver::receive`] does one step of the reading that `specs/Reading` defines, and keeps no more than
//! [`CONTENT_LIMIT`] bytes whatever comes; [`put_packet`] adds exactly the bytes `packet` of a content; and by
//! [`packets_are_read`] what is put so is read so. The reading knows nothing of what packets ask.
//!
//! ```text
//! match receiver.receive(byte)? {
//!     Some(Message::Packet) => match command_of(receiver.content()) {
//!         Command::ReadRegister(number) => put_value(reply, ..)?,
//!         Command::Insert { kind, range } => put_done(reply, points.insert(kind, range)?)?,
//!         ..
//!     },
//!     Some(Message::Damaged) => .. "-" ..,
//! ```
//!
//! Source: GDB manual, "Remote Protocol": "Overview", "Interrupts", "Packets", "General Query Packets", "Target Description
//! Format" and "RISC-V Features".
#![tactic(auto)]

mod body;
mod command;
mod digits;
mod law;
mod numbers;
mod points;
mod receiver;
mod reply;
mod sending;
mod target;

pub use body::CONTENT_LIMIT;
pub use command::{Command, Features, Motion, Range, command_of};
pub use law::packets_are_read;
pub use numbers::{Number, bytes_of, number_at, put_byte, put_bytes, put_number, put_value};
pub use points::{Met, PointKind, Points, Reach, do_meet};
pub use receiver::{Message, Receiver};
pub use reply::{put_done, put_error, put_ok};
pub use sending::put_packet;
pub use target::{put_description, put_supported};
