//! The job of the program that lets GDB debug a run over standard input and output.
//!
//! Main function: `debug`. It moves bytes between the streams and a session of `rv_gdb`: packets in, acknowledgements and
//! answers out, and what the guest writes as packets for the debugger's console, or into a file. It knows neither what
//! packets say, but that the first may be repeated, nor how a run goes back.
//!
//! While the program goes, an interrupt may come, but a read of standard input waits for a byte. So after some instructions
//! the debugger is sent an empty packet for its console: it answers `+`, and the read up to there has the interrupt too.
//! Packets before it are kept until the program stands.
//!
//! ```text
//! // gdb -ex 'target remote | rv gdb prog' prog
//! let status = debug(system, image, limit, &streams)?;
//! ```
//!
//! Source: GDB manual, "Remote Protocol": "Overview", "Interrupts" and "Stop Reply Packets".
#![tactic(auto)]

mod debugging;
mod wire;

pub use debugging::debug;
