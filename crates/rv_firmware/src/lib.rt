//! Firmware: what a programmer for flash memory or a simulator of hardware takes, made of an executable.
//!
//! It takes the bytes of an executable and gives its [`Firmware`]: the contents of its segments, at the physical
//! addresses where they are kept, and the entry. Of these it makes a raw binary, Intel HEX, Motorola S-records or
//! the text that Verilog's `$readmemh` reads.
//!
//! Main contracts: each text puts exactly the bytes of the segments at their addresses (`IsIntelHex`, `AreSRecords`,
//! `IsMemoryText`), and the binary has them at their distances from the lowest one (`binary_of`). Memory that begins as
//! zeros is in none of them: who starts the program clears it. It knows nothing of instructions, maps or runs.
//!
//! ```text
//! let firmware = Firmware::of(alloc, file)?;
//! let text = intel_hex(alloc, &firmware)?;
//! ```
//!
//! Source: Intel, "Hexadecimal Object File Format Specification", revision A; Motorola, "M68000 Family Programmer's
//! Reference Manual", appendix C; IEEE 1364-2005, section 17.2.9; System V gABI, "Program Header".
#![tactic(auto)]

mod block;
mod fault;
mod firmware;
mod intel;
mod lines;
mod motorola;
mod raw;
mod verilog;

pub use block::Block;
pub use fault::FirmwareFault;
pub use firmware::Firmware;
pub use intel::intel_hex;
pub use motorola::s_records;
pub use raw::binary;
pub use verilog::memory_text;
