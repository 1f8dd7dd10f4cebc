//! Relocations: the value of each kind, and the field that takes it.
//!
//! It takes a kind of `rv_isa` with a symbol's value, an addend and an address, and gives the relocation's value; it
//! takes the bytes of a field and a value, and writes the value to the field.
//!
//! Main contracts: `value` answers `value_of`, the psABI's calculation modulo 2^64, taken as signed; `patch` makes of
//! the field's bytes `patched`, or refuses exactly what the field does not take (`Takes`, `Refuses`) and changes
//! nothing. `immediates_are_held`: an immediate that is set is the one that stands there, and all other bits stay. What
//! these say is defined in `rv_reloc_laws`. It must not know symbols, sections, objects, nor which relocation a
//! PCREL_LO12 is paired with.
//!
//! ```text
//! let distance = value(Kind::Branch, 0x10010, 0, 0x10000);       // 16
//! patch(&mut bytes[4..8], Kind::Branch, distance)?;              // owes four bytes: `Kind::width`
//! let far = patch(&mut bytes[4..8], Kind::Branch, 4096);         // Err(Overflow), the bytes as before
//! let odd = patch(&mut bytes[4..8], Kind::Branch, 3);            // Err(OddTarget)
//! ```
//!
//! Source: RISC-V ELF psABI, "Relocations"; RISC-V Unprivileged ISA 20191213, section 2.3 and chapter 16, for the
//! immediates.
#![tactic(auto)]

mod calculation;
mod immediate;
mod laws;
mod number;
mod writing;

pub use calculation::value;
pub use laws::{immediates_are_held, refusals_are_exact};
pub use rv_fault::LinkFault;
pub use rv_isa::Kind;
pub use writing::patch;
