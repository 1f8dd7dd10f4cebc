//! RV64IMA's instructions as 32-bit words and back.
//!
//! It takes an instruction of `rv_isa` and gives its word, and takes a word and gives the instruction that it spells.
//!
//! Main contracts: `encode` answers `word (form inst)`, the sum of the fields that the table of chapter 24 names, and
//! `decode` answers an instruction exactly where the word spells it (`Spells`). It must not know parcels of 16 bits, nor
//! what instructions do.
//!
//! ```text
//! let add = Inst::Add(RType { rd, rs1, rs2 });
//! let bits = encode(add);            // owes that the operands are in range
//! let back = decode(bits);           // Some(add)
//! let none = decode(0);              // None: no instruction
//! // reader_exists(): a word spells one instruction at most
//! ```
//!
//! Source: RISC-V Unprivileged ISA 20191213, section 2.2 (formats) and chapter 24 (the table).
#![tactic(auto)]

mod decoding;
mod encoding;
mod laws;
pub mod operands;
mod signed;

pub use decoding::decode;
pub use encoding::encode;
pub use laws::reader_exists;
