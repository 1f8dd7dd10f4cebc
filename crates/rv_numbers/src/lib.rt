//! Numbers as people write them, on a command line and in the head of a case.
//!
//! It takes a text, and gives the number that it spells: decimal, hexadecimal behind `0x` for an address, or with a letter
//! for so many thousands or millions of instructions.
//!
//! Main contracts: which texts spell a number, and which ([`decimal`], [`text_start`], `specs/Numbers`). It does not know what
//! numbers are for.
//!
//! ```text
//! decimal("10")        // Some(10)
//! amount("500k")       // Some(500_000)
//! text_start("0x20")   // Some(32)
//! ```
#![tactic(auto)]

mod numbers;

pub use numbers::{amount, decimal, text_start};
