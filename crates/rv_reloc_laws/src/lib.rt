//! What relocations mean: the value of each kind, the field that takes it, and which values the field refuses.
//!
//! It takes a kind of `rv_isa` with a symbol's value, an addend and an address, and says what the relocation's value is
//! ([`Values`]); which values the field of a kind can hold, and why it refuses others ([`Ranges`]); what a field's bytes are with
//! a value in it ([`Fields`]), and what this makes of the operands of an instruction ([`Operands`]).
//!
//! Main definitions: `value_of`, `Takes`, `Refuses`, `patched`. It must not know symbols, sections, objects, nor which
//! relocation a PCREL_LO12 is paired with.
//!
//! Nothing here runs.
//!
//! ```text
//! relative s a p                 S + A - P
//! patched kind value bytes       the field with the value in it
//! ```
//!
//! [`Fields`]: ../specs/Fields.antt
//! [`Operands`]: ../specs/Operands.antt
//! [`Ranges`]: ../specs/Ranges.antt
//! [`Values`]: ../specs/Values.antt
//!
//! Source: RISC-V ELF psABI, "Relocations"; RISC-V Unprivileged ISA 20191213, section 2.3 and chapter 16, for the immediates.
#![tactic(auto)]
