//! What code is once relocations have filled its open fields: laws that tie patched bytes to the instructions of a statement
//! with its operands. Nothing here runs.
//!
//! It takes what the open parts of a statement's code are (`rv_pseudo_laws`), what `patch` writes (`rv_reloc_laws`) and
//! what it makes of words and parcels (`rv_isa_laws`, `rv_parcel`). It shows, format by format, that an instruction
//! whose immediate is patched with a value is the same instruction with that value (`specs/Formats`), then the same
//! part by part (`specs/Parts`): an open field that takes its value leaves the instruction with that value as its
//! operand in the same bytes, and all parts of a statement leave its instructions one after another.
//!
//! Source: RISC-V ELF psABI, "Relocations"; RISC-V Unprivileged ISA 20191213, chapters 16 and 24.
#![tactic(auto)]

mod by_format;
mod laws;

pub use by_format::{parcels_fill, words_fill};
pub use laws::{code_joins_calls, named_code_is_closed, open_fields_fill, parts_fill, sizes_agree};
