//! That what is chosen because it reaches does reach.
//!
//! The assembler and the linker choose forms by distances as they are before paddings regrow: a branch or a jump the least
//! that reaches, with each call in 8 bytes; a call the shorter one that reaches, with each padding in full. The text is then
//! placed with its calls shortened and the least paddings. These are the laws that each such form takes its value
//! nevertheless, so that no link is refused for a value out of range, or an odd one, because a form was chosen too short.
//! They take what relaxation leaves of objects, where its sections stand and when a field takes its value (`rv_link_laws`),
//! and what the object of a source is (`rv_assemble_laws`). Nothing here runs.
//!
//! Main contracts: [`short_calls_reach`], of any objects; [`short_branches_reach`], of objects of sources.
//!
//! Source: RISC-V ELF psABI, "Linker Relaxation", "Relocations"; ISA manual, "Conditional Branches", "Unconditional Jumps".
#![tactic(auto)]

mod law;

pub use law::{short_branches_reach, short_calls_reach};
