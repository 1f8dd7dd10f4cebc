//! For people: what may be a mistake in sources without a fault, by what their statements do.
//!
//! It takes a source and the text of its program's map, and gives a [`Remark`](rv_fault_texts::Remark) for each doubt: calls of the environment
//! that there are not, registers that a function loses, data that is cut or not loaded, accesses off a multiple of their
//! width, and code behind which nothing ends the run. What a register holds is known along statements without a label
//! between, so a doubt is of what holds on any way to it; what shows in the words of a line alone is `rv_fault_texts`'s.
//!
//! Main function: [`put_warnings`]. It is proved to be safe; what it says is tested, and that it says nothing of what
//! compilers write (`tests/against/warned.py`). It must not know how sources are assembled or linked, nor where they come from.
//!
//! ```text
//! put_warnings(alloc, 0, source, map.as_slice(), 20, &mut remarks)?;
//! ```
//!
//! Source: RISC-V ELF psABI, "Integer Calling Convention"; RISC-V Assembly Programmer's Manual, "Pseudo Ops".
#![tactic(auto)]

mod accesses;
mod addresses;
mod calls;
mod conventions;
mod data;
mod effect;
mod ends;
mod facts;
mod registers;
mod warning;
mod ways;
mod wording;

pub use wording::put_warnings;
