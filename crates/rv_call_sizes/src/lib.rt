//! The greatest sizes of calls, found by passes over the sites of a text.
//!
//! It takes the sites of a text in order (`Site`: a call with the offset of its target, or a padding), and gives the bytes that
//! are kept of each and the number of passes. The main contract is that of `CallSizes::greatest`: the sizes are the greatest
//! with which no call has a shorter form that reaches, each padding in full (`rv_size_laws`, `IsGreatestClosed`), and the
//! passes are at most twice the calls and one. They go forwards and backwards in turn over tables of numbers: no byte moves. Where
//! that does not settle a text at once, calls are shortened one by one between them, each when enough is dropped for it.
//!
//! It must not know objects, symbols, or what paddings become.
//!
//! ```text
//! let found = CallSizes::greatest(alloc, &sites)?;
//! let bytes = found.kept[4];
//! ```
//!
//! Source: RISC-V ELF psABI, "Linker Relaxation", function call relaxation.
#![tactic(auto)]

mod agenda;
mod chase;
mod law;
mod passes;
mod places;
mod reach;
mod sizes;
mod sums;

pub use law::three_calls;
pub use sizes::CallSizes;
