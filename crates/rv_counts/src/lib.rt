//! How often what a run did, from its events alone.
//!
//! It takes the events that [`run_watched`](rv_machine::run_watched) tells its watchers, and gives sums over them: how many
//! instructions there were ([`Executed`]), with those of each kind and their loads and stores ([`Totals`]), and for each
//! instruction how often it was executed, branched and was called, and how deep the stack went ([`Counts`]); also for
//! each mnemonic, for each address that was called, and for that where a line begins ([`ByAddress`]).
//!
//! Main contract: what [`Counts`] has seen (`specs/Rows`): its totals are the sums of all events (`specs/Totals`), and for
//! every test of addresses and instructions its counts of those that pass are the numbers of their executions, of the
//! branches taken there and of the calls there among the events (`specs/Counted`). The registers that tell whether a
//! branch is taken are the machine's ([`registers_are_told`]). The numbers of mnemonics and addresses are listed likewise
//! (`specs/Sums`). It must not know symbols, sources, or how counts are shown, and looks at no machine.
//!
//! ```text
//! let mut counts = Counts::new(alloc, &image)?;
//! let mut machine = Watched::new(Paged::new(alloc, image)?, entry);
//! let end = run_watched(&mut machine, &mut reader, &mut writer, &mut counts, limit)?;
//! counts.instructions()   // each with its counts
//! ```
//!
//! Source: RISC-V Unprivileged ISA 20191213, chapters 2, 7 and 8.
#![tactic(auto)]

mod addresses;
mod branches;
mod calls;
mod code_index;
mod counts;
mod depth;
mod executed;
mod jumps;
mod kinds;
mod law;
mod mnemonics;
mod registers;
mod rows;
mod totals;

pub use addresses::ByAddress;
pub use branches::Branches;
pub use calls::CallCount;
pub use code_index::CodeIndex;
pub use counts::Counts;
pub use executed::Executed;
pub use kinds::Kinds;
pub use law::registers_are_told;
pub use mnemonics::MnemonicCount;
pub use rows::CountedInstruction;
pub use totals::Totals;
