//! The 16-bit forms of RV64C: what each parcel stands for, and which instruction one can stand for.
//!
//! It takes a parcel and gives its form and the instruction that it stands for, takes an instruction and gives the
//! parcel that is chosen for it, and takes bytes and gives the instruction at their front with its length. The forms and
//! mnemonics are types of `rv_parcel`, which has the definitions too.
//!
//! Main contracts: `expand` answers an instruction exactly where the parcel stands for it (`StandsFor`), `shrink` a
//! parcel exactly where it is the one chosen for the instruction (`IsShortOf`), and `next_inst` the word's or the parcel's
//! instruction at the front (`FrontSpells`). It must not know what instructions do, or addresses.
//!
//! ```text
//! let inst = expand(0x4501);                     // c.li a0, 0: Some(addi a0, zero, 0)
//! let parcel = shrink(Inst::Ebreak);             // Some(0x9002)
//! let (first, length) = next_inst(bytes)?;       // length 2 or 4
//! let form = read(0x9002);                       // Some(Compressed::Ebreak)
//! let same = write(Compressed::Ebreak);          // 0x9002
//! ```
//!
//! Source: RISC-V Unprivileged ISA 20191213, chapter 16.
#![tactic(auto)]

mod choice;
mod expansion;
mod front;
mod immediate;
mod laws;
mod reading;
mod writing;

pub use choice::shrink;
pub use expansion::{expand, expanded};
pub use front::next_inst;
pub use laws::{parcels_have_a_reader, parcels_stand_for_valid_instructions};
pub use reading::read;
pub use rv_parcel::{Compressed, OperandShape, ParcelOperation, RegisterSet};
pub use writing::write;
