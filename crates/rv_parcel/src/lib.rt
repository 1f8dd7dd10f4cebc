//! The 16-bit parcels of RV64C: their forms and mnemonics as types with tables, and the definitions of what a parcel stands for.
//!
//! It gives [`Compressed`], a form with its operands, and [`ParcelOperation`], a `c.` mnemonic, with what that takes
//! ([`RegisterSet`], [`OperandShape`]) and the form that it is then. The definitions say which instruction a form stands for
//! ([`Parcel`]), how an instruction lies in memory, as a word or as a parcel ([`Encoded`]), and what stands at the front of
//! bytes ([`Front`]).
//!
//! Main contracts: `ParcelOperation::form` answers the mnemonic's form (`form_of`), and `Compressed::operation` the mnemonic of
//! a form (`operation_of`). It must not know how bits are read and written, what instructions do, or addresses.
//!
//! ```text
//! let jump = ParcelOperation::Jr.form(Reg::RA, Reg::ZERO, 0); // c.jr ra
//! ```
//!
//! [`Parcel`]: ../specs/Parcel.antt
//! [`Encoded`]: ../specs/Encoded.antt
//! [`Front`]: ../specs/Front.antt
//!
//! Source: RISC-V Unprivileged ISA 20191213, chapter 16.
#![tactic(auto)]

mod form;
mod parcel;

pub use form::Compressed;
pub use parcel::{OperandShape, ParcelOperation, RegisterSet};
