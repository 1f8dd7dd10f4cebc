//! What the listing of an executable is, and what its raw listing is.
//!
//! It takes an image and a map and says which text is their listing ([`Listing`]): for each statement that has code, which
//! one it is and the instructions that stand there ([`Lines`]). It takes an image alone and says which text is its raw listing
//! ([`Raw`]). How an instruction is written is one table ([`Instruction`]), and how a parcel is, another ([`Parcels`]).
//!
//! Main definitions: `IsListing`, `IsRawListing`. [`Code`] and [`Targets`] are types that definitions and code share. It must
//! not know what instructions do, nor how a text is made.
//!
//! Nothing here runs.
//!
//! ```text
//! 10000: addi a0,zero,7          a line of a listing
//! addi a0,zero,7                 the same of a raw listing
//! ```
//!
//! [`Instruction`]: ../specs/Instruction.antt
//! [`Lines`]: ../specs/Lines.antt
//! [`Listing`]: ../specs/Listing.antt
//! [`Parcels`]: ../specs/Parcels.antt
//! [`Raw`]: ../specs/Raw.antt
//!
//! Source: RISC-V Assembly Programmer's Manual; RISC-V Unprivileged ISA 20191213, section 1.5 and chapters 2, 5, 7, 8, 16.
#![tactic(auto)]

mod code;
mod targets;

pub use code::Code;
pub use targets::Targets;
