//! How many bytes branches and calls have, as families of sizes, and why any order of work finds the same ones. Nothing
//! here runs.
//!
//! A family gives each part of a text its bytes. A distance is what lies between two parts, and it grows with the sizes;
//! a form reaches where both the constant added to its target and the distance with it are in its range. So:
//!
//! - Branches are widened from their smallest forms, and end at the *least good* family: each form below its statement's
//!   largest reaches, and no other such family is smaller anywhere (`specs/Branches`). Statements of several sections may
//!   stand among one another; a distance counts one section.
//! - Calls are shortened from 8 bytes, and end at the *greatest closed* family: no call has a shorter form that reaches,
//!   and no other such family is greater anywhere (`specs/Calls`). Distances count alignments in full.
//! - The paddings that then regrow are the least that align, and take no call out of reach (`specs/Paddings`).
//!
//! Widening and shortening are one theory (`specs/Steps`): a step changes one part; no step passes a good or a closed family,
//! each adds to a weight that is bounded, and where none is left the family is good or closed. So it is the least or the
//! greatest one. A pass keeps a table of where parts stand that is exact between two steps (`specs/Tables`).
//!
//! Main contracts: `widening_ends_at_the_least`, `shortening_ends_at_the_greatest`, `regrown_calls_reach`. Of code there are
//! the types that definitions and code share: `Item`, a statement as its size goes by it, and `Site`, a part of the text
//! that may keep only its first bytes. Must not know statements, objects, or in which order a pass goes over them.
//!
//! ```text
//! specs/Offsets   offset, distance, reach       specs/Calls     sites, what they drop, closed, greatest
//! specs/Branches  items, good, least            specs/Paddings  least paddings, what regrows
//! specs/Steps     families, steps, rounds       specs/Tables    tables of a pass
//! ```
//!
//! Source: psABI, "Linker Relaxation"; ISA manual, "Control Transfer Instructions".
#![tactic(auto)]

mod branches;
mod calls;
mod item;
mod site;

pub use branches::{
    good_or_widens, least_good_exists, one_least_good, shrunk_branches_reach, widening_ends,
    widening_ends_at_the_least,
};
pub use calls::{
    closed_or_shortens, greatest_closed_exists, least_padding_fits, least_paddings_regrow,
    one_greatest_closed, regrown_calls_reach, shortening_ends, shortening_ends_at_the_greatest,
};
pub use item::{Forms, Item};
pub use site::{Call, Padding, Site, SiteKind};
