//! What archives of objects are, and which of their members a link takes.
//!
//! It gives the parts of an archive ([`Parts`]), the names ([`Names`]) and bytes ([`Members`]), and the index, which says which
//! member defines a name ([`Index`]); and what a file is as an archive, or why it is refused ([`Reads`]).
//!
//! And it says which objects a link takes, of those that its files offer, and in which order ([`Taken`]).
//!
//! [`ArchiveFault`] is a type that definitions and code share. It knows no objects: a member is bytes with a name, and of an
//! object it has the names that it defines and leaves undefined.
//!
//! Nothing here runs.
//!
//! Main contracts: `one_archive`, the law that a file is at most one archive or has at most one first fault, and never both; and
//! `one_selection`, that what is taken is determined. What files that GNU ar made come to ([`Worked`]) is said by closed contracts,
//! which the check computes, so that a definition that said something else would fail.
//!
//! ```text
//! part_at file 8                                  -- the index of the archive, where it has one
//! member_name table (codes "f.o/            ")   -- Ok (codes "f.o")
//! ```
//!
//! [`Parts`]: ../specs/Parts.antt
//! [`Names`]: ../specs/Names.antt
//! [`Members`]: ../specs/Members.antt
//! [`Index`]: ../specs/Index.antt
//! [`Reads`]: ../specs/Reads.antt
//! [`Taken`]: ../specs/Taken.antt
//! [`Worked`]: ../specs/Worked.antt
//!
//! Source: System V "ar" (<ar.h>); GNU binutils, "ar"; LLVM's llvm-ar writes the same; GNU ld, "Options".
#![tactic(auto)]

mod fault;
mod law;
mod worked;

pub use fault::ArchiveFault;
pub use law::{one_archive, one_selection};
pub use worked::{index_names_members, members_are_taken, slashes_end_names, texts_are_members};
