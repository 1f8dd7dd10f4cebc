//! Reads archives of objects, as GNU ar and LLVM's llvm-ar write them.
//!
//! It takes the bytes of a file and gives an [`Archive`]: its members with their names and bytes, and its index, which says
//! for each name the member that defines it. All of it lends from the file, and nothing is copied. Or it gives the first
//! fault of the file ([`ReadFault`]), which is looked for part by part, then name by name, then in the index.
//!
//! Main contract: [`Archive::read`] gives just what `rv_archive_laws` says that the file is (`specs/Reads`).
//!
//! It looks at no contents but those of the index and of the table of long names, so nothing is asked of members that nobody
//! takes. A long name is looked for in 4,096 bytes, so it has at most 4,094: names may lie over each other, and so each
//! costs little. An archive that has members and no index is refused, as GNU ld refuses it: what a link takes depends on
//! the index alone, and `ranlib` makes one.
//!
//! ```text
//! let archive = Archive::read(alloc, &file)?;
//! let entry = &archive.index[0];
//! let member = &archive.members[entry.member];             // strlen.o, which defines strlen
//! ```
//!
//! Source: System V "ar" (<ar.h>); GNU binutils, "ar".
#![tactic(auto)]

mod archive;
mod decimal;
mod fault;
mod index;
mod members;
mod names;
mod parts;
mod texts;

pub use archive::Archive;
pub use fault::ReadFault;
pub use index::Entry;
pub use members::Member;
pub use rv_archive_laws::ArchiveFault;
pub use texts::{fault_name, fault_number};
