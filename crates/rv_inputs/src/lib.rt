//! The objects that a link takes of its files, of which some may be archives.
//!
//! It takes [`Input`]s, files in the order in which they are given, and gives [`TakenObject`]s: each file that is an object,
//! and the members that are taken of archives, in the order in which they are taken.
//!
//! An object is read for its names when it is taken, and not before, so nothing is asked of members that nobody takes. What
//! is taken is handed on as bytes: what is linked is the link of these bytes, whatever they were taken from.
//!
//! Main contract: [`taken_objects`] gives the bytes of just those objects that a link takes (`rv_archive_laws`, `Takes`) of
//! what the files offer ([`Gathered`]), where the names of an object are those of its symbols ([`Names`]).
//!
//! The search among offers (`search`) knows no files: not archives, and not objects but for their names. It gives the object that
//! is taken next, as `rv_archive_laws` defines it (`specs/Taken`, `next_offer`), by its number. An offer is looked at only where
//! its name is asked for: those that may be due are kept in order, and come to it when an object that is taken leaves their name
//! undefined. So each offer costs a few look-ups, whatever the order in which members lead to one another, where going through the
//! whole index again and again would cost its square.
//!
//! ```text
//! let main = Input { bytes: main, form: Form::Object, joins: false };
//! let libc = Input { bytes: libc, form: Form::Archive, joins: false };
//! let taken = taken_objects(alloc, &[main, libc])?;      // main.o, and of libc.a what main.o asks for
//! ```
//!
//! [`Gathered`]: ../specs/Gathered.antt
//! [`Names`]: ../specs/Names.antt
//!
//! Source: GNU ld, "Options" (--start-group, -l), and its order of members, which is that of passes over the index; System V gABI,
//! "Symbol Table".
#![tactic(auto)]

mod asking;
mod chains;
mod fault;
mod gathering;
mod input;
mod names;
mod object_names;
mod offer;
mod pending;
mod search;
mod selection;
mod standings;
mod stretches;
mod taken;

pub use fault::InputFault;
pub use input::{Form, Input};
pub use taken::{TakenObject, taken_objects};
