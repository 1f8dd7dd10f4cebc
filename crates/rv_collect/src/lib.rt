//! Collection: which sections of objects a program needs, and the objects without the others (`--gc-sections`).
//!
//! It takes objects (`rv_object_types`) and what their names mean (`rv_names`). It gives a [`Collection`]: which sections with an
//! address stay. It begins with the section that `_start` stands in and goes from each section to those in which the symbols of
//! its relocations stand, whatever the relocations are ([`Collection::of`]). Then [`Collection::drops`] lists the others, for
//! the map, and [`Collection::left`] makes the objects without them, that a link goes on with.
//!
//! What stays is said as the least set that is closed (`rv_link_laws`, `Collects`; `rv_collect_laws`), not as a walk.
//! The code marks each section at most once and looks at each relocation of a marked one once, so the work is linear.
//!
//! Collection comes before relaxation and knows nothing of it. It makes objects and hands no list of drops on to the passes
//! behind, so none of them knows of it either. Names stay as they are: a definition in a dropped section is still the one that
//! its name means, only without an address.
//!
//! ```text
//! let collection = Collection::of(alloc, &objects, &names)?;
//! let left = collection.left(alloc, &objects)?;
//! let drops = collection.drops(alloc, &objects)?;
//! ```
//!
//! Source: GNU ld, "Command-line Options", `--gc-sections`.
#![tactic(auto)]

mod collection;
mod left;
mod marks;
mod walk;

pub use collection::Collection;
