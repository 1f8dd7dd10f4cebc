//! One source: its sections, where its statements stand, what its names mean, and its first fault beyond syntax.
//!
//! `Unit::build` takes the statements of a source and gives them with the tables that they fill, or the first faulty
//! label, directive or misplaced instruction: clauses `good` and `refuses` of its contract say that it refuses exactly
//! the sources for which `rv_unit_laws`'s `first_unit_fault` finds one, and names that. `Unit::of` is the same of the
//! list that spares memory; units of one source are alike (`units_agree`). `Scope` goes over the statements one by one
//! and tells what a name means in each (`meaning`, `value`) and where it is defined (`definition`); `Unit::options_at`
//! gives the options of `.option` in which each stands. An [`Item`] is where a statement stands in an object.
//!
//! The tables hold what the statements define: the sections with the bytes of their data, and the names with their
//! bindings. `Tables::fill` takes the statements one after the other; its clause `tables` says that the tables are
//! those that `rv_unit_laws` defines (`specs/Tables`), its clauses `places` and `options` where each statement stands
//! and in which options.
//!
//! It knows no text, no instruction, no address and no other source.
//!
//! ```text
//! let unit = Unit::build(alloc, statements)?;
//! let mut scope = Scope::new(&unit);
//! let value = scope.value(unit.places()[0], expression, 1)?;
//! let definition = scope.definition(Symbol::Name(b"loop"));
//! scope.pass();
//! ```
//!
//! Source: GNU as, "Sections", "Symbols", "Expressions" and "Pseudo Ops".
#![tactic(auto)]

mod align;
mod assignments;
mod bindings;
mod blocks;
mod check;
mod faults;
mod fill;
mod item;
mod laws;
mod names;
mod number;
mod numbered;
mod numeric_labels;
mod options;
mod scope;
mod section;
mod section_offset;
mod tables;
mod unit;

pub use align::{
    LONGEST_SECTION, byte_alignment, padding, power_alignment, strings_size, values_size,
};
pub use blocks::give_back;
pub use item::Item;
pub use laws::units_agree;
pub use options::Options;
pub use rv_statement_laws::Binding;
pub use rv_unit_laws::SectionType;
pub use scope::Scope;
pub use section::{Extent, Section};
pub use section_offset::{Definition, SectionOffset};
pub use tables::Assignment;
pub use unit::Unit;
