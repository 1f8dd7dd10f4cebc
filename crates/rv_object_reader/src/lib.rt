//! Reads objects: the object of a file, whoever wrote it, or the first of the file's faults.
//!
//! It takes the bytes of any file. `check` answers the fault that stands first, or `Checked`, which says what a reader
//! needs of a good file: which sections an object keeps, and where its symbols and rows are. It makes nothing of the
//! file: it looks at it section by section, a header before its records. [`read`] gives the [`rv_object_types::Object`]
//! that a good file holds. The object lends its names and contents from the file.
//!
//! Main contract: [`read`] answers an object just of a file without a fault (`first_fault`), and then the file's own
//! (`ObjectOf`); otherwise the fault that stands first, or want of memory. It knows neither addresses nor other files.
//!
//! ```text
//! let object = read(alloc, file)?;
//! let text = &object.sections[0];
//! ```
//!
//! Source: System V gABI, "Sections", "Symbol Table", "Relocation"; RISC-V ELF psABI, "Relocations"; this project's
//! order of refusals.
#![tactic(auto)]

mod checked;
mod checking;
mod fields;
mod headers;
mod names;
mod paddings;
mod parts;
mod places;
mod positions;
mod reading;
mod recent;
mod relocation_checks;
mod relocations;
mod row_checks;
mod row_record;
mod rows;
mod section_checks;
mod sections;
mod shown_strings;
mod strings;
mod symbol_checks;
mod symbols;
mod tables;
mod walk;

pub use reading::read;
pub use relocation_checks::kind_numbered;
pub use row_checks::row_in;
pub use row_record::{ROW_SIZE, RowRecord};
pub use rv_fault::FileFault;
pub use rv_object_types::Object;
