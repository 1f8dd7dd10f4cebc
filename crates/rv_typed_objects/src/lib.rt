//! Writes the types and the sizes of symbols into the files of objects, as GNU as does.
//!
//! It takes the file of an object, the object that it is, and what the directives `.type` and `.size` of its source say (rv_marks),
//! and gives the file whose symbols have that in `st_info` and `st_size` ([`typed`], as `specs/Typed` defines it). The sizes are those
//! in the object; a linker that cuts calls makes them smaller. All else of the file stays as it was, and no link reads these fields,
//! so the object and its programs are the same.
//!
//! It does not know how sources are read.
//!
//! ```text
//! let marks = marks(alloc, text)?;
//! let object = read(alloc, &file)?;
//! let typed = typed(alloc, &file, &object, marks.as_slice())?;
//! ```
//!
//! Source: System V gABI, "Symbol Table"; GNU as, ".type", ".size".
#![tactic(auto)]

mod file;
mod record;
mod sizes;

pub use file::typed;
pub use rv_fault::FileFault;
pub use rv_labels::Mark;
pub use rv_object_types::Object;
