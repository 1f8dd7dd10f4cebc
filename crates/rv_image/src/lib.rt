//! Executables: the file that a linked program becomes, and the image that a file is loaded as.
//!
//! It takes a [`Linked`] program and gives the bytes of its executable, and takes the bytes of any file and gives
//! the [`Image`] that they load, or the first fault that they have.
//!
//! Main contracts: `load` answers an image just of a file without a fault, with the segments that its headers name, and
//! otherwise the fault that stands first (`first_fault`); `write_exec` gives the bytes `exe_of` of the program; and
//! `reload` that these load as that program. What images and executables are, `rv_image_laws` says. It knows neither
//! statements nor instructions: contents are bytes.
//!
//! ```text
//! let file = write_exec(alloc, &linked)?;
//! let image = load(alloc, &file)?;
//! let first = image.entry;
//! let bytes = image.segments[0].bytes.as_slice();
//! // reload(alloc, &linked)? == image
//! ```
//!
//! Source: System V gABI, "ELF Header" and "Program Header"; RISC-V ELF psABI.
#![tactic(auto)]

mod image;
mod linked;
mod loading;
mod round_trip;
mod segment;
mod segments;
mod writing;

pub use image::Image;
pub use linked::Linked;
pub use loading::load;
pub use round_trip::reload;
pub use rv_fault::FileFault;
pub use rv_map::{Global, Map};
pub use rv_map_laws::{Region, Row, SectionId};
pub use segment::{HIGHEST, MEMORY_LIMIT, STACK_BYTES, STACK_START, Segment};
pub use writing::write_exec;
