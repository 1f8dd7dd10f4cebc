//! What the program's jobs ask of the system, the lines that they say, and the colours that a terminal shows them in.
//!
//! Files and the standard streams go through one trait, [`System`], so that a job says what it reads and writes, and not how.
//! [`read_whole`] takes a reader to its end; one that fails and one that gives more than the limit are told from want of
//! memory. The jobs of the program stand on it, each group in a crate of its own.
//!
//! Listings, traces and sources are painted: a text gets escapes around its mnemonics, registers, numbers and symbols, in one pass,
//! in time that grows as the text. Whether anyone looks at a terminal is known to who calls [`painted`].
//!
//! Main contracts: the lines of faults are those of `specs/Messages` (`fault_line`); [`read_whole`] gives all bytes that the
//! reader had, and leaves it at its end; and without its escapes a painted text is the given text (`unpainted`). Which words have a
//! colour is tested, not proved. It knows neither the words of a command line nor how a guest is run.
//!
//! ```text
//! let exe = file_bytes(system, "prog")?;
//! let image = image_in(system.alloc(), "prog", exe.as_slice())?;
//! let shown = painted(alloc, b"10000: addi a0,zero,7\n")?;
//! ```
//!
//! Source: ECMA-48, 8.3.117, "SGR - Select Graphic Rendition".
#![tactic(auto)]

mod colours;
mod error;
mod files;
mod messages;
mod painted_line;
mod painted_word;
mod painting;
mod shown;
mod system;
mod whole;

pub use error::JobError;
pub use files::{
    borrowed, cannot, check_fit, file_bytes, files_bytes, given_bytes, image_in, map_in, print,
    print_listing, print_parts, write,
};
pub use messages::fault_line;
pub use painting::{has_escape, painted};
pub use shown::shown_name;
pub use system::{FILE_LIMIT, Purpose, System};
pub use whole::{ReadFault, read_sized, read_whole};
