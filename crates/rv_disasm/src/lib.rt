//! Listings of executables and dumps of files.
//!
//! It takes an [`Image`](rv_image::Image) and a [`Map`](rv_map::Map) and gives the listing: for each statement that has
//! code, which one it is and the instructions that stand there. It takes an image alone and gives its raw listing: a
//! source that can be built into the same code again. It takes bytes and gives their dump.
//!
//! Main contracts: `listing` gives a text that `IsListing` of the image and the map, by whatever reader of words and
//! parcels, and there is one alone (`one_listing`); `raw_listing` gives the text that `IsRawListing` of the image, and
//! none exactly where it has none, and there is one at most (`one_raw_listing`); `hex_dump` gives `dump_of` the bytes.
//! `fits` says whether a map is one of an image (`specs/Fitting`).
//! `ListedRows` gives the same listing as `listing`, a row at a time: what is there, with what is `listing_left`, stays the
//! listing. What rows that lie over each other show is made once.
//! What a listing is, `rv_listing_laws` says, with a table of how an instruction of each format is shown (`text_with`) and
//! one of the parcels of a raw listing (`parcel_text`).
//! It must not know how a map comes about, what instructions do, or how sources are read.
//!
//! ```text
//! let image = load(alloc, file)?;
//! let map = read(alloc, text)?.ok_or("no map")?;
//! let text = listing(alloc, &image, &map)?;      // "@ 1 3 4\n10000: addi a0,zero,7\n"
//! let source = raw_listing(alloc, &image)?;       // Some(".option norvc\n.. _start:\naddi a0,zero,7\n")
//! let bytes = hex_dump(alloc, b"abc")?;           // "00000000: 616263\n"
//! ```
//!
//! Source: RISC-V Assembly Programmer's Manual; RISC-V Unprivileged ISA 20191213, section 1.5 and chapters 2, 5, 7, 8, 16.
#![tactic(auto)]

mod code;
mod dump;
mod fitting;
mod instruction;
mod kept;
mod law;
mod line;
mod listed;
mod numbers;
mod order;
mod parcel;
mod raw;
mod rows;

pub use dump::hex_dump;
pub use fitting::fits;
pub use instruction::put_instruction;
pub use law::{one_listing, one_raw_listing};
pub use listed::{ListedRows, listing};
pub use parcel::put_parcel;
pub use raw::raw_listing;
pub use rv_listing_laws::{Code, Targets};
