//! For people: what is said of a fault of objects' files and of their link: the section and the record, the reference, the value.
//!
//! It takes the files and the fault for which a link of them is refused, and gives a remark; and of a file that is refused what it
//! is in place of an object or an executable. The linker names no place, and a good
//! link pays nothing for one: so places are looked for behind the fault, in the files' tables, and for a value by linking again
//! without some of the relocations.
//!
//! Main functions: [`objects_remark`], [`put_header`], [`faulty_site`]. They are proved to be safe; what they say is tested. It must not know how
//! objects are linked, nor where files come from.
//!
//! ```text
//! let remark = objects_remark(alloc, &["a.o"], &[file], &fault, options)?;
//! // .text+0x12: `f` is nowhere defined
//! ```
//!
//! Source: System V gABI, "Sections", "Symbol Table", "Relocation"; RISC-V ELF psABI, "Relocations".
#![tactic(auto)]

mod drafts;
mod headers;
mod indexes;
mod near;
mod records;
mod references;
mod remark;
mod search;
mod sites;
mod tables;
mod values;

pub use drafts::borrowed;
pub use headers::put_header;
pub use remark::objects_remark;
pub use search::faulty_site;
pub use sites::Site;
pub use tables::{row_of, symbol_of};
pub use values::{Value, put_value, value_of};
