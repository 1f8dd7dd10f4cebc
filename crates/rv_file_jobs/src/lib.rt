//! The jobs of the program over files: what stands in them, for people and scripts, and images of executables.
//!
//! Main functions: `objdump`, `raw`, `code`, `dump`, `sizes`, `names`, `elf`, `write_image`. The texts and images are those of
//! `rv_disasm`, `rv_inspect` and `rv_firmware`, which are handed on as they are. It does not know the words of a command
//! line.
//!
//! ```text
//! // rv dump prog
//! let status = dump(system, "prog")?;
//! ```
#![tactic(auto)]

mod disassembly;
mod firmware;
mod inspection;

pub use disassembly::{code, dump, objdump, raw};
pub use firmware::write_image;
pub use inspection::{elf, names, sizes};
