//! The library: what `rv` does, as functions that C, and so other languages, can call.
//!
//! It takes bytes and numbers, and puts what comes of them into buffers of the caller: an object, an executable and its
//! map, the console and the end of a run, a machine after some instructions, a listing, findings, the text of an
//! instruction. `include/rv.h` says all of it to those who call it.
//!
//! Each export is a few lines over a function of `rv_chain`, `rv_machine`, `rv_check`, `rv_list` or `rv_disasm`, and its
//! contract says what that function's says. It has two parts: what was made, by the definitions of that function
//! (`specs/Made`, `specs/Ran`), and how it was given to the caller (`specs/Given`). No export has a `requires`, since nothing
//! checks that C meets one.
//!
//! The form is what crosses to C without a raw pointer: a slice is a pointer and a length. So several sources come as one
//! slice with the length of each (`specs/Texts`), and a call that would have to give an unknown number of bytes tells how
//! many there are and gives those that there is room for. Nothing is kept between two calls, so threads share nothing.
//!
//! It must not know files, streams or the words of a command line.
#![tactic(auto)]

mod answers;
mod assembling;
mod buffers;
mod building;
mod checking;
mod disassembling;
mod ends;
mod finding;
mod linking;
mod listing;
mod options;
mod resuming;
mod running;
mod runs;
mod states;
mod streams;
mod texts;
mod window;

pub use answers::Answer;
pub use assembling::rv_as;
pub use building::rv_build;
pub use checking::rv_check;
pub use disassembling::rv_disassemble;
pub use ends::Ended;
pub use linking::rv_ld;
pub use listing::rv_list;
pub use resuming::rv_resume;
pub use running::rv_run;
pub use states::{State, rv_state};
