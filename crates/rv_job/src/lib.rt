//! What the program can be asked for, and how it builds where nothing is said of it.
//!
//! A [`Job`] is what the words of a command line ask for. `rv_command_line` reads words as one, `rv_program` does it, and the crates
//! of jobs take the parts of it that are theirs.
//!
//! It must not know words, nor how a job is done.
//!
//! ```text
//! Job::Dump { file: "prog" }   // rv dump prog
//! ```
#![tactic(auto)]

mod cases;
mod files;
mod job;
mod links;
mod options;
mod runs;

pub use cases::AskedCases;
pub use files::{AskedCode, AskedImage, ImageFormat, OutputFormat, ReportFormat, TextFormat};
pub use job::{Job, Shell};
pub use links::{
    AskedBuild, AskedLink, AskedMap, AskedObject, LinkInput, LinkOutputs, LinkSettings, LinkWord,
    LinkWords,
};
pub use options::{TEXT_START, board_options, default_options};
pub use runs::{Asked, Coverage, Debugged, LineForm, Results, Shown, Until};
