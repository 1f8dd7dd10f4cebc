//! What the program can be asked for.

use crate::cases::AskedCases;
use crate::files::{AskedCode, AskedImage, OutputFormat, ReportFormat};
use crate::links::{AskedBuild, AskedLink, AskedMap, AskedObject};
use crate::runs::{Asked, Coverage, Debugged, Results, Shown};
use rv_link::GroundOptions;

/// What the command line asks for.
#[derive(Drop)]
pub enum Job<'a> {
    /// Runs an executable, or sources.
    Run(Asked<'a>),
    /// Runs an executable, or sources, on the board `virt`.
    RunOnBoard(Asked<'a>),
    /// Runs step by step, and tells of the end what is asked.
    Watch(Asked<'a>, Results<'a>),
    /// Runs, and writes a line for each instruction.
    Trace(Asked<'a>, Shown<'a>),
    /// Runs, and counts what is executed.
    Stats(Asked<'a>, Coverage<'a>),
    /// Lets a debugger have a run.
    Debug(Asked<'a>, Debugged<'a>),
    /// Runs cases, and says of which what came is what must come.
    Test(AskedCases<'a>),
    /// Answers calls, an object of JSON a line.
    Batch {
        /// The most instructions of a run, where a call says nothing.
        limit: u64,
    },
    /// Builds sources.
    Build(AskedBuild<'a>),
    /// Writes the object of a source.
    Assemble(AskedObject<'a>),
    /// Links objects.
    Link(AskedLink<'a>),
    /// Prints the map of what sources build.
    Map(AskedMap<'a>),
    /// Prints the listing; the files are read in the order of the words.
    Objdump {
        map: &'a str,
        exe: &'a str,
        map_first: bool,
    },
    /// Prints a source that builds the text of an executable again.
    Raw {
        exe: &'a str,
    },
    /// Prints the instructions of a file.
    Code(AskedCode<'a>),
    /// Prints the lines of sources with what they become.
    List {
        all: bool,
        /// Whether sources may have what only debug sections have, as GCC's with `-g`.
        debug: bool,
        options: GroundOptions,
        sources: Vec<&'a str>,
    },
    /// Prints the bytes of a file.
    Dump {
        file: &'a str,
    },
    /// Prints the sizes of files.
    Size {
        files: Vec<&'a str>,
        format: OutputFormat,
    },
    /// Prints the names of a file, or of the map of an executable.
    Names {
        map: Option<&'a str>,
        file: &'a str,
        format: OutputFormat,
    },
    /// Prints the headers and tables of a file.
    Elf {
        file: &'a str,
    },
    /// Prints what is wrong with sources, or what they come to.
    Check {
        options: GroundOptions,
        sources: Vec<&'a str>,
        format: ReportFormat,
    },
    /// Prints the entry of a code, or the list of codes.
    Explain {
        entry: Option<&'static str>,
    },
    /// Writes an image of an executable.
    Image(AskedImage<'a>),
    /// Prints what a shell completes words by.
    Completions {
        shell: Shell,
    },
}

/// A shell that completes words.
#[derive(Clone, Copy, Drop)]
pub enum Shell {
    Bash,
    Zsh,
    Fish,
}
