//! What is asked of runs.

use crate::files::OutputFormat;
use std::alloc::{AllocError, Global};

/// What a run is of, as the words say it.
#[derive(Drop)]
pub struct Asked<'a> {
    /// An executable, or a source; `-` is standard input.
    pub file: &'a str,
    /// More sources, which are built together with the first.
    pub others: Vec<&'a str>,
    /// The map of an executable.
    pub map: Option<&'a str>,
    /// Whether the map comes before the file in the words.
    pub map_first: bool,
    /// The most instructions to execute.
    pub limit: u64,
    /// Where the run is to end, if it comes there.
    pub until: Option<Until<'a>>,
    /// Whether what the guest writes to descriptor 2 goes to standard error.
    pub parts_errors: bool,
    /// Whether a fault of the source is explained.
    pub explains: bool,
}

/// The instruction before which a run is to end.
#[derive(Clone, Copy, Drop)]
pub enum Until<'a> {
    /// That of a symbol.
    Symbol(&'a str),
    Address(u64),
}

/// What is told of a run once it has ended.
#[derive(Clone, Copy, Drop)]
pub struct Results<'a> {
    /// The format of the report, where one is asked for.
    pub report: Option<OutputFormat>,
    /// The file for the last state.
    pub state: Option<&'a str>,
}

/// The streams of a run that is debugged, as standard input and output are the debugger's.
#[derive(Clone, Copy, Drop)]
pub struct Debugged<'a> {
    /// The file of the guest's input; it has none where none is named.
    pub input: Option<&'a str>,
    /// The file that the guest writes to; the debugger shows it where none is named.
    pub output: Option<&'a str>,
}

impl<'a> Asked<'a> {
    /// The files in their order.
    pub fn names(&self, alloc: Global) -> Result<Vec<&'a str>, AllocError> {
        let mut names: Vec<&'a str> = Vec::new(alloc);
        names.push(self.file)?;
        names.extend_from_slice(self.others.as_slice())?;
        Ok(names)
    }

    /// Whether one of the files is standard input, so that the guest has none.
    pub fn has_input(&self) -> bool {
        self.file == "-" || self.others.iter().any(|name| *name == "-")
    }
}

/// Which lines of a trace are written, and where.
#[derive(Clone, Copy, Drop)]
pub struct Shown<'a> {
    /// The number of the first instruction, from 1.
    pub first: u64,
    /// How many lines there are at most.
    pub count: Option<u64>,
    /// The file; standard error where none is named.
    pub output: Option<&'a str>,
    pub form: LineForm,
}

/// What a line of a trace shows.
#[derive(Clone, Copy, Drop)]
pub enum LineForm {
    /// The instruction, its place and its source.
    Whole,
    /// The same without numbers, addresses and names of files.
    Plain,
    /// The event of the step, in full.
    Event,
}

/// What counts are written beside those of all instructions.
#[derive(Clone, Copy, Drop)]
pub struct Coverage<'a> {
    /// Whether those of each line are.
    pub lines: bool,
    /// The file for a tracefile of lcov.
    pub lcov: Option<&'a str>,
    /// How the counts are written.
    pub format: OutputFormat,
}
