//! What the program asks of the system: files, the standard streams, and variables of the environment.
//!
//! Files and streams go through one trait, so that tests see each status and each line without starting a process. It
//! has no ghost state, so what a command line gives and takes is tested and not proved.

ghost use Rattle.std.specs.Prelude.{◌≤◌, length, IfOk};

use crate::whole::ReadFault;
use std::alloc::{AllocError, Global};
use std::io::{self, Write};

/// The most bytes of a file: 1 GiB.
pub const FILE_LIMIT: usize = 1 << 30;

/// What a file that is written is for.
#[derive(Clone, Copy, PartialEq, Eq)]
pub enum Purpose {
    ToRun,
    ToRead,
}

/// The system that the program runs on; a test stands in for it.
pub trait System {
    /// What lines are written to while a guest runs.
    type Lines: Write + Drop;

    fn alloc(&self) -> Global;

    /// The bytes of a file.
    fn file(&mut self, name: &str) -> Result<Vec<u8>, ReadFault>;

    /// The bytes of standard input, up to a limit.
    fn input(&mut self, limit: usize) -> Result<Vec<u8>, ReadFault>;

    /// The next bytes of standard input, at the front of a piece, as many as have come; none at its end.
    fn next_input(&mut self, piece: &mut [u8]) -> io::Result<usize>
        ensures { IfOk result (λ count. count ≤ length piece.new) };

    /// The names in a folder; none where there is no such folder.
    fn folder(&mut self, name: &str) -> Result<Option<Vec<String>>, ReadFault>;

    /// Writes a file anew.
    fn write(&mut self, name: &str, purpose: Purpose, bytes: &[u8]) -> io::Result<()>;

    /// What a variable of the environment says, where it is set and not empty.
    fn variable(&self, name: &str) -> Result<Option<String>, AllocError>;

    /// The working directory.
    fn directory(&self) -> Result<String, ReadFault>;

    /// Whether standard output shows colours: it is a terminal, and nobody asked for none.
    fn shows_colours(&self) -> bool;

    /// Whether standard error is a terminal, where somebody reads it.
    fn errors_go_to_terminal(&self) -> bool;

    /// Writes to standard output.
    fn print(&mut self, bytes: &[u8]) -> io::Result<()>;

    /// A file that is written anew, or standard error where none is named.
    fn lines(&mut self, name: Option<&str>) -> io::Result<Self::Lines>;

    /// Writes a text to standard error.
    fn show(&mut self, text: &str);

    /// Writes a line to standard error, with `rv: ` before it.
    fn tell(&mut self, line: &str);
}
