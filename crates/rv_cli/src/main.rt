//! The program `rv`: builds bare RISC-V programs from assembly sources and runs them.
//!
//! All but the start of the process and the system itself ([`Host`]) is in `rv_program`. The line of a run that does not exit
//! ([`end_line`]) is given on. Files and streams have no contract and are tested; what is to have a test of its own stands in a
//! crate below, since with one here the whole program would be proved twice.
#![tactic(auto)]

mod host;

use crate::host::Host;
pub use rv_guests::end_line;
use rv_program::{CliError, exit_status, report};
use std::alloc::Global;
use std::env;
use std::io::ErrorKind;
use std::process::ExitCode;

fn main(rt: HostRuntime) -> ExitCode {
    let words = words_given(&rt);
    let mut host = Host { rt: &rt };
    ExitCode::from(match words {
        Ok(words) => exit_status(&mut host, words.as_slice()),
        Err(error) => report(&mut host, error),
    })
}

/// The words of the command line, the program's own name before them.
fn words_given(rt: &HostRuntime) -> Result<Vec<String>, CliError> {
    let alloc: Global = rt.alloc();
    let args = match env::args(rt) {
        Ok(args) => args,
        Err(error) => return Err(unread(error.kind())),
    };
    let mut words = Vec::new(alloc);
    // (`collect` asks again for less where its first request is refused)
    for word in args {
        words.push(word)?;
    }
    Ok(words)
}

/// Why the words can't be read.
fn unread(kind: ErrorKind) -> CliError {
    match kind {
        ErrorKind::OutOfMemory => CliError::Memory,
        _ => CliError::NotText,
    }
}
