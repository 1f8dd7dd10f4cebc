//! From the words of the command line to the exit status.

ghost use Rattle.std.specs.Prelude.{◌≡◌, ◌⊎◌};
ghost use Rattle.clap.specs.Values.{kind_of};
ghost use Rattle.rv_program.specs.Status.{IsErrorStatus, refused, usage_status};

use crate::error::CliError;
use crate::jobs::run_job;
use rv_command_line::parse_job;
use rv_guests::Guests;
use rv_system::System;
use std::alloc::Global;
use std::io::ErrorKind;

/// The exit status of a refused job.
const REFUSED: u8 = 1;
/// The exit status of words that the program does not take.
const USAGE: u8 = 2;

/// Does what the words ask for, or says why not; the exit status.
pub fn exit_status<S: Guests>(system: &mut S, words: &[String]) -> u8 {
    match work(system, words) {
        Ok(status) => status,
        Err(error) => report(system, error),
    }
}

/// Reads the words and does their job; the exit status.
fn work<S: Guests>(system: &mut S, words: &[String]) -> Result<u8, CliError> {
    let alloc: Global = system.alloc();
    let mut given: Vec<&str> = Vec::new(alloc);
    for word in words {
        given.push(word.as_str())?;
    }
    let limit = system.variable("RV_LIMIT")?;
    let limit = limit.as_ref().map(|text| text.as_str());
    let job = parse_job(alloc, given.as_slice(), limit)?;
    Ok(run_job(system, &job)?)
}

/// Shows why a job was not done; the exit status.
pub fn report<S: System>(system: &mut S, error: CliError) -> u8
    ensures { IsErrorStatus error result }
{
    match error {
        CliError::Usage(error) => show_usage(system, &error),
        CliError::NotText => {
            system.tell("a word of the command line is not text");
            USAGE
        }
        CliError::Line(line) => refuse(system, line.as_str()),
        CliError::Closed => REFUSED,
        CliError::Memory => refuse(system, "out of memory"),
    }
}

/// Says why a job was refused; the exit status.
fn refuse<S: System>(system: &mut S, line: &str) -> u8
    ensures { result ≡ refused }
{
    system.tell(line);
    REFUSED
}

/// Shows what is wrong with the words, or prints the help or the version that they ask for; the
/// exit status.
fn show_usage<S: System>(system: &mut S, error: &clap::Error) -> u8
    ensures { (result ≡ usage_status (kind_of error.now)) ⊎ (result ≡ refused) }
{
    let Ok(text) = error.to_string(system.alloc()) else {
        return refuse(system, "out of memory");
    };
    if error.use_stderr() {
        system.show(text.as_str());
        return USAGE;
    }
    match system.print(text.as_bytes()) {
        Ok(()) => 0,
        Err(error) if error.kind() == ErrorKind::BrokenPipe => REFUSED,
        Err(_) => refuse(system, "-: cannot write"),
    }
}
