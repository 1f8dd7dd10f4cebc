//! What the words of a command line ask for.

use crate::builds::refuse_debug_formats;
use crate::commands::command;
use crate::operands::{Operands, Refusal};
use crate::runs::default_run;
use crate::words::help_of;
use clap::error::ErrorKind;
use clap::{ArgMatches, Command, Error};
use rv_job::Job;
use std::alloc::{AllocError, Global};

/// What the words ask for; the first word is the program's own name. `limit` is what the environment says of the limit of
/// a run, where it says something.
pub fn parse_job<'a>(
    alloc: Global,
    words: &'a [&'a str],
    limit: Option<&'a str>,
) -> Result<Job<'a>, Error> {
    let mut command = command(alloc, words.get(1).copied())?;
    job_by(alloc, &mut command, words, limit)
}

/// What the words ask for by a command that is lent, so that it is dropped in one place.
fn job_by<'a>(
    alloc: Global,
    command: &mut Command<'a>,
    words: &'a [&'a str],
    limit: Option<&'a str>,
) -> Result<Job<'a>, Error> {
    let asked = match refuse_debug_formats(words) {
        Ok(()) => {
            let matches = command.try_get_matches_from_mut(words)?;
            job_of(alloc, &matches, limit)
        }
        Err(refusal) => Err(refusal),
    };
    match asked {
        Ok(job) => Ok(job),
        Err(refusal) => Err(usage(alloc, command, refusal)?),
    }
}

/// The job of what was found; `clap` finds no word but those of the table.
fn job_of<'a>(
    alloc: Global,
    matches: &ArgMatches<'a>,
    limit: Option<&'a str>,
) -> Result<Job<'a>, Refusal<'a>> {
    let mut listed = Vec::new(alloc);
    let (name, found) = matches.subcommand().unwrap_or(("", matches));
    let mut operands = Operands::new(alloc, Some(found), limit, &mut listed);
    let job = match help_of(name) {
        Some(help) => help.word.job(&mut operands),
        None => default_run(&mut operands),
    };
    operands.end(job)
}

/// The fault of words that are wrong, with the usage of the program below.
fn usage(
    alloc: Global,
    command: &mut Command<'_>,
    refusal: Refusal<'_>,
) -> Result<Error, AllocError> {
    match refusal {
        Refusal::Wrong(before, word, behind) => {
            let said = format!(in alloc; "{before}{word}{behind}")?;
            command.error(ErrorKind::ValueValidation, said.as_str())
        }
        Refusal::Memory => Err(AllocError),
    }
}
