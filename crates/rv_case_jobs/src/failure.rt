//! What is said of a case that fails.

use crate::difference::Difference;
use rv_cases::{Case, Wanted, WantedEnd, ends_so};
use rv_guests::end_line;
use rv_machine::{End, Outcome};
use std::alloc::{AllocError, Global};

/// What is said of a case that fails.
#[derive(Drop)]
pub(crate) struct Failure {
    /// What is wrong, without a line feed.
    pub message: String,
    /// Lines that show it.
    pub details: String,
}

impl Failure {
    /// Where a case could not be tried: the first of these lines, and those below it.
    pub(crate) fn of_line(alloc: Global, line: &str) -> Result<Failure, AllocError> {
        let (message, details) = line.split_once('\n').unwrap_or((line, ""));
        let mut shown = String::new(alloc);
        if !details.is_empty() {
            shown.push_str(details)?;
            shown.push('\n')?;
        }
        Ok(Failure {
            message: String::from_str(alloc, message)?,
            details: shown,
        })
    }

    /// Where a build is refused with a line and should not be, or with another one.
    pub(crate) fn of_refusal(
        alloc: Global,
        case: &Case,
        line: &str,
    ) -> Result<Failure, AllocError> {
        let wanted = wanted_text(alloc, &case.wanted)?;
        Ok(Failure {
            message: format!(in alloc; "wanted {wanted}, but the build is refused: {line}")?,
            details: String::new(alloc),
        })
    }

    /// Where a build is not refused and should be.
    pub(crate) fn of_build(alloc: Global, line: &[u8]) -> Result<Failure, AllocError> {
        let wanted = String::from_utf8_lossy(alloc, line)?;
        Ok(Failure {
            message: format!(in alloc; "wanted {wanted}, but the build is not refused")?,
            details: String::new(alloc),
        })
    }

    /// Where a run, of at most so many instructions, came to another end or wrote something else.
    pub(crate) fn of_run(
        alloc: Global,
        case: &Case,
        outcome: &Outcome,
        most: u64,
    ) -> Result<Failure, AllocError> {
        let mut details = String::new(alloc);
        let mut message = "the console differs".to_string(alloc)?;
        if let Wanted::Run(end, console) = &case.wanted {
            if let Some(console) = console {
                put_difference(alloc, &mut details, console.as_slice(), &outcome.console)?;
            }
            if !ends_so(end, &outcome.end) {
                let wanted = wanted_text(alloc, &case.wanted)?;
                let came = end_text(alloc, case, &outcome.end, most)?;
                message = format!(in alloc; "wanted {wanted}, came {came}")?;
            }
        }
        Ok(Failure { message, details })
    }
}

/// Adds the lines of where a console differs, if it does.
fn put_difference(
    alloc: Global,
    details: &mut String,
    wanted: &[u8],
    came: &[u8],
) -> Result<(), AllocError> {
    match Difference::of(wanted, came) {
        Some(difference) => difference.put_to(alloc, details),
        None => Ok(()),
    }
}

/// What must come, in a few words.
fn wanted_text(alloc: Global, wanted: &Wanted) -> Result<String, AllocError> {
    match wanted {
        Wanted::Refused(line) | Wanted::Run(WantedEnd::Other(line), _) => {
            String::from_utf8_lossy(alloc, line.as_slice())
        }
        Wanted::Run(WantedEnd::Exited(status), _) => format!(in alloc; "exit {status}"),
    }
}

/// How a run ended, in a few words.
fn end_text(alloc: Global, case: &Case, end: &End, most: u64) -> Result<String, AllocError> {
    match end {
        End::Exited(status) => format!(in alloc; "exit {status}"),
        End::Limit if case.instructions == Some(most) => {
            format!(in alloc; "more than {most} instructions")
        }
        _ => String::from_str(alloc, end_line(end).as_str()),
    }
}
