//! Runs cases one after the other, and says what came of them.

ghost use Rattle.std.specs.Prelude.{◌≡◌};
ghost use Rattle.rv_case_jobs.specs.Status.{cases_status};

use crate::files::{CaseFiles, case_files};
use crate::formats::{put_case, put_sum};
use crate::trying::try_case;
use crate::xml::{put_test_case, test_suites};
use rv_job::AskedCases;
use rv_system::{JobError, Purpose, System, print, write};
use std::alloc::Global;

/// How many cases passed and failed.
#[derive(Clone, Copy, Drop)]
pub(crate) struct Sum {
    pub passed: u64,
    pub failed: u64,
}

/// Runs cases and prints what came of them; the exit status.
#[inline(never)]
pub fn run_cases<S: System>(system: &mut S, asked: &AskedCases<'_>) -> Result<u8, JobError> {
    let alloc: Global = system.alloc();
    let cases = case_files(system, asked.files.as_slice())?;
    let mut sum = Sum {
        passed: 0,
        failed: 0,
    };
    let mut elements = String::new(alloc);
    for files in &cases {
        run_case(system, asked, files, &mut sum, &mut elements)?;
    }
    print_sum(system, sum, asked.json)?;
    if let Some(name) = asked.junit {
        let report = test_suites(alloc, elements.as_str(), sum)?;
        write(system, name, Purpose::ToRead, report.as_bytes())?;
    }
    Ok(status(sum.failed))
}

/// Prints the sum.
fn print_sum<S: System>(system: &mut S, sum: Sum, is_json: bool) -> Result<(), JobError> {
    let mut text = Vec::new(system.alloc());
    put_sum(system.alloc(), &mut text, sum, is_json)?;
    print(system, text.as_slice())
}

/// Runs a case, adds it to the sum and to the elements of a report, and prints what is said of it.
fn run_case<S: System>(
    system: &mut S,
    asked: &AskedCases<'_>,
    files: &CaseFiles,
    sum: &mut Sum,
    elements: &mut String,
) -> Result<(), JobError> {
    let alloc: Global = system.alloc();
    let failure = try_case(system, files, asked.limit)?;
    match failure {
        None => sum.passed = sum.passed.saturating_add(1),
        Some(_) => sum.failed = sum.failed.saturating_add(1),
    }
    let name = files.source.as_str();
    let mut text = Vec::new(alloc);
    put_case(alloc, &mut text, name, failure.as_ref(), asked.json)?;
    if asked.junit.is_some() {
        put_test_case(elements, name, failure.as_ref())?;
    }
    print(system, text.as_slice())
}

/// The exit status where so many cases have failed.
fn status(failed: u64) -> u8
    ensures { result ≡ cases_status failed }
{
    if failed == 0 { 0 } else { 1 }
}
