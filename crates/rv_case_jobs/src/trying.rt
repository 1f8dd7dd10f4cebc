//! One case: what came of it, if it is not what must come.

use crate::failure::Failure;
use crate::files::CaseFiles;
use crate::looking::put_report;
use rv_cases::{Case, CaseError, Wanted};
use rv_chain::{Fault, build_exe_on};
use rv_guests::{KeptFault, run_kept};
use rv_job::default_options;
use rv_machine::{End, Outcome};
use rv_system::{JobError, System, fault_line, file_bytes, given_bytes, image_in};
use std::alloc::{AllocError, Global};

/// Tries a case; what is wrong with it, or nothing. Where it cannot be tried, that is wrong with it.
pub(crate) fn try_case<S: System>(
    system: &mut S,
    files: &CaseFiles,
    limit: u64,
) -> Result<Option<Failure>, JobError> {
    let alloc: Global = system.alloc();
    match failure_of(system, files, limit) {
        Ok(failure) => Ok(failure),
        Err(JobError::Line(line)) => Ok(Some(Failure::of_line(alloc, line.as_str())?)),
        Err(JobError::Memory) => Ok(Some(Failure::of_line(alloc, "out of memory")?)),
        Err(JobError::Closed) => Err(JobError::Closed),
    }
}

/// What is wrong with a case, or nothing.
fn failure_of<S: System>(
    system: &mut S,
    files: &CaseFiles,
    limit: u64,
) -> Result<Option<Failure>, JobError> {
    let alloc: Global = system.alloc();
    let name = files.source.as_str();
    let source = given_bytes(system, name)?;
    let input = beside(system, files.input.as_deref())?;
    let console = beside(system, files.console.as_deref())?;
    match Case::of(alloc, source.as_slice(), input, console) {
        Ok(case) => case_failure(alloc, name, source.as_slice(), &case, limit),
        Err(error) => Err(case_line(alloc, name, error)?),
    }
}

/// What is wrong with a case of this name and source, or nothing.
fn case_failure(
    alloc: Global,
    name: &str,
    source: &[u8],
    case: &Case,
    limit: u64,
) -> Result<Option<Failure>, JobError> {
    match build_exe_on(alloc, &[source], default_options()) {
        Ok(exe) => built_failure(alloc, name, source, case, exe.as_slice(), limit),
        Err(fault) => refused_failure(alloc, name, case, &fault),
    }
}

/// The bytes of a file beside a source, if there is one.
fn beside<S: System>(system: &mut S, name: Option<&str>) -> Result<Option<Vec<u8>>, JobError> {
    match name {
        Some(name) => Ok(Some(file_bytes(system, name)?)),
        None => Ok(None),
    }
}

/// The line of a source that is no case.
fn case_line(alloc: Global, name: &str, error: CaseError) -> Result<JobError, AllocError> {
    let line = match error {
        CaseError::Wrong(Some(line), fault) => format!(in alloc; "{name}:{line}: {fault}")?,
        CaseError::Wrong(None, fault) => format!(in alloc; "{name}: {fault}")?,
        CaseError::Memory => return Ok(JobError::Memory),
    };
    Ok(JobError::Line(line))
}

/// What is wrong where a build is refused.
fn refused_failure(
    alloc: Global,
    name: &str,
    case: &Case,
    fault: &Fault,
) -> Result<Option<Failure>, JobError> {
    let line = text_of(fault_line(alloc, fault, &[base_name(name)])?)?;
    match &case.wanted {
        Wanted::Refused(wanted) if wanted.as_slice() == line.as_bytes() => Ok(None),
        _ => {
            let shown = text_of(fault_line(alloc, fault, &[name])?)?;
            Ok(Some(Failure::of_refusal(alloc, case, shown.as_str())?))
        }
    }
}

/// The text of a line.
fn text_of(error: JobError) -> Result<String, JobError> {
    match error {
        JobError::Line(line) => Ok(line),
        other => Err(other),
    }
}

/// A file's name without its folders.
fn base_name(name: &str) -> &str {
    match name.rsplit_once('/') {
        Some((_, base)) => base,
        None => name,
    }
}

/// What is wrong where a source can be built.
fn built_failure(
    alloc: Global,
    name: &str,
    source: &[u8],
    case: &Case,
    exe: &[u8],
    limit: u64,
) -> Result<Option<Failure>, JobError> {
    if let Wanted::Refused(line) = &case.wanted {
        return Ok(Some(Failure::of_build(alloc, line.as_slice())?));
    }
    let most = case.most(limit);
    let image = image_in(alloc, name, exe)?;
    match run_kept(alloc, image, case.input.as_slice(), most) {
        Ok(outcome) if case.is_met(&outcome) => Ok(None),
        Ok(outcome) => run_failure(alloc, name, source, case, &outcome, most),
        Err(fault) => Err(kept_line(alloc, fault)?),
    }
}

/// The line of a run that came to no end.
fn kept_line(alloc: Global, fault: KeptFault) -> Result<JobError, AllocError> {
    match fault {
        KeptFault::ConsoleLimit => Ok(JobError::Line(format!(in alloc; "{fault}")?)),
        KeptFault::Memory => Ok(JobError::Memory),
    }
}

/// What is wrong with a run; where it did not exit, its end as a report has it.
fn run_failure(
    alloc: Global,
    name: &str,
    source: &[u8],
    case: &Case,
    outcome: &Outcome,
    most: u64,
) -> Result<Option<Failure>, JobError> {
    let mut failure = Failure::of_run(alloc, case, outcome, most)?;
    if !matches!(outcome.end, End::Exited(_)) {
        let details = &mut failure.details;
        put_report(alloc, details, name, source, case.input.as_slice(), most)?;
    }
    Ok(Some(failure))
}
