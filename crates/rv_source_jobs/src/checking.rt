//! What the program says of sources that it is to check.

use crate::formats::{put_json, put_line_of_compilers, put_parts};
use rv_chain::GroundOptions;
use rv_check::{Finding, Report, check};
use rv_fault_texts::Remark;
use rv_job::ReportFormat;
use rv_system::{JobError, System, borrowed, fault_line, files_bytes, print};
use std::alloc::{AllocError, Global};

/// The exit status of sources that have a fault.
const FAULTY: u8 = 1;

/// Reads sources in their order and prints what is wrong with them, or what they come to; the exit status.
#[inline(never)]
pub fn check_files<S: System>(
    system: &mut S,
    names: &[&str],
    options: GroundOptions,
    format: ReportFormat,
) -> Result<u8, JobError> {
    let read = files_bytes(system, names)?;
    check_sources(system, names, read.as_slice(), options, format)
}

/// Prints what is wrong with sources that were read, or what they come to; the exit status.
fn check_sources<S: System>(
    system: &mut S,
    names: &[&str],
    read: &[Vec<u8>],
    options: GroundOptions,
    format: ReportFormat,
) -> Result<u8, JobError> {
    let alloc: Global = system.alloc();
    let sources = borrowed(alloc, read)?;
    match check(alloc, names, sources.as_slice(), options) {
        Ok(report) => print_report(system, &report, names, format),
        Err(fault) => Err(fault_line(alloc, &fault, names)?),
    }
}

/// Prints what is said of sources; the exit status.
fn print_report<S: System>(
    system: &mut S,
    report: &Report,
    names: &[&str],
    format: ReportFormat,
) -> Result<u8, JobError> {
    let alloc: Global = system.alloc();
    let mut text = String::new(alloc);
    put_report(alloc, &mut text, report, names, format)?;
    print(system, text.as_bytes())?;
    Ok(if report.first.is_some() { FAULTY } else { 0 })
}

/// Adds the faults one after the other, and then the warnings. For people there is a line more: how many faults there are, or
/// what the sources come to.
fn put_report(
    alloc: Global,
    text: &mut String,
    report: &Report,
    names: &[&str],
    format: ReportFormat,
) -> Result<(), JobError> {
    put_findings(alloc, text, report, names, format)?;
    if format == ReportFormat::Text {
        text.push_str(report.closing.as_str())?;
    }
    for warning in &report.warnings {
        put_warning(alloc, text, warning, names, format)?;
    }
    Ok(())
}

/// Adds the faults one after the other.
fn put_findings(
    alloc: Global,
    text: &mut String,
    report: &Report,
    names: &[&str],
    format: ReportFormat,
) -> Result<(), JobError> {
    if let Some(first) = &report.first {
        put_finding(alloc, text, first, names, format)?;
    }
    for finding in &report.others {
        put_finding(alloc, text, finding, names, format)?;
    }
    Ok(())
}

/// Adds a fault.
fn put_finding(
    alloc: Global,
    text: &mut String,
    finding: &Finding,
    names: &[&str],
    format: ReportFormat,
) -> Result<(), JobError> {
    match format {
        ReportFormat::Text => put_finding_for_people(alloc, text, finding, names)?,
        ReportFormat::Gcc => {
            put_line_of_compilers(alloc, text, names, Some(&finding.fault), &finding.remark)?
        }
        ReportFormat::Json => put_json(alloc, text, names, Some(&finding.fault), &finding.remark)?,
    }
    Ok(())
}

/// Adds a fault: the line that a build shows, and what is said of it.
fn put_finding_for_people(
    alloc: Global,
    text: &mut String,
    finding: &Finding,
    names: &[&str],
) -> Result<(), JobError> {
    match fault_line(alloc, &finding.fault, names)? {
        JobError::Line(line) => put_parts(text, &[line.as_str(), "\n"])?,
        other => return Err(other),
    }
    Ok(finding.remark.put_to(text)?)
}

/// Adds a warning.
fn put_warning(
    alloc: Global,
    text: &mut String,
    warning: &Remark,
    names: &[&str],
    format: ReportFormat,
) -> Result<(), AllocError> {
    match format {
        ReportFormat::Text => put_warning_for_people(alloc, text, warning, names),
        ReportFormat::Gcc => put_line_of_compilers(alloc, text, names, None, warning),
        ReportFormat::Json => put_json(alloc, text, names, None, warning),
    }
}

/// Adds a warning: its place, its sentence and its line.
fn put_warning_for_people(
    alloc: Global,
    text: &mut String,
    warning: &Remark,
    names: &[&str],
) -> Result<(), AllocError> {
    if let Some(spot) = &warning.spot {
        let file = names.get(spot.file).copied().unwrap_or("");
        let line = spot.line;
        let sentence = warning.sentence.as_str();
        let head = format!(in alloc; "{file}:{line}: warning: {sentence}\n")?;
        text.push_str(head.as_str())?;
    }
    text.push_str(warning.excerpt.as_str())
}
