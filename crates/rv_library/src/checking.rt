//! From sources to what is wrong with them.

ghost use Rattle.std.specs.Prelude.{◌≡◌};
ghost use Rattle.rv_library.specs.Checked.{GivesCheck, IsCheck, IsCheckGiven, IsFoundGiven, answer_with};

use crate::answers::{Answer, UNFIT, refuse, status_of, told};
use crate::buffers::put;
use crate::finding::numbers_of;
use crate::options::{are_known, options_of};
use crate::texts::{names_of, texts_of};
use rv_check::{Report, check};
use rv_fault::Fault;
use rv_fault_texts::Remark;
use rv_source_jobs::finding_value;
use std::alloc::{AllocError, Global};

/// What a check has found, and its text: an object of JSON for each fault and each warning, on a line of its own.
#[derive(Drop)]
struct Checked {
    report: Report,
    text: Vec<u8>,
}

/// Checks sources: `rv_check` of `include/rv.h`.
#[unsafe(no_mangle)]
pub extern "C" fn rv_check(
    alloc: Global,
    sources: &[u8],
    lengths: &[u64],
    names: &[u8],
    name_lengths: &[u64],
    text_start: u64,
    flags: u32,
    findings: &mut [u8],
    answer: &mut Answer,
) -> u32
    // the first fault is that of a build, as `check` promises it; the text is tested
    ensures { GivesCheck sources.now lengths.now text_start flags result findings.old findings.new answer.new }
{
    let found = findings_of(
        alloc,
        sources,
        lengths,
        names,
        name_lengths,
        text_start,
        flags,
    );
    give_checked(alloc, found, findings, answer)
}

/// What is wrong with sources; none where the arguments do not belong together.
fn findings_of(
    alloc: Global,
    sources: &[u8],
    lengths: &[u64],
    names: &[u8],
    name_lengths: &[u64],
    text_start: u64,
    flags: u32,
) -> Result<Option<Checked>, Fault>
    ensures { IsCheck sources.now lengths.now text_start flags result }
{
    if !are_known(flags) {
        return Ok(None);
    }
    let Some(texts) = texts_of(alloc, sources, lengths)? else {
        return Ok(None);
    };
    let Some(names) = names_of(alloc, names, name_lengths)? else {
        return Ok(None);
    };
    let report = check(
        alloc,
        names.as_slice(),
        texts.as_slice(),
        options_of(text_start, flags).grounded(),
    )?;
    let text = report_text(alloc, &report, names.as_slice())?;
    Ok(Some(Checked { report, text }))
}

/// The faults in their order, and then the warnings.
fn report_text(alloc: Global, report: &Report, names: &[&str]) -> Result<Vec<u8>, AllocError> {
    let mut text = Vec::new(alloc);
    if let Some(first) = &report.first {
        put_finding(alloc, &mut text, names, Some(&first.fault), &first.remark)?;
    }
    for finding in &report.others {
        put_finding(
            alloc,
            &mut text,
            names,
            Some(&finding.fault),
            &finding.remark,
        )?;
    }
    for warning in &report.warnings {
        put_finding(alloc, &mut text, names, None, warning)?;
    }
    Ok(text)
}

/// Adds a fault, or a warning, as an object of JSON on a line.
fn put_finding(
    alloc: Global,
    text: &mut Vec<u8>,
    names: &[&str],
    fault: Option<&Fault>,
    remark: &Remark,
) -> Result<(), AllocError> {
    let found = finding_value(alloc, names, fault, remark)?;
    text.extend_from_slice(found.to_string(alloc)?.as_bytes())?;
    text.push(b'\n')?;
    Ok(())
}

/// Gives what was found, or why nothing was; the status.
fn give_checked(
    alloc: Global,
    found: Result<Option<Checked>, Fault>,
    findings: &mut [u8],
    answer: &mut Answer,
) -> u32
    ensures { IsCheckGiven found result findings.old findings.new answer.new }
{
    match found {
        Ok(found) => give_found(found, findings, answer),
        Err(fault) => refuse(alloc, &fault, findings, answer),
    }
}

/// Gives what was found, if anything was; the status.
fn give_found(found: Option<Checked>, findings: &mut [u8], answer: &mut Answer) -> u32
    ensures { IsFoundGiven found result findings.old findings.new answer.new }
{
    match found {
        Some(checked) => {
            *answer = answer_with(&checked.report, checked.text.len() as u64);
            status_of(put(checked.text.as_slice(), findings))
        }
        None => {
            *answer = told(0, 0);
            UNFIT
        }
    }
}

/// The answer that has the numbers of the first fault.
fn answer_with(report: &Report, length: u64) -> Answer
    ensures { result ≡ answer_with report.now.first length }
{
    let Some(first) = &report.first else {
        return told(length, 0);
    };
    let numbers = numbers_of(&first.fault);
    Answer {
        length,
        second_length: 0,
        kind: numbers.kind,
        number: numbers.number,
        file: numbers.file,
        line: numbers.line,
    }
}
