//! The members of an answer.

use rv_chain::GroundOptions;
use rv_check::{Finding, Report, check};
use rv_guests::end_line;
use rv_machine::End;
use rv_source_jobs::finding_value;
use rv_system::{JobError, fault_line};
use serde_json::{Map, Value, push, put};
use std::alloc::{AllocError, Global};

/// Adds how a run ended: the name of the end, and its status or its address, in hexadecimal.
pub(crate) fn put_end(
    alloc: Global,
    members: &mut Map<String, Value>,
    end: &End,
) -> Result<(), AllocError> {
    let mut told = Map::new(alloc);
    put_end_members(alloc, &mut told, end)?;
    put(members, alloc, "end", Value::Object(told))
}

/// Adds the name of an end, and its status or its address.
fn put_end_members(
    alloc: Global,
    told: &mut Map<String, Value>,
    end: &End,
) -> Result<(), AllocError> {
    put_text(alloc, told, "name", end.name())?;
    match (end, end.address()) {
        (End::Exited(status), _) => put(told, alloc, "status", Value::from(u64::from(*status))),
        (_, Some(address)) => {
            let address = format!(in alloc; "{address:x}")?;
            put_text(alloc, told, "address", address.as_str())
        }
        (_, None) => Ok(()),
    }
}

/// Adds the line of a run that did not exit.
pub(crate) fn put_end_line(
    alloc: Global,
    members: &mut Map<String, Value>,
    end: &End,
) -> Result<(), AllocError> {
    match end {
        End::Exited(_) => Ok(()),
        _ => put_text(alloc, members, "error", end_line(end).as_str()),
    }
}

/// Adds all that is wrong with sources, and what may be.
pub(crate) fn put_faults(
    alloc: Global,
    members: &mut Map<String, Value>,
    names: &[&str],
    sources: &[&[u8]],
    options: GroundOptions,
) -> Result<(), JobError> {
    match check(alloc, names, sources, options) {
        Ok(report) => put_report(alloc, members, names, &report),
        Err(fault) => Err(fault_line(alloc, &fault, names)?),
    }
}

/// Adds the findings of a report.
fn put_report(
    alloc: Global,
    members: &mut Map<String, Value>,
    names: &[&str],
    report: &Report,
) -> Result<(), JobError> {
    let findings = findings(alloc, names, report)?;
    Ok(put(members, alloc, "faults", findings)?)
}

/// The findings of a report, as a list of JSON.
fn findings(alloc: Global, names: &[&str], report: &Report) -> Result<Value, AllocError> {
    let mut findings = Vec::new(alloc);
    put_findings(alloc, &mut findings, names, report)?;
    Ok(Value::Array(findings))
}

/// Adds the findings of a report, the faults first.
fn put_findings(
    alloc: Global,
    findings: &mut Vec<Value>,
    names: &[&str],
    report: &Report,
) -> Result<(), AllocError> {
    if let Some(first) = &report.first {
        put_finding(alloc, findings, names, first)?;
    }
    for other in &report.others {
        put_finding(alloc, findings, names, other)?;
    }
    put_warnings(alloc, findings, names, report)
}

/// Adds a finding.
fn put_finding(
    alloc: Global,
    findings: &mut Vec<Value>,
    names: &[&str],
    finding: &Finding,
) -> Result<(), AllocError> {
    let value = finding_value(alloc, names, Some(&finding.fault), &finding.remark)?;
    push(findings, value)
}

/// Adds the warnings of a report.
fn put_warnings(
    alloc: Global,
    findings: &mut Vec<Value>,
    names: &[&str],
    report: &Report,
) -> Result<(), AllocError> {
    for warning in &report.warnings {
        push(findings, finding_value(alloc, names, None, warning)?)?;
    }
    Ok(())
}

/// Adds a text.
pub(crate) fn put_text(
    alloc: Global,
    members: &mut Map<String, Value>,
    name: &str,
    text: &str,
) -> Result<(), AllocError> {
    put(members, alloc, name, Value::try_from_str(alloc, text)?)
}
