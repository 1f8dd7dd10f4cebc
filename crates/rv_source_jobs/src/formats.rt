//! Findings as programs read them: lines as compilers write them, which editors take, and JSON.

use rv_fault::{Fault, SourceFault};
use rv_fault_texts::Remark;
use rv_json::{number_or_null, text_or_null};
use serde_json::{Map, Value, put};
use std::alloc::{AllocError, Global};

/// A fault's code, as `E14`, its name, and the place where it stands, as far as they are known.
#[derive(Drop)]
struct Heading<'a> {
    file: Option<&'a str>,
    line: Option<u64>,
    column: Option<u64>,
    code: Option<String>,
    name: &'static str,
}

/// Adds a fault, or a warning, as GCC writes it: `FILE:LINE:COLUMN: error: SENTENCE [CODE]`.
pub(crate) fn put_line_of_compilers(
    alloc: Global,
    text: &mut String,
    names: &[&str],
    fault: Option<&Fault>,
    remark: &Remark,
) -> Result<(), AllocError> {
    let heading = heading_of(alloc, names, fault, remark)?;
    put_heading(
        alloc,
        text,
        &heading,
        severity(fault),
        message(&heading, remark),
    )
}

/// Adds the line of a heading, how grave it is and what is said of it.
fn put_heading<'a>(
    alloc: Global,
    text: &mut String,
    heading: &Heading<'_>,
    severity: &'a str,
    message: &'a str,
) -> Result<(), AllocError> {
    text.push_str(heading.file.unwrap_or("rv"))?;
    put_number(alloc, text, heading.line)?;
    put_number(alloc, text, heading.column)?;
    put_parts(text, &[": ", severity, ": ", message])?;
    match &heading.code {
        Some(code) => put_parts(text, &[" [", code.as_str(), "]\n"]),
        None => text.push_str("\n"),
    }
}

/// Adds a number behind a colon, if it is known.
fn put_number(alloc: Global, text: &mut String, known: Option<u64>) -> Result<(), AllocError> {
    let Some(number) = known else {
        return Ok(());
    };
    let added = format!(in alloc; ":{number}")?;
    text.push_str(added.as_str())
}

/// Adds texts, one after another.
pub(crate) fn put_parts(text: &mut String, parts: &[&str]) -> Result<(), AllocError> {
    for part in parts {
        text.push_str(part)?;
    }
    Ok(())
}

/// Adds a fault, or a warning, as an object of JSON in a line; what is not known of it is null.
pub(crate) fn put_json(
    alloc: Global,
    text: &mut String,
    names: &[&str],
    fault: Option<&Fault>,
    remark: &Remark,
) -> Result<(), AllocError> {
    let found = finding_value(alloc, names, fault, remark)?;
    put_line(alloc, text, &found)
}

/// Adds the line of a value.
fn put_line(alloc: Global, text: &mut String, value: &Value) -> Result<(), AllocError> {
    let line = value.to_string(alloc)?;
    put_parts(text, &[line.as_str(), "\n"])
}

/// A fault, or a warning, as an object of JSON; what is not known of it is null.
pub fn finding_value(
    alloc: Global,
    names: &[&str],
    fault: Option<&Fault>,
    remark: &Remark,
) -> Result<Value, AllocError> {
    let heading = heading_of(alloc, names, fault, remark)?;
    let message = message(&heading, remark);
    let mut finding = Map::new(alloc);
    put_finding(alloc, &mut finding, &heading, severity(fault), message)?;
    Ok(Value::Object(finding))
}

/// Adds a heading, how grave it is and what is said of it.
fn put_finding<'a>(
    alloc: Global,
    finding: &mut Map<String, Value>,
    heading: &'a Heading<'a>,
    severity: &'a str,
    message: &'a str,
) -> Result<(), AllocError> {
    put(finding, alloc, "line", number_or_null(alloc, heading.line)?)?;
    put(
        finding,
        alloc,
        "column",
        number_or_null(alloc, heading.column)?,
    )?;
    put_texts(
        alloc,
        finding,
        &[
            ("file", heading.file),
            ("severity", Some(severity)),
            ("code", heading.code.as_deref()),
            ("message", Some(message)),
        ],
    )
}

/// Adds members that are texts, as far as they are known.
fn put_texts(
    alloc: Global,
    finding: &mut Map<String, Value>,
    members: &[(&str, Option<&str>)],
) -> Result<(), AllocError> {
    for (name, text) in members {
        put(finding, alloc, name, text_or_null(alloc, *text)?)?;
    }
    Ok(())
}

/// How grave a finding is.
fn severity(fault: Option<&Fault>) -> &'static str {
    match fault {
        Some(_) => "error",
        None => "warning",
    }
}

/// What is said of a finding: its sentence, else the name of the fault.
fn message<'a>(heading: &Heading<'_>, remark: &'a Remark) -> &'a str {
    if remark.sentence.is_empty() {
        return heading.name;
    }
    remark.sentence.as_str()
}

/// What a finding is called, and where it stands.
fn heading_of<'a>(
    alloc: Global,
    names: &[&'a str],
    fault: Option<&Fault>,
    remark: &Remark,
) -> Result<Heading<'a>, AllocError> {
    let (letter, number, name) = match fault {
        Some(fault) => code_of(fault),
        None => ("", None, ""),
    };
    let code = match number {
        Some(number) => Some(format!(in alloc; "{letter}{number}")?),
        None => None,
    };
    let spot = spot_of(fault, remark);
    Ok(Heading {
        file: spot.file.and_then(|file| names.get(file).copied()),
        line: spot.line,
        column: spot.column,
        code,
        name,
    })
}

/// The letter, the number and the name of a fault's code.
fn code_of(fault: &Fault) -> (&'static str, Option<u32>, &'static str) {
    match fault {
        Fault::Source(_, SourceFault::At { code, .. }) => {
            ("E", Some(u32::from(code.number())), code.name())
        }
        Fault::Link(fault) => match fault.number() {
            Some(number) => ("L", Some(u32::from(number)), fault.name()),
            None => ("L", None, fault.name()),
        },
        Fault::File(_, fault) => ("F", fault.number(), fault.name()),
        _ => ("", None, "out of memory"),
    }
}

/// Where a finding stands, as far as that is known.
#[derive(Clone, Copy, Drop)]
struct KnownSpot {
    /// The index of its file, from 0.
    file: Option<usize>,
    line: Option<u64>,
    column: Option<u64>,
}

/// Where a finding stands.
fn spot_of(fault: Option<&Fault>, remark: &Remark) -> KnownSpot {
    if let Some(spot) = &remark.spot {
        return KnownSpot {
            file: Some(spot.file),
            line: Some(u64::from(spot.line)),
            column: Some(spot.column as u64),
        };
    }
    let (file, line) = match fault {
        Some(Fault::Source(file, SourceFault::At { line, .. })) => {
            (Some(*file), Some(u64::from(*line)))
        }
        Some(Fault::File(file, _)) => (Some(*file), None),
        _ => (None, None),
    };
    KnownSpot {
        file: match file {
            Some(file) => Some((file as usize).saturating_sub(1)),
            None => None,
        },
        line,
        column: None,
    }
}
