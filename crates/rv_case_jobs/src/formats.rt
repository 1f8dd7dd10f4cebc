//! What came of cases, for people and as JSON.

use crate::failure::Failure;
use crate::running::Sum;
use rv_json::{number, put_line};
use serde_json::{Map, Value, put};
use std::alloc::{AllocError, Global};

/// Adds what is said of a case: for people nothing of one that passes.
pub(crate) fn put_case(
    alloc: Global,
    text: &mut Vec<u8>,
    name: &str,
    failure: Option<&Failure>,
    is_json: bool,
) -> Result<(), AllocError> {
    match failure {
        _ if is_json => put_case_as_json(alloc, text, name, failure),
        Some(failure) => put_failure(text, name, failure),
        None => Ok(()),
    }
}

/// Adds the lines of a case that fails; a message that begins with the case's name needs no other.
fn put_failure(text: &mut Vec<u8>, name: &str, failure: &Failure) -> Result<(), AllocError> {
    let message = failure.message.as_str();
    if !message.starts_with(name) {
        put_parts(text, &[name, ": "])?;
    }
    put_parts(text, &[message, "\n", failure.details.as_str()])
}

/// Adds texts, one after another.
fn put_parts(text: &mut Vec<u8>, parts: &[&str]) -> Result<(), AllocError> {
    for part in parts {
        text.extend_from_slice(part.as_bytes())?;
    }
    Ok(())
}

/// Adds a case as an object of JSON in a line.
fn put_case_as_json(
    alloc: Global,
    text: &mut Vec<u8>,
    name: &str,
    failure: Option<&Failure>,
) -> Result<(), AllocError> {
    let mut object = Map::new(alloc);
    put_members(alloc, &mut object, name, failure)?;
    put_line(alloc, text, &Value::Object(object))
}

/// Adds the name of a case, whether it passes, and what is said of one that fails.
fn put_members(
    alloc: Global,
    object: &mut Map<String, Value>,
    name: &str,
    failure: Option<&Failure>,
) -> Result<(), AllocError> {
    put(object, alloc, "passed", Value::Bool(failure.is_none()))?;
    put_text(alloc, object, "case", name)?;
    let Some(failure) = failure else {
        return Ok(());
    };
    put_text(alloc, object, "message", failure.message.as_str())?;
    put_text(alloc, object, "details", failure.details.as_str())
}

/// Adds a text as a member.
fn put_text(
    alloc: Global,
    object: &mut Map<String, Value>,
    name: &str,
    text: &str,
) -> Result<(), AllocError> {
    put(object, alloc, name, Value::try_from_str(alloc, text)?)
}

/// Adds the sum: as the last line of words, or an object of JSON in a line.
pub(crate) fn put_sum(
    alloc: Global,
    text: &mut Vec<u8>,
    sum: Sum,
    is_json: bool,
) -> Result<(), AllocError> {
    if is_json {
        return put_sum_as_json(alloc, text, sum);
    }
    let Sum { passed, failed } = sum;
    let line = format!(in alloc; "{passed} passed, {failed} failed\n")?;
    text.extend_from_slice(line.as_bytes())?;
    Ok(())
}

/// Adds the sum as an object of JSON in a line.
fn put_sum_as_json(alloc: Global, text: &mut Vec<u8>, sum: Sum) -> Result<(), AllocError> {
    let mut object = Map::new(alloc);
    put(&mut object, alloc, "passed", number(alloc, sum.passed)?)?;
    put(&mut object, alloc, "failed", number(alloc, sum.failed)?)?;
    put_line(alloc, text, &Value::Object(object))
}
