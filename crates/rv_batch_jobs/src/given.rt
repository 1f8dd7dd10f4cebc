//! Bytes of a call: a text, or what stands for bytes that are no text.

use crate::call::CallError;
use base64::DecodeAllocError;
use base64::engine::general_purpose::STANDARD;
use rv_system::{JobError, System, file_bytes};
use serde_json::{Value, json};
use std::alloc::{AllocError, Global};
use std::str::from_utf8;

/// Bytes as a call gives them.
#[derive(Clone, Copy, Drop)]
pub(crate) enum Given<'v> {
    /// A text: its bytes in UTF-8.
    Text(&'v str),
    /// `{"base64": TEXT}`.
    Base64(&'v str),
    /// `{"file": NAME}`.
    File(&'v str),
}

/// The bytes themselves.
#[derive(Drop)]
pub(crate) enum Held<'v> {
    Lent(&'v [u8]),
    Own(Vec<u8>),
}

impl Held<'_> {
    pub(crate) fn as_slice(&self) -> &[u8] {
        match self {
            Held::Lent(bytes) => bytes,
            Held::Own(bytes) => bytes.as_slice(),
        }
    }
}

impl<'v> Given<'v> {
    /// Reads what a value of this member says.
    pub(crate) fn of(value: &'v Value, member: &'static str) -> Result<Given<'v>, CallError> {
        if let Some(text) = value.as_str() {
            return Ok(Given::Text(text));
        }
        let Some((name, text)) = only_member(value) else {
            return Err(CallError::NoBytes(member));
        };
        match name {
            "base64" => Ok(Given::Base64(text)),
            "file" => Ok(Given::File(text)),
            _ => Err(CallError::NoBytes(member)),
        }
    }

    /// The bytes that it stands for.
    pub(crate) fn held<S: System>(&self, system: &mut S) -> Result<Held<'v>, JobError> {
        match self {
            Given::Text(text) => Ok(Held::Lent(text.as_bytes())),
            Given::Base64(text) => Ok(Held::Own(decoded(system.alloc(), text)?)),
            Given::File(name) => Ok(Held::Own(file_bytes(system, name)?)),
        }
    }
}

/// The name and the text of an object's one member.
fn only_member<'v>(value: &'v Value) -> Option<(&'v str, &'v str)> {
    let object = value.as_object()?;
    if object.len() != 1 {
        return None;
    }
    let (name, text) = object.iter().next()?;
    Some((name.as_str(), text.as_str()?))
}

/// The bytes of a text in base64.
fn decoded(alloc: Global, text: &str) -> Result<Vec<u8>, JobError> {
    match STANDARD.decode(alloc, text.as_bytes()) {
        Ok(bytes) => Ok(bytes),
        Err(DecodeAllocError::OutOfMemory) => Err(JobError::Memory),
        Err(DecodeAllocError::DecodeError(_)) => {
            Err(JobError::Line("base64 is not well-formed".to_string(alloc)?))
        }
    }
}

/// Bytes as an answer gives them: a text where they are UTF-8, else base64.
pub(crate) fn value_of(alloc: Global, bytes: &[u8]) -> Result<Value, AllocError> {
    if let Ok(text) = from_utf8(bytes) {
        return Value::try_from_str(alloc, text);
    }
    let text = STANDARD.encode(alloc, bytes)?;
    json!(in alloc; { "base64": &text })
}
