//! The head of a source: the comment lines before its first other line, with the keys among them.

ghost use Rattle.std.specs.Prelude.{◌≡◌, ◌≢◌, Some, None, OnOk, OnErr};

use crate::escapes::unescaped;
use crate::fault::{CaseError, CaseFault};
use crate::keys::{HeadLine, Key};
use rv_numbers::{amount, decimal};
use std::alloc::{AllocError, AllocFailed, Global};
use std::str::from_utf8;

/// What the lines of a head say.
#[derive(Drop)]
pub(crate) struct Head {
    pub exit: Option<u8>,
    pub end: Option<Vec<u8>>,
    pub console: Option<Vec<u8>>,
    pub fault: Option<Vec<u8>>,
    /// The values of all lines of this key, one after the other.
    pub input: Option<Vec<u8>>,
    pub limit: Option<u64>,
    pub instructions: Option<u64>,
}

/// Why a line is refused.
#[derive(Drop)]
enum LineError {
    Wrong(CaseFault),
    Memory,
}

impl From<AllocError> for LineError {
    fn from(_: AllocError) -> Self {
        LineError::Memory
    }
}

impl<T: Drop> From<AllocFailed<T>> for LineError {
    fn from(_: AllocFailed<T>) -> Self {
        LineError::Memory
    }
}

impl Head {
    /// Reads the head of a source.
    pub(crate) fn of(alloc: Global, source: &[u8]) -> Result<Head, CaseError> {
        let mut head = Head {
            exit: None,
            end: None,
            console: None,
            fault: None,
            input: None,
            limit: None,
            instructions: None,
        };
        let mut is_over = false;
        for (index, line) in source.split(|byte| *byte == b'\n').enumerate() {
            is_over = is_over || !line.starts_with(b"#");
            if is_over && !line.trim_ascii().is_empty() && !line.starts_with(b"#") {
                break;
            }
            let said = line.strip_suffix(b"\r").unwrap_or(line);
            let added = if is_over {
                refuse_key(said)
            } else {
                head.add(alloc, said)
            };
            match added {
                Ok(()) => {}
                Err(LineError::Wrong(fault)) => {
                    return Err(CaseError::Wrong(Some((index as u64).saturating_add(1)), fault));
                }
                Err(LineError::Memory) => return Err(CaseError::Memory),
            }
        }
        Ok(head)
    }

    /// Adds what a line says.
    fn add(&mut self, alloc: Global, line: &[u8]) -> Result<(), LineError> {
        if line.starts_with(b"#---") {
            return Err(LineError::Wrong(CaseFault::SeveralSources));
        }
        match HeadLine::of(line) {
            HeadLine::Words => Ok(()),
            HeadLine::Unknown(name) => {
                let name = String::from_utf8_lossy(alloc, name)?;
                Err(LineError::Wrong(CaseFault::UnknownKey(name)))
            }
            HeadLine::Misplaced(key) => Err(LineError::Wrong(CaseFault::Misplaced(key.name()))),
            HeadLine::Value(Key::Input, value) => self.add_input(alloc, value),
            HeadLine::Value(key, value) => self.set(alloc, key, value),
        }
    }

    /// Adds a part of the input.
    fn add_input(&mut self, alloc: Global, value: &[u8]) -> Result<(), LineError> {
        if value.windows(2).any(|pair| pair == b"{{".as_slice()) {
            return Err(LineError::Wrong(CaseFault::Repeated));
        }
        let added = unescaped(alloc, value)?;
        match &mut self.input {
            Some(input) => input.extend_from_slice(added.as_slice())?,
            None => self.input = Some(added),
        }
        Ok(())
    }

    /// Sets the value of a key that may be given once.
    fn set(&mut self, alloc: Global, key: Key, value: &[u8]) -> Result<(), LineError> {
        match key {
            Key::Exit => put(&mut self.exit, status(value)?, key),
            Key::End => put(&mut self.end, Vec::from_slice(alloc, value)?, key),
            Key::Console => put(&mut self.console, unescaped(alloc, value)?, key),
            Key::Fault => put(&mut self.fault, Vec::from_slice(alloc, value)?, key),
            Key::Limit => put(&mut self.limit, number(key, value)?, key),
            Key::Instructions => put(&mut self.instructions, number(key, value)?, key),
            Key::Input => Ok(()),
        }
    }
}

/// Refuses a line behind the head, before the first that is neither empty nor a comment, where it has a key.
fn refuse_key(line: &[u8]) -> Result<(), LineError> {
    match HeadLine::of(line) {
        HeadLine::Value(key, _) | HeadLine::Misplaced(key) => {
            Err(LineError::Wrong(CaseFault::Behind(key.name())))
        }
        _ => Ok(()),
    }
}

/// Puts a value where none is.
fn put<T: Drop>(place: &mut Option<T>, value: T, key: Key) -> Result<(), LineError>
    ensures ok { OnOk result ((place.old ≡ None) × (place.new ≡ Some value)) }
    ensures err { OnErr result ((place.old ≢ None) × (place.new ≡ place.old)) }
{
    if place.is_some() {
        return Err(LineError::Wrong(CaseFault::Twice(key.name())));
    }
    *place = Some(value);
    Ok(())
}

/// The status of an exit.
fn status(value: &[u8]) -> Result<u8, LineError> {
    match status_in(value) {
        Some(status) => Ok(status),
        None => Err(LineError::Wrong(CaseFault::NoStatus)),
    }
}

/// The status that a text spells.
fn status_in(value: &[u8]) -> Option<u8> {
    u8::try_from(decimal(from_utf8(value).ok()?)?).ok()
}

/// The number of instructions of a key.
fn number(key: Key, value: &[u8]) -> Result<u64, LineError> {
    match amount_in(value) {
        Some(number) => Ok(number),
        None => Err(LineError::Wrong(CaseFault::NoAmount(key.name()))),
    }
}

/// The amount that a text spells.
fn amount_in(value: &[u8]) -> Option<u64> {
    amount(from_utf8(value).ok()?)
}
