//! A call: what a line asks for.

use crate::given::Given;
use crate::wanted::Wants;
use serde_json::{Map, Value};
use std::alloc::{AllocError, AllocFailed, Global};
use thiserror::Error;

/// Why a line asks for nothing.
#[derive(Debug, Drop, Error)]
pub(crate) enum CallError {
    #[error("the line is not JSON")]
    NotJson,
    #[error("a call is an object")]
    NoObject,
    #[error("a call has no member {0}")]
    UnknownMember(String),
    #[error("a call has either sources or an executable")]
    NoProgram,
    #[error("{0} is a list")]
    NoList(&'static str),
    #[error("{0} is a text, {{\"base64\": TEXT}} or {{\"file\": NAME}}")]
    NoBytes(&'static str),
    #[error("a source is a text, or an object with one of text, base64 and file, and a name or none")]
    NoSource,
    #[error("a limit is a number from 0 to 2^64 - 1")]
    NoLimit,
    #[error("what is wanted is console, end, count, map or faults")]
    UnknownWant,
    #[error("an executable has neither a map nor faults")]
    NoSources,
    #[error("out of memory")]
    Memory,
}

impl From<AllocError> for CallError {
    fn from(_: AllocError) -> Self {
        CallError::Memory
    }
}

impl<T: Drop> From<AllocFailed<T>> for CallError {
    fn from(_: AllocFailed<T>) -> Self {
        CallError::Memory
    }
}

/// A source of a call.
#[derive(Clone, Copy, Drop)]
pub(crate) struct GivenSource<'v> {
    /// What faults call it, where the call says so.
    pub name: Option<&'v str>,
    pub text: Given<'v>,
}

impl<'v> GivenSource<'v> {
    /// Reads a text, or an object with a text or what stands for it, and with a name where it has one.
    fn of(value: &'v Value) -> Result<GivenSource<'v>, CallError> {
        if let Some(text) = value.as_str() {
            return Ok(GivenSource {
                name: None,
                text: Given::Text(text),
            });
        }
        match value.as_object() {
            Some(object) => GivenSource::of_object(object),
            None => Err(CallError::NoSource),
        }
    }

    /// Reads an object with a text or what stands for it.
    fn of_object(object: &'v Map<String, Value>) -> Result<GivenSource<'v>, CallError> {
        let mut name = None;
        let mut given = None;
        for (member, value) in object.iter() {
            let Some(said) = value.as_str() else {
                return Err(CallError::NoSource);
            };
            match member.as_str() {
                "name" => name = Some(said),
                kind => set(&mut given, given_as(kind, said)?)?,
            }
        }
        match given {
            Some(text) => Ok(GivenSource { name, text }),
            None => Err(CallError::NoSource),
        }
    }
}

/// What a source is by a member of this name.
fn given_as<'v>(kind: &str, said: &'v str) -> Result<Given<'v>, CallError> {
    match kind {
        "text" => Ok(Given::Text(said)),
        "base64" => Ok(Given::Base64(said)),
        "file" => Ok(Given::File(said)),
        _ => Err(CallError::NoSource),
    }
}

/// Sets what a source is, which is one thing alone.
fn set<'v>(place: &mut Option<Given<'v>>, given: Given<'v>) -> Result<(), CallError> {
    if place.is_some() {
        return Err(CallError::NoSource);
    }
    *place = Some(given);
    Ok(())
}

/// What a call is of.
#[derive(Drop)]
pub(crate) enum Program<'v> {
    Sources(Vec<GivenSource<'v>>),
    Executable(Given<'v>),
}

/// What a line asks for.
#[derive(Drop)]
pub(crate) struct Call<'v> {
    pub program: Program<'v>,
    pub input: Given<'v>,
    pub limit: u64,
    pub wants: Wants,
}

/// The members of a call, as far as they are there.
#[derive(Drop)]
struct Members<'v> {
    program: Option<Program<'v>>,
    input: Given<'v>,
    limit: u64,
    wants: Wants,
}

impl<'v> Call<'v> {
    /// Reads an object; `limit` stands for what it does not say.
    pub(crate) fn of(
        alloc: Global,
        object: &'v Map<String, Value>,
        limit: u64,
    ) -> Result<Call<'v>, CallError> {
        let Members {
            program,
            input,
            limit,
            wants,
        } = Members::of(alloc, object, limit)?;
        let Some(program) = program else {
            return Err(CallError::NoProgram);
        };
        if matches!(program, Program::Executable(_)) && (wants.map || wants.faults) {
            return Err(CallError::NoSources);
        }
        Ok(Call {
            program,
            input,
            limit,
            wants,
        })
    }
}

impl<'v> Members<'v> {
    /// Those of an object; `limit` stands for what it does not say.
    fn of(
        alloc: Global,
        object: &'v Map<String, Value>,
        limit: u64,
    ) -> Result<Members<'v>, CallError> {
        let mut members = Members {
            program: None,
            input: Given::Text(""),
            limit,
            wants: Wants::default_wants(),
        };
        for (name, value) in object.iter() {
            members.add(alloc, name.as_str(), value)?;
        }
        Ok(members)
    }

    /// Adds a member.
    fn add(&mut self, alloc: Global, name: &str, value: &'v Value) -> Result<(), CallError> {
        match name {
            "id" => Ok(()),
            "sources" => self.set_program(Program::Sources(sources(alloc, value)?)),
            "executable" => {
                self.set_program(Program::Executable(Given::of(value, "an executable")?))
            }
            "input" => {
                self.input = Given::of(value, "an input")?;
                Ok(())
            }
            "limit" => self.set_limit(value),
            "want" => {
                self.wants = Wants::of(value)?;
                Ok(())
            }
            _ => Err(CallError::UnknownMember(String::from_str(alloc, name)?)),
        }
    }

    /// Sets what the call is of, which is one thing alone.
    fn set_program(&mut self, program: Program<'v>) -> Result<(), CallError> {
        if self.program.is_some() {
            return Err(CallError::NoProgram);
        }
        self.program = Some(program);
        Ok(())
    }

    fn set_limit(&mut self, value: &Value) -> Result<(), CallError> {
        match value.as_u64() {
            Some(limit) => {
                self.limit = limit;
                Ok(())
            }
            None => Err(CallError::NoLimit),
        }
    }
}

/// The sources of a list.
fn sources<'v>(alloc: Global, value: &'v Value) -> Result<Vec<GivenSource<'v>>, CallError> {
    let Some(list) = value.as_array() else {
        return Err(CallError::NoList("sources"));
    };
    let mut sources = Vec::new(alloc);
    for source in list {
        sources.push(GivenSource::of(source)?)?;
    }
    Ok(sources)
}
