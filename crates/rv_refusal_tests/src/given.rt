//! What is asked for.

use crate::error::Failed;
use std::alloc::Global;

/// What is called.
#[derive(Clone, Copy)]
pub(crate) enum Call {
    Build,
    LinkObjects,
    RunExec,
    RunIo,
    Step,
    Listing,
    RawListing,
    ReadObject,
    WriteObject,
    ReadMap,
    WriteMap,
}

/// By their names. (A `match` of names would be hundreds of blocks of code, each of them proved.)
static CALLS: [(&[u8], Call); 11] = [
    (b"build", Call::Build),
    (b"link_objects", Call::LinkObjects),
    (b"run_exec", Call::RunExec),
    (b"run_io", Call::RunIo),
    (b"step", Call::Step),
    (b"listing", Call::Listing),
    (b"raw_listing", Call::RawListing),
    (b"read_object", Call::ReadObject),
    (b"write_object", Call::WriteObject),
    (b"read_map", Call::ReadMap),
    (b"write_map", Call::WriteMap),
];

impl Call {
    fn named(name: &[u8]) -> Result<Self, Failed> {
        for (known, call) in &CALLS {
            if *known == name {
                return Ok(*call);
            }
        }
        Err(Failed::NoAnswer)
    }
}

/// A call, and what it is made of.
#[derive(Drop)]
pub(crate) struct Given<'a> {
    pub(crate) call: Call,
    /// The guest's input.
    pub(crate) input: &'a [u8],
    pub(crate) sources: Vec<&'a [u8]>,
}

impl<'a> Given<'a> {
    /// What lines ask for.
    pub(crate) fn read(alloc: Global, asked: &'a [u8]) -> Result<Self, Failed> {
        let mut lines = asked.split(|byte| *byte == b'\n');
        let (Some(name), Some(input)) = (lines.next(), lines.next()) else {
            return Err(Failed::NoAnswer);
        };
        let call = Call::named(name)?;
        let mut sources = Vec::new(alloc);
        for source in lines {
            if !source.is_empty() {
                sources.push(source)?;
            }
        }
        Ok(Given {
            call,
            input,
            sources,
        })
    }

    /// The first source.
    pub(crate) fn source(&self) -> Result<&'a [u8], Failed> {
        match self.sources.first() {
            Some(source) => Ok(*source),
            None => Err(Failed::NoAnswer),
        }
    }
}
