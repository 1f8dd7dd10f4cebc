//! Each call, from what is given to what is shown.

use crate::error::Failed;
use crate::given::{Call, Given};
use crate::library::{
    built, image_in, linked, listing, map_in, map_text, object_file, object_in, raw_listing,
    written,
};
use crate::marks::{mark, marked};
use crate::runs::{run_file, run_over_streams, step_machine};
use crate::shown::{show_built, show_file};
use std::alloc::Global;

/// Makes the call that is asked for, and shows what it answers.
pub(crate) fn answer(rt: &HostRuntime, given: &Given<'_>) -> Result<(), Failed> {
    match given.call {
        Call::Build => build_sources(rt, given),
        Call::LinkObjects => link_files(rt, given),
        Call::RunExec => run_file(rt, given),
        Call::RunIo => run_over_streams(rt, given),
        Call::Step => step_machine(rt, given),
        Call::Listing => list(rt, given),
        Call::RawListing => list_raw(rt, given),
        Call::ReadObject => read_object(rt, given),
        Call::WriteObject => write_object(rt, given),
        Call::ReadMap => read_map(rt, given),
        Call::WriteMap => write_map(rt, given),
    }
}

fn build_sources(rt: &HostRuntime, given: &Given<'_>) -> Result<(), Failed> {
    let alloc: Global = rt.alloc();
    let built = marked(rt, || built(alloc, given))?;
    show_built(rt, &built)
}

fn link_files(rt: &HostRuntime, given: &Given<'_>) -> Result<(), Failed> {
    let alloc: Global = rt.alloc();
    let mut files: Vec<Vec<u8>> = Vec::new(alloc);
    for source in &given.sources {
        files.push(object_file(alloc, source)?)?;
    }
    let mut objects: Vec<&[u8]> = Vec::new(alloc);
    for file in &files {
        objects.push(file.as_slice())?;
    }
    let built = marked(rt, || linked(alloc, objects.as_slice()))?;
    show_built(rt, &built)
}

fn list(rt: &HostRuntime, given: &Given<'_>) -> Result<(), Failed> {
    let alloc: Global = rt.alloc();
    let built = built(alloc, given)?;
    let image = image_in(alloc, built.exe.as_slice())?;
    let map = map_in(alloc, built.map.as_slice())?;
    let text = marked(rt, || listing(alloc, &image, &map))?;
    mark(rt, text.as_slice())
}

fn list_raw(rt: &HostRuntime, given: &Given<'_>) -> Result<(), Failed> {
    let alloc: Global = rt.alloc();
    let built = built(alloc, given)?;
    let image = image_in(alloc, built.exe.as_slice())?;
    let text = marked(rt, || raw_listing(alloc, &image))?;
    mark(rt, text.as_slice())
}

/// Reads the object of the first source, and shows its file.
fn read_object(rt: &HostRuntime, given: &Given<'_>) -> Result<(), Failed> {
    let alloc: Global = rt.alloc();
    let file = object_file(alloc, given.source()?)?;
    let object = marked(rt, || object_in(alloc, file.as_slice()))?;
    let again = written(alloc, &object)?;
    show_file(rt, again.as_slice())
}

/// Writes the object of the first source.
fn write_object(rt: &HostRuntime, given: &Given<'_>) -> Result<(), Failed> {
    let alloc: Global = rt.alloc();
    let file = object_file(alloc, given.source()?)?;
    let object = object_in(alloc, file.as_slice())?;
    let again = marked(rt, || written(alloc, &object))?;
    show_file(rt, again.as_slice())
}

/// Reads the map of the sources, and shows its text.
fn read_map(rt: &HostRuntime, given: &Given<'_>) -> Result<(), Failed> {
    let alloc: Global = rt.alloc();
    let built = built(alloc, given)?;
    let map = marked(rt, || map_in(alloc, built.map.as_slice()))?;
    let again = map_text(alloc, &map)?;
    mark(rt, again.as_slice())
}

fn write_map(rt: &HostRuntime, given: &Given<'_>) -> Result<(), Failed> {
    let alloc: Global = rt.alloc();
    let built = built(alloc, given)?;
    let map = map_in(alloc, built.map.as_slice())?;
    let again = marked(rt, || map_text(alloc, &map))?;
    mark(rt, again.as_slice())
}
