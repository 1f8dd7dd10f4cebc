//! The calls of the library, each in one function. No clause says what they promise, since nothing here rests on it; and
//! so the proofs of what calls these functions stay short.

use crate::error::Failed;
use crate::given::Given;
use rv_chain::{
    Built, End, LinkOptions, Outcome, assemble_object, build, build_exe, link_objects, run_exec,
};
use rv_image::{Image, load};
use rv_machine::Machine;
use rv_map::Map;
use rv_memory::Paged;
use rv_object_types::Object;
use std::alloc::Global;

/// With collection, which the commands of ./rv are tried without: the sources here have nothing that it drops.
fn options() -> LinkOptions {
    LinkOptions {
        text_start: 0x1_0000,
        relax: true,
        gc: true,
    }
}

pub(crate) fn built(alloc: Global, given: &Given<'_>) -> Result<Built, Failed> {
    Ok(build(alloc, given.sources.as_slice(), options())?)
}

pub(crate) fn executable(alloc: Global, given: &Given<'_>) -> Result<Vec<u8>, Failed> {
    Ok(build_exe(alloc, given.sources.as_slice(), options())?)
}

/// The file of the object of a source.
pub(crate) fn object_file(alloc: Global, source: &[u8]) -> Result<Vec<u8>, Failed> {
    Ok(assemble_object(alloc, source)?)
}

pub(crate) fn object_in<'a>(alloc: Global, file: &'a [u8]) -> Result<Object<'a>, Failed> {
    Ok(rv_object_reader::read(alloc, file)?)
}

pub(crate) fn written(alloc: Global, object: &Object<'_>) -> Result<Vec<u8>, Failed> {
    Ok(rv_object_writer::write(alloc, object)?)
}

pub(crate) fn linked(alloc: Global, objects: &[&[u8]]) -> Result<Built, Failed> {
    Ok(link_objects(alloc, objects, options())?)
}

pub(crate) fn outcome(
    alloc: Global,
    exe: &[u8],
    input: &[u8],
    limit: u64,
) -> Result<Outcome, Failed> {
    Ok(run_exec(alloc, exe, input, limit)?)
}

pub(crate) fn image_in(alloc: Global, exe: &[u8]) -> Result<Image, Failed> {
    Ok(load(alloc, exe)?)
}

/// A machine before its first step.
pub(crate) fn machine(alloc: Global, exe: &[u8], input: &[u8]) -> Result<Machine<Paged>, Failed> {
    let image = image_in(alloc, exe)?;
    let entry = image.entry;
    let memory = Paged::new(alloc, image)?;
    Ok(Machine::new(alloc, memory, entry, input)?)
}

pub(crate) fn step(machine: &mut Machine<Paged>) -> Result<Option<End>, Failed> {
    Ok(machine.step()?)
}

pub(crate) fn listing(alloc: Global, image: &Image, map: &Map) -> Result<Vec<u8>, Failed> {
    Ok(rv_disasm::listing(alloc, image, map)?)
}

/// The raw listing of an image that has one.
pub(crate) fn raw_listing(alloc: Global, image: &Image) -> Result<Vec<u8>, Failed> {
    match rv_disasm::raw_listing(alloc, image)? {
        Some(text) => Ok(text),
        None => Err(Failed::NoAnswer),
    }
}

/// The map that a text is of.
pub(crate) fn map_in(alloc: Global, text: &[u8]) -> Result<Map, Failed> {
    match rv_map::read(alloc, text)? {
        Some(map) => Ok(map),
        None => Err(Failed::NoAnswer),
    }
}

pub(crate) fn map_text(alloc: Global, map: &Map) -> Result<Vec<u8>, Failed> {
    Ok(rv_map::write(alloc, map)?)
}
