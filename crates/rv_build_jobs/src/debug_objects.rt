//! Objects of sources for debuggers, with what their sections refer to that are not loaded.
//!
//! The language keeps no references of such sections. So a source that has some is assembled as if they were loaded, and the
//! object loses that again, by the object of the source itself (`rv_debug_sources`). A fault is always one of the source: where
//! the changed one is refused, these sections stay without references, and a line says so.
//!
//! A build loads what the sources are without their lines (`plain_source`). Its changed ones give the addresses of their symbols and debug sections
//! alone, so what these refer to cannot change the image, nor ask archives for a member.

use crate::building::{assembled, without_relaxation};
use crate::debugging::named_object;
use crate::refusing::refused_sources;
use rv_assemble::{SourceFault, assemble};
use rv_chain::Fault;
use rv_debug_sources::{changed_source, plain_source, unloaded, without_unloaded_rows};
use rv_fault::FileFault;
use rv_job::default_options;
use rv_marks::{Mark, marks};
use rv_object_reader::read;
use rv_object_types::{Object, Section};
use rv_object_writer::write;
use rv_system::{JobError, System, fault_line};
use rv_typed_objects::typed;
use std::alloc::{AllocError, Global};

/// The file of the object of a source of this name, which it has in it, with what all its sections refer to.
pub(crate) fn object_for_debuggers<S: System>(
    system: &mut S,
    name: &str,
    text: &[u8],
    relax: bool,
    explains: bool,
) -> Result<Vec<u8>, JobError> {
    let alloc: Global = system.alloc();
    let Some(changed) = changed_source(alloc, text)? else {
        let file = assembled(system, name, text, relax, explains)?;
        let named = named_object(system, name, file.as_slice())?;
        let text = assembled_text(alloc, text, relax)?;
        return typed_object(alloc, name, named.as_slice(), text.as_slice());
    };
    let plain = plain_text(alloc, text)?;
    let own_text = assembled_text(alloc, plain.as_slice(), relax)?;
    let own = own_object(
        system,
        name,
        plain.as_slice(),
        own_text.as_slice(),
        explains,
    )?;
    let changed = assembled_text(alloc, changed.as_slice(), relax)?;
    match loaded_object(alloc, changed.as_slice(), own.sections.as_slice()) {
        Ok(file) => {
            // (what writes the name reads no relocations of sections that are not loaded)
            let named = named_object(system, name, file.as_slice())?;
            let file = unloaded_object(alloc, name, named.as_slice(), own.sections.as_slice())?;
            typed_object(alloc, name, file.as_slice(), changed.as_slice())
        }
        Err(SourceFault::OutOfMemory) => Err(JobError::Memory),
        Err(fault) => {
            warn_of_plain(system, name, fault)?;
            let file = write(alloc, &own)?;
            let named = named_object(system, name, file.as_slice())?;
            typed_object(alloc, name, named.as_slice(), own_text.as_slice())
        }
    }
}

/// The text as which a source is assembled, whose calls may be shortened or not.
fn assembled_text(alloc: Global, source: &[u8], relax: bool) -> Result<Vec<u8>, AllocError> {
    if relax {
        return Vec::from_slice(alloc, source);
    }
    without_relaxation(alloc, source)
}

/// The object of a source of this name, without its lines, which is assembled as this text.
fn own_object<'t, S: System>(
    system: &S,
    name: &str,
    source: &[u8],
    text: &'t [u8],
    explains: bool,
) -> Result<Object<'t>, JobError> {
    match assemble(system.alloc(), text) {
        Ok(object) => Ok(object),
        Err(SourceFault::OutOfMemory) => Err(JobError::Memory),
        Err(fault) => Err(refused_sources(
            system,
            &Fault::Source(1, fault),
            &[name],
            &[source],
            default_options(),
            explains,
        )?),
    }
}

/// The files of the objects of sources that were built, with what their sections refer to; none where no source has lines, or
/// sections that are not loaded. The names of the sources stand in front of any others.
pub(crate) fn objects_of_sources<S: System>(
    system: &mut S,
    names: &[&str],
    sources: &[&[u8]],
) -> Result<Vec<Vec<u8>>, JobError> {
    let alloc: Global = system.alloc();
    let mut files: Vec<Vec<u8>> = Vec::new(alloc);
    if !is_any_changed(alloc, sources)? {
        return Ok(files);
    }
    for (name, source) in names.iter().zip(sources.iter()) {
        files.push(object_for_debuggers(system, name, source, true, false)?)?;
    }
    Ok(files)
}

/// Sources without what says lines, which only debug sections have.
pub(crate) fn plain_texts(alloc: Global, sources: &[&[u8]]) -> Result<Vec<Vec<u8>>, AllocError> {
    let mut texts: Vec<Vec<u8>> = Vec::new(alloc);
    for source in sources {
        texts.push(plain_text(alloc, source)?)?;
    }
    Ok(texts)
}

/// A source without what says lines.
fn plain_text(alloc: Global, source: &[u8]) -> Result<Vec<u8>, AllocError> {
    match plain_source(alloc, source)? {
        Some(plain) => Ok(plain),
        None => Vec::from_slice(alloc, source),
    }
}

/// Whether one of these sources has lines, or sections that are not loaded.
fn is_any_changed(alloc: Global, sources: &[&[u8]]) -> Result<bool, AllocError> {
    for source in sources {
        if changed_source(alloc, source)?.is_some() {
            return Ok(true);
        }
    }
    Ok(false)
}

/// The file of the object of a changed source, all of whose sections are loaded, without the rows of those that are not so
/// among the source's own.
fn loaded_object(
    alloc: Global,
    changed: &[u8],
    own: &[Section<'_>],
) -> Result<Vec<u8>, SourceFault> {
    let object = assemble(alloc, changed)?;
    Ok(write(alloc, &without_unloaded_rows(object, own))?)
}

/// The file of an object, in which only sections are loaded that are so among those of the source.
fn unloaded_object(
    alloc: Global,
    source: &str,
    file: &[u8],
    own: &[Section<'_>],
) -> Result<Vec<u8>, JobError> {
    match unloaded(alloc, file, own) {
        Ok(object) => Ok(object),
        Err(FileFault::OutOfMemory) => Err(JobError::Memory),
        Err(fault) => Err(JobError::Line(format!(in alloc;
            "{source}: no sections that are not loaded: {fault}"
        )?)),
    }
}

/// The file of the object of this text, whose symbols have the types and the sizes that its directives say.
fn typed_object(
    alloc: Global,
    source: &str,
    file: &[u8],
    text: &[u8],
) -> Result<Vec<u8>, JobError> {
    let marks = marks(alloc, text)?;
    match with_types(alloc, file, marks.as_slice()) {
        Ok(typed) => Ok(typed),
        Err(FileFault::OutOfMemory) => Err(JobError::Memory),
        Err(fault) => Err(JobError::Line(format!(in alloc;
            "{source}: no types and sizes: {fault}"
        )?)),
    }
}

/// The file of an object, with the types and the sizes that directives say.
fn with_types(alloc: Global, file: &[u8], marks: &[Mark<'_>]) -> Result<Vec<u8>, FileFault> {
    let object = read(alloc, file)?;
    typed(alloc, file, &object, marks)
}

/// Says that an object lacks what its sections refer to that are not loaded, by the fault of the changed source.
fn warn_of_plain<S: System>(
    system: &mut S,
    source: &str,
    fault: SourceFault,
) -> Result<(), JobError> {
    let alloc: Global = system.alloc();
    let why = fault_line(alloc, &Fault::Source(1, fault), &[source])?;
    let line = format!(in alloc;
        "warning: sections that are not loaded lack what they refer to: {why}"
    )?;
    system.tell(line.as_str());
    Ok(())
}
