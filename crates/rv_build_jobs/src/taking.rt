//! What a link takes of its files, with names that messages show.

use crate::files::LinkFile;
use crate::refusing::{Linked, refused_archive, refused_link};
use rv_chain::Fault;
use rv_inputs::{Form, Input, InputFault, TakenObject, taken_objects};
use rv_job::LinkSettings;
use rv_system::{JobError, System, shown_name};
use std::alloc::{AllocError, Global};

/// An object that is linked.
#[derive(Drop)]
pub(crate) struct LinkedObject<'f> {
    /// Its name, as messages show it: that of a member is `libc.a(strlen.o)`.
    pub(crate) name: String,
    pub(crate) bytes: &'f [u8],
}

/// The objects that a link takes of its files. Where no file is an archive these are the files as they stand.
pub(crate) fn objects_of<'f, S: System>(
    system: &S,
    files: &'f [LinkFile],
    settings: LinkSettings,
) -> Result<Vec<LinkedObject<'f>>, JobError> {
    let alloc: Global = system.alloc();
    if !files.iter().any(|file| matches!(file.form, Form::Archive)) {
        return Ok(all_objects(alloc, files)?);
    }
    let mut inputs = Vec::new(alloc);
    for file in files {
        inputs.push(Input {
            bytes: file.bytes.as_slice(),
            form: file.form,
            joins: file.joins,
        })?;
    }
    let names = file_names(alloc, files)?;
    match taken_objects(alloc, inputs.as_slice()) {
        Ok(taken) => Ok(named_objects(alloc, names.as_slice(), taken.as_slice())?),
        Err(fault) => Err(refused_input(system, names.as_slice(), &fault, settings)?),
    }
}

/// The names of files, in their order.
fn file_names(alloc: Global, files: &[LinkFile]) -> Result<Vec<&str>, AllocError> {
    let mut names: Vec<&str> = Vec::new(alloc);
    for file in files {
        names.push(file.name.as_str())?;
    }
    Ok(names)
}

/// The names of objects, in their order.
pub(crate) fn names_of<'t, 'f: 't>(
    alloc: Global,
    objects: &'t [LinkedObject<'f>],
) -> Result<Vec<&'t str>, AllocError> {
    let mut names: Vec<&'t str> = Vec::new(alloc);
    for object in objects {
        names.push(object.name.as_str())?;
    }
    Ok(names)
}

/// The bytes of objects, in their order.
pub(crate) fn bytes_of<'f>(
    alloc: Global,
    objects: &[LinkedObject<'f>],
) -> Result<Vec<&'f [u8]>, AllocError> {
    let mut bytes: Vec<&'f [u8]> = Vec::new(alloc);
    for object in objects {
        bytes.push(object.bytes)?;
    }
    Ok(bytes)
}

/// Files as objects.
fn all_objects<'f>(
    alloc: Global,
    files: &'f [LinkFile],
) -> Result<Vec<LinkedObject<'f>>, AllocError> {
    let mut objects = Vec::new(alloc);
    for file in files {
        objects.push(LinkedObject {
            name: String::from_str(alloc, file.name.as_str())?,
            bytes: file.bytes.as_slice(),
        })?;
    }
    Ok(objects)
}

/// What is taken of files with these names, with its own names.
fn named_objects<'f>(
    alloc: Global,
    files: &[&str],
    taken: &[TakenObject<'f>],
) -> Result<Vec<LinkedObject<'f>>, AllocError> {
    let mut objects = Vec::new(alloc);
    for object in taken {
        objects.push(LinkedObject {
            name: object_name(alloc, files, object)?,
            bytes: object.bytes,
        })?;
    }
    Ok(objects)
}

/// The name of an object: that of its file, or as `libc.a(strlen.o)`.
fn object_name(
    alloc: Global,
    files: &[&str],
    object: &TakenObject<'_>,
) -> Result<String, AllocError> {
    let file = name_of(files, object.file as u64);
    match object.member {
        Some(member) => {
            let member = shown_name(alloc, member)?;
            format!(in alloc; "{file}({member})")
        }
        None => String::from_str(alloc, file),
    }
}

/// The name of a file by its number, from 1.
pub(crate) fn name_of<'a>(names: &[&'a str], number: u64) -> &'a str {
    match usize::try_from(number.saturating_sub(1)) {
        Ok(index) => names.get(index).copied().unwrap_or(""),
        Err(_) => "",
    }
}

/// Why it is not known what is taken of files.
fn refused_input<S: System>(
    system: &S,
    files: &[&str],
    fault: &InputFault<'_>,
    settings: LinkSettings,
) -> Result<JobError, AllocError> {
    let alloc: Global = system.alloc();
    match fault {
        InputFault::Archive(file, fault) => {
            let name = name_of(files, *file as u64);
            refused_archive(system, name, *fault, settings.explains)
        }
        InputFault::Object(object, fault) => {
            let name = object_name(alloc, files, object)?;
            let (names, objects) = ([name.as_str()], [object.bytes]);
            let linked = Linked {
                names: &names,
                objects: &objects,
                sources: &[],
            };
            refused_link(system, &Fault::File(1, *fault), linked, settings)
        }
        InputFault::OutOfMemory => Ok(JobError::Memory),
    }
}
