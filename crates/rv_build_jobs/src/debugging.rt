//! Executables with names and lines for debuggers.
//!
//! They stand behind the executable, whose image stays what it is, and the map stays the same too. Names and lines are those of
//! the map, and labels, types and sizes those of the sources, or of the objects' symbol tables; paths of sources are as the words
//! name them, below the working directory, and those of objects as the objects name their sources.

use rv_assemble::{SourceFault, assemble};
use rv_chain::{Built, Fault, FileFault};
use rv_debug::{
    DebugFault, Described, Object, SourceFile, Tabled, debug_file, debug_file_of_tables, path_from,
    source_of, with_source,
};
use rv_marks::marks;
use rv_object_reader::read;
use rv_system::{JobError, ReadFault, System, fault_line};
use std::alloc::{AllocError, Global};

/// What was built of these objects, whose sources have these paths, with names and lines behind the executable; the lines
/// are those of the rows of another map, if one is given.
pub(crate) fn debugged<S: System>(
    system: &S,
    exe: &str,
    paths: &[Vec<u8>],
    objects: &[Described<'_>],
    lines: Option<&[u8]>,
    built: Built,
) -> Result<Built, JobError> {
    let alloc: Global = system.alloc();
    let directory = directory(system)?;
    let sources = source_files(alloc, paths)?;
    let file = debug_file(
        alloc,
        built.exe.as_slice(),
        lines.unwrap_or(built.map.as_slice()),
        objects,
        directory.as_bytes(),
        sources.as_slice(),
    );
    with_file(alloc, exe, file, built.map)
}

/// As [`debugged`], with the names that the objects' symbol tables have.
pub(crate) fn debugged_by_tables<S: System>(
    system: &S,
    exe: &str,
    paths: &[Vec<u8>],
    objects: &[Tabled<'_, '_>],
    lines: Option<&[u8]>,
    built: Built,
) -> Result<Built, JobError> {
    let alloc: Global = system.alloc();
    let directory = directory(system)?;
    let sources = source_files(alloc, paths)?;
    let file = debug_file_of_tables(
        alloc,
        built.exe.as_slice(),
        lines.unwrap_or(built.map.as_slice()),
        objects,
        directory.as_bytes(),
        sources.as_slice(),
    );
    with_file(alloc, exe, file, built.map)
}

/// What was built, as this file with names and lines.
fn with_file(
    alloc: Global,
    exe: &str,
    file: Result<Vec<u8>, DebugFault>,
    map: Vec<u8>,
) -> Result<Built, JobError> {
    match file {
        Ok(exe) => Ok(Built { exe, map }),
        Err(DebugFault::OutOfMemory) => Err(JobError::Memory),
        Err(fault) => Err(JobError::Line(format!(in alloc;
            "{exe}: no names and lines for debuggers: {fault}"
        )?)),
    }
}

/// The objects of sources that are built, with what their directives say.
pub(crate) fn source_objects<'s>(
    alloc: Global,
    names: &[&str],
    sources: &[&'s [u8]],
) -> Result<Vec<Described<'s>>, JobError> {
    let mut objects: Vec<Described<'s>> = Vec::new(alloc);
    let mut number: u32 = 0;
    for source in sources {
        number = number.saturating_add(1);
        match assemble(alloc, source) {
            Ok(object) => objects.push(Described {
                object,
                marks: marks(alloc, source)?,
            })?,
            Err(SourceFault::OutOfMemory) => return Err(JobError::Memory),
            Err(fault) => return Err(fault_line(alloc, &Fault::Source(number, fault), names)?),
        }
    }
    Ok(objects)
}

/// The objects of files that are linked.
pub(crate) fn file_objects<'f>(
    alloc: Global,
    names: &[&str],
    files: &[&'f [u8]],
) -> Result<Vec<Object<'f>>, JobError> {
    let mut objects: Vec<Object<'f>> = Vec::new(alloc);
    let mut number: u32 = 0;
    for file in files {
        number = number.saturating_add(1);
        match read(alloc, file) {
            Ok(object) => objects.push(object)?,
            Err(FileFault::OutOfMemory) => return Err(JobError::Memory),
            Err(fault) => return Err(fault_line(alloc, &Fault::File(number, fault), names)?),
        }
    }
    Ok(objects)
}

/// The working directory, by a name of its own where the system does not say it.
fn directory<S: System>(system: &S) -> Result<String, JobError> {
    match system.directory() {
        Ok(directory) => Ok(directory),
        Err(ReadFault::Failed) => Ok(String::from_str(system.alloc(), ".")?),
        Err(ReadFault::Memory) => Err(JobError::Memory),
    }
}

/// The sources, by their paths.
fn source_files(alloc: Global, paths: &[Vec<u8>]) -> Result<Vec<SourceFile<'_>>, AllocError> {
    let mut sources = Vec::new(alloc);
    for path in paths {
        sources.push(SourceFile {
            path: path.as_slice(),
        })?;
    }
    Ok(sources)
}

/// The paths of sources with these names.
pub(crate) fn paths_of_names(alloc: Global, names: &[&str]) -> Result<Vec<Vec<u8>>, AllocError> {
    let mut paths: Vec<Vec<u8>> = Vec::new(alloc);
    for name in names {
        paths.push(Vec::from_slice(alloc, name.as_bytes())?)?;
    }
    Ok(paths)
}

/// The paths of the sources of objects with these names: an object that names no source has its own.
pub(crate) fn paths_of_objects<S: System>(
    system: &S,
    names: &[&str],
    objects: &[&[u8]],
) -> Result<Vec<Vec<u8>>, JobError> {
    let alloc: Global = system.alloc();
    let directory = directory(system)?;
    let mut paths: Vec<Vec<u8>> = Vec::new(alloc);
    for (name, object) in names.iter().zip(objects.iter()) {
        let path = match source_of(alloc, object)? {
            Some(source) => path_from(alloc, directory.as_bytes(), &source)?,
            None => Vec::from_slice(alloc, name.as_bytes())?,
        };
        paths.push(path)?;
    }
    Ok(paths)
}

/// The file of an object with the name of its source, which was assembled in the working directory.
pub(crate) fn named_object<S: System>(
    system: &S,
    source: &str,
    object: &[u8],
) -> Result<Vec<u8>, JobError> {
    let alloc: Global = system.alloc();
    let directory = directory(system)?;
    match with_source(alloc, object, directory.as_bytes(), source.as_bytes()) {
        Ok(named) => Ok(named),
        Err(FileFault::OutOfMemory) => Err(JobError::Memory),
        Err(fault) => Err(JobError::Line(format!(in alloc;
            "{source}: no name for debuggers: {fault}"
        )?)),
    }
}
