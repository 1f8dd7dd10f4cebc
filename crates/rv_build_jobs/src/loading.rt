//! The programs of runs that are looked at, as the words name them.
//!
//! Sources are built with their map; an executable has the map that the words name for it, if any, and its sources stand
//! behind it. One without a map is kept whole, for its own tables.

use crate::building::built;
use crate::refusing::program_image;
use rv_chain::Built;
use rv_image::Image;
use rv_job::{Asked, default_options};
use rv_system::{JobError, System, borrowed, check_fit, file_bytes, given_bytes, image_in, map_in};
use rv_watched_jobs::{KnownSource, check_sources};
use std::alloc::{AllocError, Global};

/// Whether a file is an executable or an object, and no source.
pub(crate) fn is_elf(bytes: &[u8]) -> bool {
    bytes.starts_with(b"\x7fELF")
}

/// Reads a program, and builds it where it is of sources.
#[inline(never)]
pub fn load_program<S: System>(
    system: &mut S,
    asked: &Asked<'_>,
) -> Result<(KnownSource, Image), JobError> {
    let alloc: Global = system.alloc();
    let early = if asked.map_first {
        map_text(system, asked)?
    } else {
        None
    };
    let first = given_bytes(system, asked.file)?;
    let mut read = given_files(system, asked.others.as_slice())?;
    let given = match early {
        Some(text) => Some(text),
        None => map_text(system, asked)?,
    };
    if is_elf(first.as_slice()) && (read.is_empty() || given.is_some()) {
        return given_program(system, asked, given, first, read);
    }
    let names = asked.names(alloc)?;
    read.insert(0, first)?;
    refuse_elf(alloc, names.as_slice(), read.as_slice())?;
    built_program(system, asked, names.as_slice(), read)
}

/// An executable as a program, with the map of this text, if there is one, and the sources behind it.
fn given_program<S: System>(
    system: &S,
    asked: &Asked<'_>,
    given: Option<Vec<u8>>,
    exe: Vec<u8>,
    sources: Vec<Vec<u8>>,
) -> Result<(KnownSource, Image), JobError> {
    let alloc: Global = system.alloc();
    let Some(text) = given else {
        let image = program_image(system, asked, exe.as_slice())?;
        let program = KnownSource {
            map: None,
            sources,
            exe,
        };
        return Ok((program, image));
    };
    let name = asked.map.unwrap_or("-");
    let map = map_in(alloc, name, text.as_slice())?;
    let image = program_image(system, asked, exe.as_slice())?;
    check_fit(alloc, name, &map, asked.file, &image)?;
    check_sources(alloc, asked, &map, sources.as_slice())?;
    let program = KnownSource {
        map: Some(map),
        sources,
        exe: Vec::new(alloc),
    };
    Ok((program, image))
}

/// Sources as a program, with its map.
fn built_program<S: System>(
    system: &S,
    asked: &Asked<'_>,
    names: &[&str],
    read: Vec<Vec<u8>>,
) -> Result<(KnownSource, Image), JobError> {
    let alloc: Global = system.alloc();
    let built = built_of(system, asked, names, read.as_slice())?;
    let map = map_in(alloc, asked.file, built.map.as_slice())?;
    let image = image_in(alloc, asked.file, built.exe.as_slice())?;
    let program = KnownSource {
        map: Some(map),
        sources: read,
        exe: Vec::new(alloc),
    };
    Ok((program, image))
}

/// What sources build.
fn built_of<S: System>(
    system: &S,
    asked: &Asked<'_>,
    names: &[&str],
    read: &[Vec<u8>],
) -> Result<Built, JobError> {
    let sources = borrowed(system.alloc(), read)?;
    built(
        system,
        names,
        sources.as_slice(),
        default_options(),
        asked.explains,
    )
}

/// The bytes of several sources, in their order.
pub(crate) fn given_sources<S: System>(
    system: &mut S,
    names: &[&str],
) -> Result<Vec<Vec<u8>>, JobError> {
    let read = given_files(system, names)?;
    refuse_elf(system.alloc(), names, read.as_slice())?;
    Ok(read)
}

/// The bytes of files, in their order; `-` is standard input.
fn given_files<S: System>(system: &mut S, names: &[&str]) -> Result<Vec<Vec<u8>>, JobError> {
    let mut read: Vec<Vec<u8>> = Vec::new(system.alloc());
    for name in names {
        read.push(given_bytes(system, name)?)?;
    }
    Ok(read)
}

/// Refuses the first of several files that is no source.
fn refuse_elf(alloc: Global, names: &[&str], read: &[Vec<u8>]) -> Result<(), JobError> {
    for (name, bytes) in names.iter().zip(read.iter()) {
        if is_elf(bytes.as_slice()) {
            return Err(no_source(alloc, name)?);
        }
    }
    Ok(())
}

/// The line of a file that stands among sources and is none.
fn no_source(alloc: Global, name: &str) -> Result<JobError, AllocError> {
    let line = format!(in alloc; "{name}: not a source, as each of several files has to be")?;
    Ok(JobError::Line(line))
}

/// The text of the map that the words name.
fn map_text<S: System>(system: &mut S, asked: &Asked<'_>) -> Result<Option<Vec<u8>>, JobError> {
    match asked.map {
        Some(name) => Ok(Some(file_bytes(system, name)?)),
        None => Ok(None),
    }
}
