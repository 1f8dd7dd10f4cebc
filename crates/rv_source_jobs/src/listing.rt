//! Sources with what they become: each line with its address and its bytes.

use rv_chain::{GroundOptions, build_on};
use rv_debug_sources::plain_source;
use rv_image::Image;
use rv_list::{ROWS, Source, SourceLines};
use rv_map::Map;
use rv_system::{
    JobError, System, borrowed, fault_line, files_bytes, has_escape, image_in, map_in, print_parts,
};
use std::alloc::{AllocError, Global};

/// How sources are listed.
#[derive(Clone, Copy, Drop)]
pub struct ListStyle {
    /// All bytes of a line, and not the first rows alone.
    pub all: bool,
    /// Sources may have what only debug sections have, as GCC's with `-g`: the lines of C stand in them as `.loc`.
    pub debug: bool,
}

/// Builds sources and prints their lines; the exit status.
#[inline(never)]
pub fn list<S: System>(
    system: &mut S,
    names: &[&str],
    options: GroundOptions,
    style: ListStyle,
) -> Result<u8, JobError> {
    let read = files_bytes(system, names)?;
    if !style.debug {
        return print_lines(system, names, &read, &read, options, style.all);
    }
    let plain = plain_sources(system.alloc(), &read)?;
    print_lines(system, names, &read, &plain, options, style.all)
}

/// Sources without what only debug sections have, in which lines have the same numbers.
fn plain_sources(alloc: Global, read: &[Vec<u8>]) -> Result<Vec<Vec<u8>>, AllocError> {
    let mut plain = Vec::new(alloc);
    for text in read {
        plain.push(match plain_source(alloc, text)? {
            Some(plain) => plain,
            None => Vec::from_slice(alloc, text)?,
        })?;
    }
    Ok(plain)
}

/// Builds what sources that were read are built as, and prints their lines; the exit status.
fn print_lines<S: System>(
    system: &mut S,
    names: &[&str],
    read: &[Vec<u8>],
    built: &[Vec<u8>],
    options: GroundOptions,
    all: bool,
) -> Result<u8, JobError> {
    let alloc: Global = system.alloc();
    let built = borrowed(alloc, built)?;
    let (map, image) = program(alloc, names, built.as_slice(), options)?;
    let texts = borrowed(alloc, read)?;
    let sources = named(alloc, names, texts.as_slice())?;
    let rows = if all { usize::MAX } else { ROWS };
    print_sources(system, sources.as_slice(), &map, &image, rows)
}

/// Prints the lines of sources, with so many rows a line; the exit status.
fn print_sources<S: System>(
    system: &mut S,
    sources: &[Source<'_, '_>],
    map: &Map,
    image: &Image,
    rows: usize,
) -> Result<u8, JobError> {
    let mut lines = SourceLines::new(system.alloc(), sources, map, image, rows)?;
    let in_colours = !have_escape(sources);
    print_parts(system, in_colours, |text| lines.next(text))?;
    Ok(0)
}

/// The map and the image of what sources are built into.
fn program(
    alloc: Global,
    names: &[&str],
    texts: &[&[u8]],
    options: GroundOptions,
) -> Result<(Map, Image), JobError> {
    let built = match build_on(alloc, texts, options) {
        Ok(built) => built,
        Err(fault) => return Err(fault_line(alloc, &fault, names)?),
    };
    let first = names.first().copied().unwrap_or("");
    let map = map_in(alloc, first, built.map.as_slice())?;
    let image = image_in(alloc, first, built.exe.as_slice())?;
    Ok((map, image))
}

/// Whether the lines of sources have an escape.
fn have_escape(sources: &[Source<'_, '_>]) -> bool {
    sources.iter().any(|source| has_escape(source.name.as_bytes()) || has_escape(source.text))
}

/// The sources with their names.
fn named<'n, 't>(
    alloc: Global,
    names: &[&'n str],
    texts: &[&'t [u8]],
) -> Result<Vec<Source<'n, 't>>, AllocError> {
    let mut sources = Vec::new(alloc);
    for (name, text) in names.iter().zip(texts) {
        sources.push(Source { name, text })?;
    }
    Ok(sources)
}
