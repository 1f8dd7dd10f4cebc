//! From sources to a text that shows what their lines become.

ghost use Rattle.rv_library.specs.Texted.{GivesText};

use crate::answers::{Answer, Made, give};
use crate::options::{are_known, options_of};
use crate::texts::{names_of, texts_of};
use rv_chain::{Built, build};
use rv_fault::{Fault, FileFault};
use rv_image::{Image, load};
use rv_link::LinkOptions;
use rv_list::{Source, SourceLines};
use rv_map::{Map, read};
use std::alloc::{AllocError, Global};

/// Builds sources and lists their lines: `rv_list` of `include/rv.h`.
#[unsafe(no_mangle)]
pub extern "C" fn rv_list(
    alloc: Global,
    sources: &[u8],
    lengths: &[u64],
    names: &[u8],
    name_lengths: &[u64],
    text_start: u64,
    flags: u32,
    rows: u64,
    text: &mut [u8],
    answer: &mut Answer,
) -> u32
    // the text is tested, and how it is given is proved
    ensures { GivesText result text.old text.new answer.new }
{
    let made = listed(
        alloc,
        sources,
        lengths,
        names,
        name_lengths,
        text_start,
        flags,
        rows,
    );
    give(alloc, made, text, &mut [], answer)
}

/// The lines of sources; none where the arguments do not belong together.
fn listed(
    alloc: Global,
    sources: &[u8],
    lengths: &[u64],
    names: &[u8],
    name_lengths: &[u64],
    text_start: u64,
    flags: u32,
    rows: u64,
) -> Result<Option<Made>, Fault> {
    if !are_known(flags) {
        return Ok(None);
    }
    let Some(texts) = texts_of(alloc, sources, lengths)? else {
        return Ok(None);
    };
    let Some(names) = names_of(alloc, names, name_lengths)? else {
        return Ok(None);
    };
    let Some((map, image)) = program(alloc, texts.as_slice(), options_of(text_start, flags))? else {
        return Ok(None);
    };
    let sources = named(alloc, names.as_slice(), texts.as_slice())?;
    let first = lines_of(alloc, sources.as_slice(), &map, &image, rows)?;
    Ok(Some(Made {
        first,
        second: Vec::new(alloc),
    }))
}

/// The map and the image of what sources are built into. There is always a map, since it is read as it was written.
fn program(
    alloc: Global,
    texts: &[&[u8]],
    options: LinkOptions,
) -> Result<Option<(Map, Image)>, Fault> {
    let built = build(alloc, texts, options)?;
    let Some(map) = read(alloc, built.map.as_slice())? else {
        return Ok(None);
    };
    let image = image_of(alloc, &built)?;
    Ok(Some((map, image)))
}

/// The image of what was built.
fn image_of(alloc: Global, built: &Built) -> Result<Image, Fault> {
    match load(alloc, built.exe.as_slice()) {
        Ok(image) => Ok(image),
        Err(FileFault::OutOfMemory) => Err(Fault::Memory),
        Err(fault) => Err(Fault::File(1, fault)),
    }
}

/// The sources with their names; one without a name has an empty one.
fn named<'n, 't>(
    alloc: Global,
    names: &[&'n str],
    texts: &[&'t [u8]],
) -> Result<Vec<Source<'n, 't>>, AllocError> {
    let mut sources = Vec::new(alloc);
    for (index, text) in texts.iter().enumerate() {
        let name = names.get(index).copied().unwrap_or("");
        sources.push(Source { name, text })?;
    }
    Ok(sources)
}

/// The lines of sources, with so many rows a line.
fn lines_of(
    alloc: Global,
    sources: &[Source<'_, '_>],
    map: &Map,
    image: &Image,
    rows: u64,
) -> Result<Vec<u8>, AllocError> {
    let rows = rows.min(usize::MAX as u64) as usize;
    let mut lines = SourceLines::new(alloc, sources, map, image, rows)?;
    let mut text = Vec::new(alloc);
    for _ in 0..u64::MAX {
        if !lines.next(&mut text)? {
            break;
        }
    }
    Ok(text)
}
