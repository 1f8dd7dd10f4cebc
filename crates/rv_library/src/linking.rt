//! From objects to an executable and its map.

ghost use Rattle.std.specs.Prelude.{map, IfOk, IfErr};
ghost use Rattle.rv_statement.specs.View.{now_of};
ghost use Rattle.rv_link_laws.specs.Ground.{usual};
ghost use Rattle.rv_chain.specs.LinkRefusals.{AreUnlinkable};
ghost use Rattle.rv_library.specs.Made.{GivesLink, IsLink, IsLinkage};

use crate::answers::{Answer, Made, give};
use crate::options::{are_known, has_map, options_of};
use crate::texts::texts_of;
use rv_chain::{link_objects, link_objects_exe};
use rv_fault::Fault;
use rv_link::LinkOptions;
use std::alloc::Global;

/// Links objects: `rv_ld` of `include/rv.h`.
#[unsafe(no_mangle)]
pub extern "C" fn rv_ld(
    alloc: Global,
    objects: &[u8],
    lengths: &[u64],
    text_start: u64,
    flags: u32,
    executable: &mut [u8],
    map: &mut [u8],
    answer: &mut Answer,
) -> u32
    // what is made, as `link_objects` and `link_objects_exe` promise it, and how it is given
    ensures { GivesLink objects.now lengths.now text_start flags
        result executable.old executable.new map.old map.new answer.new }
{
    let made = made_of_objects(alloc, objects, lengths, text_start, flags);
    give(alloc, made, executable, map, answer)
}

/// What objects are linked to; none where the arguments do not belong together.
fn made_of_objects(
    alloc: Global,
    objects: &[u8],
    lengths: &[u64],
    text_start: u64,
    flags: u32,
) -> Result<Option<Made>, Fault>
    ensures { IsLink objects.now lengths.now text_start flags result }
{
    if !are_known(flags) {
        return Ok(None);
    }
    let Some(files) = texts_of(alloc, objects, lengths)? else {
        return Ok(None);
    };
    let made = linked(
        alloc,
        files.as_slice(),
        options_of(text_start, flags),
        has_map(flags),
    )?;
    Ok(Some(made))
}

/// What objects are linked to, with the map where it is wanted.
fn linked(
    alloc: Global,
    files: &[&[u8]],
    options: LinkOptions,
    with_map: bool,
) -> Result<Made, Fault>
    ensures linked { IfOk result (IsLinkage (map now_of files.now)
        options.text_start options.relax options.gc with_map) }
    ensures refused { IfErr result (AreUnlinkable (map now_of files.now)
        (usual options.text_start) options.relax options.gc) }
{
    if with_map {
        let linked = link_objects(alloc, files, options)?;
        return Ok(Made {
            first: linked.exe,
            second: linked.map,
        });
    }
    let first = link_objects_exe(alloc, files, options)?;
    Ok(Made {
        first,
        second: Vec::new(alloc),
    })
}
