//! From sources to an executable and its map.

ghost use Rattle.std.specs.Prelude.{map, IfOk, IfErr};
ghost use Rattle.rv_statement.specs.View.{now_of};
ghost use Rattle.rv_link_laws.specs.Ground.{usual};
ghost use Rattle.rv_chain.specs.Refusals.{IsRefusedFor};
ghost use Rattle.rv_library.specs.Made.{GivesBuild, IsBuild, IsBuilt};

use crate::answers::{Answer, Made, give};
use crate::options::{are_known, has_map, options_of};
use crate::texts::texts_of;
use rv_chain::{build, build_exe};
use rv_fault::Fault;
use rv_link::LinkOptions;
use std::alloc::Global;

/// Assembles and links sources: `rv_build` of `include/rv.h`.
#[unsafe(no_mangle)]
pub extern "C" fn rv_build(
    alloc: Global,
    sources: &[u8],
    lengths: &[u64],
    text_start: u64,
    flags: u32,
    executable: &mut [u8],
    map: &mut [u8],
    answer: &mut Answer,
) -> u32
    // what is made, as `build` and `build_exe` promise it, and how it is given
    ensures { GivesBuild sources.now lengths.now text_start flags
        result executable.old executable.new map.old map.new answer.new }
{
    let made = made_of_sources(alloc, sources, lengths, text_start, flags);
    give(alloc, made, executable, map, answer)
}

/// What sources are built into; none where the arguments do not belong together.
fn made_of_sources(
    alloc: Global,
    sources: &[u8],
    lengths: &[u64],
    text_start: u64,
    flags: u32,
) -> Result<Option<Made>, Fault>
    ensures { IsBuild sources.now lengths.now text_start flags result }
{
    if !are_known(flags) {
        return Ok(None);
    }
    let Some(texts) = texts_of(alloc, sources, lengths)? else {
        return Ok(None);
    };
    let made = built(
        alloc,
        texts.as_slice(),
        options_of(text_start, flags),
        has_map(flags),
    )?;
    Ok(Some(made))
}

/// What sources are built into, with the map where it is wanted.
fn built(
    alloc: Global,
    texts: &[&[u8]],
    options: LinkOptions,
    with_map: bool,
) -> Result<Made, Fault>
    ensures built { IfOk result (IsBuilt (map now_of texts.now)
        options.text_start options.relax options.gc with_map) }
    ensures refused { IfErr result (IsRefusedFor (map now_of texts.now)
        (usual options.text_start) options.relax options.gc) }
{
    if with_map {
        let built = build(alloc, texts, options)?;
        return Ok(Made {
            first: built.exe,
            second: built.map,
        });
    }
    let first = build_exe(alloc, texts, options)?;
    Ok(Made {
        first,
        second: Vec::new(alloc),
    })
}
