//! From sources to an executable and its map.

ghost use Rattle.std.specs.Prelude.{◌<◌, ◌≤◌, ◌+◌, map, length, IfOk, IfErr};
ghost use Rattle.rv_statement.specs.View.{now_of};
ghost use Rattle.rv_image.specs.Views.{linked_of};
ghost use Rattle.rv_object_types.specs.View.{object_of};
ghost use Rattle.rv_link_laws.specs.Ground.{usual};
ghost use Rattle.rv_link_laws.specs.IsLinkOf.{most_files};
ghost use Rattle.rv_chain_laws.specs.Headline.{TheHeadline};
ghost use Rattle.rv_chain_laws.specs.Building.{IsProgramWithFrom, IsExecutableOf};
ghost use Rattle.rv_chain_laws.specs.Linking.{AreBuilt};
ghost use Rattle.rv_chain_laws.specs.Listed.{IsListedAs};
ghost use Rattle.rv_chain_laws.specs.Objects.{IsObjectFrom, AreObjectsFrom};
ghost use Rattle.rv_chain.specs.Reassembled.{Reassembles};
ghost use Rattle.rv_chain.specs.Refusals.{AreGood, IsRefusedFor, IsRefusedIn, IsRefusedAt};
ghost use Rattle.rv_chain.specs.Valued.{AreValued};

use crate::built::Built;
use crate::linking::program;
use rv_assemble::assemble;
use rv_expression::SourceFault;
use rv_fault::Fault;
use rv_image::{Linked, write_exec};
use rv_link::{GroundOptions, LinkOptions, within_limits};
use rv_object_types::Object;
use rv_raw_theorems::raw_listings_reassemble;
use rv_reach_theorems::{short_branches_reach, short_calls_reach};
use rv_runs_theorems::{linked_runs_agree, linked_runs_agree_on, listing_is_the_sources};
use rv_sources_link_theorems::{linked_objects_are_flagged, objects_of_sources_link};
use rv_value_theorems::values_are_plain;
use std::alloc::Global;

/// Assembles and links a list of sources: the executable and its map.
///
/// For every input and every instruction limit, running the executable's bytes gives exactly the
/// console and the end that the statements of the sources give, each executed in one step at the
/// addresses of the map; only a jump to the inside of a statement ends the promise. This holds on every
/// platform where nothing but the program is executed: with any devices, any other memory and any `sp`,
/// the same in both runs. Where calls are relaxed, those are short that can be, and no others.
///
/// The listing of the executable with the map shows, for each statement of code, the base
/// instructions that stand for it there, and nothing else.
pub fn build(alloc: Global, sources: &[&[u8]], options: LinkOptions) -> Result<Built, Fault>
    ensures headline { IfOk result
        (λ built. TheHeadline (map now_of sources.now)
        options.text_start options.relax options.gc built.exe.items built.map.items) }
    ensures listed { IfOk result
        (λ built. IsListedAs (map now_of sources.now) built.exe.items built.map.items) }
    ensures links { IfOk result
        (λ built. AreBuilt (map now_of sources.now)
        (usual options.text_start) options.relax options.gc built.exe.items built.map.items) }
    // each value in the sources is plain arithmetic with the addresses of the map
    ensures values { IfOk result
        (λ built. AreValued (map now_of sources.now) options.text_start built.map.items) }
    // a source that is a raw listing has the bytes that were listed, and the entry
    ensures reassembles { IfOk result
        (λ built. Reassembles (map now_of sources.now) options.text_start built.exe.items) }
    ensures good { IfOk result (λ _. AreGood (map now_of sources.now) (usual options.text_start)) }
    // The first fault: too many files, the text's start, then the sources one by one, then the link, where no form that
    // was chosen because it reaches is out of reach.
    ensures refuses { IfErr result
        (IsRefusedFor (map now_of sources.now) (usual options.text_start) options.relax options.gc) }
{
    build_on(alloc, sources, options.grounded())
}

/// Assembles and links as `build`, to a program on any ground.
pub fn build_on(alloc: Global, sources: &[&[u8]], options: GroundOptions) -> Result<Built, Fault>
    ensures headline { IfOk result
        (λ built. TheHeadline (map now_of sources.now)
        options.bounds.text options.relax options.gc built.exe.items built.map.items) }
    ensures listed { IfOk result
        (λ built. IsListedAs (map now_of sources.now) built.exe.items built.map.items) }
    ensures links { IfOk result
        (λ built. AreBuilt (map now_of sources.now)
        options.bounds options.relax options.gc built.exe.items built.map.items) }
    // each value in the sources is plain arithmetic with the addresses of the map
    ensures values { IfOk result
        (λ built. AreValued (map now_of sources.now) options.bounds.text built.map.items) }
    // a source that is a raw listing has the bytes that were listed, and the entry
    ensures reassembles { IfOk result
        (λ built. Reassembles (map now_of sources.now) options.bounds.text built.exe.items) }
    ensures good { IfOk result (λ _. AreGood (map now_of sources.now) options.bounds) }
    // The first fault: too many files, the ground, then the sources one by one, then the link, where no form that
    // was chosen because it reaches is out of reach.
    ensures refuses { IfErr result
        (IsRefusedFor (map now_of sources.now) options.bounds options.relax options.gc) }
{
    let linked = linked(alloc, sources, options, true)?;
    linked_runs_agree();
    linked_runs_agree_on();
    listing_is_the_sources();
    raw_listings_reassemble();
    values_are_plain();
    let built = Built::of(alloc, &linked)?;
    Ok(built)
}

/// Assembles and links as `build`, without the map: the same executable.
pub fn build_exe(alloc: Global, sources: &[&[u8]], options: LinkOptions) -> Result<Vec<u8>, Fault>
    // the clauses `headline`, `listed` and `links` of `build`, with the map that is not written
    ensures builds { IfOk result
        (λ exe. IsExecutableOf
        (map now_of sources.now) (usual options.text_start) options.relax options.gc exe.items) }
    ensures reassembles { IfOk result
        (λ exe. Reassembles (map now_of sources.now) options.text_start exe.items) }
    ensures good { IfOk result (λ _. AreGood (map now_of sources.now) (usual options.text_start)) }
    ensures refuses { IfErr result
        (IsRefusedFor (map now_of sources.now) (usual options.text_start) options.relax options.gc) }
{
    build_exe_on(alloc, sources, options.grounded())
}

/// Assembles and links as `build_exe`, to a program on any ground.
pub fn build_exe_on(
    alloc: Global,
    sources: &[&[u8]],
    options: GroundOptions,
) -> Result<Vec<u8>, Fault>
    // the clauses `headline`, `listed` and `links` of `build_on`, with the map that is not written
    ensures builds { IfOk result
        (λ exe. IsExecutableOf
        (map now_of sources.now) options.bounds options.relax options.gc exe.items) }
    ensures reassembles { IfOk result
        (λ exe. Reassembles (map now_of sources.now) options.bounds.text exe.items) }
    ensures good { IfOk result (λ _. AreGood (map now_of sources.now) options.bounds) }
    ensures refuses { IfErr result
        (IsRefusedFor (map now_of sources.now) options.bounds options.relax options.gc) }
{
    let linked = linked(alloc, sources, options, false)?;
    linked_runs_agree();
    linked_runs_agree_on();
    listing_is_the_sources();
    raw_listings_reassemble();
    let exe = write_exec(alloc, &linked)?;
    Ok(exe)
}

/// The linked program of a list of sources, with the names and the rows of its map where they are wanted.
fn linked(
    alloc: Global,
    sources: &[&[u8]],
    options: GroundOptions,
    with_map: bool,
) -> Result<Linked, Fault>
    ensures program { IfOk result (λ l. IsProgramWithFrom
        (map now_of sources.now) options.bounds options.relax options.gc with_map (linked_of l)) }
    ensures good { IfOk result (λ _. AreGood (map now_of sources.now) options.bounds) }
    ensures refuses { IfErr result
        (IsRefusedFor (map now_of sources.now) options.bounds options.relax options.gc) }
{
    within_limits(sources.len(), options.bounds)?;
    let objects = objects(alloc, sources)?;
    // what they are linked to is the program of the sources
    objects_of_sources_link();
    linked_objects_are_flagged();
    // and a refusal is never for a form that was chosen too short
    short_calls_reach();
    short_branches_reach();
    let linked = program(alloc, &objects, options, with_map)?;
    Ok(linked)
}

/// The objects of sources, in their order.
fn objects<'a>(alloc: Global, sources: &[&'a [u8]]) -> Result<Vec<Object<'a>>, Fault>
    requires few { length sources.now ≤ most_files }
    ensures objects { IfOk result
        (λ os. AreObjectsFrom (map now_of sources.now) (map object_of os.items)) }
    ensures refuses { IfErr result (IsRefusedIn (map now_of sources.now)) }
{
    let mut objects = Vec::new(alloc);
    for index in 0..sources.len() {
        objects.push(object(alloc, index, sources[index])?)?;
    }
    Ok(objects)
}

/// The object of the source at this index, from 0.
pub(crate) fn object(alloc: Global, index: usize, source: &[u8]) -> Result<Object<'_>, Fault>
    requires few { index < most_files }
    ensures object { IfOk result (λ o. IsObjectFrom source.now (object_of o)) }
    ensures refuses { IfErr result (IsRefusedAt (index + 1) source.now) }
{
    match assemble(alloc, source) {
        Ok(object) => Ok(object),
        Err(SourceFault::At { code, line }) => {
            Err(Fault::Source(index as u32 + 1, SourceFault::At { code, line }))
        }
        Err(SourceFault::OutOfMemory) => Err(Fault::Memory),
    }
}
