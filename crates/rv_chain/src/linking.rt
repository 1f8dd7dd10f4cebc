//! From the files of objects to an executable and its map.

ghost use Rattle.std.specs.Prelude.{◌<◌, ◌≤◌, ◌+◌, map, length, IfOk, IfErr};
ghost use Rattle.rv_statement.specs.View.{now_of};
ghost use Rattle.rv_image.specs.Views.{linked_of};
ghost use Rattle.rv_object_types.specs.View.{object_of};
ghost use Rattle.rv_link_laws.specs.IsLinkOf.{most_files};
ghost use Rattle.rv_link_laws.specs.Ground.{usual};
ghost use Rattle.rv_link_laws.specs.WithMap.{IsProgramWith};
ghost use Rattle.rv_link_laws.specs.Refusals.{HasNoProgram};
ghost use Rattle.rv_chain_laws.specs.Linking.{AreLinked, IsLinkedAs, IsProgramWithOf};
ghost use Rattle.rv_chain.specs.LinkRefusals.{IsUnreadAt, AreUnread, AreUnlinkable};
ghost use Rattle.rv_chain_laws.specs.Objects.{IsObjectIn, AreObjectsIn};

use crate::built::Built;
use rv_fault::Fault;
use rv_image::{FileFault, Linked, write_exec};
use rv_link::{GroundOptions, LinkFault, LinkOptions, link_exe_on, link_on, within_limits};
use rv_object_reader::read;
use rv_object_types::Object;
use std::alloc::Global;

/// Links objects, whoever wrote them: the executable and its map. `objects` are the bytes of their files.
pub fn link_objects(alloc: Global, objects: &[&[u8]], options: LinkOptions) -> Result<Built, Fault>
    ensures linked { IfOk result
        (λ built. AreLinked (map now_of objects.now)
        (usual options.text_start) options.relax options.gc built.exe.items built.map.items) }
    // The first fault: too many files, the text's start, then the files one by one, then the link.
    ensures refuses { IfErr result
        (AreUnlinkable (map now_of objects.now) (usual options.text_start) options.relax options.gc) }
{
    link_objects_on(alloc, objects, options.grounded())
}

/// Links objects as `link_objects`, to a program on any ground.
pub fn link_objects_on(
    alloc: Global,
    objects: &[&[u8]],
    options: GroundOptions,
) -> Result<Built, Fault>
    ensures linked { IfOk result
        (λ built. AreLinked (map now_of objects.now)
        options.bounds options.relax options.gc built.exe.items built.map.items) }
    // The first fault: too many files, the ground, then the files one by one, then the link.
    ensures refuses { IfErr result
        (AreUnlinkable (map now_of objects.now) options.bounds options.relax options.gc) }
{
    let linked = link_files(alloc, objects, options, true)?;
    let built = Built::of(alloc, &linked)?;
    Ok(built)
}

/// Links objects as `link_objects`, without the map: the same executable.
pub fn link_objects_exe(
    alloc: Global,
    objects: &[&[u8]],
    options: LinkOptions,
) -> Result<Vec<u8>, Fault>
    ensures linked { IfOk result
        (λ exe. IsLinkedAs (map now_of objects.now)
        (usual options.text_start) options.relax options.gc exe.items) }
    ensures refuses { IfErr result
        (AreUnlinkable (map now_of objects.now) (usual options.text_start) options.relax options.gc) }
{
    link_objects_exe_on(alloc, objects, options.grounded())
}

/// Links objects as `link_objects_exe`, to a program on any ground.
pub fn link_objects_exe_on(
    alloc: Global,
    objects: &[&[u8]],
    options: GroundOptions,
) -> Result<Vec<u8>, Fault>
    ensures linked { IfOk result
        (λ exe. IsLinkedAs (map now_of objects.now)
        options.bounds options.relax options.gc exe.items) }
    ensures refuses { IfErr result
        (AreUnlinkable (map now_of objects.now) options.bounds options.relax options.gc) }
{
    let linked = link_files(alloc, objects, options, false)?;
    let exe = write_exec(alloc, &linked)?;
    Ok(exe)
}

/// The linked program of the objects in files, with the names and the rows of its map where they are wanted.
fn link_files(
    alloc: Global,
    files: &[&[u8]],
    options: GroundOptions,
    with_map: bool,
) -> Result<Linked, Fault>
    ensures program { IfOk result
        (λ l. IsProgramWithOf (map now_of files.now)
        options.bounds options.relax options.gc with_map (linked_of l)) }
    ensures refuses { IfErr result
        (AreUnlinkable (map now_of files.now) options.bounds options.relax options.gc) }
{
    within_limits(files.len(), options.bounds)?;
    let read = read_objects(alloc, files)?;
    let linked = program(alloc, &read, options, with_map)?;
    Ok(linked)
}

/// The program of objects, with the names and the rows of its map where they are wanted.
pub(crate) fn program(
    alloc: Global,
    objects: &[Object<'_>],
    options: GroundOptions,
    with_map: bool,
) -> Result<Linked, LinkFault>
    ensures links { IfOk result (λ l. IsProgramWith (map object_of objects.now)
        options.bounds options.relax options.gc with_map (linked_of l)) }
    ensures refuses { IfErr result (HasNoProgram (map object_of objects.now)
        options.bounds options.relax options.gc) }
{
    if with_map {
        link_on(alloc, objects, options)
    } else {
        link_exe_on(alloc, objects, options)
    }
}

/// The objects in files, in their order.
fn read_objects<'a>(alloc: Global, files: &[&'a [u8]]) -> Result<Vec<Object<'a>>, Fault>
    requires few { length files.now ≤ most_files }
    ensures objects { IfOk result
        (λ os. AreObjectsIn (map now_of files.now) (map object_of os.items)) }
    ensures refuses { IfErr result (AreUnread (map now_of files.now)) }
{
    let mut objects = Vec::new(alloc);
    for index in 0..files.len() {
        objects.push(read_object(alloc, index, files[index])?)?;
    }
    Ok(objects)
}

/// The object in the file at this index, from 0.
fn read_object(alloc: Global, index: usize, file: &[u8]) -> Result<Object<'_>, Fault>
    requires few { index < most_files }
    ensures object { IfOk result (λ o. IsObjectIn file.now (object_of o)) }
    ensures refuses { IfErr result (IsUnreadAt (index + 1) file.now) }
{
    match read(alloc, file) {
        Ok(object) => Ok(object),
        Err(FileFault::OutOfMemory) => Err(Fault::Memory),
        Err(fault) => Err(Fault::File(index as u32 + 1, fault)),
    }
}
