//! Links objects, and the members of archives that they ask for.

use crate::building::write_outputs;
use crate::carrying::{lines_of, with_sections};
use crate::debug_objects::objects_of_sources;
use crate::debugging::{debugged_by_tables, file_objects, paths_of_objects};
use crate::defining::Definitions;
use crate::files::{LinkFile, linked_files};
use crate::references::check_references;
use crate::refusing::{Linked, refused_link};
use crate::rows::warn_of_rows;
use crate::settling::settle_files;
use crate::tabling::SymbolTables;
use crate::taking::{bytes_of, names_of, objects_of};
use rv_chain::{Built, link_objects_exe_on, link_objects_on};
use rv_job::{AskedLink, LinkOutputs, LinkSettings};
use rv_system::{JobError, Purpose, System, borrowed, write};
use std::alloc::{AllocError, Global};

/// Links files and writes what is asked for of it; the exit status.
#[inline(never)]
pub fn link_files<S: System>(system: &mut S, asked: &AskedLink<'_>) -> Result<u8, JobError> {
    let mut definitions = Definitions::of(
        system.alloc(),
        asked.definitions.as_slice(),
        asked.settings.options,
    )?;
    let mut files = linked_files(system, &asked.files, &definitions, asked.settings.pads_ends)?;
    link_inputs(
        system,
        asked.outputs,
        asked.settings,
        &[],
        &mut definitions,
        &mut files,
    )
}

/// Links what is taken of files and writes what is asked for of it; the exit status. The objects of these sources stand in
/// front.
pub(crate) fn link_inputs<S: System>(
    system: &mut S,
    outputs: LinkOutputs<'_>,
    settings: LinkSettings,
    sources: &[&[u8]],
    definitions: &mut Definitions<'_>,
    files: &mut [LinkFile],
) -> Result<u8, JobError> {
    let alloc: Global = system.alloc();
    settle_files(system, settings, sources, definitions, files)?;
    let taken = objects_of(system, files, settings)?;
    let names = names_of(alloc, taken.as_slice())?;
    let objects = bytes_of(alloc, taken.as_slice())?;
    link_taken(
        system,
        outputs,
        settings,
        sources,
        names.as_slice(),
        objects.as_slice(),
    )
}

/// Links objects with these names and writes what is asked for of it; the exit status.
fn link_taken<S: System>(
    system: &mut S,
    outputs: LinkOutputs<'_>,
    settings: LinkSettings,
    sources: &[&[u8]],
    names: &[&str],
    objects: &[&[u8]],
) -> Result<u8, JobError> {
    let linked = Linked {
        names,
        objects,
        sources,
    };
    if outputs.debug || outputs.map.is_some() {
        return link_with_map(system, outputs, settings, linked);
    }
    link_without_map(system, outputs.exe, settings, linked)
}

/// Links objects and writes the executable; the exit status.
fn link_without_map<S: System>(
    system: &mut S,
    exe: &str,
    settings: LinkSettings,
    linked: Linked<'_>,
) -> Result<u8, JobError> {
    match link_objects_exe_on(system.alloc(), linked.objects, settings.options) {
        Ok(built) => {
            write(system, exe, Purpose::ToRun, built.as_slice())?;
            Ok(0)
        }
        Err(fault) => Err(refused_link(system, &fault, linked, settings)?),
    }
}

/// Links objects and writes what is asked for of it; the exit status.
fn link_with_map<S: System>(
    system: &mut S,
    outputs: LinkOutputs<'_>,
    settings: LinkSettings,
    linked: Linked<'_>,
) -> Result<u8, JobError> {
    match link_objects_on(system.alloc(), linked.objects, settings.options) {
        Ok(built) => {
            warn_of_rows(system, linked, built.map.as_slice())?;
            if !outputs.debug {
                return write_outputs(system, outputs, built);
            }
            let built = linked_debugged(system, outputs.exe, settings, linked, built)?;
            write_outputs(system, outputs, built)
        }
        Err(fault) => Err(refused_link(system, &fault, linked, settings)?),
    }
}

/// What was linked of objects, with names and lines and the debug sections of the objects; those of sources are made once
/// more, with what their debug sections refer to.
fn linked_debugged<S: System>(
    system: &mut S,
    exe: &str,
    settings: LinkSettings,
    linked: Linked<'_>,
    built: Built,
) -> Result<Built, JobError> {
    let alloc: Global = system.alloc();
    let own = objects_of_sources(system, linked.names, linked.sources)?;
    let files = with_first(alloc, own.as_slice(), linked.objects)?;
    let files = files.as_slice();
    let objects = file_objects(alloc, linked.names, files)?;
    let tables = SymbolTables::of(
        alloc,
        linked.names,
        files,
        objects.as_slice(),
        settings.options,
    )?;
    let tabled = tables.with(alloc, objects.as_slice())?;
    let addresses = tables.addresses(alloc, files)?;
    let paths = paths_of_objects(system, linked.names, files)?;
    let lines = lines_of(alloc, built.map.as_slice(), files, addresses.as_slice())?;
    let built = debugged_by_tables(
        system,
        exe,
        paths.as_slice(),
        tabled.as_slice(),
        lines.as_deref(),
        built,
    )?;
    check_references(
        alloc,
        linked.names,
        files,
        objects.as_slice(),
        addresses.as_slice(),
    )?;
    with_sections(system, exe, files, addresses.as_slice(), built)
}

/// Files, of which others stand in the place of the first ones.
fn with_first<'f>(
    alloc: Global,
    first: &'f [Vec<u8>],
    files: &[&'f [u8]],
) -> Result<Vec<&'f [u8]>, AllocError> {
    let mut all: Vec<&'f [u8]> = borrowed(alloc, first)?;
    for file in files.iter().skip(first.len()) {
        all.push(file)?;
    }
    Ok(all)
}
