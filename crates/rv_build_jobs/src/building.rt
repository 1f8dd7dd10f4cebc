//! Builds and assembles files, and runs what they come to.
//!
//! A job writes no file before all that it writes is made.

use crate::additions::Inputs;
use crate::carrying::{addresses_of, lines_of, with_sections};
use crate::debug_objects::{object_for_debuggers, objects_of_sources, plain_texts};
use crate::debugging::{debugged, file_objects, paths_of_names, source_objects};
use crate::defining::Definitions;
use crate::files::{LinkFile, linked_files, object_files};
use crate::linking::link_inputs;
use crate::loading::{given_sources, is_elf};
use crate::references::check_references;
use crate::refusing::{is_explained, program_image, refused_sources};
use crate::settling::settled_inputs;
use rv_chain::{Built, Fault, GroundOptions, assemble_object, build_exe_on, build_on};
use rv_guests::{GuestInput, Guests, report_end, run_line};
use rv_job::{
    Asked, AskedBuild, AskedMap, AskedObject, LinkOutputs, LinkSettings, default_options,
};
use rv_machine::End;
use rv_system::{
    JobError, Purpose, System, borrowed, file_bytes, files_bytes, given_bytes, print, write,
};
use std::alloc::{AllocError, Global};

/// Runs an executable, or builds sources and runs what they come to; the exit status.
///
/// Each has a function of its own, so that what a small guest needs stands together in the program, and not among what
/// a source needs: that is 0.2 MiB of pages.
#[inline(never)]
pub fn run<S: Guests>(system: &mut S, asked: &Asked<'_>) -> Result<u8, JobError> {
    if !asked.others.is_empty() {
        return run_sources(system, asked);
    }
    let bytes = given_bytes(system, asked.file)?;
    if is_elf(bytes.as_slice()) {
        return run_executable(system, asked, bytes.as_slice());
    }
    run_source(system, asked, bytes.as_slice())
}

/// Builds a source and runs it; the exit status.
#[inline(never)]
fn run_source<S: Guests>(system: &mut S, asked: &Asked<'_>, source: &[u8]) -> Result<u8, JobError> {
    let names = [asked.file];
    let exe = executable(system, &names, &[source], default_options(), asked.explains)?;
    run_executable(system, asked, exe.as_slice())
}

/// Builds several sources together and runs what they come to; the exit status.
#[inline(never)]
fn run_sources<S: Guests>(system: &mut S, asked: &Asked<'_>) -> Result<u8, JobError> {
    let alloc: Global = system.alloc();
    let names = asked.names(alloc)?;
    let read = given_sources(system, names.as_slice())?;
    let sources = borrowed(alloc, read.as_slice())?;
    let exe = executable(
        system,
        names.as_slice(),
        sources.as_slice(),
        default_options(),
        asked.explains,
    )?;
    run_executable(system, asked, exe.as_slice())
}

/// Runs an executable; the exit status.
#[inline(never)]
fn run_executable<S: Guests>(
    system: &mut S,
    asked: &Asked<'_>,
    exe: &[u8],
) -> Result<u8, JobError> {
    let alloc: Global = system.alloc();
    let image = program_image(system, asked, exe)?;
    let input = if asked.has_input() {
        GuestInput::Empty
    } else {
        GuestInput::Standard
    };
    match system.run(image, input, asked.limit) {
        Ok(end) => {
            let status = report_end(system, &end);
            if !matches!(end, End::Exited(_)) && is_explained(system, asked.explains) {
                system.show("  rv run --report says where and why\n");
            }
            Ok(status)
        }
        Err(fault) => Err(run_line(alloc, &fault)?),
    }
}

/// The executable that sources build.
pub(crate) fn executable<S: System>(
    system: &S,
    names: &[&str],
    sources: &[&[u8]],
    options: GroundOptions,
    explains: bool,
) -> Result<Vec<u8>, JobError> {
    match build_exe_on(system.alloc(), sources, options) {
        Ok(exe) => Ok(exe),
        Err(fault) => { Err(refused_sources(system, &fault, names, sources, options, explains)?) }
    }
}

/// Builds sources, with the members that they ask for of the archives behind them, and writes what is asked for of it; the
/// exit status.
#[inline(never)]
pub fn build_files<S: System>(system: &mut S, asked: &AskedBuild<'_>) -> Result<u8, JobError> {
    if !asked.libraries.words.is_empty() {
        return build_with_archives(system, asked);
    }
    let inputs = settled_inputs(
        system,
        asked.sources.as_slice(),
        asked.definitions.as_slice(),
        asked.settings,
        asked.outputs.debug,
    )?;
    build_inputs(system, asked.outputs, asked.settings, &inputs)
}

/// Builds sources with what archives behind them offer, and writes what is asked for of it; the exit status. All files are
/// read before one is assembled.
fn build_with_archives<S: System>(system: &mut S, asked: &AskedBuild<'_>) -> Result<u8, JobError> {
    let alloc: Global = system.alloc();
    let names = asked.sources.as_slice();
    let mut definitions = Definitions::of(
        alloc,
        asked.definitions.as_slice(),
        asked.settings.options,
    )?;
    let read = files_bytes(system, names)?;
    let mut behind = linked_files(
        system,
        &asked.libraries,
        &definitions,
        asked.settings.pads_ends,
    )?;
    let sources = borrowed(alloc, read.as_slice())?;
    let mut files = source_files(system, asked, names, sources.as_slice())?;
    files.append(&mut behind)?;
    link_inputs(
        system,
        asked.outputs,
        asked.settings,
        sources.as_slice(),
        &mut definitions,
        &mut files,
    )
}

/// The objects of sources that are built with archives: for debuggers, those of the sources without what says lines.
fn source_files<S: System>(
    system: &S,
    asked: &AskedBuild<'_>,
    names: &[&str],
    sources: &[&[u8]],
) -> Result<Vec<LinkFile>, JobError> {
    if !asked.outputs.debug {
        return object_files(system, names, sources, asked.settings.explains);
    }
    let alloc: Global = system.alloc();
    let plain = plain_texts(alloc, sources)?;
    let texts = borrowed(alloc, plain.as_slice())?;
    object_files(system, names, texts.as_slice(), asked.settings.explains)
}

/// Builds sources and writes what is asked for of it; the exit status.
fn build_inputs<S: System>(
    system: &mut S,
    outputs: LinkOutputs<'_>,
    settings: LinkSettings,
    inputs: &Inputs<'_>,
) -> Result<u8, JobError> {
    if outputs.debug {
        let built = build_for_debuggers(system, outputs.exe, inputs, settings)?;
        return write_outputs(system, outputs, built);
    }
    if outputs.map.is_some() {
        let built = build_with_map(system, inputs, settings)?;
        return write_outputs(system, outputs, built);
    }
    let exe = build_without_map(system, inputs, settings)?;
    write(system, outputs.exe, Purpose::ToRun, exe.as_slice())?;
    Ok(0)
}

/// Builds sources: the executable.
fn build_without_map<S: System>(
    system: &S,
    inputs: &Inputs<'_>,
    settings: LinkSettings,
) -> Result<Vec<u8>, JobError> {
    let sources = inputs.texts(system.alloc())?;
    executable(
        system,
        inputs.names(),
        sources.as_slice(),
        settings.options,
        settings.explains,
    )
}

/// Builds sources: the executable and its map.
pub(crate) fn build_with_map<S: System>(
    system: &S,
    inputs: &Inputs<'_>,
    settings: LinkSettings,
) -> Result<Built, JobError> {
    let sources = inputs.texts(system.alloc())?;
    built(
        system,
        inputs.names(),
        sources.as_slice(),
        settings.options,
        settings.explains,
    )
}

/// Builds sources: the executable, with names and lines and the sources' debug sections behind it, and its map.
fn build_for_debuggers<S: System>(
    system: &mut S,
    exe: &str,
    inputs: &Inputs<'_>,
    settings: LinkSettings,
) -> Result<Built, JobError> {
    let alloc: Global = system.alloc();
    let names = inputs.names();
    let sources = inputs.texts(alloc)?;
    let built = built(
        system,
        names,
        sources.as_slice(),
        settings.options,
        settings.explains,
    )?;
    let described = source_objects(alloc, names, sources.as_slice())?;
    let paths = paths_of_names(alloc, names)?;
    let written = inputs.sources(alloc)?;
    let files = objects_of_sources(system, names, written.as_slice())?;
    let files = borrowed(alloc, files.as_slice())?;
    let objects = file_objects(alloc, names, files.as_slice())?;
    let addresses = addresses_of(
        alloc,
        names,
        files.as_slice(),
        objects.as_slice(),
        settings.options,
    )?;
    let lines = lines_of(
        alloc,
        built.map.as_slice(),
        files.as_slice(),
        addresses.as_slice(),
    )?;
    let built = debugged(
        system,
        exe,
        paths.as_slice(),
        described.as_slice(),
        lines.as_deref(),
        built,
    )?;
    check_references(
        alloc,
        names,
        files.as_slice(),
        objects.as_slice(),
        addresses.as_slice(),
    )?;
    with_sections(system, exe, files.as_slice(), addresses.as_slice(), built)
}

/// The executable that sources build, and its map.
pub(crate) fn built<S: System>(
    system: &S,
    names: &[&str],
    sources: &[&[u8]],
    options: GroundOptions,
    explains: bool,
) -> Result<Built, JobError> {
    match build_on(system.alloc(), sources, options) {
        Ok(built) => Ok(built),
        Err(fault) => { Err(refused_sources(system, &fault, names, sources, options, explains)?) }
    }
}

/// Prints the map of what sources build; the exit status.
#[inline(never)]
pub fn print_map<S: System>(system: &mut S, asked: &AskedMap<'_>) -> Result<u8, JobError> {
    let inputs = settled_inputs(
        system,
        asked.sources.as_slice(),
        asked.definitions.as_slice(),
        asked.settings,
        false,
    )?;
    let built = build_with_map(system, &inputs, asked.settings)?;
    print(system, built.map.as_slice())?;
    Ok(0)
}

/// Reads a source, assembles it, and writes its object; the exit status.
#[inline(never)]
pub fn assemble<S: System>(system: &mut S, asked: &AskedObject<'_>) -> Result<u8, JobError> {
    let text = file_bytes(system, asked.source)?;
    let file = if asked.debug {
        object_for_debuggers(
            system,
            asked.source,
            text.as_slice(),
            asked.relax,
            asked.explains,
        )?
    } else {
        assembled(
            system,
            asked.source,
            text.as_slice(),
            asked.relax,
            asked.explains,
        )?
    };
    write(system, asked.object, Purpose::ToRead, file.as_slice())?;
    Ok(0)
}

/// Assembles a source of this name: the bytes of its object.
pub(crate) fn assembled<S: System>(
    system: &S,
    name: &str,
    source: &[u8],
    relax: bool,
    explains: bool,
) -> Result<Vec<u8>, JobError> {
    match object_of(system.alloc(), source, relax) {
        Ok(file) => Ok(file),
        Err(fault) => Err(refused_sources(
            system,
            &fault,
            &[name],
            &[source],
            default_options(),
            explains,
        )?),
    }
}

/// The object of a source, whose calls may be shortened or not.
fn object_of(alloc: Global, source: &[u8], relax: bool) -> Result<Vec<u8>, Fault> {
    if relax {
        return assemble_object(alloc, source);
    }
    let source = without_relaxation(alloc, source)?;
    assemble_object(alloc, source.as_slice())
}

/// A source that leaves each of its calls its eight bytes.
///
/// The option goes in front of the first line, so that lines keep their numbers, and no linker shortens the object; its rows
/// count one statement more.
pub(crate) fn without_relaxation(alloc: Global, text: &[u8]) -> Result<Vec<u8>, AllocError> {
    let mut option = Vec::from_slice(alloc, b".option norelax; ")?;
    option.extend_from_slice(text)?;
    Ok(option)
}

/// Writes the executable, and then the map where a file is named for it; the exit status.
pub(crate) fn write_outputs<S: System>(
    system: &mut S,
    outputs: LinkOutputs<'_>,
    built: Built,
) -> Result<u8, JobError> {
    write(system, outputs.exe, Purpose::ToRun, built.exe.as_slice())?;
    if let Some(map) = outputs.map {
        write(system, map, Purpose::ToRead, built.map.as_slice())?;
    }
    Ok(0)
}
