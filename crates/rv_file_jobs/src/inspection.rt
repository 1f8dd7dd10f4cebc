//! What the program shows of files for people and scripts: sizes, names, headers and tables.

use rv_fault::{Fault, FileFault};
use rv_inspect::{ElfLines, NameLines, SizeTable};
use rv_job::OutputFormat;
use rv_system::{
    JobError, System, check_fit, fault_line, file_bytes, image_in, map_in, print, print_parts,
};
use std::alloc::{AllocError, Global};

/// Prints the sizes of files, which are read in their order; the exit status.
#[inline(never)]
pub fn sizes<S: System>(
    system: &mut S,
    files: &[&str],
    format: OutputFormat,
) -> Result<u8, JobError> {
    let alloc: Global = system.alloc();
    let mut table = match format {
        OutputFormat::Text => SizeTable::new(alloc)?,
        OutputFormat::Json => SizeTable::of_objects(alloc),
    };
    for name in files {
        add_sizes(system, &mut table, name)?;
    }
    let text = table.finish()?;
    print(system, text.as_slice())?;
    Ok(0)
}

/// Adds the sizes of a file.
fn add_sizes<S: System>(system: &mut S, table: &mut SizeTable, name: &str) -> Result<(), JobError> {
    let file = file_bytes(system, name)?;
    match table.add(name, file.as_slice()) {
        Ok(()) => Ok(()),
        Err(fault) => Err(refused(system.alloc(), name, fault)?),
    }
}

/// Prints the names of a file, or those that the map of an executable has; the exit status.
#[inline(never)]
pub fn names<S: System>(
    system: &mut S,
    map: Option<&str>,
    name: &str,
    format: OutputFormat,
) -> Result<u8, JobError> {
    match map {
        Some(map) => names_by_map(system, map, name, format),
        None => names_of_file(system, name, format),
    }
}

/// Prints the names of a file by its symbol table; the exit status.
fn names_of_file<S: System>(
    system: &mut S,
    name: &str,
    format: OutputFormat,
) -> Result<u8, JobError> {
    let alloc: Global = system.alloc();
    let file = file_bytes(system, name)?;
    match NameLines::of_file(alloc, file.as_slice()) {
        Ok(Some(lines)) => print_names(system, lines, format),
        Ok(None) => Err(JobError::Line(format!(in alloc; "{name}: no symbols")?)),
        Err(fault) => Err(refused(alloc, name, fault)?),
    }
}

/// Prints the names that the map of an executable has; the exit status.
fn names_by_map<S: System>(
    system: &mut S,
    map_name: &str,
    name: &str,
    format: OutputFormat,
) -> Result<u8, JobError> {
    let text = file_bytes(system, map_name)?;
    let exe = file_bytes(system, name)?;
    print_map_names(
        system,
        (map_name, text.as_slice()),
        (name, exe.as_slice()),
        format,
    )
}

/// Prints the names that a map has, which is to be an executable's, each by its name and its bytes; the exit status.
fn print_map_names<S: System>(
    system: &mut S,
    map: (&str, &[u8]),
    exe: (&str, &[u8]),
    format: OutputFormat,
) -> Result<u8, JobError> {
    let alloc: Global = system.alloc();
    let (map_name, text) = map;
    let (name, exe) = exe;
    let map = map_in(alloc, map_name, text)?;
    let image = image_in(alloc, name, exe)?;
    check_fit(alloc, map_name, &map, name, &image)?;
    print_names(system, NameLines::of_map(alloc, &map)?, format)
}

/// Prints names; the exit status.
fn print_names<S: System>(
    system: &mut S,
    mut lines: NameLines<'_>,
    format: OutputFormat,
) -> Result<u8, JobError> {
    match format {
        OutputFormat::Text => print_parts(system, false, |text| lines.next(text))?,
        OutputFormat::Json => print_parts(system, false, |text| lines.next_object(text))?,
    }
    Ok(0)
}

/// Prints the headers and tables of a file; the exit status.
#[inline(never)]
pub fn elf<S: System>(system: &mut S, name: &str) -> Result<u8, JobError> {
    let alloc: Global = system.alloc();
    let file = file_bytes(system, name)?;
    let mut lines = match ElfLines::of(file.as_slice()) {
        Ok(lines) => lines,
        Err(fault) => return Err(refused(alloc, name, fault)?),
    };
    print_parts(system, false, |text| lines.next(text))?;
    Ok(0)
}

/// The line of a file that is refused.
fn refused(alloc: Global, name: &str, fault: FileFault) -> Result<JobError, AllocError> {
    fault_line(alloc, &Fault::File(1, fault), &[name])
}
