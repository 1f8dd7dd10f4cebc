//! What the program shows of files: the listings of an executable, and the bytes of any file.

use rv_disasm::{ListedRows, hex_dump, raw_listing};
use rv_fault::Fault;
use rv_inspect::{CodeFile, Style};
use rv_job::AskedCode;
use rv_map::Map;
use rv_system::{
    JobError, System, check_fit, fault_line, file_bytes, has_escape, image_in, map_in, print,
    print_listing, print_parts,
};
use std::alloc::Global;

/// Prints the listing of an executable by its map; the exit status.
#[inline(never)]
pub fn objdump<S: System>(
    system: &mut S,
    map_name: &str,
    exe_name: &str,
    map_first: bool,
) -> Result<u8, JobError> {
    let (map, exe) = read_both(system, map_name, exe_name, map_first)?;
    print_rows(
        system,
        (map_name, map.as_slice()),
        (exe_name, exe.as_slice()),
    )
}

/// Prints the listing of an executable by its map, each by its name and its bytes; the exit status.
fn print_rows<S: System>(
    system: &mut S,
    map: (&str, &[u8]),
    exe: (&str, &[u8]),
) -> Result<u8, JobError> {
    let alloc: Global = system.alloc();
    let map = map_in(alloc, map.0, map.1)?;
    let image = image_in(alloc, exe.0, exe.1)?;
    let mut rows = ListedRows::new(alloc, &image, &map)?;
    print_parts(system, true, |text| rows.next(text))?;
    Ok(0)
}

/// Prints the raw listing of an executable, if it has one; the exit status.
#[inline(never)]
pub fn raw<S: System>(system: &mut S, name: &str) -> Result<u8, JobError> {
    let alloc: Global = system.alloc();
    let exe = file_bytes(system, name)?;
    let image = image_in(alloc, name, exe.as_slice())?;
    match raw_listing(alloc, &image)? {
        Some(text) => {
            print_listing(system, text.as_slice())?;
            Ok(0)
        }
        None => Err(JobError::Line(format!(in alloc; "{name}: no raw listing")?)),
    }
}

/// Prints the instructions of an object or an executable; the exit status.
#[inline(never)]
pub fn code<S: System>(system: &mut S, asked: &AskedCode<'_>) -> Result<u8, JobError> {
    let (map, file) = read_code(system, asked)?;
    print_code_of(system, asked, map.as_ref(), file.as_slice())
}

/// Prints the instructions of a file that was read, by its map if one is given; the exit status.
fn print_code_of<S: System>(
    system: &mut S,
    asked: &AskedCode<'_>,
    map: Option<&Map>,
    file: &[u8],
) -> Result<u8, JobError> {
    let alloc: Global = system.alloc();
    let style = Style {
        aliases: asked.aliases,
        lines: asked.lines,
    };
    match CodeFile::of(alloc, file, map, style) {
        Ok(shown) => {
            check_code_map(alloc, asked, map, file)?;
            print_code(system, &shown, asked.file)
        }
        Err(fault) => Err(fault_line(alloc, &Fault::File(1, fault), &[asked.file])?),
    }
}

/// Refuses a map that is not the file's, if one is given.
fn check_code_map(
    alloc: Global,
    asked: &AskedCode<'_>,
    map: Option<&Map>,
    file: &[u8],
) -> Result<(), JobError> {
    let (Some(map), Some(map_name)) = (map, asked.map) else {
        return Ok(());
    };
    let image = image_in(alloc, asked.file, file)?;
    check_fit(alloc, map_name, map, asked.file, &image)
}

/// Prints the instructions of a file, below its name; the exit status.
fn print_code<S: System>(system: &mut S, shown: &CodeFile<'_>, name: &str) -> Result<u8, JobError> {
    let mut lines = shown.lines(name);
    let in_colours = !has_escape(name.as_bytes());
    print_parts(system, in_colours, |text| lines.next(text))?;
    Ok(0)
}

/// The map and the bytes of a file, which are read in the order of the words.
fn read_code<S: System>(
    system: &mut S,
    asked: &AskedCode<'_>,
) -> Result<(Option<Map>, Vec<u8>), JobError> {
    let alloc: Global = system.alloc();
    let Some(name) = asked.map else {
        return Ok((None, file_bytes(system, asked.file)?));
    };
    let (map, file) = read_both(system, name, asked.file, asked.map_first)?;
    Ok((Some(map_in(alloc, name, map.as_slice())?), file))
}

/// Prints the bytes of a file; the exit status.
#[inline(never)]
pub fn dump<S: System>(system: &mut S, name: &str) -> Result<u8, JobError> {
    let alloc: Global = system.alloc();
    let bytes = file_bytes(system, name)?;
    let text = hex_dump(alloc, bytes.as_slice())?;
    print(system, text.as_slice())?;
    Ok(0)
}

/// The bytes of a map and of another file; whether the map is read first is told.
fn read_both<S: System>(
    system: &mut S,
    map: &str,
    file: &str,
    map_first: bool,
) -> Result<(Vec<u8>, Vec<u8>), JobError> {
    if map_first {
        return read_in_order(system, map, file);
    }
    let (file, map) = read_in_order(system, file, map)?;
    Ok((map, file))
}

/// The bytes of two files, the first read before the second.
fn read_in_order<S: System>(
    system: &mut S,
    first: &str,
    second: &str,
) -> Result<(Vec<u8>, Vec<u8>), JobError> {
    let first = file_bytes(system, first)?;
    let second = file_bytes(system, second)?;
    Ok((first, second))
}
