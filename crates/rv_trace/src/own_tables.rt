//! The names and lines of an executable without a map, by its own tables.
//!
//! Anybody may have written these. So of what they say no more is kept, and no line is longer, than the file's size gives
//! reason for: of the names of bounds each once, files where they have rows, and paths of a length that a line can show.

use crate::places::{Lines, NamedRegion, Places, Symbol, is_bound};
use rv_debug_reader::{DebugTables, FileName, LineUnit};
use rv_map_laws::{Region, Row};
use std::alloc::{AllocError, Global};
use std::str::from_utf8;

/// The most bytes of a path that is shown.
const LONGEST: usize = 512;

/// A file of a line table, and its place among those of all.
#[derive(Clone, Copy, Drop)]
struct Filed<'a> {
    name: FileName<'a>,
    place: usize,
}

impl<'a> Places<'a> {
    /// What the tables of an executable say, which is run in a directory.
    pub fn of_tables<'e: 'a>(
        alloc: Global,
        tables: &'a DebugTables<'e>,
        directory: &[u8],
    ) -> Result<Self, AllocError> {
        let mut places = Places::nothing(alloc);
        if tables.is_empty() {
            return Ok(places);
        }
        places.is_of_lines = true;
        places.add_sections(tables)?;
        places.add_names(alloc, tables)?;
        places.add_units(alloc, tables, directory)?;
        Ok(places)
    }

    fn add_sections<'e: 'a>(&mut self, tables: &'a DebugTables<'e>) -> Result<(), AllocError> {
        for section in &tables.sections {
            let region = Region {
                start: section.start,
                end: section.end,
            };
            self.add_region(shown(section.name), region)?;
        }
        self.regions.sort_by_key(|part| part.region.start)
    }

    fn add_names<'e: 'a>(
        &mut self,
        alloc: Global,
        tables: &'a DebugTables<'e>,
    ) -> Result<(), AllocError> {
        let mut names = Vec::from_slice(alloc, tables.names.as_slice())?;
        names.sort_by_key(|named| (named.address, named.rank))?;
        for named in &names {
            self.add_name(Symbol {
                name: named.name,
                address: named.address,
            })?;
        }
        Ok(())
    }

    /// Adds a name: one of a bound once.
    fn add_name(&mut self, symbol: Symbol<'a>) -> Result<(), AllocError> {
        if !is_gnu_bound(symbol.name) {
            self.symbols.push(symbol)?;
        } else if self.bounds.iter().all(|bound| bound.name != symbol.name) {
            self.bounds.push(symbol)?;
        }
        Ok(())
    }

    /// Adds the rows of line tables and their files, each of which has one number, whichever tables name it.
    fn add_units<'e: 'a>(
        &mut self,
        alloc: Global,
        tables: &'a DebugTables<'e>,
        directory: &[u8],
    ) -> Result<(), AllocError> {
        let numbers = self.add_files(alloc, tables, directory)?;
        let mut rest = numbers.as_slice();
        for unit in &tables.units {
            let (own, behind) = rest.split_at(unit.files.len().min(rest.len()));
            self.add_unit_rows(unit, own)?;
            rest = behind;
        }
        self.rows
            .sort_by_key(|row| (row.address, row.file, row.ordinal))
    }

    /// Adds the files of line tables by their names; the number of each that has rows, in the order of the tables.
    fn add_files<'e: 'a>(
        &mut self,
        alloc: Global,
        tables: &'a DebugTables<'e>,
        directory: &[u8],
    ) -> Result<Vec<u64>, AllocError> {
        let filed = files_by_name(alloc, tables)?;
        let mut numbers: Vec<u64> = Vec::from_elem(alloc, 0, count_of_files(tables))?;
        let mut last: Option<FileName<'a>> = None;
        for file in &filed {
            if !is_same_file(&last, &file.name) {
                self.sources.push(Lines {
                    name: path_of(alloc, &file.name, directory)?,
                    lines: Vec::new(alloc),
                })?;
            }
            last = Some(file.name);
            if let Some(number) = numbers.get_mut(file.place) {
                *number = self.sources.len() as u64;
            }
        }
        Ok(numbers)
    }

    /// Adds the rows of a line table that stand in a section, by the numbers of its files.
    fn add_unit_rows(&mut self, unit: &LineUnit<'_>, numbers: &[u64]) -> Result<(), AllocError> {
        for row in &unit.rows {
            let Some(number) = numbers.get(row.file as usize) else {
                continue;
            };
            if self.region_of(row.address).is_some() {
                self.rows.push(Row {
                    file: *number,
                    line: row.line,
                    ordinal: row.line,
                    address: row.address,
                    bytes: row.bytes,
                    instructions: 1,
                })?;
            }
        }
        Ok(())
    }
}

/// Whether GNU's linker defines a name for the bound of a region.
fn is_gnu_bound(name: &[u8]) -> bool {
    let bounds: [&[u8]; 3] = [b"__DATA_BEGIN__", b"__SDATA_BEGIN__", b"__BSS_END__"];
    is_bound(name) || bounds.iter().any(|bound| *bound == name)
}

/// The name of a section as a text.
fn shown(name: &[u8]) -> &str {
    match from_utf8(name) {
        Ok(text) if !text.is_empty() => text,
        _ => "a section",
    }
}

/// How many files the line tables name.
fn count_of_files(tables: &DebugTables<'_>) -> usize {
    let mut count: usize = 0;
    for unit in &tables.units {
        count = count.saturating_add(unit.files.len());
    }
    count
}

/// The files of all line tables that have rows, by their names.
fn files_by_name<'a, 'e: 'a>(
    alloc: Global,
    tables: &'a DebugTables<'e>,
) -> Result<Vec<Filed<'a>>, AllocError> {
    let mut filed: Vec<Filed<'a>> = Vec::new(alloc);
    let mut first: usize = 0;
    for unit in &tables.units {
        put_files(alloc, &mut filed, unit, first)?;
        first = first.saturating_add(unit.files.len());
    }
    filed.sort_by_key(|file| (file.name.compiled_in, file.name.directory, file.name.name))?;
    Ok(filed)
}

/// Adds the files of a line table that have rows; the first of the table has this place.
fn put_files<'a, 'e: 'a>(
    alloc: Global,
    filed: &mut Vec<Filed<'a>>,
    unit: &'a LineUnit<'e>,
    first: usize,
) -> Result<(), AllocError> {
    let have_rows = files_with_rows(alloc, unit)?;
    let mut place = first;
    for (name, has_rows) in unit.files.iter().zip(have_rows.iter()) {
        if *has_rows {
            filed.push(Filed { name: *name, place })?;
        }
        place = place.saturating_add(1);
    }
    Ok(())
}

/// Which files of a line table have rows.
fn files_with_rows(alloc: Global, unit: &LineUnit<'_>) -> Result<Vec<bool>, AllocError> {
    let mut have_rows: Vec<bool> = Vec::from_elem(alloc, false, unit.files.len())?;
    for row in &unit.rows {
        if let Some(has_rows) = have_rows.get_mut(row.file as usize) {
            *has_rows = true;
        }
    }
    Ok(have_rows)
}

/// Whether two files have one name.
fn is_same_file(one: &Option<FileName<'_>>, other: &FileName<'_>) -> bool {
    match one {
        Some(one) => {
            one.name == other.name
                && one.directory == other.directory
                && one.compiled_in == other.compiled_in
        }
        None => false,
    }
}

/// The path of a file from a directory: that which its line table names, unless that leads from another directory. Empty
/// where it is too long to be shown, or has a control character, by which a terminal would do something.
fn path_of(alloc: Global, file: &FileName<'_>, directory: &[u8]) -> Result<Vec<u8>, AllocError> {
    let mut path = Vec::new(alloc);
    let directories = file.compiled_in.len().saturating_add(file.directory.len());
    if directories.saturating_add(file.name.len()) > LONGEST {
        return Ok(path);
    }
    put_path(&mut path, file, directory)?;
    if path.iter().any(|byte| *byte < b' ' || *byte == 0x7F) {
        path.clear();
    }
    Ok(path)
}

/// Adds the path of a file from a directory.
fn put_path(path: &mut Vec<u8>, file: &FileName<'_>, directory: &[u8]) -> Result<(), AllocError> {
    let [compiled_in, own, name] = file.path();
    if compiled_in != directory {
        put_directory(path, compiled_in)?;
    }
    put_directory(path, own)?;
    path.extend_from_slice(name)?;
    Ok(())
}

/// Adds a directory, unless it is none.
fn put_directory(path: &mut Vec<u8>, directory: &[u8]) -> Result<(), AllocError> {
    if directory.is_empty() {
        return Ok(());
    }
    path.extend_from_slice(directory)?;
    path.push(b'/')?;
    Ok(())
}
