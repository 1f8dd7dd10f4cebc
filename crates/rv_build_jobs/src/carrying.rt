//! Sections of objects that no program loads, as debug sections, in executables with names and lines for debuggers.
//!
//! What a compiler says of its source stands beside what the map says. An object that has the lines of its code gets no lines
//! of the assembly that the compiler wrote.

use rv_chain::{Built, Fault, GroundOptions};
use rv_debug::Object;
use rv_debug_sections::{
    Carried, CarryFault, has_carried_sections, has_line_table, with_sections_of,
};
use rv_fault::LinkFault;
use rv_link::{SymbolExtent, symbol_extents_on};
use rv_map::{read, write};
use rv_system::{JobError, System, fault_line};
use std::alloc::{AllocError, Global};

/// The addresses that a link gives the symbols of the objects of files with these names: by object and symbol; none where no
/// file has a section that stands behind the executable.
pub(crate) fn addresses_of(
    alloc: Global,
    names: &[&str],
    files: &[&[u8]],
    objects: &[Object<'_>],
    options: GroundOptions,
) -> Result<Vec<Vec<Option<u64>>>, JobError> {
    if !has_any_carried_sections(files) {
        return Ok(Vec::new(alloc));
    }
    let extents = extents_of(alloc, names, objects, &[], options)?;
    Ok(all_addresses(alloc, extents.as_slice())?)
}

/// Whether one of these files has a section that stands behind the executable.
pub(crate) fn has_any_carried_sections(files: &[&[u8]]) -> bool {
    files.iter().any(|file| has_carried_sections(file))
}

/// Where a link puts the symbols of objects, whose files have these names, and how many bytes it leaves of each, by how many
/// it has: all by object and symbol.
pub(crate) fn extents_of(
    alloc: Global,
    names: &[&str],
    objects: &[Object<'_>],
    sizes: &[Vec<u64>],
    options: GroundOptions,
) -> Result<Vec<Vec<Option<SymbolExtent>>>, JobError> {
    match symbol_extents_on(alloc, objects, sizes, options) {
        Ok(extents) => Ok(extents),
        Err(LinkFault::OutOfMemory) => Err(JobError::Memory),
        Err(fault) => Err(fault_line(alloc, &Fault::Link(fault), names)?),
    }
}

/// The addresses of symbols, by object and symbol.
pub(crate) fn all_addresses(
    alloc: Global,
    extents: &[Vec<Option<SymbolExtent>>],
) -> Result<Vec<Vec<Option<u64>>>, AllocError> {
    let mut addresses: Vec<Vec<Option<u64>>> = Vec::new(alloc);
    for row in extents {
        addresses.push(addresses_in(alloc, row.as_slice())?)?;
    }
    Ok(addresses)
}

/// The addresses of the symbols of an object.
fn addresses_in(
    alloc: Global,
    extents: &[Option<SymbolExtent>],
) -> Result<Vec<Option<u64>>, AllocError> {
    let mut addresses: Vec<Option<u64>> = Vec::new(alloc);
    for extent in extents {
        addresses.push(extent.as_ref().map(|extent| extent.address))?;
    }
    Ok(addresses)
}

/// The text of a map in which rows of objects with lines of their own have no code; none where no object has some.
fn map_of_lines(
    alloc: Global,
    map: &[u8],
    objects: &[&[u8]],
) -> Result<Option<Vec<u8>>, AllocError> {
    let mut skipped = Vec::new(alloc);
    for object in objects {
        skipped.push(has_line_table(object))?;
    }
    if !skipped.iter().any(|has| *has) {
        return Ok(None);
    }
    let Some(mut map) = read(alloc, map)? else {
        return Ok(None);
    };
    for row in &mut map.rows {
        if is_among(skipped.as_slice(), row.file) {
            row.instructions = 0;
        }
    }
    Ok(Some(write(alloc, &map)?))
}

/// Whether the file of this number, from 1, is among those that are skipped.
fn is_among(skipped: &[bool], file: u64) -> bool {
    match skipped.get(file.wrapping_sub(1) as usize) {
        Some(is_skipped) => *is_skipped,
        None => false,
    }
}

/// The text of a map whose rows give the lines of what is built of files: none where it is its own. The symbols of files have
/// these addresses, of which there are none where no file has a section that stands behind the executable.
pub(crate) fn lines_of(
    alloc: Global,
    map: &[u8],
    files: &[&[u8]],
    addresses: &[Vec<Option<u64>>],
) -> Result<Option<Vec<u8>>, AllocError> {
    if addresses.is_empty() {
        return Ok(None);
    }
    map_of_lines(alloc, map, files)
}

/// What was built of objects whose symbols have these addresses, with the sections of the objects that no program loads; as it is where there
/// are no addresses.
pub(crate) fn with_sections<S: System>(
    system: &S,
    exe: &str,
    objects: &[&[u8]],
    addresses: &[Vec<Option<u64>>],
    built: Built,
) -> Result<Built, JobError> {
    if addresses.is_empty() {
        return Ok(built);
    }
    let alloc: Global = system.alloc();
    let carried = carried_objects(alloc, objects, addresses)?;
    match with_sections_of(alloc, built.exe.as_slice(), carried.as_slice()) {
        Ok(file) => Ok(Built {
            exe: file,
            map: built.map,
        }),
        Err(CarryFault::OutOfMemory) => Err(JobError::Memory),
        Err(fault) => Err(JobError::Line(format!(in alloc;
            "{exe}: no sections of objects that no program loads: {fault}"
        )?)),
    }
}

/// Objects with the addresses of their symbols.
fn carried_objects<'c>(
    alloc: Global,
    objects: &[&'c [u8]],
    addresses: &'c [Vec<Option<u64>>],
) -> Result<Vec<Carried<'c>>, AllocError> {
    let mut carried: Vec<Carried<'c>> = Vec::new(alloc);
    for (file, addresses) in objects.iter().zip(addresses.iter()) {
        carried.push(Carried {
            file,
            addresses: addresses.as_slice(),
        })?;
    }
    Ok(carried)
}
