//! Rows of a map that say two things of one byte.
//!
//! A tool that joins sections of objects, as `ld -r` does, joins their rows too, and leaves the sections that they name as they
//! were. Such rows are rows all the same, so the link goes on; but what a map says of them is not so.

use crate::refusing::Linked;
use crate::taking::name_of;
use rv_fault::FileFault;
use rv_map::{Row, read};
use rv_object_reader::read as read_object;
use rv_system::{JobError, System};
use std::alloc::{AllocError, Global};

/// Warns of each file of a link whose rows lie over each other, by the text of the link's map.
///
/// The text of a large map takes longer to read than its link took. So objects are asked first: a link keeps the order of
/// a section's bytes, and where the rows of each section ascend, those of the map do.
pub(crate) fn warn_of_rows<S: System>(
    system: &mut S,
    linked: Linked<'_>,
    map: &[u8],
) -> Result<(), JobError> {
    let alloc: Global = system.alloc();
    if !has_rows(map) || all_ascend(alloc, linked.objects)? {
        return Ok(());
    }
    warn_of_overlapping(system, linked.names, map)
}

/// Warns of each file of a map whose rows lie over each other; `names` are the files in their order.
fn warn_of_overlapping<S: System>(
    system: &mut S,
    names: &[&str],
    map: &[u8],
) -> Result<(), JobError> {
    let alloc: Global = system.alloc();
    let mut warned: u64 = 0;
    for file in &overlapping(alloc, map)? {
        if *file == warned {
            continue;
        }
        warned = *file;
        let name = name_of(names, *file);
        let line = format!(in alloc;
            "warning: {name}: rows lie over each other, as after ld -r; objcopy -R .rv.rows takes them out"
        )?;
        system.tell(line.as_str());
    }
    Ok(())
}

/// The numbers of the files that have a row over another of theirs, in ascending order, each at least once.
fn overlapping(alloc: Global, map: &[u8]) -> Result<Vec<u64>, AllocError> {
    let mut files = Vec::new(alloc);
    let Some(map) = read(alloc, map)? else {
        return Ok(files);
    };
    let mut rows = rows_with_bytes(alloc, map.rows.as_slice())?;
    rows.sort_by_key(|row| (row.file, row.address))?;
    for (row, next) in rows.iter().zip(rows.iter().skip(1)) {
        if row.file == next.file && next.address.wrapping_sub(row.address) < row.bytes {
            files.push(row.file)?;
        }
    }
    Ok(files)
}

/// Those of rows that have bytes.
fn rows_with_bytes(alloc: Global, rows: &[Row]) -> Result<Vec<Row>, AllocError> {
    let mut some: Vec<Row> = Vec::new(alloc);
    for row in rows {
        if row.bytes > 0 {
            some.push(*row)?;
        }
    }
    Ok(some)
}

/// Whether the text of a map has a row.
fn has_rows(map: &[u8]) -> bool {
    map.split(is_line_feed)
        .any(|line| line.starts_with(b"row "))
}

fn is_line_feed(byte: &u8) -> bool {
    *byte == b'\n'
}

/// Whether the rows of each section of each object ascend.
fn all_ascend(alloc: Global, objects: &[&[u8]]) -> Result<bool, AllocError> {
    for object in objects {
        if !do_ascend(alloc, object)? {
            return Ok(false);
        }
    }
    Ok(true)
}

/// Whether the rows of each section of an object ascend, with none over another. Of what is no object it is not known.
fn do_ascend(alloc: Global, bytes: &[u8]) -> Result<bool, AllocError> {
    let object = match read_object(alloc, bytes) {
        Ok(object) => object,
        Err(FileFault::OutOfMemory) => return Err(AllocError),
        Err(_) => return Ok(false),
    };
    let mut ends = vec![in alloc; 0u64; object.sections.len()]?;
    for row in &object.rows {
        if let Some(end) = ends.get_mut(row.section as usize)
            && row.bytes > 0
        {
            if row.offset < *end {
                return Ok(false);
            }
            *end = row.offset.saturating_add(u64::from(row.bytes));
        }
    }
    Ok(true)
}
