//! Files and standard output, and the lines of those that cannot be read or written.

use crate::error::JobError;
use crate::messages::fault_line;
use crate::painting::painted;
use crate::system::{FILE_LIMIT, Purpose, System};
use crate::whole::ReadFault;
use rv_disasm::fits;
use rv_fault::Fault;
use rv_image::{Image, load};
use rv_map::{Map, read};
use std::alloc::{AllocError, Global};
use std::io::ErrorKind;

/// The bytes of a text that are kept at most before they are written, but for those of its last part.
const KEPT: usize = 1 << 16;

/// The bytes of a file.
pub fn file_bytes<S: System>(system: &mut S, name: &str) -> Result<Vec<u8>, JobError> {
    let read = system.file(name);
    contents(system.alloc(), name, read)
}

/// The bytes of a file, or of standard input where the name is `-`.
pub fn given_bytes<S: System>(system: &mut S, name: &str) -> Result<Vec<u8>, JobError> {
    let read = if name == "-" {
        system.input(FILE_LIMIT)
    } else {
        system.file(name)
    };
    contents(system.alloc(), name, read)
}

/// The bytes of the files, in their order.
pub fn files_bytes<S: System>(system: &mut S, names: &[&str]) -> Result<Vec<Vec<u8>>, JobError> {
    let mut read: Vec<Vec<u8>> = Vec::new(system.alloc());
    for name in names {
        read.push(file_bytes(system, name)?)?;
    }
    Ok(read)
}

/// The same bytes, borrowed.
pub fn borrowed<'a>(alloc: Global, read: &'a [Vec<u8>]) -> Result<Vec<&'a [u8]>, AllocError> {
    let mut borrowed: Vec<&'a [u8]> = Vec::new(alloc);
    for bytes in read {
        borrowed.push(bytes.as_slice())?;
    }
    Ok(borrowed)
}

/// The bytes that were read, or the line that says that they weren't.
fn contents(
    alloc: Global,
    name: &str,
    read: Result<Vec<u8>, ReadFault>,
) -> Result<Vec<u8>, JobError> {
    match read {
        Ok(bytes) => Ok(bytes),
        Err(ReadFault::Failed) => Err(cannot(alloc, "read", name)?),
        Err(ReadFault::Memory) => Err(JobError::Memory),
    }
}

/// The image that a file is loaded as.
pub fn image_in(alloc: Global, name: &str, file: &[u8]) -> Result<Image, JobError> {
    match load(alloc, file) {
        Ok(image) => Ok(image),
        Err(fault) => Err(fault_line(alloc, &Fault::File(1, fault), &[name])?),
    }
}

/// The map that a file is the text of.
pub fn map_in(alloc: Global, name: &str, text: &[u8]) -> Result<Map, JobError> {
    match read(alloc, text)? {
        Some(map) => Ok(map),
        None => Err(JobError::Line(format!(in alloc; "{name}: not a map")?)),
    }
}

/// Refuses the map of another program than an image's; the names are those of their files.
pub fn check_fit(
    alloc: Global,
    map_name: &str,
    map: &Map,
    exe_name: &str,
    image: &Image,
) -> Result<(), JobError> {
    if fits(map, image) {
        return Ok(());
    }
    Err(JobError::Line(format!(in alloc; "{map_name}: not a map of {exe_name}")?))
}

/// Writes a file anew.
pub fn write<S: System>(
    system: &mut S,
    name: &str,
    purpose: Purpose,
    bytes: &[u8],
) -> Result<(), JobError> {
    match system.write(name, purpose, bytes) {
        Ok(()) => Ok(()),
        Err(_) => Err(cannot(system.alloc(), "write", name)?),
    }
}

/// Writes to standard output, which messages call `-`. Where its reader has closed it, as `head` does, nothing is to be said.
pub fn print<S: System>(system: &mut S, bytes: &[u8]) -> Result<(), JobError> {
    match system.print(bytes) {
        Ok(()) => Ok(()),
        Err(error) if error.kind() == ErrorKind::BrokenPipe => Err(JobError::Closed),
        Err(_) => Err(cannot(system.alloc(), "write", "-")?),
    }
}

/// Writes a listing to standard output, in colours where it shows them.
pub fn print_listing<S: System>(system: &mut S, text: &[u8]) -> Result<(), JobError> {
    if !system.shows_colours() {
        return print(system, text);
    }
    let painted = painted(system.alloc(), text)?;
    print(system, painted.as_slice())
}

/// Writes a text to standard output as it comes, in colours where they are asked for and it shows them. `next` adds the
/// next part of the text, which ends with a line; it answers false where none is left.
///
/// A text that may be longer than the files that it is made of is written so: all faults are found before it begins, and
/// its parts share one buffer.
pub fn print_parts<S: System, F: FnMut(&mut Vec<u8>) -> Result<bool, AllocError>>(
    system: &mut S,
    in_colours: bool,
    mut next: F,
) -> Result<(), JobError>
    requires { F.IsAlwaysCallable next }
{
    let mut kept = Vec::new(system.alloc());
    for _ in 0..u64::MAX {
        if !next(&mut kept)? {
            break;
        }
        if kept.len() >= KEPT {
            print_kept(system, in_colours, kept.as_slice())?;
            kept.clear();
        }
    }
    print_kept(system, in_colours, kept.as_slice())
}

/// Writes what is kept of a text to standard output.
fn print_kept<S: System>(system: &mut S, in_colours: bool, text: &[u8]) -> Result<(), JobError> {
    if in_colours {
        return print_listing(system, text);
    }
    print(system, text)
}

/// The line of a file that cannot be read or written.
pub fn cannot(alloc: Global, verb: &str, name: &str) -> Result<JobError, AllocError> {
    Ok(JobError::Line(format!(in alloc; "{name}: cannot {verb}")?))
}
