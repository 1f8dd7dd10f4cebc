//! The lines that the program writes to standard error, without `rv: ` before them.

ghost use Rattle.std.specs.Prelude.{◌≡◌, IfOk, option_map};
ghost use Rattle.rv_system.specs.Messages.{Tells, fault_text, file_name, file_text, kind_in, link_text, name_in, source_text};

use crate::error::JobError;
use crate::shown::shown_name;
use rv_fault::{Fault, FileFault, LinkFault, SourceFault};
use std::alloc::{AllocError, Global};

/// The line of a fault; `names` are the files in their order.
pub fn fault_line(alloc: Global, fault: &Fault, names: &[&str]) -> Result<JobError, AllocError>
    ensures { IfOk result (λ error. Tells error (fault_text names.now fault.now)) }
{
    match fault {
        Fault::Source(file, fault) => source_line(alloc, name_of(names, *file), fault),
        Fault::File(file, fault) => file_line(alloc, name_of(names, *file), fault),
        Fault::Link(fault) => link_line(alloc, fault),
        Fault::Memory => Ok(JobError::Memory),
    }
}

/// The name of a file by its number, from 1.
fn name_of<'a>(names: &[&'a str], file: u32) -> &'a str
    ensures { result.now ≡ file_name names.now file }
{
    if file == 0 {
        return "";
    }
    match names.get(file as usize - 1) {
        Some(name) => *name,
        None => "",
    }
}

/// As `a.s:5: E7 BadOperands`.
fn source_line(alloc: Global, name: &str, fault: &SourceFault) -> Result<JobError, AllocError>
    ensures { IfOk result (λ error. Tells error (source_text name.now fault.now)) }
{
    match fault {
        SourceFault::At { code, line } => {
            let number = code.number();
            let what = code.name();
            Ok(JobError::Line(format!(in alloc; "{name}:{line}: E{number} {what}")?))
        }
        SourceFault::OutOfMemory => Ok(JobError::Memory),
    }
}

/// As `a.o: F9 UnsupportedRelocation 20`.
fn file_line(alloc: Global, name: &str, fault: &FileFault) -> Result<JobError, AllocError>
    ensures { IfOk result (λ error. Tells error (file_text name.now fault.now)) }
{
    let number = match fault {
        FileFault::OutOfMemory => return Ok(JobError::Memory),
        _ => fault.number().unwrap_or(0),
    };
    let what = fault.name();
    let line = match kind_in(fault) {
        Some(kind) => format!(in alloc; "{name}: F{number} {what} {kind}")?,
        None => format!(in alloc; "{name}: F{number} {what}")?,
    };
    Ok(JobError::Line(line))
}

/// The kind of relocation, or the type of section, that a fault is about.
fn kind_in(fault: &FileFault) -> Option<u32>
    ensures { result ≡ kind_in fault.now }
{
    match fault {
        FileFault::UnsupportedRelocation(kind) => Some(*kind),
        FileFault::UnsupportedSection(kind) => Some(*kind),
        _ => None,
    }
}

/// As `L7 EntryMissing`, or `L5 Undefined f`.
fn link_line(alloc: Global, fault: &LinkFault) -> Result<JobError, AllocError>
    ensures { IfOk result (λ error. Tells error (link_text fault.now)) }
{
    let number = match fault {
        LinkFault::OutOfMemory => return Ok(JobError::Memory),
        _ => fault.number().unwrap_or(0),
    };
    let what = fault.name();
    let line = match name_in(fault) {
        Some(name) => {
            let name = shown_name(alloc, name)?;
            format!(in alloc; "L{number} {what} {name}")?
        }
        None => format!(in alloc; "L{number} {what}")?,
    };
    Ok(JobError::Line(line))
}

/// The name that a fault of the link is about.
fn name_in(fault: &LinkFault) -> Option<&[u8]>
    ensures { option_map (λ name. name.now) result ≡ name_in fault.now }
{
    match fault {
        LinkFault::Undefined(name) => Some(name.as_slice()),
        LinkFault::Duplicate(name) => Some(name.as_slice()),
        _ => None,
    }
}
