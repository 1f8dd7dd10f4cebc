//! The line and the numbers of a fault.

ghost use Rattle.std.specs.Prelude.{◌≡◌, [], option_map, string_bytes, IfOk};
ghost use Rattle.rv_system.specs.Messages.{fault_text};
ghost use Rattle.rv_library.specs.Answer.{numbers, numbers_of, or_zero};
ghost use Rattle.rv_fault.specs.declared.fault.Fault.TheVariants.{Source};

use rv_fault::{Fault, SourceFault};
use rv_system::{JobError, fault_line};
use std::alloc::{AllocError, Global};

/// The code of a fault and its place: what an answer says of it.
#[derive(Clone, Copy, Drop)]
pub(crate) struct Numbers {
    pub kind: u32,
    pub number: u32,
    pub file: u32,
    pub line: u32,
}

/// The line of a fault as the program writes it, but for the name of the file; want of memory has none.
pub(crate) fn message(alloc: Global, fault: &Fault) -> Result<Option<String>, AllocError>
    ensures { IfOk result (λ line. option_map (λ text. string_bytes text) line ≡ fault_text [] fault.now) }
{
    match fault_line(alloc, fault, &[])? {
        JobError::Line(line) => Ok(Some(line)),
        JobError::Closed | JobError::Memory => Ok(None),
    }
}

/// A number that a fault has, or 0.
fn or_zero(number: Option<u32>) -> u32
    ensures { result ≡ or_zero number }
{
    match number {
        Some(number) => number,
        None => 0,
    }
}

/// The number of a fault of the link, or 0.
fn link_number(number: Option<u8>) -> u32
    ensures { result ≡ or_zero number }
{
    match number {
        Some(number) => u32::from(number),
        None => 0,
    }
}

/// The numbers of a fault.
pub(crate) fn numbers_of(fault: &Fault) -> Numbers
    ensures { result ≡ numbers_of fault.now }
{
    match fault {
        Fault::Source(file, fault) => numbers_in_source(*file, fault),
        Fault::File(file, fault) => with_kind(b'F', or_zero(fault.number()), *file, 0),
        Fault::Link(fault) => with_kind(b'L', link_number(fault.number()), 0, 0),
        Fault::Memory => with_kind(0, 0, 0, 0),
    }
}

/// The numbers of a fault of a source.
fn numbers_in_source(file: u32, fault: &SourceFault) -> Numbers
    ensures { result ≡ numbers_of (Source file fault.now) }
{
    match fault {
        SourceFault::At { code, line } => with_kind(b'E', u32::from(code.number()), file, *line),
        SourceFault::OutOfMemory => with_kind(0, 0, 0, 0),
    }
}

/// These numbers.
fn with_kind(kind: u8, number: u32, file: u32, line: u32) -> Numbers
    ensures { result ≡ numbers kind number file line }
{
    Numbers {
        kind: u32::from(kind),
        number,
        file,
        line,
    }
}
