//! How answers are shown.

use crate::error::Failed;
use crate::marks::mark;
use rv_chain::{Built, End};

/// Shows the bytes of a file, in hexadecimal.
pub(crate) fn show_file(rt: &HostRuntime, file: &[u8]) -> Result<(), Failed> {
    let text = hex::encode(rt.alloc(), file)?;
    mark(rt, text.as_bytes())?;
    mark(rt, b"\n")
}

/// Shows an executable and its map.
pub(crate) fn show_built(rt: &HostRuntime, built: &Built) -> Result<(), Failed> {
    show_file(rt, built.exe.as_slice())?;
    mark(rt, built.map.as_slice())
}

/// Shows how a run ended, and what it wrote.
pub(crate) fn show_run(rt: &HostRuntime, end: End, console: &[u8]) -> Result<(), Failed> {
    let name = end.name();
    match (end, end.address()) {
        (End::Exited(code), _) => println!(rt; "{name} {code}")?,
        (_, Some(address)) => println!(rt; "{name} {address:x}")?,
        (_, None) => println!(rt; "{name}")?,
    }
    mark(rt, console)
}
