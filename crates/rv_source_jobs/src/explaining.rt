//! What the program says of the codes of faults and of the ends of runs.

use rv_fault_texts::titles;
use rv_system::{JobError, System, print};
use std::alloc::Global;

/// Prints the entry of a code, or the list of codes; the exit status.
#[inline(never)]
pub fn explain<S: System>(system: &mut S, entry: Option<&str>) -> Result<u8, JobError> {
    let alloc: Global = system.alloc();
    let text = match entry {
        Some(entry) => format!(in alloc; "{entry}\n")?,
        None => titles(alloc)?,
    };
    print(system, text.as_bytes())?;
    Ok(0)
}
