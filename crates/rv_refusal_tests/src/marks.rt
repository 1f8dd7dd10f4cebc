//! The marks between which requests for memory count.

use crate::error::Failed;
use std::io::Write;

/// Makes a call between two marks; where memory ran out, says so and makes it again.
pub(crate) fn marked<T: Drop, F: FnMut() -> Result<T, Failed>>(
    rt: &HostRuntime,
    mut call: F,
) -> Result<T, Failed>
    requires { F.IsAlwaysCallable call }
{
    mark(rt, b"begin\n")?;
    let mut answer = call();
    if matches!(answer, Err(Failed::Memory)) {
        mark(rt, b"memory\n")?;
        answer = call();
    }
    mark(rt, b"answer\n")?;
    answer
}

/// Writes to standard output, at once.
pub(crate) fn mark(rt: &HostRuntime, bytes: &[u8]) -> Result<(), Failed> {
    rt.stdout().write_all(bytes)?;
    Ok(())
}
