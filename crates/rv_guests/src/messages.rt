//! The lines of how a run of a guest ended, or why it came to no end, without `rv: ` before them.

ghost use Rattle.std.specs.Prelude.{◌≡◌, IfOk};
ghost use Rattle.rv_system.specs.Messages.{Tells};
ghost use Rattle.rv_guests.specs.Messages.{end_text, run_text};

use arrayvec::ArrayString;
use rv_machine::{End, RunFault};
use rv_map::write_hexadecimal;
use rv_system::JobError;
use std::alloc::{AllocError, Global};
use std::str::from_utf8;

/// The most bytes of the line of an end: the longest name, a blank and 16 digits.
const LINE_BYTES: usize = 33;

/// As `FetchOutside 8`; an address is hexadecimal, in lower case. It takes no memory, as the guest has run by then.
pub fn end_line(end: &End) -> ArrayString<LINE_BYTES>
    ensures { result.bytes ≡ end_text end.now }
{
    let mut line = ArrayString::new();
    line.push_str(end.name());
    let Some(address) = end.address() else {
        return line;
    };
    line.push_str(" ");
    let mut digits = [0; 16];
    let start = write_hexadecimal(&mut digits, address);
    // Digits are ASCII.
    if let Ok(digits) = from_utf8(&digits[start..]) {
        line.push_str(digits);
    }
    line
}

/// As `X1 InputFault`.
pub fn run_line(alloc: Global, fault: &RunFault) -> Result<JobError, AllocError>
    ensures { IfOk result (λ error. Tells error (run_text fault.now)) }
{
    match fault {
        RunFault::InputFault => Ok(JobError::Line("X1 InputFault".to_string(alloc)?)),
        RunFault::OutputFault => Ok(JobError::Line("X2 OutputFault".to_string(alloc)?)),
        RunFault::OutOfMemory => Ok(JobError::Memory),
    }
}
