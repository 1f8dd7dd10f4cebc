//! How a run of a guest ended, as an exit status.

ghost use Rattle.std.specs.Prelude.{◌≡◌};
ghost use Rattle.rv_guests.specs.Status.{run_status};

use crate::messages::end_line;
use rv_machine::End;
use rv_system::System;

/// The exit status of a run that the guest did not end by an exit.
const NOT_EXITED: u8 = 125;

/// Says how a run ended where the guest did not exit; the exit status.
pub fn report_end<S: System>(system: &mut S, end: &End) -> u8
    ensures { result ≡ run_status end.now }
{
    if !matches!(end, End::Exited(_)) {
        system.tell(end_line(end).as_str());
    }
    status_of(end)
}

/// The exit status of a run.
pub fn status_of(end: &End) -> u8
    ensures { result ≡ run_status end.now }
{
    match end {
        End::Exited(code) => *code,
        _ => NOT_EXITED,
    }
}
