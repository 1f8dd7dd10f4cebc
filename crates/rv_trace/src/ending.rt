//! How a run ended that may be ended on its way.

use rv_machine::End;

/// How a watched run ended.
#[derive(Clone, Copy, Drop)]
pub enum Ending {
    /// As the machine ends runs.
    By(End),
    /// Before the instruction where it was to end.
    Reached,
}

impl Ending {
    /// The name of the end.
    pub(crate) fn name(self) -> &'static str {
        match self {
            Ending::By(end) => end.name(),
            Ending::Reached => "Reached",
        }
    }

    /// The end by which the machine stopped: one that was reached it stopped as at a limit.
    pub(crate) fn end(self) -> End {
        match self {
            Ending::By(end) => end,
            Ending::Reached => End::Limit,
        }
    }

    /// The status of an exit.
    pub(crate) fn status(self) -> Option<u64> {
        match self {
            Ending::By(End::Exited(status)) => Some(u64::from(status)),
            _ => None,
        }
    }

    /// The address, where the end has one.
    pub(crate) fn address(self) -> Option<u64> {
        match self {
            Ending::By(end) => end.address(),
            Ending::Reached => None,
        }
    }
}
