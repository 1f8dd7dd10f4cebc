//! What must come of a source, and whether it came.

ghost use Rattle.std.specs.Prelude.{◌≡◌};
ghost use Rattle.rv_cases.specs.Cases.{ends_so, is_met, most_of};

use crate::fault::{CaseError, CaseFault};
use crate::head::Head;
use rv_guests::end_line;
use rv_machine::{End, Outcome};
use std::alloc::Global;

/// How a run must end.
#[derive(Drop)]
pub enum WantedEnd {
    /// By an exit with this status.
    Exited(u8),
    /// By another end, as its line has it: `LoadOutside 11010`.
    Other(Vec<u8>),
}

/// What must come of a source.
#[derive(Drop)]
pub enum Wanted {
    /// The build is refused with this line, in which the source has its name without folders.
    Refused(Vec<u8>),
    /// The run ends so, and has written this where something is said of it.
    Run(WantedEnd, Option<Vec<u8>>),
}

/// A source's case.
#[derive(Drop)]
pub struct Case {
    /// The guest's input.
    pub input: Vec<u8>,
    /// The most instructions of the run, where it is said.
    pub limit: Option<u64>,
    /// Within how many instructions the run has to end, where it is said.
    pub instructions: Option<u64>,
    pub wanted: Wanted,
}

impl Case {
    /// The case of a source, by its head and by the files that stand beside it, where there are any: its input, and what
    /// it must write.
    pub fn of(
        alloc: Global,
        source: &[u8],
        input: Option<Vec<u8>>,
        console: Option<Vec<u8>>,
    ) -> Result<Case, CaseError> {
        let head = Head::of(alloc, source)?;
        let input = only(head.input, input, CaseFault::Twice("input"))?;
        let console = only(head.console, console, CaseFault::Twice("console"))?;
        Ok(Case {
            input: input.unwrap_or(Vec::new(alloc)),
            limit: head.limit,
            instructions: head.instructions,
            wanted: wanted_of(head.fault, head.exit, head.end, console)?,
        })
    }

    /// How many instructions are executed at most, where `limit` stands for what the case does not say.
    pub fn most(&self, limit: u64) -> u64
        ensures { result ≡ most_of self.now.limit self.now.instructions limit }
    {
        let limit = self.limit.unwrap_or(limit);
        limit.min(self.instructions.unwrap_or(limit))
    }

    /// Whether this is what had to come of a run.
    pub fn is_met(&self, outcome: &Outcome) -> bool
        ensures { result ≡ is_met self.now.wanted outcome.now }
    {
        match &self.wanted {
            Wanted::Refused(_) => false,
            Wanted::Run(end, None) => ends_so(end, &outcome.end),
            Wanted::Run(end, Some(console)) => {
                ends_so(end, &outcome.end) && console.as_slice() == outcome.console.as_slice()
            }
        }
    }
}

/// Whether a run ended as it must.
pub fn ends_so(wanted: &WantedEnd, end: &End) -> bool
    ensures { result ≡ ends_so wanted.now end.now }
{
    match wanted {
        WantedEnd::Exited(status) => matches!(end, End::Exited(code) if *code == *status),
        WantedEnd::Other(line) => match end {
            End::Exited(_) => false,
            _ => line.as_slice() == end_line(end).as_bytes(),
        },
    }
}

/// The one of two that is there.
fn only<T: Drop>(
    one: Option<T>,
    other: Option<T>,
    both: CaseFault,
) -> Result<Option<T>, CaseError> {
    match (one, other) {
        (Some(_), Some(_)) => Err(CaseError::Wrong(None, both)),
        (Some(value), None) | (None, Some(value)) => Ok(Some(value)),
        (None, None) => Ok(None),
    }
}

/// What must come, of all that may be said of it: a fault alone, or an end, which is an exit with 0 where only the console is
/// said.
fn wanted_of(
    fault: Option<Vec<u8>>,
    exit: Option<u8>,
    end: Option<Vec<u8>>,
    console: Option<Vec<u8>>,
) -> Result<Wanted, CaseError> {
    match (fault, exit, end) {
        (Some(line), None, None) => match console {
            None => Ok(Wanted::Refused(line)),
            Some(_) => Err(CaseError::Wrong(None, CaseFault::Both("fault", "console"))),
        },
        (Some(_), Some(_), _) => Err(CaseError::Wrong(None, CaseFault::Both("fault", "exit"))),
        (Some(_), None, Some(_)) => Err(CaseError::Wrong(None, CaseFault::Both("fault", "end"))),
        (None, Some(_), Some(_)) => Err(CaseError::Wrong(None, CaseFault::Both("exit", "end"))),
        (None, Some(status), None) => Ok(Wanted::Run(WantedEnd::Exited(status), console)),
        (None, None, Some(line)) => Ok(Wanted::Run(WantedEnd::Other(line), console)),
        (None, None, None) => match console {
            Some(_) => Ok(Wanted::Run(WantedEnd::Exited(0), console)),
            None => Err(CaseError::Wrong(None, CaseFault::Nothing)),
        },
    }
}
