//! Runs that are looked at: reports of why they ended, their last states, traces, and counts.
//!
//! Of a program that was built from sources the map and the texts are at hand, so its symbols, files and lines are shown; of
//! an executable those of the map and of the sources that the words name for it, or else those of its own tables.

use crate::stepping::Guest;
use rv_counts::Counts;
use rv_event_text::EventLines;
use rv_guests::{Guests, report_end, run_line, status_of};
use rv_image::Image;
use rv_job::{Asked, Coverage, LineForm, OutputFormat, Results, Shown};
use rv_machine::{End, ShowFault, WatchFault, Watched};
use rv_map::Map;
use rv_memory::Paged;
use rv_system::{JobError, Purpose, ReadFault, System, cannot, fault_line, write};
use rv_trace::{
    DebugTables, Ending, Last, Places, PlainTrace, Segments, Source, Trace, counts_json,
    counts_text, lcov_text, lines_text, report_json, report_text, state_text,
};
use std::alloc::{AllocError, Global};
use std::io::Write;

/// What is known of a program.
#[derive(Drop)]
pub struct KnownSource {
    /// Its map, where it was built from sources or the words name one.
    pub map: Option<Map>,
    /// The texts of its sources in their order, where it was built from them or the words name them.
    pub sources: Vec<Vec<u8>>,
    /// The bytes of its executable, whose tables say what no map does; none where there is a map.
    pub exe: Vec<u8>,
}

impl KnownSource {
    /// What is known of its addresses, in a working directory.
    fn places<'a, 'w: 'a, 'e: 'a>(
        &'a self,
        alloc: Global,
        asked: &Asked<'w>,
        tables: &'a DebugTables<'e>,
        directory: &str,
    ) -> Result<Places<'a>, JobError> {
        if self.map.is_none() {
            return Ok(Places::of_tables(alloc, tables, directory.as_bytes())?);
        }
        let files = asked.names(alloc)?;
        // an executable stands before its sources
        let first = files.len().saturating_sub(self.sources.len());
        let names = files.as_slice().get(first..).unwrap_or(&[]);
        let mut sources: Vec<Source<'a>> = Vec::new(alloc);
        for (name, text) in names.iter().zip(self.sources.iter()) {
            sources.push(Source {
                name: *name,
                text: text.as_slice(),
            })?;
        }
        match Places::new(alloc, self.map.as_ref(), sources.as_slice()) {
            Ok(places) => Ok(places),
            Err(fault) => Err(fault_line(alloc, &fault, names)?),
        }
    }
}

/// The working directory; empty where the system does not say it.
fn directory<S: System>(system: &S) -> Result<String, JobError> {
    match system.directory() {
        Ok(directory) => Ok(directory),
        Err(ReadFault::Failed) => Ok(String::new(system.alloc())),
        Err(ReadFault::Memory) => Err(JobError::Memory),
    }
}

/// Runs a program, and tells how the run ended and what it left, as far as that is asked; the exit status.
#[inline(never)]
pub fn run_with_results<S: Guests>(
    system: &mut S,
    asked: &Asked<'_>,
    results: &Results<'_>,
    program: KnownSource,
    image: Image,
) -> Result<u8, JobError> {
    let alloc: Global = system.alloc();
    let tables = DebugTables::of(alloc, program.exe.as_slice())?;
    let directory = directory(system)?;
    let places = program.places(alloc, asked, &tables, directory.as_str())?;
    run_known(system, asked, results, &places, image)
}

/// [`run_with_results`] with what is known of the program's addresses.
fn run_known<S: Guests>(
    system: &mut S,
    asked: &Asked<'_>,
    results: &Results<'_>,
    places: &Places<'_>,
    image: Image,
) -> Result<u8, JobError> {
    let alloc: Global = system.alloc();
    let guest = Guest::of(alloc, asked, places)?;
    let segments = Segments::of(alloc, &image)?;
    let mut last = Last::new();
    let mut machine = machine_of(alloc, image)?;
    let watched = guest.watch(system, &mut machine, &mut last, asked.limit);
    let ending = ended(alloc, watched, "-")?;
    put_results(system, results, &machine, last, (places, &segments), ending)
}

/// Tells how a run ended and what it left, as far as that is asked; the exit status.
fn put_results<S: Guests>(
    system: &mut S,
    results: &Results<'_>,
    machine: &Watched<Paged>,
    last: Last,
    known: (&Places<'_>, &Segments),
    ending: Ending,
) -> Result<u8, JobError> {
    let alloc: Global = system.alloc();
    let report = report(alloc, results.report, machine, &last, known, ending)?;
    let state = state(alloc, results, machine, last, known.1, ending)?;
    let status = report_ending(system, ending, results.report);
    put_lines(system, report.as_slice())?;
    if let Some(name) = results.state {
        write(system, name, Purpose::ToRead, state.as_slice())?;
    }
    Ok(status)
}

/// The last state of a run where it is asked for; else nothing.
fn state(
    alloc: Global,
    results: &Results<'_>,
    machine: &Watched<Paged>,
    last: Last,
    segments: &Segments,
    ending: Ending,
) -> Result<Vec<u8>, AllocError> {
    if results.state.is_none() {
        return Ok(Vec::new(alloc));
    }
    state_text(alloc, machine, last, segments, ending)
}

/// The report of a run in the format that is asked for; nothing where none is.
fn report(
    alloc: Global,
    format: Option<OutputFormat>,
    machine: &Watched<Paged>,
    last: &Last,
    known: (&Places<'_>, &Segments),
    ending: Ending,
) -> Result<Vec<u8>, AllocError> {
    let (places, segments) = known;
    match format {
        None => Ok(Vec::new(alloc)),
        Some(OutputFormat::Text) => {
            report_text(alloc, machine, last.latest(), places, segments, ending)
        }
        Some(OutputFormat::Json) => {
            report_json(alloc, machine, last.latest(), places, segments, ending)
        }
    }
}

/// Says how a run ended where the guest did not exit, unless an object of JSON says it; the exit status.
fn report_ending<S: Guests>(system: &mut S, ending: Ending, format: Option<OutputFormat>) -> u8 {
    match ending {
        Ending::Reached => 0,
        Ending::By(end) if format == Some(OutputFormat::Json) => status_of(&end),
        Ending::By(end) => report_end(system, &end),
    }
}

/// Runs a program and counts what it executes; the exit status.
#[inline(never)]
pub fn stats<S: Guests>(
    system: &mut S,
    asked: &Asked<'_>,
    coverage: &Coverage<'_>,
    program: KnownSource,
    image: Image,
) -> Result<u8, JobError> {
    let alloc: Global = system.alloc();
    let tables = DebugTables::of(alloc, program.exe.as_slice())?;
    let directory = directory(system)?;
    let places = program.places(alloc, asked, &tables, directory.as_str())?;
    count_known(system, asked, coverage, &places, image)
}

/// [`stats`] with what is known of the program's addresses.
fn count_known<S: Guests>(
    system: &mut S,
    asked: &Asked<'_>,
    coverage: &Coverage<'_>,
    places: &Places<'_>,
    image: Image,
) -> Result<u8, JobError> {
    let alloc: Global = system.alloc();
    let guest = Guest::of(alloc, asked, places)?;
    let mut counts = Counts::new(alloc, &image)?;
    let mut machine = machine_of(alloc, image)?;
    let watched = guest.watch(system, &mut machine, &mut counts, asked.limit);
    let ending = ended(alloc, watched, "-")?;
    put_counts(system, &counts, places, coverage, ending)
}

/// Tells the counts of a run; the exit status.
fn put_counts<S: Guests>(
    system: &mut S,
    counts: &Counts,
    places: &Places<'_>,
    coverage: &Coverage<'_>,
    ending: Ending,
) -> Result<u8, JobError> {
    let alloc: Global = system.alloc();
    let text = counted(alloc, counts, places, coverage, ending)?;
    let tracefile = tracefile(alloc, counts, places, coverage)?;
    let status = report_ending(system, ending, Some(coverage.format));
    put_lines(system, text.as_slice())?;
    if let Some(name) = coverage.lcov {
        write(system, name, Purpose::ToRead, tracefile.as_slice())?;
    }
    Ok(status)
}

/// The counts in the format that is asked for.
fn counted(
    alloc: Global,
    counts: &Counts,
    places: &Places<'_>,
    coverage: &Coverage<'_>,
    ending: Ending,
) -> Result<Vec<u8>, AllocError> {
    if coverage.format == OutputFormat::Json {
        return counts_json(alloc, counts, places, ending, coverage.lines);
    }
    let mut text = counts_text(alloc, counts, places)?;
    if coverage.lines {
        text.extend_from_slice(lines_text(alloc, counts, places)?.as_slice())?;
    }
    Ok(text)
}

/// The tracefile of lcov where one is asked for; else nothing.
fn tracefile(
    alloc: Global,
    counts: &Counts,
    places: &Places<'_>,
    coverage: &Coverage<'_>,
) -> Result<Vec<u8>, AllocError> {
    match coverage.lcov {
        Some(_) => lcov_text(alloc, counts, places),
        None => Ok(Vec::new(alloc)),
    }
}

/// Runs a program and writes a line for each instruction; the exit status.
#[inline(never)]
pub fn trace<S: Guests>(
    system: &mut S,
    asked: &Asked<'_>,
    shown: &Shown<'_>,
    program: KnownSource,
    image: Image,
) -> Result<u8, JobError> {
    let alloc: Global = system.alloc();
    let tables = DebugTables::of(alloc, program.exe.as_slice())?;
    let directory = directory(system)?;
    let places = program.places(alloc, asked, &tables, directory.as_str())?;
    trace_known(system, asked, shown, &places, image)
}

/// [`trace`] with what is known of the program's addresses.
fn trace_known<S: Guests>(
    system: &mut S,
    asked: &Asked<'_>,
    shown: &Shown<'_>,
    places: &Places<'_>,
    image: Image,
) -> Result<u8, JobError> {
    let alloc: Global = system.alloc();
    let guest = Guest::of(alloc, asked, places)?;
    let last = last_shown(shown);
    let limit = asked.limit.min(last);
    let traced = match shown.form {
        LineForm::Whole => whole_lines(system, &guest, shown, image, (places, limit))?,
        LineForm::Plain => plain_lines(system, &guest, shown, image, (places, limit))?,
        LineForm::Event => event_lines(system, &guest, shown, image, limit)?,
    };
    let name = shown.output.unwrap_or("-");
    let ending = ended(alloc, traced.watched, name)?;
    match traced.finished {
        Ok(()) => {}
        Err(fault) => return Err(show_line(alloc, fault, name)?),
    }
    // all the lines that were asked for are written
    if matches!(ending, Ending::By(End::Limit)) && last <= asked.limit {
        return Ok(0);
    }
    Ok(report_ending(system, ending, None))
}

/// What came of a traced run.
#[derive(Clone, Copy, Drop)]
struct Traced {
    watched: Result<Ending, WatchFault>,
    /// Whether the last lines were written.
    finished: Result<(), ShowFault>,
}

/// Runs an image and writes a whole line for each instruction.
fn whole_lines<S: Guests>(
    system: &mut S,
    guest: &Guest,
    shown: &Shown<'_>,
    image: Image,
    known: (&Places<'_>, u64),
) -> Result<Traced, JobError> {
    let alloc: Global = system.alloc();
    let (places, limit) = known;
    let Ok(mut lines) = system.lines(shown.output) else {
        return Err(cannot(alloc, "write", shown.output.unwrap_or("-"))?);
    };
    let mut trace = Trace::new(alloc, &image, places, &mut lines, shown.first)?;
    let mut machine = machine_of(alloc, image)?;
    let watched = guest.watch(system, &mut machine, &mut trace, limit);
    match watched {
        // no line is told in part
        Err(WatchFault::Watcher(ShowFault::OutOfMemory)) => Err(JobError::Memory),
        _ => Ok(Traced {
            watched,
            finished: trace.finish(),
        }),
    }
}

/// Runs an image and writes a plain line for each instruction.
fn plain_lines<S: Guests>(
    system: &mut S,
    guest: &Guest,
    shown: &Shown<'_>,
    image: Image,
    known: (&Places<'_>, u64),
) -> Result<Traced, JobError> {
    let alloc: Global = system.alloc();
    let (places, limit) = known;
    let Ok(mut lines) = system.lines(shown.output) else {
        return Err(cannot(alloc, "write", shown.output.unwrap_or("-"))?);
    };
    let segments = Segments::of(alloc, &image)?;
    let mut trace = PlainTrace::new(alloc, places, &segments, &mut lines, shown.first);
    let mut machine = machine_of(alloc, image)?;
    let watched = guest.watch(system, &mut machine, &mut trace, limit);
    match watched {
        // no line is told in part
        Err(WatchFault::Watcher(ShowFault::OutOfMemory)) => Err(JobError::Memory),
        _ => Ok(Traced {
            watched,
            finished: trace.finish(),
        }),
    }
}

/// Runs an image and writes the line of each event.
fn event_lines<S: Guests>(
    system: &mut S,
    guest: &Guest,
    shown: &Shown<'_>,
    image: Image,
    limit: u64,
) -> Result<Traced, JobError> {
    let alloc: Global = system.alloc();
    let Ok(mut lines) = system.lines(shown.output) else {
        return Err(cannot(alloc, "write", shown.output.unwrap_or("-"))?);
    };
    let mut events = EventLines::new(alloc, &mut lines);
    let mut machine = machine_of(alloc, image)?;
    let watched = guest.watch(system, &mut machine, &mut events, limit);
    match watched {
        Err(WatchFault::Watcher(ShowFault::OutOfMemory)) => Err(JobError::Memory),
        // a line may be kept in part
        Err(WatchFault::Watcher(ShowFault::Unwritten)) => Ok(Traced {
            watched,
            finished: Ok(()),
        }),
        _ => Ok(Traced {
            watched,
            finished: events.finish(),
        }),
    }
}

/// The number of the last instruction that has a line; 2^64 - 1 where no count is given.
fn last_shown(shown: &Shown<'_>) -> u64 {
    match shown.count {
        Some(count) => shown.first.saturating_sub(1).saturating_add(count),
        None => u64::MAX,
    }
}

/// An image's machine before its first step.
fn machine_of(alloc: Global, image: Image) -> Result<Watched<Paged>, AllocError> {
    let entry = image.entry;
    Ok(Watched::new(Paged::new(alloc, image)?, entry))
}

/// How a run ended, or the line that says why it came to no end.
fn ended(
    alloc: Global,
    watched: Result<Ending, WatchFault>,
    name: &str,
) -> Result<Ending, JobError> {
    match watched {
        Ok(ending) => Ok(ending),
        Err(fault) => Err(watch_line(alloc, fault, name)?),
    }
}

/// The line of a run that came to no end; `name` is what could not be written.
fn watch_line(alloc: Global, fault: WatchFault, name: &str) -> Result<JobError, AllocError> {
    match fault {
        WatchFault::Run(fault) => run_line(alloc, &fault),
        WatchFault::Watcher(fault) => show_line(alloc, fault, name),
    }
}

/// The line of what could not be shown; `name` is what could not be written.
fn show_line(alloc: Global, fault: ShowFault, name: &str) -> Result<JobError, AllocError> {
    match fault {
        ShowFault::Unwritten => cannot(alloc, "write", name),
        ShowFault::OutOfMemory => Ok(JobError::Memory),
    }
}

/// Writes lines to standard error.
fn put_lines<S: System>(system: &mut S, text: &[u8]) -> Result<(), JobError> {
    let alloc: Global = system.alloc();
    let Ok(mut lines) = system.lines(None) else {
        return Err(cannot(alloc, "write", "-")?);
    };
    match lines.write_all(text) {
        Ok(()) => Ok(()),
        Err(_) => Err(cannot(alloc, "write", "-")?),
    }
}
