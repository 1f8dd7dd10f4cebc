//! A second look at a run that did not exit: where it ended, and by which access.

use rv_chain::{Built, build_on};
use rv_guests::Console;
use rv_image::Image;
use rv_job::default_options;
use rv_machine::{End, Io, Watched, run_watched};
use rv_memory::Paged;
use rv_system::{JobError, fault_line, image_in, map_in};
use rv_trace::{Ending, Latest, Places, Segments, Source, report_text};
use std::alloc::{AllocError, Global};

/// The most instructions that are executed again to see where a run ended.
const LOOKED_AT: u64 = 100_000_000;

/// Adds the lines of a report on how a run of a source ended, down to the cure and the registers; none of a longer run.
pub(crate) fn put_report(
    alloc: Global,
    details: &mut String,
    name: &str,
    source: &[u8],
    input: &[u8],
    most: u64,
) -> Result<(), JobError> {
    match build_on(alloc, &[source], default_options()) {
        Ok(built) => {
            let source = Source { name, text: source };
            put_built(alloc, details, source, &built, input, most)
        }
        Err(fault) => Err(fault_line(alloc, &fault, &[name])?),
    }
}

/// Adds those lines of what the source was built into.
fn put_built(
    alloc: Global,
    details: &mut String,
    source: Source<'_>,
    built: &Built,
    input: &[u8],
    most: u64,
) -> Result<(), JobError> {
    let map = map_in(alloc, source.name, built.map.as_slice())?;
    let image = image_in(alloc, source.name, built.exe.as_slice())?;
    match Places::new(alloc, Some(&map), &[source]) {
        Ok(places) => put_ran(alloc, details, image, &places, input, most),
        Err(fault) => Err(fault_line(alloc, &fault, &[source.name])?),
    }
}

/// Adds those lines of how an image ran.
fn put_ran(
    alloc: Global,
    details: &mut String,
    image: Image,
    places: &Places<'_>,
    input: &[u8],
    most: u64,
) -> Result<(), JobError> {
    let segments = Segments::of(alloc, &image)?;
    let entry = image.entry;
    let mut machine = Watched::new(Paged::new(alloc, image)?, entry);
    let mut latest = Latest::new();
    match looked_at(alloc, &mut machine, &mut latest, input, most) {
        Some(end) => put_end(alloc, details, &machine, &latest, (places, &segments), end),
        None => Ok(()),
    }
}

/// Adds those lines of a machine that came to an end.
fn put_end(
    alloc: Global,
    details: &mut String,
    machine: &Watched<Paged>,
    latest: &Latest,
    known: (&Places<'_>, &Segments),
    end: End,
) -> Result<(), JobError> {
    let (places, segments) = known;
    let ending = Ending::By(end);
    let text = report_text(alloc, machine, latest, places, segments, ending)?;
    let report = String::from_utf8_lossy(alloc, text.as_slice())?;
    Ok(put_lines(details, report.as_str())?)
}

/// Runs a machine to its end, unless that is far.
fn looked_at(
    alloc: Global,
    machine: &mut Watched<Paged>,
    latest: &mut Latest,
    input: &[u8],
    most: u64,
) -> Option<End> {
    let limit = most.min(LOOKED_AT);
    let mut reader = Io::new(input);
    let mut console = Console::new(alloc);
    match run_watched(machine, &mut reader, &mut console, latest, limit) {
        Ok(End::Limit) if limit < most => None,
        Ok(end) => Some(end),
        Err(_) => None,
    }
}

/// Adds the lines before those of a cure, which speaks of the words of a run, and of the registers.
fn put_lines(details: &mut String, report: &str) -> Result<(), AllocError> {
    for line in report.lines() {
        if line == "cure" || line == "registers" {
            break;
        }
        put_line(details, line)?;
    }
    Ok(())
}

/// Adds a line, which is indented.
fn put_line(details: &mut String, line: &str) -> Result<(), AllocError> {
    details.push_str("  ")?;
    details.push_str(line)?;
    details.push_str("\n")
}
