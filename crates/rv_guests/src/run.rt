//! Runs over an input at hand and a console that is kept.

use crate::console::Console;
use rv_counts::Executed;
use rv_image::Image;
use rv_machine::{End, Io, Outcome, RunFault, WatchFault, Watched, run_io, run_watched};
use rv_memory::Paged;
use std::alloc::{AllocError, Global};
use thiserror::Error;

/// Why a run came to no end.
#[derive(Clone, Copy, Debug, Drop, Error)]
pub enum KeptFault {
    /// The guest has written more than is kept.
    #[error("the console has more than 64 MiB")]
    ConsoleLimit,
    #[error("out of memory")]
    Memory,
}

impl From<AllocError> for KeptFault {
    fn from(_: AllocError) -> Self {
        KeptFault::Memory
    }
}

/// Runs an image with an input, at most `limit` instructions.
pub fn run_kept(
    alloc: Global,
    image: Image,
    input: &[u8],
    limit: u64,
) -> Result<Outcome, KeptFault> {
    let mut reader = Io::new(input);
    let mut console = Console::new(alloc);
    let ended = run_io(alloc, image, &mut reader, &mut console, limit);
    outcome(ended, console)
}

/// Runs an image as [`run_kept`] does, and counts the instructions that it executes.
pub fn run_counted(
    alloc: Global,
    image: Image,
    input: &[u8],
    limit: u64,
) -> Result<(Outcome, u64), KeptFault> {
    let entry = image.entry;
    let mut machine = Watched::new(Paged::new(alloc, image)?, entry);
    let mut reader = Io::new(input);
    let mut console = Console::new(alloc);
    let mut executed = Executed::new();
    let watched = run_watched(
        &mut machine,
        &mut reader,
        &mut console,
        &mut executed,
        limit,
    );
    let ended = match watched {
        Ok(end) => Ok(end),
        Err(WatchFault::Run(fault)) => Err(fault),
        // this watcher only counts
        Err(WatchFault::Watcher(_)) => Err(RunFault::OutputFault),
    };
    Ok((outcome(ended, console)?, executed.count()))
}

/// What a run has come to with its console.
fn outcome(ended: Result<End, RunFault>, console: Console) -> Result<Outcome, KeptFault> {
    let console = console.written()?;
    match ended {
        Ok(end) => Ok(Outcome { console, end }),
        Err(RunFault::OutOfMemory) => Err(KeptFault::Memory),
        // an input at hand never fails
        Err(RunFault::InputFault | RunFault::OutputFault) => Err(KeptFault::ConsoleLimit),
    }
}
