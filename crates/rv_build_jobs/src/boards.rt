//! Runs on a board.
//!
//! Sources are built to stand where RAM begins, as they are by `--origin`. An executable that cannot stand on the board is
//! refused before it runs.

use crate::building::executable;
use crate::loading::{given_sources, is_elf};
use crate::refusing::program_image;
use rv_board::{RAM_START, lie_in_ram};
use rv_guests::{GuestInput, Guests, report_end, run_line};
use rv_image::Image;
use rv_job::{Asked, board_options};
use rv_system::{JobError, borrowed, given_bytes};
use std::alloc::{AllocError, Global};

/// Runs an executable, or builds sources and runs what they come to, on the board `virt`; the exit status.
#[inline(never)]
pub fn run_on_board<S: Guests>(system: &mut S, asked: &Asked<'_>) -> Result<u8, JobError> {
    let alloc: Global = system.alloc();
    let image = image_asked(system, asked)?;
    if image.entry != RAM_START {
        return Err(refused_entry(alloc, asked.file)?);
    }
    if !lie_in_ram(image.segments.as_slice()) {
        return Err(refused_segments(alloc, asked.file)?);
    }
    let input = if asked.has_input() {
        GuestInput::Empty
    } else {
        GuestInput::Standard
    };
    match system.run_on_board(image, input, asked.limit) {
        Ok(end) => Ok(report_end(system, &end)),
        Err(fault) => Err(run_line(alloc, &fault)?),
    }
}

/// The image of the executable that the words name, or of what their sources build.
fn image_asked<S: Guests>(system: &mut S, asked: &Asked<'_>) -> Result<Image, JobError> {
    if asked.others.is_empty() {
        let bytes = given_bytes(system, asked.file)?;
        if is_elf(bytes.as_slice()) {
            return program_image(system, asked, bytes.as_slice());
        }
        return built_image(system, asked, &[asked.file], &[bytes.as_slice()]);
    }
    let alloc: Global = system.alloc();
    let names = asked.names(alloc)?;
    let read = given_sources(system, names.as_slice())?;
    let sources = borrowed(alloc, read.as_slice())?;
    built_image(system, asked, names.as_slice(), sources.as_slice())
}

/// The image of what sources build for the board.
fn built_image<S: Guests>(
    system: &mut S,
    asked: &Asked<'_>,
    names: &[&str],
    sources: &[&[u8]],
) -> Result<Image, JobError> {
    let exe = executable(system, names, sources, board_options(), asked.explains)?;
    program_image(system, asked, exe.as_slice())
}

/// The line of an executable that begins elsewhere.
fn refused_entry(alloc: Global, name: &str) -> Result<JobError, AllocError> {
    Ok(JobError::Line(format!(in alloc;
        "{name}: does not begin at 0x80000000, where the board does: rv build --origin 0x80000000 puts it there"
    )?))
}

/// The line of an executable of which a part lies elsewhere.
fn refused_segments(alloc: Global, name: &str) -> Result<JobError, AllocError> {
    Ok(JobError::Line(format!(in alloc;
        "{name}: has segments outside of the board's RAM, 0x80000000 to 0x88000000, or not in their order"
    )?))
}
