//! What the program does: each job is done by the crate of its group.
//!
//! Files, streams and guests are reached through [`System`] and [`Guests`] alone, so that a test sees each exit status and
//! each line without starting a process. Each job is a function of its own in the program (`inline(never)`), so that to run
//! a small guest takes few pages of it.

use rv_batch_jobs::answer_calls;
use rv_build_jobs::{
    assemble, build_files, link_files, load_program, print_map, run, run_on_board,
};
use rv_case_jobs::run_cases;
use rv_command_line::completions;
use rv_file_jobs::{code, dump, elf, names, objdump, raw, sizes, write_image};
use rv_gdb_jobs::debug;
use rv_guests::Guests;
use rv_job::{Asked, Coverage, Debugged, Job, Results, Shell, Shown};
use rv_source_jobs::{ListStyle, check_files, explain, list};
use rv_system::{JobError, System, print};
use rv_watched_jobs::{run_with_results, stats, trace};

/// Does a job; the exit status.
pub(crate) fn run_job<S: Guests>(system: &mut S, job: &Job<'_>) -> Result<u8, JobError> {
    match job {
        Job::Run(asked) => run(system, asked),
        Job::RunOnBoard(asked) => run_on_board(system, asked),
        Job::Watch(asked, results) => look_back(system, asked, results),
        Job::Trace(asked, shown) => show_steps(system, asked, shown),
        Job::Stats(asked, coverage) => count(system, asked, coverage),
        Job::Debug(asked, streams) => let_debug(system, asked, streams),
        Job::Test(asked) => run_cases(system, asked),
        Job::Batch { limit } => answer_calls(system, *limit),
        Job::Build(asked) => build_files(system, asked),
        Job::Assemble(asked) => assemble(system, asked),
        Job::Link(asked) => link_files(system, asked),
        Job::Map(asked) => print_map(system, asked),
        Job::Objdump {
            map,
            exe,
            map_first,
        } => objdump(system, map, exe, *map_first),
        Job::Raw { exe } => raw(system, exe),
        Job::Code(asked) => code(system, asked),
        Job::List {
            all,
            debug,
            options,
            sources,
        } => {
            let style = ListStyle {
                all: *all,
                debug: *debug,
            };
            list(system, sources.as_slice(), *options, style)
        }
        Job::Dump { file } => dump(system, file),
        Job::Size { files, format } => sizes(system, files.as_slice(), *format),
        Job::Names { map, file, format } => names(system, *map, file, *format),
        Job::Elf { file } => elf(system, file),
        Job::Check {
            options,
            sources,
            format,
        } => check_files(system, sources.as_slice(), *options, *format),
        Job::Explain { entry } => explain(system, *entry),
        Job::Image(asked) => write_image(system, asked),
        Job::Completions { shell } => complete(system, *shell),
    }
}

/// Runs, and tells how the run ended as far as that is asked; the exit status.
fn look_back<S: Guests>(
    system: &mut S,
    asked: &Asked<'_>,
    results: &Results<'_>,
) -> Result<u8, JobError> {
    let (program, image) = load_program(system, asked)?;
    run_with_results(system, asked, results, program, image)
}

/// Runs, and writes a line for each instruction; the exit status.
fn show_steps<S: Guests>(
    system: &mut S,
    asked: &Asked<'_>,
    shown: &Shown<'_>,
) -> Result<u8, JobError> {
    let (program, image) = load_program(system, asked)?;
    trace(system, asked, shown, program, image)
}

/// Runs, and counts what is executed; the exit status.
fn count<S: Guests>(
    system: &mut S,
    asked: &Asked<'_>,
    coverage: &Coverage<'_>,
) -> Result<u8, JobError> {
    let (program, image) = load_program(system, asked)?;
    stats(system, asked, coverage, program, image)
}

/// Lets a debugger have a run; the exit status.
fn let_debug<S: Guests>(
    system: &mut S,
    asked: &Asked<'_>,
    streams: &Debugged<'_>,
) -> Result<u8, JobError> {
    let (_, image) = load_program(system, asked)?;
    debug(system, image, asked.limit, streams)
}

/// Prints what a shell completes words by; the exit status.
fn complete<S: System>(system: &mut S, shell: Shell) -> Result<u8, JobError> {
    let text = completions(system.alloc(), shell)?;
    print(system, text.as_bytes())?;
    Ok(0)
}
