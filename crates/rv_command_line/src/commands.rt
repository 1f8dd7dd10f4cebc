//! The words as commands of `clap`, which takes them apart and writes the help.

use crate::operands::{Entry, Name, Need, Uses};
use crate::words::{Help, WORDS, help_of};
use clap::{Arg, ArgAction, Command};
use std::alloc::{AllocError, Global};
use std::slice::from_ref;

/// What `--version` says. `scripts/marks.py` writes over the words in brackets, in the finished executable, whether it
/// was proved and of which commit it is.
const VERSION: &str = "0.2.0 (not marked, commit not recorded)";

/// What stands below the options in the help of the program.
const HELP: &str = "Examples:
  rv run prog.s                             builds a source and runs it
  rv run --report prog.s                    says why a run ended
  rv trace prog.s                           shows each instruction of a run
  rv stats --lines prog.s                   counts what a run executes
  rv gdb prog                               lets gdb debug a run, forwards and backwards
  rv test cases/                            runs programs with what must come of them
  rv batch < calls                          answers many calls in one process
  rv build -o prog --map prog.map prog.s    writes the executable and its map
  rv as -o prog.o prog.s                    writes the object of a source
  rv ld -o prog prog.o other.o              links objects
  rv map prog.s                             shows where each statement stands
  rv objdump --map prog.map prog            shows the instructions of each statement
  rv objdump --raw prog                     shows the text as a source that builds it again
  rv dis prog.o                             shows the instructions of any file, with names
  rv list prog.s                            shows each line with its address and bytes
  rv dump prog                              shows the bytes of a file
  rv size prog.o other.o                    shows the sizes of files
  rv nm prog.o                              shows the names of a file
  rv elf prog                               shows the headers and tables of a file
  rv image --ihex -o prog.hex prog          writes an image for flash memory
  rv check prog.s                           says what is wrong with a source, and where
  rv explain E14                            says what a code means
  rv completions bash                       writes what a shell completes words by

Without words rv does the same as 'rv run -'.
Exit status: 0 done; 1 refused, the fault stands on standard error; 2 wrong words.
'rv run' exits with the guest's status, or with 125 where the guest did not exit.";

/// The command of the program. Where `first` names a word, it has that one alone, which is all that the rest of the words
/// speak to.
pub(crate) fn command<'a>(alloc: Global, first: Option<&str>) -> Result<Command<'a>, AllocError> {
    let plain = Command::new(alloc, "rv")
        .version(VERSION)
        .about("Assembles, links and runs bare RISC-V programs (RV64IMAC).")
        .after_help(HELP);
    let mut entries = Vec::new(alloc);
    match first.and_then(help_of) {
        Some(help) => with_words(alloc, plain, from_ref(help), &mut entries),
        None => with_words(alloc, plain, &WORDS, &mut entries),
    }
}

/// The command with words; `entries` is room for the operands of one.
fn with_words<'a>(
    alloc: Global,
    plain: Command<'a>,
    words: &[Help],
    entries: &mut Vec<Entry>,
) -> Result<Command<'a>, AllocError> {
    let mut command = plain;
    for help in words {
        command = command.subcommand(word_command(alloc, help, entries)?)?;
    }
    Ok(command)
}

/// The command of a word by what it says of itself and by its operands.
fn word_command<'a>(
    alloc: Global,
    help: &Help,
    entries: &mut Vec<Entry>,
) -> Result<Command<'a>, AllocError> {
    help.word.list(alloc, entries)?;
    let mut command = Command::new(alloc, help.name)
        .about(help.about)
        .after_help(help.after_help);
    for entry in entries.as_slice() {
        command = command.arg(argument(alloc, entry)?)?;
    }
    Ok(command)
}

/// What `clap` knows of an operand.
fn argument<'a>(alloc: Global, entry: &Entry) -> Result<Arg<'a>, AllocError> {
    let plain = match entry.name {
        Name::Long(long) => Arg::new(alloc, entry.id).long(long),
        Name::Letter(letter) => Arg::new(alloc, entry.id).short(letter),
        Name::Alone => Arg::new(alloc, entry.id),
    };
    let values = values_of(entry.uses);
    let (one, other) = unless(entry.need);
    plain
        .help(entry.help)
        .value_name(entry.value)
        .action(values.action)
        .num_args(values.least..=values.most)
        .default_missing_values(values.missing)
        .required(matches!(entry.need, Need::Required))
        .required_unless_present_any(one.as_slice())?
        .required_unless_present_any(other.as_slice())?
        .requires_all(beside(entry.need).as_slice())?
        .conflicts_with_all(against(entry.need).as_slice())
}

/// What `clap` does with a use of an operand, and how many values it has.
#[derive(Clone, Copy, Drop)]
struct Values {
    action: ArgAction,
    least: usize,
    most: usize,
    /// The values of a use without any, where it has some.
    missing: &'static [&'static str],
}

fn values_of(uses: Uses) -> Values {
    let (action, least, most) = match uses {
        Uses::Flag => (ArgAction::SetTrue, 0, 0),
        Uses::Flags => (ArgAction::Append, 0, 0),
        Uses::One => (ArgAction::Set, 1, 1),
        Uses::Each => (ArgAction::Append, 1, 1),
        Uses::Several => (ArgAction::Append, 1, usize::MAX),
    };
    let missing: &[&str] = match uses {
        Uses::Flags => &[""],
        _ => &[],
    };
    Values {
        action,
        least,
        most,
        missing,
    }
}

/// The operands of which one stands for one with this need.
fn unless(need: Need) -> (Option<&'static str>, Option<&'static str>) {
    match need {
        Need::Unless(other) => (Some(other), None),
        Need::UnlessEither(one, other) => (Some(one), Some(other)),
        _ => (None, None),
    }
}

/// The operand that has to be there beside one with this need.
fn beside(need: Need) -> Option<&'static str> {
    match need {
        Need::Beside(other) => Some(other),
        _ => None,
    }
}

/// The operand that must not be there beside one with this need.
fn against(need: Need) -> Option<&'static str> {
    match need {
        Need::Against(other) => Some(other),
        _ => None,
    }
}
