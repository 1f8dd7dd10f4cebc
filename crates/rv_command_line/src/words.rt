//! The words of the command line: what each says of itself, and the job that it asks for.
//!
//! The command line, the help, the completions of shells and the jobs are all made by this table and the functions of its
//! words, so that none of them knows a word or an operand that another does not.

use crate::operands::{Entry, Operands};
use crate::{builds, cases, files, runs, sources};
use rv_job::Job;
use std::alloc::{AllocError, Global};

/// A word: a job of the program.
#[derive(Clone, Copy, Drop)]
pub(crate) enum Word {
    Run,
    Trace,
    Stats,
    Gdb,
    Test,
    Batch,
    Build,
    Assemble,
    Link,
    Map,
    Objdump,
    Code,
    List,
    Dump,
    Size,
    Names,
    Elf,
    Image,
    Check,
    Explain,
    Completions,
}

/// A row of the table: a word, with what it says of itself.
#[derive(Clone, Copy, Drop)]
pub(crate) struct Help {
    pub(crate) word: Word,
    pub(crate) name: &'static str,
    /// What it does, in a line.
    pub(crate) about: &'static str,
    /// What stands below its help: an example at least.
    pub(crate) after_help: &'static str,
}

/// All words, in the order of the help.
pub(crate) const WORDS: [Help; 21] = [
    runs::RUN,
    runs::TRACE,
    runs::STATS,
    runs::GDB,
    cases::TEST,
    cases::BATCH,
    builds::BUILD,
    builds::ASSEMBLE,
    builds::LINK,
    builds::MAP,
    files::OBJDUMP,
    files::CODE,
    sources::LIST,
    files::DUMP,
    files::SIZE,
    files::NAMES,
    files::ELF,
    files::IMAGE,
    sources::CHECK,
    sources::EXPLAIN,
    sources::COMPLETIONS,
];

/// The row of a name.
pub(crate) fn help_of(name: &str) -> Option<&'static Help> {
    for help in &WORDS {
        if help.name == name {
            return Some(help);
        }
    }
    None
}

impl Word {
    /// The job that it asks for with its operands, unless it refuses one.
    pub(crate) fn job<'a>(self, operands: &mut Operands<'_, 'a>) -> Job<'a> {
        match self {
            Word::Run => runs::run(operands),
            Word::Trace => runs::trace(operands),
            Word::Stats => runs::stats(operands),
            Word::Gdb => runs::gdb(operands),
            Word::Test => cases::test(operands),
            Word::Batch => cases::batch(operands),
            Word::Build => builds::build(operands),
            Word::Assemble => builds::assemble(operands),
            Word::Link => builds::link(operands),
            Word::Map => builds::map(operands),
            Word::Objdump => files::objdump(operands),
            Word::Code => files::code(operands),
            Word::List => sources::list(operands),
            Word::Dump => files::dump(operands),
            Word::Size => files::size(operands),
            Word::Names => files::names(operands),
            Word::Elf => files::elf(operands),
            Word::Image => files::image(operands),
            Word::Check => sources::check(operands),
            Word::Explain => sources::explain(operands),
            Word::Completions => sources::completions(operands),
        }
    }

    /// Lists the operands that it takes, in the order of its help.
    pub(crate) fn list(self, alloc: Global, entries: &mut Vec<Entry>) -> Result<(), AllocError> {
        entries.clear();
        let mut operands = Operands::new(alloc, None, None, entries);
        let job = self.job(&mut operands);
        operands.end_of_list(job)
    }
}
