//! The words that say something of sources, of codes, and of the words themselves.

use crate::builds::{link_options, sources};
use crate::files::json;
use crate::operands::{Flag, Operands, Text};
use crate::words::{Help, Word};
use rv_fault_texts::explanation;
use rv_job::{Job, ReportFormat, Shell};

pub(crate) const CHECK: Help = Help {
    word: Word::Check,
    name: "check",
    about: "Says what is wrong with sources, and where, without writing anything",
    after_help: "Examples:
  rv check prog.s
  rv check --format=gcc prog.s

Status 0 where the sources can be built, and 1 where they have a fault.",
};

pub(crate) fn check<'a>(operands: &mut Operands<'_, 'a>) -> Job<'a> {
    let help = "gcc: lines as compilers write them, for editors; json: an object a line";
    let named = Text::long("format", "FORMAT", help);
    let name = operands.optional(named);
    let format = match operands.flag(json().against(named)) {
        true => ReportFormat::Json,
        false => report_format(operands, name),
    };
    Job::Check {
        options: link_options(operands),
        format,
        sources: operands.all(sources()),
    }
}

/// The format of a report by its name.
fn report_format(operands: &mut Operands<'_, '_>, name: Option<&str>) -> ReportFormat {
    let Some(name) = name else {
        return ReportFormat::Text;
    };
    if name == "gcc" {
        return ReportFormat::Gcc;
    }
    if name != "json" {
        operands.refuse("a format is gcc or json");
    }
    ReportFormat::Json
}

pub(crate) const LIST: Help = Help {
    word: Word::List,
    name: "list",
    about: "Prints the lines of sources, each with its address and its bytes",
    after_help: "Examples:
  rv list prog.s
  rv list --all prog.s other.s

The columns are those of GNU's as -al; the addresses are those of the executable.",
};

pub(crate) fn list<'a>(operands: &mut Operands<'_, 'a>) -> Job<'a> {
    let help = "Shows all bytes of a line, and not the first rows alone";
    let debug = "Takes what GCC writes with -g: .loc, .file N, .uleb128, .sleb128";
    Job::List {
        all: operands.flag(Flag::long("all", help)),
        debug: operands.flag(Flag::letter("debug", 'g', debug)),
        options: link_options(operands),
        sources: operands.all(sources()),
    }
}

pub(crate) const EXPLAIN: Help = Help {
    word: Word::Explain,
    name: "explain",
    about: "Explains a code: its cause, an example and the cure",
    after_help: "Examples:
  rv explain E14
  rv explain FetchOutside
  rv explain",
};

pub(crate) fn explain<'a>(operands: &mut Operands<'_, 'a>) -> Job<'a> {
    let help = "A code as E14, or the name of an end of a run; without it all are listed";
    let Some(code) = operands.optional(Text::alone("CODE", help)) else {
        return Job::Explain { entry: None };
    };
    let entry = explanation(code);
    if entry.is_none() {
        let behind = " is no code; 'rv explain' lists those that there are";
        operands.refuse_word("", code, behind);
    }
    Job::Explain { entry }
}

pub(crate) const COMPLETIONS: Help = Help {
    word: Word::Completions,
    name: "completions",
    about: "Prints what a shell completes the words of rv by",
    after_help: "Examples:
  rv completions bash > /usr/share/bash-completion/completions/rv
  rv completions zsh > /usr/share/zsh/site-functions/_rv
  rv completions fish > /usr/share/fish/vendor_completions.d/rv.fish",
};

/// The shells by their names.
const SHELLS: [(&str, Shell); 3] = [
    ("bash", Shell::Bash),
    ("zsh", Shell::Zsh),
    ("fish", Shell::Fish),
];

pub(crate) fn completions<'a>(operands: &mut Operands<'_, 'a>) -> Job<'a> {
    let named = operands.required(Text::alone("SHELL", "bash, zsh or fish"));
    for (name, shell) in SHELLS {
        if name == named {
            return Job::Completions { shell };
        }
    }
    operands.refuse("a shell is bash, zsh or fish");
    Job::Completions { shell: Shell::Bash }
}
