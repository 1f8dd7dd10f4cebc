//! The words that run a guest.

use crate::builds::explain;
use crate::files::{json, output_format};
use crate::numbers::{count, number};
use crate::operands::{Flag, Operands, Text, Texts};
use crate::words::{Help, Word};
use rv_job::{Asked, Coverage, Debugged, Job, LineForm, Results, Shown, Until};
use rv_numbers::{amount, text_start};

/// The most instructions that are executed unless the words or the environment say otherwise.
const LIMIT: u64 = 1_000_000_000_000;

pub(crate) const RUN: Help = Help {
    word: Word::Run,
    name: "run",
    about: "Runs an executable, or builds sources and runs them",
    after_help: "Examples:
  rv run prog.s
  rv run driver.s answer.s
  rv run --limit 10M prog < input
  rv run --report --map prog.map prog
  rv run --state prog.json --until f prog.s
  rv run --board virt hello.s
  rv run - < prog.s

Standard input is the guest's input, and its console is standard output.

The object of --state has end, status of an exit, address of the end, pc, registers, instructions
executed, and memory and console, both SHA-256 in hexadecimal. That of the console is of all that
the guest wrote; that of memory of each page of 4096 bytes that is not all zeros, by address: its
address in 8 bytes, the lowest first, and its bytes. No file is written where no guest ran.

That of --report --json has end, status, address, access (kind, bytes), at, registers, segments
(start, end, rights), refused and latest; an instruction there has address, symbol, distance, file,
line, instruction and alias, its shortest name. refused has calls, each different one with call, a0
where that names no file, count and at, and others, how many more there were. It stands on standard
error, without 'rv: END'.

Of a run that --until ends, the end is Reached, and the exit status 0. A number above 2^53 is a
text of its digits, and what is not known is null.",
};

pub(crate) fn run<'a>(operands: &mut Operands<'_, 'a>) -> Job<'a> {
    let limit = limit(operands);
    let results = results(operands);
    let map = operands.optional(map());
    let explains = operands.flag(explain());
    let on_board = on_board(operands);
    let asked = asked(operands, map, limit, explains);
    let is_placed = results.report.is_some() || asked.until.is_some();
    if map.is_some() && !is_placed {
        operands.refuse("--map goes with --report or --until");
    }
    let is_watched = is_placed || results.state.is_some() || asked.parts_errors;
    if is_watched && on_board {
        operands.refuse("--board goes without --report, --state, --until and --stderr");
    }
    if on_board {
        Job::RunOnBoard(asked)
    } else if is_watched {
        Job::Watch(asked, results)
    } else {
        Job::Run(asked)
    }
}

/// Whether the run is one on the board.
fn on_board(operands: &mut Operands<'_, '_>) -> bool {
    let help = "Runs on a board: virt has the RAM, the UART and the test device of QEMU's";
    let Some(name) = operands.optional(Text::long("board", "NAME", help)) else {
        return false;
    };
    if name != "virt" {
        operands.refuse_word("there is no board '", name, "': virt is one");
    }
    true
}

/// What is told of a run once it has ended.
fn results<'a>(operands: &mut Operands<'_, 'a>) -> Results<'a> {
    let reports = Flag::long(
        "report",
        "Says how the run ended, and shows the registers and the latest instructions",
    );
    let is_report = operands.flag(reports);
    let format = output_format(operands, json().beside(reports));
    let state = "Writes as JSON how the run ended: registers, count, digests of memory and console";
    Results {
        report: is_report.then_some(format),
        state: operands.optional(Text::long("state", "FILE", state)),
    }
}

/// What is done without words: a source on standard input is run.
pub(crate) fn default_run<'a>(operands: &mut Operands<'_, 'a>) -> Job<'a> {
    let limit = default_limit(operands);
    Job::Run(plain("-", Vec::new(operands.alloc), limit))
}

/// A run of files up to a limit, of which nothing else is asked.
fn plain<'a>(file: &'a str, others: Vec<&'a str>, limit: u64) -> Asked<'a> {
    Asked {
        file,
        others,
        map: None,
        map_first: false,
        limit,
        until: None,
        parts_errors: false,
        explains: false,
    }
}

pub(crate) const TRACE: Help = Help {
    word: Word::Trace,
    name: "trace",
    about: "Runs a program and shows each instruction",
    after_help: "Examples:
  rv trace prog.s
  rv trace --from 1000 --count 20 prog.s
  rv trace -o prog.trace --map prog.map prog
  rv trace --plain --until f prog.s
  rv trace --events -o prog.events prog.s

A line has the instruction's number, address, symbol, bytes and text, what it wrote, where it
loaded or stored, or the bytes of input that a call took, and at the first instruction of a line of
the source that line.

With --plain it has the symbol, the mnemonic with its registers, and the rest; an address of the
program is a symbol, with the distance in data, or stack less the distance from its end, and the
value of lui and auipc is 'part'. So a program at another address has the same lines.

With --events a line is the event of a step, and different events have different lines: the
address; how many bytes the instruction has, and its word, of a c. instruction that of the one it
stands for, or 'no right' or 'no instruction'; and where there is one, what was read '[A] -> N',
the register that was set 'x10 <- N', what was stored '[A] <- N', the bytes that a call took
'input 6162' or put 'output 6869', and how the step ended the run 'end Exited 07'. Numbers are
hexadecimal, and have two digits a byte in what was read or stored.",
};

pub(crate) fn trace<'a>(operands: &mut Operands<'_, 'a>) -> Job<'a> {
    let from = "The number of the first instruction that is shown [default: 1]";
    let first = count(operands, Text::long("from", "N", from), COUNT).unwrap_or(1);
    let lines = "How many instructions are shown; the run ends after them";
    let count = count(operands, Text::long("count", "N", lines), COUNT);
    let output = Text::output(
        "FILE",
        "Writes the lines to a file instead of standard error",
    );
    let shown = Shown {
        first,
        count,
        output: operands.optional(output),
        form: line_form(operands, first),
    };
    Job::Trace(looked_at(operands), shown)
}

/// What a line of a trace shows; `first` is the number of the first instruction that is shown.
fn line_form(operands: &mut Operands<'_, '_>, first: u64) -> LineForm {
    let plain =
        "Leaves out numbers, addresses and names of files, so that two traces can be compared";
    let is_plain = operands.flag(Flag::long("plain", plain));
    let events = "Writes each step's event in full, for programs";
    if !operands.flag(Flag::long("events", events)) {
        return match is_plain {
            true => LineForm::Plain,
            false => LineForm::Whole,
        };
    }
    if is_plain {
        operands.refuse("--events goes without --plain");
    }
    if first > 1 {
        operands.refuse("--events goes without --from");
    }
    LineForm::Event
}

pub(crate) const STATS: Help = Help {
    word: Word::Stats,
    name: "stats",
    about: "Runs a program and counts what it executes",
    after_help: "Examples:
  rv stats prog.s
  rv stats --lines prog.s
  rv stats --lcov prog.info prog.s

The counts stand on standard error, and genhtml draws the file that --lcov names.

The object of --json has instructions, compressed, loads, bytes_read, stores, bytes_written,
branches_taken, branches_not_taken, deepest_stack, kinds, mnemonics, calls (address, symbol,
distance, count), end, status of an exit, and with --lines lines (file, line, count).",
};

pub(crate) fn stats<'a>(operands: &mut Operands<'_, 'a>) -> Job<'a> {
    let lines = Flag::long("lines", "Shows how often each line was executed");
    let lcov = Text::long(
        "lcov",
        "FILE",
        "Writes how often each line was executed as lcov does",
    );
    let coverage = Coverage {
        lines: operands.flag(lines),
        lcov: operands.optional(lcov),
        format: output_format(operands, json()),
    };
    Job::Stats(looked_at(operands), coverage)
}

pub(crate) const GDB: Help = Help {
    word: Word::Gdb,
    name: "gdb",
    about: "Lets gdb debug a program, forwards and backwards",
    after_help: "Examples:
  gdb -ex 'target remote | rv gdb prog' prog
  gdb -ex 'target remote | rv gdb --input words prog.s'

Standard input and output are gdb's. The guest's input is the file of --input, else empty, and gdb
shows what the guest writes, unless --output names a file.

gdb reads all memory, sets breakpoints and watchpoints, and goes back by reverse-step,
reverse-continue and reverse-finish: the run is run again up to there. A register or a byte that
gdb writes begins a new run at that state, so gdb does not go back beyond it. 'monitor stats' says
where the run stands, and 'monitor limit N' has it stop after N instructions.",
};

pub(crate) fn gdb<'a>(operands: &mut Operands<'_, 'a>) -> Job<'a> {
    let input = "The guest's input; it is empty where no file is named";
    let output = "Writes what the guest writes to a file instead of gdb's console";
    let streams = Debugged {
        input: operands.optional(Text::long("input", "F", input)),
        output: operands.optional(Text::long("output", "F", output)),
    };
    let limit = limit(operands);
    let files = Texts::alone("FILE", "An executable, or sources that are built together");
    let (file, others) = operands.first_and_others(files);
    let asked = plain(file, others, limit);
    if asked.has_input() {
        operands.refuse("standard input is gdb's: name a file");
    }
    Job::Debug(asked, streams)
}

/// What a number of `trace` has to be.
const COUNT: &str = "a count is a decimal number below 2^64";

/// The most instructions that are executed.
pub(crate) fn limit(operands: &mut Operands<'_, '_>) -> u64 {
    let help = "The most instructions to execute, as 500k or 10M [default: RV_LIMIT, else 1000G]";
    let wanted = "a limit is a decimal number below 2^64, also as 500k, 10M or 1G";
    match operands.optional(Text::long("limit", "N", help)) {
        Some(text) => number(operands, amount(text), wanted),
        None => default_limit(operands),
    }
}

/// The most instructions where the words say nothing: what the environment says, where it says something.
fn default_limit(operands: &mut Operands<'_, '_>) -> u64 {
    let Some(text) = operands.limit else {
        return LIMIT;
    };
    let limit = amount(text);
    if limit.is_none() {
        let behind = "', which is no limit as 5000, 500k, 10M or 1G";
        operands.refuse_word("the environment's RV_LIMIT is '", text, behind);
    }
    limit.unwrap_or(LIMIT)
}

fn map() -> Text {
    let help =
        "The map of the executable, behind which its sources may stand, for symbols and lines";
    Text::long("map", "F", help)
}

fn files() -> Texts {
    let help = "An executable, or sources that are built together; - is standard input";
    Texts::alone("FILE", help)
}

/// The program that `trace` or `stats` names, and how far it runs.
fn looked_at<'a>(operands: &mut Operands<'_, 'a>) -> Asked<'a> {
    let map = operands.optional(map());
    let limit = limit(operands);
    asked(operands, map, limit, false)
}

/// The program that the words name last, and what is asked of its run.
fn asked<'a>(
    operands: &mut Operands<'_, 'a>,
    given: Option<&'a str>,
    limit: u64,
    explains: bool,
) -> Asked<'a> {
    let until = until(operands);
    let apart = "Writes what the guest writes to descriptor 2 to standard error";
    let parts_errors = operands.flag(Flag::long("stderr", apart));
    let (file, others) = operands.first_and_others(files());
    Asked {
        file,
        others,
        map: given,
        map_first: operands.is_before_all(map(), files()),
        limit,
        until,
        parts_errors,
        explains,
    }
}

/// Where the run is to end.
fn until<'a>(operands: &mut Operands<'_, 'a>) -> Option<Until<'a>> {
    let help = "Ends the run before the instruction of a symbol, or of an address as 0x10008";
    let text = operands.optional(Text::long("until", "SYMBOL", help))?;
    if !text.starts_with("0x") {
        return Some(Until::Symbol(text));
    }
    let wanted = "an address is 0x and hexadecimal, below 2^64";
    Some(Until::Address(number(operands, text_start(text), wanted)))
}
