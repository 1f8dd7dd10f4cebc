//! The words that run many programs in one process.

use crate::operands::{Flag, Operands, Text, Texts};
use crate::runs::limit;
use crate::words::{Help, Word};
use rv_job::{AskedCases, Job};

pub(crate) const TEST: Help = Help {
    word: Word::Test,
    name: "test",
    about: "Runs cases: sources with what must come of them",
    after_help: "Examples:
  rv test sum.s
  rv test --limit 10M --junit report.xml cases/

A case says in the comments at its head what must come, as '# exit: 7' or '# console: 10\\n'; in a
folder NAME.in and NAME.out are the input and the console of NAME.s.

Status 0 where all cases pass, and 1 where one fails.",
};

pub(crate) fn test<'a>(operands: &mut Operands<'_, 'a>) -> Job<'a> {
    let json = "Writes an object of JSON a line for each case, and one for the sum";
    let junit = "Writes a report in the XML of JUnit as well";
    let files = "Cases, or folders of cases";
    Job::Test(AskedCases {
        limit: limit(operands),
        json: operands.flag(Flag::long("json", json)),
        junit: operands.optional(Text::long("junit", "FILE", junit)),
        files: operands.all(Texts::alone("FILE", files)),
    })
}

pub(crate) const BATCH: Help = Help {
    word: Word::Batch,
    name: "batch",
    about: "Answers calls, an object of JSON a line, in one process",
    after_help: "Example:
  rv batch --limit 1M < calls > answers

A call as {\"id\": 1, \"sources\": [TEXT], \"input\": TEXT, \"limit\": N, \"want\": [\"console\", \"end\"]}
has its answer on the line of the same number, with the status that 'rv run' would have.",
};

pub(crate) fn batch<'a>(operands: &mut Operands<'_, 'a>) -> Job<'a> {
    Job::Batch {
        limit: limit(operands),
    }
}
