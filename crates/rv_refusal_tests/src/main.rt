//! The program `rv_refusal_tests`: one call of the library, of which a request for memory may be refused.
//!
//! Standard input names the call in its first line, is the guest's input in its second, and has a source in each further
//! one. The program makes what the call takes, writes `begin`, makes the call, and writes `answer` and what it answered.
//! Where it answered that memory ran out, the program writes `memory` first, and makes the call again. So the requests of
//! a call are those between the first write and the second: `tests/refuse.c` counts and refuses those. An empty input asks
//! for nothing.
//!
//! It is part of the tests, as `tests/refused.py` uses it, and not of `rv`.
#![tactic(auto)]

mod calls;
mod error;
mod given;
mod library;
mod marks;
mod runs;
mod shown;

use crate::calls::answer;
use crate::error::Failed;
use crate::given::Given;
use rv_system::read_whole;
use std::process::ExitCode;

/// The most bytes of what is asked.
const ASKED_LIMIT: usize = 1 << 20;

fn main(rt: HostRuntime) -> ExitCode {
    match work(&rt) {
        Ok(()) => ExitCode::SUCCESS,
        Err(failed) => {
            let _ = eprintln!(rt; "rv_refusal_tests: {failed}");
            ExitCode::FAILURE
        }
    }
}

/// Does what standard input asks for.
fn work(rt: &HostRuntime) -> Result<(), Failed> {
    let asked = read_whole(rt.alloc(), &mut rt.stdin(), ASKED_LIMIT)?;
    if asked.is_empty() {
        return Ok(());
    }
    let given = Given::read(rt.alloc(), asked.as_slice())?;
    answer(rt, &given)
}
