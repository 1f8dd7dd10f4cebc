//! The last state of a run, as programs read it.

ghost use Rattle.std.specs.Prelude.{◌≡◌};
ghost use Rattle.rv_counts.specs.Totals.{totals_of};

use crate::digest::memory_digest;
use crate::ending::Ending;
use crate::json_report::{line_of, put_end};
use crate::members::Held::{Number, Text};
use crate::members::put_members;
use crate::moved::add_span;
use crate::report::{Latest, Segments};
use rv_counts::Totals;
use rv_isa::Reg;
use rv_machine::{Look, ShowFault, Step, Watched, Watcher};
use rv_memory::Memory;
use serde_json::{Map, Value, put};
use sha2::{Digest, Sha256};
use std::alloc::{AllocError, Global};

/// What is kept of a run for its end.
#[derive(Drop)]
pub struct Last {
    latest: Latest,
    /// The sums over the events.
    totals: Totals,
    /// What was written to the console.
    console: Sha256,
}

impl Last {
    /// Of a run that has not begun.
    pub fn new() -> Self {
        Last {
            latest: Latest::new(),
            totals: Totals::nothing(),
            console: Sha256::new(),
        }
    }

    /// The latest instructions.
    pub fn latest(&self) -> &Latest {
        &self.latest
    }
}

impl<M: Memory> Watcher<M> for Last {
    ghost has_seen = { λ last seen. last.totals ≡ totals_of seen };

    #[inline]
    fn before(&mut self, _: &Look, machine: &Watched<M>) -> Result<(), ShowFault> {
        self.latest.look(machine);
        Ok(())
    }

    #[inline]
    fn after(&mut self, step: &Step, machine: &Watched<M>) -> Result<(), ShowFault> {
        self.totals.count(step, &step.fetched());
        add_span(&mut self.console, machine.memory(), step.put());
        self.latest.note(step, machine);
        Ok(())
    }
}

/// How a run ended, as an object of JSON in a line: the end, the status of an exit, the address of the end, pc, the registers,
/// how many instructions were executed, and the digests of the memory and of what was written to the console.
pub fn state_text<M: Memory>(
    alloc: Global,
    machine: &Watched<M>,
    last: Last,
    segments: &Segments,
    ending: Ending,
) -> Result<Vec<u8>, AllocError> {
    let mut state = Map::new(alloc);
    put_state(alloc, &mut state, machine, last, segments, ending)?;
    line_of(alloc, state)
}

/// Adds the members of a last state.
fn put_state<M: Memory>(
    alloc: Global,
    state: &mut Map<String, Value>,
    machine: &Watched<M>,
    last: Last,
    segments: &Segments,
    ending: Ending,
) -> Result<(), AllocError> {
    let Last {
        totals,
        console,
        ..
    } = last;
    put_end(alloc, state, ending)?;
    put(state, alloc, "registers", registers(alloc, machine)?)?;
    let memory = memory_digest(alloc, machine.memory(), segments)?;
    put_digest(alloc, state, "memory", memory)?;
    put_digest(alloc, state, "console", console.finalize())?;
    put_members(
        alloc,
        state,
        &[
            ("pc", Number(machine.pc())),
            ("instructions", Number(totals.executed)),
        ],
    )
}

/// Adds a digest as a member.
fn put_digest(
    alloc: Global,
    state: &mut Map<String, Value>,
    name: &str,
    digest: [u8; 32],
) -> Result<(), AllocError> {
    let text = hex::encode(alloc, digest)?;
    put_members(alloc, state, &[(name, Text(text.as_str()))])
}

/// The registers by their names.
pub(crate) fn registers<M: Memory>(
    alloc: Global,
    machine: &Watched<M>,
) -> Result<Value, AllocError> {
    let mut registers = Map::new(alloc);
    for index in 0..32 {
        let register = Reg::from_low_bits(index);
        let value = machine.register(register);
        put_members(
            alloc,
            &mut registers,
            &[(register.abi_name(), Number(value))],
        )?;
    }
    Ok(Value::Object(registers))
}
