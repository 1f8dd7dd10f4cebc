//! The calls of the environment that were refused in a run.
//!
//! Those are alike that have the same number and, of a number that there is, the same file. Of a few different ones all is
//! kept, of further ones only how many calls there were, so that no run needs more memory for them.

use crate::columns::put;
use crate::parts::Part::{Decimal, Fixed, Symbol, Text};
use crate::parts::put_parts;
use crate::places::Places;
use rv_isa::Reg;
use rv_machine::{Step, Watched};
use rv_memory::Memory;
use std::alloc::AllocError;

/// The answer to a number that no call has, as its negative.
const NO_CALL: u64 = 38;
/// The answer where a0 names no file, as its negative.
const NO_FILE: u64 = 9;
/// The bits of `ecall` (ISA, 2.8).
const ECALL: u32 = 0x73;
/// How many different refused calls are named.
const NAMED: usize = 8;

/// Refused calls that are alike.
#[derive(Clone, Copy, Drop)]
pub(crate) struct Refusal {
    /// Where the first stands.
    pub pc: u64,
    /// What a7 held.
    pub number: u64,
    /// What a0 held, where it names no file of the call.
    pub file: Option<u64>,
    /// How many they are.
    pub count: u64,
}

/// The calls that were refused.
#[derive(Clone, Copy, Drop)]
pub(crate) struct Refusals {
    /// The different ones, in the order in which the run came to them; those of no call are behind them.
    named: [Refusal; NAMED],
    /// How many calls were refused that are like none of these.
    others: u64,
    /// What a0 holds before a step.
    a0: u64,
}

impl Refusal {
    /// Of no call.
    const NONE: Self = Refusal {
        pc: 0,
        number: 0,
        file: None,
        count: 0,
    };

    /// Whether two are of calls that are alike.
    fn is_like(&self, other: &Refusal) -> bool {
        self.number == other.number && self.file == other.file
    }

    /// Adds its line, if it is of some call.
    fn put_line(&self, text: &mut Vec<u8>, places: &Places<'_>) -> Result<(), AllocError> {
        if self.count == 0 {
            return Ok(());
        }
        put_parts(text, &[Text("  call "), Decimal(self.number)])?;
        if let Some(file) = self.file {
            put_parts(text, &[Text(" with a0 "), Decimal(file)])?;
        }
        if self.count > 1 {
            put_parts(
                text,
                &[Text(", "), Decimal(self.count), Text(" times, first")],
            )?;
        }
        put_parts(
            text,
            &[
                Text(" at "),
                Fixed(self.pc, 8),
                Symbol(places.symbol_at(self.pc)),
                Text(", answered -"),
                Decimal(self.answer()),
                Text(self.why()),
                Text("\n"),
            ],
        )
    }

    /// The negative of the answer to it.
    fn answer(&self) -> u64 {
        match self.file {
            Some(_) => NO_FILE,
            None => NO_CALL,
        }
    }

    /// Why it was refused.
    fn why(&self) -> &'static str {
        match self.file {
            None if self.number == 10 => ": it is not one of 63, 64, 93; RARS's exit is 93 here",
            None => ": it is not one of 63, 64, 93",
            Some(_) if self.number == 63 => ": it reads only where a0 is 0",
            Some(_) => ": it writes only where a0 is 1 or 2",
        }
    }
}

impl Refusals {
    /// None yet.
    pub(crate) fn none() -> Self {
        Refusals {
            named: [Refusal::NONE; NAMED],
            others: 0,
            a0: 0,
        }
    }

    /// Those that are named, and behind them some of no call.
    pub(crate) fn named(&self) -> &[Refusal] {
        self.named.as_slice()
    }

    /// How many calls are not named.
    pub(crate) fn others(&self) -> u64 {
        self.others
    }

    /// Looks at the machine before a step, which may change a0.
    #[inline]
    pub(crate) fn look<M: Memory>(&mut self, machine: &Watched<M>) {
        self.a0 = machine.register(Reg::from_low_bits(10));
    }

    /// Notes what a step did, where it is a call that was refused.
    #[inline]
    pub(crate) fn note<M: Memory>(&mut self, step: &Step, machine: &Watched<M>) {
        if step.bits() != Some(ECALL) {
            return;
        }
        let Some(setting) = step.set_in(Reg::from_low_bits(10), machine.hart()) else {
            return;
        };
        let answer = setting.value.wrapping_neg();
        if answer == NO_CALL || answer == NO_FILE {
            self.add(Refusal {
                pc: step.pc(),
                number: machine.register(Reg::from_low_bits(17)),
                file: if answer == NO_FILE {
                    Some(self.a0)
                } else {
                    None
                },
                count: 1,
            });
        }
    }

    /// Counts a call among those that are like it.
    #[inline(never)]
    fn add(&mut self, refusal: Refusal) {
        for named in self.named.iter_mut() {
            if named.count == 0 {
                *named = refusal;
                return;
            }
            if named.is_like(&refusal) {
                named.count = named.count.saturating_add(1);
                return;
            }
        }
        self.others = self.others.saturating_add(1);
    }

    /// Adds the lines of the calls that were refused.
    pub(crate) fn put_lines(
        &self,
        text: &mut Vec<u8>,
        places: &Places<'_>,
    ) -> Result<(), AllocError> {
        if self.named[0].count == 0 {
            return Ok(());
        }
        put(text, "refused calls\n")?;
        for refusal in self.named() {
            refusal.put_line(text, places)?;
        }
        self.put_others(text)
    }

    /// Adds how many calls are not named, if there are some.
    fn put_others(&self, text: &mut Vec<u8>) -> Result<(), AllocError> {
        if self.others == 0 {
            return Ok(());
        }
        put_parts(
            text,
            &[Text("  and "), Decimal(self.others), Text(" others\n")],
        )
    }
}
