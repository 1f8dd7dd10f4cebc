//! Values that a debugger writes: the run begins anew where it has them.
//!
//! A debugger writes several values before it has the program go, and not every state in between can be run. So what it
//! writes is kept, shown as if it stood there, and begins a run when the program is to go.

ghost use Rattle.std.specs.Prelude.{◌≡◌, [], None, length};

use crate::beginning::{OWN_SEGMENTS, REGISTERS, Wanted, beginning_at};
use crate::memory::{Write, stand_in};
use crate::reply::registers_of;
use crate::session::Session;
use crate::stop::Stop;
use rv_gdb_packets::{Command, Range, bytes_of};
use rv_states::{Replay, ReplayFault};
use std::alloc::{AllocError, Global};

/// The bytes of a register's value.
const VALUE_BYTES: usize = 8;

/// How many writes to memory are kept at most before a run begins with them.
const WRITE_LIMIT: usize = 64;

/// What a debugger has written since the program stands.
#[derive(Drop)]
pub struct Draft {
    /// x0 to x31, and pc.
    pub registers: [u64; REGISTERS],
    pub writes: Vec<Write>,
}

/// The number whose bytes these are, the lowest first.
fn value_of(bytes: &[u8]) -> u64
    requires { length bytes.now ≡ 8 }
{
    let mut value = [0; VALUE_BYTES];
    value.copy_from_slice(bytes);
    u64::from_le_bytes(value)
}

/// Puts the values of all registers that stand one after the other; whether they are as many. x0 keeps none.
fn put_all(registers: &mut [u64; REGISTERS], bytes: &[u8]) -> bool {
    if bytes.len() != VALUE_BYTES * REGISTERS {
        return false;
    }
    for number in 0..REGISTERS {
        let start = VALUE_BYTES * number;
        registers[number] = value_of(&bytes[start..start + VALUE_BYTES]);
    }
    registers[0] = 0;
    true
}

impl Session {
    /// Does what asks to write; whether it was done.
    pub(crate) fn write(&mut self, command: Command, packet: &[u8]) -> Result<bool, ReplayFault> {
        match command {
            Command::WriteRegisters { at } => Ok(self.write_all(behind(packet, at))?),
            Command::WriteRegister { number, at } => {
                Ok(self.write_register(number, behind(packet, at))?)
            }
            Command::WriteMemory { range, at } => {
                match bytes_of(self.alloc, behind(packet, at))? {
                    Some(bytes) => self.write_memory(range, bytes),
                    None => Ok(false),
                }
            }
            Command::WriteBytes { range, at } => {
                let bytes = Vec::from_slice(self.alloc, behind(packet, at))?;
                self.write_memory(range, bytes)
            }
            _ => Ok(false),
        }
    }

    /// What was written so far; at first nothing, and the registers of the run.
    fn take_draft(&mut self) -> Draft {
        match self.draft.take() {
            Some(draft) => draft,
            None => Draft {
                registers: registers_of(self.replay.machine()),
                writes: Vec::new(self.alloc),
            },
        }
    }

    /// Writes all registers, whose values stand in pairs of digits.
    fn write_all(&mut self, digits: &[u8]) -> Result<bool, AllocError> {
        let Some(bytes) = bytes_of(self.alloc, digits)? else {
            return Ok(false);
        };
        let mut draft = self.take_draft();
        let done = put_all(&mut draft.registers, bytes.as_slice());
        self.draft = Some(draft);
        Ok(done)
    }

    /// Writes a register, whose value stands in pairs of digits; x0 keeps none.
    fn write_register(&mut self, number: u64, digits: &[u8]) -> Result<bool, AllocError> {
        let Some(bytes) = bytes_of(self.alloc, digits)? else {
            return Ok(false);
        };
        if number >= REGISTERS as u64 || bytes.len() != VALUE_BYTES {
            return Ok(false);
        }
        if number == 0 {
            return Ok(true);
        }
        let mut draft = self.take_draft();
        draft.registers[number as usize] = value_of(bytes.as_slice());
        self.draft = Some(draft);
        Ok(true)
    }

    /// The bytes that are to stand in memory.
    pub(crate) fn writes(&self) -> &[Write]
        ensures { self.now.draft ≡ None → result.now ≡ [] }
    {
        match &self.draft {
            Some(draft) => &draft.writes,
            None => &[],
        }
    }

    /// Writes bytes of memory.
    fn write_memory(&mut self, range: Range, bytes: Vec<u8>) -> Result<bool, ReplayFault> {
        if range.length != bytes.len() as u64 {
            return Ok(false);
        }
        let memory = self.replay.machine().memory();
        match stand_in(memory, self.writes(), range.address, bytes.as_slice()) {
            None => return Ok(false),
            Some(true) => return Ok(true),
            Some(false) => {}
        }
        if self.writes().len() >= WRITE_LIMIT && !self.begin_written()? {
            return Ok(false);
        }
        let mut draft = self.take_draft();
        let write = Write {
            address: range.address,
            bytes,
        };
        match draft.writes.push(write) {
            Ok(()) => {}
            Err(refused) => return Err(AllocError::from(refused).into()),
        }
        self.draft = Some(draft);
        Ok(true)
    }

    /// Has the run begin anew where a debugger has written; whether it can.
    pub(crate) fn begin_written(&mut self) -> Result<bool, ReplayFault>
        ensures { self.old.draft ≡ None → self.new.draft ≡ None }
    {
        let Some(draft) = self.draft.take() else {
            return Ok(true);
        };
        let registers = registers_of(self.replay.machine());
        if draft.writes.is_empty() && registers == draft.registers {
            return Ok(true);
        }
        let begins = self.begin_at(&draft)?;
        if !begins {
            self.draft = Some(draft);
        }
        Ok(begins)
    }

    /// Has the run begin anew at a draft; whether it can.
    fn begin_at(&mut self, draft: &Draft) -> Result<bool, ReplayFault> {
        let alloc: Global = self.alloc;
        let own = if self.is_written { OWN_SEGMENTS } else { 0 };
        let wanted = Wanted {
            registers: &draft.registers,
            writes: &draft.writes,
        };
        let memory = self.replay.machine().memory();
        let Some(beginning) = beginning_at(alloc, self.replay.image(), own, memory, wanted)? else {
            return Ok(false);
        };
        let input = Vec::from_slice(alloc, self.replay.input_left())?;
        let mut replay = Replay::new(alloc, beginning.image, input)?;
        replay.advance(beginning.steps)?;
        let pc = draft.registers[REGISTERS - 1];
        if replay.end().is_some() || replay.machine().pc() != pc {
            return Ok(false);
        }
        self.replay = replay;
        self.origin = beginning.steps;
        self.is_written = true;
        self.stop = Stop::Done;
        Ok(true)
    }
}

/// What stands from an index on.
fn behind(packet: &[u8], at: usize) -> &[u8] {
    packet.split_at(at.min(packet.len())).1
}
