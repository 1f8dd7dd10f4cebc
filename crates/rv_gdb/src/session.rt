//! A session: packets in, answers out.

ghost use Rattle.std.specs.Prelude.{
  ◌≡◌,
  ◌⊎◌,
  ◌++◌,
  ◌<◌,
  ℕ,
  List,
  ◌∷◌,
  false,
  None,
  IfOk,
  OnOk,
  flat_map,
};
ghost use Rattle.rv_memory.specs.HeldPages.{held_pages};
ghost use Rattle.rv_gdb_packets.specs.Numbers.{number_on};
ghost use Rattle.rv_gdb_packets.specs.Digits.{value_digits};
ghost use Rattle.rv_gdb_packets.specs.Asked.{writes, begins_write};
ghost use Rattle.rv_gdb.specs.Shown.{register_or_pc, all_values, Says, SaysBytes, AnswersCommand};

use crate::beginning::REGISTERS;
use crate::going::Going;
use crate::memory::put_memory;
use crate::reply::{put_registers, put_registers_of, value_of};
use crate::stop::{Stop, put_stop};
use crate::writing::Draft;
use rv_gdb_packets::{
    Command, Features, Motion, Points, Range, command_of, put_description, put_done, put_error,
    put_ok, put_supported, put_value,
};
use rv_states::{Replay, ReplayFault};
use std::alloc::{AllocError, Global};

/// What follows a packet.
#[derive(Clone, Copy, PartialEq, Eq, Drop)]
pub enum Then {
    /// The answer is to be sent.
    Answer,
    /// The program goes; the answer comes when it stands.
    Run,
    /// The answer is to be sent, and the session is over.
    AnswerAndLeave,
    /// The session is over.
    Leave,
}

/// A session of a debugger with a run.
#[derive(Drop)]
pub struct Session {
    pub(crate) alloc: Global,
    pub(crate) replay: Replay,
    pub(crate) points: Points,
    pub(crate) going: Going,
    /// The most instructions from where the run begins.
    pub(crate) limit: u64,
    /// Why the program stands.
    pub(crate) stop: Stop,
    /// Which words the debugger takes.
    features: Features,
    /// Whether a value was written, so that the run begins there.
    pub(crate) is_written: bool,
    /// How many instructions of the replay come before the state where the run begins.
    pub(crate) origin: u64,
    /// What was written since the program stands.
    pub(crate) draft: Option<Draft>,
}

impl Session {
    /// Before the first packet, with the most instructions that the run has.
    pub fn new(alloc: Global, replay: Replay, limit: u64) -> Self
        ensures draft { result.draft ≡ None }
        ensures replay { result.replay ≡ replay }
    {
        Session {
            alloc,
            replay,
            points: Points::new(alloc),
            going: Going::Stands,
            limit,
            stop: Stop::Done,
            features: Features {
                swbreak: false,
                hwbreak: false,
            },
            is_written: false,
            origin: 0,
            draft: None,
        }
    }

    /// What the program has written that nobody has taken.
    pub fn take_written(&mut self) -> Vec<u8>
        ensures draft { self.new.draft ≡ self.old.draft }
        ensures machine { self.new.replay.machine ≡ self.old.replay.machine }
    {
        self.replay.take_written(self.alloc)
    }

    /// Does what a packet asks, and adds the content of the answer. Where nothing was written since the program stands,
    /// `g`, `p` and `m` are answered by the registers and the memory of the replay's machine, and by nothing else; and
    /// other packets than `G`, `P`, `M` and `X` write nothing.
    pub fn answer(&mut self, packet: &[u8], reply: &mut Vec<u8>) -> Result<Then, ReplayFault>
        ensures registers { (rest : List ℕ) → packet.now ≡ 103 ∷ rest → self.old.draft ≡ None →
            IfOk result (λ _. reply.new.items ≡ reply.old.items
            ++ flat_map value_digits (all_values self.old.replay.machine.hart)) }
        ensures register { (number : List ℕ) → packet.now ≡ 112 ∷ number → self.old.draft ≡ None →
            IfOk result (λ _. Says reply.old.items reply.new.items
            (value_digits (register_or_pc self.old.replay.machine.hart (number_on 0 number)))) }
        ensures memory { (range : List ℕ) → packet.now ≡ 109 ∷ range → self.old.draft ≡ None →
            IfOk result (λ _. (reply.new.items ≡ reply.old.items) ⊎ SaysBytes reply.old.items
            reply.new.items (held_pages self.old.replay.machine.memory) (number_on 0 range)) }
        ensures written { (letter : ℕ) (rest : List ℕ) → packet.now ≡ letter ∷ rest →
            begins_write letter ≡ false → self.old.draft ≡ None → self.new.draft ≡ None }
    {
        let command = command_of(packet);
        if command.reads() {
            self.put_state(command, reply)?;
            return Ok(Then::Answer);
        }
        self.act(command, packet, reply)
    }

    /// Does what asks for more than the state.
    fn act(
        &mut self,
        command: Command,
        packet: &[u8],
        reply: &mut Vec<u8>,
    ) -> Result<Then, ReplayFault>
        ensures { writes command ≡ false → self.old.draft ≡ None → self.new.draft ≡ None }
    {
        match command {
            Command::Go(motion) => return self.begin_to_go(motion, reply),
            Command::Detach => {
                put_ok(reply)?;
                return Ok(Then::AnswerAndLeave);
            }
            Command::Kill => return Ok(Then::Leave),
            Command::KillProcess => {
                put_ok(reply)?;
                return Ok(Then::AnswerAndLeave);
            }
            command if command.writes() => {
                let done = self.write(command, packet)?;
                put_done(reply, done)?;
            }
            command => self.put_answer(command, packet, reply)?,
        }
        Ok(Then::Answer)
    }

    /// How many instructions come between where the run begins and where it stands.
    pub(crate) fn count(&self) -> u64 {
        self.replay.count().saturating_sub(self.origin)
    }

    /// Has the program go, and adds the answer where it stands at once.
    fn begin_to_go(&mut self, motion: Motion, reply: &mut Vec<u8>) -> Result<Then, ReplayFault>
        ensures { self.old.draft ≡ None → self.new.draft ≡ None }
    {
        if !self.begin_written()? {
            put_error(reply)?;
            return Ok(Then::Answer);
        }
        match self.begin(motion)? {
            Some(stop) => {
                self.stop = stop;
                put_stop(reply, stop, self.features)?;
                Ok(Then::Answer)
            }
            None => Ok(Then::Run),
        }
    }

    /// Has the program go on by so many instructions at most; whether it stands, and the answer is added.
    pub fn go_on(&mut self, steps: u64, reply: &mut Vec<u8>) -> Result<bool, ReplayFault>
        ensures { self.new.draft ≡ self.old.draft }
    {
        let stop = match self.going {
            Going::Stands => Some(self.stop),
            Going::On => self.run_on(steps)?,
            Going::Back(search) => self.search_on(search, steps)?,
        };
        let Some(stop) = stop else {
            return Ok(false);
        };
        self.going = Going::Stands;
        self.stop = stop;
        put_stop(reply, stop, self.features)?;
        Ok(true)
    }

    /// Stops the program where it goes, and adds the answer.
    pub fn interrupt(&mut self, reply: &mut Vec<u8>) -> Result<(), ReplayFault>
        ensures { self.new.draft ≡ self.old.draft }
    {
        self.stop_going()?;
        self.stop = Stop::Interrupted;
        put_stop(reply, Stop::Interrupted, self.features)?;
        Ok(())
    }

    /// Adds the answer to what does not have the program go.
    fn put_answer(
        &mut self,
        command: Command,
        packet: &[u8],
        reply: &mut Vec<u8>,
    ) -> Result<(), AllocError>
        ensures { self.new.draft ≡ self.old.draft }
    {
        match command {
            Command::Supported(features) => {
                self.features = features;
                put_supported(reply)
            }
            Command::WhyStopped => put_stop(reply, self.stop, self.features),
            Command::IsAttached => reply.extend_from_slice(b"0"),
            Command::Motions => reply.extend_from_slice(b"vCont;c;C;s;S"),
            Command::Insert { kind, range } => {
                let done = self.points.insert(kind, range)?;
                put_done(reply, done)
            }
            Command::Remove { kind, range } => {
                self.points.remove(kind, range);
                put_ok(reply)
            }
            Command::Thread => put_ok(reply),
            Command::OtherThread => put_error(reply),
            Command::CurrentThread => reply.extend_from_slice(b"QC1"),
            Command::Threads => reply.extend_from_slice(b"m1"),
            Command::MoreThreads => reply.extend_from_slice(b"l"),
            Command::Description(range) => put_description(reply, range),
            Command::Monitor { at } => {
                let digits = packet.split_at(at.min(packet.len())).1;
                self.put_monitor(reply, digits)
            }
            // the empty answer says that something is not known
            _ => Ok(()),
        }
    }

    /// Adds what a command asks for that reads.
    fn put_state(&self, command: Command, reply: &mut Vec<u8>) -> Result<(), AllocError>
        ensures { self.now.draft ≡ None → OnOk result (AnswersCommand command
            self.now.replay.machine.hart (held_pages self.now.replay.machine.memory)
            reply.old.items reply.new.items) }
    {
        match command {
            Command::ReadRegisters => self.put_all(reply),
            Command::ReadRegister(number) => self.put_register(number, reply),
            Command::ReadMemory(range) => self.put_memory_at(range, reply),
            // the empty answer says that something is not known
            _ => Ok(()),
        }
    }

    /// Adds the values of x0 to x31 and pc, as they stand or were written.
    fn put_all(&self, reply: &mut Vec<u8>) -> Result<(), AllocError>
        ensures { self.now.draft ≡ None → OnOk result (reply.new.items ≡ reply.old.items
            ++ flat_map value_digits (all_values self.now.replay.machine.hart)) }
    {
        match &self.draft {
            Some(draft) => put_registers(reply, &draft.registers),
            None => put_registers_of(reply, self.replay.machine()),
        }
    }

    /// The value of a register, as it stands or was written.
    fn register(&self, number: u32) -> u64
        requires { number < 33 }
        ensures { self.now.draft ≡ None → result ≡ register_or_pc self.now.replay.machine.hart number }
    {
        match &self.draft {
            Some(draft) => draft.registers[number as usize],
            None => value_of(self.replay.machine(), number),
        }
    }

    /// Adds the value of a register.
    fn put_register(&self, number: u64, reply: &mut Vec<u8>) -> Result<(), AllocError>
        ensures { self.now.draft ≡ None → OnOk result (Says reply.old.items reply.new.items
            (value_digits (register_or_pc self.now.replay.machine.hart number))) }
    {
        if number >= REGISTERS as u64 {
            return put_error(reply);
        }
        put_value(reply, self.register(number as u32))
    }

    /// Adds bytes of memory, or that the first does not exist.
    fn put_memory_at(&self, range: Range, reply: &mut Vec<u8>) -> Result<(), AllocError>
        ensures { self.now.draft ≡ None → OnOk result (SaysBytes reply.old.items reply.new.items
            (held_pages self.now.replay.machine.memory) range.address) }
    {
        let memory = self.replay.machine().memory();
        let count = put_memory(reply, memory, self.writes(), range)?;
        if count == 0 && range.length > 0 {
            return put_error(reply);
        }
        Ok(())
    }
}
