//! A session over standard input and output.

use crate::wire::{Heard, Wire};
use rv_gdb::{Session, Then};
use rv_gdb_packets::{Message, Receiver, put_bytes};
use rv_image::Image;
use rv_job::Debugged;
use rv_states::{Replay, ReplayFault};
use rv_system::{JobError, System, cannot, file_bytes, print};
use std::alloc::Global;
use std::io::Write;

/// How many instructions are executed before the other side is asked whether they are to stop.
const SLICE: u64 = 1 << 18;

/// The most bytes of the guest's that a packet brings to the debugger's console; there each has two digits.
const CONSOLE_BYTES: usize = 2048;

/// What belongs to a session.
#[derive(Drop)]
struct Debugger<L: Write + Drop> {
    alloc: Global,
    session: Session,
    wire: Wire,
    /// The content of an answer while it is made.
    reply: Vec<u8>,
    /// Where the guest writes, if not to the debugger.
    output: Option<L>,
}

/// Lets a debugger have the run of an image; the exit status.
#[inline(never)]
pub fn debug<S: System>(
    system: &mut S,
    image: Image,
    limit: u64,
    streams: &Debugged<'_>,
) -> Result<u8, JobError> {
    let alloc: Global = system.alloc();
    let input = match streams.input {
        Some(name) => file_bytes(system, name)?,
        None => Vec::new(alloc),
    };
    let output = opened(system, streams.output)?;
    let replay = Replay::new(alloc, image, input)?;
    let mut debugger = Debugger {
        alloc,
        session: Session::new(alloc, replay, limit),
        wire: Wire::new(alloc),
        reply: Vec::new(alloc),
        output,
    };
    debugger.serve(system)?;
    Ok(0)
}

/// The file that the guest writes to, if one is named.
fn opened<S: System>(system: &mut S, name: Option<&str>) -> Result<Option<S::Lines>, JobError> {
    let Some(name) = name else {
        return Ok(None);
    };
    match system.lines(Some(name)) {
        Ok(lines) => Ok(Some(lines)),
        Err(_) => Err(cannot(system.alloc(), "write", name)?),
    }
}

/// The fault of a run that cannot go on.
fn line_of(alloc: Global, fault: ReplayFault) -> Result<JobError, JobError> {
    match fault {
        ReplayFault::Memory => Ok(JobError::Memory),
        ReplayFault::Stream => Ok(JobError::Line("a stream of the guest failed".to_string(alloc)?)),
    }
}

/// What came of a session's answer, or the line that says why there is none.
fn lasting<T>(alloc: Global, answered: Result<T, ReplayFault>) -> Result<T, JobError> {
    match answered {
        Ok(value) => Ok(value),
        Err(fault) => Err(line_of(alloc, fault)?),
    }
}

impl<L: Write + Drop> Debugger<L> {
    /// Answers packets until the debugger leaves.
    fn serve<S: System>(&mut self, system: &mut S) -> Result<(), JobError> {
        let mut receiver = Receiver::new(self.alloc);
        for _ in 0..u64::MAX {
            let Some(byte) = self.wire.next(system)? else {
                return Ok(());
            };
            let leaves = match receiver.receive(byte)? {
                Some(Message::Packet) => self.answer(system, receiver.content())?,
                Some(Message::Damaged) => {
                    print(system, b"-")?;
                    false
                }
                Some(Message::Again) => {
                    self.wire.send_again(system)?;
                    false
                }
                // nothing goes that could be stopped
                Some(Message::Interrupt) | None => false,
            };
            if leaves {
                return Ok(());
            }
        }
        Ok(())
    }

    /// Answers a packet; whether the session is over.
    fn answer<S: System>(&mut self, system: &mut S, packet: &[u8]) -> Result<bool, JobError> {
        print(system, b"+")?;
        // a debugger that has waited for its first answer asks again, and takes one answer
        if packet.starts_with(b"qSupported") && self.wire.is_next(packet)? {
            return Ok(false);
        }
        self.reply.clear();
        let then = lasting(self.alloc, self.session.answer(packet, &mut self.reply))?;
        match then {
            Then::Leave => return Ok(true),
            Then::Run => return self.run(system),
            Then::Answer | Then::AnswerAndLeave => self.show_written(system)?,
        }
        self.send_reply(system)?;
        if then != Then::AnswerAndLeave {
            return Ok(false);
        }
        // the other side acknowledges the answer, and would find its stream closed if nobody waited for that
        self.wire.next(system)?;
        Ok(true)
    }

    /// Sends the answer that was made.
    fn send_reply<S: System>(&mut self, system: &mut S) -> Result<(), JobError> {
        self.wire.send(system, self.reply.as_slice())
    }

    /// Has the program go until it stands or is interrupted, and answers; whether the other side has gone.
    fn run<S: System>(&mut self, system: &mut S) -> Result<bool, JobError> {
        self.wire.begin();
        for _ in 0..u64::MAX {
            let stands = lasting(self.alloc, self.session.go_on(SLICE, &mut self.reply))?;
            self.show_written(system)?;
            if stands {
                break;
            }
            match self.hear(system)? {
                Heard::Nothing => {}
                Heard::Interrupt => {
                    lasting(self.alloc, self.session.interrupt(&mut self.reply))?;
                    break;
                }
                Heard::End => return Ok(true),
            }
        }
        self.send_reply(system)?;
        Ok(false)
    }

    /// What the other side says by now. It is sent nothing for its console, and says that this came, before or behind
    /// what else it says; so no read waits for long.
    fn hear<S: System>(&mut self, system: &mut S) -> Result<Heard, JobError> {
        if self.wire.is_full() {
            return Ok(Heard::Nothing);
        }
        self.send_console(system, &[])?;
        self.wire.hear(system)
    }

    /// Shows what the guest has written.
    fn show_written<S: System>(&mut self, system: &mut S) -> Result<(), JobError> {
        let bytes = self.session.take_written();
        if bytes.is_empty() {
            return Ok(());
        }
        if let Some(output) = &mut self.output {
            return match output.write_all(bytes.as_slice()) {
                Ok(()) => Ok(()),
                Err(_) => Err(cannot(self.alloc, "write", "the guest's output")?),
            };
        }
        for part in bytes.as_slice().chunks(CONSOLE_BYTES) {
            self.send_console(system, part)?;
        }
        Ok(())
    }

    /// Sends bytes to the debugger's console.
    fn send_console<S: System>(&mut self, system: &mut S, bytes: &[u8]) -> Result<(), JobError> {
        let mut content = Vec::new(self.alloc);
        content.push(b'O')?;
        put_bytes(&mut content, bytes)?;
        self.wire.send(system, content.as_slice())
    }
}
