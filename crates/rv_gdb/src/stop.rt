//! Why a program stands, as it is answered.

use rv_gdb_packets::{Features, Met, PointKind, put_byte, put_number};
use rv_machine::End;
use std::alloc::AllocError;

/// Why a program stands.
#[derive(Clone, Copy, Drop)]
pub enum Stop {
    /// It was asked to go no further.
    Done,
    /// At a point.
    At(Met),
    /// Before its first instruction, on the way back.
    Start,
    /// At the limit of instructions.
    Limit,
    /// It was interrupted.
    Interrupted,
    /// It has ended.
    Ended(End),
}

/// The number of a signal (GDB's own numbers, `include/gdb/signals.def`).
#[derive(Clone, Copy, Drop)]
enum Signal {
    Interrupt = 2,
    Illegal = 4,
    Trap = 5,
    Bus = 10,
    Segment = 11,
    ProcessorTime = 24,
}

/// The signal of an end that is no exit.
fn signal_of(end: End) -> Signal {
    match end {
        End::Illegal(_) => Signal::Illegal,
        End::MisalignedAtomic(_) => Signal::Bus,
        End::FetchOutside(_)
        | End::LoadText(_)
        | End::LoadOutside(_)
        | End::StoreText(_)
        | End::StoreOutside(_) => Signal::Segment,
        End::Limit => Signal::ProcessorTime,
        End::Breakpoint | End::Exited(_) => Signal::Trap,
    }
}

/// Adds a stop by a signal.
fn put_signal(reply: &mut Vec<u8>, signal: Signal) -> Result<(), AllocError> {
    reply.push(b'T')?;
    put_byte(reply, signal as u8)?;
    reply.extend_from_slice(b"thread:1;")
}

/// The word before the address of a point.
fn word_of(kind: PointKind) -> &'static [u8] {
    match kind {
        PointKind::Software => b"swbreak:",
        PointKind::Hardware => b"hwbreak:",
        PointKind::Write => b"watch:",
        PointKind::Read => b"rwatch:",
        PointKind::Access => b"awatch:",
    }
}

/// Whether a debugger takes the word of a point.
fn takes(features: Features, kind: PointKind) -> bool {
    match kind {
        PointKind::Software => features.swbreak,
        PointKind::Hardware => features.hwbreak,
        PointKind::Write | PointKind::Read | PointKind::Access => true,
    }
}

/// Adds a stop at a point; one at an instruction has no address.
fn put_met(reply: &mut Vec<u8>, met: Met, features: Features) -> Result<(), AllocError> {
    put_signal(reply, Signal::Trap)?;
    if !takes(features, met.kind) {
        return Ok(());
    }
    reply.extend_from_slice(word_of(met.kind))?;
    match met.kind {
        PointKind::Software | PointKind::Hardware => {}
        PointKind::Write | PointKind::Read | PointKind::Access => put_number(reply, met.address)?,
    }
    reply.push(b';')?;
    Ok(())
}

/// Adds the answer that says why a program stands, in words that the debugger takes.
pub fn put_stop(reply: &mut Vec<u8>, stop: Stop, features: Features) -> Result<(), AllocError> {
    match stop {
        Stop::Done => put_signal(reply, Signal::Trap),
        // (a debugger takes a trap for the end of its own step, and would step on and on)
        Stop::Limit => put_signal(reply, Signal::ProcessorTime),
        Stop::At(met) => put_met(reply, met, features),
        Stop::Start => {
            put_signal(reply, Signal::Trap)?;
            reply.extend_from_slice(b"replaylog:begin;")
        }
        Stop::Interrupted => put_signal(reply, Signal::Interrupt),
        Stop::Ended(End::Exited(code)) => {
            reply.push(b'W')?;
            put_byte(reply, code)
        }
        Stop::Ended(end) => put_signal(reply, signal_of(end)),
    }
}
