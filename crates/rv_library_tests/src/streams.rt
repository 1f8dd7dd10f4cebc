//! Runs over streams, also over those that give and take little, nothing, or fail.

use crate::runs::{HELLO, image};
use rv_machine::{End, Io, RunFault, run_io};
use std::alloc::Global;
use std::io::{self, Error, ErrorKind, Read, Write};
use std::test::Fail;

/// Reads four bytes, of which two are on each of two pages, writes what came, and exits with 0.
pub(crate) const ECHO: &[u8] = b".globl _start
_start: li a0, 0; lui a1, 0x12; addi a1, a1, -2; li a2, 4; li a7, 63; ecall
mv a2, a0; li a0, 1; li a7, 64; ecall
li a0, 0; li a7, 93; ecall
.data
.zero 4100
";

/// A reader of some bytes.
#[derive(Clone, Copy)]
struct Source<'a> {
    bytes: &'a [u8],
    /// The most bytes of a read.
    step: usize,
    reads: usize,
    /// The read that gives nothing, and the one that fails, from 1.
    empty: usize,
    failing: usize,
}

impl<'a> Source<'a> {
    fn new(bytes: &'a [u8], step: usize) -> Self {
        Source {
            bytes,
            step,
            reads: 0,
            empty: 0,
            failing: 0,
        }
    }
}

impl Read for Source<'_> {
    fn read(&mut self, buffer: &mut [u8]) -> io::Result<usize> {
        self.reads = self.reads.wrapping_add(1);
        if self.reads == self.failing {
            return Err(Error::from(ErrorKind::Other));
        }
        if self.reads == self.empty {
            return Ok(0);
        }
        let count = self.step.min(buffer.len()).min(self.bytes.len());
        let (now, later) = self.bytes.split_at(count);
        buffer[..count].copy_from_slice(now);
        self.bytes = later;
        Ok(count)
    }
}

/// A writer that has room for some bytes.
#[derive(Drop)]
struct Sink {
    written: Vec<u8>,
    /// The most bytes of a write.
    step: usize,
    room: usize,
    /// Whether it fails without room, or else takes nothing.
    fails: bool,
    writes: usize,
    /// The write that fails, from 1.
    failing: usize,
}

impl Sink {
    fn new(alloc: Global, step: usize, room: usize, fails: bool) -> Self {
        Sink {
            written: Vec::new(alloc),
            step,
            room,
            fails,
            writes: 0,
            failing: 0,
        }
    }
}

impl Write for Sink {
    fn write(&mut self, bytes: &[u8]) -> io::Result<usize> {
        self.writes = self.writes.wrapping_add(1);
        if self.writes == self.failing || self.room == 0 && self.fails {
            return Err(Error::from(ErrorKind::Other));
        }
        let count = self.step.min(bytes.len()).min(self.room);
        self.written.extend_from_slice(&bytes[..count])?;
        self.room -= count;
        Ok(count)
    }

    fn flush(&mut self) -> io::Result<()> {
        Ok(())
    }
}

/// How a run ends, and what it has written.
type Ended = (Result<End, RunFault>, &'static [u8]);

const DONE: Result<End, RunFault> = Ok(End::Exited(0));

const IN_FAILED: Ended = (Err(RunFault::InputFault), b"");

/// Whether a guest that reads from a source and writes to a sink comes to this.
fn comes_to(
    alloc: Global,
    guest: &[u8],
    source: &mut Source<'_>,
    mut sink: Sink,
    ended: Ended,
) -> Result<bool, Fail> {
    let mut input = Io::new(source);
    let mut output = Io::new(&mut sink);
    let found = run_io(alloc, image(alloc, guest)?, &mut input, &mut output, 1000);
    Ok(found == ended.0 && sink.written.as_slice() == ended.1)
}

/// Bytes of a source and the most of a read; the read that gives nothing, and the one that fails; the most bytes of a
/// write; what the echo comes to, and what is left of the source.
type Echo = (
    &'static [u8],
    usize,
    usize,
    usize,
    usize,
    Ended,
    &'static [u8],
);

const ECHOES: [Echo; 8] = [
    // what the guest has not asked for is still there
    (b"abcdef", 9, 0, 0, 9, (DONE, b"abcd"), b"ef"),
    (b"abcdef", 1, 0, 0, 1, (DONE, b"abcd"), b"ef"),
    (b"abcdef", 3, 0, 0, 3, (DONE, b"abcd"), b"ef"),
    (b"ab", 9, 0, 0, 9, (DONE, b"ab"), b""),
    (b"", 9, 0, 0, 9, (DONE, b""), b""),
    // the input has ended for good once a read gives nothing
    (b"abcd", 2, 2, 0, 9, (DONE, b"ab"), b"cd"),
    (b"abcd", 2, 0, 2, 9, IN_FAILED, b"cd"),
    (b"abcd", 2, 0, 1, 9, IN_FAILED, b"abcd"),
];

/// Whether an echo is as its row says.
fn echoes(alloc: Global, row: &Echo) -> Result<bool, Fail> {
    let (bytes, step, empty, failing, out_step, ended, left) = *row;
    let mut source = Source {
        empty,
        failing,
        ..Source::new(bytes, step)
    };
    let sink = Sink::new(alloc, out_step, 9, true);
    Ok(comes_to(alloc, ECHO, &mut source, sink, ended)? && source.bytes == left)
}

#[test]
fn reads_until_enough_or_nothing_comes(rt: HostRuntime) -> Result<(), Fail> {
    for (index, row) in ECHOES.iter().enumerate() {
        assert!(rt; echoes(rt.alloc(), row)?, "row {index}");
    }
    Ok(())
}

/// A guest; the most bytes of a read and of a write; how many reads it comes to; how many bytes each of its writes has,
/// over the end of a page too; its console.
type Moves = (&'static [u8], usize, usize, usize, &'static [u8]);

const MOVES: [Moves; 4] = [
    (HELLO, 9, 0, 5, b"hello"),
    (HELLO, 1, 0, 1, b"hello"),
    (ECHO, 9, 2, 4, b"abcd"),
    (ECHO, 1, 4, 1, b"abcd"),
];

/// Whether a guest whose read or write of this number fails ends so: by a read before it writes, by a write with what
/// the writes before it have written.
fn fails_at(alloc: Global, moves: &Moves, call: usize) -> Result<bool, Fail> {
    let (guest, step, reads, each, console) = *moves;
    let mut source = Source::new(b"abcdef", step);
    source.failing = call;
    let sink = Sink::new(alloc, step, 9, true);
    let ended = if call > reads {
        (DONE, console)
    } else {
        IN_FAILED
    };
    let by_read = comes_to(alloc, guest, &mut source, sink, ended)?;
    let mut sink = Sink::new(alloc, step, 9, true);
    sink.failing = call;
    let before = call.wrapping_sub(1).wrapping_mul(each).min(console.len());
    let ended = out_of_room(console, before);
    Ok(by_read && comes_to(alloc, guest, &mut Source::new(b"abcdef", step), sink, ended)?)
}

/// What a guest with this console comes to where the sink takes so many bytes of it.
fn out_of_room(console: &'static [u8], room: usize) -> Ended {
    if room < console.len() {
        (Err(RunFault::OutputFault), &console[..room])
    } else {
        (DONE, console)
    }
}

/// Each read and each write fails in turn, and then none.
#[test]
fn fails_where_a_stream_fails(rt: HostRuntime) -> Result<(), Fail> {
    for moves in &MOVES {
        for call in 1..7 {
            assert!(rt; fails_at(rt.alloc(), moves, call)?, "call {call}");
        }
    }
    Ok(())
}

/// A sink that has room for so many bytes fails then, or takes nothing.
#[test]
fn writes_until_all_is_written(rt: HostRuntime) -> Result<(), Fail> {
    for step in 1..6 {
        for room in 0..6 {
            assert!(rt; fills(rt.alloc(), step, room)?, "{step} {room}");
        }
    }
    Ok(())
}

fn fills(alloc: Global, step: usize, room: usize) -> Result<bool, Fail> {
    let ended = out_of_room(b"hello", room);
    let failing = Sink::new(alloc, step, room, true);
    let full = Sink::new(alloc, step, room, false);
    Ok(
        comes_to(alloc, HELLO, &mut Source::new(b"", 9), failing, ended)?
            && comes_to(alloc, HELLO, &mut Source::new(b"", 9), full, ended)?,
    )
}

/// A slice is a reader, and room for bytes a writer.
#[test]
fn slices_are_streams(rt: HostRuntime) -> Result<(), Fail> {
    let alloc = rt.alloc();
    let mut console = [0; 5];
    let end = run_io(
        alloc,
        image(alloc, HELLO)?,
        &mut Io::new(b"".as_slice()),
        &mut Io::new(console.as_mut_slice()),
        1_000_000,
    )?;
    assert!(rt; end == End::Exited(0) && console == *b"hello");
    Ok(())
}
