//! The bytes between this side and a debugger.

ghost use Rattle.std.specs.Prelude.{◌≤◌};

use rv_gdb_packets::put_packet;
use rv_system::{JobError, System, cannot, print};
use std::alloc::Global;

/// The most bytes that are read at once.
const PIECE: usize = 4096;

/// The byte that says that a packet came whole.
const RECEIVED: u8 = b'+';

/// The byte that says that it came damaged.
const DAMAGED: u8 = b'-';

/// The byte that begins a packet.
const BEGIN: u8 = b'$';

/// The byte behind its content.
const END: u8 = b'#';

/// The byte that asks to stop.
const INTERRUPT: u8 = 3;

/// What the other side says while a program goes.
#[derive(Clone, Copy, Drop)]
pub enum Heard {
    /// Nothing but that packets came.
    Nothing,
    /// The program is to stop.
    Interrupt,
    /// The other side has gone.
    End,
}

/// Where in the bytes that came while a program goes a reader stands.
#[derive(Clone, Copy, PartialEq, Eq, Drop)]
enum Place {
    /// Outside of a packet.
    Outside,
    /// Behind the `$` of a packet.
    Inside,
    /// Behind its `#`.
    Behind,
    /// Behind the first digit of its checksum.
    Half,
}

/// The most bytes of packets that are kept while a program goes.
const KEPT: usize = 1 << 16;

/// A stream from a debugger, and the packet that was sent to it last.
#[derive(Drop)]
pub struct Wire {
    alloc: Global,
    piece: [u8; PIECE],
    /// How many bytes of the piece came, and how many of them were taken.
    came: usize,
    taken: usize,
    /// The packets that came while the program went, which wait until it stands, and how many bytes of them were taken.
    kept: Vec<u8>,
    kept_taken: usize,
    /// Where the last of them stands.
    place: Place,
    /// The packet that was sent last.
    sent: Vec<u8>,
    /// How many packets were sent since the program goes whose `+` has not come.
    due: u64,
    pub ghost within: { came ≤ 4096 },
}

impl Wire {
    /// Before the first byte.
    pub fn new(alloc: Global) -> Self {
        Wire {
            alloc,
            piece: [0; PIECE],
            came: 0,
            taken: 0,
            kept: Vec::new(alloc),
            kept_taken: 0,
            place: Place::Outside,
            sent: Vec::new(alloc),
            due: 0,
        }
    }

    /// The next byte from the stream, for which it waits; none at the end.
    fn read<S: System>(&mut self, system: &mut S) -> Result<Option<u8>, JobError> {
        if self.taken >= self.came {
            let Ok(count) = system.next_input(&mut self.piece[..]) else {
                return Err(cannot(self.alloc, "read", "-")?);
            };
            self.came = count;
            self.taken = 0;
        }
        if self.taken >= self.came {
            return Ok(None);
        }
        let byte = self.piece[self.taken];
        self.taken += 1;
        Ok(Some(byte))
    }

    /// The next byte, for which it waits; none at the end.
    pub fn next<S: System>(&mut self, system: &mut S) -> Result<Option<u8>, JobError> {
        if self.kept_taken < self.kept.len() {
            let byte = self.kept[self.kept_taken];
            self.kept_taken += 1;
            return Ok(Some(byte));
        }
        self.read(system)
    }

    /// Has no `+` be due: the program goes from now on, and what asked for that came behind all of them.
    pub fn begin(&mut self) {
        self.due = 0;
        if self.kept_taken >= self.kept.len() {
            self.kept.clear();
            self.kept_taken = 0;
            self.place = Place::Outside;
        }
    }

    /// Whether no more is kept of what comes while the program goes.
    pub fn is_full(&self) -> bool {
        self.kept.len() >= KEPT
    }

    /// Whether the same packet has come again, and waits.
    pub fn is_next(&self, content: &[u8]) -> Result<bool, JobError> {
        if self.kept_taken < self.kept.len() {
            return Ok(false);
        }
        let mut packet = Vec::new(self.alloc);
        put_packet(&mut packet, content)?;
        let came = self.piece.as_slice().split_at(self.came).0;
        let waiting = came.split_at(self.taken.min(came.len())).1;
        Ok(waiting.starts_with(packet.as_slice()))
    }

    /// Keeps a byte of a packet.
    fn keep(&mut self, byte: u8) -> Result<(), JobError> {
        self.place = match (self.place, byte) {
            (Place::Outside | Place::Inside, END) => Place::Behind,
            (Place::Outside | Place::Inside, _) => Place::Inside,
            (Place::Behind, _) => Place::Half,
            (Place::Half, _) => Place::Outside,
        };
        self.kept.push(byte)?;
        Ok(())
    }

    /// Does what a byte outside of a packet asks; whether the program is to stop.
    fn heed<S: System>(&mut self, system: &mut S, byte: u8) -> Result<bool, JobError> {
        match byte {
            RECEIVED => self.due = self.due.saturating_sub(1),
            DAMAGED => self.send_again(system)?,
            BEGIN => self.keep(byte)?,
            _ => {}
        }
        Ok(byte == INTERRUPT)
    }

    /// What has come up to the `+` of the packet that was sent last, for which it waits. Packets are kept.
    pub fn hear<S: System>(&mut self, system: &mut S) -> Result<Heard, JobError> {
        let mut heard = Heard::Nothing;
        for _ in 0..u64::MAX {
            if self.due == 0 || self.is_full() {
                break;
            }
            let Some(byte) = self.read(system)? else {
                return Ok(Heard::End);
            };
            if self.place != Place::Outside {
                self.keep(byte)?;
            } else if self.heed(system, byte)? {
                heard = Heard::Interrupt;
            }
        }
        Ok(heard)
    }

    /// Sends a packet.
    pub fn send<S: System>(&mut self, system: &mut S, content: &[u8]) -> Result<(), JobError> {
        self.sent.clear();
        put_packet(&mut self.sent, content)?;
        self.due = self.due.saturating_add(1);
        print(system, self.sent.as_slice())
    }

    /// Sends the latest packet again.
    pub fn send_again<S: System>(&self, system: &mut S) -> Result<(), JobError> {
        print(system, self.sent.as_slice())
    }
}
