//! The bytes of a stream, as they come.

ghost use Rattle.std.specs.Prelude.{◌≡◌, IfOk};
ghost use Rattle.rv_gdb_packets.specs.Reading.{Outside, Inside, received, verdict};
ghost use Rattle.rv_gdb_packets.specs.Views.{body_of, position_of, said_by, message_of};

use crate::body::Body;
use crate::digits::byte_of;
use std::alloc::{AllocError, Global};

/// What a stream says.
#[derive(Clone, Copy, Drop)]
pub enum Message {
    /// A packet has come whole; the receiver has its content until it is given the next byte.
    Packet,
    /// A packet has come whose checksum is another, or that is too long: it is to be sent again.
    Damaged,
    /// What runs is to stop.
    Interrupt,
    /// The latest packet came damaged on the other side.
    Again,
}

/// Where in a stream a reader stands.
#[derive(Clone, Copy, Drop)]
pub enum Phase {
    /// Outside of a packet.
    Outside,
    /// Behind the `$` of a packet.
    Inside,
    /// Behind its `#`.
    Behind,
    /// Behind the first digit of its checksum.
    Half(u8),
}

/// A reader of a stream.
#[derive(Drop)]
pub struct Receiver {
    pub(crate) phase: Phase,
    pub(crate) body: Body,
}

/// Whether a packet came as it was sent, by the two digits of its checksum.
fn judge(body: &Body, first: u8, second: u8) -> Message
    ensures { message_of result body.now.content.items ≡ verdict (body_of body.now) first second }
{
    if body.is_whole && !body.escapes && byte_of(first, second) == Some(body.sum) {
        Message::Packet
    } else {
        Message::Damaged
    }
}

impl Receiver {
    /// Before the first byte.
    pub fn new(alloc: Global) -> Self
        ensures { position_of result ≡ Outside }
    {
        Receiver {
            phase: Phase::Outside,
            body: Body::new(alloc),
        }
    }

    /// The content of the packet that has come, where the latest byte was its last.
    pub fn content(&self) -> &[u8]
        ensures { result.now ≡ self.now.body.content.items }
    {
        &self.body.content
    }

    /// Takes the next byte outside of a packet.
    fn outside(&mut self, byte: u8) -> Option<Message>
        requires { position_of self.old ≡ Outside }
        ensures place { position_of self.new ≡ (received Outside byte).0 }
        ensures said { said_by result self.new.body.content.items ≡ (received Outside byte).1 }
    {
        match byte {
            b'$' => {
                self.body.begin();
                self.phase = Phase::Inside;
                None
            }
            3 => Some(Message::Interrupt),
            b'-' => Some(Message::Again),
            _ => None,
        }
    }

    /// Takes the next byte in a packet.
    fn inside(&mut self, byte: u8) -> Result<(), AllocError>
        requires { position_of self.old ≡ Inside (body_of self.old.body) }
        ensures { IfOk result (λ _. position_of self.new ≡ (received (Inside (body_of self.old.body)) byte).0) }
    {
        match byte {
            b'$' => self.body.begin(),
            b'#' => self.phase = Phase::Behind,
            _ => self.body.put(byte)?,
        }
        Ok(())
    }

    /// Takes the next byte.
    pub fn receive(&mut self, byte: u8) -> Result<Option<Message>, AllocError>
        ensures place { IfOk result (λ _. position_of self.new ≡ (received (position_of self.old) byte).0) }
        ensures said { IfOk result (λ message. said_by message self.new.body.content.items
            ≡ (received (position_of self.old) byte).1) }
    {
        match self.phase {
            Phase::Outside => Ok(self.outside(byte)),
            Phase::Inside => {
                self.inside(byte)?;
                Ok(None)
            }
            Phase::Behind => {
                self.phase = Phase::Half(byte);
                Ok(None)
            }
            Phase::Half(first) => {
                self.phase = Phase::Outside;
                Ok(Some(judge(&self.body, first, byte)))
            }
        }
    }
}
