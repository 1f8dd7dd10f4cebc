//! What stands between the `$` and the `#` of a packet, while it is read.

ghost use Rattle.std.specs.Prelude.{◌≡◌, OnOk, IfOk, ⊤};
ghost use Rattle.rv_gdb_packets.specs.Reading.{begun, with_byte, with_meant};
ghost use Rattle.rv_gdb_packets.specs.Views.{body_of};

use std::alloc::{AllocError, Global};

/// The most bytes that the content of a packet has; of a longer one no more is kept, and it counts as damaged.
pub const CONTENT_LIMIT: usize = 16384;

/// The byte before one that is sent changed, as it has a meaning of its own.
pub(crate) const ESCAPE: u8 = b'}';

/// What such a byte is changed by.
pub(crate) const CHANGE: u8 = 0x20;

/// What was read of a packet.
#[derive(Drop)]
pub struct Body {
    /// The bytes that were meant so far.
    pub content: Vec<u8>,
    /// Whether all of them are kept.
    pub is_whole: bool,
    /// Whether the latest byte was the one before a changed one.
    pub escapes: bool,
    /// The sum of the bytes that came, modulo 256.
    pub sum: u8,
}

impl Body {
    /// Nothing yet.
    pub fn new(alloc: Global) -> Self
        ensures { body_of result ≡ begun }
    {
        Body {
            content: Vec::new(alloc),
            is_whole: true,
            escapes: false,
            sum: 0,
        }
    }

    /// Forgets all that was read.
    pub fn begin(&mut self)
        ensures { body_of self.new ≡ begun }
    {
        self.content.clear();
        self.is_whole = true;
        self.escapes = false;
        self.sum = 0;
    }

    /// Keeps a byte that was meant, where there is room.
    fn keep(&mut self, byte: u8) -> Result<(), AllocError>
        ensures { OnOk result (body_of self.new ≡ with_meant byte (body_of self.old)) }
    {
        if self.content.len() < CONTENT_LIMIT {
            self.content.push(byte)?;
        } else {
            self.is_whole = false;
        }
        Ok(())
    }

    /// Takes the next byte.
    pub fn put(&mut self, byte: u8) -> Result<(), AllocError>
        ensures { OnOk result (body_of self.new ≡ with_byte byte (body_of self.old)) }
    {
        self.sum = self.sum.wrapping_add(byte);
        if self.escapes {
            self.escapes = false;
            return self.keep(byte ^ CHANGE);
        }
        if byte == ESCAPE {
            self.escapes = true;
            return Ok(());
        }
        self.keep(byte)
    }
}
