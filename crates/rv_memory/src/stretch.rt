//! Stretches: addresses at which an access needs no search.
//!
//! They are made once. One compare tells whether an access lies in one and has its right, wherever pages end. It goes by the
//! width of the access, so that a stretch reaches to its segment's last byte: a loop in the last word of code takes little
//! longer than elsewhere.

ghost use Rattle.std.specs.Prelude.{◌≡◌, ◌<◌};
ghost use Rattle.rv_memory.specs.Rights.{right_of, IsWidth};
ghost use Rattle.rv_memory.specs.Held.{pieces};
ghost use Rattle.rv_memory.specs.Quick.{AreNear, IsEnd, IsQuick, room_of};

use crate::flat::{Flat, is_given};
use crate::memory::{Memory, Right};
use rv_image::Segment;

/// The first addresses of a segment that gives a right: all from which an access of one width lies in the segment.
#[derive(Clone, Copy, Drop)]
pub struct Stretch {
    /// The index of the segment.
    pub segment: usize,
    pub start: u64,
    /// How many addresses there are.
    pub room: u64,
}

/// A segment that an access looks at first: how many addresses an access of each width can begin at.
#[derive(Clone, Copy, Drop)]
pub struct Near {
    /// The index of the segment.
    pub segment: usize,
    pub start: u64,
    pub room_1: u64,
    pub room_2: u64,
    pub room_4: u64,
    pub room_8: u64,
}

impl Near {
    /// The stretch for an access of so many bytes.
    #[inline(always)]
    pub(crate) fn stretch(&self, bytes: u64) -> Stretch
        requires { IsWidth bytes }
        ensures segment { result.segment ≡ self.now.segment }
        ensures start { result.start ≡ self.now.start }
        ensures room { result.room ≡ room_of self.now bytes }
    {
        let room = match bytes {
            1 => self.room_1,
            2 => self.room_2,
            4 => self.room_4,
            _ => self.room_8,
        };
        Stretch {
            segment: self.segment,
            start: self.start,
            room,
        }
    }
}

/// Where accesses look before they search, and where code ends.
#[derive(Clone, Copy, Drop)]
pub struct Nears {
    /// The first segment, where a fetch looks.
    pub code: Near,
    /// How many bytes from the start of code on lie before one that may not be executed; 0 where that is not known.
    pub code_bytes: u64,
    /// An access here or above looks at the higher of two segments, another at the lower one.
    pub divide: u64,
    pub low: Near,
    pub low_written: Near,
    pub high: Near,
    pub high_written: Near,
    /// Where a load looks after these.
    pub below: Near,
}

/// The segment at the index, where it gives the right; else no access can begin in it.
fn near_of(flat: &Flat, i: usize, right: Right) -> Near
    ensures index { result.segment ≡ i }
    ensures quick { IsQuick (pieces flat.now) result.segment result (right_of right) }
{
    if i < flat.segments.len() {
        let segment = &flat.segments[i];
        if is_given(segment, right) {
            let length = segment.bytes.len() as u64;
            return Near {
                segment: i,
                start: segment.address,
                room_1: length,
                room_2: length.saturating_sub(1),
                room_4: length.saturating_sub(3),
                room_8: length.saturating_sub(7),
            };
        }
    }
    Near {
        segment: i,
        start: 0,
        room_1: 0,
        room_2: 0,
        room_4: 0,
        room_8: 0,
    }
}

/// The count of bytes from an address on, where the byte behind them may not be executed; else 0.
fn bytes_before_end(flat: &Flat, start: u64, bytes: u64) -> u64
    ensures { IsEnd (pieces flat.now) start result }
{
    if flat.may(start.wrapping_add(bytes), 1, Right::Execute) {
        return 0;
    }
    bytes
}

/// The indices of three segments by ascending addresses.
#[derive(Clone, Copy, Drop)]
pub(crate) struct Sides {
    pub below: usize,
    pub low: usize,
    pub high: usize,
}

/// The segments where most loads and stores are: the last one, below it the last that may be written, or else the next one,
/// and the one below that. Linkers put data last, below the stack or above it, and constants below data.
pub(crate) fn sides_of(segments: &[Segment]) -> Sides {
    let high = segments.len().saturating_sub(1);
    let low = segments[..high]
        .iter()
        .rposition(|segment| is_given(segment, Right::Write))
        .unwrap_or(high.saturating_sub(1));
    Sides {
        below: low.saturating_sub(1),
        low,
        high,
    }
}

/// Where accesses look, with these segments.
pub(crate) fn nears_of(flat: &Flat, sides: Sides) -> Nears
    ensures { AreNear (pieces flat.now) result }
{
    let code = near_of(flat, 0, Right::Execute);
    let divide = match flat.segments.get(sides.high) {
        Some(segment) => segment.address,
        None => 0,
    };
    Nears {
        code,
        code_bytes: bytes_before_end(flat, code.start, code.room_1),
        divide,
        low: near_of(flat, sides.low, Right::Read),
        low_written: near_of(flat, sides.low, Right::Write),
        high: near_of(flat, sides.high, Right::Read),
        high_written: near_of(flat, sides.high, Right::Write),
        below: near_of(flat, sides.below, Right::Read),
    }
}
