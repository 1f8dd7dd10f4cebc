//! Where a program is to stop.

ghost use Rattle.std.specs.Prelude.{◌≤◌, length};

use crate::command::Range;
use std::alloc::{AllocError, Global};

/// What a point stops at.
#[derive(Clone, Copy, PartialEq, Eq, Drop)]
pub enum PointKind {
    /// The instruction at an address; a debugger takes it for one that is written into the code.
    Software,
    /// The same, without.
    Hardware,
    /// A write to bytes.
    Write,
    /// A read of them.
    Read,
    /// Either.
    Access,
}

/// Bytes that an instruction reads, and bytes that it writes, if it is done.
#[derive(Clone, Copy, Drop)]
pub struct Reach {
    pub read: Option<Range>,
    pub written: Option<Range>,
}

/// A point.
#[derive(Clone, Copy, PartialEq, Eq, Drop)]
pub struct Point {
    pub kind: PointKind,
    pub range: Range,
}

/// A point that was met: its kind, and where.
#[derive(Clone, Copy, Drop)]
pub struct Met {
    pub kind: PointKind,
    pub address: u64,
}

/// The most points at instructions.
const BREAK_LIMIT: usize = 1024;

/// The most points at bytes; each access is held against each of them.
const WATCH_LIMIT: usize = 32;

/// The points that are set.
#[derive(Drop)]
pub struct Points {
    /// Those at instructions, by ascending addresses.
    breaks: Vec<Point>,
    /// Those at bytes.
    watches: Vec<Point>,
}

/// Whether two ranges have a byte in common.
pub fn do_meet(first: Range, second: Range) -> bool {
    first.length > 0
        && second.length > 0
        && (first.address.wrapping_sub(second.address) < second.length
            || second.address.wrapping_sub(first.address) < first.length)
}

/// The first byte of a range that lies in another, where one does.
fn first_in(range: Range, other: Range) -> u64 {
    if range.address.wrapping_sub(other.address) < other.length {
        range.address
    } else {
        other.address
    }
}

/// Whether a point at bytes is for reads, or for writes.
fn looks_at(kind: PointKind, writes: bool) -> bool {
    match kind {
        PointKind::Write => writes,
        PointKind::Read => !writes,
        PointKind::Access => true,
        PointKind::Software | PointKind::Hardware => false,
    }
}

/// Whether such a point is in a list.
fn is_among(list: &[Point], wanted: &Point) -> bool {
    for point in list {
        if *point == *wanted {
            return true;
        }
    }
    false
}

/// Takes such a point out of a list.
fn remove_from(list: &mut Vec<Point>, wanted: &Point) {
    let found = list.iter().position(|point| *point == *wanted);
    if let Some(index) = found {
        list.remove(index);
    }
}

impl Points {
    /// None.
    pub fn new(alloc: Global) -> Self {
        Points {
            breaks: Vec::new(alloc),
            watches: Vec::new(alloc),
        }
    }

    /// Sets a point, if it is not set; whether there was room.
    pub fn insert(&mut self, kind: PointKind, range: Range) -> Result<bool, AllocError> {
        let point = Point { kind, range };
        match kind {
            PointKind::Software | PointKind::Hardware => self.insert_break(point),
            PointKind::Write | PointKind::Read | PointKind::Access => self.insert_watch(point),
        }
    }

    /// Sets a point at bytes, if it is not set; whether there was room.
    fn insert_watch(&mut self, point: Point) -> Result<bool, AllocError> {
        if is_among(&self.watches, &point) {
            return Ok(true);
        }
        if self.watches.len() >= WATCH_LIMIT {
            return Ok(false);
        }
        self.watches.push(point)?;
        Ok(true)
    }

    /// Sets a point at an instruction, if it is not set; whether there was room.
    fn insert_break(&mut self, point: Point) -> Result<bool, AllocError> {
        if is_among(&self.breaks, &point) {
            return Ok(true);
        }
        if self.breaks.len() >= BREAK_LIMIT {
            return Ok(false);
        }
        let index = self.first_from(point.range.address);
        self.breaks.insert(index, point)?;
        Ok(true)
    }

    /// The index of the first point at an instruction from an address on.
    fn first_from(&self, address: u64) -> usize
        ensures { result ≤ length self.now.breaks.items }
    {
        self.breaks
            .partition_point(|point| point.range.address < address)
    }

    /// Takes a point away.
    pub fn remove(&mut self, kind: PointKind, range: Range) {
        let wanted = Point { kind, range };
        remove_from(&mut self.breaks, &wanted);
        remove_from(&mut self.watches, &wanted);
    }

    /// The point at an instruction.
    pub fn at(&self, pc: u64) -> Option<Met> {
        match self.breaks.get(self.first_from(pc)) {
            Some(point) if point.range.address == pc => Some(Met {
                kind: point.kind,
                address: pc,
            }),
            _ => None,
        }
    }

    /// The point at bytes that are read, or written.
    fn over(&self, range: Option<Range>, writes: bool) -> Option<Met> {
        let range = range?;
        for point in &self.watches {
            if looks_at(point.kind, writes) && do_meet(point.range, range) {
                return Some(Met {
                    kind: point.kind,
                    address: first_in(range, point.range),
                });
            }
        }
        None
    }

    /// Whether there are points at bytes.
    pub fn watch(&self) -> bool {
        !self.watches.is_empty()
    }

    /// The point at bytes that an instruction reaches.
    pub fn met_by(&self, reach: &Reach) -> Option<Met> {
        match self.over(reach.written, true) {
            Some(met) => Some(met),
            None => self.over(reach.read, false),
        }
    }
}
