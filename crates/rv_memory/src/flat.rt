//! A memory that keeps each segment as one piece.
//!
//! An access looks first at the segment where the latest search ended, a fetch at the first segment, where linkers put
//! code: a constant index costs least. Each guess is tested like any other index, so no contract speaks of it. The
//! segments are moved out of the image, so no zero of theirs is written again.

ghost use Rattle.std.specs.Prelude.{
  ◌≡◌,
  ℕ,
  ◌+◌,
  ◌-◌,
  ◌%◌,
  ◌^◌,
  ◌≤◌,
  ◌<◌,
  true,
  false,
  [],
  Some,
  None,
  map,
  length,
  take,
  drop,
  ◌∷◌,
  ◌++◌,
  IfSome,
  IfOk,
  replicate,
  MatchOption,
  MatchBool,
  slice_get,
  slice_index,
  slice_index_or,
  set,
  vec_capacity,
};
ghost use Rattle.rv_isa_laws.specs.Memory.{
  may,
  bytes_at,
  with_bytes,
  number_at,
  with_number,
  Right as ARight,
  Write as ToWrite,
};
ghost use Rattle.rv_image.specs.SegmentView.{segment_of};
ghost use Rattle.rv_memory.specs.Rights.{right_of, IsWidth, IsToLoad, MayLoad};
ghost use Rattle.rv_memory.specs.Flat.{memory_of, AreDisjoint, no_segment, with_part};
ghost use Rattle.rv_memory.specs.Stretches.{AreAlike, IsStretch};
ghost use Rattle.rv_memory.specs.Pages.{AreBehind, AreOrdered, IsLastBegun};
ghost use Rattle.rv_memory.specs.Unmade.{HasTop, IsFree, IsTop, deeper, with_unmade};
ghost use Rattle.rv_isa_laws.specs.Platform.{stack_end, stack_start};
ghost use Rattle.rv_image_laws.specs.Memory.{lies_in, gives_right, right_in, segment_at, mem_of};
ghost use Rattle.std.specs.List.{All, remove};
ghost use Rattle.rv_image.specs.Views.{image_of};

use crate::copies::copied_segments;
use crate::memory::{Memory, Right};
use crate::pieces::{Pieces, have_right, load_number, number, store_number};
use crate::stretch::Stretch;
use rv_image::{Image, STACK_BYTES, STACK_START, Segment};
use std::alloc::{AllocError, Global};
use std::cell::Cell;

/// Segments that lie apart, the stack last among them, each in one piece. A fetch looks first at the first of them,
/// where linkers put code, and then where the latest search for code ended; another access looks first where the
/// latest one was found. A scan finds the segment where none of these holds it.
#[derive(Drop)]
pub struct Flat {
    pub(crate) segments: Vec<Segment>,
    /// The index of the segment where the latest search for bytes to execute ended.
    code: Cell<usize>,
    /// The index of the segment where the latest search for bytes below or above the stack ended.
    data: Cell<usize>,
    pub(crate) ghost apart: { AreDisjoint (map segment_of segments.items) },
}

/// How many zeros are written at once: vectors fill few bytes in fewer instructions than the processor's loop for many.
const FILLED_AT_ONCE: usize = 1024;

/// Fills an empty list that has room for them with zeros.
fn fill(list: &mut Vec<u8>, count: usize)
    requires empty { list.old.items ≡ [] }
    requires room { count ≤ vec_capacity list.old }
    ensures zeros { list.new.items ≡ replicate count 0 }
    ensures room { vec_capacity list.old ≤ vec_capacity list.new }
{
    let mut done = 0;
    while done < count {
        let next = done + (count - done).min(FILLED_AT_ONCE);
        list.resize(next, 0).unwrap();
        done = next;
    }
}

/// Puts so many zeros and then bytes into an empty list that has room for all.
fn fill_below(list: &mut Vec<u8>, count: usize, bytes: &[u8])
    requires empty { list.old.items ≡ [] }
    requires room { count + length bytes.now ≤ vec_capacity list.old }
    ensures { list.new.items ≡ replicate count 0 ++ bytes.now }
{
    fill(list, count);
    list.extend_from_slice(bytes).unwrap();
}

/// So many zeros.
fn zeros(alloc: Global, count: usize) -> Result<Vec<u8>, AllocError>
    ensures count { IfOk result (λ v. length v.items ≡ count) }
    ensures zeros { IfOk result (λ v. (k : ℕ) → slice_index v.items k ≡ 0) }
{
    let mut zeros = Vec::with_capacity(alloc, count)?;
    fill(&mut zeros, count);
    Ok(zeros)
}

/// The segments of an image, and the stack after them, from one of its addresses on.
fn with_stack(alloc: Global, image: Image, from: u64) -> Result<Vec<Segment>, AllocError>
    requires low { stack_start ≤ from }
    requires high { from < stack_end }
    ensures apart { IfOk result (λ segments. AreDisjoint (map segment_of segments.items)) }
    ensures memory { IfOk result
        (λ segments. with_unmade from (memory_of (map segment_of segments.items))
        ≡ mem_of (image_of image)) }
    ensures free { IfOk result (λ segments. IsFree (map segment_of segments.items) from) }
    ensures top { IfOk result (λ segments. HasTop (map segment_of segments.items) from) }
{
    let stack = Segment {
        address: from,
        bytes: zeros(alloc, (STACK_START + STACK_BYTES as u64 - from) as usize)?,
        flags: 6,
    };
    let mut segments = image.segments;
    segments.push(stack)?;
    Ok(segments)
}

/// Leaves out the segments that have no bytes.
fn drop_empty(segments: &mut Vec<Segment>)
    requires { AreDisjoint (map segment_of segments.old.items) }
    ensures apart { AreDisjoint (map segment_of segments.new.items) }
    ensures filled { All (λ s. 0 < length s.bytes.items) segments.new.items }
    ensures memory { memory_of (map segment_of segments.new.items)
        ≡ memory_of (map segment_of segments.old.items) }
    ensures found { (x : ℕ) → segment_at (map segment_of segments.new.items) x
        ≡ segment_at (map segment_of segments.old.items) x }
{
    segments.retain(|segment| !segment.bytes.is_empty());
}

/// Puts segments in the order of their addresses.
fn put_in_order(segments: &mut Vec<Segment>)
    requires apart { AreDisjoint (map segment_of segments.old.items) }
    requires filled { All (λ s. 0 < length s.bytes.items) segments.old.items }
    ensures apart { AreDisjoint (map segment_of segments.new.items) }
    ensures ordered { AreOrdered (map segment_of segments.new.items) }
    ensures memory { memory_of (map segment_of segments.new.items)
        ≡ memory_of (map segment_of segments.old.items) }
    ensures found { (x : ℕ) → segment_at (map segment_of segments.new.items) x
        ≡ segment_at (map segment_of segments.old.items) x }
{
    segments.sort_unstable_by_key(|segment| segment.address);
}

/// Puts the segment at an index in front of the others.
fn put_first(segments: &mut Vec<Segment>, i: usize)
    requires { i < length segments.old.items }
    ensures { map segment_of segments.new.items
        ≡ slice_index_or (map segment_of segments.old.items) i no_segment
        ∷ remove (map segment_of segments.old.items) i }
{
    let segment = segments.remove(i);
    segments.insert(0, segment).unwrap();
}

/// The index of the last segment that begins at the address or below.
fn last_begun(segments: &[Segment], address: u64) -> Option<usize>
    requires { AreOrdered (map segment_of segments.now) }
    ensures { MatchOption result
        ((k : ℕ) → k < length segments.now →
        address < (slice_index_or (map segment_of segments.now) k no_segment).address)
        (λ i. IsLastBegun (map segment_of segments.now) address i) }
{
    match segments.binary_search_by_key(&address, |segment| segment.address) {
        Ok(i) => Some(i),
        Err(i) => { if i > 0 { Some(i - 1) } else { None } }
    }
}

/// The index of the segment in which an address lies, by a binary search.
fn position_among(segments: &[Segment], address: u64) -> Option<usize>
    requires apart { AreDisjoint (map segment_of segments.now) }
    requires ordered { AreOrdered (map segment_of segments.now) }
    ensures within { IfSome result (λ i. i < length segments.now) }
    ensures found { MatchOption result (segment_at (map segment_of segments.now) address ≡ None)
        (λ i. segment_at (map segment_of segments.now) address
        ≡ slice_get (map segment_of segments.now) i) }
{
    match last_begun(segments, address) {
        Some(i) => {
            if is_held(&segments[i], address) {
                Some(i)
            } else {
                None
            }
        }
        None => None,
    }
}

/// Whether the address lies in the segment.
#[inline(always)]
pub(crate) fn is_held(segment: &Segment, address: u64) -> bool
    ensures { result ≡ lies_in (segment_of segment.now) address }
{
    address.wrapping_sub(segment.address) < segment.bytes.len() as u64
}

/// Whether segment flags give the right.
#[inline(always)]
pub(crate) fn give(flags: u32, right: Right) -> bool
    ensures { result ≡ gives_right flags (right_of right) }
{
    match right {
        Right::Execute => flags % 2 == 1,
        Right::Write => flags / 2 % 2 == 1,
        Right::Read => flags / 4 % 2 == 1,
    }
}

/// Whether the segment's bytes have the right.
#[inline(always)]
pub(crate) fn is_given(segment: &Segment, right: Right) -> bool
    ensures { result ≡ gives_right segment.now.flags (right_of right) }
{
    give(segment.flags, right)
}

/// The segment's bytes from one on.
#[inline(always)]
pub(crate) fn bytes_from(segment: &Segment, at: u64) -> &[u8]
    requires { at ≤ length segment.now.bytes.items }
    ensures value { result.now ≡ drop at segment.now.bytes.items }
    ensures small { (k : ℕ) → slice_index result.now k < 256 }
{
    let bytes = segment.bytes.as_slice();
    bytes.split_at(at as usize).1
}

/// Replaces bytes from the one at `at` on.
#[inline(always)]
pub(crate) fn overwrite(bytes: &mut [u8], at: usize, by: &[u8])
    requires { at + length by.now ≤ length bytes.old }
    ensures { bytes.new ≡ take at bytes.old ++ (by.now ++ drop (at + length by.now) bytes.old) }
{
    bytes[at..at + by.len()].copy_from_slice(by);
}

impl Flat {
    ghost use Rattle.rv_memory.specs.Held.{held, pieces};

    /// The memory of an image, with the stack.
    pub fn new(alloc: Global, image: Image) -> Result<Self, AllocError>
        ensures { IfOk result (λ flat. held flat ≡ mem_of (image_of image)) }
    {
        Ok(Flat {
            segments: with_stack(alloc, image, STACK_START)?,
            code: Cell::new(0),
            data: Cell::new(0),
        })
    }

    /// The same memory with the stack from one of its addresses on, and the segments that have bytes in the order of
    /// their addresses.
    pub(crate) fn in_order(alloc: Global, image: Image, from: u64) -> Result<Self, AllocError>
        requires low { stack_start ≤ from }
        requires high { from < stack_end }
        ensures ordered { IfOk result (λ flat. AreOrdered (pieces flat)) }
        ensures memory { IfOk result
            (λ flat. with_unmade from (held flat) ≡ mem_of (image_of image)) }
        ensures free { IfOk result (λ flat. IsFree (pieces flat) from) }
        ensures top { IfOk result (λ flat. HasTop (pieces flat) from) }
    {
        let mut segments = with_stack(alloc, image, from)?;
        drop_empty(&mut segments);
        put_in_order(&mut segments);
        Ok(Flat {
            segments,
            code: Cell::new(0),
            data: Cell::new(0),
        })
    }

    /// The same memory once more.
    pub(crate) fn copied(&self, alloc: Global) -> Result<Self, AllocError>
        ensures { IfOk result (λ copy. pieces copy ≡ pieces self.now) }
    {
        Ok(Flat {
            segments: copied_segments(alloc, &self.segments)?,
            code: Cell::new(self.code.get()),
            data: Cell::new(self.data.get()),
        })
    }

    /// The index of the segment in which an address lies.
    #[inline(always)]
    pub(crate) fn position(&self, address: u64) -> Option<usize>
        ensures within { IfSome result (λ i. i < length self.now.segments.items) }
        ensures found { MatchOption result (segment_at (pieces self.now) address ≡ None)
            (λ i. segment_at (pieces self.now) address ≡ slice_get (pieces self.now) i) }
    {
        for (i, segment) in self.segments.iter().enumerate() {
            if is_held(segment, address) {
                return Some(i);
            }
        }
        None
    }

    /// The index of the segment that an access looks at first; for code a constant, which costs least.
    #[inline(always)]
    fn first(&self, address: u64, right: Right) -> usize {
        match right {
            Right::Execute => 0,
            _ if address.wrapping_sub(STACK_START) < STACK_BYTES as u64 => {
                self.segments.len().wrapping_sub(1)
            }
            _ => self.data.get(),
        }
    }

    /// The index of the segment where the latest search ended.
    #[inline(always)]
    pub(crate) fn latest(&self, right: Right) -> usize {
        match right {
            Right::Execute => self.code.get(),
            Right::Read | Right::Write => self.data.get(),
        }
    }

    /// Has the next accesses look first at the segment at the index.
    pub(crate) fn remember(&self, i: usize, right: Right) {
        match right {
            Right::Execute => self.code.set(i),
            Right::Read | Right::Write => self.data.set(i),
        }
    }

    /// The index of the segment in which an address lies: the first, or by a binary search one of the others, which have
    /// bytes and are in the order of their addresses.
    pub(crate) fn position_in_order(&self, address: u64) -> Option<usize>
        requires { AreBehind (pieces self.now) }
        ensures within { IfSome result (λ i. i < length self.now.segments.items) }
        ensures found { MatchOption result (segment_at (pieces self.now) address ≡ None)
            (λ i. segment_at (pieces self.now) address ≡ slice_get (pieces self.now) i) }
    {
        let [first, others @ ..] = self.segments.as_slice() else {
            return None;
        };
        if is_held(first, address) {
            return Some(0);
        }
        match position_among(others, address) {
            Some(i) => Some(i + 1),
            None => None,
        }
    }

    /// The index of the segment that has the stack from an address on.
    pub(crate) fn stack_index(&self, from: u64) -> usize
        requires ordered { AreBehind (pieces self.now) }
        requires top { HasTop (pieces self.now) from }
        ensures within { result < length (pieces self.now) }
        ensures top { IsTop from (slice_index_or (pieces self.now) result no_segment) }
    {
        self.position_in_order(from).unwrap()
    }

    /// Puts the segment at an index in front of all, where an access of code looks, if there is one.
    pub(crate) fn bring_forward(&mut self, i: usize)
        requires { AreOrdered (pieces self.old) }
        ensures behind { AreBehind (pieces self.new) }
        ensures memory { held self.new ≡ held self.old }
        ensures found { (x : ℕ) → segment_at (pieces self.new) x ≡ segment_at (pieces self.old) x }
    {
        if i < self.segments.len() {
            put_first(&mut self.segments, i);
        }
    }

    /// Puts zeros in front of the segment at the index, from an address on where no segment lies, in an empty list with
    /// room for all of its bytes.
    pub(crate) fn deepen(&mut self, i: usize, start: u64, mut room: Vec<u8>)
        requires index { i < length self.old.segments.items }
        requires low { start ≤ (slice_index_or (pieces self.old) i no_segment).address }
        requires empty { room.items ≡ [] }
        requires room { (slice_index_or (pieces self.old) i no_segment).address - start
            + length (slice_index_or (pieces self.old) i no_segment).bytes
            ≤ vec_capacity room }
        requires free { (x : ℕ) → start ≤ x →
            x < (slice_index_or (pieces self.old) i no_segment).address →
            segment_at (pieces self.old) x ≡ None }
        ensures { pieces self.new
            ≡ set (pieces self.old) i
            (deeper start (slice_index_or (pieces self.old) i no_segment)) }
    {
        let segment = &self.segments[i];
        let flags = segment.flags;
        let zeros = (segment.address - start) as usize;
        fill_below(&mut room, zeros, &segment.bytes);
        self.segments[i] = Segment {
            address: start,
            bytes: room,
            flags,
        };
    }

    /// How many bytes from an address on have the right, as far as its segment goes, whose index is given.
    #[inline(always)]
    pub(crate) fn run_from(&self, i: usize, address: u64, right: Right) -> u64
        requires within { i < length self.now.segments.items }
        requires found { segment_at (pieces self.now) address ≡ slice_get (pieces self.now) i }
        ensures all { may (held self.now) address result (right_of right) ≡ true }
        ensures none { result ≡ 0 → (held self.now).has address (right_of right) ≡ false }
    {
        if is_given(&self.segments[i], right) {
            self.room_from(i, address)
        } else {
            0
        }
    }

    /// How many bytes the segment of an address, whose index is given, has from there on.
    #[inline(always)]
    pub(crate) fn room_from(&self, i: usize, address: u64) -> u64
        requires within { i < length self.now.segments.items }
        requires found { segment_at (pieces self.now) address ≡ slice_get (pieces self.now) i }
        ensures some { 0 < result }
        ensures all { (right : ARight) →
            right_in (segment_at (pieces self.now) address) right ≡ true →
            may (held self.now) address result right ≡ true }
    {
        let segment = &self.segments[i];
        segment.bytes.len() as u64 - (address - segment.address)
    }

    /// The bytes from an address on, as far as its segment goes, whose index is given.
    #[inline(always)]
    pub(crate) fn rest_from(&self, i: usize, address: u64) -> &[u8]
        requires within { i < length self.now.segments.items }
        requires found { segment_at (pieces self.now) address ≡ slice_get (pieces self.now) i }
        ensures bytes { bytes_at (held self.now) address (length result.now) ≡ result.now }
        ensures small { (k : ℕ) → slice_index result.now k < 256 }
        ensures none { result.now ≡ [] →
            (right : ARight) → (held self.now).has address right ≡ false }
    {
        let segment = &self.segments[i];
        let bytes = segment.bytes.as_slice();
        bytes.split_at((address - segment.address) as usize).1
    }

    /// Puts bytes that lie in the segment of an address, whose index is given; whether they do.
    #[inline(always)]
    pub(crate) fn put_from(&mut self, i: usize, address: u64, bytes: &[u8]) -> bool
        requires within { i < length self.old.segments.items }
        requires found { segment_at (pieces self.old) address ≡ slice_get (pieces self.old) i }
        ensures put { MatchBool result
            (held self.new ≡ with_bytes (held self.old) address bytes.now)
            (held self.new ≡ held self.old) }
        ensures one { length bytes.now ≡ 1 → result ≡ true }
        ensures alike { AreAlike (pieces self.old) (pieces self.new) }
    {
        let segment = &self.segments[i];
        let at = (address - segment.address) as usize;
        let room = segment.bytes.len() - at;
        if bytes.len() <= room {
            self.write(i, at, bytes);
            return true;
        }
        false
    }

    /// The bytes from an address on, where the segment at the index holds them and gives the right.
    #[inline(always)]
    pub(crate) fn part(&self, i: usize, address: u64, bytes: u64, right: Right) -> Option<&[u8]>
        ensures right { IfSome result
            (λ _. may (held self.now) address bytes (right_of right) ≡ true) }
        ensures length { IfSome result (λ part. length part.now ≡ bytes) }
        ensures bytes { IfSome result (λ part. bytes_at (held self.now) address bytes ≡ part.now) }
        ensures small { IfSome result (λ part. (k : ℕ) → slice_index part.now k < 256) }
    {
        if i >= self.segments.len() {
            return None;
        }
        let segment = &self.segments[i];
        let at = address.wrapping_sub(segment.address);
        let length = segment.bytes.len() as u64;
        if !is_given(segment, right) || at >= length || length - at < bytes {
            return None;
        }
        Some(bytes_from(segment, at).split_at(bytes as usize).0)
    }

    /// The number of bytes from an address on, where the stretch of the segment at the index holds it.
    #[inline(always)]
    pub(crate) fn near(
        &self,
        i: usize,
        stretch: Stretch,
        address: u64,
        bytes: u64,
        right: Right,
    ) -> Option<u64>
        requires width { IsWidth bytes }
        requires known { IsStretch (pieces self.now) i stretch.start stretch.room bytes
            (right_of right) }
        ensures right { IfSome result
            (λ _. may (held self.now) address bytes (right_of right) ≡ true) }
        ensures number { IfSome result
            (λ number. number ≡ number_at (held self.now) address bytes) }
        ensures bytes { IfSome result
            (λ _. (k : ℕ) → k < bytes → (held self.now).byte ((address + k) % 2 ^ 64) < 256) }
    {
        let at = address.wrapping_sub(stretch.start);
        if at >= stretch.room {
            return None;
        }
        let segment = &self.segments[i];
        let part = bytes_from(segment, at).split_at(bytes as usize).0;
        Some(number(part))
    }

    /// Whether bytes have the right, by a search; the next accesses look first where it ended.
    #[inline(never)]
    fn search(&self, address: u64, bytes: u64, right: Right) -> bool
        ensures { result ≡ may (held self.now) address bytes (right_of right) }
    {
        if let Some(i) = self.position(address) {
            self.remember(i, right);
        }
        self.may(address, bytes, right)
    }

    /// The number of bytes that were searched for.
    #[inline(never)]
    fn load_found(&self, address: u64, bytes: u64) -> u64
        requires width { IsWidth bytes }
        requires may { MayLoad (held self.now) address bytes }
        ensures number { result ≡ number_at (held self.now) address bytes }
        ensures bytes { (k : ℕ) → k < bytes → (held self.now).byte ((address + k) % 2 ^ 64) < 256 }
    {
        self.load(address, bytes)
    }

    /// The number of bytes that have the right, where the segment that is looked at first does not hold them.
    #[inline(never)]
    fn load_elsewhere(&self, address: u64, bytes: u64, right: Right) -> Option<u64>
        requires width { IsWidth bytes }
        requires right { IsToLoad right }
        ensures right { MatchOption result
            (may (held self.now) address bytes (right_of right) ≡ false)
            (λ _. may (held self.now) address bytes (right_of right) ≡ true) }
        ensures number { IfSome result
            (λ number. number ≡ number_at (held self.now) address bytes) }
        ensures bytes { IfSome result
            (λ _. (k : ℕ) → k < bytes → (held self.now).byte ((address + k) % 2 ^ 64) < 256) }
    {
        if let Some(part) = self.part(self.latest(right), address, bytes, right) {
            return Some(number(part));
        }
        if self.search(address, bytes, right) {
            Some(self.load_found(address, bytes))
        } else {
            None
        }
    }

    /// Puts bytes where the segment at the index holds them and gives the right to write; whether it does.
    #[inline(always)]
    pub(crate) fn put_part(&mut self, i: usize, address: u64, bytes: &[u8]) -> bool
        ensures put { MatchBool result
            ((may (held self.old) address (length bytes.now) ToWrite ≡ true)
            × (held self.new ≡ with_bytes (held self.old) address bytes.now))
            (pieces self.new ≡ pieces self.old) }
        ensures alike { AreAlike (pieces self.old) (pieces self.new) }
    {
        if i >= self.segments.len() {
            return false;
        }
        let segment = &self.segments[i];
        let at = address.wrapping_sub(segment.address);
        let length = segment.bytes.len() as u64;
        if !is_given(segment, Right::Write) || at >= length || length - at < bytes.len() as u64 {
            return false;
        }
        self.write(i, at as usize, bytes);
        true
    }

    /// Puts bytes where the stretch holds the address; whether it does.
    #[inline(always)]
    pub(crate) fn put_near(&mut self, stretch: Stretch, address: u64, bytes: &[u8]) -> bool
        requires width { IsWidth (length bytes.now) }
        requires known { IsStretch (pieces self.old) stretch.segment stretch.start stretch.room
            (length bytes.now) ToWrite }
        ensures put { MatchBool result
            ((may (held self.old) address (length bytes.now) ToWrite ≡ true)
            × (held self.new ≡ with_bytes (held self.old) address bytes.now))
            (pieces self.new ≡ pieces self.old) }
        ensures alike { AreAlike (pieces self.old) (pieces self.new) }
    {
        let offset = address.wrapping_sub(stretch.start);
        if offset >= stretch.room {
            return false;
        }
        self.write(stretch.segment, offset as usize, bytes);
        true
    }

    /// Puts the low bytes of a number that were searched for.
    #[inline(never)]
    fn store_found(&mut self, address: u64, bytes: u64, value: u64)
        requires width { IsWidth bytes }
        requires may { may (held self.old) address bytes ToWrite ≡ true }
        ensures { held self.new ≡ with_number (held self.old) address bytes value }
    {
        self.store(address, bytes, value);
    }

    /// Puts bytes into a segment, from one of its bytes on.
    #[inline(always)]
    pub(crate) fn write(&mut self, i: usize, at: usize, bytes: &[u8])
        requires index { i < length self.old.segments.items }
        requires within { at + length bytes.now
            ≤ length (slice_index_or (pieces self.old) i no_segment).bytes }
        ensures set { pieces self.new
            ≡ set (pieces self.old) i
            (with_part (slice_index_or (pieces self.old) i no_segment) at bytes.now) }
        ensures alike { AreAlike (pieces self.old) (pieces self.new) }
    {
        let segment = &mut self.segments[i];
        overwrite(&mut segment.bytes, at, bytes);
    }
}

impl Pieces for Flat {
    ghost use Rattle.rv_memory.specs.Held.{held};

    ghost mem = { λ flat. held flat };

    #[inline(always)]
    fn run(&self, address: u64, _most: u64, right: Right) -> u64 {
        match self.position(address) {
            Some(i) => self.run_from(i, address, right),
            None => 0,
        }
    }

    #[inline(always)]
    fn rest(&self, address: u64) -> &[u8] {
        match self.position(address) {
            Some(i) => self.rest_from(i, address),
            None => &[],
        }
    }

    #[inline(always)]
    fn put_within(&mut self, address: u64, bytes: &[u8]) -> bool {
        match self.position(address) {
            Some(i) => self.put_from(i, address, bytes),
            None => false,
        }
    }
}

impl Memory for Flat {
    ghost use Rattle.rv_memory.specs.Held.{held};

    ghost mem = { λ flat. held flat };

    #[inline]
    fn may(&self, address: u64, bytes: u64, right: Right) -> bool {
        have_right(self, address, bytes, right)
    }

    #[inline]
    fn load(&self, address: u64, bytes: u64) -> u64 {
        load_number(self, address, bytes)
    }

    #[inline]
    fn store(&mut self, address: u64, bytes: u64, value: u64) {
        store_number(self, address, bytes, value);
    }

    #[inline(always)]
    fn try_load(&self, address: u64, bytes: u64, right: Right) -> Option<u64> {
        if let Some(part) = self.part(self.first(address, right), address, bytes, right) {
            return Some(number(part));
        }
        // the number is taken out, so that no caller has to ask again whether the first segment held it
        Some(self.load_elsewhere(address, bytes, right)?)
    }

    #[inline(always)]
    fn try_store(&mut self, address: u64, bytes: u64, value: u64) -> bool {
        let digits = value.to_le_bytes();
        let first = self.first(address, Right::Write);
        if self.put_part(first, address, &digits[..bytes as usize]) {
            return true;
        }
        if self.search(address, bytes, Right::Write) {
            self.store_found(address, bytes, value);
            return true;
        }
        false
    }

    #[inline]
    fn piece(&self, address: u64) -> &[u8] {
        self.rest(address)
    }

    #[inline]
    fn put_piece(&mut self, address: u64, bytes: &[u8]) -> bool {
        self.put_within(address, bytes)
    }
}
