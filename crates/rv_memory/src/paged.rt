//! A memory that keeps pages of 4096 bytes, and of the stack no more than is used.
//!
//! A list has every page of the image and of the stack by ascending numbers, each with the index of a segment that has
//! bytes of it. A look-up is a binary search, after a look at what is made of the stack. The bytes of neighbouring pages
//! lie one after the other in their segment, where the image had them, so none is copied.
//!
//! At the start the stack's segment has only the last of its bytes. Below are zeros that no segment has: a load there
//! compares with its two ends and is 0, and the first store there has the segment begin at the stack's start. The room for
//! that is asked for at the start, as a store cannot want memory.
//!
//! In front of the search stand stretches: of code, and of the two segments where most data and the stack are, whichever
//! of them is the higher one. One compare tells which, and one whether an access of its width lies in it, wherever pages
//! end. A load then looks at one more, where constants are. All else is out of line, so that the hot loop takes these into
//! itself. The segment of the entry is put in front
//! of all others, since a constant index costs least; the others are in the order of their addresses. So it is the same
//! to a program where in memory it stands. Contracts do not see what a `Cell` holds, so the index of the latest segment
//! found is tested like any other.

ghost use Rattle.std.specs.Prelude.{
  ◌≡◌,
  ℕ,
  ◌+◌,
  ◌%◌,
  ◌^◌,
  ◌<◌,
  ◌≤◌,
  true,
  false,
  length,
  IfSome,
  IfOk,
  MatchBool,
  MatchOption,
  Some,
  None,
  slice_get,
  slice_index,
  vec_capacity,
};
ghost use Rattle.rv_isa_laws.specs.Memory.{
  may,
  with_bytes,
  with_number,
  number_at,
  bytes_at,
  Read as ToRead,
  Write as ToWrite,
  Execute as ToExecute,
  Right as ARight,
};
ghost use Rattle.rv_image.specs.Views.{image_of};
ghost use Rattle.rv_image_laws.specs.Memory.{mem_of, lies_in, segment_at, gives_right, right_in};
ghost use Rattle.rv_memory.specs.Held.{pieces};
ghost use Rattle.rv_memory.specs.Quick.{AreKnown};
ghost use Rattle.rv_memory.specs.Rights.{right_of, IsWidth, IsToLoad};
ghost use Rattle.rv_memory.specs.Stretches.{IsStretch};
ghost use Rattle.rv_memory.specs.Unmade.{lies_unmade, IsUnmade, CanDeepen};
ghost use Rattle.rv_isa_laws.specs.Platform.{stack_end, stack_start};

use crate::flat::{Flat, give, is_held};
use crate::memory::{Memory, Right};
use crate::page::{Page, index_behind, page_of, pages_of};
use crate::pieces::{Pieces, have_right, load_number, number, store_number};
use crate::stretch::{Nears, Sides, Stretch, nears_of, sides_of};
use rv_image::{Image, STACK_BYTES, STACK_START};
use std::alloc::{AllocError, Global};
use std::mem;

/// How many bytes of the stack are made at the start.
const MADE_AT_START: usize = 0x1_0000;

/// From here on the stack is made at the start.
const MADE_FROM: u64 = STACK_START + (STACK_BYTES - MADE_AT_START) as u64;

/// Pages by ascending numbers: all of an image's segments and of the stack.
#[derive(Drop)]
pub struct Paged {
    /// The bytes of the pages: the segment of the entry, and the others in the order of their addresses.
    pub(crate) flat: Flat,
    pages: Vec<Page>,
    nears: Nears,
    /// The index of the segment that has the stack.
    top: usize,
    /// From here on the stack is made.
    pub(crate) base: u64,
    /// Empty, with room for the bytes of the whole stack until it is made.
    room: Vec<u8>,
    ghost known: { AreKnown (pieces flat) pages.items nears },
    ghost unmade: { IsUnmade (pieces flat) top base },
    ghost has_room: { CanDeepen base room.items (vec_capacity room) },
}

/// The segment of an address, and its rights as segment flags.
#[derive(Clone, Copy, Drop)]
struct Found {
    segment: usize,
    flags: u8,
}

/// The room in which all of the stack can be made, where it is made from an address on.
fn room_above(alloc: Global, base: u64) -> Result<Vec<u8>, AllocError>
    ensures { IfOk result (λ room. CanDeepen base room.items (vec_capacity room)) }
{
    if base <= STACK_START {
        return Ok(Vec::new(alloc));
    }
    Vec::with_capacity(alloc, STACK_BYTES)
}

/// The same segments, after the one at `first` was put in front of all.
fn sides_behind(first: usize, sides: Sides) -> Sides {
    Sides {
        below: index_behind(first, sides.below),
        low: index_behind(first, sides.low),
        high: index_behind(first, sides.high),
    }
}

impl Paged {
    ghost use Rattle.rv_memory.specs.HeldPages.{held_pages, pages_in};

    /// The memory of an image, with the stack.
    pub fn new(alloc: Global, image: Image) -> Result<Self, AllocError>
        ensures { IfOk result (λ paged. held_pages paged ≡ mem_of (image_of image)) }
    {
        let entry = image.entry;
        let mut flat = Flat::in_order(alloc, image, MADE_FROM)?;
        let first = flat.position_in_order(entry).unwrap_or(0);
        let sides = sides_of(&flat.segments);
        let stack = flat.stack_index(MADE_FROM);
        let pages = pages_of(alloc, &flat.segments, first, stack, STACK_START)?;
        let room = Vec::with_capacity(alloc, STACK_BYTES)?;
        flat.bring_forward(first);
        let nears = nears_of(&flat, sides_behind(first, sides));
        let top = flat.stack_index(MADE_FROM);
        Ok(Paged {
            flat,
            pages,
            nears,
            top,
            base: MADE_FROM,
            room,
        })
    }

    /// The same memory once more.
    pub fn copied(&self, alloc: Global) -> Result<Self, AllocError>
        ensures { IfOk result (λ copy. held_pages copy ≡ held_pages self.now) }
    {
        let flat = self.flat.copied(alloc)?;
        let pages = Vec::from_slice(alloc, &self.pages)?;
        let room = room_above(alloc, self.base)?;
        Ok(Paged {
            flat,
            pages,
            nears: self.nears,
            top: self.top,
            base: self.base,
            room,
        })
    }

    /// The address from which on the bytes of the stack are kept. All of its bytes below are 0.
    #[inline]
    pub fn stack_from(&self) -> u64
        ensures low { stack_start ≤ result }
        ensures high { result ≤ stack_end }
        ensures zeros { (x : ℕ) → stack_start ≤ x → x < result →
            (held_pages self.now).byte x ≡ 0 }
    {
        self.base
    }

    /// Whether an address lies where the stack is not made yet.
    #[inline]
    fn is_unmade(&self, address: u64) -> bool
        ensures { result ≡ lies_unmade self.now.base address }
    {
        STACK_START <= address && address < self.base
    }

    /// How many bytes from an address on have the right, where the stack is not made yet.
    fn run_unmade(&self, address: u64, right: Right) -> u64
        requires { lies_unmade self.now.base address ≡ true }
        ensures all { may (held_pages self.now) address result (right_of right) ≡ true }
        ensures none { result ≡ 0 →
            (held_pages self.now).has address (right_of right) ≡ false }
    {
        match right {
            Right::Execute => 0,
            Right::Read => self.base - address,
            Right::Write => self.base - address,
        }
    }

    /// Makes all of the stack: its segment begins where the stack does.
    #[cold]
    #[inline(never)]
    fn deepen(&mut self)
        requires { stack_start < self.old.base }
        ensures made { self.new.base ≡ stack_start }
        ensures memory { held_pages self.new ≡ held_pages self.old }
    {
        let alloc = *self.room.allocator();
        let room = mem::replace(&mut self.room, Vec::new(alloc));
        self.flat.deepen(self.top, STACK_START, room);
        let sides = Sides {
            below: self.nears.below.segment,
            low: self.nears.low.segment,
            high: self.nears.high.segment,
        };
        self.nears = nears_of(&self.flat, sides);
        self.base = STACK_START;
    }

    /// Makes all of the stack, if an address lies where it is not made yet.
    fn make(&mut self, address: u64)
        ensures made { lies_unmade self.new.base address ≡ false }
        ensures memory { held_pages self.new ≡ held_pages self.old }
    {
        if !self.is_unmade(address) {
            return;
        }
        self.deepen();
    }

    /// The segment at the index, and its rights, where it has the address.
    fn found_at(&self, segment: usize, address: u64) -> Option<Found>
        ensures within { IfSome result
            (λ found. found.segment < length self.now.flat.segments.items) }
        ensures found { IfSome result
            (λ found. segment_at (pages_in self.now) address
            ≡ slice_get (pages_in self.now) found.segment) }
        ensures rights { IfSome result (λ found. (right : ARight) →
            gives_right found.flags right
            ≡ right_in (segment_at (pages_in self.now) address) right) }
    {
        if segment >= self.flat.segments.len() {
            return None;
        }
        let held = &self.flat.segments[segment];
        if !is_held(held, address) {
            return None;
        }
        Some(Found {
            segment,
            flags: (held.flags % 8) as u8,
        })
    }

    /// The segment of an address, and its rights.
    fn find(&self, address: u64) -> Option<Found>
        ensures within { IfSome result
            (λ found. found.segment < length self.now.flat.segments.items) }
        ensures found { MatchOption result (segment_at (pages_in self.now) address ≡ None)
            (λ found. segment_at (pages_in self.now) address
            ≡ slice_get (pages_in self.now) found.segment) }
        ensures rights { IfSome result (λ found. (right : ARight) →
            gives_right found.flags right
            ≡ right_in (segment_at (pages_in self.now) address) right) }
    {
        match self.found_at(self.top, address) {
            Some(found) => Some(found),
            None => self.find_listed(address),
        }
    }

    /// The same by the list of pages.
    fn find_listed(&self, address: u64) -> Option<Found>
        ensures within { IfSome result
            (λ found. found.segment < length self.now.flat.segments.items) }
        ensures found { MatchOption result (segment_at (pages_in self.now) address ≡ None)
            (λ found. segment_at (pages_in self.now) address
            ≡ slice_get (pages_in self.now) found.segment) }
        ensures rights { IfSome result (λ found. (right : ARight) →
            gives_right found.flags right
            ≡ right_in (segment_at (pages_in self.now) address) right) }
    {
        let i = match page_of(&self.pages, address) {
            Some(i) => i,
            None => return None,
        };
        match self.found_at(self.pages[i].segment, address) {
            Some(found) => Some(found),
            None => self.find_other(address),
        }
    }

    /// The same on a page of several segments.
    fn find_other(&self, address: u64) -> Option<Found>
        ensures within { IfSome result
            (λ found. found.segment < length self.now.flat.segments.items) }
        ensures found { MatchOption result (segment_at (pages_in self.now) address ≡ None)
            (λ found. segment_at (pages_in self.now) address
            ≡ slice_get (pages_in self.now) found.segment) }
        ensures rights { IfSome result (λ found. (right : ARight) →
            gives_right found.flags right
            ≡ right_in (segment_at (pages_in self.now) address) right) }
    {
        match self.flat.position_in_order(address) {
            Some(segment) => {
                let flags = (self.flat.segments[segment].flags % 8) as u8;
                Some(Found { segment, flags })
            }
            None => None,
        }
    }

    /// The number of bytes from an address on, where the stretch of the segment at the index holds it.
    #[inline(always)]
    fn near(
        &self,
        i: usize,
        stretch: Stretch,
        address: u64,
        bytes: u64,
        right: Right,
    ) -> Option<u64>
        requires width { IsWidth bytes }
        requires known { IsStretch (pages_in self.now) i stretch.start stretch.room bytes
            (right_of right) }
        ensures right { IfSome result
            (λ _. may (held_pages self.now) address bytes (right_of right) ≡ true) }
        ensures number { IfSome result
            (λ number. number ≡ number_at (held_pages self.now) address bytes) }
        ensures bytes { IfSome result
            (λ _. (k : ℕ) → k < bytes → (held_pages self.now).byte ((address + k) % 2 ^ 64) < 256) }
    {
        self.flat.near(i, stretch, address, bytes, right)
    }

    /// The bytes from an address on, where the segment of the latest search holds them and gives the right.
    #[inline(always)]
    fn part(&self, address: u64, bytes: u64, right: Right) -> Option<&[u8]>
        ensures right { IfSome result
            (λ _. may (held_pages self.now) address bytes (right_of right) ≡ true) }
        ensures length { IfSome result (λ part. length part.now ≡ bytes) }
        ensures bytes { IfSome result
            (λ part. bytes_at (held_pages self.now) address bytes ≡ part.now) }
        ensures small { IfSome result (λ part. (k : ℕ) → slice_index part.now k < 256) }
    {
        self.flat
            .part(self.flat.latest(right), address, bytes, right)
    }

    /// The number of bytes that may be executed. Those that begin in the stretch of code and go on behind code lack the
    /// right, so that a loop at the end of code needs no search.
    #[inline(always)]
    fn fetch(&self, address: u64, bytes: u64) -> Option<u64>
        requires { IsWidth bytes }
        ensures right { MatchOption result
            (may (held_pages self.now) address bytes ToExecute ≡ false)
            (λ _. may (held_pages self.now) address bytes ToExecute ≡ true) }
        ensures number { IfSome result
            (λ number. number ≡ number_at (held_pages self.now) address bytes) }
        ensures bytes { IfSome result
            (λ _. (k : ℕ) → k < bytes → (held_pages self.now).byte ((address + k) % 2 ^ 64) < 256) }
    {
        let stretch = self.nears.code.stretch(bytes);
        if let Some(number) = self.near(0, stretch, address, bytes, Right::Execute) {
            return Some(number);
        }
        let at = address.wrapping_sub(self.nears.code.start);
        let code_bytes = self.nears.code_bytes;
        if at < code_bytes && code_bytes - at < bytes {
            return None;
        }
        self.fetch_elsewhere(address, bytes)
    }

    /// The same, where the stretch of code does not hold them and code does not end within them.
    #[cold]
    #[inline(never)]
    fn fetch_elsewhere(&self, address: u64, bytes: u64) -> Option<u64>
        requires { IsWidth bytes }
        ensures right { MatchOption result
            (may (held_pages self.now) address bytes ToExecute ≡ false)
            (λ _. may (held_pages self.now) address bytes ToExecute ≡ true) }
        ensures number { IfSome result
            (λ number. number ≡ number_at (held_pages self.now) address bytes) }
        ensures bytes { IfSome result
            (λ _. (k : ℕ) → k < bytes → (held_pages self.now).byte ((address + k) % 2 ^ 64) < 256) }
    {
        self.load_elsewhere(address, bytes, Right::Execute)
    }

    /// The number of bytes that may be read, where the stretch on their side holds them. Each has its own branch: a choice
    /// between two stretches by value costs more.
    #[inline(always)]
    fn read_near(&self, address: u64, bytes: u64) -> Option<u64>
        requires { IsWidth bytes }
        ensures right { IfSome result (λ _. may (held_pages self.now) address bytes ToRead ≡ true) }
        ensures number { IfSome result
            (λ number. number ≡ number_at (held_pages self.now) address bytes) }
        ensures bytes { IfSome result
            (λ _. (k : ℕ) → k < bytes → (held_pages self.now).byte ((address + k) % 2 ^ 64) < 256) }
    {
        if address < self.nears.divide {
            let stretch = self.nears.low.stretch(bytes);
            return self.near(stretch.segment, stretch, address, bytes, Right::Read);
        }
        let stretch = self.nears.high.stretch(bytes);
        self.near(stretch.segment, stretch, address, bytes, Right::Read)
    }

    /// The number of bytes that lie where the stack is not made yet: 0. In line it costs no more than a load elsewhere, and
    /// only what no stretch holds comes here.
    #[inline(always)]
    fn read_unmade(&self, address: u64, bytes: u64) -> Option<u64>
        ensures right { IfSome result (λ _. may (held_pages self.now) address bytes ToRead ≡ true) }
        ensures number { IfSome result
            (λ number. number ≡ number_at (held_pages self.now) address bytes) }
        ensures bytes { IfSome result
            (λ _. (k : ℕ) → k < bytes → (held_pages self.now).byte ((address + k) % 2 ^ 64) < 256) }
    {
        if self.is_unmade(address) && bytes <= self.base - address {
            return Some(0);
        }
        None
    }

    /// The number of bytes that may be read, where the stretch below the two sides holds them.
    #[inline(always)]
    fn read_below(&self, address: u64, bytes: u64) -> Option<u64>
        requires { IsWidth bytes }
        ensures right { IfSome result (λ _. may (held_pages self.now) address bytes ToRead ≡ true) }
        ensures number { IfSome result
            (λ number. number ≡ number_at (held_pages self.now) address bytes) }
        ensures bytes { IfSome result
            (λ _. (k : ℕ) → k < bytes → (held_pages self.now).byte ((address + k) % 2 ^ 64) < 256) }
    {
        let stretch = self.nears.below.stretch(bytes);
        self.near(stretch.segment, stretch, address, bytes, Right::Read)
    }

    /// The number of bytes that may be read, where the stretch on their side does not hold them.
    #[inline(always)]
    fn read_elsewhere(&self, address: u64, bytes: u64) -> Option<u64>
        requires { IsWidth bytes }
        ensures right { MatchOption result
            (may (held_pages self.now) address bytes ToRead ≡ false)
            (λ _. may (held_pages self.now) address bytes ToRead ≡ true) }
        ensures number { IfSome result
            (λ number. number ≡ number_at (held_pages self.now) address bytes) }
        ensures bytes { IfSome result
            (λ _. (k : ℕ) → k < bytes → (held_pages self.now).byte ((address + k) % 2 ^ 64) < 256) }
    {
        if let Some(number) = self.read_unmade(address, bytes) {
            return Some(number);
        }
        if let Some(number) = self.read_below(address, bytes) {
            return Some(number);
        }
        self.load_elsewhere(address, bytes, Right::Read)
    }

    /// Puts bytes where the stretch on their side holds the address; whether it does.
    #[inline(always)]
    fn put_near(&mut self, address: u64, bytes: &[u8]) -> bool
        requires { IsWidth (length bytes.now) }
        ensures { MatchBool result
            ((may (held_pages self.old) address (length bytes.now) ToWrite ≡ true)
            × (held_pages self.new ≡ with_bytes (held_pages self.old) address bytes.now))
            (held_pages self.new ≡ held_pages self.old) }
    {
        if address < self.nears.divide {
            let stretch = self.nears.low_written.stretch(bytes.len() as u64);
            return self.flat.put_near(stretch, address, bytes);
        }
        let stretch = self.nears.high_written.stretch(bytes.len() as u64);
        self.flat.put_near(stretch, address, bytes)
    }

    /// Puts bytes where the segment of the latest search holds them and gives the right to write; whether it does.
    #[inline(always)]
    fn put_latest(&mut self, address: u64, bytes: &[u8]) -> bool
        ensures { MatchBool result
            ((may (held_pages self.old) address (length bytes.now) ToWrite ≡ true)
            × (held_pages self.new ≡ with_bytes (held_pages self.old) address bytes.now))
            (held_pages self.new ≡ held_pages self.old) }
    {
        let latest = self.flat.latest(Right::Write);
        self.flat.put_part(latest, address, bytes)
    }

    /// Has the next accesses look at the segment of an address.
    fn remember(&self, address: u64, right: Right) {
        if let Some(found) = self.find(address) {
            self.flat.remember(found.segment, right);
        }
    }

    /// The number of bytes that have the right, by a search; the next accesses look where it ended.
    #[cold]
    #[inline(never)]
    fn search_load(&self, address: u64, bytes: u64, right: Right) -> Option<u64>
        requires width { IsWidth bytes }
        requires right { IsToLoad right }
        ensures right { MatchOption result
            (may (held_pages self.now) address bytes (right_of right) ≡ false)
            (λ _. may (held_pages self.now) address bytes (right_of right) ≡ true) }
        ensures number { IfSome result
            (λ number. number ≡ number_at (held_pages self.now) address bytes) }
        ensures bytes { IfSome result
            (λ _. (k : ℕ) → k < bytes → (held_pages self.now).byte ((address + k) % 2 ^ 64) < 256) }
    {
        self.remember(address, right);
        if self.may(address, bytes, right) {
            Some(self.load(address, bytes))
        } else {
            None
        }
    }

    /// The number of bytes that have the right, where no stretch that is looked at holds them.
    #[inline(never)]
    fn load_elsewhere(&self, address: u64, bytes: u64, right: Right) -> Option<u64>
        requires width { IsWidth bytes }
        requires right { IsToLoad right }
        ensures right { MatchOption result
            (may (held_pages self.now) address bytes (right_of right) ≡ false)
            (λ _. may (held_pages self.now) address bytes (right_of right) ≡ true) }
        ensures number { IfSome result
            (λ number. number ≡ number_at (held_pages self.now) address bytes) }
        ensures bytes { IfSome result
            (λ _. (k : ℕ) → k < bytes → (held_pages self.now).byte ((address + k) % 2 ^ 64) < 256) }
    {
        if let Some(part) = self.part(address, bytes, right) {
            return Some(number(part));
        }
        // the number is taken out, so that no caller has to ask again where it was found
        Some(self.search_load(address, bytes, right)?)
    }

    /// Puts the low bytes of a number where all may be written and the stretch that is looked at first does not hold them;
    /// whether they may.
    #[inline(never)]
    fn store_elsewhere(&mut self, address: u64, bytes: u64, value: u64) -> bool
        requires { IsWidth bytes }
        ensures right { result ≡ may (held_pages self.old) address bytes ToWrite }
        ensures put { MatchBool result
            (held_pages self.new ≡ with_number (held_pages self.old) address bytes value)
            (held_pages self.new ≡ held_pages self.old) }
    {
        let digits = value.to_le_bytes();
        if self.put_latest(address, &digits[..bytes as usize]) {
            return true;
        }
        self.search_store(address, bytes, value)
    }

    /// Puts the low bytes of a number where all may be written, by a search; whether they may.
    #[cold]
    #[inline(never)]
    fn search_store(&mut self, address: u64, bytes: u64, value: u64) -> bool
        requires { IsWidth bytes }
        ensures right { result ≡ may (held_pages self.old) address bytes ToWrite }
        ensures put { MatchBool result
            (held_pages self.new ≡ with_number (held_pages self.old) address bytes value)
            (held_pages self.new ≡ held_pages self.old) }
    {
        self.remember(address, Right::Write);
        if self.may(address, bytes, Right::Write) {
            self.store(address, bytes, value);
            return true;
        }
        false
    }
}

impl Pieces for Paged {
    ghost use Rattle.rv_memory.specs.HeldPages.{held_pages};

    ghost mem = { λ paged. held_pages paged };

    fn run(&self, address: u64, _most: u64, right: Right) -> u64 {
        if self.is_unmade(address) {
            return self.run_unmade(address, right);
        }
        match self.find(address) {
            Some(found) => {
                if give(u32::from(found.flags), right) {
                    self.flat.room_from(found.segment, address)
                } else {
                    0
                }
            }
            None => 0,
        }
    }

    fn rest(&self, address: u64) -> &[u8] {
        if self.is_unmade(address) {
            return &[0];
        }
        match self.find(address) {
            Some(found) => self.flat.rest_from(found.segment, address),
            None => &[],
        }
    }

    fn put_within(&mut self, address: u64, bytes: &[u8]) -> bool {
        self.make(address);
        match self.find(address) {
            Some(found) => self.flat.put_from(found.segment, address, bytes),
            None => false,
        }
    }
}

impl Memory for Paged {
    ghost use Rattle.rv_memory.specs.HeldPages.{held_pages};

    ghost mem = { λ paged. held_pages paged };

    #[inline]
    fn may(&self, address: u64, bytes: u64, right: Right) -> bool {
        have_right(self, address, bytes, right)
    }

    #[inline]
    fn load(&self, address: u64, bytes: u64) -> u64 {
        load_number(self, address, bytes)
    }

    #[inline]
    fn store(&mut self, address: u64, bytes: u64, value: u64) {
        store_number(self, address, bytes, value);
    }

    #[inline(always)]
    fn try_load(&self, address: u64, bytes: u64, right: Right) -> Option<u64> {
        match right {
            Right::Execute => self.fetch(address, bytes),
            Right::Read => match self.read_near(address, bytes) {
                Some(number) => Some(number),
                None => self.read_elsewhere(address, bytes),
            },
            Right::Write => self.load_elsewhere(address, bytes, right),
        }
    }

    #[inline(always)]
    fn try_store(&mut self, address: u64, bytes: u64, value: u64) -> bool {
        let digits = value.to_le_bytes();
        if self.put_near(address, &digits[..bytes as usize]) {
            return true;
        }
        self.store_elsewhere(address, bytes, value)
    }

    #[inline]
    fn piece(&self, address: u64) -> &[u8] {
        self.rest(address)
    }

    #[inline]
    fn put_piece(&mut self, address: u64, bytes: &[u8]) -> bool {
        self.put_within(address, bytes)
    }
}
