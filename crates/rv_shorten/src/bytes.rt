//! The bytes that are left of a section.
//!
//! They are given from the front, as many as are wanted. No shortened section is ever made: each byte is copied once, from its
//! object into the program.

ghost use Rattle.std.specs.Prelude.{◌≡◌, ◌+◌, ◌^◌, ◌≤◌, ◌<◌, ◌++◌, ◌⊎◌, [], true, map, length, take, drop, IsTrue, IfNone, IfSome, OnOk};
ghost use Rattle.rv_isa_laws.specs.Bytes.{little_endian};
ghost use Rattle.rv_link_laws.specs.Moves.{kept};
ghost use Rattle.rv_link_laws.specs.Shortened.{short_call};
ghost use Rattle.rv_shorten.specs.Cut.{cut_left, move_of};
ghost use Rattle.rv_cut_laws.specs.Cutting.{are_cuts};

use crate::cut::Cut;
use rv_compress::write;
use rv_encode::encode;
use rv_isa::{Inst, JType, Reg};
use rv_parcel::Compressed;
use std::alloc::AllocError;

/// Bytes that stand together: those of a call, and those of the section behind it.
#[derive(Drop)]
struct Run<'s> {
    /// The bytes of the call, as a number.
    word: u64,
    /// How many they are.
    bytes: u64,
    /// The bytes of the section.
    section: &'s [u8],
    /// A call has four bytes at most.
    ghost few: { bytes ≤ 4 },
}

/// The bytes that are left of a section, from one of them on. They are taken from the front, and none is copied before.
#[derive(Drop)]
pub struct LeftBytes<'s> {
    /// What comes first of a call, as a number.
    word: u64,
    /// How many bytes that is.
    bytes: u64,
    /// The calls behind it that are cut short.
    cuts: &'s [Cut],
    /// The offset of what comes next, before calls are cut short.
    at: u64,
    /// The bytes of the section from there on.
    rest: &'s [u8],
    /// Of a call four bytes are left at most.
    ghost few: { bytes ≤ 4 },
    /// Offsets are numbers of 64 bits.
    ghost low: { at + length rest.now < 2 ^ 63 },
    /// The calls lie in the bytes, one behind the other.
    ghost within: { IsTrue (are_cuts at (at + length rest.now) (map move_of cuts.now)) },
}

/// The bytes that are left of a call.
fn left_of(cut: &Cut) -> u64
    ensures { result ≡ cut_left cut.now }
{
    if cut.left == 2 { 2 } else { 4 }
}

/// What is left of a call, as a number: `c.j` or `jal` with an empty field.
fn word_of(cut: &Cut) -> u64
    ensures { little_endian (cut_left cut.now) result ≡ short_call (cut.now).left (cut.now).detail }
{
    if cut.left == 2 {
        return u64::from(write(Compressed::J { offset: 0 }));
    }
    let jal = encode(Inst::Jal(JType {
        offset: 0,
        rd: Reg::from_low_bits(0),
    }));
    // the register that it links stands from bit 7 on
    u64::from(jal) + u64::from(cut.detail) * 128
}

/// Adds the low bytes of a number.
#[tactic(auto, using(crate::proofs::RunningLemmas::low_bytes))]
fn put_low(out: &mut Vec<u8>, word: u64, bytes: u64) -> Result<(), AllocError>
    requires { bytes ≤ 8 }
    ensures { OnOk result (out.new.items ≡ out.old.items ++ little_endian bytes word) }
{
    if bytes == 0 {
        return Ok(());
    }
    let digits = word.to_le_bytes();
    out.extend_from_slice(&digits[..bytes as usize])
}

impl<'s> Run<'s> {
    ghost use Rattle.rv_shorten.specs.Bytes.{run_bytes};

    /// How many they are.
    fn len(&self) -> u64
        ensures { result ≡ length (run_bytes self.now) }
    {
        self.bytes + self.section.len() as u64
    }

    /// Adds them.
    #[tactic(auto, unfolding(crate::specs::Bytes::run_bytes))]
    fn put(&self, out: &mut Vec<u8>) -> Result<(), AllocError>
        ensures { OnOk result (out.new.items ≡ out.old.items ++ run_bytes self.now) }
    {
        put_low(out, self.word, self.bytes)?;
        out.extend_from_slice(self.section)
    }
}

impl<'s> LeftBytes<'s> {
    ghost use Rattle.rv_shorten.specs.Bytes.{left_bytes, run_bytes, together};

    /// The bytes of a section of which no call is cut short.
    pub fn of(bytes: &'s [u8]) -> LeftBytes<'s>
        ensures { left_bytes result ≡ bytes.now }
    {
        LeftBytes::behind(&[], bytes)
    }

    /// The bytes of a section of which these calls are cut short.
    #[tactic(auto, unfolding(crate::specs::Bytes::left_bytes))]
    pub(crate) fn behind(cuts: &'s [Cut], bytes: &'s [u8]) -> LeftBytes<'s>
        requires { are_cuts 0 (length bytes.now) (map move_of cuts.now) ≡ true }
        ensures { left_bytes result ≡ kept 0 (map move_of cuts.now) bytes.now }
    {
        LeftBytes {
            word: 0,
            bytes: 0,
            cuts,
            at: 0,
            rest: bytes,
        }
    }

    /// Takes so many of the bytes, or all where there are fewer, and adds them.
    pub fn put(&mut self, out: &mut Vec<u8>, count: u64) -> Result<(), AllocError>
        ensures added { OnOk result
            (out.new.items ≡ out.old.items ++ take count (left_bytes self.old)) }
        ensures left { OnOk result (left_bytes self.new ≡ drop count (left_bytes self.old)) }
    {
        let mut wanted = count;
        while let Some(run) = self.next(wanted) {
            run.put(out)?;
            wanted -= run.len();
        }
        Ok(())
    }

    /// Adds all of the bytes.
    pub fn put_all(mut self, out: &mut Vec<u8>) -> Result<(), AllocError>
        ensures { OnOk result (out.new.items ≡ out.old.items ++ left_bytes self.entry) }
    {
        self.put(out, u64::MAX)
    }

    /// Takes so many of the bytes, or all where there are fewer, and leaves them out.
    pub fn skip(&mut self, count: u64)
        ensures { left_bytes self.new ≡ drop count (left_bytes self.old) }
    {
        let mut wanted = count;
        while let Some(run) = self.next(wanted) {
            wanted -= run.len();
        }
    }

    /// Takes bytes that stand together, so many at most, where any are wanted and left.
    fn next(&mut self, most: u64) -> Option<Run<'s>>
        ensures parts { IfSome result
            (λ run. left_bytes self.old ≡ run_bytes run ++ left_bytes self.new) }
        ensures some { IfSome result (λ run. 0 < length (run_bytes run)) }
        ensures few { IfSome result (λ run. length (run_bytes run) ≤ most) }
        ensures none { IfNone result (take most (left_bytes self.old) ≡ []) }
        ensures same { IfNone result (left_bytes self.new ≡ left_bytes self.old) }
    {
        self.begin_call();
        let of_call = most.min(self.bytes);
        let of_section = (most - of_call).min(self.together());
        if of_call + of_section == 0 {
            return None;
        }
        Some(self.take(of_call, of_section))
    }

    /// Where nothing of a call comes first, but the bytes that follow are those of one, what is left of it comes first.
    fn begin_call(&mut self)
        ensures same { left_bytes self.new ≡ left_bytes self.old }
        ensures none { (self.new).bytes + together self.new ≡ 0 → left_bytes self.new ≡ [] }
    {
        let [cut, later @ ..] = self.cuts else {
            return;
        };
        if self.bytes > 0 || cut.place > self.at {
            return;
        }
        let (_, rest) = self.rest.split_at(8);
        *self = LeftBytes {
            word: word_of(cut),
            bytes: left_of(cut),
            cuts: later,
            at: self.at + 8,
            rest,
        };
    }

    /// How many bytes of the section come before the next call.
    fn together(&self) -> u64
        ensures { result ≡ together self.now }
    {
        match self.cuts {
            [cut, ..] => cut.place - self.at,
            [] => self.rest.len() as u64,
        }
    }

    /// Takes bytes of the call that comes first, and, if these are all of it, bytes of the section up to the next call.
    fn take(&mut self, of_call: u64, of_section: u64) -> Run<'s>
        requires call { of_call ≤ (self.old).bytes }
        requires section { of_section ≤ together self.old }
        requires one { (of_call ≡ (self.old).bytes) ⊎ (of_section ≡ 0) }
        ensures parts { left_bytes self.old ≡ run_bytes result ++ left_bytes self.new }
        ensures len { length (run_bytes result) ≡ of_call + of_section }
    {
        let (section, rest) = self.rest.split_at(of_section as usize);
        let run = Run {
            word: self.word,
            bytes: of_call,
            section,
        };
        *self = LeftBytes {
            word: self.word >> (8 * of_call),
            bytes: self.bytes - of_call,
            cuts: self.cuts,
            at: self.at + of_section,
            rest,
        };
        run
    }
}
