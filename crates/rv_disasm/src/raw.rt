//! The raw listing of an executable.
//!
//! It is made for building the program again: `.option norvc` and `.option norelax` keep each instruction as it is written,
//! parcels have their `c.` mnemonics, and targets are distances, so that no name has to be found.

ghost use Rattle.std.specs.Prelude.{◌≡◌, ◌∷◌, [], false, true, ℕ, List, IfOk, IfSome, IfNone, filter, map};
ghost use Rattle.rv_image_laws.specs.Segment.{Segment as PlainSegment};
ghost use Rattle.rv_image.specs.SegmentView.{segment_of};
ghost use Rattle.rv_image.specs.Views.{image_of};
ghost use Rattle.rv_listing_laws.specs.declared.code.Code.{Code};
ghost use Rattle.rv_listing_laws.specs.Raw.{IsRawListing, is_executable};
ghost use Rattle.rv_disasm.specs.RawParts.{AreAdded, AreCodes, IsCut};

use crate::code::{front, put_code, size};
use rv_image::{Image, STACK_START, Segment};
use std::alloc::{AllocError, Global};

/// The code of a program begins at a multiple of it.
const PAGE: u64 = 0x1000;

/// The instructions of an image as a source, one a line: built at the same address, it has the same bytes of code and the
/// same entry.
///
/// None unless the image has one executable segment, at a multiple of 4096 below the stack; every byte of it is in an
/// instruction that a source can write; and one of them is at the entry.
pub fn raw_listing(alloc: Global, image: &Image) -> Result<Option<Vec<u8>>, AllocError>
    ensures found { IfOk result (λ found. IfSome found
        (λ text. IsRawListing (image_of image.now) text.items)) }
    ensures none { IfOk result (λ found. IfNone found
        ((text : List ℕ) → IsRawListing (image_of image.now) text → ⊥)) }
{
    let Some(segment) = executable(&image.segments) else {
        return Ok(None);
    };
    let Some((before, after)) = cut(segment, image.entry) else {
        return Ok(None);
    };
    let mut text = Vec::new(alloc);
    text.extend_from_slice(b".option norvc\n.option norelax\n.globl _start\n")?;
    if !put_codes(&mut text, before)? {
        return Ok(None);
    }
    text.extend_from_slice(b"_start:\n")?;
    if !put_codes(&mut text, after)? {
        return Ok(None);
    }
    Ok(Some(text))
}

/// The executable segment, where there is just one.
fn executable(segments: &[Segment]) -> Option<&Segment>
    ensures found { IfSome result (λ segment.
        filter is_executable (map segment_of segments.now) ≡ segment_of segment.now ∷ []) }
    ensures none { IfNone result ((segment : PlainSegment) →
        filter is_executable (map segment_of segments.now) ≡ segment ∷ [] → ⊥) }
{
    let mut found = None;
    for segment in segments {
        if segment.flags % 2 == 1 {
            if found.is_some() {
                return None;
            }
            found = Some(segment);
        }
    }
    found
}

/// The bytes of a segment before the entry, and those from there on, where a program may have its code there.
fn cut(segment: &Segment, entry: u64) -> Option<(&[u8], &[u8])>
    ensures found { IfSome result (λ parts.
        IsCut (segment_of segment.now) entry parts.0.now parts.1.now) }
    ensures none { IfNone result ((before after : List ℕ) →
        IsCut (segment_of segment.now) entry before after → ⊥) }
{
    if segment.address % PAGE != 0 || segment.address >= STACK_START || entry < segment.address {
        return None;
    }
    let before = entry - segment.address;
    if before >= segment.bytes.len() as u64 {
        return None;
    }
    Some(segment.bytes.split_at(before as usize))
}

/// Adds the lines of the instructions that the bytes are; answers whether a source can write all of them.
fn put_codes(text: &mut Vec<u8>, bytes: &[u8]) -> Result<bool, AllocError>
    ensures all { IfOk result (λ all.
        all ≡ true → AreAdded bytes.now text.old.items text.new.items) }
    ensures none { IfOk result (λ all.
        all ≡ false → (cs : List Code) → AreCodes bytes.now cs → ⊥) }
{
    let mut offset = 0;
    while offset < bytes.len() {
        match front(&bytes[offset..]) {
            Some(code) => {
                put_code(text, &code)?;
                offset += size(&code);
            }
            None => return Ok(false),
        }
    }
    Ok(true)
}
