//! The memory of the board: what an image has, and zeros around it.
//!
//! The zeros are written once, as a loader writes those of a segment: RAM costs its 128 MiB, and some 0.2 s a run.

ghost use Rattle.std.specs.Prelude.{◌≡◌, ◌≤◌, ◌^◌, [], ◌∷◌, ◌++◌, map, IfOk, true};
ghost use Rattle.rv_image.specs.SegmentView.{segment_of};
ghost use Rattle.rv_image.specs.Views.{image_of};
ghost use Rattle.rv_board_laws.specs.Virt.{registers as registers_of, ram_start, ram_end, zeros_between, lie_in_ram as lie_from, with_ram as with_ram_of};

use rv_image::{Image, Segment};
use std::alloc::{AllocError, Global};

/// The first address of RAM, at which a run begins.
pub const RAM_START: u64 = 0x8000_0000;
/// Where RAM ends.
pub const RAM_END: u64 = 0x8800_0000;

/// Whether segments ascend in RAM.
pub fn lie_in_ram(segments: &[Segment]) -> bool
    ensures { result ≡ lie_from ram_start (map segment_of segments.now) }
{
    let mut from = RAM_START;
    for segment in segments {
        if segment.address < from {
            return false;
        }
        let room = u64::MAX - segment.address;
        let size = segment.bytes.len() as u64;
        if size > room {
            return false;
        }
        from = segment.address + size;
    }
    from <= RAM_END
}

/// Bytes that can be read and written.
fn readable(alloc: Global, address: u64, bytes: &[u8]) -> Result<Segment, AllocError>
    requires { address ≤ 2 ^ 32 }
    ensures { IfOk result (λ s. segment_of s ≡ record { address = address; bytes = bytes.now; flags = 6 }) }
{
    Ok(Segment {
        address,
        bytes: Vec::from_slice(alloc, bytes)?,
        flags: 6,
    })
}

/// The registers of the 16550 that are bytes of memory.
fn registers(alloc: Global) -> Result<Vec<Segment>, AllocError>
    ensures { IfOk result (λ v. map segment_of v.items ≡ registers_of) }
{
    let mut registers = Vec::new(alloc);
    registers.push(readable(alloc, 0x1000_0001, &[0])?)?;
    registers.push(readable(alloc, 0x1000_0003, &[0, 8, 0x61])?)?;
    registers.push(readable(alloc, 0x1000_0007, &[0])?)?;
    Ok(registers)
}

/// Zeros that can be read and written.
fn zeros(alloc: Global, start: u64, end: u64) -> Result<Segment, AllocError>
    requires order { start ≤ end }
    ensures { IfOk result (λ s. segment_of s ≡ zeros_between start end) }
{
    let count = (end - start) as usize;
    let mut bytes = Vec::with_capacity(alloc, count)?;
    bytes.resize(count, 0)?;
    Ok(Segment {
        address: start,
        bytes,
        flags: 6,
    })
}

/// An image with the memory of the board around it.
pub fn with_ram(alloc: Global, image: Image) -> Result<Image, AllocError>
    requires { lie_from ram_start (map segment_of image.segments.items) ≡ true }
    ensures { IfOk result (λ board. image_of board ≡ with_ram_of (image_of image)) }
{
    let entry = image.entry;
    let mut segments = registers(alloc)?;
    let mut from = RAM_START;
    for segment in image.segments {
        segments.push(zeros(alloc, from, segment.address)?)?;
        from = segment.address + segment.bytes.len() as u64;
        segments.push(segment)?;
    }
    segments.push(zeros(alloc, from, RAM_END)?)?;
    Ok(Image { entry, segments })
}
