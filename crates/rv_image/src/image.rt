//! What a program's memory holds before its first step.

ghost use Rattle.std.specs.Prelude.{◌≡◌, ◌%◌, ◌≤◌, IsTrue, map};
ghost use Rattle.rv_isa_laws.specs.Platform.{memory_limit};
ghost use Rattle.rv_image.specs.SegmentView.{segment_of};
ghost use Rattle.rv_image_laws.specs.Segment.{are_apart, memory_size};

use crate::segment::Segment;

/// The segments of a program and the address at which it begins.
#[derive(PartialEq, Eq, Drop)]
pub struct Image {
    /// The address of the first instruction.
    pub entry: u64,
    /// The segments, in the order of the file.
    pub segments: Vec<Segment>,
    /// Instructions begin at even addresses.
    pub ghost even: { entry % 2 ≡ 0 },
    /// No address lies in two segments, or in one and the stack.
    pub ghost apart: { IsTrue (are_apart (map segment_of segments.items)) },
    /// The segments have 256 MiB at most.
    pub ghost limit: { memory_size (map segment_of segments.items) ≤ memory_limit },
}
