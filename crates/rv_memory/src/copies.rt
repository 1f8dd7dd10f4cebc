//! Images a second time: a machine takes its image, and whoever runs it again keeps one.

ghost use Rattle.std.specs.Prelude.{◌≡◌, IfOk, map};
ghost use Rattle.rv_image.specs.SegmentView.{segment_of};
ghost use Rattle.rv_image.specs.Views.{image_of};

use rv_image::{Image, Segment};
use std::alloc::{AllocError, Global};

/// The same segments.
pub(crate) fn copied_segments(
    alloc: Global,
    segments: &[Segment],
) -> Result<Vec<Segment>, AllocError>
    ensures { IfOk result (λ copies. map segment_of copies.items ≡ map segment_of segments.now) }
{
    let mut copies = Vec::with_capacity(alloc, segments.len())?;
    for segment in segments {
        copies.push(Segment {
            address: segment.address,
            bytes: Vec::from_slice(alloc, &segment.bytes)?,
            flags: segment.flags,
        })?;
    }
    Ok(copies)
}

/// The same image.
pub fn copied_image(alloc: Global, image: &Image) -> Result<Image, AllocError>
    ensures view { IfOk result (λ copy. image_of copy ≡ image_of image.now) }
    ensures entry { IfOk result (λ copy. copy.entry ≡ image.now.entry) }
{
    let segments = copied_segments(alloc, &image.segments)?;
    Ok(Image {
        entry: image.entry,
        segments,
    })
}
