//! The multiples at which sections begin.

ghost use Rattle.std.specs.Prelude.{◌≡◌, ◌<◌, ◌≤◌, ◌^◌, map, max};
ghost use Rattle.rv_image_laws.specs.Free.{highest};
ghost use Rattle.rv_size_laws.specs.Alignment.{aligned};
ghost use Rattle.rv_link_laws.specs.Inputs as inputs;
ghost use Rattle.rv_shorten.specs.Sections.{short_section_of};
ghost use Rattle.rv_shorten.specs.View.{short_object_of};
ghost use Rattle.rv_placement.specs.Walk as walk;

use crate::destination::{Destination, goes_to};
use rv_shorten::{ShortObject, ShortSection};

/// The least multiple of an alignment that is not below an address.
pub(crate) fn next_multiple(alignment: u64, address: u64) -> u64
    requires some { 0 < alignment }
    requires small { alignment ≤ 4096 }
    requires low { address ≤ highest }
    ensures { result ≡ aligned alignment address }
{
    (address + (alignment - 1)) / alignment * alignment
}

/// The multiple at which what is left of a section begins: that of the section as it was.
pub(crate) fn multiple_of(section: &ShortSection<'_, '_>) -> u64
    ensures value { result ≡ inputs.begins_at (short_section_of section.now) }
    ensures some { 0 < result }
    ensures small { result ≤ 4096 }
{
    section.whole.begins_at()
}

/// The multiple of a section that goes to a region; 1 of others.
fn weight(destination: Destination, section: &ShortSection<'_, '_>) -> u64
    ensures value { result ≡ walk.weight (walk.goes destination) (short_section_of section.now) }
    ensures some { 0 < result }
    ensures small { result ≤ 4096 }
{
    if goes_to(destination, section) {
        multiple_of(section)
    } else {
        1
    }
}

/// The greatest multiple of the sections of a file that go to a region.
fn greatest_in(destination: Destination, sections: &[ShortSection<'_, '_>]) -> u64
    ensures value { result
        ≡ walk.greatest_in (walk.goes destination) (map short_section_of sections.now) }
    ensures some { 0 < result }
    ensures small { result ≤ 4096 }
{
    let mut greatest = 1;
    for section in sections {
        greatest = weight(destination, section).max(greatest);
    }
    greatest
}

/// The greatest multiple of the sections that go to a region.
pub(crate) fn greatest_of(destination: Destination, objects: &[ShortObject<'_, '_>]) -> u64
    ensures value { result
        ≡ walk.greatest_of (walk.goes destination) (map short_object_of objects.now) }
    ensures some { 0 < result }
    ensures small { result ≤ 4096 }
{
    let mut greatest = 1;
    for object in objects {
        greatest = greatest_in(destination, object.sections.as_slice()).max(greatest);
    }
    greatest
}
