//! The sections after the text: constants, variables, and variables that begin as zeros.
//!
//! Constants and variables begin at pages of their own, since their rights differ. No byte of these sections is dropped: a
//! section is as long as in its object.

ghost use Rattle.std.specs.Prelude.{◌≡◌, ◌+◌, ◌<◌, ◌≤◌, map, length, IfSome, IfNone};
ghost use Rattle.rv_image_laws.specs.Free.{highest};
ghost use Rattle.rv_object_laws.specs.Object.{size_of};
ghost use Rattle.rv_shorten.specs.Sections.{short_section_of};
ghost use Rattle.rv_shorten.specs.View.{short_object_of};
ghost use Rattle.rv_placement.specs.Walk.{goes, next, ended, ended_files, start_behind, moved_to, started, started_files, lists_of, AreBehind, behind_files, AreFar};

use crate::alignment::{greatest_of, multiple_of, next_multiple};
use crate::destination::{Destination, goes_to};
use crate::placement::PlacedSection;
use rv_map_laws::Region;
use rv_shorten::{ShortObject, ShortSection};

/// Regions with different rights begin at multiples of this.
const PAGE: u64 = 4096;

/// The regions behind the text.
#[derive(Clone, Copy, Drop)]
pub(crate) struct Regions {
    /// The constants.
    pub(crate) rodata: Region,
    /// The variables, but for those that begin as zeros.
    pub(crate) data: Region,
    /// The variables that begin as zeros.
    pub(crate) bss: Region,
}

/// Where a section starts and ends that loses no byte and comes after an end; `None` where it
/// passes the ceiling.
fn behind(section: &ShortSection<'_, '_>, stop: u64, ceiling: u64) -> Option<(u64, u64)>
    requires low { stop ≤ ceiling }
    requires high { ceiling ≤ highest }
    ensures found { IfSome result (λ found.
        (found.0 ≡ start_behind stop (short_section_of section.now))
        × (found.1 ≡ found.0 + size_of (short_section_of section.now).contents)
        × (found.1 ≤ ceiling)) }
    ensures far { IfNone result
        (let s = short_section_of section.now in
        ceiling < start_behind stop s + size_of s.contents) }
{
    let start = next_multiple(multiple_of(section), stop);
    let end = start.checked_add(section.size())?;
    if end > ceiling {
        return None;
    }
    Some((start, end))
}

/// Moves a section that goes to a region behind an end. Gives the end after it, or `None` where it
/// passes the ceiling.
fn move_section(
    place: &mut PlacedSection<'_>,
    section: &ShortSection<'_, '_>,
    destination: Destination,
    stop: u64,
    ceiling: u64,
) -> Option<u64>
    requires low { stop ≤ ceiling }
    requires high { ceiling ≤ highest }
    ensures moved { IfSome result (λ end.
        (place.new ≡ moved_to (goes destination) stop place.old (short_section_of section.now))
        × (end ≡ next (goes destination) stop (short_section_of section.now))
        × (end ≤ ceiling)) }
    ensures far { IfNone result
        (ceiling < next (goes destination) stop (short_section_of section.now)) }
{
    if !goes_to(destination, section) {
        return Some(stop);
    }
    let (start, end) = behind(section, stop, ceiling)?;
    place.start = start;
    Some(end)
}

/// Moves the sections of a file that go to a region, one behind another. Gives their end.
fn move_file(
    places: &mut [PlacedSection<'_>],
    sections: &[ShortSection<'_, '_>],
    destination: Destination,
    first: u64,
    ceiling: u64,
) -> Option<u64>
    requires each { length places.old ≡ length sections.now }
    requires low { first ≤ ceiling }
    requires high { ceiling ≤ highest }
    ensures moved { IfSome result (λ end.
        (places.new
        ≡ started (goes destination) first places.old (map short_section_of sections.now))
        × (end ≡ ended (goes destination) first (map short_section_of sections.now))
        × (end ≤ ceiling)) }
    ensures far { IfNone result
        (ceiling < ended (goes destination) first (map short_section_of sections.now)) }
{
    let mut stop = first;
    for i in 0..sections.len() {
        stop = move_section(&mut places[i], &sections[i], destination, stop, ceiling)?;
    }
    Some(stop)
}

/// Moves the sections of all files that go to a region. Gives their end.
fn move_files(
    files: &mut [Vec<PlacedSection<'_>>],
    objects: &[ShortObject<'_, '_>],
    destination: Destination,
    first: u64,
    ceiling: u64,
) -> Option<u64>
    requires each { map length (lists_of files.old)
        ≡ map (λ o. length o.sections) (map short_object_of objects.now) }
    requires low { first ≤ ceiling }
    requires high { ceiling ≤ highest }
    ensures moved { IfSome result (λ end. (lists_of files.new
        ≡ started_files (goes destination) first (lists_of files.old)
        (map short_object_of objects.now))
        × (end ≡ ended_files (goes destination) first (map short_object_of objects.now))
        × (end ≤ ceiling)) }
    ensures far { IfNone result
        (ceiling < ended_files (goes destination) first (map short_object_of objects.now)) }
{
    let mut stop = first;
    for i in 0..objects.len() {
        let sections = objects[i].sections.as_slice();
        stop = move_file(
            files[i].as_mut_slice(),
            sections,
            destination,
            stop,
            ceiling,
        )?;
    }
    Some(stop)
}

/// Places the sections that go to a region from an address on; `None` where they pass the ceiling.
fn region(
    files: &mut [Vec<PlacedSection<'_>>],
    objects: &[ShortObject<'_, '_>],
    destination: Destination,
    start: u64,
    ceiling: u64,
) -> Option<Region>
    requires each { map length (lists_of files.old)
        ≡ map (λ o. length o.sections) (map short_object_of objects.now) }
    requires high { ceiling ≤ highest }
    ensures moved { IfSome result (λ r. (r.start ≡ start) × (lists_of files.new
        ≡ started_files (goes destination) start (lists_of files.old)
        (map short_object_of objects.now))
        × (r.end ≡ ended_files (goes destination) start (map short_object_of objects.now))
        × (r.end ≤ ceiling)) }
    ensures far { IfNone result
        (ceiling < ended_files (goes destination) start (map short_object_of objects.now)) }
{
    if start > ceiling {
        return None;
    }
    let end = move_files(files, objects, destination, start, ceiling)?;
    Some(Region { start, end })
}

/// Places the regions behind a text that ends at an address: rodata and data at the next pages, bss
/// after data. `None` where they pass the ceiling.
pub(crate) fn regions_behind(
    files: &mut [Vec<PlacedSection<'_>>],
    objects: &[ShortObject<'_, '_>],
    text_end: u64,
    ceiling: u64,
) -> Option<Regions>
    requires each { map length (lists_of files.old)
        ≡ map (λ o. length o.sections) (map short_object_of objects.now) }
    requires low { text_end ≤ ceiling }
    requires high { ceiling ≤ highest }
    ensures behind { IfSome result
        (λ r. AreBehind (map short_object_of objects.now) text_end r.rodata r.data r.bss) }
    ensures moved { IfSome result (λ r. lists_of files.new
        ≡ behind_files (lists_of files.old) r.rodata r.data r.bss
        (map short_object_of objects.now)) }
    ensures low { IfSome result (λ r. r.bss.end ≤ ceiling) }
    ensures far { IfNone result (AreFar (map short_object_of objects.now) ceiling text_end) }
{
    let rodata = region(
        files,
        objects,
        Destination::Rodata,
        next_multiple(PAGE, text_end),
        ceiling,
    )?;
    let data = region(
        files,
        objects,
        Destination::Data,
        next_multiple(PAGE, rodata.end),
        ceiling,
    )?;
    let alignment = greatest_of(Destination::Bss, objects);
    let bss = region(
        files,
        objects,
        Destination::Bss,
        next_multiple(alignment, data.end),
        ceiling,
    )?;
    Some(Regions { rodata, data, bss })
}
