//! The sections of the text.
//!
//! The plan tells what is kept of the paddings of each, and so how long it is, wherever it starts.

ghost use Rattle.std.specs.Prelude.{◌≡◌, ◌+◌, ◌++◌, ◌<◌, ◌≤◌, [], map, IfOk, IfSome, IfNone};
ghost use Rattle.std.specs.List.{AllZip};
ghost use Rattle.rv_image_laws.specs.Free.{highest};
ghost use Rattle.rv_link_laws.specs.Inputs.{goes_to_text};
ghost use Rattle.rv_link_laws.specs.Moves.{moves};
ghost use Rattle.rv_relax.specs.Kept.{kept_in, moves_of};
ghost use Rattle.rv_shorten.specs.Sections.{short_section_of};
ghost use Rattle.rv_shorten.specs.View.{short_object_of};
ghost use Rattle.rv_placement.specs.Walk.{end_from, start_from, next, ended, ended_files, lists_of, text_starts, text_files, gap_between, gap_behind, gapped, gapped_files, IsKept, AreKept, IsPut};

use crate::alignment::{multiple_of, next_multiple};
use crate::placement::PlacedSection;
use rv_map_laws::Region;
use rv_relax::SectionPaddings;
use rv_shorten::{ShortObject, ShortSection};
use std::alloc::{AllocError, Global};

/// Adds the place of a section that has none in the text.
fn put_other<'p>(
    places: &mut Vec<PlacedSection<'p>>,
    section: &ShortSection<'_, '_>,
    plan: &'p SectionPaddings,
) -> Result<(), AllocError>
    requires { moves_of plan.now ≡ kept_in section.now }
    ensures { IfOk result
        (λ _. IsPut (short_section_of section.now) 0 places.old.items places.new.items) }
{
    // tells that what is left of the section has a size in 64 bits
    let _size = section.size();
    places.push(PlacedSection { start: 0, plan })?;
    Ok(())
}

/// Adds the place of a section of the text that starts at an address. Gives its end, or `None`
/// where that passes the ceiling.
fn put_code<'p>(
    places: &mut Vec<PlacedSection<'p>>,
    section: &ShortSection<'_, '_>,
    plan: &'p SectionPaddings,
    start: u64,
    ceiling: u64,
) -> Result<Option<u64>, AllocError>
    requires low { start ≤ ceiling }
    requires high { ceiling ≤ highest }
    requires plan { moves_of plan.now ≡ moves start (short_section_of section.now) }
    ensures placed { IfOk result (λ found. IfSome found (λ end.
        (end ≡ end_from start (short_section_of section.now)) × (end ≤ ceiling)
        × IsPut (short_section_of section.now) start places.old.items places.new.items)) }
    ensures far { IfOk result (λ found. IfNone found
        (ceiling < end_from start (short_section_of section.now))) }
{
    let size = section.size();
    let end = start.saturating_add(plan.new_offset(size));
    if end > ceiling {
        return Ok(None);
    }
    places.push(PlacedSection { start, plan })?;
    Ok(Some(end))
}

/// Adds the gap between an end and the start behind it, if there is one.
fn put_gap(gaps: &mut Vec<Region>, stop: u64, start: u64) -> Result<(), AllocError>
    ensures { IfOk result (λ _. gaps.new.items ≡ gaps.old.items ++ gap_between stop start) }
{
    if stop < start {
        gaps.push(Region {
            start: stop,
            end: start,
        })?;
    }
    Ok(())
}

/// Adds the place of a section that comes after an end of the text. Gives the end after it, or
/// `None` where that passes the ceiling.
fn put_section<'p>(
    places: &mut Vec<PlacedSection<'p>>,
    gaps: &mut Vec<Region>,
    section: &ShortSection<'_, '_>,
    plan: &'p SectionPaddings,
    stop: u64,
    ceiling: u64,
) -> Result<Option<u64>, AllocError>
    requires low { stop ≤ ceiling }
    requires high { ceiling ≤ highest }
    requires plan { moves_of plan.now ≡ kept_in section.now }
    ensures placed { IfOk result (λ found. IfSome found (λ end.
        (end ≡ next goes_to_text stop (short_section_of section.now)) × (end ≤ ceiling)
        × IsPut (short_section_of section.now)
        (start_from goes_to_text stop 0 (short_section_of section.now))
        places.old.items places.new.items
        × (gaps.new.items ≡ gaps.old.items ++ gap_behind stop (short_section_of section.now)))) }
    ensures far { IfOk result (λ found. IfNone found
        (ceiling < next goes_to_text stop (short_section_of section.now))) }
{
    if !section.whole.is_text() {
        put_other(places, section, plan)?;
        return Ok(Some(stop));
    }
    let start = next_multiple(multiple_of(section), stop);
    if start > ceiling {
        return Ok(None);
    }
    put_gap(gaps, stop, start)?;
    match put_code(places, section, plan, start, ceiling)? {
        Some(end) => Ok(Some(end)),
        None => Ok(None),
    }
}

/// Adds the places of a file's sections, where those of the text begin at an address. Gives their
/// end, or `None` where that passes the ceiling.
fn put_file<'p>(
    places: &mut Vec<PlacedSection<'p>>,
    gaps: &mut Vec<Region>,
    sections: &[ShortSection<'_, '_>],
    plans: &'p [SectionPaddings],
    first: u64,
    ceiling: u64,
) -> Result<Option<u64>, AllocError>
    requires empty { places.old.items ≡ [] }
    requires low { first ≤ ceiling }
    requires high { ceiling ≤ highest }
    requires plans { map moves_of plans.now ≡ map kept_in sections.now }
    ensures placed { IfOk result (λ found. IfSome found (λ end.
        (end ≡ ended goes_to_text first (map short_section_of sections.now)) × (end ≤ ceiling)
        × (map (λ q. q.start) places.new.items
        ≡ text_starts first (map short_section_of sections.now))
        × AllZip IsKept (map short_section_of sections.now) places.new.items
        × (gaps.new.items ≡ gaps.old.items ++ gapped first (map short_section_of sections.now)))) }
    ensures far { IfOk result (λ found. IfNone found
        (ceiling < ended goes_to_text first (map short_section_of sections.now))) }
{
    let mut stop = first;
    for i in 0..sections.len() {
        match put_section(places, gaps, &sections[i], &plans[i], stop, ceiling)? {
            Some(end) => stop = end,
            None => return Ok(None),
        }
    }
    Ok(Some(stop))
}

/// Adds the places of all sections, where those of the text begin at an address. Gives the end of
/// the text, or `None` where that passes the ceiling.
pub(crate) fn put_files<'p>(
    alloc: Global,
    files: &mut Vec<Vec<PlacedSection<'p>>>,
    gaps: &mut Vec<Region>,
    objects: &[ShortObject<'_, '_>],
    plans: &'p [Vec<SectionPaddings>],
    first: u64,
    ceiling: u64,
) -> Result<Option<u64>, AllocError>
    requires empty { files.old.items ≡ [] }
    requires low { first ≤ ceiling }
    requires high { ceiling ≤ highest }
    requires plans { map (λ f. map moves_of f.items) plans.now
        ≡ map (λ o. map kept_in o.sections.items) objects.now }
    ensures placed { IfOk result (λ found. IfSome found (λ end.
        (end ≡ ended_files goes_to_text first (map short_object_of objects.now))
        × (end ≤ ceiling)
        × (map (λ f. map (λ q. q.start) f) (lists_of files.new.items)
        ≡ text_files first (map short_object_of objects.now))
        × AllZip AreKept (map short_object_of objects.now) (lists_of files.new.items)
        × (gaps.new.items
        ≡ gaps.old.items ++ gapped_files first (map short_object_of objects.now)))) }
    ensures far { IfOk result (λ found. IfNone found
        (ceiling < ended_files goes_to_text first (map short_object_of objects.now))) }
{
    let mut stop = first;
    for i in 0..objects.len() {
        let mut places: Vec<PlacedSection<'p>> = Vec::new(alloc);
        let sections = objects[i].sections.as_slice();
        match put_file(
            &mut places,
            gaps,
            sections,
            plans[i].as_slice(),
            stop,
            ceiling,
        )? {
            Some(end) => stop = end,
            None => return Ok(None),
        }
        files.push(places)?;
    }
    Ok(Some(stop))
}
