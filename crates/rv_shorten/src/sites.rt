//! The calls of a section that are cut short, by the sites of the text.
//!
//! The sites of all sections of text stand in one line. Each section has one for the padding at its start, and its own sites
//! come after that: one walk over sections and sites finds which belong together.

ghost use Rattle.std.specs.Prelude.{◌≡◌, ◌+◌, ◌-◌, ◌≤◌, ◌++◌, [], true, length, map, IfOk, OnOk};
ghost use Rattle.rv_object_laws.specs.Object as said;
ghost use Rattle.rv_object_types.specs.Sections.{section_of};
ghost use Rattle.rv_size_laws.specs.Calls as calls;
ghost use Rattle.rv_size_laws.specs.Sites.{site_end};
ghost use Rattle.rv_shorten.specs.Cut.{are_in_order, move_of};
ghost use Rattle.rv_cut_laws.specs.Cutting.{AllCut, are_cuts, cut_sections};
ghost use Rattle.rv_shorten.specs.Sections.{moves_in_all, short_section_of, whole_section_of};
ghost use Rattle.rv_cut_laws.specs.Walk as walk;
ghost use Rattle.rv_shorten.specs.SiteCuts as site_cuts;

use crate::cut::Cut;
use crate::section::ShortSection;
use rv_link_sites::link_register;
use rv_object_types::Section;
use rv_size_laws::{Site, SiteKind};
use std::alloc::{AllocError, Global};

/// Whether a site is a call.
fn is_call(site: &Site) -> bool
    ensures { result ≡ calls.is_call (site.now).kind }
{
    match site.kind {
        SiteKind::Call(_) => true,
        SiteKind::Padding(_) => false,
    }
}

/// The bytes of a site before relaxation.
fn bytes_of(site: &Site) -> u128
    ensures { result ≡ calls.bytes_of (site.now).kind }
{
    match site.kind {
        SiteKind::Call(_) => 8,
        SiteKind::Padding(padding) => u128::from(padding.bytes),
    }
}

/// The offset of a site in its section, which begins behind a first site.
fn place_of(start: &Site, site: &Site) -> u128
    ensures { result ≡ (site.now).offset - site_end start.now }
{
    site.offset
        .saturating_sub(start.offset)
        .saturating_sub(bytes_of(start))
}

/// How many sites stand in a section of so many bytes, which begins behind a first site.
fn count_within(start: &Site, size: u64, sites: &[Site]) -> usize
    ensures value { result ≡ walk.count_within (site_end start.now) size sites.now }
    ensures low { result ≤ length sites.now }
{
    let mut count = 0;
    for site in sites {
        if place_of(start, site) >= u128::from(size) {
            return count;
        }
        count += 1;
    }
    count
}

/// How many of the first sites are a section's.
fn passed(section: &Section<'_>, sites: &[Site]) -> usize
    ensures value { result ≡ walk.passed (section_of section.now) sites.now }
    ensures low { result ≤ length sites.now }
{
    if !section.is_text() {
        return 0;
    }
    match sites {
        [start, own @ ..] => 1 + count_within(start, section.contents.size(), own),
        [] => 0,
    }
}

/// A call at a place, of which so many bytes are kept.
fn cut(bytes: &[u8], place: u64, gone: u64, left: u32) -> Cut
    requires { place + 8 ≤ length bytes.now }
    ensures { result ≡ site_cuts.cut_of place gone bytes.now left }
{
    Cut {
        place,
        gone,
        full: 8,
        left: if left == 2 { 2 } else { 4 },
        detail: link_register(bytes, place as usize),
    }
}

/// Adds the cut of a site at a place, if it is a call of which fewer than 8 bytes are kept, and answers the bytes that are
/// dropped so far.
fn put_site(
    cuts: &mut Vec<Cut>,
    bytes: &[u8],
    place: u128,
    gone: u64,
    site: &Site,
    left: u32,
) -> Result<u64, AllocError>
    requires inside { site_cuts.is_cut_site site.now left ≡ true
        → (place + 8 ≤ length bytes.now) × (gone ≤ place) }
    ensures items { OnOk result (cuts.new.items
        ≡ cuts.old.items ++ site_cuts.cuts_of place gone bytes.now site.now left) }
    ensures gone { IfOk result (λ g. g ≡ gone + site_cuts.gone_of site.now left) }
{
    if !is_call(site) || left >= 8 {
        return Ok(gone);
    }
    let cut = cut(bytes, place as u64, gone, left);
    let dropped = u64::from(8 - cut.left);
    cuts.push(cut)?;
    Ok(gone + dropped)
}

/// The calls among sites of which fewer than 8 bytes are kept, in a section with these bytes, which begins behind a first
/// site.
fn cuts(
    alloc: Global,
    bytes: &[u8],
    start: &Site,
    sites: &[Site],
    kept: &[u32],
) -> Result<Vec<Cut>, AllocError>
    requires many { length kept.now ≡ length sites.now }
    requires cuts { are_cuts 0 (length bytes.now)
        (walk.moves_of (site_end start.now) bytes.now sites.now kept.now) ≡ true }
    ensures moves { IfOk result (λ v. map move_of v.items
        ≡ walk.moves_of (site_end start.now) bytes.now sites.now kept.now) }
    ensures order { IfOk result (λ v. are_in_order 0 0 v.items ≡ true) }
{
    let mut cuts = Vec::new(alloc);
    let mut gone = 0;
    for i in 0..sites.len() {
        let site = sites[i];
        gone = put_site(
            &mut cuts,
            bytes,
            place_of(start, &site),
            gone,
            &site,
            kept[i],
        )?;
    }
    Ok(cuts)
}

/// The cuts of a section whose sites these are.
fn section_cuts(
    alloc: Global,
    section: &Section<'_>,
    sites: &[Site],
    kept: &[u32],
) -> Result<Vec<Cut>, AllocError>
    requires many { length kept.now ≡ length sites.now }
    requires cuts { are_cuts 0 (length (said.stored (section_of section.now).contents))
        (walk.own_moves (said.stored (section_of section.now).contents) sites.now kept.now)
        ≡ true }
    ensures moves { IfOk result (λ v. map move_of v.items
        ≡ walk.own_moves (said.stored (section_of section.now).contents) sites.now kept.now) }
    ensures order { IfOk result (λ v. are_in_order 0 0 v.items ≡ true) }
{
    match sites {
        [start, own @ ..] => cuts(alloc, section.contents.stored(), start, own, &kept[1..]),
        [] => Ok(Vec::new(alloc)),
    }
}

/// The sections of an object that are left, to whose text the first sites belong, and how many these are.
pub(crate) fn short_sections<'o, 'a>(
    alloc: Global,
    sections: &'o [Section<'a>],
    sites: &[Site],
    kept: &[u32],
) -> Result<(Vec<ShortSection<'o, 'a>>, usize), AllocError>
    requires many { length kept.now ≡ length sites.now }
    requires cuts { AllCut (map section_of sections.now)
        (walk.object_moves (map section_of sections.now) sites.now kept.now) }
    ensures whole { IfOk result
        (λ found. map whole_section_of found.0.items ≡ map section_of sections.now) }
    ensures moves { IfOk result (λ found. moves_in_all found.0.items
        ≡ walk.object_moves (map section_of sections.now) sites.now kept.now) }
    ensures left { IfOk result (λ found. map short_section_of found.0.items
        ≡ cut_sections (walk.object_moves (map section_of sections.now) sites.now kept.now)
        (map section_of sections.now)) }
    ensures passed { IfOk result
        (λ found. found.1 ≡ walk.passed_all (map section_of sections.now) sites.now) }
    ensures low { IfOk result (λ found. found.1 ≤ length sites.now) }
{
    let mut left = Vec::with_capacity(alloc, sections.len())?;
    let mut at = 0;
    for section in sections {
        let count = passed(section, &sites[at..]);
        let cuts = section_cuts(
            alloc,
            section,
            &sites[at..at + count],
            &kept[at..at + count],
        )?;
        left.push(ShortSection::of(section, cuts))?;
        at += count;
    }
    Ok((left, at))
}
