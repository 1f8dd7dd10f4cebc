//! Pages of 4096 bytes, in a list by ascending numbers: a look-up is a binary search.
//!
//! The bytes of neighbouring pages lie one after the other in their segment: a page says in which, as a hint, since a page
//! may have bytes of several. Where that segment has not the byte, a search among the segments finds its own: a table for
//! each mixed page would take 480 MiB for 60,000 segments of one byte.

ghost use Rattle.std.specs.Prelude.{
  ◌≡◌,
  ℕ,
  ◌+◌,
  ◌*◌,
  ◌/◌,
  ◌^◌,
  ◌<◌,
  ◌≤◌,
  nat_le,
  nat_lt,
  true,
  false,
  ◌||◌,
  ◌&&◌,
  length,
  map,
  take,
  slice_index_or,
  OnOk,
  IfOk,
  MatchOption,
};
ghost use Rattle.std.specs.List.{list_any};
ghost use Rattle.rv_image.specs.SegmentView.{segment_of};
ghost use Rattle.rv_memory.specs.Flat.{no_segment};
ghost use Rattle.rv_memory.specs.Unmade.{IsGap, deep};
ghost use Rattle.rv_memory.specs.Pages.{
  AreAscending,
  AreOrdered,
  ArePages,
  has_byte_on,
  is_listed,
  is_reached,
  no_page,
  with_page,
};

use rv_image::Segment;
use std::alloc::{AllocError, Global};

/// How many bytes a page has.
const PAGE_BYTES: u64 = 4096;

/// A page.
#[derive(Clone, Copy, Drop)]
pub struct Page {
    /// The quotient of its addresses by 4096.
    pub number: u64,
    /// The index of the first segment that has a byte of it.
    pub segment: usize,
}

/// The index of the page of an address, where there is one.
pub(crate) fn page_of(pages: &[Page], address: u64) -> Option<usize>
    requires { AreAscending pages.now }
    ensures { MatchOption result
        (is_listed (address / 4096) pages.now ≡ false)
        (λ i. (i < length pages.now)
        × ((slice_index_or pages.now i no_page).number ≡ address / 4096)) }
{
    match pages.binary_search_by_key(&(address / PAGE_BYTES), |page| page.number) {
        Ok(i) => Some(i),
        Err(_) => None,
    }
}

/// Whether a page has a number or a higher one: the last does, if any.
fn reaches(pages: &[Page], number: u64) -> bool
    requires { AreAscending pages.now }
    ensures { result ≡ is_reached number pages.now }
{
    match pages.last().copied() {
        Some(last) => last.number >= number,
        None => false,
    }
}

/// Adds a page behind those with lower numbers, unless the last one has its number or a higher one.
fn add_page(pages: &mut Vec<Page>, page: Page) -> Result<(), AllocError>
    requires { AreAscending pages.old.items }
    ensures ascending { OnOk result (AreAscending pages.new.items) }
    ensures added { OnOk result (pages.new.items ≡ with_page page pages.old.items) }
{
    if reaches(pages, page.number) {
        return Ok(());
    }
    pages.push(page)?;
    Ok(())
}

/// The index of the segment at an index, after the one at `first` was put in front of all.
pub(crate) fn index_behind(first: usize, index: usize) -> usize {
    match index {
        _ if index == first => 0,
        _ if index < first => index.wrapping_add(1),
        _ => index,
    }
}

/// The address at which the segment at an index begins, where that at `top` begins at `start`.
fn start_of(segments: &[Segment], index: usize, top: usize, start: u64) -> u64
    requires index { index < length segments.now }
    requires top { top < length segments.now }
    ensures { result
        ≡ (slice_index_or (deep (map segment_of segments.now) top start) index no_segment).address }
{
    if index == top {
        return start;
    }
    segments[index].address
}

/// Adds the pages of the segment at an index, behind those of the segments before it, where the segment at `top` begins at
/// `start`, from where on it is to have bytes. They have `hint` as the segment's index.
fn add_pages(
    pages: &mut Vec<Page>,
    segments: &[Segment],
    index: usize,
    hint: usize,
    top: usize,
    start: u64,
) -> Result<(), AllocError>
    requires index { index < length segments.now }
    requires gap { IsGap (map segment_of segments.now) top start }
    requires ordered { AreOrdered (map segment_of segments.now) }
    requires before { ArePages (take index (deep (map segment_of segments.now) top start))
        pages.old.items }
    ensures { OnOk result
        (ArePages (take (index + 1) (deep (map segment_of segments.now) top start))
        pages.new.items) }
{
    let segment = &segments[index];
    let first = start_of(segments, index, top, start) / PAGE_BYTES;
    let last = (segment.address + (segment.bytes.len() as u64 - 1)) / PAGE_BYTES;
    for number in first..last + 1 {
        let page = Page {
            number,
            segment: hint,
        };
        add_page(pages, page)?;
    }
    Ok(())
}

/// The pages of segments, of which the one at `top` is to have bytes from `start` on. They name the segments by the
/// indices that these have when the one at `first` is put in front.
pub(crate) fn pages_of(
    alloc: Global,
    segments: &[Segment],
    first: usize,
    top: usize,
    start: u64,
) -> Result<Vec<Page>, AllocError>
    requires gap { IsGap (map segment_of segments.now) top start }
    requires ordered { AreOrdered (map segment_of segments.now) }
    ensures { IfOk result
        (λ pages. ArePages (deep (map segment_of segments.now) top start) pages.items) }
{
    let mut pages = Vec::new(alloc);
    for i in 0..segments.len() {
        add_pages(&mut pages, segments, i, index_behind(first, i), top, start)?;
    }
    Ok(pages)
}
