//! What may change of a section of text: its alignments, and the calls that may be shortened.
//!
//! The relocations are gone over once, in the order of their places. `Before` sums up those before a call; of those after it
//! only the next ones are looked at. A symbol past its section's end moves as the end does, so what it lies beyond is part of
//! the constant that is added to the end. Where the rules are silent, a call keeps eight bytes: at an odd place no instruction
//! begins.

ghost use Rattle.std.specs.Prelude.{◌≡◌, ◌+◌, ◌*◌, ◌≤◌, ◌<◌, ◌^◌, ◌++◌, ◌∷◌, [], List, pos, ◌+ℤ◌, map, length, Some, None, IfOk, OnOk, if◌then◌else◌};
ghost use Rattle.std.specs.Int.{w64, int_wrap};
ghost use Rattle.std.specs.Ordering.{nat_cmp};
ghost use Rattle.std.specs.List.Sorted.{IsNonDecreasingBy, IsPermutation, IsStableByKey};
ghost use Rattle.rv_size_laws.specs.Sites.{padding_site};
ghost use Rattle.rv_object_laws.specs.Object.{Relocation as SaidRelocation, size_of, stored};
ghost use Rattle.rv_object_types.specs.Parts.{relocation_of};
ghost use Rattle.rv_object_types.specs.Sections.{section_of};
ghost use Rattle.rv_link_laws.specs.CallSites as laws;
ghost use Rattle.rv_link_sites.specs.Between.{IsBefore, Rise};
ghost use Rattle.rv_link_sites.specs.Line.{end_from, text_sites};
ghost use Rattle.rv_link_sites.specs.Text.{call_of, can_shorten, input_of, objects_of, IsGiven, IsLaidText, IsLying};

use crate::between::{Before, is_allowed};
use crate::entries::Entries;
use crate::line::start_padding;
use crate::order::by_place;
use crate::text::Text;
use crate::words::{are_call_words, link_register};
use rv_object_types::{FileIndex, Object, Relocation, Section, SectionIndex};
use rv_size_laws::{Call, Padding, Site, SiteKind};
use std::alloc::{AllocError, Global};

/// A section among those of a text, by its file and its index there.
#[derive(Clone, Copy, Drop)]
pub(crate) struct TextSection<'i, 'a> {
    pub(crate) file: FileIndex,
    pub(crate) object: &'i Object<'a>,
    pub(crate) index: SectionIndex,
    pub(crate) section: &'i Section<'a>,
    /// What the symbols of its object name.
    pub(crate) entries: &'i Entries,
}

/// A padding.
fn padding_site(offset: u128, bytes: u64, alignment: u64) -> Site
    requires bytes { bytes ≤ 4094 }
    requires alignment { alignment ≤ 4096 }
    ensures { result ≡ padding_site offset bytes alignment }
{
    Site {
        offset,
        kind: SiteKind::Padding(Padding {
            bytes: bytes as u32,
            alignment: alignment as u32,
        }),
    }
}

/// What a call adds to its target, in 64 bits, where the symbol lies so far past the end of its section.
fn constant(addend: i64, past_end: u64) -> i64
    ensures { result ≡ int_wrap w64 (addend +ℤ pos past_end) }
{
    addend.wrapping_add_unsigned(past_end)
}

/// A call, if its words, its target and the symbols of its object allow that it is shortened.
fn call(
    text: &Text<'_, '_, '_, '_>,
    input: &TextSection<'_, '_>,
    relocation: &Relocation,
) -> Option<Call>
    requires laid { IsLaidText text.now }
    requires given { IsGiven text.now input.now }
    requires within { (relocation.now).place + 8
        ≤ length (stored (section_of ((input.now).section).now).contents) }
    ensures { result
        ≡ (if can_shorten (objects_of text.now) (input_of input.now) (relocation_of relocation.now)
        then Some
        (call_of (objects_of text.now) (input_of input.now) (relocation_of relocation.now))
        else None) }
{
    let bytes = input.section.contents.stored();
    let place = relocation.place as usize;
    if !are_call_words(bytes, place) {
        return None;
    }
    let target = text.target(input.file, relocation)?;
    if input.entries.is_entered(input.index, relocation.place) {
        return None;
    }
    Some(Call {
        target: target.offset,
        addend: constant(relocation.addend, target.past_end),
        compressed: input.object.rvc && link_register(bytes, place) == 0,
    })
}

/// Adds a call of a section whose first byte stands at an offset, if its words, its target and the symbols of its object allow
/// that it is shortened.
fn put_call(
    sites: &mut Vec<Site>,
    text: &Text<'_, '_, '_, '_>,
    input: &TextSection<'_, '_>,
    first: u128,
    relocation: &Relocation,
) -> Result<(), AllocError>
    requires laid { IsLaidText text.now }
    requires given { IsGiven text.now input.now }
    requires low { first + (relocation.now).place < 2 ^ 128 }
    requires within { (relocation.now).place + 8
        ≤ length (stored (section_of ((input.now).section).now).contents) }
    ensures { OnOk result (sites.new.items ≡ sites.old.items
        ++ (if can_shorten (objects_of text.now) (input_of input.now) (relocation_of relocation.now)
        then laws.call_site (objects_of text.now) (input_of input.now)
        (first + (relocation.now).place) (relocation_of relocation.now) ∷ []
        else [])) }
{
    match call(text, input, relocation) {
        Some(call) => {
            sites.push(Site {
                offset: first + u128::from(relocation.place),
                kind: SiteKind::Call(call),
            })?;
            Ok(())
        }
        None => Ok(()),
    }
}

/// Adds a relocation of a section whose first byte stands at an offset, if it is an alignment or a call that may be shortened.
/// It stands between the others of the section, which are in the order of their places.
fn put_change(
    sites: &mut Vec<Site>,
    text: &Text<'_, '_, '_, '_>,
    input: &TextSection<'_, '_>,
    first: u128,
    before: Before,
    relocation: &Relocation,
    after: &[Relocation],
) -> Result<(), AllocError>
    requires laid { IsLaidText text.now }
    requires given { IsGiven text.now input.now }
    requires low { first + size_of (section_of ((input.now).section).now).contents ≤ 9 * 2 ^ 123 }
    requires lying { IsLying (section_of ((input.now).section).now) (relocation_of relocation.now) }
    ensures { OnOk result ((rs : List SaidRelocation) → IsBefore rs before
        → Rise 0 (rs ++ relocation_of relocation.now ∷ map relocation_of after.now)
        → IsPermutation (input_of input.now).section.relocations
        (rs ++ relocation_of relocation.now ∷ map relocation_of after.now)
        → sites.new.items ≡ sites.old.items
        ++ (if laws.may_change (objects_of text.now) (input_of input.now)
        (relocation_of relocation.now)
        then laws.site_of (objects_of text.now) (input_of input.now) first
        (relocation_of relocation.now) ∷ []
        else [])) }
{
    if relocation.has_padding() {
        let site = padding_site(
            first + u128::from(relocation.place),
            relocation.full_padding(),
            relocation.asked_alignment(),
        );
        sites.push(site)?;
        return Ok(());
    }
    if !is_allowed(before, relocation, after) {
        return Ok(());
    }
    put_call(sites, text, input, first, relocation)?;
    Ok(())
}

/// Adds what may change of a section whose first byte stands at an offset, by its relocations in the order of their places.
fn put_changes(
    sites: &mut Vec<Site>,
    text: &Text<'_, '_, '_, '_>,
    input: &TextSection<'_, '_>,
    first: u128,
    sorted: &[Relocation],
) -> Result<(), AllocError>
    requires laid { IsLaidText text.now }
    requires given { IsGiven text.now input.now }
    requires low { first + size_of (section_of ((input.now).section).now).contents ≤ 9 * 2 ^ 123 }
    requires sized { size_of (section_of ((input.now).section).now).contents < 2 ^ 64 }
    requires same { IsPermutation (((input.now).section).now).relocations.items sorted.now }
    requires rise { IsNonDecreasingBy (λ r. r.place) sorted.now }
    requires stable { IsStableByKey (λ r. r.place) nat_cmp
        (((input.now).section).now).relocations.items sorted.now }
    ensures { OnOk result (sites.new.items ≡ sites.old.items
        ++ map (laws.site_of (objects_of text.now) (input_of input.now) first)
        (laws.changes (objects_of text.now) (input_of input.now))) }
{
    let mut before = Before::nothing();
    for i in 0..sorted.len() {
        let relocation = &sorted[i];
        put_change(
            sites,
            text,
            input,
            first,
            before,
            relocation,
            &sorted[i + 1..],
        )?;
        before = before.and(relocation);
    }
    Ok(())
}

/// Adds the sites of a section of text behind an end of the line: its start, and what may change of it. Gives the end after it.
pub(crate) fn put_section(
    alloc: Global,
    sites: &mut Vec<Site>,
    text: &Text<'_, '_, '_, '_>,
    input: &TextSection<'_, '_>,
    stop: u128,
) -> Result<u128, AllocError>
    requires laid { IsLaidText text.now }
    requires given { IsGiven text.now input.now }
    requires low { end_from stop (section_of ((input.now).section).now) ≤ 9 * 2 ^ 123 }
    ensures end { IfOk result (λ end. end ≡ end_from stop (section_of ((input.now).section).now)) }
    ensures sites { OnOk result (sites.new.items
        ≡ sites.old.items ++ text_sites (objects_of text.now) stop (input_of input.now)) }
{
    let padding = start_padding(input.section);
    let size = input.section.contents.size();
    let first = stop + u128::from(padding);
    let site = padding_site(stop, padding, input.section.begins_at());
    sites.push(site)?;
    let sorted = by_place(alloc, &input.section.relocations)?;
    put_changes(sites, text, input, first, &sorted)?;
    Ok(first + u128::from(size))
}
