//! What a plan tells of its text by number: the bytes of calls and of alignments, and where offsets are afterwards.
//!
//! Nothing is kept for it: what is asked for is found in the tables of the sections, one section after another.

ghost use Rattle.std.specs.Prelude.{◌≡◌, [], ◌∷◌, ◌+◌, ◌^◌, ◌<◌, ◌≤◌, map, slice_index};
ghost use Rattle.rv_object_types.specs.Parts.{relocation_of};
ghost use Rattle.rv_shorten.specs.Sections.{moves_in};
ghost use Rattle.rv_relax.specs.Kept.{kept_in, moves_of};
ghost use Rattle.rv_relax.specs.Told as said;
ghost use Rattle.rv_relax.specs.declared.told.Counted.TheVariants as kinds;

use crate::plan::Plan;
use crate::section_paddings::SectionPaddings;
use rv_isa::Kind;
use rv_object_types::Relocation;
use rv_shorten::{ShortObject, ShortSection};

/// What is counted in a text.
#[derive(Clone, Copy, Drop)]
pub(crate) enum Counted {
    Calls,
    Alignments,
}

/// How far a search for an offset of the text has come.
#[derive(Clone, Copy, Drop)]
pub(crate) struct Standing {
    /// The bytes afterwards of the sections that it has passed.
    before: u64,
    /// The offset in what follows them.
    left: u64,
}

/// The bytes of a call whose relocation has this kind at last.
fn bytes_left(kind: Kind) -> u32
    ensures { result ≡ said.bytes_left kind }
{
    match kind {
        Kind::RvcJump => 2,
        Kind::Jal => 4,
        _ => 8,
    }
}

/// The bytes afterwards of the call at a relocation of a section, if it is one.
fn call_bytes(section: &ShortSection<'_, '_>, relocation: &Relocation) -> Option<u32>
    ensures { result ≡ said.call_told (moves_in section.now) (relocation_of relocation.now) }
{
    if !relocation.is_call() {
        return None;
    }
    Some(bytes_left(section.relocation(relocation).kind))
}

/// The bytes afterwards of the alignment at a relocation of a section, if it is one.
fn pad_bytes(
    section: &ShortSection<'_, '_>,
    plan: &SectionPaddings,
    relocation: &Relocation,
) -> Option<u32>
    ensures { result ≡ said.pad_told (moves_in section.now) (moves_of plan.now)
        (relocation_of relocation.now) }
{
    if !matches!(relocation.kind, Kind::Align) {
        return None;
    }
    if !relocation.has_padding() {
        return Some(0);
    }
    Some(plan.pad(section.relocation(relocation).place))
}

/// The bytes afterwards of what stands at a relocation of a section, if it is counted.
fn bytes_at(
    counted: Counted,
    section: &ShortSection<'_, '_>,
    plan: &SectionPaddings,
    relocation: &Relocation,
) -> Option<u32>
    ensures { result ≡ said.told_at counted (moves_in section.now) (moves_of plan.now)
        (relocation_of relocation.now) }
{
    match counted {
        Counted::Calls => call_bytes(section, relocation),
        Counted::Alignments => pad_bytes(section, plan, relocation),
    }
}

/// What stands at a relocation, if so many that are counted are left before what is wanted; else one is passed, if it counts.
fn found(told: Option<u32>, left: &mut usize) -> Option<u32>
    ensures { said.IsFound (said.as_list told) left.old left.new result }
{
    let bytes = told?;
    let Some(rest) = left.checked_sub(1) else {
        return Some(bytes);
    };
    *left = rest;
    None
}

/// Looks in a section.
fn found_in(
    counted: Counted,
    section: &ShortSection<'_, '_>,
    plan: &SectionPaddings,
    left: &mut usize,
) -> Option<u32>
    requires { moves_of plan.now ≡ kept_in section.now }
    ensures { said.IsFound (said.told_section counted section.now) left.old left.new result }
{
    if !section.whole.is_text() {
        return None;
    }
    for relocation in &section.whole.relocations {
        match found(bytes_at(counted, section, plan, relocation), left) {
            Some(bytes) => return Some(bytes),
            None => {}
        }
    }
    None
}

/// Looks in the sections of an object.
fn found_among(
    counted: Counted,
    sections: &[ShortSection<'_, '_>],
    plans: &[SectionPaddings],
    left: &mut usize,
) -> Option<u32>
    requires { map moves_of plans.now ≡ map kept_in sections.now }
    ensures { said.IsFound (said.told_sections counted sections.now) left.old left.new result }
{
    for i in 0..sections.len() {
        match found_in(counted, &sections[i], &plans[i], left) {
            Some(bytes) => return Some(bytes),
            None => {}
        }
    }
    None
}

/// Looks in objects.
fn found_in_all(
    counted: Counted,
    objects: &[ShortObject<'_, '_>],
    plans: &[Vec<SectionPaddings>],
    left: &mut usize,
) -> Option<u32>
    requires { map (λ f. map moves_of f.items) plans.now
        ≡ map (λ o. map kept_in o.sections.items) objects.now }
    ensures { said.IsFound (said.told_objects counted objects.now) left.old left.new result }
{
    for i in 0..objects.len() {
        let sections = objects[i].sections.as_slice();
        match found_among(counted, sections, plans[i].as_slice(), left) {
            Some(bytes) => return Some(bytes),
            None => {}
        }
    }
    None
}

/// Looks for an offset in a section.
fn passed(
    section: &ShortSection<'_, '_>,
    plan: &SectionPaddings,
    standing: &mut Standing,
) -> Option<u64>
    requires plan { moves_of plan.now ≡ kept_in section.now }
    requires low { (standing.old).before + (standing.old).left < 2 ^ 64 }
    ensures passed { said.IsPassed (said.planned_sections (section.now ∷ [])) standing.old standing.new result }
    ensures low { (standing.new).before + (standing.new).left
        ≤ (standing.old).before + (standing.old).left }
{
    if !section.whole.is_text() {
        return None;
    }
    let Standing { before, left } = *standing;
    let size = section.whole.contents.size();
    if left <= size {
        return Some(before + plan.new_offset(section.new_offset(left)));
    }
    *standing = Standing {
        before: before + plan.new_offset(section.new_offset(size)),
        left: left - size,
    };
    None
}

/// Looks for an offset in the sections of an object.
fn passed_among(
    sections: &[ShortSection<'_, '_>],
    plans: &[SectionPaddings],
    standing: &mut Standing,
) -> Option<u64>
    requires plans { map moves_of plans.now ≡ map kept_in sections.now }
    requires low { (standing.old).before + (standing.old).left < 2 ^ 64 }
    ensures passed { said.IsPassed (said.planned_sections sections.now) standing.old standing.new result }
    ensures low { (standing.new).before + (standing.new).left
        ≤ (standing.old).before + (standing.old).left }
{
    for i in 0..sections.len() {
        match passed(&sections[i], &plans[i], standing) {
            Some(new) => return Some(new),
            None => {}
        }
    }
    None
}

/// Looks for an offset in objects.
fn passed_all(
    objects: &[ShortObject<'_, '_>],
    plans: &[Vec<SectionPaddings>],
    standing: &mut Standing,
) -> Option<u64>
    requires plans { map (λ f. map moves_of f.items) plans.now
        ≡ map (λ o. map kept_in o.sections.items) objects.now }
    requires low { (standing.old).before + (standing.old).left < 2 ^ 64 }
    ensures passed { said.IsPassed (said.planned_text objects.now) standing.old standing.new result }
    ensures low { (standing.new).before + (standing.new).left
        ≤ (standing.old).before + (standing.old).left }
{
    for i in 0..objects.len() {
        let sections = objects[i].sections.as_slice();
        match passed_among(sections, plans[i].as_slice(), standing) {
            Some(new) => return Some(new),
            None => {}
        }
    }
    None
}

impl<'o, 'a> Plan<'o, 'a> {
    /// The bytes of a call afterwards, by its place among the calls of the sections of text in order, from 0: 8 where it may
    /// not be shortened; 0 past the last.
    pub fn call_size(&self, i: usize) -> u32
        ensures { result ≡ slice_index (said.told_objects kinds.Calls (self.now).objects.items) i }
    {
        self.told(Counted::Calls, i)
    }

    /// The bytes of an alignment afterwards, by its place among the alignments of the sections of text in order, from 0: the
    /// least that align its end; 0 where it brings none, and past the last.
    pub fn pad(&self, i: usize) -> u32
        ensures { result
            ≡ slice_index (said.told_objects kinds.Alignments (self.now).objects.items) i }
    {
        self.told(Counted::Alignments, i)
    }

    /// The bytes afterwards of one of what is counted; 0 past the last.
    fn told(&self, counted: Counted, i: usize) -> u32
        ensures { result ≡ slice_index (said.told_objects counted (self.now).objects.items) i }
    {
        let mut left = i;
        match found_in_all(
            counted,
            self.objects.as_slice(),
            self.paddings.as_slice(),
            &mut left,
        ) {
            Some(bytes) => bytes,
            None => 0,
        }
    }

    /// Where an offset is afterwards: less the bytes of calls and of alignments that are dropped before it. Offsets count the
    /// bytes of the sections of text end to end, without what lies between two sections, before and after.
    pub fn new_offset(&self, old: u64) -> u64
        ensures { result ≡ said.offset_among (said.planned_text (self.now).objects.items) old }
    {
        let mut standing = Standing {
            before: 0,
            left: old,
        };
        match passed_all(
            self.objects.as_slice(),
            self.paddings.as_slice(),
            &mut standing,
        ) {
            Some(new) => new,
            None => standing.before + standing.left,
        }
    }
}
