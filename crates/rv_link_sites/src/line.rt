//! The text of objects in one line.

ghost use Rattle.std.specs.Prelude.{◌≡◌, ◌+◌, ◌*◌, ◌++◌, ◌≤◌, ◌^◌, length, map, IfOk};
ghost use Rattle.rv_object_types.specs.Sections.{section_of};
ghost use Rattle.rv_object_types.specs.View.{object_of};
ghost use Rattle.rv_link_laws.specs.CallSites as laws;
ghost use Rattle.rv_link_sites.specs.Line as walk;

use rv_object_types::{Object, Section};
use std::alloc::{AllocError, Global};

/// Where the sections of objects stand in the line.
#[derive(Drop)]
pub(crate) struct Line {
    /// Of each file, where the places of its sections begin among all.
    pub(crate) files: Vec<usize>,
    /// Two places of each section: where its first byte stands, and where its end does. A list has less than 2^63 numbers, so
    /// the line ends below 9 * 2^123.
    pub(crate) places: Vec<u128>,
}

/// The bytes of padding that a section may need before its start.
pub(crate) fn start_padding(section: &Section<'_>) -> u64
    ensures value { result ≡ laws.start_padding (section_of section.now) }
    ensures small { result ≤ 4094 }
{
    section.begins_at().saturating_sub(2)
}

/// Where a section's first byte stands behind an end of the line, and the end after it.
fn stand(section: &Section<'_>, stop: u128) -> (u128, u128)
    requires { stop ≤ 2 ^ 127 }
    ensures first { result.0 ≡ walk.first_behind stop (section_of section.now) }
    ensures end { result.1 ≡ walk.next stop (section_of section.now) }
    ensures near { result.1 ≤ stop + (2 ^ 64 + 4094) }
{
    if !section.is_text() {
        return (stop, stop);
    }
    let first = stop + u128::from(start_padding(section));
    (first, first + u128::from(section.contents.size()))
}

/// Adds the places of a file's sections, behind an end of the line. Gives the end after them.
fn put_file(
    places: &mut Vec<u128>,
    sections: &[Section<'_>],
    first: u128,
) -> Result<u128, AllocError>
    requires { 2 * first ≤ length places.old.items * (2 ^ 64 + 4094) }
    ensures end { IfOk result (λ end. end ≡ walk.ended first (map section_of sections.now)) }
    ensures places { IfOk result (λ _. places.new.items
        ≡ places.old.items ++ walk.places first (map section_of sections.now)) }
    ensures low { IfOk result (λ end. 2 * end ≤ length places.new.items * (2 ^ 64 + 4094)) }
{
    let mut stop = first;
    for section in sections {
        let (start, end) = stand(section, stop);
        places.push(start)?;
        places.push(end)?;
        stop = end;
    }
    Ok(stop)
}

impl Line {
    /// That of objects.
    pub(crate) fn of(alloc: Global, objects: &[Object<'_>]) -> Result<Line, AllocError>
        ensures line { IfOk result (λ line. walk.IsLine (map object_of objects.now) line) }
        ensures low { IfOk result
            (λ _. walk.ended_files 0 (map object_of objects.now) ≤ 9 * 2 ^ 123) }
    {
        let mut files = Vec::new(alloc);
        let mut places = Vec::new(alloc);
        let mut stop = 0;
        for object in objects {
            files.push(places.len())?;
            stop = put_file(&mut places, object.sections.as_slice(), stop)?;
        }
        Ok(Line { files, places })
    }
}
