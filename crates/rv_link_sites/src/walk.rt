//! The sites of the text of objects.

ghost use Rattle.std.specs.Prelude.{◌≡◌, ℕ, ◌+◌, ◌*◌, ◌≤◌, ◌^◌, ◌++◌, Some, map, IfOk, OnOk};
ghost use Rattle.std.specs.List.{slice_get};
ghost use Rattle.rv_object_types.specs.Sections.{section_of};
ghost use Rattle.rv_object_types.specs.View.{object_of};
ghost use Rattle.rv_size_laws.specs.Calls.{site_at};
ghost use Rattle.rv_link_laws.specs.CallSites.{sites_of};
ghost use Rattle.rv_link_laws.specs.Within.{IsWithin};
ghost use Rattle.rv_names.specs.Names.{IsNames};
ghost use Rattle.rv_link_sites.specs.Line as walk;
ghost use Rattle.rv_link_sites.specs.Text.{IsAmong, IsLaidText, input_of, objects_of};

use crate::changes::{TextSection, put_section};
use crate::entries::Entries;
use crate::text::Text;
use rv_names::Names;
use rv_object_types::{FileIndex, Object, SectionIndex};
use rv_size_laws::Site;
use std::alloc::{AllocError, Global};

/// The sites of the text of objects, whose names mean this. The text has at most 9 * 2^123 bytes, as a list has less than 2^63
/// numbers.
///
/// # Errors
///
/// Want of memory.
pub fn sites(
    alloc: Global,
    objects: &[Object<'_>],
    names: &Names<'_>,
) -> Result<Vec<Site>, AllocError>
    requires { IsNames (map object_of objects.now) names.now }
    ensures sites { IfOk result (λ sites. sites.items ≡ sites_of (map object_of objects.now)) }
    ensures within { IfOk result
        (λ sites. (i : ℕ) → IsWithin (9 * 2 ^ 123) (site_at sites.items i)) }
{
    let text = Text::of(alloc, objects, names)?;
    let mut sites = Vec::new(alloc);
    put_all(alloc, &mut sites, &text)?;
    Ok(sites)
}

/// Adds the sites of all objects.
fn put_all(
    alloc: Global,
    sites: &mut Vec<Site>,
    text: &Text<'_, '_, '_, '_>,
) -> Result<(), AllocError>
    requires { IsLaidText text.now }
    ensures { OnOk result (sites.new.items ≡ sites.old.items ++ sites_of (objects_of text.now)) }
{
    let mut stop = 0;
    for file in 0..text.objects.len() {
        stop = put_object(
            alloc,
            sites,
            text,
            FileIndex(file),
            &text.objects[file],
            stop,
        )?;
    }
    Ok(())
}

/// Adds the sites of an object, which is a file, behind an end of the line. Gives the end after it.
fn put_object(
    alloc: Global,
    sites: &mut Vec<Site>,
    text: &Text<'_, '_, '_, '_>,
    file: FileIndex,
    object: &Object<'_>,
    first: u128,
) -> Result<u128, AllocError>
    requires laid { IsLaidText text.now }
    requires at { slice_get (objects_of text.now) file.0 ≡ Some (object_of object.now) }
    requires low { walk.ended first (object_of object.now).sections ≤ 9 * 2 ^ 123 }
    ensures end { IfOk result (λ end. end ≡ walk.ended first (object_of object.now).sections) }
    ensures sites { OnOk result (sites.new.items ≡ sites.old.items
        ++ walk.object_sites (objects_of text.now) (file.0 + 1) (object_of object.now) 0 first
        (object_of object.now).sections) }
{
    let entries = Entries::of(alloc, object)?;
    let mut stop = first;
    for index in 0..object.sections.len() {
        let section = &object.sections[index];
        let input = TextSection {
            file,
            object,
            index: SectionIndex(index),
            section,
            entries: &entries,
        };
        stop = put_at(alloc, sites, text, &input, stop)?;
    }
    Ok(stop)
}

/// Adds the sites of a section, if it goes to the text, behind an end of the line. Gives the end after it.
fn put_at(
    alloc: Global,
    sites: &mut Vec<Site>,
    text: &Text<'_, '_, '_, '_>,
    input: &TextSection<'_, '_>,
    stop: u128,
) -> Result<u128, AllocError>
    requires laid { IsLaidText text.now }
    requires among { IsAmong text.now input.now }
    requires low { walk.next stop (section_of (input.now).section.now) ≤ 9 * 2 ^ 123 }
    ensures end { IfOk result
        (λ end. end ≡ walk.next stop (section_of (input.now).section.now)) }
    ensures sites { OnOk result (sites.new.items ≡ sites.old.items
        ++ walk.section_sites (objects_of text.now) stop (input_of input.now)) }
{
    if !input.section.is_text() {
        return Ok(stop);
    }
    let end = put_section(alloc, sites, text, input, stop)?;
    Ok(end)
}
