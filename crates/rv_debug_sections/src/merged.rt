//! Merged sections.

ghost use Rattle.std.specs.Prelude.{◌≡◌, pos, ℕ, ◌-◌, ◌≤◌, List, ◌++◌, Some, true, false, length, map, replicate, IfErr, OnErr, OnOk};
ghost use Rattle.rv_elf_laws.specs.Sections.{section_count};
ghost use Rattle.rv_debug_laws.specs.Carried as laws;
ghost use Rattle.rv_debug_sections.specs.Refused.{HasNone};
ghost use Rattle.rv_debug_sections.specs.Views.{all_merged, plain_merged, plain_part, plain_source};

use crate::fault::CarryFault;
use crate::fill::relocate_all;
use crate::named::symbols_in;
use crate::names::{RANGES, TOO_LONG};
use crate::part::{MergedPart, parts_of, section_alignment};
use crate::source::Source;
use rv_debug_laws::Carried;
use rv_elf::{ElfView, SectionHeader, SectionIndex};
use std::alloc::{AllocError, Global};

/// `sh_flags`: the contents are compressed.
const SHF_COMPRESSED: u64 = 0x800;

/// A section that stands behind an executable, as it grows.
#[derive(Drop)]
pub(crate) struct Merged<'n> {
    /// Its name, with a zero behind it.
    pub name: &'n [u8],
    /// Its index in the file behind which it is to stand, if it is there already.
    pub index: Option<u16>,
    pub alignment: u64,
    pub bytes: Vec<u8>,
}

/// What stands for an address that the program has not: 1 in lists of ranges, which two zeros end.
fn lost_value(name: &[u8]) -> u8
    ensures { pos result ≡ laws.lost_value name.now }
{
    if name == RANGES { 1 } else { 0 }
}

/// Refuses a section that cannot stand at a place of a merged section.
fn check_section(header: &SectionHeader, place: u64, size: usize) -> Result<(), CarryFault>
    ensures ok { OnOk result (laws.can_add header.now place size ≡ true) }
    ensures err { OnErr result (laws.can_add header.now place size ≡ false) }
{
    if header.sh_flags / SHF_COMPRESSED % 2 == 1 {
        return Err(CarryFault::Compressed);
    }
    if place >= TOO_LONG as u64 || size >= TOO_LONG - place as usize {
        return Err(CarryFault::TooLong);
    }
    Ok(())
}

/// Adds the contents of a section at a place behind these bytes.
fn put_contents(bytes: &mut Vec<u8>, place: usize, contents: &[u8]) -> Result<(), AllocError>
    requires { length bytes.old.items ≤ place }
    ensures { OnOk result (bytes.new.items
        ≡ bytes.old.items ++ (replicate (place - length bytes.old.items) 0 ++ contents.now)) }
{
    bytes.resize(place, 0)?;
    bytes.extend_from_slice(contents)
}

/// Adds the contents of a section of an object at a place behind these bytes, with its relocations applied.
fn put_section(
    bytes: &mut Vec<u8>,
    source: &Source<'_, '_>,
    part: MergedPart,
    lost: u8,
    contents: &[u8],
) -> Result<(), CarryFault>
    requires { length bytes.old.items ≤ part.place }
    ensures grown { OnOk result ((relocated : List ℕ)
        × (laws.relocated_from (plain_source source.now) (plain_part part) (pos lost) 1
        (section_count source.now.view.file.now - 1) contents.now ≡ Some relocated)
        × (bytes.new.items ≡ bytes.old.items
        ++ (replicate (part.place - length bytes.old.items) 0 ++ relocated))) }
    ensures refuses { IfErr result (HasNone
        (laws.relocated_from (plain_source source.now) (plain_part part) (pos lost) 1
        (section_count source.now.view.file.now - 1) contents.now)) }
{
    let place = part.place as usize;
    put_contents(bytes, place, contents)?;
    if relocate_all(source, part, lost, &mut bytes[place..]) {
        Ok(())
    } else {
        Err(CarryFault::BadRelocation)
    }
}

/// Adds a part of an object to its merged section.
fn put_part(
    merged: &mut Merged<'_>,
    source: &Source<'_, '_>,
    part: MergedPart,
) -> Result<(), CarryFault>
    requires { plain_part part ≡ laws.merged_part_of source.now.view.file.now (plain_merged merged.old) }
    ensures grown { OnOk result
        (laws.with_merged_part (plain_source source.now) (plain_part part) (plain_merged merged.old)
        ≡ Some (plain_merged merged.new)) }
    ensures refuses { IfErr result (HasNone
        (laws.with_merged_part (plain_source source.now) (plain_part part) (plain_merged merged.old))) }
{
    if part.index == 0 {
        return Ok(());
    }
    let header = source.view.section_header(SectionIndex(part.index));
    let contents = source.view.contents(&header);
    check_section(&header, part.place, contents.len())?;
    let lost = lost_value(merged.name);
    put_section(&mut merged.bytes, source, part, lost, contents)?;
    merged.alignment = section_alignment(&header).max(merged.alignment);
    Ok(())
}

/// Adds the sections of an object to the merged ones.
fn put_parts(merged: &mut Vec<Merged<'_>>, source: &Source<'_, '_>) -> Result<(), CarryFault>
    requires { map plain_part source.now.parts.now
        ≡ map (laws.merged_part_of source.now.view.file.now) (all_merged merged.old.items) }
    ensures grown { OnOk result (laws.with_parts (plain_source source.now)
        (map plain_part source.now.parts.now) (all_merged merged.old.items)
        ≡ Some (all_merged merged.new.items)) }
    ensures refuses { IfErr result (HasNone (laws.with_parts (plain_source source.now)
        (map plain_part source.now.parts.now) (all_merged merged.old.items))) }
{
    for index in 0..merged.len() {
        put_part(&mut merged[index], source, source.parts[index])?;
    }
    Ok(())
}

/// Adds the debug sections of an object to the merged ones.
fn put_object(
    alloc: Global,
    merged: &mut Vec<Merged<'_>>,
    object: Carried<'_>,
) -> Result<(), CarryFault>
    ensures grown { OnOk result (laws.with_object object.entry (all_merged merged.old.items)
        ≡ Some (all_merged merged.new.items)) }
    ensures refuses { IfErr result
        (HasNone (laws.with_object object.entry (all_merged merged.old.items))) }
{
    let Ok(view) = ElfView::open(object.file) else {
        return Err(CarryFault::Damaged);
    };
    let parts = parts_of(alloc, &view, merged.as_slice())?;
    let source = Source {
        view,
        symbols: symbols_in(&view),
        addresses: object.addresses,
        parts: parts.as_slice(),
    };
    put_parts(merged, &source)
}

/// Adds the debug sections of objects to the merged ones.
pub(crate) fn put_objects(
    alloc: Global,
    merged: &mut Vec<Merged<'_>>,
    objects: &[Carried<'_>],
) -> Result<(), CarryFault>
    ensures grown { OnOk result (laws.with_objects objects.now (all_merged merged.old.items)
        ≡ Some (all_merged merged.new.items)) }
    ensures refuses { IfErr result
        (HasNone (laws.with_objects objects.now (all_merged merged.old.items))) }
{
    for object in objects {
        put_object(alloc, merged, *object)?;
    }
    Ok(())
}
