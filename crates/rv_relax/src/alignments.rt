//! The alignments of a section.

ghost use Rattle.std.specs.Prelude.{◌≡◌, ◌-◌, ◌<◌, ◌≤◌, ◌++◌, [], ◌∷◌, true, map, reverse, IfOk, OnOk, if◌then◌else◌};
ghost use Rattle.std.specs.List.{filter};
ghost use Rattle.rv_size_laws.specs.Alignment.{aligned};
ghost use Rattle.rv_object_types.specs.Parts.{relocation_of};
ghost use Rattle.rv_object_laws.specs.Valid.{are_all_apart};
ghost use Rattle.rv_link_laws.specs.Moves.{by_place, has_padding};
ghost use Rattle.rv_cut_laws.specs.Cutting.{cut_relocation};
ghost use Rattle.rv_shorten.specs.Sections.{moves_in, short_section_of};

use rv_object_types::Relocation;
use rv_shorten::ShortSection;
use std::alloc::{AllocError, Global};

/// The bytes from an address to the next multiple of an alignment.
pub(crate) fn least_padding(alignment: u32, address: u64) -> u32
    requires { 0 < alignment }
    ensures value { result ≡ aligned alignment address - address }
    ensures low { result < alignment }
{
    let over = address % u64::from(alignment);
    if over == 0 {
        return 0;
    }
    (u64::from(alignment) - over) as u32
}

/// Adds a relocation of a section as it has moved, if it is an alignment with bytes of padding.
fn put(
    found: &mut Vec<Relocation>,
    section: &ShortSection<'_, '_>,
    relocation: &Relocation,
) -> Result<(), AllocError>
    ensures { OnOk result
        (let moved = cut_relocation (moves_in section.now) (relocation_of relocation.now) in
        map relocation_of found.new.items
        ≡ (if has_padding moved
        then map relocation_of found.old.items ++ moved ∷ []
        else map relocation_of found.old.items)) }
{
    // a move makes no alignment of another relocation, nor the reverse
    if !relocation.has_padding() {
        return Ok(());
    }
    found.push(section.relocation(relocation))?;
    Ok(())
}

/// The alignments with bytes of padding of a section.
fn with_padding(
    alloc: Global,
    section: &ShortSection<'_, '_>,
) -> Result<Vec<Relocation>, AllocError>
    ensures { IfOk result (λ found. map relocation_of found.items
        ≡ filter has_padding (short_section_of section.now).relocations) }
{
    let mut found = Vec::new(alloc);
    for relocation in &section.whole.relocations {
        put(&mut found, section, relocation)?;
    }
    Ok(found)
}

/// The alignments with bytes of padding of a section of code, from the last to the first.
pub(crate) fn alignments(
    alloc: Global,
    section: &ShortSection<'_, '_>,
) -> Result<Vec<Relocation>, AllocError>
    requires { are_all_apart (short_section_of section.now).relocations ≡ true }
    ensures { IfOk result (λ sorted. reverse (map relocation_of sorted.items)
        ≡ by_place (filter has_padding (short_section_of section.now).relocations)) }
{
    let mut sorted = with_padding(alloc, section)?;
    // linear where they stand in order already
    sorted.sort_by_key(|alignment| alignment.place)?;
    sorted.reverse();
    Ok(sorted)
}
