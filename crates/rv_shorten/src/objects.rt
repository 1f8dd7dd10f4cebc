//! Objects, one after another.

ghost use Rattle.std.specs.Prelude.{◌≡◌, length, map, IfOk};
ghost use Rattle.rv_size_laws.specs.Calls.{IsText};
ghost use Rattle.rv_object_types.specs.View.{object_of};
ghost use Rattle.rv_link_laws.specs.CallSites.{sites_of};
ghost use Rattle.rv_link_laws.specs.Shortened.{shortened};
ghost use Rattle.rv_shorten.specs.Cuts.{object_cuts, walked_cuts};
ghost use Rattle.rv_shorten.specs.View.{moves_by_section, short_object_of, whole_object_of};
ghost use Rattle.rv_cut_laws.specs.Walk.{AreWalked, walked};

use crate::object::ShortObject;
use crate::sites::short_sections;
use rv_object_types::Object;
use rv_size_laws::Site;
use std::alloc::{AllocError, Global};

/// The objects that are left, as the sites of the text go by.
fn shorten_all<'o, 'a>(
    alloc: Global,
    objects: &'o [Object<'a>],
    sites: &[Site],
    kept: &[u32],
) -> Result<Vec<ShortObject<'o, 'a>>, AllocError>
    requires many { length kept.now ≡ length sites.now }
    requires walked { AreWalked (map object_of objects.now) sites.now kept.now }
    ensures whole { IfOk result
        (λ left. map whole_object_of left.items ≡ map object_of objects.now) }
    ensures left { IfOk result (λ left. map short_object_of left.items
        ≡ walked (map object_of objects.now) sites.now kept.now) }
    ensures cuts { IfOk result (λ left. map moves_by_section left.items
        ≡ walked_cuts (map object_of objects.now) sites.now kept.now) }
{
    let mut left = Vec::with_capacity(alloc, objects.len())?;
    let mut at = 0;
    for object in objects {
        let (sections, count) = short_sections(alloc, &object.sections, &sites[at..], &kept[at..])?;
        left.push(ShortObject::of(object, sections))?;
        at += count;
    }
    Ok(left)
}

/// Shortens the calls of objects: of each site of their text so many bytes are kept, of a call 2 or 4 if it is shortened.
/// Bytes, relocations, symbols and rows move with what is kept. The objects are lent.
///
/// # Errors
///
/// Want of memory.
pub fn shorten<'o, 'a>(
    alloc: Global,
    objects: &'o [Object<'a>],
    sites: &[Site],
    kept: &[u32],
) -> Result<Vec<ShortObject<'o, 'a>>, AllocError>
    requires sites { sites.now ≡ sites_of (map object_of objects.now) }
    requires text { IsText sites.now }
    requires family { length kept.now ≡ length sites.now }
    ensures whole { IfOk result
        (λ left. map whole_object_of left.items ≡ map object_of objects.now) }
    ensures left { IfOk result (λ left. map short_object_of left.items
        ≡ shortened kept.now (map object_of objects.now)) }
    ensures cuts { IfOk result (λ left. map moves_by_section left.items
        ≡ object_cuts kept.now (map object_of objects.now)) }
{
    shorten_all(alloc, objects, sites, kept)
}
