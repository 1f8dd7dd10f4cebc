//! Objects of which no call is cut short.

ghost use Rattle.std.specs.Prelude.{◌≡◌, [], map, IfOk};
ghost use Rattle.rv_object_types.specs.Sections.{section_of};
ghost use Rattle.rv_object_types.specs.View.{object_of};
ghost use Rattle.rv_shorten.specs.Sections.{moves_in_all, short_section_of, whole_section_of};
ghost use Rattle.rv_shorten.specs.Cuts.{no_cuts};
ghost use Rattle.rv_shorten.specs.View.{moves_by_section, short_object_of, whole_object_of};

use crate::object::ShortObject;
use crate::section::ShortSection;
use rv_object_types::{Object, Section};
use std::alloc::{AllocError, Global};

/// Sections of which nothing is cut.
fn whole_sections<'o, 'a>(
    alloc: Global,
    sections: &'o [Section<'a>],
) -> Result<Vec<ShortSection<'o, 'a>>, AllocError>
    ensures whole { IfOk result
        (λ left. map whole_section_of left.items ≡ map section_of sections.now) }
    ensures same { IfOk result
        (λ left. map short_section_of left.items ≡ map section_of sections.now) }
    ensures none { IfOk result
        (λ left. moves_in_all left.items ≡ map (λ s. []) sections.now) }
{
    let mut left = Vec::with_capacity(alloc, sections.len())?;
    for section in sections {
        left.push(ShortSection::of(section, Vec::new(alloc)))?;
    }
    Ok(left)
}

/// Objects of which nothing is cut.
///
/// # Errors
///
/// Want of memory.
pub fn whole<'o, 'a>(
    alloc: Global,
    objects: &'o [Object<'a>],
) -> Result<Vec<ShortObject<'o, 'a>>, AllocError>
    ensures whole { IfOk result
        (λ left. map whole_object_of left.items ≡ map object_of objects.now) }
    ensures same { IfOk result
        (λ left. map short_object_of left.items ≡ map object_of objects.now) }
    ensures none { IfOk result
        (λ left. map moves_by_section left.items ≡ no_cuts (map object_of objects.now)) }
{
    let mut left = Vec::with_capacity(alloc, objects.len())?;
    for object in objects {
        let sections = whole_sections(alloc, &object.sections)?;
        left.push(ShortObject::of(object, sections))?;
    }
    Ok(left)
}
