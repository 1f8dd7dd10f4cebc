//! An object of which calls are cut short.
//!
//! An object is lent with what is cut of its calls, so that each byte moves once, from its object into the program. What
//! it represents is `short_object_of`; nothing of it is made.

ghost use Rattle.std.specs.Prelude.{◌≡◌, true, IsTrue, map};
ghost use Rattle.rv_object_laws.specs.Valid.{are_rows};
ghost use Rattle.rv_object_types.specs.View.{object_of};
ghost use Rattle.rv_shorten.specs.Cut.{are_in_order, move_of};
ghost use Rattle.rv_cut_laws.specs.Cutting as cutting;
ghost use Rattle.rv_shorten.specs.Sections.{moves_in_all, short_section_of, whole_section_of};

use crate::cut::Cut;
use crate::offsets::{lost, new_offset};
use crate::pieces::dropped_before;
use crate::section::ShortSection;
use rv_object_types::{Definition, Object, Row};

/// An object, less what is cut of its calls. It is lent, and nothing of it is copied: what moves is told when it is asked for.
#[derive(Drop)]
pub struct ShortObject<'o, 'a> {
    /// The object as it was. The names and bindings of its symbols stay, and whether it has compressed code.
    pub whole: &'o Object<'a>,
    /// Its sections, less what is cut of them.
    pub sections: Vec<ShortSection<'o, 'a>>,
    /// Each row lies in a section that has a place in memory.
    pub ghost lie: { IsTrue (are_rows (map short_section_of sections.items)
        (map (cutting.cut_row_of (moves_in_all sections.items)) (whole.now).rows.items)) },
}

/// The cuts of the section of an index; none past the end.
fn cuts_of<'s>(sections: &'s [ShortSection<'_, '_>], index: u32) -> &'s [Cut]
    ensures order { are_in_order 0 0 result.now ≡ true }
    ensures value { map move_of result.now ≡ cutting.moves_at (moves_in_all sections.now) index }
{
    match sections.get(index as usize) {
        Some(section) => section.cuts.as_slice(),
        None => &[],
    }
}

/// Where a row stands afterwards.
fn moved_row(row: Row, cuts: &[Cut]) -> Row
    requires { are_in_order 0 0 cuts.now ≡ true }
    ensures { result ≡ cutting.cut_row (map move_of cuts.now) row }
{
    let end = row.offset.saturating_add(u64::from(row.bytes));
    let before = dropped_before(cuts, row.offset);
    let within = dropped_before(cuts, end) - before;
    let lost = lost(cuts, row.offset, row.bytes);
    Row {
        line: row.line,
        ordinal: row.ordinal,
        section: row.section,
        offset: row.offset - before,
        bytes: (u64::from(row.bytes) - within) as u32,
        instructions: u64::from(row.instructions).saturating_sub(lost) as u32,
    }
}

impl<'o, 'a> ShortObject<'o, 'a> {
    ghost use Rattle.rv_shorten.specs.View.{moves_by_section, short_object_of, whole_object_of};

    /// An object of which these sections are left.
    pub(crate) fn of(
        whole: &'o Object<'a>,
        sections: Vec<ShortSection<'o, 'a>>,
    ) -> ShortObject<'o, 'a>
        requires whole { map whole_section_of sections.items ≡ (object_of whole.now).sections }
        requires cuts { cutting.AllCut (object_of whole.now).sections
            (moves_in_all sections.items) }
        requires left { map short_section_of sections.items
            ≡ cutting.cut_sections (moves_in_all sections.items) (object_of whole.now).sections }
        ensures whole { whole_object_of result ≡ object_of whole.now }
        ensures left { short_object_of result
            ≡ cutting.cut_object (moves_in_all sections.entry.items) (object_of whole.now) }
        ensures cuts { moves_by_section result ≡ moves_in_all sections.entry.items }
    {
        ShortObject { whole, sections }
    }

    /// What one of its symbols is afterwards.
    pub fn definition(&self, definition: Definition) -> Definition
        ensures { result
            ≡ cutting.cut_definition (moves_in_all (self.now).sections.items) definition }
    {
        match definition {
            Definition::InSection(section, offset) => {
                Definition::InSection(
                    section,
                    new_offset(cuts_of(&self.sections, section), offset),
                )
            }
            Definition::Undefined => Definition::Undefined,
            Definition::Absolute(number) => Definition::Absolute(number),
            Definition::Skipped(value) => Definition::Skipped(value),
        }
    }

    /// Where one of its rows stands afterwards.
    pub fn row(&self, row: &Row) -> Row
        ensures { result
            ≡ cutting.cut_row_of (moves_in_all (self.now).sections.items) row.now }
    {
        moved_row(*row, cuts_of(&self.sections, row.section))
    }
}
