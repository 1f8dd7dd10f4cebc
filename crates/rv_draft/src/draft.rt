//! A source with its bytes and its open fields.
//!
//! The statements are gone over once for each question (sizes, code, items, data), so that each loop is proved by
//! itself; code is made anew each time, because keeping it would take memory for each statement. It is the same each
//! time: it has the length that sizes saw (`AreLengths`), and no later look finds a fault where an earlier one found code
//! (`IsMade`).

ghost use Rattle.std.specs.Prelude.{◌≡◌, None, IfOk, IfErr};
ghost use Rattle.rv_unit_laws.specs.Faults.{first_unit_fault};
ghost use Rattle.rv_unit.specs.Unit.{said};
ghost use Rattle.rv_assemble_laws.specs.Refusals.{code_fault};

use crate::code::code;
use crate::compressed::has_compressed;
use crate::data::{Filled, data};
use crate::field::OpenField;
use crate::items::items;
use crate::layout::Layout;
use rv_expression::SourceFault;
use rv_statement::{Statement, Statements};
use rv_unit::{Item, Unit};
use std::alloc::Global;

/// A source's statements with their sizes, and what its sections hold.
#[derive(Drop)]
pub struct Draft<'a> {
    /// Where the statements stand, in their order.
    pub items: Vec<Item>,
    /// The bytes of each section, with zeros in open fields; none where the file has none.
    pub sections: Vec<Vec<u8>>,
    /// The size of each section in bytes.
    pub ends: Vec<u32>,
    /// The open fields of sections with a place in memory, in the order of the source.
    pub fields: Vec<OpenField<'a>>,
    /// It has compressed code.
    pub rvc: bool,
}

impl<'a> Draft<'a> {
    ghost use Rattle.rv_draft.specs.Draft.{IsDraft, IsRefusedSource};

    /// The draft of a source without faulty labels and directives; or its first fault as code, or
    /// that its code is too long, at the line of the statement.
    pub fn of(alloc: Global, unit: &Unit<'a>) -> Result<Draft<'a>, SourceFault>
        requires good { first_unit_fault (said unit.now) ≡ None }
        ensures draft { IfOk result (λ d. IsDraft (said unit.now) d) }
        ensures sound { IfOk result (λ _. code_fault (said unit.now) ≡ None) }
        ensures refuses { IfErr result (λ e. IsRefusedSource (said unit.now) e) }
    {
        let mut room = Statements::room();
        Draft::read(alloc, unit, &mut room)
    }

    /// The same; in each pass the statements that a unit doesn't hold whole are made again in the room.
    fn read(
        alloc: Global,
        unit: &Unit<'a>,
        room: &mut Statement<'a>,
    ) -> Result<Draft<'a>, SourceFault>
        requires good { first_unit_fault (said unit.now) ≡ None }
        ensures draft { IfOk result (λ d. IsDraft (said unit.now) d) }
        ensures sound { IfOk result (λ _. code_fault (said unit.now) ≡ None) }
        ensures refuses { IfErr result (λ e. IsRefusedSource (said unit.now) e) }
    {
        let layout = Layout::read(alloc, unit, room)?;
        let code = code(alloc, unit, &layout, room)?;
        // the layout makes room for the items
        drop(layout);
        let (items, ends) = items(alloc, unit, code.sizes, room)?;
        let filled = data(alloc, unit, items.as_slice(), code.sections, room)?;
        let Filled { sections, fields } = filled;
        Ok(Draft {
            items,
            sections,
            ends,
            fields,
            rvc: has_compressed(unit, room),
        })
    }
}
