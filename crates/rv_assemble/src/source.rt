//! From a source to its object.

ghost use Rattle.std.specs.Prelude.{◌≡◌, List, None, IfOk, IfErr};
ghost use Rattle.rv_statement_laws.specs.Statement.{Statement};
ghost use Rattle.rv_parse_laws.specs.Reading.{Reads};
ghost use Rattle.rv_unit_laws.specs.Faults.{first_unit_fault};
ghost use Rattle.rv_unit.specs.Unit.{said};
ghost use Rattle.rv_object_types.specs.View.{object_of};
ghost use Rattle.rv_assemble_laws.specs.IsObjectOf.{IsObjectOf};
ghost use Rattle.rv_assemble_laws.specs.Refusals.{statements_fault};
ghost use Rattle.rv_assemble_laws.specs.ShownNames.{HasNames};
ghost use Rattle.rv_assemble_laws.specs.Small.{AreSmall};
ghost use Rattle.rv_draft.specs.Draft.{IsRefusedSource};
ghost use Rattle.rv_assemble_laws.specs.FirstFault.{IsFirstFault};
ghost use Rattle.rv_assemble.specs.KeptNames.{OpenKept};

use crate::object::object;
use crate::symbols::table;
use rv_assemble_laws::{names_are_shown, statements_are_small};
use rv_draft::Draft;
use rv_expression::SourceFault;
use rv_object_types::Object;
use rv_parse::parse_compact;
use rv_unit::Unit;
use std::alloc::Global;

/// The object of a source. A fault names its line, from 1, and is the first one: those of the text
/// come before those of labels and directives, those before the ones of code, and sizes come last.
pub fn assemble(alloc: Global, source: &[u8]) -> Result<Object<'_>, SourceFault>
    ensures object { IfOk result (λ o.
        (ss : List Statement) × Reads source.now ss × (statements_fault ss ≡ None)
        × IsObjectOf ss (object_of o)) }
    ensures refuses { IfErr result (λ fault. IsFirstFault source.now fault) }
{
    let statements = parse_compact(alloc, source)?;
    let unit = Unit::of(alloc, statements)?;
    // its names can be shown, and are few
    names_are_shown();
    statements_are_small();
    assembled(alloc, unit)
}

/// The object of a unit.
fn assembled<'a>(alloc: Global, unit: Unit<'a>) -> Result<Object<'a>, SourceFault>
    requires good { first_unit_fault (said unit) ≡ None }
    requires names { HasNames (said unit) }
    requires small { AreSmall (said unit) }
    requires kept { OpenKept (said unit) }
    ensures sound { IfOk result (λ o. statements_fault (said unit.entry) ≡ None) }
    ensures object { IfOk result (λ o. IsObjectOf (said unit.entry) (object_of o)) }
    ensures refuses { IfErr result (λ fault. IsRefusedSource (said unit.entry) fault) }
{
    let draft = Draft::of(alloc, &unit)?;
    let table = table(alloc, &unit, &draft)?;
    let object = object(alloc, unit, draft, table)?;
    Ok(object)
}
