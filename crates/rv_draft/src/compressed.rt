//! Whether a source has compressed code.

ghost use Rattle.std.specs.Prelude.{◌≡◌, ◌&&◌, ◌||◌, ◌∷◌, [], false};
ghost use Rattle.rv_unit.specs.Unit.{said};
ghost use Rattle.rv_source_laws.specs.Compressed as laws;
ghost use Rattle.rv_draft.specs.Compressed.{is_code_kind, names_parcel_kind};

use crate::extents::extent_at;
use rv_statement::{Operation, Plain, Statement, StatementKind};
use rv_unit::Unit;

/// Whether a statement is code: an instruction, or an alignment in a section of code.
pub(crate) fn is_code(executable: bool, kind: &StatementKind<'_>) -> bool
    ensures { result ≡ is_code_kind executable kind.now }
{
    match kind {
        StatementKind::Plain(_) | StatementKind::With(..) | StatementKind::WithFunction(..) => true,
        StatementKind::AlignsToPower(_) | StatementKind::AlignsToBytes(_) => executable,
        _ => false,
    }
}

/// Whether a statement is an instruction.
pub(crate) fn is_instruction(kind: &StatementKind<'_>) -> bool
    ensures { result ≡ is_code_kind false kind.now }
{
    is_code(false, kind)
}

/// Whether a statement names a parcel.
fn names_parcel(kind: &StatementKind<'_>) -> bool
    ensures { result ≡ names_parcel_kind kind.now }
{
    match kind {
        StatementKind::Plain(plain) => matches!(plain, Plain::Parcel(..)),
        StatementKind::With(operation, _) | StatementKind::WithFunction(operation, ..) => {
            matches!(operation, Operation::Parcel(..))
        }
        _ => false,
    }
}

/// Whether a statement is compressed code, where that is on or off: code there, and a parcel wherever it is.
fn is_compressed(compressed: bool, executable: bool, kind: &StatementKind<'_>) -> bool
    ensures { result
        ≡ ((compressed || names_parcel_kind kind.now) && is_code_kind executable kind.now) }
{
    (compressed || names_parcel(kind)) && is_code(executable, kind)
}

/// Whether a statement of the source is compressed code; each is read into the room.
pub(crate) fn has_compressed<'a>(unit: &Unit<'a>, room: &mut Statement<'a>) -> bool
    ensures { result ≡ laws.is_compressed (said unit.now ∷ []) }
{
    let statements = unit.statements();
    let places = unit.places();
    let extents = unit.sections();
    for index in 0..statements.len() {
        let statement = statements.read(index, room);
        let place = places[index];
        let extent = extent_at(extents, place.section);
        let compressed = unit.options_at(index).rvc();
        if is_compressed(compressed, extent.section.executable, &statement.kind) {
            return true;
        }
    }
    false
}
