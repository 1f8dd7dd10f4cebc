//! The open fields of code, in the order of the source.
//!
//! Where the words of a statement do not tell its fields, its code is made again, since to keep it would take memory for
//! each statement. It is the code that its section has.
//!
//! Source: System V gABI, "Relocation"; RISC-V ELF psABI, "Relocations", "Linker Relaxation".

ghost use Rattle.std.specs.Prelude.{◌≡◌, ◌≤◌, false, ◌+◌, ◌++◌, List, [], ◌∷◌, map, length, None, Some, OnOk, if◌then◌else◌};
ghost use Rattle.rv_isa.specs.declared.kind.Kind.TheVariants as kinds;
ghost use Rattle.rv_statement.specs.View.{statement_kind};
ghost use Rattle.rv_unit_laws.specs.Tables.{tables, longest_section};
ghost use Rattle.rv_unit.specs.Unit.{said};
ghost use Rattle.rv_source_laws.specs.Located.{Located};
ghost use Rattle.rv_assemble_laws.specs.CodeFields.{relax_fields};
ghost use Rattle.rv_assemble_laws.specs.Fields.{field_at, fields_from};
ghost use Rattle.rv_assemble_laws.specs.Templates.{align_field, open_at};
ghost use Rattle.rv_instruction.specs.declared.encoded.Coded.{Coded as SpecCoded};
ghost use Rattle.rv_instruction.specs.Code.{encoded_instructions, shape_in, is_call_field as of_call};
ghost use Rattle.rv_instruction.specs.Opened.{opens_of, open_of};
ghost use Rattle.rv_draft.specs.Contents.{bytes_coded, IsCoded};
ghost use Rattle.rv_draft.specs.Coded.{IsCodedAt, HasBytes};
ghost use Rattle.rv_draft.specs.DataParts as parts;
ghost use Rattle.rv_draft.specs.Draft.{field_of};
ghost use Rattle.rv_draft.specs.Lone.{lone_shape};
ghost use Rattle.rv_draft.specs.Seated.{laid_of};
ghost use Rattle.rv_draft.specs.Spots.{value_in, kind_opens, pair_opens, own_opens, opens_in, fields_coded, code_fields, AddsAt, AtOwn, AtSpot, HasBytesOf, IsAtSpot, IsMadeAt};

use crate::code::asked;
use crate::data::Spot;
use crate::field::OpenField;
use crate::lone::{is_call, lone_kind};
use crate::widths::width;
use rv_instruction::{Code, Coded, Encoded, Reference, code as code_of, is_closed, open_field};
use rv_isa::Kind;
use rv_statement::{Statement, StatementKind};
use rv_unit::Item;
use std::alloc::AllocError;

/// How the code of a statement is written: whether compressed code is on, and whether the linker
/// may relax it.
#[derive(Clone, Copy, Drop)]
pub(crate) struct Choices {
    pub(crate) compressed: bool,
    pub(crate) relax: bool,
}

// ---- one field

/// The field of a kind at a place, by what it takes.
fn taking<'a>(section: u32, place: u32, kind: Kind, found: Reference<'a>) -> OpenField<'a>
    ensures { field_of result ≡ field_at section place (open_of kind found.entry) }
{
    OpenField {
        section,
        place,
        kind,
        ordinal: found.ordinal,
        symbol: Some(found.symbol),
        addend: found.addend,
    }
}

/// Adds a field.
fn push<'a>(fields: &mut Vec<OpenField<'a>>, field: OpenField<'a>) -> Result<(), AllocError>
    ensures { OnOk result (map field_of fields.new.items
        ≡ map field_of fields.old.items ++ field_of field.entry ∷ []) }
{
    fields.push(field)?;
    Ok(())
}

/// Adds the field of a kind at a place, by what it takes, where it takes something.
fn put_found<'a>(
    fields: &mut Vec<OpenField<'a>>,
    section: u32,
    place: u32,
    kind: Kind,
    found: Option<Reference<'a>>,
) -> Result<(), AllocError>
    ensures { OnOk result (map field_of fields.new.items
        ≡ map field_of fields.old.items
        ++ map (field_at section place) (opens_of kind found.entry)) }
{
    match found {
        Some(found) => {
            let field = taking(section, place, kind, found);
            push(fields, field)?;
            Ok(())
        }
        None => Ok(()),
    }
}

/// Adds the field of a kind at a place.
fn put_field<'a>(
    fields: &mut Vec<OpenField<'a>>,
    spot: &Spot<'_, '_, 'a>,
    statement: &Statement<'a>,
    place: u32,
    kind: Kind,
) -> Result<(), AllocError>
    ensures { OnOk result (AtOwn spot.now (λ index. AddsAt spot.now place fields.old.items
        fields.new.items (own_opens spot.now index (statement_kind (statement.now).kind) kind))) }
{
    let found = open_field(statement, spot.scope, spot.place, spot.ordinal, kind);
    put_found(fields, spot.place.section, place, kind, found)
}

/// The same where there is a kind.
fn put_kind<'a>(
    fields: &mut Vec<OpenField<'a>>,
    spot: &Spot<'_, '_, 'a>,
    statement: &Statement<'a>,
    place: u32,
    kind: Option<Kind>,
) -> Result<(), AllocError>
    ensures { OnOk result (AtOwn spot.now (λ index. AddsAt spot.now place fields.old.items
        fields.new.items
        (kind_opens (own_opens spot.now index (statement_kind (statement.now).kind)) kind))) }
{
    match kind {
        Some(kind) => put_field(fields, spot, statement, place, kind),
        None => Ok(()),
    }
}

// ---- calls

/// That the linker may shorten the call at a place.
fn relaxed<'a>(spot: &Spot<'_, '_, 'a>, place: u32) -> OpenField<'a>
    ensures { field_of result ≡ field_at (spot.now).place.section place
        (open_at kinds.Relax (spot.now).ordinal None 0) }
{
    OpenField {
        section: spot.place.section,
        place,
        kind: Kind::Relax,
        ordinal: spot.ordinal,
        symbol: None,
        addend: 0,
    }
}

/// Adds that the linker may shorten the call at a place, where it may.
fn put_relax<'a>(
    fields: &mut Vec<OpenField<'a>>,
    spot: &Spot<'_, '_, 'a>,
    relax: bool,
    place: u32,
) -> Result<(), AllocError>
    ensures { OnOk result (AddsAt spot.now place fields.old.items fields.new.items
        (relax_fields relax (spot.now).ordinal)) }
{
    if !relax {
        return Ok(());
    }
    push(fields, relaxed(spot, place))
}

/// The same where a part is two instructions.
fn put_call<'a>(
    fields: &mut Vec<OpenField<'a>>,
    spot: &Spot<'_, '_, 'a>,
    relax: bool,
    place: u32,
    encoded: Encoded,
) -> Result<(), AllocError>
    ensures { OnOk result (AddsAt spot.now place fields.old.items fields.new.items
        (pair_opens (relax_fields relax (spot.now).ordinal) (encoded_instructions encoded))) }
{
    match encoded {
        Encoded::Parcel(_) => Ok(()),
        Encoded::Word(_) => Ok(()),
        Encoded::Pair(..) => put_relax(fields, spot, relax, place),
    }
}

/// The same where a part has the field of this kind.
fn put_call_of<'a>(
    fields: &mut Vec<OpenField<'a>>,
    spot: &Spot<'_, '_, 'a>,
    relax: bool,
    place: u32,
    kind: Kind,
) -> Result<(), AllocError>
    ensures { OnOk result (AddsAt spot.now place fields.old.items fields.new.items
        (pair_opens (relax_fields relax (spot.now).ordinal)
        (if of_call (Some kind) then 2 else 1))) }
{
    if !is_call(&kind) {
        return Ok(());
    }
    put_relax(fields, spot, relax, place)
}

// ---- statements

/// Adds the fields of a statement whose code is one part, by the kind of its field.
fn put_lone<'a>(
    fields: &mut Vec<OpenField<'a>>,
    spot: &Spot<'_, '_, 'a>,
    statement: &Statement<'a>,
    relax: bool,
    place: u32,
    kind: Kind,
) -> Result<(), AllocError>
    ensures { OnOk result (AtOwn spot.now (λ index. AddsAt spot.now place fields.old.items
        fields.new.items
        (opens_in spot.now index (statement_kind (statement.now).kind) relax
        (lone_shape kind)))) }
{
    put_field(fields, spot, statement, place, kind)?;
    put_call_of(fields, spot, relax, place, kind)?;
    Ok(())
}

/// Adds the fields of a part of a statement's code at a place.
fn put_part<'a>(
    fields: &mut Vec<OpenField<'a>>,
    spot: &Spot<'_, '_, 'a>,
    statement: &Statement<'a>,
    relax: bool,
    place: u32,
    part: &Coded,
) -> Result<(), AllocError>
    ensures { OnOk result (AtOwn spot.now (λ index. AddsAt spot.now place fields.old.items
        fields.new.items
        (opens_in spot.now index (statement_kind (statement.now).kind) relax
        (shape_in part.now)))) }
{
    put_kind(fields, spot, statement, place, part.kind)?;
    put_call(fields, spot, relax, place, part.encoded)?;
    Ok(())
}

/// Adds the fields of a statement's code, part by part.
fn put_parts<'a>(
    fields: &mut Vec<OpenField<'a>>,
    spot: &Spot<'_, '_, 'a>,
    statement: &Statement<'a>,
    relax: bool,
    offset: u32,
    code: &[Coded],
) -> Result<(), AllocError>
    requires { offset + length (bytes_coded code.now) ≤ longest_section }
    ensures { OnOk result (AtOwn spot.now (λ index. map field_of fields.new.items
        ≡ map field_of fields.old.items
        ++ fields_coded spot.now index (statement_kind (statement.now).kind) relax offset
        code.now)) }
{
    let mut place = offset;
    for part in code {
        put_part(fields, spot, statement, relax, place, part)?;
        place += u32::from(width(part.encoded));
    }
    Ok(())
}

/// The code of a statement in a section of code, which was made in so many bytes before.
fn code_in_bytes<'a>(
    statement: &Statement<'a>,
    spot: &Spot<'_, '_, 'a>,
    compressed: bool,
    bytes: u32,
) -> Code
    requires made { IsMadeAt spot.now (statement_kind (statement.now).kind) compressed bytes }
    ensures long { HasBytes result.items bytes (statement_kind (statement.now).kind) }
    ensures fits { length (bytes_coded result.items) ≤ bytes }
    ensures code { AtSpot spot.now (λ index. IsCoded (λ e. value_in spot.now index e) compressed
        (statement_kind (statement.now).kind) result.items) }
{
    match code_of(statement, spot.scope, spot.place, compressed, asked(bytes)) {
        Ok(found) => found,
        Err(_) => unreachable!(),
    }
}

/// Whether a statement is an alignment.
fn is_alignment(kind: &StatementKind<'_>) -> bool
    ensures { result ≡ parts.is_alignment (statement_kind kind.now) }
{
    matches!(
        kind,
        StatementKind::AlignsToPower(_) | StatementKind::AlignsToBytes(_)
    )
}

/// The field of the padding of an alignment in code.
fn padding_field<'a>(spot: &Spot<'_, '_, 'a>, item: Item) -> OpenField<'a>
    ensures { field_of result ≡ field_at (spot.now).place.section item.offset
        (align_field (spot.now).ordinal item.bytes) }
{
    OpenField {
        section: spot.place.section,
        place: item.offset,
        kind: Kind::Align,
        ordinal: spot.ordinal,
        symbol: None,
        addend: i64::from(item.bytes),
    }
}

/// Adds the field of the padding of an alignment in code, where it has some.
fn put_padding<'a>(
    fields: &mut Vec<OpenField<'a>>,
    spot: &Spot<'_, '_, 'a>,
    item: Item,
) -> Result<(), AllocError>
    ensures { OnOk result (map field_of fields.new.items
        ≡ map field_of fields.old.items ++ fields_from (spot.now).place.section item.offset
        (parts.padding_said (spot.now).ordinal item.bytes)) }
{
    if item.bytes == 0 {
        return Ok(());
    }
    push(fields, padding_field(spot, item))
}

/// Adds the fields of an instruction, where it has the bytes of its code.
fn put_instruction<'a>(
    fields: &mut Vec<OpenField<'a>>,
    spot: &Spot<'_, '_, 'a>,
    statement: &Statement<'a>,
    choices: Choices,
    item: Item,
) -> Result<(), AllocError>
    requires fits { item.offset + item.bytes ≤ longest_section }
    requires made { IsMadeAt spot.now (statement_kind (statement.now).kind) choices.compressed
        item.bytes }
    ensures { OnOk result (AtSpot spot.now (λ index. (l : Located) (coded : List SpecCoded)
        → IsAtSpot spot.now index (statement_kind (statement.now).kind) choices l
        → parts.is_alignment l.kind ≡ false → HasBytesOf coded item l.kind
        → IsCodedAt (tables (said ((spot.now).scope.now).unit.now)) l coded
        → map field_of fields.new.items
        ≡ map field_of fields.old.items ++ fields_from (spot.now).place.section item.offset
        (parts.code_said (tables (said ((spot.now).scope.now).unit.now)) (laid_of l item coded)
        l.kind))) }
{
    if is_closed(&statement.kind) {
        return Ok(());
    }
    if let Some(kind) = lone_kind(&statement.kind, item.bytes) {
        return put_lone(fields, spot, statement, choices.relax, item.offset, kind);
    }
    let found = code_in_bytes(statement, spot, choices.compressed, item.bytes);
    put_parts(
        fields,
        spot,
        statement,
        choices.relax,
        item.offset,
        found.as_slice(),
    )
}

/// Adds the fields of a statement in a section of code, where it has the bytes of its code.
pub(crate) fn put_code<'a>(
    fields: &mut Vec<OpenField<'a>>,
    spot: &Spot<'_, '_, 'a>,
    statement: &Statement<'a>,
    choices: Choices,
    item: Item,
) -> Result<(), AllocError>
    requires fits { item.offset + item.bytes ≤ longest_section }
    requires made { IsMadeAt spot.now (statement_kind (statement.now).kind) choices.compressed
        item.bytes }
    ensures { OnOk result (AtSpot spot.now (λ index. (l : Located) (coded : List SpecCoded)
        → IsAtSpot spot.now index (statement_kind (statement.now).kind) choices l
        → HasBytesOf coded item l.kind
        → IsCodedAt (tables (said ((spot.now).scope.now).unit.now)) l coded
        → map field_of fields.new.items
        ≡ map field_of fields.old.items ++ code_fields spot.now l item coded)) }
{
    if !spot.loaded {
        return Ok(());
    }
    if is_alignment(&statement.kind) {
        put_padding(fields, spot, item)?;
        return Ok(());
    }
    put_instruction(fields, spot, statement, choices, item)
}
