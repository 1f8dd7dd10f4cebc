//! The bytes of a source's data, and the fields that stay open.
//!
//! This is a pass of its own over the statements, as each question about them has one, since a short loop is proved by
//! itself.
//! A field that stays open has zeros in the bytes, and the linker writes its number there.

ghost use Rattle.std.specs.Prelude.{◌≡◌, ℕ, ◌<◌, ◌≤◌, ◌+◌, ◌*◌, ◌++◌, ◌^◌, pos, List, [], ◌∷◌, true, false, Some, flat_map, map, length, slice_get, IfOk, OnOk, if◌then◌else◌};
ghost use Rattle.std.specs.Global.{Vec};
ghost use Rattle.std.specs.Int.{w64, int_wrap};
ghost use Rattle.rv_isa_laws.specs.Bytes.{little_endian, zeros};
ghost use Rattle.rv_expression.specs.Expr.{tree_of_expr};
ghost use Rattle.rv_expression.specs.Nodes.{symbol_of};
ghost use Rattle.rv_statement_laws.specs.Widths.{width_bytes};
ghost use Rattle.rv_statement.specs.View.{quoted, statement_kind, statement_of};
ghost use Rattle.rv_unit_laws.specs.Tables.{at_start, tables, string_bytes, longest_section};
ghost use Rattle.rv_unit.specs.Sections.{section_of};
ghost use Rattle.rv_unit.specs.Faults.{ForValue};
ghost use Rattle.rv_unit.specs.Unit.{said, IsScope};
ghost use Rattle.rv_source_laws.specs.Located.{located_from};
ghost use Rattle.rv_assemble_laws.specs.Templates as laws;
ghost use Rattle.rv_assemble_laws.specs.Templates.{opened, value_bytes};
ghost use Rattle.rv_assemble_laws.specs.LaidStatements.{part_bytes};
ghost use Rattle.rv_assemble_laws.specs.Fields.{field_at};
ghost use Rattle.rv_instruction.specs.declared.encoded.Coded.{Coded};
ghost use Rattle.rv_draft.specs.DataParts.{is_filled, AreMade, HasRoomFor, HaveCode, IsLaid, IsDataTo, IsData};
ghost use Rattle.rv_draft.specs.Draft.{field_of};
ghost use Rattle.rv_draft.specs.Spots.{value_in, parts_in, said_in, own_fields, fields_in, AddsBytes, AddsFields, AddsParts};

use crate::field::OpenField;
use crate::fields::{Choices, put_code};
use rv_expression::{Expr, SourceFault, Symbol, Value, append_string};
use rv_isa::Kind;
use rv_statement::{Statement, StatementKind};
use rv_statement_laws::Width;
use rv_unit::{Item, Scope, Section, SectionOffset, Unit};
use std::alloc::{AllocError, Global};

/// What an expression is worth, or its fault.
type Outcome<'a> = Result<Value<'a>, SourceFault>;

/// A statement of data: the names as it sees them, and where it stands.
#[derive(Clone, Copy, Drop)]
pub(crate) struct Spot<'s, 'u, 'a> {
    pub(crate) scope: &'s Scope<'u, 'a>,
    pub(crate) place: SectionOffset,
    pub(crate) ordinal: u32,
    /// Its section has a place in memory.
    pub(crate) loaded: bool,
}

// ---- bytes

/// The bytes of a width.
fn width_in_bytes(width: Width) -> u32
    ensures value { result ≡ width_bytes width }
    ensures low { result ≤ 8 }
{
    match width {
        Width::Byte => 1,
        Width::Half => 2,
        Width::Word => 4,
        Width::Double => 8,
    }
}

/// Adds a number in the bytes of its width, the lowest first.
#[inline(always)]
fn put_number(bytes: &mut Vec<u8>, width: Width, number: u64) -> Result<(), AllocError>
    ensures { OnOk result
        (bytes.new.items ≡ bytes.old.items ++ little_endian (width_bytes width) number) }
{
    let all = number.to_le_bytes();
    match width {
        Width::Byte => bytes.extend_from_slice(&all[..1]),
        Width::Half => bytes.extend_from_slice(&all[..2]),
        Width::Word => bytes.extend_from_slice(&all[..4]),
        Width::Double => bytes.extend_from_slice(&all[..]),
    }
}

/// Adds zero bytes.
fn put_zeros(bytes: &mut Vec<u8>, count: u32) -> Result<(), AllocError>
    ensures { OnOk result (bytes.new.items ≡ bytes.old.items ++ zeros count) }
{
    for _ in 0..count {
        bytes.push(0)?;
    }
    Ok(())
}

/// Adds a string, where asked with a zero byte after it.
fn put_string(bytes: &mut Vec<u8>, ended: bool, text: &[u8]) -> Result<(), AllocError>
    ensures { OnOk result
        (bytes.new.items ≡ bytes.old.items ++ string_bytes ended (quoted text.entry ∷ [])) }
{
    append_string(text, bytes)?;
    if !ended {
        return Ok(());
    }
    bytes.push(0)?;
    Ok(())
}

/// Adds strings, where asked with a zero byte after each.
fn put_strings(bytes: &mut Vec<u8>, ended: bool, strings: &[&[u8]]) -> Result<(), AllocError>
    ensures { OnOk result
        (bytes.new.items ≡ bytes.old.items ++ string_bytes ended (map quoted strings.now)) }
{
    for text in strings {
        put_string(bytes, ended, *text)?;
    }
    Ok(())
}

/// The number that stands in the bytes of a value: a constant, else 0, which the linker replaces.
#[tactic(auto, using(crate::proofs::WidthsLemmas::no_number))]
fn number_in(value: &Outcome<'_>) -> u64
    ensures { ForValue value.now (λ v. (width : Width)
        → little_endian (width_bytes width) result ≡ value_bytes (width_bytes width) v) }
{
    match value {
        Ok(Value::Constant(number)) => *number,
        Ok(Value::Symbolic(..)) => 0,
        Ok(Value::Difference(..)) => 0,
        // a faulty value was refused before
        Err(_) => 0,
    }
}

/// Adds the bytes of a value: a constant, else zeros.
fn put_bytes(bytes: &mut Vec<u8>, width: Width, value: &Outcome<'_>) -> Result<(), AllocError>
    ensures { OnOk result (ForValue value.now
        (λ v. bytes.new.items ≡ bytes.old.items ++ value_bytes (width_bytes width) v)) }
{
    put_number(bytes, width, number_in(value))
}

// ---- fields

/// The kind of an address in the bytes of a width.
fn absolute_kind(width: Width) -> Kind
    ensures { result ≡ laws.absolute_kind (width_bytes width) }
{
    match width {
        Width::Byte => Kind::Abs64,
        Width::Half => Kind::Abs64,
        Width::Word => Kind::Abs32,
        Width::Double => Kind::Abs64,
    }
}

/// The kind of what is added in the bytes of a width.
fn add_kind(width: Width) -> Kind
    ensures { result ≡ laws.add_kind (width_bytes width) }
{
    match width {
        Width::Byte => Kind::Add8,
        Width::Half => Kind::Add16,
        Width::Word => Kind::Add32,
        Width::Double => Kind::Add64,
    }
}

/// The kind of what is taken off in the bytes of a width.
fn subtract_kind(width: Width) -> Kind
    ensures { result ≡ laws.subtract_kind (width_bytes width) }
{
    match width {
        Width::Byte => Kind::Sub8,
        Width::Half => Kind::Sub16,
        Width::Word => Kind::Sub32,
        Width::Double => Kind::Sub64,
    }
}

/// What is added, as a number that wraps.
fn addend(plus: u64) -> i64
    ensures { result ≡ int_wrap w64 (pos plus) }
{
    plus.cast_signed()
}

/// A field of a statement, at a place of its section.
fn open_field<'a>(
    spot: &Spot<'_, '_, 'a>,
    place: u32,
    kind: Kind,
    symbol: Symbol<'a>,
    plus: u64,
) -> OpenField<'a>
    ensures { field_of result ≡ field_at (spot.now).place.section place
        (opened (spot.now).ordinal kind (symbol_of symbol.entry) plus) }
{
    OpenField {
        section: spot.place.section,
        place,
        kind,
        ordinal: spot.ordinal,
        symbol: Some(symbol),
        addend: addend(plus),
    }
}

/// Adds a field.
fn put_field<'a>(fields: &mut Vec<OpenField<'a>>, field: OpenField<'a>) -> Result<(), AllocError>
    ensures { OnOk result (map field_of fields.new.items
        ≡ map field_of fields.old.items ++ field_of field.entry ∷ []) }
{
    fields.push(field)?;
    Ok(())
}

/// Adds the fields of a difference: what is added, and what is taken off.
fn put_difference<'a>(
    fields: &mut Vec<OpenField<'a>>,
    added: OpenField<'a>,
    taken: OpenField<'a>,
) -> Result<(), AllocError>
    ensures { OnOk result (map field_of fields.new.items
        ≡ map field_of fields.old.items ++ field_of added.entry ∷ field_of taken.entry ∷ []) }
{
    put_field(fields, added)?;
    put_field(fields, taken)
}

/// Adds the fields of a value at a place.
fn put_fields<'a>(
    fields: &mut Vec<OpenField<'a>>,
    spot: &Spot<'_, '_, 'a>,
    place: u32,
    width: Width,
    value: &Outcome<'a>,
) -> Result<(), AllocError>
    ensures { OnOk result (ForValue value.now (λ v. map field_of fields.new.items
        ≡ map field_of fields.old.items ++ own_fields spot.now place (width_bytes width) v)) }
{
    match value {
        Ok(Value::Constant(_)) => Ok(()),
        Ok(Value::Symbolic(symbol, plus)) => {
            let kind = absolute_kind(width);
            put_field(fields, open_field(spot, place, kind, *symbol, *plus))
        }
        Ok(Value::Difference(symbol, minus, plus)) => {
            let added = open_field(spot, place, add_kind(width), *symbol, *plus);
            let taken = open_field(spot, place, subtract_kind(width), *minus, 0);
            put_difference(fields, added, taken)
        }
        Err(_) => Ok(()),
    }
}

// ---- statements

/// Adds a value that is looked up: its bytes, and its fields where its section is loaded.
fn put_evaluated<'a>(
    bytes: &mut Vec<u8>,
    fields: &mut Vec<OpenField<'a>>,
    spot: &Spot<'_, '_, 'a>,
    place: u32,
    width: Width,
    expression: &Expr<'a>,
) -> Result<(), AllocError>
    ensures bytes { OnOk result (AddsBytes spot.now bytes.old.items bytes.new.items
        (λ index. value_bytes (width_bytes width)
        (value_in spot.now index (tree_of_expr expression.now)))) }
    ensures fields { OnOk result (AddsFields spot.now fields.old.items fields.new.items
        (λ index. if (spot.now).loaded then own_fields spot.now place (width_bytes width)
        (value_in spot.now index (tree_of_expr expression.now)) else [])) }
{
    let value = spot.scope.value(spot.place, expression, 0);
    put_bytes(bytes, width, &value)?;
    if !spot.loaded {
        return Ok(());
    }
    put_fields(fields, spot, place, width, &value)
}

/// Adds a value: its bytes, and its fields where its section is loaded. Most are numbers, and have none.
#[inline(always)]
fn put_value<'a>(
    bytes: &mut Vec<u8>,
    fields: &mut Vec<OpenField<'a>>,
    spot: &Spot<'_, '_, 'a>,
    place: u32,
    width: Width,
    expression: &Expr<'a>,
) -> Result<(), AllocError>
    ensures bytes { OnOk result (AddsBytes spot.now bytes.old.items bytes.new.items
        (λ index. value_bytes (width_bytes width)
        (value_in spot.now index (tree_of_expr expression.now)))) }
    ensures fields { OnOk result (AddsFields spot.now fields.old.items fields.new.items
        (λ index. if (spot.now).loaded then own_fields spot.now place (width_bytes width)
        (value_in spot.now index (tree_of_expr expression.now)) else [])) }
{
    match expression {
        Expr::Number(number) => put_number(bytes, width, *number),
        _ => put_evaluated(bytes, fields, spot, place, width, expression),
    }
}

/// Adds values from a place on.
fn put_values<'a>(
    bytes: &mut Vec<u8>,
    fields: &mut Vec<OpenField<'a>>,
    spot: &Spot<'_, '_, 'a>,
    offset: u32,
    width: Width,
    values: &[Expr<'a>],
) -> Result<(), AllocError>
    requires { offset + width_bytes width * length values.now ≤ longest_section }
    ensures bytes { OnOk result (AddsBytes spot.now bytes.old.items bytes.new.items
        (λ index. flat_map (λ e. value_bytes (width_bytes width) (value_in spot.now index e))
        (map tree_of_expr values.now))) }
    ensures fields { OnOk result (AddsFields spot.now fields.old.items fields.new.items
        (λ index. fields_in spot.now offset
        (parts_in spot.now index (width_bytes width) (map tree_of_expr values.now)))) }
{
    let mut place = offset;
    for value in values {
        put_value(bytes, fields, spot, place, width, value)?;
        place += width_in_bytes(width);
    }
    Ok(())
}

/// Adds the one value of a statement.
fn put_one<'a>(
    bytes: &mut Vec<u8>,
    fields: &mut Vec<OpenField<'a>>,
    spot: &Spot<'_, '_, 'a>,
    offset: u32,
    width: Width,
    value: &Expr<'a>,
) -> Result<(), AllocError>
    ensures bytes { OnOk result (AddsBytes spot.now bytes.old.items bytes.new.items
        (λ index. flat_map (λ e. value_bytes (width_bytes width) (value_in spot.now index e))
        (tree_of_expr value.now ∷ []))) }
    ensures fields { OnOk result (AddsFields spot.now fields.old.items fields.new.items
        (λ index. fields_in spot.now offset
        (parts_in spot.now index (width_bytes width) (tree_of_expr value.now ∷ [])))) }
{
    put_value(bytes, fields, spot, offset, width, value)
}

/// Adds what a statement contributes to a section of data after `offset` bytes; an alignment, or a count of zeros, has
/// `count` bytes.
fn put_data<'a>(
    bytes: &mut Vec<u8>,
    fields: &mut Vec<OpenField<'a>>,
    spot: &Spot<'_, '_, 'a>,
    kind: &StatementKind<'a>,
    offset: u32,
    count: u32,
) -> Result<(), AllocError>
    requires { HasRoomFor (statement_kind kind.now) offset }
    ensures bytes { OnOk result (AddsBytes spot.now bytes.old.items bytes.new.items
        (λ index. flat_map part_bytes
        (said_in spot.now (statement_kind kind.now) count index))) }
    ensures fields { OnOk result (AddsFields spot.now fields.old.items fields.new.items
        (λ index. fields_in spot.now offset
        (said_in spot.now (statement_kind kind.now) count index))) }
{
    match kind {
        StatementKind::Value(width, value) => put_one(bytes, fields, spot, offset, *width, value),
        StatementKind::Values(width, values) => {
            put_values(bytes, fields, spot, offset, *width, values.as_slice())
        }
        StatementKind::Ascii(strings) => put_strings(bytes, false, strings.as_slice()),
        StatementKind::Asciz(strings) => put_strings(bytes, true, strings.as_slice()),
        StatementKind::Zeros(_) => put_zeros(bytes, count),
        StatementKind::AlignsToPower(_) => put_zeros(bytes, count),
        StatementKind::AlignsToBytes(_) => put_zeros(bytes, count),
        StatementKind::Label(_) => Ok(()),
        StatementKind::Numbered(_) => Ok(()),
        StatementKind::Plain(_) => Ok(()),
        StatementKind::With(..) => Ok(()),
        StatementKind::WithFunction(..) => Ok(()),
        StatementKind::Enters(_) => Ok(()),
        StatementKind::Opens(_) => Ok(()),
        StatementKind::Binds(..) => Ok(()),
        StatementKind::Sets(_) => Ok(()),
        StatementKind::Chooses(_) => Ok(()),
        StatementKind::Ignored => Ok(()),
    }
}

/// Adds what a statement contributes to its section, one of data.
fn put_section<'a>(
    sections: &mut [Vec<u8>],
    fields: &mut Vec<OpenField<'a>>,
    spot: &Spot<'_, '_, 'a>,
    kind: &StatementKind<'a>,
    item: Item,
) -> Result<(), AllocError>
    requires room { HasRoomFor (statement_kind kind.now) item.offset }
    requires section { (spot.now).place.section < length sections.old }
    ensures bytes { OnOk result (AddsParts spot.now sections.old sections.new
        (λ index. said_in spot.now (statement_kind kind.now) item.bytes index)) }
    ensures fields { OnOk result (AddsFields spot.now fields.old.items fields.new.items
        (λ index. fields_in spot.now item.offset
        (said_in spot.now (statement_kind kind.now) item.bytes index))) }
    ensures count { length sections.new ≡ length sections.old }
{
    put_data(
        &mut sections[spot.place.section as usize],
        fields,
        spot,
        kind,
        item.offset,
        item.bytes,
    )
}

/// Adds what a statement contributes, where its section is one of data with bytes in the file.
fn put_statement<'a>(
    sections: &mut [Vec<u8>],
    fields: &mut Vec<OpenField<'a>>,
    spot: &Spot<'_, '_, 'a>,
    section: Section<'_>,
    kind: &StatementKind<'a>,
    item: Item,
) -> Result<(), AllocError>
    requires room { HasRoomFor (statement_kind kind.now) item.offset }
    requires section { (spot.now).place.section < length sections.old }
    ensures bytes { OnOk result (is_filled (section_of section.entry) ≡ true
        → AddsParts spot.now sections.old sections.new
        (λ index. said_in spot.now (statement_kind kind.now) item.bytes index)) }
    ensures fields { OnOk result (is_filled (section_of section.entry) ≡ true
        → AddsFields spot.now fields.old.items fields.new.items
        (λ index. fields_in spot.now item.offset
        (said_in spot.now (statement_kind kind.now) item.bytes index))) }
    ensures left { OnOk result (is_filled (section_of section.entry) ≡ false
        → (sections.new ≡ sections.old) × (fields.new.items ≡ fields.old.items)) }
    ensures count { length sections.new ≡ length sections.old }
{
    if section.executable || section.is_nobits() {
        return Ok(());
    }
    put_section(sections, fields, spot, kind, item)
}

/// The ordinal of the statement at an index.
fn ordinal(index: usize) -> u32
    requires { index + 1 < 2 ^ 32 }
    ensures { result ≡ index + 1 }
{
    (index + 1) as u32
}

/// Adds what the statement of a unit at an index contributes, before which the scope stands.
fn put_next<'a>(
    sections: &mut [Vec<u8>],
    fields: &mut Vec<OpenField<'a>>,
    unit: &Unit<'a>,
    index: usize,
    statement: &Statement<'a>,
    scope: &Scope<'_, 'a>,
    items: &[Item],
) -> Result<(), AllocError>
    requires within { index < length (said unit.now) }
    requires said { slice_get (said unit.now) index ≡ Some (statement_of statement.now) }
    requires few { length (said unit.now) < 2 ^ 32 }
    requires item { index < length items.now }
    requires laid { IsLaid (said unit.now) items.now }
    requires made { AreMade (tables (said unit.now))
        (located_from 1 1 (at_start (said unit.now)) (said unit.now)) items.now }
    requires same { (scope.now).unit.now ≡ unit.now }
    requires next { IsScope scope.now index }
    requires each { length sections.old ≡ length (unit.now).tables.extents.items }
    ensures data { OnOk result ((start : List (Vec ℕ)) (codes : List (List Coded))
        → HaveCode (said unit.now) items.now codes
        → IsDataTo (said unit.now) items.now codes start index sections.old fields.old.items
        → IsDataTo (said unit.now) items.now codes start (index + 1) sections.new
        fields.new.items) }
    ensures count { length sections.new ≡ length sections.old }
{
    let place = unit.places()[index];
    let extent = unit.sections()[place.section as usize];
    let spot = Spot {
        scope: &*scope,
        place,
        ordinal: ordinal(index),
        loaded: extent.section.loaded,
    };
    if extent.section.executable {
        let options = unit.options_at(index);
        let choices = Choices {
            compressed: options.rvc(),
            relax: options.relax(),
        };
        return put_code(fields, &spot, statement, choices, items[index]);
    }
    put_statement(
        sections,
        fields,
        &spot,
        extent.section,
        &statement.kind,
        items[index],
    )?;
    Ok(())
}

/// What sections hold, and the fields that stay open there.
#[derive(Drop)]
pub(crate) struct Filled<'a> {
    /// The bytes of each section.
    pub(crate) sections: Vec<Vec<u8>>,
    /// The open fields, in the order of the source.
    pub(crate) fields: Vec<OpenField<'a>>,
}

/// The sections of a unit with their data after their code, where the statements stand so. These are read into the room.
pub(crate) fn data<'a>(
    alloc: Global,
    unit: &Unit<'a>,
    items: &[Item],
    code: Vec<Vec<u8>>,
    room: &mut Statement<'a>,
) -> Result<Filled<'a>, AllocError>
    requires few { length (said unit.now) < 2 ^ 32 }
    requires count { length items.now ≡ length (said unit.now) }
    requires laid { IsLaid (said unit.now) items.now }
    requires made { AreMade (tables (said unit.now))
        (located_from 1 1 (at_start (said unit.now)) (said unit.now)) items.now }
    requires each { length code.items ≡ length (unit.now).tables.extents.items }
    ensures count { IfOk result (λ r. length r.sections.items ≡ length code.items) }
    ensures data { IfOk result (λ r. (codes : List (List Coded))
        → HaveCode (said unit.now) items.now codes
        → IsData (said unit.now) items.now codes code.items r.sections.items r.fields.items) }
{
    let mut sections = code;
    let mut fields = Vec::new(alloc);
    let mut scope = Scope::new(unit);
    let statements = unit.statements();
    for index in 0..statements.len() {
        put_next(
            sections.as_mut_slice(),
            &mut fields,
            unit,
            index,
            statements.read(index, room),
            &scope,
            items,
        )?;
        scope.pass();
    }
    Ok(Filled { sections, fields })
}
