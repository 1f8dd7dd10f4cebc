//! The statements of a source as items: their bytes, one after the other in each section, and which have a row in the
//! map.
//!
//! The unit has tested each section's length before. It is tested again here, so that the condition of each function
//! stays what the function sees itself.

ghost use Rattle.std.specs.Prelude.{◌≡◌, ◌&&◌, ◌+◌, ◌*◌, ◌<◌, ◌≤◌, ℕ, true, false, [], ◌∷◌, ◌++◌, length, map, slice_index, slice_set, None, IfOk, IfErr};
ghost use Rattle.rv_expression_laws.specs.Values as values;
ghost use Rattle.rv_fault.specs.declared.source_fault.SourceFault.TheVariants.{OutOfMemory};
ghost use Rattle.rv_statement_laws.specs.Widths.{width_bytes};
ghost use Rattle.rv_statement.specs.View.{quoted, statement_kind};
ghost use Rattle.rv_unit_laws.specs.Faults.{first_unit_fault};
ghost use Rattle.rv_unit_laws.specs.Tables as laws;
ghost use Rattle.rv_unit.specs.Unit.{said};
ghost use Rattle.rv_source_laws.specs.Located.{located};
ghost use Rattle.rv_assemble_laws.specs.Refusals.{size_fault_from};
ghost use Rattle.rv_draft.specs.Items.{AreItems};
ghost use Rattle.rv_assemble_laws.specs.LaidStatements.{IsMultiple};
ghost use Rattle.rv_instruction.specs.Scoped.{values_at, is_placed_at, AtNext, StandsHere, ForOutcome};
ghost use Rattle.rv_draft.specs.Sized.{AreSized, bytes_of_sizes};
ghost use Rattle.rv_draft.specs.Measured.{CanCount, PadsIn, CanPadIn, AlignsIn, CanAlignIn, IsSizeIn, CanSizeIn, HasRoomIn, IsSizedIn};

use crate::extents::extent_at;
use crate::item::CodeSize;
use rv_expression::{SourceCode, SourceFault, Value};
use rv_instruction::constant;
use rv_statement::{Statement, StatementKind};
use rv_statement_laws::Width;
use rv_unit::{
    Extent, Item, LONGEST_SECTION, Scope, Section, SectionOffset, Unit, byte_alignment, give_back,
    padding, power_alignment, strings_size, values_size,
};
use std::alloc::{AllocError, Global};

/// `bytes` as the size of a statement, where a section can have them.
fn fitting(bytes: u64, line: u32) -> Result<u32, SourceFault>
    ensures same { IfOk result (λ n. n ≡ bytes) }
    ensures fits { IfOk result (λ n. n ≤ laws.longest_section) }
    ensures refuses { IfErr result (λ _. laws.longest_section < bytes) }
{
    if bytes > LONGEST_SECTION {
        return Err(SourceFault::At {
            code: SourceCode::Limit,
            line,
        });
    }
    Ok(bytes as u32)
}

/// The bytes of values of data.
fn bytes_of_values(width: Width, count: usize, line: u32) -> Result<u32, SourceFault>
    ensures size { IfOk result (λ n. n ≡ width_bytes width * count) }
    ensures refuses { IfErr result (λ _. width_bytes width * count ≤ laws.longest_section → ⊥) }
{
    fitting(values_size(width, count), line)
}

/// The bytes of strings, where asked with a zero byte after each.
fn bytes_of_strings(ended: bool, strings: &[&[u8]], line: u32) -> Result<u32, SourceFault>
    ensures size { IfOk result
        (λ n. n ≡ length (laws.string_bytes ended (map quoted strings.now))) }
    ensures refuses { IfErr result (λ _.
        length (laws.string_bytes ended (map quoted strings.now)) ≤ laws.longest_section → ⊥) }
{
    fitting(strings_size(ended, strings), line)
}

/// As many bytes as a value says.
fn bytes_of_zeros(value: Result<Value<'_>, SourceFault>, line: u32) -> Result<u32, SourceFault>
    ensures size { IfOk result (λ n. ForOutcome value.entry line (λ v. v ≡ values.Constant n)) }
    ensures refuses { IfErr result (λ _. ForOutcome value.entry line (λ v. CanCount v → ⊥)) }
{
    let count = constant(value, line)?;
    fitting(count, line)
}

/// Whether a section that asks to begin at a multiple of one number begins at one of an alignment.
fn is_multiple(begins: u32, alignment: Option<u32>) -> bool
    ensures multiple { result ≡ true → IsMultiple alignment begins }
    ensures other { result ≡ false → IsMultiple alignment begins → ⊥ }
{
    match alignment {
        None => true,
        Some(0) => false,
        Some(alignment) => begins % alignment == 0,
    }
}

/// The padding of an alignment after `offset` bytes of a section: in code it has this size, in data
/// it goes up to the multiple.
fn bytes_of_padding(
    extent: Extent<'_>,
    alignment: Option<u32>,
    offset: u32,
    code: CodeSize,
    line: u32,
) -> Result<u32, SourceFault>
    ensures size { IfOk result (λ n. PadsIn extent.entry code offset n alignment) }
    ensures refuses { IfErr result (λ _. CanPadIn extent.entry offset alignment → ⊥) }
{
    if !is_multiple(extent.alignment, alignment) {
        return Err(SourceFault::At {
            code: SourceCode::ImmediateRange,
            line,
        });
    }
    if extent.section.executable {
        return Ok(code.bytes());
    }
    fitting(padding(alignment, offset), line)
}

/// The padding to the power of two that a value says.
fn padding_to_power(
    value: Result<Value<'_>, SourceFault>,
    extent: Extent<'_>,
    offset: u32,
    code: CodeSize,
    line: u32,
) -> Result<u32, SourceFault>
    ensures size { IfOk result (λ n. ForOutcome value.entry line
        (λ v. AlignsIn extent.entry code v offset n (laws.power_alignment v))) }
    ensures refuses { IfErr result (λ _. ForOutcome value.entry line
        (λ v. CanAlignIn extent.entry v offset (laws.power_alignment v) → ⊥)) }
{
    let power = constant(value, line)?;
    let alignment = power_alignment(Ok(Value::Constant(power)));
    bytes_of_padding(extent, alignment, offset, code, line)
}

/// The padding to a multiple of as many bytes as a value says.
fn padding_to_bytes(
    value: Result<Value<'_>, SourceFault>,
    extent: Extent<'_>,
    offset: u32,
    code: CodeSize,
    line: u32,
) -> Result<u32, SourceFault>
    ensures size { IfOk result (λ n. ForOutcome value.entry line
        (λ v. AlignsIn extent.entry code v offset n (laws.byte_alignment v))) }
    ensures refuses { IfErr result (λ _. ForOutcome value.entry line
        (λ v. CanAlignIn extent.entry v offset (laws.byte_alignment v) → ⊥)) }
{
    let bytes = constant(value, line)?;
    let alignment = byte_alignment(Ok(Value::Constant(bytes)));
    bytes_of_padding(extent, alignment, offset, code, line)
}

/// The bytes of the statement that is next, after `offset` bytes of its section, where its code has
/// this size.
fn size(
    scope: &Scope<'_, '_>,
    statement: &Statement<'_>,
    place: SectionOffset,
    extent: Extent<'_>,
    offset: u32,
    code: CodeSize,
) -> Result<u32, SourceFault>
    ensures size { IfOk result (λ n. AtNext scope.now (λ index.
        IsSizeIn extent.entry (values_at scope.now index place) offset code
        (statement_kind (statement.now).kind) n)) }
    ensures refuses { IfErr result (λ _. AtNext scope.now (λ index.
        CanSizeIn extent.entry (values_at scope.now index place) offset
        (statement_kind (statement.now).kind) → ⊥)) }
{
    let line = statement.line;
    match &statement.kind {
        StatementKind::Plain(_) => Ok(code.bytes()),
        StatementKind::With(..) => Ok(code.bytes()),
        StatementKind::WithFunction(..) => Ok(code.bytes()),
        StatementKind::Value(width, _) => bytes_of_values(*width, 1, line),
        StatementKind::Values(width, values) => bytes_of_values(*width, values.len(), line),
        StatementKind::Ascii(strings) => bytes_of_strings(false, strings, line),
        StatementKind::Asciz(strings) => bytes_of_strings(true, strings, line),
        StatementKind::Zeros(count) => bytes_of_zeros(scope.value(place, count, line), line),
        StatementKind::AlignsToPower(power) => {
            padding_to_power(scope.value(place, power, line), extent, offset, code, line)
        }
        StatementKind::AlignsToBytes(bytes) => {
            padding_to_bytes(scope.value(place, bytes, line), extent, offset, code, line)
        }
        StatementKind::Label(_) => Ok(0),
        StatementKind::Numbered(_) => Ok(0),
        StatementKind::Sets(_) => Ok(0),
        StatementKind::Enters(_) => Ok(0),
        StatementKind::Opens(_) => Ok(0),
        StatementKind::Binds(..) => Ok(0),
        StatementKind::Chooses(_) => Ok(0),
        StatementKind::Ignored => Ok(0),
    }
}

/// The bytes of the statement that is next, where it has a place; else none.
fn placed_size(
    placed: bool,
    scope: &Scope<'_, '_>,
    statement: &Statement<'_>,
    place: SectionOffset,
    extent: Extent<'_>,
    offset: u32,
    code: CodeSize,
) -> Result<u32, SourceFault>
    ensures absent { IfOk result (λ n. placed ≡ false → n ≡ 0) }
    ensures size { IfOk result (λ n. AtNext scope.now (λ index. placed ≡ true
        → IsSizeIn extent.entry (values_at scope.now index place) offset code
        (statement_kind (statement.now).kind) n)) }
    ensures refuses { IfErr result (λ _. AtNext scope.now (λ index.
        (placed ≡ true → CanSizeIn extent.entry (values_at scope.now index place) offset
        (statement_kind (statement.now).kind)) → ⊥)) }
{
    if !placed {
        return Ok(0);
    }
    size(scope, statement, place, extent, offset, code)
}

/// Whether the statement that is next, which stands at the place, has one in its section.
fn is_placed<'a>(scope: &Scope<'_, 'a>, place: SectionOffset, kind: &StatementKind<'a>) -> bool
    ensures { AtNext scope.now (λ index. StandsHere scope.now index place (statement_kind kind.now)
        → result ≡ is_placed_at scope.now index (statement_kind kind.now)) }
{
    match kind {
        StatementKind::Sets(setting) => scope.gives_location(place, setting),
        StatementKind::Label(_) => true,
        StatementKind::Numbered(_) => true,
        StatementKind::Plain(_) => true,
        StatementKind::With(..) => true,
        StatementKind::WithFunction(..) => true,
        StatementKind::Value(..) => true,
        StatementKind::Values(..) => true,
        StatementKind::Ascii(_) => true,
        StatementKind::Asciz(_) => true,
        StatementKind::Zeros(_) => true,
        StatementKind::AlignsToPower(_) => true,
        StatementKind::AlignsToBytes(_) => true,
        StatementKind::Enters(_) => false,
        StatementKind::Opens(_) => false,
        StatementKind::Binds(..) => false,
        StatementKind::Chooses(_) => false,
        StatementKind::Ignored => false,
    }
}

/// Whether a statement of a section that has a place there has a row.
fn is_shown(placed: bool, section: Section<'_>) -> bool
    ensures { result ≡ (placed && section.entry.loaded) }
{
    placed && section.loaded
}

/// The bytes that a section has so far.
fn end(ends: &[u32], section: u32) -> u32
    requires { section < length ends.now }
    ensures { result ≡ slice_index ends.now section }
{
    ends[section as usize]
}

/// `count` sections without a byte.
fn no_bytes(alloc: Global, count: usize) -> Result<Vec<u32>, AllocError>
    ensures count { IfOk result (λ ends. length ends.items ≡ count) }
    ensures none { IfOk result (λ ends. (j : ℕ) → slice_index ends.items j ≡ 0) }
{
    vec![in alloc; 0; count]
}

/// The item of the statement that is next, after `offset` bytes of its section, where its code has
/// this size.
fn next_item<'a>(
    scope: &Scope<'_, 'a>,
    statement: &Statement<'a>,
    place: SectionOffset,
    extent: &Extent<'_>,
    offset: u32,
    code: CodeSize,
) -> Result<Item, SourceFault>
    requires { offset ≤ laws.longest_section }
    ensures section { IfOk result (λ x. x.section ≡ place.section) }
    ensures offset { IfOk result (λ x. x.offset ≡ offset) }
    ensures line { IfOk result (λ x. x.line ≡ (statement.now).line) }
    ensures shown { IfOk result (λ x. AtNext scope.now (λ index.
        StandsHere scope.now index place (statement_kind (statement.now).kind)
        → x.shown ≡ (is_placed_at scope.now index (statement_kind (statement.now).kind)
        && (extent.now).section.loaded))) }
    ensures absent { IfOk result (λ x. AtNext scope.now (λ index.
        StandsHere scope.now index place (statement_kind (statement.now).kind)
        → is_placed_at scope.now index (statement_kind (statement.now).kind) ≡ false
        → x.bytes ≡ 0)) }
    ensures sized { IfOk result (λ x. AtNext scope.now (λ index.
        StandsHere scope.now index place (statement_kind (statement.now).kind)
        → is_placed_at scope.now index (statement_kind (statement.now).kind) ≡ true
        → IsSizedIn extent.now (values_at scope.now index place) x code
        (statement_kind (statement.now).kind))) }
    ensures fits { IfOk result (λ x. x.offset + x.bytes ≤ laws.longest_section) }
    ensures refuses { IfErr result (λ _. AtNext scope.now (λ index.
        StandsHere scope.now index place (statement_kind (statement.now).kind)
        → (is_placed_at scope.now index (statement_kind (statement.now).kind) ≡ true
        → HasRoomIn extent.now (values_at scope.now index place) offset code
        (statement_kind (statement.now).kind)) → ⊥)) }
{
    let line = statement.line;
    let placed = is_placed(scope, place, &statement.kind);
    let bytes = placed_size(placed, scope, statement, place, *extent, offset, code)?;
    fitting(u64::from(offset) + u64::from(bytes), line)?;
    Ok(Item {
        section: place.section,
        offset,
        bytes,
        line,
        shown: is_shown(placed, extent.section),
        instructions: code.instructions(),
    })
}

/// Adds the bytes of an item to its section, which has those before it.
fn grow(ends: &mut Vec<u32>, item: Item)
    requires section { item.section < length ends.old.items }
    requires fits { item.offset + item.bytes ≤ laws.longest_section }
    ensures { ends.new.items ≡ slice_set ends.old.items item.section (item.offset + item.bytes) }
{
    ends[item.section as usize] = item.offset + item.bytes;
}

/// Takes the last of the sizes.
fn take_size(sizes: &mut Vec<CodeSize>) -> CodeSize
    requires { 0 < length sizes.old.items }
    ensures { sizes.old.items ≡ sizes.new.items ++ result ∷ [] }
{
    let size = sizes.pop().unwrap();
    give_back(sizes);
    size
}

/// The items of a source's statements, whose code has these sizes, and the bytes of each section
/// after the last of them. The sizes go as their items come: reversed first, since a vector gives
/// memory back at its end. Statements are read into the room.
pub(crate) fn items<'a>(
    alloc: Global,
    unit: &Unit<'a>,
    mut sizes: Vec<CodeSize>,
    room: &mut Statement<'a>,
) -> Result<(Vec<Item>, Vec<u32>), SourceFault>
    requires sizes { length sizes.items ≡ length (said unit.now) }
    ensures count { IfOk result (λ r. length r.0.items ≡ length (said unit.now)) }
    ensures sections { IfOk result
        (λ r. length r.1.items ≡ length (unit.now).tables.extents.items) }
    ensures items { IfOk result (λ r. AreItems 1 (laws.at_start (said unit.now)) (λ j. 0)
        (said unit.now) r.0.items (λ j. slice_index r.1.items j)) }
    ensures low { IfOk result (λ r. (j : ℕ) → slice_index r.1.items j ≤ laws.longest_section) }
    ensures sized { IfOk result (λ r.
        AreSized (laws.tables (said unit.now)) 1 (laws.at_start (said unit.now)) (said unit.now)
        r.0.items sizes.items) }
    ensures refuses { IfErr result (λ e. first_unit_fault (said unit.now) ≡ None
        → size_fault_from (λ j. 0) (located (said unit.now ∷ [])) (bytes_of_sizes sizes.items) ≡ None
        → e ≡ OutOfMemory) }
{
    let mut scope = Scope::new(unit);
    let statements = unit.statements();
    let places = unit.places();
    let extents = unit.sections();
    let mut ends = no_bytes(alloc, extents.len())?;
    let mut items = Vec::with_capacity(alloc, statements.len())?;
    sizes.reverse();
    for index in 0..statements.len() {
        let place = places[index];
        let extent = extent_at(extents, place.section);
        let offset = end(ends.as_slice(), place.section);
        let code = take_size(&mut sizes);
        let statement = statements.read(index, room);
        let item = next_item(&scope, statement, place, &extent, offset, code)?;
        grow(&mut ends, item);
        items.push(item)?;
        scope.pass();
    }
    Ok((items, ends))
}
