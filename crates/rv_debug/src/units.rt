//! The units of sources: their line tables, the entries that lead there, and the addresses that lead to these.

ghost use Rattle.std.specs.Prelude.{◌≡◌, ◌+◌, ◌<◌, ◌≤◌, ◌++◌, ◌^◌, ◌⊎◌, true, false, length, take, IfOk, IfNone, IfSome, MatchOption, OnOk};
ghost use Rattle.std.specs.List.{AllByRecursion};
ghost use Rattle.rv_debug_laws.specs.Code.{are_by_file, code_of};
ghost use Rattle.rv_debug_laws.specs.Units.{AddUnits, AddsCode, address_ranges, code_pair, entry_numbers, info_unit, no_debug};
ghost use Rattle.rv_map.specs.Views.{map_of};
ghost use Rattle.rv_debug.specs.Refused.{HasLongUnit, IsLongUnit};
ghost use Rattle.rv_debug.specs.Views.{debug_of};

use crate::code::{code_extent, code_of, count_up_to};
use crate::numbers::TOO_LONG;
use crate::unit::line_unit;
use rv_debug_laws::{LineRow, SourceFile};
use rv_map::{Map, Region, Row};
use std::alloc::{AllocError, Global};

/// DW_TAG_compile_unit without children, and its attributes, each with its form: where the line table is, the code's start
/// and size, the name, the directory, the language.
pub(crate) static ABBREVIATIONS: [u8; 18] = [
    1, 0x11, 0, 0x10, 0x17, 0x11, 0x01, 0x12, 0x07, 0x03, 0x08, 0x1B, 0x08, 0x13, 0x05, 0, 0, 0,
];

/// DW_LANG_Mips_Assembler, by which GNU as calls any assembly language.
const ASSEMBLY_LANGUAGE: u16 = 0x8001;

/// The bytes of an entry's unit behind its length, but for its two strings.
const ENTRY_SIZE: usize = 33;

/// The sections that grow with each source that has code.
#[derive(Drop)]
pub(crate) struct DebugSections {
    pub lines: Vec<u8>,
    pub info: Vec<u8>,
    pub ranges: Vec<u8>,
}

/// The code of a source, and the index behind its rows.
#[derive(Drop)]
struct OwnCode {
    code: Vec<LineRow>,
    behind: usize,
}

/// The units of sources; none where the numbers of one need more than 32 bits. The rows are those of the map.
pub(crate) fn units_of(
    alloc: Global,
    map: &Map,
    rows: &[Row],
    directory: &[u8],
    sources: &[SourceFile<'_>],
) -> Result<Option<DebugSections>, AllocError>
    requires rows { rows.now ≡ map.now.rows.items }
    requires sorted { are_by_file 0 rows.now ≡ true }
    ensures some { IfOk result (λ units. IfSome units (λ debug.
        AddUnits (map_of map.now) directory.now 1 sources.now no_debug (debug_of debug))) }
    ensures none { IfOk result (λ units. IfNone units
        (HasLongUnit (map_of map.now) directory.now sources.now)) }
{
    let mut debug = DebugSections {
        lines: Vec::new(alloc),
        info: Vec::new(alloc),
        ranges: Vec::new(alloc),
    };
    let mut first = count_up_to(rows, 0);
    for index in 0..sources.len() {
        let own = own_code(alloc, map.text, index as u64 + 1, rows, first)?;
        let code = own.code.as_slice();
        if !put_unit(alloc, &mut debug, map.text, code, directory, sources[index])? {
            return Ok(None);
        }
        first = own.behind;
    }
    Ok(Some(debug))
}

/// The code of a source whose rows begin at an index.
fn own_code(
    alloc: Global,
    text: Region,
    number: u64,
    rows: &[Row],
    first: usize,
) -> Result<OwnCode, AllocError>
    requires within { first ≤ length rows.now }
    requires sorted { are_by_file 0 rows.now ≡ true }
    requires earlier { AllByRecursion (λ row. row.file < number) (take first rows.now) }
    ensures code { IfOk result (λ own. own.code.items ≡ code_of text number rows.now) }
    ensures inside { IfOk result (λ own.
        AllByRecursion (λ row. row.address + row.bytes ≤ text.end) own.code.items) }
    ensures within { IfOk result (λ own. own.behind ≤ length rows.now) }
    ensures earlier { IfOk result (λ own.
        AllByRecursion (λ row. row.file ≤ number) (take own.behind rows.now)) }
{
    let rest = &rows[first..];
    let count = count_up_to(rest, number);
    let code = code_of(alloc, text, number, &rest[..count])?;
    Ok(OwnCode {
        code,
        behind: first + count,
    })
}

/// Adds the unit of a source with this code, or none where there is no code; answers false where its numbers need more
/// than 32 bits.
fn put_unit(
    alloc: Global,
    debug: &mut DebugSections,
    text: Region,
    code: &[LineRow],
    directory: &[u8],
    source: SourceFile<'_>,
) -> Result<bool, AllocError>
    requires { AllByRecursion (λ row. row.address + row.bytes ≤ text.end) code.now }
    ensures added { IfOk result (λ added. added ≡ true
        → AddsCode directory.now source.entry code.now (debug_of debug.old) (debug_of debug.new)) }
    ensures long { IfOk result (λ added. added ≡ false
        → IsLongUnit directory.now source.entry code.now (debug_of debug.old)) }
{
    if code.is_empty() {
        return Ok(true);
    }
    let Some(unit) = line_unit(alloc, directory, &[source, source], code)? else {
        return Ok(false);
    };
    let added = put_line_unit(
        debug,
        unit.as_slice(),
        code_extent(text, code),
        source,
        directory,
    )?;
    Ok(added)
}

/// Adds a unit with its line table, and the entry and the addresses that lead there; answers false where their numbers need
/// more than 32 bits.
fn put_line_unit(
    debug: &mut DebugSections,
    unit: &[u8],
    code: Region,
    source: SourceFile<'_>,
    directory: &[u8],
) -> Result<bool, AllocError>
    requires { code.start ≤ code.end }
    ensures lines { IfOk result (λ added. added ≡ true
        → debug.new.lines.items ≡ debug.old.lines.items ++ unit.now) }
    ensures info { IfOk result (λ added. added ≡ true
        → debug.new.info.items ≡ debug.old.info.items
        ++ info_unit (length debug.old.lines.items) code source.entry.path.now directory.now) }
    ensures ranges { IfOk result (λ added. added ≡ true
        → debug.new.ranges.items ≡ debug.old.ranges.items
        ++ address_ranges (length debug.old.info.items) code) }
    ensures long { IfOk result (λ added. added ≡ false
        → (2 ^ 32 ≤ 33 + length source.entry.path.now + length directory.now)
        ⊎ ((2 ^ 32 ≤ length debug.old.lines.items) ⊎ (2 ^ 32 ≤ length debug.old.info.items))) }
{
    let Some(size) = entry_size(source, directory) else {
        return Ok(false);
    };
    if debug.lines.len() >= TOO_LONG || debug.info.len() >= TOO_LONG {
        return Ok(false);
    }
    put_sections(debug, unit, size, code, source, directory)?;
    Ok(true)
}

/// The size of an entry's unit behind its length, if that has 32 bits.
fn entry_size(source: SourceFile<'_>, directory: &[u8]) -> Option<u32>
    ensures { MatchOption result
        (2 ^ 32 ≤ 33 + length source.entry.path.now + length directory.now)
        (λ size. size ≡ 33 + length source.entry.path.now + length directory.now) }
{
    if source.path.len() >= TOO_LONG || directory.len() >= TOO_LONG {
        return None;
    }
    let size = ENTRY_SIZE + source.path.len() + directory.len();
    if size >= TOO_LONG {
        return None;
    }
    Some(size as u32)
}

/// Adds a unit with its line table, and the entry and the addresses that lead there.
fn put_sections(
    debug: &mut DebugSections,
    unit: &[u8],
    size: u32,
    code: Region,
    source: SourceFile<'_>,
    directory: &[u8],
) -> Result<(), AllocError>
    requires lines { length debug.old.lines.items < 2 ^ 32 }
    requires info { length debug.old.info.items < 2 ^ 32 }
    requires size { size ≡ 33 + length source.path.now + length directory.now }
    requires code { code.start ≤ code.end }
    ensures lines { OnOk result (debug.new.lines.items ≡ debug.old.lines.items ++ unit.now) }
    ensures info { OnOk result (debug.new.info.items ≡ debug.old.info.items
        ++ info_unit (length debug.old.lines.items) code source.entry.path.now directory.now) }
    ensures ranges { OnOk result (debug.new.ranges.items ≡ debug.old.ranges.items
        ++ address_ranges (length debug.old.info.items) code) }
{
    let lines_at = debug.lines.len() as u32;
    let info_at = debug.info.len() as u32;
    debug.lines.extend_from_slice(unit)?;
    put_info(&mut debug.info, size, lines_at, code, source, directory)?;
    put_ranges(&mut debug.ranges, info_at, code)?;
    Ok(())
}

/// Adds the entry of a source, in a unit of this size behind its length.
fn put_info(
    info: &mut Vec<u8>,
    size: u32,
    lines_at: u32,
    code: Region,
    source: SourceFile<'_>,
    directory: &[u8],
) -> Result<(), AllocError>
    requires size { size ≡ 33 + length source.path.now + length directory.now }
    requires code { code.start ≤ code.end }
    ensures { OnOk result (info.new.items ≡ info.old.items
        ++ info_unit lines_at code source.entry.path.now directory.now) }
{
    info.extend_from_slice(&size.to_le_bytes())?;
    info.extend_from_slice(&[5, 0, 1, 8, 0, 0, 0, 0])?;
    put_numbers(info, lines_at, code)?;
    info.extend_from_slice(source.path)?;
    info.push(0)?;
    info.extend_from_slice(directory)?;
    info.push(0)?;
    info.extend_from_slice(&ASSEMBLY_LANGUAGE.to_le_bytes())?;
    Ok(())
}

/// Adds the numbers of an entry: its abbreviation, where its line table is, its code's start and size.
fn put_numbers(info: &mut Vec<u8>, lines_at: u32, code: Region) -> Result<(), AllocError>
    requires { code.start ≤ code.end }
    ensures { OnOk result (info.new.items ≡ info.old.items ++ entry_numbers lines_at code) }
{
    info.push(1)?;
    info.extend_from_slice(&lines_at.to_le_bytes())?;
    put_pair(info, code)?;
    Ok(())
}

/// Adds the start and the size of some code.
fn put_pair(out: &mut Vec<u8>, code: Region) -> Result<(), AllocError>
    requires { code.start ≤ code.end }
    ensures { OnOk result (out.new.items ≡ out.old.items ++ code_pair code) }
{
    out.extend_from_slice(&code.start.to_le_bytes())?;
    out.extend_from_slice(&(code.end - code.start).to_le_bytes())?;
    Ok(())
}

/// Adds the addresses of a source.
fn put_ranges(ranges: &mut Vec<u8>, info_at: u32, code: Region) -> Result<(), AllocError>
    requires { code.start ≤ code.end }
    ensures { OnOk result
        (ranges.new.items ≡ ranges.old.items ++ address_ranges info_at code) }
{
    ranges.extend_from_slice(&[44, 0, 0, 0, 2, 0])?;
    ranges.extend_from_slice(&info_at.to_le_bytes())?;
    ranges.extend_from_slice(&[8, 0, 0, 0, 0, 0])?;
    put_pair(ranges, code)?;
    ranges.extend_from_slice(&[0; 16])?;
    Ok(())
}
