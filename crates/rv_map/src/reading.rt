//! Reads a map's text.

ghost use Rattle.std.specs.Prelude.{◌≡◌, ◌++◌, ◌∷◌, [], Some, None, map, flat_map, codes, IfOk, IfSome, option_map, IsTrue};
ghost use Rattle.rv_map_laws.specs.Map.{Map as PlainMap};
ghost use Rattle.rv_map.specs.Views.{map_of, global_of};
ghost use Rattle.std.specs.List.{AllByRecursion, list_all};
ghost use Rattle.rv_map_laws.specs.Name.{is_name, is_name_byte};
ghost use Rattle.rv_map_laws.specs.Limits.{IsNumber, IsRegion, IsGlobal, IsDrop, IsRow, IsMap};
ghost use Rattle.rv_map_laws.specs.Text.{hexadecimal, line_text, gap_line, global_line, drop_line, row_line, head_lines, map_text};
ghost use Rattle.rv_map.specs.Reading.{Gives, behind, region_at, global_at, drop_at, row_at, head_at};

use crate::map::{Global, Map};
use crate::numeral::{cut, number_before};
use rv_map_laws::{Region, Row, SectionId};
use std::alloc::{AllocError, Global as Allocator};

const DECIMAL: u64 = 10;

const HEXADECIMAL: u64 = 16;

/// The map whose text the bytes are; none where they are no map's text.
pub fn read(alloc: Allocator, bytes: &[u8]) -> Result<Option<Map>, AllocError>
    // What is read has this text.
    ensures found { IfOk result (λ read. IfSome read (λ map. bytes.now ≡ map_text (map_of map))) }
    // The text of a map is read, and as that map.
    ensures only { (m : PlainMap) → IsMap m → bytes.now ≡ map_text m →
        IfOk result (λ read. option_map map_of read ≡ Some m) }
{
    let Some((mut map, rest)) = head_of(alloc, bytes) else {
        return Ok(None);
    };
    let (gaps, rest) = gaps_of(alloc, rest)?;
    let (globals, rest) = globals_of(alloc, rest)?;
    let (drops, rest) = drops_of(alloc, rest)?;
    let (rows, rest) = rows_of(alloc, rest)?;
    if !rest.is_empty() {
        return Ok(None);
    }
    map.gaps = gaps;
    map.globals = globals;
    map.drops = drops;
    map.rows = rows;
    Ok(Some(map))
}

/// The lines that every map has, as a map with nothing else.
#[tactic(auto, unfolding(crate::specs::Reading::head_at))]
fn head_of(alloc: Allocator, bytes: &[u8]) -> Option<(Map, &[u8])>
    ensures exact { Gives (λ found. (map_of found.0, found.1.now)) result (head_at bytes.now) }
    ensures found { IfSome result
        (λ found. bytes.now ≡ flat_map line_text (head_lines (map_of found.0)) ++ found.1.now) }
{
    let rest = behind(b"rvmap 1\n", bytes)?;
    let (text, rest) = region_of(b"text ", rest)?;
    let (rodata, rest) = region_of(b"rodata ", rest)?;
    let (data, rest) = region_of(b"data ", rest)?;
    let (bss, rest) = region_of(b"bss ", rest)?;
    let rest = behind(b"entry ", rest)?;
    let (entry, rest) = number_before(HEXADECIMAL, b'\n', rest)?;
    let map = Map {
        text,
        rodata,
        data,
        bss,
        entry,
        gaps: Vec::new(alloc),
        globals: Vec::new(alloc),
        drops: Vec::new(alloc),
        rows: Vec::new(alloc),
    };
    Some((map, rest))
}

/// The gaps whose lines stand at the front, up to the first other line.
fn gaps_of(alloc: Allocator, bytes: &[u8]) -> Result<(Vec<Region>, &[u8]), AllocError>
    ensures found { IfOk result
        (λ found. bytes.now ≡ flat_map line_text (map gap_line found.0.items) ++ found.1.now) }
    ensures all { IfOk result (λ found. region_at (codes "gap ") found.1.now ≡ None) }
    ensures fit { IfOk result (λ found. AllByRecursion IsRegion found.0.items) }
{
    let mut gaps = Vec::new(alloc);
    let mut rest = bytes;
    while let Some((gap, after)) = region_of(b"gap ", rest) {
        gaps.push(gap)?;
        rest = after;
    }
    Ok((gaps, rest))
}

/// The globals whose lines stand at the front, up to the first other line.
fn globals_of(alloc: Allocator, bytes: &[u8]) -> Result<(Vec<Global>, &[u8]), AllocError>
    ensures found { IfOk result
        (λ found. bytes.now ≡ flat_map line_text (map global_line (map global_of found.0.items))
        ++ found.1.now) }
    ensures all { IfOk result (λ found. global_at found.1.now ≡ None) }
    ensures fit { IfOk result (λ found. AllByRecursion IsGlobal (map global_of found.0.items)) }
{
    let mut globals = Vec::new(alloc);
    let mut rest = bytes;
    while let Some((name, address, after)) = global_of(rest) {
        let name = Vec::from_slice(alloc, name)?;
        globals.push(Global { name, address })?;
        rest = after;
    }
    Ok((globals, rest))
}

/// The dropped sections whose lines stand at the front, up to the first other line.
fn drops_of(alloc: Allocator, bytes: &[u8]) -> Result<(Vec<SectionId>, &[u8]), AllocError>
    ensures found { IfOk result
        (λ found. bytes.now ≡ flat_map line_text (map drop_line found.0.items) ++ found.1.now) }
    ensures all { IfOk result (λ found. drop_at found.1.now ≡ None) }
    ensures fit { IfOk result (λ found. AllByRecursion IsDrop found.0.items) }
{
    let mut drops = Vec::new(alloc);
    let mut rest = bytes;
    while let Some((section, after)) = drop_of(rest) {
        drops.push(section)?;
        rest = after;
    }
    Ok((drops, rest))
}

/// The rows whose lines stand at the front, up to the first other line.
fn rows_of(alloc: Allocator, bytes: &[u8]) -> Result<(Vec<Row>, &[u8]), AllocError>
    ensures found { IfOk result
        (λ found. bytes.now ≡ flat_map line_text (map row_line found.0.items) ++ found.1.now) }
    ensures all { IfOk result (λ found. row_at found.1.now ≡ None) }
    ensures fit { IfOk result (λ found. AllByRecursion IsRow found.0.items) }
{
    let mut rows = Vec::new(alloc);
    let mut rest = bytes;
    while let Some((row, after)) = row_of(rest) {
        rows.push(row)?;
        rest = after;
    }
    Ok((rows, rest))
}

/// The region whose line stands at the front.
#[tactic(auto, unfolding(crate::specs::Reading::region_at))]
fn region_of<'a>(front: &[u8], bytes: &'a [u8]) -> Option<(Region, &'a [u8])>
    ensures exact { Gives (λ found. (found.0, found.1.now)) result (region_at front.now bytes.now) }
    ensures found { IfSome result
        (λ found. bytes.now ≡ front.now
        ++ (line_text (hexadecimal found.0.start ∷ hexadecimal found.0.end ∷ []) ++ found.1.now)) }
    ensures fits { IfSome result (λ found. IsRegion found.0) }
{
    let rest = behind(front, bytes)?;
    let (start, rest) = number_before(HEXADECIMAL, b' ', rest)?;
    let (end, rest) = number_before(HEXADECIMAL, b'\n', rest)?;
    Some((Region { start, end }, rest))
}

/// The name and the address of the global whose line stands at the front.
#[tactic(auto, unfolding(crate::specs::Reading::global_at))]
fn global_of(bytes: &[u8]) -> Option<(&[u8], u64, &[u8])>
    ensures exact { Gives
        (λ found. (record { name = found.0.now; address = found.1 }, found.2.now)) result
        (global_at bytes.now) }
    ensures found { IfSome result
        (λ found. bytes.now
        ≡ line_text (global_line (record { name = found.0.now; address = found.1 }))
        ++ found.2.now) }
    ensures named { IfSome result (λ found. IsTrue (is_name found.0.now)) }
    ensures fits { IfSome result (λ found. IsNumber found.1) }
{
    let rest = behind(b"global ", bytes)?;
    let (name, rest) = cut(b' ', rest)?;
    let (address, rest) = number_before(HEXADECIMAL, b'\n', rest)?;
    if is_name(name) {
        Some((name, address, rest))
    } else {
        None
    }
}

/// The dropped section whose line stands at the front.
#[tactic(auto, unfolding(crate::specs::Reading::drop_at))]
fn drop_of(bytes: &[u8]) -> Option<(SectionId, &[u8])>
    ensures exact { Gives (λ found. (found.0, found.1.now)) result (drop_at bytes.now) }
    ensures found { IfSome result
        (λ found. bytes.now ≡ line_text (drop_line found.0) ++ found.1.now) }
    ensures fits { IfSome result (λ found. IsDrop found.0) }
{
    let rest = behind(b"drop ", bytes)?;
    let (file, rest) = number_before(DECIMAL, b' ', rest)?;
    let (section, rest) = number_before(DECIMAL, b'\n', rest)?;
    Some((SectionId { file, section }, rest))
}

/// The row whose line stands at the front.
#[tactic(auto, unfolding(crate::specs::Reading::row_at))]
fn row_of(bytes: &[u8]) -> Option<(Row, &[u8])>
    ensures exact { Gives (λ found. (found.0, found.1.now)) result (row_at bytes.now) }
    ensures found { IfSome result
        (λ found. bytes.now ≡ line_text (row_line found.0) ++ found.1.now) }
    ensures fits { IfSome result (λ found. IsRow found.0) }
{
    let rest = behind(b"row ", bytes)?;
    let (file, rest) = number_before(DECIMAL, b' ', rest)?;
    let (line, rest) = number_before(DECIMAL, b' ', rest)?;
    let (ordinal, rest) = number_before(DECIMAL, b' ', rest)?;
    let (address, rest) = number_before(HEXADECIMAL, b' ', rest)?;
    let (bytes, rest) = number_before(DECIMAL, b' ', rest)?;
    let (instructions, rest) = number_before(DECIMAL, b'\n', rest)?;
    let row = Row {
        file,
        line,
        ordinal,
        address,
        bytes,
        instructions,
    };
    Some((row, rest))
}

/// Whether a map can show the name: one byte or more, each of them printed and no blank.
fn is_name(name: &[u8]) -> bool
    ensures { result ≡ is_name name.now }
{
    !name.is_empty() && are_shown(name)
}

/// Whether each byte is printed and no blank: 21h to 7Eh.
fn are_shown(name: &[u8]) -> bool
    ensures { result ≡ list_all is_name_byte name.now }
{
    name.iter().all(|byte| b'!' <= *byte && *byte <= b'~')
}

/// What stands after this front.
#[tactic(auto, unfolding(crate::specs::Reading::behind))]
fn behind<'a>(front: &[u8], bytes: &'a [u8]) -> Option<&'a [u8]>
    ensures exact { Gives (λ found. found.now) result (behind front.now bytes.now) }
    ensures found { IfSome result (λ found. bytes.now ≡ front.now ++ found.now) }
{
    bytes.strip_prefix(front)
}
