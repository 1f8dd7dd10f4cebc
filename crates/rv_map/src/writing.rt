//! The text of a map.

ghost use Rattle.std.specs.Prelude.{◌≡◌, ◌++◌, ◌∷◌, [], IfOk, OnOk, map, flat_map, codes, decimal};
ghost use Rattle.rv_map.specs.Views.{map_of, global_of};
ghost use Rattle.std.specs.List.{AllByRecursion};
ghost use Rattle.rv_map_laws.specs.Limits.{IsNumber, IsRegion, IsGlobal, IsDrop, IsRow, IsMap, AreRegions};
ghost use Rattle.rv_map_laws.specs.Text.{hexadecimal, line_text, region_line, gap_line, global_line, drop_line, row_line, region_lines, head_lines, map_text};

use crate::digits::put_hexadecimal;
use crate::map::{Global, Map};
use itoa::Buffer;
use rv_map_laws::{Region, Row, SectionId};
use std::alloc::{AllocError, Global as Allocator};

/// The text of a map: a line for each region, gap, global, dropped section and row.
pub fn write(alloc: Allocator, map: &Map) -> Result<Vec<u8>, AllocError>
    ensures text { IfOk result (λ text. text.items ≡ map_text (map_of map.now)) }
    // Its numbers and names are those that a text can show: reading the text gives this map.
    ensures readable { IfOk result (λ _. IsMap (map_of map.now)) }
{
    let mut text = Vec::new(alloc);
    put_head(&mut text, map)?;
    put_gaps(&mut text, &map.gaps)?;
    put_globals(&mut text, &map.globals)?;
    put_drops(&mut text, &map.drops)?;
    put_rows(&mut text, &map.rows)?;
    Ok(text)
}

#[tactic(auto, unfolding(rv_map_laws::specs::Text::line_text, rv_map_laws::specs::Text::head_lines))]
fn put_head(text: &mut Vec<u8>, map: &Map) -> Result<(), AllocError>
    ensures written { OnOk result
        (text.new.items ≡ text.old.items ++ flat_map line_text (head_lines (map_of map.now))) }
    ensures known { OnOk result
        (AreRegions (map_of map.now) × IsNumber (map_of map.now).entry) }
{
    text.extend_from_slice(b"rvmap 1\n")?;
    put_regions(text, map)?;
    put_entry(text, map.entry)?;
    Ok(())
}

fn put_regions(text: &mut Vec<u8>, map: &Map) -> Result<(), AllocError>
    ensures written { OnOk result
        (text.new.items ≡ text.old.items ++ flat_map line_text (region_lines (map_of map.now))) }
    ensures known { OnOk result (AreRegions (map_of map.now)) }
{
    put_region(text, b"text", map.text)?;
    put_region(text, b"rodata", map.rodata)?;
    put_region(text, b"data", map.data)?;
    put_region(text, b"bss", map.bss)?;
    Ok(())
}

#[tactic(auto, unfolding(rv_map_laws::specs::Text::line_text))]
fn put_entry(text: &mut Vec<u8>, entry: u64) -> Result<(), AllocError>
    ensures written { OnOk result
        (text.new.items ≡ text.old.items ++ line_text (codes "entry" ∷ hexadecimal entry ∷ [])) }
    ensures known { IsNumber entry }
{
    text.extend_from_slice(b"entry ")?;
    put_address(text, entry, b'\n')?;
    Ok(())
}

fn put_gaps(text: &mut Vec<u8>, gaps: &[Region]) -> Result<(), AllocError>
    ensures written { OnOk result
        (text.new.items ≡ text.old.items ++ flat_map line_text (map gap_line gaps.now)) }
    ensures known { OnOk result (AllByRecursion IsRegion gaps.now) }
{
    for gap in gaps {
        put_region(text, b"gap", *gap)?;
    }
    Ok(())
}

fn put_globals(text: &mut Vec<u8>, globals: &[Global]) -> Result<(), AllocError>
    ensures written { OnOk result
        (text.new.items ≡ text.old.items
        ++ flat_map line_text (map global_line (map global_of globals.now))) }
    ensures known { OnOk result (AllByRecursion IsGlobal (map global_of globals.now)) }
{
    for global in globals {
        put_global(text, global)?;
    }
    Ok(())
}

fn put_drops(text: &mut Vec<u8>, drops: &[SectionId]) -> Result<(), AllocError>
    ensures written { OnOk result
        (text.new.items ≡ text.old.items ++ flat_map line_text (map drop_line drops.now)) }
    ensures known { OnOk result (AllByRecursion IsDrop drops.now) }
{
    for section in drops {
        put_drop(text, *section)?;
    }
    Ok(())
}

fn put_rows(text: &mut Vec<u8>, rows: &[Row]) -> Result<(), AllocError>
    ensures written { OnOk result
        (text.new.items ≡ text.old.items ++ flat_map line_text (map row_line rows.now)) }
    ensures known { OnOk result (AllByRecursion IsRow rows.now) }
{
    for row in rows {
        put_row(text, *row)?;
    }
    Ok(())
}

#[tactic(auto, unfolding(rv_map_laws::specs::Text::line_text))]
fn put_region(text: &mut Vec<u8>, name: &[u8], region: Region) -> Result<(), AllocError>
    ensures written { OnOk result
        (text.new.items ≡ text.old.items ++ line_text (region_line name.now region)) }
    ensures known { IsRegion region }
{
    text.extend_from_slice(name)?;
    text.push(b' ')?;
    put_address(text, region.start, b' ')?;
    put_address(text, region.end, b'\n')?;
    Ok(())
}

#[tactic(auto, unfolding(rv_map_laws::specs::Text::line_text))]
fn put_global(text: &mut Vec<u8>, global: &Global) -> Result<(), AllocError>
    ensures written { OnOk result
        (text.new.items ≡ text.old.items ++ line_text (global_line (global_of global.now))) }
    ensures known { OnOk result (IsGlobal (global_of global.now)) }
{
    text.extend_from_slice(b"global ")?;
    text.extend_from_slice(&global.name)?;
    text.push(b' ')?;
    put_address(text, global.address, b'\n')?;
    Ok(())
}

#[tactic(auto, unfolding(rv_map_laws::specs::Text::line_text))]
fn put_drop(text: &mut Vec<u8>, section: SectionId) -> Result<(), AllocError>
    ensures written { OnOk result
        (text.new.items ≡ text.old.items ++ line_text (drop_line section)) }
    ensures known { IsDrop section }
{
    text.extend_from_slice(b"drop ")?;
    put_decimal(text, section.file, b' ')?;
    put_decimal(text, section.section, b'\n')?;
    Ok(())
}

#[tactic(auto, unfolding(rv_map_laws::specs::Text::line_text))]
fn put_row(text: &mut Vec<u8>, row: Row) -> Result<(), AllocError>
    ensures written { OnOk result
        (text.new.items ≡ text.old.items ++ line_text (row_line row)) }
    ensures known { IsRow row }
{
    put_statement(text, row)?;
    put_address(text, row.address, b' ')?;
    put_decimal(text, row.bytes, b' ')?;
    put_decimal(text, row.instructions, b'\n')?;
    Ok(())
}

/// The front of a row's line, which says which statement it is.
fn put_statement(text: &mut Vec<u8>, row: Row) -> Result<(), AllocError>
    ensures { OnOk result (text.new.items ≡ text.old.items
        ++ (codes "row " ++ (decimal row.file ++ 32 ∷
        (decimal row.line ++ 32 ∷ (decimal row.ordinal ++ 32 ∷ []))))) }
{
    text.extend_from_slice(b"row ")?;
    put_decimal(text, row.file, b' ')?;
    put_decimal(text, row.line, b' ')?;
    put_decimal(text, row.ordinal, b' ')?;
    Ok(())
}

fn put_decimal(text: &mut Vec<u8>, number: u64, end: u8) -> Result<(), AllocError>
    ensures { OnOk result (text.new.items ≡ text.old.items ++ (decimal number ++ end ∷ [])) }
{
    text.extend_from_slice(Buffer::new().format(number).as_bytes())?;
    Ok(text.push(end)?)
}

fn put_address(text: &mut Vec<u8>, address: u64, end: u8) -> Result<(), AllocError>
    ensures { OnOk result (text.new.items ≡ text.old.items ++ (hexadecimal address ++ end ∷ [])) }
{
    put_hexadecimal(text, address)?;
    Ok(text.push(end)?)
}
