//! Writes the file: the executable, the table of section headers, and the sections that are not loaded.

ghost use Rattle.std.specs.Prelude.{◌≡◌, ◌+◌, ◌*◌, ◌<◌, ◌≤◌, ◌⊎◌, ◌^◌, ◌++◌, ℕ, List, [], ◌∷◌, true, false, length, flat_map, replicate, IfOk, IfErr, IfNone, IfSome, MatchOption, OnOk};
ghost use Rattle.std.specs.List.{AllByRecursion};
ghost use Rattle.rv_elf_laws.specs.FirstFault.{first_true, open_tests};
ghost use Rattle.rv_elf_laws.specs.Records.{section_header_bytes};
ghost use Rattle.rv_map_laws.specs.Limits.{AreRegions, IsRegion};
ghost use Rattle.rv_map.specs.Views.{map_of};
ghost use Rattle.rv_debug_laws.specs.Code.{are_by_file};
ghost use Rattle.rv_debug_laws.specs.DebugFile.{AreStored, HasDebug, IsDebugFile};
ghost use Rattle.rv_debug_laws.specs.File.{all_headers, file_with, gap_behind, headers_from, loaded_headers, null_header, pieces_of, region_header, symbols_piece, table_place, with_table};
ghost use Rattle.rv_debug_laws.specs.Stored.{can_grow};
ghost use Rattle.rv_debug.specs.Refused.{IsOther, AreLong, IsDebugRefused};
ghost use Rattle.rv_debug.specs.Views.{AreBounded, AreShort, AreTables, debug_of, front_with, piece_bytes, piece_of, places_of, unloaded_of};
ghost use Rattle.rv_labels.specs.Known.{plain_names};

use crate::code::are_by_file;
use crate::executable::{open, stored_at};
use crate::fault::DebugFault;
use crate::numbers::{
    BSS_NAME, DATA_NAME, DEBUG_ABBREV_NAME, DEBUG_ARANGES_NAME, DEBUG_INFO_NAME, DEBUG_LINE_NAME,
    RODATA_NAME, SECTION_STRINGS, SECTION_TOTAL, SHSTRTAB, SHSTRTAB_NAME, STRTAB, STRTAB_NAME,
    SYMTAB_NAME, TEXT_NAME, TOO_LONG,
};
use crate::piece::Piece;
use crate::symbols::{string_table, symbol_table};
use crate::units::{ABBREVIATIONS, DebugSections, units_of};
use rv_debug_laws::{SourceFile, debug_file_is_read};
use rv_elf::{
    ElfWriter, SECTION_HEADER_SIZE, SHF_ALLOC, SHF_EXECINSTR, SHF_WRITE, SHT_NOBITS, SHT_NULL,
    SHT_PROGBITS, SHT_STRTAB, SHT_SYMTAB, SYMBOL_SIZE, SectionHeader,
};
use rv_labels::Names;
use rv_map::{Map, Region};
use std::alloc::{AllocError, Global};

/// Where the executable has the bytes of its regions.
#[derive(Clone, Copy, Drop)]
pub(crate) struct StoredPlaces {
    pub text: u64,
    pub rodata: u64,
    pub data: u64,
}

/// The tables of the sections that are not loaded.
#[derive(Drop)]
pub(crate) struct Tables {
    /// How many symbols are local.
    pub locals: u32,
    pub symbols: Vec<u8>,
    pub strings: Vec<u8>,
    pub debug: DebugSections,
}

/// The file of an executable with debug information: of its map, of what is known of its names, and of its sources, which were
/// assembled in this directory.
pub fn with_debug(
    alloc: Global,
    exe: &[u8],
    map: &Map,
    names: &Names<'_, '_>,
    directory: &[u8],
    sources: &[SourceFile<'_>],
) -> Result<Vec<u8>, DebugFault>
    ensures written { IfOk result (λ file. IsDebugFile exe.now
        (map_of map.now) (plain_names names.now) directory.now sources.now file.items) }
    // What a reader finds in it.
    ensures found { IfOk result (λ file. HasDebug exe.now
        (map_of map.now) (plain_names names.now) directory.now sources.now file.items) }
    ensures refuses { IfErr result (IsDebugRefused exe.now
        (map_of map.now) (plain_names names.now) directory.now sources.now) }
{
    debug_file_is_read();
    if exe.len() >= TOO_LONG {
        return Err(DebugFault::TooLong);
    }
    let Some(places) = places_in(exe, map) else {
        return Err(DebugFault::OtherExecutable);
    };
    if !are_by_file(map.rows.as_slice()) {
        return Err(DebugFault::RowsOutOfOrder);
    }
    let Some(tables) = tables_of(alloc, map, names, directory, sources)? else {
        return Err(DebugFault::TooLong);
    };
    let file = put_file(alloc, exe, map, places, &tables)?;
    Ok(file)
}

/// Where the executable has the bytes of the map's regions.
fn places_in(exe: &[u8], map: &Map) -> Option<StoredPlaces>
    ensures stored { IfSome result (λ places.
        AreStored exe.now (map_of map.now) (places_of places)) }
    ensures known { IfSome result (λ places. AreBounded (map_of map.now) (places_of places)) }
    ensures opens { IfSome result (λ places. first_true (open_tests exe.now) ≡ None) }
    ensures grows { IfSome result (λ places. can_grow exe.now ≡ true) }
    ensures long { IfSome result (λ places. 64 ≤ length exe.now) }
    ensures none { IfNone result (IsOther exe.now (map_of map.now)) }
{
    let view = open(exe)?;
    regions_are_known(map);
    Some(StoredPlaces {
        text: stored_at(&view, map.text)?,
        rodata: stored_at(&view, map.rodata)?,
        data: stored_at(&view, map.data)?,
    })
}

/// The bounds of regions have 64 bits.
fn regions_are_known(map: &Map)
    ensures { AreRegions (map_of map.now) }
{
    region_is_known(map.text);
    region_is_known(map.rodata);
    region_is_known(map.data);
    region_is_known(map.bss);
}

/// The bounds of a region have 64 bits.
fn region_is_known(region: Region)
    ensures { IsRegion region }
{}

/// The tables of the sections that are not loaded; none where a number needs more than 32 bits.
fn tables_of(
    alloc: Global,
    map: &Map,
    names: &Names<'_, '_>,
    directory: &[u8],
    sources: &[SourceFile<'_>],
) -> Result<Option<Tables>, AllocError>
    requires { are_by_file 0 map.now.rows.items ≡ true }
    ensures some { IfOk result (λ tables. IfSome tables (AreTables (map_of map.now)
        (plain_names names.now) directory.now sources.now)) }
    ensures none { IfOk result (λ tables. IfNone tables
        (AreLong (map_of map.now) (plain_names names.now) directory.now sources.now)) }
{
    let strings = string_table(alloc, names)?;
    if strings.len() >= TOO_LONG {
        return Ok(None);
    }
    let symbols = symbol_table(alloc, map, names)?;
    let rows = map.rows.as_slice();
    let Some(debug) = units_of(alloc, map, rows, directory, sources)? else {
        return Ok(None);
    };
    if is_long(&debug) {
        return Ok(None);
    }
    Ok(Some(Tables {
        locals: names.labels.len() as u32,
        symbols,
        strings,
        debug,
    }))
}

/// Whether a section has 2^32 bytes or more.
fn is_long(debug: &DebugSections) -> bool
    ensures yes { result ≡ true → (2 ^ 32 ≤ length debug.now.lines.items)
        ⊎ ((2 ^ 32 ≤ length debug.now.info.items) ⊎ (2 ^ 32 ≤ length debug.now.ranges.items)) }
    ensures no { result ≡ false → (length debug.now.lines.items < 2 ^ 32)
        × (length debug.now.info.items < 2 ^ 32) × (length debug.now.ranges.items < 2 ^ 32) }
{
    debug.lines.len() >= TOO_LONG || debug.info.len() >= TOO_LONG || debug.ranges.len() >= TOO_LONG
}

/// The sections that are not loaded, in their order.
fn pieces_in(alloc: Global, tables: &Tables) -> Result<Vec<Piece<'_>>, AllocError>
    requires { 1 + tables.now.locals < 2 ^ 32 }
    ensures { IfOk result (λ pieces. unloaded_of pieces.items ≡ pieces_of tables.now.locals
        tables.now.symbols.items tables.now.strings.items (debug_of tables.now.debug)) }
{
    let debug = &tables.debug;
    let mut pieces = Vec::new(alloc);
    pieces.push(symbols_piece(tables.locals, tables.symbols.as_slice()))?;
    pieces.push(Piece::plain(STRTAB_NAME, SHT_STRTAB, tables.strings.as_slice()))?;
    pieces.push(Piece::plain(SHSTRTAB_NAME, SHT_STRTAB, &SECTION_STRINGS))?;
    pieces.push(Piece::plain(DEBUG_LINE_NAME, SHT_PROGBITS, debug.lines.as_slice()))?;
    pieces.push(Piece::plain(DEBUG_INFO_NAME, SHT_PROGBITS, debug.info.as_slice()))?;
    pieces.push(Piece::plain(DEBUG_ABBREV_NAME, SHT_PROGBITS, &ABBREVIATIONS))?;
    pieces.push(Piece::plain(DEBUG_ARANGES_NAME, SHT_PROGBITS, debug.ranges.as_slice()))?;
    Ok(pieces)
}

/// The section of symbols: its link is the section of their names, its info the first symbol that is not local.
fn symbols_piece(locals: u32, bytes: &[u8]) -> Piece<'_>
    requires { 1 + locals < 2 ^ 32 }
    ensures { piece_of result ≡ symbols_piece locals bytes.now }
{
    Piece {
        name: SYMTAB_NAME,
        kind: SHT_SYMTAB,
        link: STRTAB,
        info: 1 + locals,
        alignment: 8,
        entry_size: SYMBOL_SIZE as u64,
        bytes,
    }
}

/// The file: the executable, the section headers, and the contents of what is not loaded.
fn put_file(
    alloc: Global,
    exe: &[u8],
    map: &Map,
    places: StoredPlaces,
    tables: &Tables,
) -> Result<Vec<u8>, AllocError>
    requires long { 64 ≤ length exe.now }
    requires short { length exe.now < 2 ^ 32 }
    requires tables { AreShort tables.now }
    ensures { IfOk result (λ file. file.items ≡ file_with exe.now (map_of map.now) (places_of places)
        (pieces_of tables.now.locals tables.now.symbols.items tables.now.strings.items
        (debug_of tables.now.debug))) }
{
    let pieces = pieces_in(alloc, tables)?;
    let mut out = ElfWriter::new(alloc);
    put_parts(&mut out, exe, map, places, pieces.as_slice())?;
    Ok(out.finish())
}

/// Writes the executable, the section headers, and the contents of what is not loaded.
fn put_parts(
    out: &mut ElfWriter,
    exe: &[u8],
    map: &Map,
    places: StoredPlaces,
    pieces: &[Piece<'_>],
) -> Result<(), AllocError>
    requires long { 64 ≤ length exe.now }
    requires short { length exe.now < 2 ^ 32 }
    requires sizes { length (piece_bytes (unloaded_of pieces.now)) < 2 ^ 63 }
    ensures { OnOk result (out.new ≡ out.old ++ file_with exe.now (map_of map.now)
        (places_of places) (unloaded_of pieces.now)) }
{
    put_executable(out, exe)?;
    put_headers(out, exe, map, places, pieces)?;
    put_contents(out, pieces)?;
    Ok(())
}

/// How many zeros stand behind the executable: up to a multiple of 8.
fn gap_behind(exe: &[u8]) -> usize
    ensures { result ≡ gap_behind exe.now }
{
    (8 - exe.len() % 8) % 8
}

/// Writes the executable, with a header that leads to the section headers, and zeros up to these.
fn put_executable(out: &mut ElfWriter, exe: &[u8]) -> Result<(), AllocError>
    requires long { 64 ≤ length exe.now }
    requires short { length exe.now < 2 ^ 32 }
    ensures { OnOk result (out.new
        ≡ out.old ++ (with_table exe.now ++ replicate (gap_behind exe.now) 0)) }
{
    let gap = gap_behind(exe);
    put_front(out, exe, (exe.len() + gap) as u64)?;
    out.raw(&exe[64..])?;
    out.zeros(gap)?;
    Ok(())
}

/// Writes the header of the executable, whose four fields for section headers lead to those that follow.
fn put_front(out: &mut ElfWriter, exe: &[u8], table: u64) -> Result<(), AllocError>
    requires { 64 ≤ length exe.now }
    ensures { OnOk result (out.new ≡ out.old ++ front_with exe.now table) }
{
    out.raw(&exe[..40])?;
    out.raw(&table.to_le_bytes())?;
    out.raw(&exe[48..58])?;
    out.raw(&(SECTION_HEADER_SIZE as u16).to_le_bytes())?;
    out.raw(&SECTION_TOTAL.to_le_bytes())?;
    out.raw(&SHSTRTAB.to_le_bytes())
}

/// Writes the section headers.
fn put_headers(
    out: &mut ElfWriter,
    exe: &[u8],
    map: &Map,
    places: StoredPlaces,
    pieces: &[Piece<'_>],
) -> Result<(), AllocError>
    requires short { length exe.now < 2 ^ 32 }
    requires sizes { length (piece_bytes (unloaded_of pieces.now)) < 2 ^ 63 }
    ensures { OnOk result (out.new ≡ out.old ++ flat_map section_header_bytes
        (all_headers exe.now (map_of map.now) (places_of places) (unloaded_of pieces.now))) }
{
    let table = exe.len() + gap_behind(exe);
    let place = table + SECTION_HEADER_SIZE * usize::from(SECTION_TOTAL);
    put_loaded_headers(out, map, places)?;
    put_piece_headers(out, place as u64, pieces)?;
    Ok(())
}

/// Writes the headers of section 0 and of the sections that are loaded.
fn put_loaded_headers(
    out: &mut ElfWriter,
    map: &Map,
    places: StoredPlaces,
) -> Result<(), AllocError>
    ensures { OnOk result (out.new ≡ out.old ++ flat_map section_header_bytes
        (null_header ∷ loaded_headers (map_of map.now) (places_of places))) }
{
    put_null_header(out)?;
    put_text_headers(out, map, places)?;
    put_data_headers(out, map, places)
}

/// Writes the header of section 0.
fn put_null_header(out: &mut ElfWriter) -> Result<(), AllocError>
    ensures { OnOk result (out.new ≡ out.old ++ section_header_bytes null_header) }
{
    out.section_header(&SectionHeader {
        sh_name: 0,
        sh_type: SHT_NULL,
        sh_flags: 0,
        sh_addr: 0,
        sh_offset: 0,
        sh_size: 0,
        sh_link: 0,
        sh_info: 0,
        sh_addralign: 0,
        sh_entsize: 0,
    })
}

/// Writes the headers of the text and of the constants.
fn put_text_headers(out: &mut ElfWriter, map: &Map, places: StoredPlaces) -> Result<(), AllocError>
    ensures { OnOk result (out.new ≡ out.old
        ++ (section_header_bytes (region_header 1 1 6 places.text map.now.text)
        ++ section_header_bytes (region_header 7 1 2 places.rodata map.now.rodata))) }
{
    let execute = SHF_ALLOC + SHF_EXECINSTR;
    out.section_header(&region_header(TEXT_NAME, SHT_PROGBITS, execute, places.text, map.text))?;
    out.section_header(&region_header(
        RODATA_NAME,
        SHT_PROGBITS,
        SHF_ALLOC,
        places.rodata,
        map.rodata,
    ))
}

/// Writes the headers of the variables.
fn put_data_headers(out: &mut ElfWriter, map: &Map, places: StoredPlaces) -> Result<(), AllocError>
    ensures { OnOk result (out.new ≡ out.old
        ++ (section_header_bytes (region_header 15 1 3 places.data map.now.data)
        ++ section_header_bytes (region_header 21 8 3 0 map.now.bss))) }
{
    let write = SHF_WRITE + SHF_ALLOC;
    out.section_header(&region_header(DATA_NAME, SHT_PROGBITS, write, places.data, map.data))?;
    out.section_header(&region_header(BSS_NAME, SHT_NOBITS, write, 0, map.bss))
}

/// The header of a section that is loaded.
fn region_header(name: u32, kind: u32, flags: u64, place: u64, region: Region) -> SectionHeader
    ensures { result ≡ region_header name kind flags place region }
{
    SectionHeader {
        sh_name: name,
        sh_type: kind,
        sh_flags: flags,
        sh_addr: region.start,
        sh_offset: place,
        sh_size: region.end.saturating_sub(region.start),
        sh_link: 0,
        sh_info: 0,
        sh_addralign: 1,
        sh_entsize: 0,
    }
}

/// Writes the headers of sections whose contents stand one after another from a place on.
fn put_piece_headers(
    out: &mut ElfWriter,
    first: u64,
    pieces: &[Piece<'_>],
) -> Result<(), AllocError>
    requires { first + length (piece_bytes (unloaded_of pieces.now)) < 2 ^ 64 }
    ensures { OnOk result (out.new ≡ out.old
        ++ flat_map section_header_bytes (headers_from first (unloaded_of pieces.now))) }
{
    let mut place = first;
    for piece in pieces {
        out.section_header(&piece.header(place))?;
        place += piece.bytes.len() as u64;
    }
    Ok(())
}

/// Writes the contents of sections.
fn put_contents(out: &mut ElfWriter, pieces: &[Piece<'_>]) -> Result<(), AllocError>
    ensures { OnOk result (out.new ≡ out.old ++ piece_bytes (unloaded_of pieces.now)) }
{
    for piece in pieces {
        out.raw(piece.bytes)?;
    }
    Ok(())
}
