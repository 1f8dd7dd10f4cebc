//! The tables of a file: relocations, rows and symbols.
//!
//! Their bytes are made before any section is written, since the headers of the file and of its sections say how large
//! they are; of rows, which are 32 bytes each, their number says it. The loops that write relocations and symbols also show
//! that their numbers have the widths of their fields; of rows the object says it.

ghost use Rattle.std.specs.Prelude.{◌≡◌, ◌+◌, ◌<◌, ◌%◌, ◌^◌, ℕ, List, [], ◌∷◌, ◌++◌, map, flat_map, replicate, codes, IfOk, OnOk};
ghost use Rattle.std.specs.List.{AllByRecursion};
ghost use Rattle.rv_elf_laws.specs.Fields.{symbol_size};
ghost use Rattle.rv_elf_laws.specs.Records.{rela_bytes, symbol_bytes};
ghost use Rattle.rv_object_types.specs.Parts.{relocation_of, symbol_of};
ghost use Rattle.rv_object_types.specs.Sections.{section_of};
ghost use Rattle.rv_object_file_laws.specs.Known.{IsRelocation, IsSymbol};
ghost use Rattle.rv_object_file_laws.specs.Rows.{row_bytes};
ghost use Rattle.rv_object_file_laws.specs.Written.{strings_of, symbol_number, rela_of, relocations_bytes, row_record, binding_number, section_index_of, definition_value, symbol_record, is_local, locals, rela_pieces};
ghost use Rattle.rv_object_writer.specs.Pieces.{rela_piece, rows_bytes};
ghost use Rattle.rv_object_writer.specs.Strings.{IsStringTable};

use crate::strings::StringTable;
use byteorder::{ByteOrder, LittleEndian};
use rv_elf::{ElfWriter, SHN_ABS, SHN_UNDEF, STB_GLOBAL, STB_LOCAL, STB_WEAK, SYMBOL_SIZE};
use rv_elf_laws::{Rela, Symbol as SymbolRecord};
use rv_object_types::{Binding, Definition, Relocation, Row, Section, Symbol};
use std::alloc::{AllocError, Global};

// ---- relocations

/// The index of a symbol in the file, whose symbol 0 is none.
fn symbol_number(symbol: Option<u32>) -> u32
    ensures { result ≡ symbol_number symbol % 2 ^ 32 }
{
    match symbol {
        Some(index) => index.wrapping_add(1),
        None => 0,
    }
}

/// Writes a relocation.
#[tactic(auto, unfolding(rv_elf_laws::specs::Records::rela_bytes))]
fn put_relocation(out: &mut ElfWriter, relocation: Relocation) -> Result<(), AllocError>
    ensures written { OnOk result
        (out.new ≡ out.old ++ rela_bytes (rela_of (relocation_of relocation))) }
    ensures known { IsRelocation (relocation_of relocation) }
{
    out.rela(&Rela {
        r_offset: relocation.place,
        r_type: relocation.kind.number(),
        r_sym: symbol_number(relocation.symbol),
        r_addend: relocation.addend,
    })
}

/// The bytes of relocations.
fn relocations_table(alloc: Global, relocations: &[Relocation]) -> Result<Vec<u8>, AllocError>
    ensures written { IfOk result
        (λ bytes. bytes.items ≡ relocations_bytes (map relocation_of relocations.now)) }
    ensures known { IfOk result
        (λ bytes. AllByRecursion IsRelocation (map relocation_of relocations.now)) }
{
    let mut out = ElfWriter::new(alloc);
    for relocation in relocations {
        put_relocation(&mut out, *relocation)?;
    }
    Ok(out.finish())
}

/// The relocations of a section of the object.
#[derive(Drop)]
pub(crate) struct RelaTable {
    pub name: Vec<u8>,
    pub bytes: Vec<u8>,
    /// The index of the section in the file.
    pub section: u64,
}

/// The table of a section's relocations, by the section's index in the file.
fn rela_table(alloc: Global, index: u64, section: &Section<'_>) -> Result<RelaTable, AllocError>
    ensures name { IfOk result (λ t. t.name.items ≡ codes ".rela" ++ (section.now).name.now) }
    ensures bytes { IfOk result (λ t. t.bytes.items
        ≡ relocations_bytes (map relocation_of (section.now).relocations.items)) }
    ensures section { IfOk result (λ t. t.section ≡ index) }
    ensures known { IfOk result
        (λ t. AllByRecursion IsRelocation (section_of section.now).relocations) }
{
    let mut name = Vec::new(alloc);
    name.extend_from_slice(b".rela")?;
    name.extend_from_slice(section.name)?;
    let bytes = relocations_table(alloc, section.relocations.as_slice())?;
    Ok(RelaTable {
        name,
        bytes,
        section: index,
    })
}

/// Adds the table of a section's relocations, if it has some.
fn put_rela_table(
    alloc: Global,
    tables: &mut Vec<RelaTable>,
    index: u64,
    section: &Section<'_>,
) -> Result<(), AllocError>
    ensures added { OnOk result ((symtab : ℕ) → map (rela_piece symtab) tables.new.items
        ≡ map (rela_piece symtab) tables.old.items
        ++ rela_pieces symtab index (section_of section.now ∷ [])) }
    ensures known { OnOk result
        (AllByRecursion IsRelocation (section_of section.now).relocations) }
{
    if section.relocations.is_empty() {
        return Ok(());
    }
    tables.push(rela_table(alloc, index, section)?)?;
    Ok(())
}

/// The tables of the relocations of sections.
pub(crate) fn rela_tables(
    alloc: Global,
    sections: &[Section<'_>],
) -> Result<Vec<RelaTable>, AllocError>
    ensures tables { IfOk result (λ tables. (symtab : ℕ) → map (rela_piece symtab) tables.items
        ≡ rela_pieces symtab 1 (map section_of sections.now)) }
    ensures known { IfOk result (λ tables. AllByRecursion
        (λ s. AllByRecursion IsRelocation s.relocations) (map section_of sections.now)) }
{
    let mut tables = Vec::new(alloc);
    for i in 0..sections.len() {
        put_rela_table(alloc, &mut tables, i as u64 + 1, &sections[i])?;
    }
    Ok(tables)
}

// ---- rows

/// The bytes of a row.
const ROW_SIZE: usize = 32;

/// Its bytes, by the index of its section in the file.
#[tactic(auto, unfolding(rv_object_file_laws::specs::Rows::row_bytes))]
fn row_bytes(row: &Row, section: u32) -> [u8; ROW_SIZE]
    ensures { result ≡ row_bytes (record (row_record row.now) { r_section = section }) }
{
    let mut bytes = [0; ROW_SIZE];
    LittleEndian::write_u32(&mut bytes[0..], row.line);
    LittleEndian::write_u32(&mut bytes[4..], row.ordinal);
    LittleEndian::write_u32(&mut bytes[8..], section);
    LittleEndian::write_u32(&mut bytes[12..], row.instructions);
    LittleEndian::write_u64(&mut bytes[16..], row.offset);
    LittleEndian::write_u32(&mut bytes[24..], row.bytes);
    LittleEndian::write_u32(&mut bytes[28..], 0);
    bytes
}

/// Writes a row.
fn put_row(out: &mut ElfWriter, row: &Row) -> Result<(), AllocError>
    ensures { OnOk result (out.new ≡ out.old ++ row_bytes (row_record row.now)) }
{
    out.raw(&row_bytes(row, row.section.wrapping_add(1)))
}

/// Writes rows.
pub(crate) fn put_rows(out: &mut ElfWriter, rows: &[Row]) -> Result<(), AllocError>
    ensures { OnOk result (out.new ≡ out.old ++ rows_bytes rows.now) }
{
    for row in rows {
        put_row(out, row)?;
    }
    Ok(())
}

// ---- symbols

/// Who may name it (`st_info`, its upper half).
fn binding(binding: Binding) -> u8
    ensures { result ≡ binding_number binding }
{
    match binding {
        Binding::Local => STB_LOCAL,
        Binding::Global => STB_GLOBAL,
        Binding::Weak => STB_WEAK,
    }
}

/// The index of a symbol's section; one without an address names the last section.
fn section_index(last: u128, definition: Definition) -> u16
    ensures { result ≡ section_index_of last definition % 2 ^ 16 }
{
    match definition {
        Definition::Undefined => SHN_UNDEF,
        Definition::Absolute(_) => SHN_ABS,
        Definition::InSection(section, _) => ((section as u64 + 1) % 0x1_0000) as u16,
        Definition::Skipped(_) => (last % 0x1_0000) as u16,
    }
}

/// The value of a symbol.
fn value(definition: Definition) -> u64
    ensures is { result ≡ definition_value definition }
    ensures small { definition_value definition < 2 ^ 64 }
{
    match definition {
        Definition::Undefined => 0,
        Definition::Absolute(value) => value,
        Definition::InSection(_, offset) => offset,
        Definition::Skipped(value) => value,
    }
}

/// Writes a symbol.
#[tactic(auto, unfolding(rv_elf_laws::specs::Records::symbol_bytes))]
fn put_symbol(
    out: &mut ElfWriter,
    names: &StringTable<'_>,
    last: u128,
    symbol: &Symbol<'_>,
) -> Result<(), AllocError>
    ensures written { OnOk result ((ns : List (List ℕ)) → IsStringTable (strings_of ns) names.now
        → out.new ≡ out.old ++ symbol_bytes (symbol_record ns last (symbol_of symbol.now))) }
    ensures known { OnOk result (IsSymbol (symbol_of symbol.now)) }
{
    let name = names.offset(symbol.name);
    out.symbol(&SymbolRecord {
        st_name: (name % 0x1_0000_0000) as u32,
        st_info: binding(symbol.binding) * 16,
        st_other: 0,
        st_shndx: section_index(last, symbol.definition),
        st_value: value(symbol.definition),
        st_size: 0,
    })?;
    Ok(())
}

/// The bytes of symbols, after symbol 0.
pub(crate) fn symbols_table(
    alloc: Global,
    names: &StringTable<'_>,
    last: u128,
    symbols: &[Symbol<'_>],
) -> Result<Vec<u8>, AllocError>
    ensures written { IfOk result (λ bytes. (ns : List (List ℕ)) →
        IsStringTable (strings_of ns) names.now
        → bytes.items ≡ replicate symbol_size 0
        ++ flat_map (λ s. symbol_bytes (symbol_record ns last s)) (map symbol_of symbols.now)) }
    ensures known { IfOk result (λ bytes. AllByRecursion IsSymbol (map symbol_of symbols.now)) }
{
    let mut out = ElfWriter::new(alloc);
    out.zeros(SYMBOL_SIZE)?;
    for symbol in symbols {
        put_symbol(&mut out, names, last, symbol)?;
    }
    Ok(out.finish())
}

/// Whether only its own object may name it.
fn is_local(symbol: &Symbol<'_>) -> bool
    ensures { result ≡ is_local (symbol_of symbol.now) }
{
    match symbol.binding {
        Binding::Local => true,
        Binding::Global | Binding::Weak => false,
    }
}

/// How many symbols stand before the first that other objects may name.
pub(crate) fn locals(symbols: &[Symbol<'_>]) -> u64
    ensures count { result ≡ locals (map symbol_of symbols.now) }
    ensures room { result + 1 < 2 ^ 64 }
{
    for i in 0..symbols.len() {
        if !is_local(&symbols[i]) {
            return i as u64;
        }
    }
    symbols.len() as u64
}
