//! The sections of an object's file.

ghost use Rattle.std.specs.Prelude.{◌≡◌, ◌+◌, ◌++◌, ◌∷◌, [], ◌<◌, ◌^◌, map, codes, IfOk, OnOk};
ghost use Rattle.std.specs.List.{AllByRecursion};
ghost use Rattle.rv_elf_laws.specs.Fields.{symbol_size};
ghost use Rattle.rv_elf_laws.specs.Numbers.{sht_strtab, sht_symtab};
ghost use Rattle.rv_object_laws.specs.Object.{size_of};
ghost use Rattle.rv_object_types.specs.Sections.{section_of};
ghost use Rattle.rv_object_types.specs.View.{object_of};
ghost use Rattle.rv_object_file_laws.specs.Written.{section_piece, table_piece, row_pieces, symtab_index, first_pieces, symbol_names, rela_pieces, locals};
ghost use Rattle.rv_object_writer.specs.Pieces.{piece_of, rela_piece, AreTables, HaveKnownNumbers};

use crate::names::{SECTION_NAMES, symbol_names};
use crate::piece::{Body, Piece};
use crate::tables::{RelaTable, locals, rela_tables, symbols_table};
use rv_elf::{SHT_RELA, SHT_STRTAB, SHT_SYMTAB};
use rv_object_types::{Object, Row, Section};
use std::alloc::{AllocError, Global};

/// What the file has beside the contents of the object's sections.
#[derive(Drop)]
pub(crate) struct Tables {
    pub relocations: Vec<RelaTable>,
    pub symbols: Vec<u8>,
    /// The names of the symbols.
    pub names: Vec<u8>,
    /// The index of the section of symbols; a number of 64 bits need not hold the sum of the counts before it.
    pub symtab: u128,
}

/// The index of the section of symbols.
fn symtab_index(object: &Object<'_>, relocations: &[RelaTable]) -> u128
    requires { map (rela_piece 0) relocations.now
        ≡ rela_pieces 0 1 (object_of object.now).sections }
    ensures at { result ≡ symtab_index (object_of object.now) }
    ensures room { result + 2 < 2 ^ 128 }
{
    let rows = u128::from(!object.rows.is_empty());
    1 + object.sections.len() as u128 + relocations.len() as u128 + rows
}

impl Tables {
    /// Those of an object.
    pub(crate) fn of(alloc: Global, object: &Object<'_>) -> Result<Self, AllocError>
        ensures tables { IfOk result (λ tables. AreTables (object_of object.now) tables) }
        ensures room { IfOk result (λ tables. tables.symtab + 2 < 2 ^ 128) }
        ensures known { IfOk result (λ tables. HaveKnownNumbers (object_of object.now)) }
    {
        let relocations = rela_tables(alloc, object.sections.as_slice())?;
        let symtab = symtab_index(object, relocations.as_slice());
        let names = symbol_names(alloc, object.symbols.as_slice())?;
        let symbols = symbols_table(alloc, &names, symtab + 2, object.symbols.as_slice())?;
        Ok(Tables {
            relocations,
            symbols,
            names: names.into_bytes(),
            symtab,
        })
    }
}

/// Adds the sections of the object.
fn put_sections<'p>(
    pieces: &mut Vec<Piece<'p>>,
    sections: &'p [Section<'p>],
) -> Result<(), AllocError>
    ensures added { OnOk result (map piece_of pieces.new.items ≡ map piece_of pieces.old.items
        ++ map section_piece (map section_of sections.now)) }
    ensures sizes { OnOk result
        (AllByRecursion (λ s. size_of s.contents < 2 ^ 64) (map section_of sections.now)) }
{
    for section in sections {
        pieces.push(Piece::of(section))?;
    }
    Ok(())
}

/// The section of a table of relocations.
fn rela_section<'p>(symtab: u128, table: &'p RelaTable) -> Piece<'p>
    ensures { piece_of result ≡ rela_piece symtab table.now }
{
    Piece {
        name: table.name.as_slice(),
        kind: SHT_RELA,
        flags: 0,
        body: Body::Bytes(table.bytes.as_slice()),
        size: table.bytes.len() as u128,
        link: symtab,
        info: u128::from(table.section),
        alignment: 8,
        entry_size: 24,
    }
}

/// Adds the sections of relocations.
fn put_relocations<'p>(
    pieces: &mut Vec<Piece<'p>>,
    symtab: u128,
    tables: &'p [RelaTable],
) -> Result<(), AllocError>
    ensures { OnOk result (map piece_of pieces.new.items ≡ map piece_of pieces.old.items
        ++ map (rela_piece symtab) tables.now) }
{
    for table in tables {
        pieces.push(rela_section(symtab, table))?;
    }
    Ok(())
}

/// Adds the section of rows, if there are some.
fn put_rows<'p>(pieces: &mut Vec<Piece<'p>>, rows: &'p [Row]) -> Result<(), AllocError>
    ensures { OnOk result
        (map piece_of pieces.new.items ≡ map piece_of pieces.old.items ++ row_pieces rows.now) }
{
    if rows.is_empty() {
        return Ok(());
    }
    pieces.push(Piece::rows(rows))?;
    Ok(())
}

/// The section of symbols: its link is the section of their names, its info the first symbol that is not local.
fn symbols_section<'p>(symtab: u128, locals: u128, bytes: &'p [u8]) -> Piece<'p>
    requires room { symtab + 1 < 2 ^ 128 }
    requires few { locals + 1 < 2 ^ 128 }
    ensures { piece_of result ≡ table_piece (codes ".symtab") sht_symtab bytes.now
        (symtab + 1) (1 + locals) 8 symbol_size }
{
    Piece {
        name: b".symtab",
        kind: SHT_SYMTAB,
        flags: 0,
        body: Body::Bytes(bytes),
        size: bytes.len() as u128,
        link: symtab + 1,
        info: 1 + locals,
        alignment: 8,
        entry_size: 24,
    }
}

/// The sections of an object's file, but for that of their names.
pub(crate) fn first_pieces<'p>(
    alloc: Global,
    object: &'p Object<'p>,
    tables: &'p Tables,
) -> Result<Vec<Piece<'p>>, AllocError>
    requires tables { AreTables (object_of object.now) tables.now }
    requires room { (tables.now).symtab + 2 < 2 ^ 128 }
    ensures pieces { IfOk result
        (λ pieces. map piece_of pieces.items ≡ first_pieces (object_of object.now)) }
    ensures sizes { IfOk result (λ pieces. AllByRecursion
        (λ s. size_of s.contents < 2 ^ 64) (object_of object.now).sections) }
{
    let mut pieces = Vec::new(alloc);
    put_sections(&mut pieces, object.sections.as_slice())?;
    put_relocations(&mut pieces, tables.symtab, tables.relocations.as_slice())?;
    put_rows(&mut pieces, object.rows.as_slice())?;
    let locals = u128::from(locals(object.symbols.as_slice()));
    pieces.push(symbols_section(tables.symtab, locals, tables.symbols.as_slice()))?;
    pieces.push(Piece::table(b".strtab", SHT_STRTAB, tables.names.as_slice(), 1, 0))?;
    Ok(pieces)
}

/// The same, and the section of their names.
pub(crate) fn all_pieces<'p>(
    alloc: Global,
    object: &'p Object<'p>,
    tables: &'p Tables,
    names: &'p [u8],
) -> Result<Vec<Piece<'p>>, AllocError>
    requires tables { AreTables (object_of object.now) tables.now }
    requires room { (tables.now).symtab + 2 < 2 ^ 128 }
    ensures { IfOk result (λ pieces. map piece_of pieces.items ≡ first_pieces (object_of object.now)
        ++ table_piece (codes ".shstrtab") sht_strtab names.now 0 0 1 0 ∷ []) }
{
    let mut pieces = first_pieces(alloc, object, tables)?;
    pieces.push(Piece::table(b".shstrtab", SHT_STRTAB, names, 1, 0))?;
    Ok(pieces)
}
