//! Writes the file of an object.
//!
//! Nothing is refused but want of memory. An object with more sections, symbols or bytes of names than a file has
//! numbers for loses their upper bytes and cannot be read again. The object of a source is never one.

ghost use Rattle.std.specs.Prelude.{◌≡◌, ◌+◌, ◌++◌, ◌^◌, ◌<◌, ◌≤◌, ℕ, List, None, map, flat_map, length, drop, replicate, IfOk, OnOk};
ghost use Rattle.std.specs.List.{AllByRecursion};
ghost use Rattle.rv_elf_laws.specs.Fields.{file_header_size, section_header_size};
ghost use Rattle.rv_elf_laws.specs.Records.{file_header_bytes, section_header_bytes};
ghost use Rattle.rv_object_laws.specs.Object.{size_of};
ghost use Rattle.rv_object_types.specs.View.{object_of};
ghost use Rattle.rv_object_file_laws.specs.FirstFault.{first_fault};
ghost use Rattle.rv_object_file_laws.specs.Known.{IsObject};
ghost use Rattle.rv_object_file_laws.specs.ObjectOf.{ObjectOf};
ghost use Rattle.rv_size_laws.specs.Alignment.{aligned};
ghost use Rattle.rv_object_file_laws.specs.Written.{zeros_at, contents_from, headers_offset, header_of, headers_from, HasFile, file_of, strings_of, section_names as file_names};
ghost use Rattle.rv_object_writer.specs.Pieces.{body_bytes, piece_of, header_by, AreTables};
ghost use Rattle.rv_object_writer.specs.Strings.{IsStringTable};

use crate::names::section_names;
use crate::piece::{Body, Piece};
use crate::pieces::{Tables, all_pieces, first_pieces};
use crate::strings::StringTable;
use crate::tables::put_rows;
use rv_elf::{EM_RISCV, ET_REL, ElfWriter, FILE_HEADER_SIZE, SECTION_HEADER_SIZE};
use rv_elf_laws::{FileHeader, SectionHeader};
use rv_object_file_laws::written_object_is_read;
use rv_object_types::Object;
use std::alloc::{AllocError, Global};

/// The file of an object.
pub fn write(alloc: Global, object: &Object<'_>) -> Result<Vec<u8>, AllocError>
    ensures written { IfOk result (λ file. file.items ≡ file_of (object_of object.now)) }
    // Where the fields of a file can hold what the object has, the file has no fault and is a file of this object.
    ensures read { IfOk result (λ file. HasFile (object_of object.now)
        → (first_fault file.items ≡ None) × ObjectOf file.items (object_of object.now)) }
    // An object that is written keeps what a reader of files tests, and its numbers have the widths of their fields.
    ensures known { IfOk result (λ file. IsObject (object_of object.now)) }
{
    written_object_is_read();
    let tables = Tables::of(alloc, object)?;
    let file = write_tables(alloc, object, &tables)?;
    Ok(file)
}

/// The file of an object with these tables.
fn write_tables(alloc: Global, object: &Object<'_>, tables: &Tables) -> Result<Vec<u8>, AllocError>
    requires tables { AreTables (object_of object.now) tables.now }
    requires room { (tables.now).symtab + 2 < 2 ^ 128 }
    ensures written { IfOk result (λ file. file.items ≡ file_of (object_of object.now)) }
    ensures sizes { IfOk result (λ file. AllByRecursion
        (λ s. size_of s.contents < 2 ^ 64) (object_of object.now).sections) }
{
    let pieces = first_pieces(alloc, object, tables)?;
    let names = section_names(alloc, pieces.as_slice())?;
    write_named(alloc, object, tables, &names)
}

/// The file of an object with these tables and these names of its sections.
fn write_named(
    alloc: Global,
    object: &Object<'_>,
    tables: &Tables,
    names: &StringTable<'_>,
) -> Result<Vec<u8>, AllocError>
    requires tables { AreTables (object_of object.now) tables.now }
    requires room { (tables.now).symtab + 2 < 2 ^ 128 }
    requires names { IsStringTable (strings_of (file_names (object_of object.now))) names.now }
    ensures { IfOk result (λ file. file.items ≡ file_of (object_of object.now)) }
{
    let strings = names.bytes();
    let pieces = all_pieces(alloc, object, tables, strings)?;
    let file = put_file(
        alloc,
        object.rvc,
        tables.symtab + 2,
        pieces.as_slice(),
        names,
    )?;
    Ok(file)
}

/// The file with these sections: the header, their contents and their headers.
fn put_file(
    alloc: Global,
    rvc: bool,
    last: u128,
    pieces: &[Piece<'_>],
    names: &StringTable<'_>,
) -> Result<Vec<u8>, AllocError>
    ensures { IfOk result (λ file. (ns : List (List ℕ)) → IsStringTable (strings_of ns) names.now
        → file.items ≡ file_header_bytes (header_by rvc last (map piece_of pieces.now))
        ++ (contents_from file_header_size (map piece_of pieces.now)
        ++ (replicate section_header_size 0
        ++ flat_map section_header_bytes
        (headers_from ns file_header_size (map piece_of pieces.now))))) }
{
    let mut out = ElfWriter::new(alloc);
    out.zeros(FILE_HEADER_SIZE)?;
    put_contents(&mut out, pieces)?;
    set_header(&mut out, rvc, last, pieces);
    out.zeros(SECTION_HEADER_SIZE)?;
    put_headers(&mut out, pieces, names)?;
    Ok(out.finish())
}

/// Where the contents of a section begin: at the next multiple of 8.
fn aligned(at: u64) -> u64
    requires { aligned 8 at < 2 ^ 64 }
    ensures { result ≡ aligned 8 at }
{
    at + (8 - at % 8) % 8
}

/// Writes the header of the file over its first bytes, where the section headers come next.
#[tactic(auto, unfolding(rv_elf_laws::specs::Records::file_header_bytes))]
fn set_header(out: &mut ElfWriter, rvc: bool, last: u128, pieces: &[Piece<'_>])
    requires front { file_header_size ≤ length out.old }
    requires next { length out.old ≡ headers_offset file_header_size (map piece_of pieces.now) }
    ensures written { out.new ≡ file_header_bytes (header_by rvc last (map piece_of pieces.now))
        ++ drop file_header_size out.old }
    ensures small { length out.old < 2 ^ 64 }
{
    let e_shoff = out.len() as u64;
    out.set_header(&FileHeader {
        e_type: ET_REL,
        e_machine: EM_RISCV,
        e_version: 1,
        e_entry: 0,
        e_phoff: 0,
        e_shoff,
        e_flags: u32::from(rvc),
        e_ehsize: 64,
        e_phentsize: 0,
        e_phnum: 0,
        e_shentsize: 64,
        e_shnum: ((1 + pieces.len() as u64) % 0x1_0000) as u16,
        e_shstrndx: (last % 0x1_0000) as u16,
    });
}

/// Writes zeros up to the next multiple of 8.
fn put_zeros(out: &mut ElfWriter) -> Result<(), AllocError>
    ensures { OnOk result (out.new ≡ out.old ++ zeros_at (length out.old)) }
{
    out.zeros((8 - out.len() % 8) % 8)
}

/// Writes what the file has of a section.
fn put_body(out: &mut ElfWriter, body: Body<'_>) -> Result<(), AllocError>
    ensures { OnOk result (out.new ≡ out.old ++ body_bytes body.entry) }
{
    match body {
        Body::Bytes(bytes) => out.raw(bytes),
        Body::Rows(rows) => put_rows(out, rows),
    }
}

/// How many bytes the file has of a section.
#[tactic(auto, using(crate::proofs::StepsLemmas::rows_long))]
fn body_length(body: Body<'_>) -> u64
    requires { length (body_bytes body) < 2 ^ 64 }
    ensures { result ≡ length (body_bytes body.entry) }
{
    match body {
        Body::Bytes(bytes) => bytes.len() as u64,
        Body::Rows(rows) => 32 * rows.len() as u64,
    }
}

/// Writes the contents of sections, each at a multiple of 8.
fn put_contents(out: &mut ElfWriter, pieces: &[Piece<'_>]) -> Result<(), AllocError>
    ensures { OnOk result
        (out.new ≡ out.old ++ contents_from (length out.old) (map piece_of pieces.now)) }
{
    for piece in pieces {
        put_zeros(out)?;
        put_body(out, piece.body)?;
    }
    put_zeros(out)
}

/// Writes the header of a section.
#[tactic(auto, unfolding(rv_elf_laws::specs::Records::section_header_bytes))]
fn put_section_header(
    out: &mut ElfWriter,
    names: &StringTable<'_>,
    offset: u64,
    piece: &Piece<'_>,
) -> Result<(), AllocError>
    ensures { OnOk result ((ns : List (List ℕ)) (at : ℕ) → IsStringTable (strings_of ns) names.now
        → offset ≡ aligned 8 at
        → out.new ≡ out.old ++ section_header_bytes (header_of ns at (piece_of piece.now))) }
{
    let name = names.offset(piece.name);
    out.section_header(&SectionHeader {
        sh_name: (name % 0x1_0000_0000) as u32,
        sh_type: piece.kind,
        sh_flags: piece.flags,
        sh_addr: 0,
        sh_offset: offset,
        sh_size: (piece.size % 0x1_0000_0000_0000_0000) as u64,
        sh_link: (piece.link % 0x1_0000_0000) as u32,
        sh_info: (piece.info % 0x1_0000_0000) as u32,
        sh_addralign: piece.alignment,
        sh_entsize: piece.entry_size,
    })?;
    Ok(())
}

/// Writes the headers of sections.
fn put_headers(
    out: &mut ElfWriter,
    pieces: &[Piece<'_>],
    names: &StringTable<'_>,
) -> Result<(), AllocError>
    requires { headers_offset file_header_size (map piece_of pieces.now) < 2 ^ 64 }
    ensures { OnOk result ((ns : List (List ℕ)) → IsStringTable (strings_of ns) names.now
        → out.new ≡ out.old ++ flat_map section_header_bytes
        (headers_from ns file_header_size (map piece_of pieces.now))) }
{
    let mut at = 64;
    for piece in pieces {
        let offset = aligned(at);
        put_section_header(out, names, offset, piece)?;
        at = offset + body_length(piece.body);
    }
    Ok(())
}
