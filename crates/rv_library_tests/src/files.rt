//! Objects, executables and maps as bytes, and the records of any ELF file.

use rv_assemble::assemble;
use rv_chain::{Built, LinkOptions, build};
use rv_elf::{ElfView, ElfWriter, SectionIndex, SymbolIndex};
use rv_elf_laws::Symbol;
use rv_image::{FileFault, load};
use rv_map::{Map, reread};
use rv_object_reader::read;
use rv_object_types::Object;
use rv_object_writer::write;
use std::alloc::Global;
use std::test::Fail;

/// A program that exits with 7.
const SOURCE: &[u8] = b".globl _start\n_start: li a0, 7\nli a7, 93\necall\n";

/// Sections of every kind, names of every kind, a padding in code, constants and differences.
const KINDS: &[u8] = b".globl _start, size, place, open
.set size, 0x123456789
_start: li a7, 93
.balign 8
here: ecall
call open
.data
place: .dword here, size, there - place, open + 4
.balign 16
there: .byte 1
.bss
.zero 5
.section .note.x, \"a\", @note
.word 1
.section notes
inside: .word 2
";

/// Whether what is read from a file of an object is written as that file.
fn is_kept(alloc: Global, file: &[u8]) -> Result<bool, Fail> {
    let object: Object<'_> = read(alloc, file)?;
    Ok(write(alloc, &object)?.as_slice() == file)
}

/// Whether the object of a source is read as it is written, and is no executable.
fn comes_back(alloc: Global, source: &[u8]) -> Result<bool, Fail> {
    let file = write(alloc, &assemble(alloc, source)?)?;
    Ok(is_kept(alloc, &file)? && load(alloc, &file) == Err(FileFault::NotExecutable))
}

#[test]
fn objects(rt: HostRuntime) -> Result<(), Fail> {
    for source in [SOURCE, KINDS] {
        assert!(rt; comes_back(rt.alloc(), source)?);
    }
    Ok(())
}

/// The index of `.symtab` in the object of a source without relocations: `.text`, `.rv.rows` and `.symtab`.
const SYMBOLS: SectionIndex = SectionIndex(3);

/// The first symbol after symbol 0, which is none, with its name.
fn first_symbol<'a>(view: &ElfView<'a>) -> Option<(Symbol, &'a [u8])> {
    if view.header().e_shnum <= SYMBOLS.0 {
        return None;
    }
    let header = view.section_header(SYMBOLS);
    if header.sh_size != 48 || view.section(SYMBOLS).len() != 48 {
        return None;
    }
    let symbol = view.symbol(SYMBOLS, SymbolIndex(1));
    if header.sh_link >= u32::from(view.header().e_shnum) {
        return None;
    }
    let name = view.name(SectionIndex(header.sh_link as u16), symbol.st_name)?;
    Some((symbol, name))
}

#[test]
fn records(rt: HostRuntime) -> Result<(), Fail> {
    let alloc = rt.alloc();
    let file = write(alloc, &assemble(alloc, SOURCE)?)?;
    let (symbol, name) = first_symbol(&ElfView::open(&file)?).ok_or("it has a symbol")?;
    // the same record, written
    let mut writer = ElfWriter::new(alloc);
    writer.raw(b"front")?;
    writer.symbol(&Symbol {
        st_value: 8,
        ..symbol
    })?;
    let written = writer.finish();
    assert!(rt;
        name == b"_start".as_slice() && written.len() == 29 && written.starts_with(b"front")
    );
    Ok(())
}

/// The program and its map.
fn built(alloc: Global) -> Result<Built, Fail> {
    let options = LinkOptions {
        text_start: 0x1_0000,
        relax: true,
        gc: false,
    };
    Ok(build(alloc, &[SOURCE], options)?)
}

/// Whether a map knows the statement at an address: on line 2 that at the entry, none of one line within it.
fn knows_rows(map: &Map) -> bool {
    let Some(row) = map.row_at(map.entry) else {
        return false;
    };
    (row.file, row.line, row.bytes) == (1, 2, 2) && map.row_at(map.entry | 1).is_none()
}

#[test]
fn maps(rt: HostRuntime) -> Result<(), Fail> {
    let alloc = rt.alloc();
    let text = built(alloc)?.map;
    let map = rv_map::read(alloc, &text)?.ok_or("it is a map")?;
    assert!(rt; knows_rows(&map));
    assert!(rt; rv_map::write(alloc, &map)? == text);
    let again = reread(alloc, &map)?.ok_or("it is a map again")?;
    assert!(rt; rv_map::write(alloc, &again)? == text);
    assert!(rt; rv_map::read(alloc, b"")?.is_none());
    Ok(())
}

/// The first 40 bytes of a file, or all.
fn front(file: &[u8]) -> &[u8] {
    if file.len() < 40 {
        return file;
    }
    &file[..40]
}

#[test]
fn executables(rt: HostRuntime) -> Result<(), Fail> {
    let alloc = rt.alloc();
    let file = built(alloc)?.exe;
    let view = ElfView::open(&file)?;
    assert!(rt; 0 < view.header().e_phnum && view.program(0).p_vaddr == 0x1_0000);
    let image = load(alloc, &file)?;
    assert!(rt; (image.entry, image.segments.len()) == (0x1_0000, 1));
    // a file that is cut off is refused
    assert!(rt; load(alloc, front(&file)) == Err(FileFault::Truncated));
    Ok(())
}
