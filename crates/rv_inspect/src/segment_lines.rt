//! The lines of a file's segments.

use crate::columns::Column::{Hexadecimal, Left, Padded, Text};
use crate::columns::{put, put_columns};
use rv_elf::{ElfView, PF_R, PF_W, PF_X, PT_DYNAMIC, PT_INTERP, PT_LOAD, PT_TLS};
use rv_elf_laws::ProgramHeader;
use std::alloc::AllocError;

const HEADING: &[u8] = b"
Program Headers:
  Type           Offset   VirtAddr           PhysAddr           FileSiz  MemSiz   Flg Align
";

/// Adds the lines of the segments.
pub(crate) fn put_segments(text: &mut Vec<u8>, view: &ElfView<'_>) -> Result<(), AllocError> {
    let count = view.header().e_phnum;
    if count == 0 {
        return put(text, b"\nThere are no program headers in this file.\n");
    }
    put(text, HEADING)?;
    for index in 0..count {
        put_segment(text, &view.program(index))?;
    }
    Ok(())
}

/// Adds the line of a segment.
fn put_segment(text: &mut Vec<u8>, header: &ProgramHeader) -> Result<(), AllocError> {
    put(text, b"  ")?;
    put_type(text, header.p_type)?;
    let has = |flag: u32| header.p_flags & flag != 0;
    put_columns(
        text,
        &[
            Text(b"0x"),
            Padded(header.p_offset, 6),
            Text(b" 0x"),
            Padded(header.p_vaddr, 16),
            Text(b" 0x"),
            Padded(header.p_paddr, 16),
            Text(b" 0x"),
            Padded(header.p_filesz, 6),
            Text(b" 0x"),
            Padded(header.p_memsz, 6),
            Text(if has(PF_R) { b" R" } else { b"  " }),
            Text(if has(PF_W) { b"W" } else { b" " }),
            Text(if has(PF_X) { b"E " } else { b"  " }),
            Text(if header.p_align != 0 { b"0x" } else { b"" }),
            Hexadecimal(header.p_align, 0),
            Text(b"\n"),
        ],
    )
}

/// Adds the type of a segment.
fn put_type(text: &mut Vec<u8>, kind: u32) -> Result<(), AllocError> {
    match type_name(kind) {
        Some(name) => put_columns(text, &[Left(name, 15)]),
        None => put_columns(
            text,
            &[
                Text(b"<unknown>: "),
                Hexadecimal(u64::from(kind), 0),
                Text(b" "),
            ],
        ),
    }
}

/// The name of a type of segments (gABI, "Program Header"; the types of GNU; psABI, "Program Header Table").
fn type_name(kind: u32) -> Option<&'static [u8]> {
    Some(match kind {
        0 => b"NULL",
        PT_LOAD => b"LOAD",
        PT_DYNAMIC => b"DYNAMIC",
        PT_INTERP => b"INTERP",
        4 => b"NOTE",
        5 => b"SHLIB",
        6 => b"PHDR",
        PT_TLS => b"TLS",
        0x6474_E550 => b"GNU_EH_FRAME",
        0x6474_E551 => b"GNU_STACK",
        0x6474_E552 => b"GNU_RELRO",
        0x6474_E553 => b"GNU_PROPERTY",
        0x7000_0003 => b"RISCV_ATTRIBUT",
        _ => return None,
    })
}
