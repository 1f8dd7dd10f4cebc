//! The lines of a file's header.

use crate::columns::Column::{Decimal, Hexadecimal, Padded, Text};
use crate::columns::{put, put_columns};
use rv_elf::{EF_RISCV_RVC, ET_EXEC, ET_REL, ElfView};
use rv_elf_laws::FileHeader;
use std::alloc::AllocError;

/// The bytes of `e_ident`.
const IDENT: usize = 16;
/// `e_flags`: memory is ordered more strictly (psABI, EF_RISCV_TSO).
const EF_RISCV_TSO: u32 = 0x10;
/// `e_type`: a shared object (gABI).
const ET_DYN: u16 = 3;
/// `e_type`: the memory of a program that was stopped (gABI).
const ET_CORE: u16 = 4;

/// Adds the lines of the header.
pub(crate) fn put_file_header(text: &mut Vec<u8>, view: &ElfView<'_>) -> Result<(), AllocError> {
    let header = view.header();
    put_ident(text, view.file())?;
    put_kind(text, header.e_type)?;
    put_starts(text, &header)?;
    put_counts(text, &header)
}

/// Adds the lines of `e_ident`; class, order of bytes and version are the same in all files of this machine.
fn put_ident(text: &mut Vec<u8>, file: &[u8]) -> Result<(), AllocError> {
    put(text, b"ELF Header:\n  Magic:   ")?;
    for byte in file.iter().take(IDENT) {
        put_columns(text, &[Padded(u64::from(*byte), 2), Text(b" ")])?;
    }
    let system = file.get(7).copied().unwrap_or(0);
    let version = file.get(8).copied().unwrap_or(0);
    put(
        text,
        b"
  Class:                             ELF64
  Data:                              2's complement, little endian
  Version:                           1 (current)
  OS/ABI:                            ",
    )?;
    match system {
        0 => put(text, b"UNIX - System V")?,
        _ => put_columns(
            text,
            &[
                Text(b"<unknown: "),
                Hexadecimal(u64::from(system), 0),
                Text(b">"),
            ],
        )?,
    }
    put_columns(
        text,
        &[
            Text(b"\n  ABI Version:                       "),
            Decimal(u64::from(version), 0),
            Text(b"\n  Type:                              "),
        ],
    )
}

/// Adds what `e_type` says.
fn put_kind(text: &mut Vec<u8>, kind: u16) -> Result<(), AllocError> {
    match kind {
        0 => put(text, b"NONE (None)"),
        ET_REL => put(text, b"REL (Relocatable file)"),
        ET_EXEC => put(text, b"EXEC (Executable file)"),
        ET_DYN => put(text, b"DYN (Shared object file)"),
        ET_CORE => put(text, b"CORE (Core file)"),
        _ => put_columns(
            text,
            &[Text(b"<unknown>: "), Hexadecimal(u64::from(kind), 0)],
        ),
    }
}

/// Adds the lines of the machine, where the program and the tables start, and the flags.
fn put_starts(text: &mut Vec<u8>, header: &FileHeader) -> Result<(), AllocError> {
    let flags = header.e_flags;
    let compressed = flags & EF_RISCV_RVC != 0;
    let ordered = flags & EF_RISCV_TSO != 0;
    put_columns(
        text,
        &[
            Text(b"\n  Machine:                           RISC-V"),
            Text(b"\n  Version:                           0x"),
            Hexadecimal(u64::from(header.e_version), 0),
            Text(b"\n  Entry point address:               0x"),
            Hexadecimal(header.e_entry, 0),
            Text(b"\n  Start of program headers:          "),
            Decimal(header.e_phoff, 0),
            Text(b" (bytes into file)\n  Start of section headers:          "),
            Decimal(header.e_shoff, 0),
            Text(b" (bytes into file)\n  Flags:                             0x"),
            Hexadecimal(u64::from(flags), 0),
            Text(if compressed { b", RVC" } else { b"" }),
            Text(if ordered { b", TSO" } else { b"" }),
            Text(if flags != 0 { b", soft-float ABI" } else { b"" }),
        ],
    )
}

/// Adds the lines of the sizes and counts.
fn put_counts(text: &mut Vec<u8>, header: &FileHeader) -> Result<(), AllocError> {
    put_columns(
        text,
        &[
            Text(b"\n  Size of this header:               "),
            Decimal(u64::from(header.e_ehsize), 0),
            Text(b" (bytes)\n  Size of program headers:           "),
            Decimal(u64::from(header.e_phentsize), 0),
            Text(b" (bytes)\n  Number of program headers:         "),
            Decimal(u64::from(header.e_phnum), 0),
            Text(b"\n  Size of section headers:           "),
            Decimal(u64::from(header.e_shentsize), 0),
            Text(b" (bytes)\n  Number of section headers:         "),
            Decimal(u64::from(header.e_shnum), 0),
            Text(b"\n  Section header string table index: "),
            Decimal(u64::from(header.e_shstrndx), 0),
            Text(b"\n"),
        ],
    )
}
