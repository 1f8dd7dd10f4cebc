//! What a file is that is refused for its header, in place of an object or an executable for this machine.
//!
//! Source: System V gABI, "ELF Header"; RISC-V ELF psABI, "File Header".

use rv_elf::{EM_RISCV, ET_EXEC, ET_REL, FILE_HEADER_SIZE};
use rv_fault::FileFault;
use std::alloc::{AllocError, Global};

/// How many bytes are looked at to tell a text.
const LOOKED_AT: usize = 1024;
/// The bytes of the header: the class, the order of bytes, the version of its identification; its type, machine and flags.
const CLASS: usize = 4;

const ORDER: usize = 5;

const VERSION: usize = 6;

const TYPE: usize = 16;

const MACHINE: usize = 18;

const FLAGS: usize = 48;

/// Machines by their numbers.
const MACHINES: [(u16, &str); 7] = [
    (3, "i386"),
    (8, "MIPS"),
    (20, "PowerPC"),
    (40, "Arm"),
    (62, "x86-64"),
    (183, "AArch64"),
    (258, "LoongArch"),
];

/// Adds what a file is, where that is why it is refused; nothing for a fault behind its header.
pub fn put_header(
    alloc: Global,
    file: &[u8],
    fault: &FileFault,
    sentence: &mut String,
) -> Result<(), AllocError> {
    match fault {
        FileFault::BadMagic => sentence.push_str(kind_of_other(file)),
        FileFault::Truncated if file.len() < FILE_HEADER_SIZE => {
            sentence.push_str(kind_of_other(file))
        }
        FileFault::WrongClass => put_class(alloc, file, sentence),
        FileFault::WrongMachine => put_machine(alloc, file, sentence),
        FileFault::NotObject => put_type(alloc, half(file, TYPE), sentence),
        FileFault::NotExecutable => put_type(alloc, half(file, TYPE), sentence),
        _ => Ok(()),
    }
}

/// What a file is that has no header.
fn kind_of_other(file: &[u8]) -> &'static str {
    if file.is_empty() {
        "it is empty"
    } else if file.starts_with(b"!<arch>\n") {
        "it is an archive: rv ld takes it by --library"
    } else if file.starts_with(b"\x7fELF") {
        "it ends inside its header, which has 64 bytes"
    } else if is_text(file) {
        "it is a text: rv as makes an object of a source, and rv build builds sources"
    } else {
        "its first bytes are not 7Fh ELF"
    }
}

/// Whether a file begins as texts do.
fn is_text(file: &[u8]) -> bool {
    file.iter().take(LOOKED_AT).all(|byte| 32 <= *byte && *byte != 127
        || matches!(*byte, b'\t' | b'\n' | b'\r'))
}

/// Adds the first of class, order and version that is another.
fn put_class(alloc: Global, file: &[u8], sentence: &mut String) -> Result<(), AllocError> {
    match (byte(file, CLASS), byte(file, ORDER)) {
        (1, _) => sentence.push_str("its class is 1, of 32 bits, and not 2, of 64"),
        (2, 1) => put_other(alloc, "version", byte(file, VERSION), "1", sentence),
        (2, 2) => sentence.push_str("its data is 2, big-endian, and not 1, little-endian"),
        (2, order) => put_other(alloc, "data", order, "1, little-endian", sentence),
        (class, _) => put_other(alloc, "class", class, "2, of 64 bits", sentence),
    }
}

/// Adds what is another number in a file than is wanted.
fn put_other(
    alloc: Global,
    what: &str,
    number: u8,
    wanted: &str,
    sentence: &mut String,
) -> Result<(), AllocError> {
    let told = format!(in alloc; "its {what} is {number}, and not {wanted}")?;
    sentence.push_str(told.as_str())
}

/// Adds the machine that is another, or what the flags want of this one.
fn put_machine(alloc: Global, file: &[u8], sentence: &mut String) -> Result<(), AllocError> {
    let machine = half(file, MACHINE);
    if machine == EM_RISCV {
        return put_flags(alloc, byte(file, FLAGS), sentence);
    }
    let told = match machine_named(machine) {
        Some(name) => format!(in alloc; "its machine is {machine}, {name}, and not 243, RISC-V")?,
        None => format!(in alloc; "its machine is {machine}, and not 243, RISC-V")?,
    };
    sentence.push_str(told.as_str())
}

/// Adds flags, and what they want.
fn put_flags(alloc: Global, flags: u8, sentence: &mut String) -> Result<(), AllocError> {
    let wanted = wanted_by(flags);
    let told = format!(in alloc; "its flags are 0x{flags:x}: {wanted}")?;
    sentence.push_str(told.as_str())
}

/// The name of a machine.
fn machine_named(machine: u16) -> Option<&'static str> {
    for (number, name) in MACHINES {
        if number == machine {
            return Some(name);
        }
    }
    None
}

/// What flags want that is left out: a float ABI, or the smaller register file.
fn wanted_by(flags: u8) -> &'static str {
    match flags / 2 % 4 {
        0 => "it has 16 registers alone, of RV64E; build it with -march=rv64imac -mabi=lp64",
        1 => "it passes floats by registers, lp64f; build it with -march=rv64imac -mabi=lp64",
        2 => "it passes floats by registers, lp64d; build it with -march=rv64imac -mabi=lp64",
        _ => "it passes floats by registers, lp64q; build it with -march=rv64imac -mabi=lp64",
    }
}

/// Adds the type of a file that is another than is wanted.
fn put_type(alloc: Global, kind: u16, sentence: &mut String) -> Result<(), AllocError> {
    match kind {
        ET_REL => sentence.push_str("it is an object: rv ld links objects to an executable"),
        ET_EXEC => sentence.push_str("it is an executable, which is linked: rv run runs it"),
        3 => sentence.push_str(
            "it is a shared object or position-independent: link it with -static -no-pie",
        ),
        _ => {
            let told = format!(in alloc;
                "its type is {kind}, and not 1, of objects, or 2, of executables"
            )?;
            sentence.push_str(told.as_str())
        }
    }
}

/// The byte at an offset.
fn byte(file: &[u8], offset: usize) -> u8 {
    file.get(offset).copied().unwrap_or(0)
}

/// The number of two bytes at an offset.
fn half(file: &[u8], offset: usize) -> u16 {
    let high = byte(file, offset.saturating_add(1));
    u16::from_le_bytes([byte(file, offset), high])
}
