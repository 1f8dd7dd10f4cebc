//! Loads and stores of a memory, over the ends of its pages and of its rights.

use rv_elf::{ElfWriter, FileHeader, ProgramHeader};
use rv_image::load;
use rv_memory::{Flat, Memory, Paged, Right};
use std::alloc::{AllocError, Global};
use std::test::Fail;

/// Program flags.
const EXECUTE: u32 = 1;

const WRITE: u32 = 2;

const READ: u32 = 4;

/// The segments of a program: the address, the flags, the bytes.
const PARTS: [(u64, u32, &[u8]); 11] = [
    // over two pages
    (0x1_1ffc, READ | WRITE, b"abcdefgh"),
    // two that touch, the upper one first
    (0x2_1008, READ, b"ijklmnop"),
    (0x2_1000, READ | WRITE, b"abcdefgh"),
    // at the end of a page behind which nothing follows
    (0x3_1ff8, READ | WRITE, b"abcdefgh"),
    // three on a page, in another order, one without bytes, with gaps between them; a page and four bytes before them
    (0x4_1ffe, READ | WRITE, b"xy"),
    (0x4_0000, READ, &[0x63; 4100]),
    (0x4_1800, READ | WRITE, b""),
    (0x4_1010, READ | EXECUTE, b"mn"),
    // to be written alone
    (0x5_0000, WRITE, b"abcdefgh"),
    // at the last addresses and at the first
    (
        0xffff_ffff_ffff_fff8,
        READ | WRITE,
        b"\xf0\xf1\xf2\xf3\xf4\xf5\xf6\xf7",
    ),
    (0, READ | WRITE, b"\x00\x01\x02\x03\x04\x05\x06\x07\x08"),
];

/// The executable of these segments.
fn file(alloc: Global) -> Result<Vec<u8>, AllocError> {
    let mut writer = ElfWriter::new(alloc);
    writer.header(&FileHeader {
        e_type: 2,
        e_machine: 243,
        e_version: 1,
        e_entry: 0x4_1010,
        e_phoff: 64,
        e_shoff: 0,
        e_flags: 0,
        e_ehsize: 64,
        e_phentsize: 56,
        e_phnum: PARTS.len() as u16,
        e_shentsize: 0,
        e_shnum: 0,
        e_shstrndx: 0,
    })?;
    let mut offset = 64 + 56 * PARTS.len() as u64;
    for (address, flags, bytes) in &PARTS {
        let size = bytes.len() as u64;
        writer.program(&ProgramHeader {
            p_type: 1,
            p_flags: *flags,
            p_offset: offset,
            p_vaddr: *address,
            p_paddr: *address,
            p_filesz: size,
            p_memsz: size,
            p_align: 1,
        })?;
        offset = offset.wrapping_add(size);
    }
    for (_, _, bytes) in &PARTS {
        writer.raw(*bytes)?;
    }
    Ok(writer.finish())
}

/// An access, and what comes of it.
#[derive(Clone, Copy)]
enum Access {
    /// A load of so many bytes from an address on: their number, if all may be read.
    Load(u64, u64, Option<u64>),
    /// A store of so many bytes of a number: whether all may be written.
    Store(u64, u64, u64, bool),
    /// Whether so many bytes have a right.
    May(u64, u64, Right, bool),
}

use Access::{Load, May, Store};

/// Accesses in their order, each of which finds what those before it left.
const ACCESSES: [Access; 62] = [
    Load(0x1_1fff, 1, Some(0x64)),
    Load(0x1_1fff, 2, Some(0x6564)),
    Load(0x1_1ffe, 4, Some(0x6665_6463)),
    Load(0x1_2000, 4, Some(0x6867_6665)),
    Load(0x1_1ffc, 8, Some(0x6867_6665_6463_6261)),
    Load(0x1_1fff, 2, Some(0x6564)),
    Load(0x1_1ffd, 8, None),
    Load(0x1_1ffb, 4, None),
    May(0x1_1ffe, 4, Right::Execute, false),
    Store(0x1_1fff, 2, 0x3231, true),
    Load(0x1_1ffc, 8, Some(0x6867_6632_3163_6261)),
    Store(0x1_1ffc, 8, 0x3837_3635_3433_3231, true),
    Load(0x1_1ffe, 4, Some(0x3635_3433)),
    // each byte has its own right
    May(0x2_1004, 4, Right::Write, true),
    May(0x2_1004, 5, Right::Write, false),
    Store(0x2_1004, 4, 0x3433_3231, true),
    Store(0x2_1004, 8, 0, false),
    Store(0x2_1007, 2, 0, false),
    Store(0x2_1008, 1, 0, false),
    Load(0x2_1004, 8, Some(0x6c6b_6a69_3433_3231)),
    Load(0x2_100c, 8, None),
    // a store that begins before the end of a right leaves all bytes
    Store(0x3_1ffc, 8, 0, false),
    Store(0x3_1ff7, 2, 0, false),
    Load(0x3_1ff8, 8, Some(0x6867_6665_6463_6261)),
    // the stack ends at 3FFFFFFFh, and can't be executed
    Store(0x3fff_ffff, 1, 0x1ff, true),
    Load(0x3fff_ffff, 1, Some(0xff)),
    Load(0x3fff_fffc, 4, Some(0xff00_0000)),
    Store(0x3fff_ffff, 2, 0, false),
    May(0x3fff_fffc, 4, Right::Execute, false),
    Load(0x3fef_ffff, 1, None),
    Load(0x3ff0_0000, 8, Some(0)),
    May(0x3fff_fff8, 8, Right::Write, true),
    Store(0x3fff_fff8, 8, 258, true),
    May(0x3fff_fff8, 8, Right::Read, true),
    Load(0x3fff_fff8, 8, Some(258)),
    // the segments of a page
    Load(0x4_0000, 1, Some(0x63)),
    Load(0x4_1002, 2, Some(0x6363)),
    Load(0x4_1002, 4, None),
    Load(0x4_1010, 2, Some(0x6e6d)),
    May(0x4_1010, 2, Right::Execute, true),
    May(0x4_1011, 2, Right::Execute, false),
    Load(0x4_1800, 1, None),
    Load(0x4_1fff, 1, Some(0x79)),
    Load(0x4_2000, 1, None),
    Store(0x4_1ffe, 2, 0x3231, true),
    Store(0x4_0ffe, 2, 0, false),
    May(0x4_1003, 2, Right::Read, false),
    May(0x4_0000, 4100, Right::Read, true),
    May(0x4_0000, 4100, Right::Write, false),
    Load(0x4_1ffe, 2, Some(0x3231)),
    // what may be written alone
    Store(0x5_0000, 4, 0x3433_3231, true),
    Load(0x5_0000, 1, None),
    May(0x5_0000, 8, Right::Write, true),
    // addresses go on from the last one to 0 (ISA, 1.4)
    Load(0xffff_ffff_ffff_fffc, 8, Some(0x0302_0100_f7f6_f5f4)),
    Store(0xffff_ffff_ffff_fffd, 8, 0x0302_0100_f7f6_f5f4, true),
    Load(0xffff_ffff_ffff_fff8, 8, Some(0xf6f5_f4f4_f3f2_f1f0)),
    Load(u64::MAX, 2, Some(0xf7f6)),
    Load(0, 8, Some(0x0706_0503_0201_00f7)),
    Load(0xffff_ffff_ffff_fff7, 2, None),
    May(u64::MAX, 10, Right::Write, true),
    May(u64::MAX, 11, Right::Write, false),
    May(u64::MAX, 0, Right::Execute, true),
];

fn loaded<M: Memory>(memory: &M, address: u64, bytes: u64) -> Option<u64> {
    match bytes {
        1 => memory.try_load(address, 1, Right::Read),
        2 => memory.try_load(address, 2, Right::Read),
        4 => memory.try_load(address, 4, Right::Read),
        _ => memory.try_load(address, 8, Right::Read),
    }
}

fn stored<M: Memory>(memory: &mut M, address: u64, bytes: u64, value: u64) -> bool {
    match bytes {
        1 => memory.try_store(address, 1, value),
        2 => memory.try_store(address, 2, value),
        4 => memory.try_store(address, 4, value),
        _ => memory.try_store(address, 8, value),
    }
}

/// Whether what comes of an access is what is wanted.
fn answers<M: Memory>(memory: &mut M, access: Access) -> bool {
    match access {
        Load(address, bytes, wanted) => loaded(memory, address, bytes) == wanted,
        Store(address, bytes, value, wanted) => stored(memory, address, bytes, value) == wanted,
        May(address, bytes, right, wanted) => memory.may(address, bytes, right) == wanted,
    }
}

/// A memory in pages and a flat one answer alike.
#[test]
fn loads_and_stores(rt: HostRuntime) -> Result<(), Fail> {
    let alloc = rt.alloc();
    let file = file(alloc)?;
    let mut paged = Paged::new(alloc, load(alloc, &file)?)?;
    let mut flat = Flat::new(alloc, load(alloc, &file)?)?;
    for (index, access) in ACCESSES.iter().enumerate() {
        assert!(rt;
            answers(&mut paged, *access) && answers(&mut flat, *access),
            "access {index}"
        );
    }
    Ok(())
}
