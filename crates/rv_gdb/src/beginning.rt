//! An image whose run comes to a state that a debugger wants.
//!
//! A machine begins with its registers at 0 and its stack empty. So the image has the memory that is wanted, and beside it a
//! loader, which fills the stack, sets the registers and jumps to the wanted pc. Guests see the loader's bytes where nothing
//! was before; that is why this is done only where a debugger has written.

use crate::memory::{Write, copy_of};
use rv_elf::{
    EM_RISCV, ET_EXEC, EV_CURRENT, ElfWriter, FILE_HEADER_SIZE, FileFault, FileHeader,
    PROGRAM_HEADER_SIZE, PT_LOAD, ProgramHeader,
};
use rv_encode::encode;
use rv_gdb_packets::{Range, do_meet};
use rv_image::{Image, STACK_BYTES, STACK_START, load};
use rv_isa::{Inst, JType, Reg, is_jump_offset};
use rv_memory::Paged;
use std::alloc::{AllocError, Global};

/// The loader up to where it sets registers: x31 is its address; while x2, the address in the stack, is not x3, the
/// stack's end, eight bytes go there from x1.
///
/// ```text
/// auipc x31, 0
/// ld    x1, 168(x31)
/// ld    x2, 176(x31)
/// ld    x3, 184(x31)
/// beq   x2, x3, .+24
/// ld    x4, 0(x1)
/// sd    x4, 0(x2)
/// addi  x1, x1, 8
/// addi  x2, x2, 8
/// jal   x0, .-20
/// ```
static FILLING: [u32; 10] = [
    0x0000_0f97,
    0x0a8f_b083,
    0x0b0f_b103,
    0x0b8f_b183,
    0x0031_0c63,
    0x0000_b203,
    0x0041_3023,
    0x0080_8093,
    0x0081_0113,
    0xfedf_f06f,
];

/// How many registers there are: x0 to x31, and pc behind them.
pub const REGISTERS: usize = 33;

/// How many instructions the loader executes, and how many more for each eight bytes of the stack.
const STEPS: u64 = 37;

const STEPS_FOR_EIGHT: u64 = 6;

/// `ld x1, 192(x31)`, which is followed by those of x2 to x31 from the next eight bytes each.
const FIRST_LOAD: u32 = 0x0c0f_b083;

const NEXT_LOAD: u32 = 0x0080_0080;

/// The loader's bytes: 42 instructions, the three numbers for the stack, and x1 to x31.
const LOADER_BYTES: u64 = 440;

/// Where the loader's last instruction stands in it.
const JUMP_AT: u64 = 164;

/// How many segments of an image are looked at for a gap beside them.
const LOOKED_AT: usize = 64;

/// The rights of what the loader has, as segment flags: to read and to execute.
const LOADER_FLAGS: u32 = 5;

/// How many segments of an image that was made here are the loader's: it, and the bytes for the stack.
pub const OWN_SEGMENTS: usize = 2;

/// What a debugger wants: x0 to x31 and pc, and bytes of memory beside those that are there.
#[derive(Clone, Copy, Drop)]
pub struct Wanted<'a> {
    pub registers: &'a [u64; REGISTERS],
    pub writes: &'a [Write],
}

/// An image, and after how many instructions its run comes to what is wanted.
#[derive(Drop)]
pub struct Beginning {
    pub image: Image,
    pub steps: u64,
}

/// A part of memory on its way into a file.
#[derive(Drop)]
struct Part {
    address: u64,
    flags: u32,
    bytes: Vec<u8>,
}

/// Whether nothing lies in a range.
fn is_free(parts: &[Part], range: Range) -> bool {
    let stack = Range {
        address: STACK_START,
        length: STACK_BYTES as u64,
    };
    if do_meet(stack, range) || range.address.checked_add(range.length).is_none() {
        return false;
    }
    for part in parts {
        let there = Range {
            address: part.address,
            length: part.bytes.len() as u64,
        };
        if do_meet(there, range) {
            return false;
        }
    }
    true
}

/// The word of the jump from a place of the loader to the pc, if it reaches there.
fn jump_word(place: u64, pc: u64) -> Option<u32> {
    let distance = pc.wrapping_sub(place.wrapping_add(JUMP_AT)).cast_signed();
    let offset = i32::try_from(distance).ok()?;
    if !is_jump_offset(offset) {
        return None;
    }
    Some(encode(Inst::Jal(JType {
        offset,
        rd: Reg::ZERO,
    })))
}

/// A place and the loader's jump from there to the pc, if it is free and the jump reaches.
fn place_at(parts: &[Part], place: u64, pc: u64) -> Option<(u64, u32)> {
    let range = Range {
        address: place,
        length: LOADER_BYTES,
    };
    let word = jump_word(place, pc)?;
    if is_free(parts, range) {
        Some((place, word))
    } else {
        None
    }
}

/// A place for the loader beside one of the parts, from which it reaches the pc, and its jump there.
fn place_for(parts: &[Part], pc: u64) -> Option<(u64, u32)> {
    for part in parts.iter().take(LOOKED_AT) {
        let end = part.address.wrapping_add(part.bytes.len() as u64);
        let behind = end.wrapping_add(7) & !7;
        let before = part.address.wrapping_sub(LOADER_BYTES) & !7;
        if let Some(found) = place_at(parts, before, pc) {
            return Some(found);
        }
        if let Some(found) = place_at(parts, behind, pc) {
            return Some(found);
        }
    }
    None
}

/// A place for the bytes of the stack, anywhere but where the loader is to stand.
fn place_of_stack(parts: &[Part], loader: Range, length: u64) -> Option<u64> {
    for shift in 33..63u32 {
        let range = Range {
            address: 1 << shift,
            length,
        };
        if is_free(parts, range) && !do_meet(loader, range) {
            return Some(range.address);
        }
    }
    None
}

/// The bytes of the stack from the first on that is not 0, and those before it up to a multiple of eight; their number is
/// one too.
fn used_stack(alloc: Global, memory: &Paged, writes: &[Write]) -> Result<Vec<u8>, AllocError> {
    let range = Range {
        address: STACK_START,
        length: STACK_BYTES as u64,
    };
    let whole = copy_of(alloc, memory, writes, range)?;
    let zeros = whole.iter().position(|byte| *byte != 0);
    let start = zeros.unwrap_or(whole.len()) / 8 * 8;
    let start = start.min(whole.len());
    Vec::from_slice(alloc, whole.as_slice().split_at(start).1)
}

/// Adds the instructions that fill the stack.
fn put_filling(bytes: &mut Vec<u8>) -> Result<(), AllocError> {
    for word in &FILLING {
        bytes.extend_from_slice(&word.to_le_bytes())?;
    }
    Ok(())
}

/// Adds the instructions that set x1 to x31.
fn put_loads(bytes: &mut Vec<u8>) -> Result<(), AllocError> {
    let mut load = FIRST_LOAD;
    for _ in 1..32 {
        bytes.extend_from_slice(&load.to_le_bytes())?;
        load = load.wrapping_add(NEXT_LOAD);
    }
    Ok(())
}

/// Adds the values of x1 to x31.
fn put_values(bytes: &mut Vec<u8>, registers: &[u64; REGISTERS]) -> Result<(), AllocError> {
    for value in registers.as_slice().split_at(1).1.split_at(31).0 {
        bytes.extend_from_slice(&value.to_le_bytes())?;
    }
    Ok(())
}

/// The loader.
fn loader(
    alloc: Global,
    registers: &[u64; REGISTERS],
    jump: u32,
    saved: u64,
    stack_bytes: u64,
) -> Result<Vec<u8>, AllocError> {
    let end = STACK_START + STACK_BYTES as u64;
    let mut bytes = Vec::new(alloc);
    put_filling(&mut bytes)?;
    put_loads(&mut bytes)?;
    bytes.extend_from_slice(&jump.to_le_bytes())?;
    bytes.extend_from_slice(&saved.to_le_bytes())?;
    bytes.extend_from_slice(&end.wrapping_sub(stack_bytes).to_le_bytes())?;
    bytes.extend_from_slice(&end.to_le_bytes())?;
    put_values(&mut bytes, registers)?;
    Ok(bytes)
}

/// The parts of the memory of an image's run, but for the last `own` ones.
fn parts_of(
    alloc: Global,
    image: &Image,
    own: usize,
    memory: &Paged,
    writes: &[Write],
) -> Result<Vec<Part>, AllocError> {
    let count = image.segments.len().saturating_sub(own);
    let mut parts = Vec::new(alloc);
    for segment in image.segments.iter().take(count) {
        let range = Range {
            address: segment.address,
            length: segment.bytes.len() as u64,
        };
        parts.push(Part {
            address: segment.address,
            flags: segment.flags,
            bytes: copy_of(alloc, memory, writes, range)?,
        })?;
    }
    Ok(parts)
}

/// Adds the program headers of parts, of which the first's bytes stand at an offset.
fn put_headers(file: &mut ElfWriter, first: u64, parts: &[Part]) -> Result<(), AllocError> {
    let mut offset = first;
    for part in parts {
        let size = part.bytes.len() as u64;
        file.program(&ProgramHeader {
            p_type: PT_LOAD,
            p_flags: part.flags,
            p_offset: offset,
            p_vaddr: part.address,
            p_paddr: part.address,
            p_filesz: size,
            p_memsz: size,
            p_align: 1,
        })?;
        offset = offset.wrapping_add(size);
    }
    Ok(())
}

/// Adds the bytes of parts.
fn put_parts(file: &mut ElfWriter, parts: &[Part]) -> Result<(), AllocError> {
    for part in parts {
        file.raw(&part.bytes)?;
    }
    Ok(())
}

/// The file of parts.
fn file_of(alloc: Global, entry: u64, parts: &[Part]) -> Result<Option<Vec<u8>>, AllocError> {
    let Ok(count) = u16::try_from(parts.len()) else {
        return Ok(None);
    };
    let mut file = ElfWriter::new(alloc);
    file.header(&FileHeader {
        e_type: ET_EXEC,
        e_machine: EM_RISCV,
        e_version: EV_CURRENT,
        e_entry: entry,
        e_phoff: FILE_HEADER_SIZE as u64,
        e_shoff: 0,
        e_flags: 0,
        e_ehsize: FILE_HEADER_SIZE as u16,
        e_phentsize: PROGRAM_HEADER_SIZE as u16,
        e_phnum: count,
        e_shentsize: 0,
        e_shnum: 0,
        e_shstrndx: 0,
    })?;
    let first = FILE_HEADER_SIZE as u64 + u64::from(count) * PROGRAM_HEADER_SIZE as u64;
    put_headers(&mut file, first, parts)?;
    put_parts(&mut file, parts)?;
    Ok(Some(file.finish()))
}

/// The image whose run comes to what is wanted from the memory of a run; none where there is no room for a loader. Of an
/// image that was made here the last `own` segments are left out.
pub fn beginning_at(
    alloc: Global,
    image: &Image,
    own: usize,
    memory: &Paged,
    wanted: Wanted<'_>,
) -> Result<Option<Beginning>, AllocError> {
    let mut parts = parts_of(alloc, image, own, memory, wanted.writes)?;
    let Some((place, jump)) = place_for(&parts, wanted.registers[REGISTERS - 1]) else {
        return Ok(None);
    };
    let stack = used_stack(alloc, memory, wanted.writes)?;
    let length = stack.len() as u64;
    let taken = Range {
        address: place,
        length: LOADER_BYTES,
    };
    let Some(saved) = place_of_stack(&parts, taken, length) else {
        return Ok(None);
    };
    parts.push(Part {
        address: place,
        flags: LOADER_FLAGS,
        bytes: loader(alloc, wanted.registers, jump, saved, length)?,
    })?;
    parts.push(Part {
        address: saved,
        flags: LOADER_FLAGS,
        bytes: stack,
    })?;
    let Some(file) = file_of(alloc, place, &parts)? else {
        return Ok(None);
    };
    match load(alloc, &file) {
        Ok(image) => Ok(Some(Beginning {
            image,
            steps: STEPS + length / 8 * STEPS_FOR_EIGHT,
        })),
        Err(FileFault::OutOfMemory) => Err(AllocError),
        Err(_) => Ok(None),
    }
}
