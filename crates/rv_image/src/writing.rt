//! Writes an executable.

ghost use Rattle.std.specs.Prelude.{◌≡◌, ◌<◌, ◌≤◌, ◌+◌, ◌^◌, length, filter, flat_map, [], ◌∷◌, ◌++◌, IfOk, OnOk, ◌-◌};
ghost use Rattle.rv_elf_laws.specs.Numbers.{pf_x, pf_w, pf_r};
ghost use Rattle.rv_image_laws.specs.Executable.{exe_of, parts_with_memory, has_memory, header_of, program_of, program_bytes, with_contents, with_parts, all_parts, offset_of, memory_size_of};
ghost use Rattle.rv_image.specs.Views.{segment_part, linked_of};

use crate::linked::Linked;
use rv_elf::{
    EF_RISCV_RVC, EM_RISCV, ET_EXEC, EV_CURRENT, ElfWriter, FILE_HEADER_SIZE, PF_R, PF_W, PF_X,
    PROGRAM_HEADER_SIZE, PT_LOAD,
};
use rv_elf_laws::{FileHeader, ProgramHeader};
use std::alloc::{AllocError, Global};

/// The bytes of a page: text stands in the file from the second on.
const PAGE: u64 = 0x1000;

/// What the file has of a segment, and how many zeros follow it in memory.
#[derive(Clone, Copy, Drop)]
struct Part<'a> {
    address: u64,
    stored: &'a [u8],
    zeros: u64,
    flags: u32,
}

/// The executable of a linked program.
pub fn write_exec(alloc: Global, linked: &Linked) -> Result<Vec<u8>, AllocError>
    ensures { IfOk result (λ file. file.items ≡ exe_of (linked_of linked.now)) }
{
    let mut file = ElfWriter::new(alloc);
    file.header(&header(linked))?;
    put_programs(&mut file, linked)?;
    put_parts(&mut file, linked)?;
    Ok(file.finish())
}

/// The header: what the file is.
fn header(linked: &Linked) -> FileHeader
    ensures { result ≡ header_of (linked_of linked.now) }
{
    FileHeader {
        e_type: ET_EXEC,
        e_machine: EM_RISCV,
        e_version: EV_CURRENT,
        e_entry: linked.map.entry,
        e_phoff: FILE_HEADER_SIZE as u64,
        e_shoff: 0,
        e_flags: if linked.rvc { EF_RISCV_RVC } else { 0 },
        e_ehsize: FILE_HEADER_SIZE as u16,
        e_phentsize: PROGRAM_HEADER_SIZE as u16,
        e_phnum: count(linked),
        e_shentsize: 0,
        e_shnum: 0,
        e_shstrndx: 0,
    }
}

/// How many segments have memory.
fn count(linked: &Linked) -> u16
    ensures { result ≡ length (parts_with_memory (linked_of linked.now)) }
{
    let text = u16::from(text(linked).has_memory());
    let rodata = u16::from(rodata(linked).has_memory());
    let data = u16::from(data(linked).has_memory());
    text + rodata + data
}

/// The program headers.
fn put_programs(file: &mut ElfWriter, linked: &Linked) -> Result<(), AllocError>
    ensures bytes { OnOk result
        (file.new ≡ file.old
        ++ flat_map (program_bytes linked.now.map.text.start)
        (parts_with_memory (linked_of linked.now))) }
{
    lie_near(linked);
    let start = linked.map.text.start;
    put_program(file, start, text(linked))?;
    put_program(file, start, rodata(linked))?;
    put_program(file, start, data(linked))?;
    Ok(())
}

/// The contents of the segments.
fn put_parts(file: &mut ElfWriter, linked: &Linked) -> Result<(), AllocError>
    requires { length file.old ≤ 0x1000 }
    ensures { OnOk result
        (file.new
        ≡ with_parts linked.now.map.text.start file.old (all_parts (linked_of linked.now))) }
{
    lie_near(linked);
    let start = linked.map.text.start;
    put_part(file, start, text(linked))?;
    put_part(file, start, rodata(linked))?;
    put_part(file, start, data(linked))?;
    Ok(())
}

/// No part lies so far behind the text that its place in the file has no number: the stack ends the parts, or the last page.
fn lie_near(linked: &Linked)
    ensures { linked.now.map.bss.end - linked.now.map.text.start < 2 ^ 64 - 0x1000 }
{}

fn text(linked: &Linked) -> Part<'_>
    ensures { segment_part result
        ≡ record {
          address = linked.now.map.text.start;
          stored = linked.now.text.items;
          zeros = 0;
          flags = pf_x;
        } }
{
    Part {
        address: linked.map.text.start,
        stored: &linked.text,
        zeros: 0,
        flags: PF_X,
    }
}

fn rodata(linked: &Linked) -> Part<'_>
    ensures { segment_part result
        ≡ record {
          address = linked.now.map.rodata.start;
          stored = linked.now.rodata.items;
          zeros = 0;
          flags = pf_r;
        } }
{
    Part {
        address: linked.map.rodata.start,
        stored: &linked.rodata,
        zeros: 0,
        flags: PF_R,
    }
}

fn data(linked: &Linked) -> Part<'_>
    ensures { segment_part result
        ≡ record {
          address = linked.now.map.data.start;
          stored = linked.now.data.items;
          zeros = linked.now.map.bss.end - linked.now.map.data.end;
          flags = pf_r + pf_w;
        } }
{
    let zeros = linked.map.bss.end - linked.map.data.end;
    Part {
        address: linked.map.data.start,
        stored: &linked.data,
        zeros,
        flags: PF_R + PF_W,
    }
}

impl Part<'_> {
    /// The bytes of memory that it has.
    fn memory_size(&self) -> u64
        requires { memory_size_of (segment_part self.now) < 2 ^ 64 }
        ensures { result ≡ memory_size_of (segment_part self.now) }
    {
        self.stored.len() as u64 + self.zeros
    }

    fn has_memory(&self) -> bool
        ensures { result ≡ has_memory (segment_part self.now) }
    {
        !self.stored.is_empty() || self.zeros > 0
    }
}

/// A program header, for a part that has memory.
fn put_program(file: &mut ElfWriter, start: u64, part: Part) -> Result<(), AllocError>
    requires below { memory_size_of (segment_part part) < 2 ^ 64 }
    requires after { start ≤ part.address }
    requires far { part.address - start < 2 ^ 64 - 0x1000 }
    ensures bytes { OnOk result (file.new ≡ file.old
        ++ flat_map (program_bytes start) (filter has_memory (segment_part part.entry ∷ []))) }
{
    if !part.has_memory() {
        return Ok(());
    }
    file.program(&program_header(start, part))?;
    Ok(())
}

/// The program header of a part.
fn program_header(start: u64, part: Part) -> ProgramHeader
    requires below { memory_size_of (segment_part part) < 2 ^ 64 }
    requires after { start ≤ part.address }
    requires far { part.address - start < 2 ^ 64 - 0x1000 }
    ensures { result ≡ program_of start (segment_part part.entry) }
{
    ProgramHeader {
        p_type: PT_LOAD,
        p_flags: part.flags,
        p_offset: PAGE + (part.address - start),
        p_vaddr: part.address,
        p_paddr: part.address,
        p_filesz: part.stored.len() as u64,
        p_memsz: part.memory_size(),
        p_align: PAGE,
    }
}

/// The stored bytes of a part at their place, zeros before them.
fn put_part(file: &mut ElfWriter, start: u64, part: Part) -> Result<(), AllocError>
    requires after { start ≤ part.address }
    requires far { part.address - start < 2 ^ 64 - 0x1000 }
    requires room { length file.old ≤ offset_of start (segment_part part) }
    ensures bytes { OnOk result
        (file.new ≡ with_contents file.old
        (offset_of start (segment_part part.entry)) part.entry.stored.now) }
    ensures length { OnOk result
        (length file.new
        ≤ offset_of start (segment_part part.entry) + length part.entry.stored.now) }
{
    if part.stored.is_empty() {
        return Ok(());
    }
    let place = (PAGE + (part.address - start)) as usize;
    file.zeros(place - file.len())?;
    file.raw(part.stored)?;
    Ok(())
}
