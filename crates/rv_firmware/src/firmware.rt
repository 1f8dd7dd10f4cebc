//! What of an executable is kept at which address.
//!
//! A boot loader or a programmer of flash memory puts contents where the program header's physical address says; start-up
//! code copies them to where they run, and clears what begins as zeros. So these are the addresses of all formats here.

ghost use Rattle.std.specs.Prelude.{◌≡◌, ◌⊎◌, ◌+◌, ◌^◌, ◌<◌, ◌++◌, false, true, length, map, filter, [], ◌∷◌, IfOk, OnOk, MatchResult, ◌&&◌};
ghost use Rattle.std.specs.List.{list_any};
ghost use Rattle.rv_elf_laws.specs.FirstFault.{Finds};
ghost use Rattle.rv_elf_laws.specs.Sections.{program_headers};
ghost use Rattle.rv_firmware.specs.declared.fault.FirmwareFault.TheVariants.{Memory};
ghost use Rattle.rv_firmware.specs.Blocks.{block_of};
ghost use Rattle.rv_firmware.specs.FirmwareOf.{firmware_of, firmware_in, firmware_tests, is_flashed, is_cut, is_low, are_low, block_in, IsRefused};

use crate::block::Block;
use crate::fault::FirmwareFault;
use rv_elf::{ET_EXEC, ElfView, PT_LOAD, file_type, lies_past};
use rv_elf_laws::ProgramHeader;
use rv_fault::FileFault;
use std::alloc::{AllocError, Global};

/// The contents of an executable's segments, and where it starts.
#[derive(Drop)]
pub struct Firmware<'a> {
    /// The contents of the segments that have any, in the order of the file.
    pub blocks: Vec<Block<'a>>,
    /// The address of the first instruction.
    pub entry: u32,
}

impl<'a> Firmware<'a> {
    /// The firmware of an executable, or why there is none.
    #[tactic(auto, using(crate::proofs::HeadersLemmas::none_is_cut))]
    pub fn of(alloc: Global, file: &'a [u8]) -> Result<Self, FirmwareFault>
        ensures { MatchResult result
            (λ firmware. firmware_of firmware ≡ firmware_in file.now)
            (IsRefused file.now) }
    {
        let view = open(file)?;
        if !are_low(&view) {
            return Err(FirmwareFault::Address);
        }
        let blocks = blocks(alloc, &view)?;
        Ok(Firmware {
            blocks,
            entry: view.header().e_entry as u32,
        })
    }

    /// Firmware of some bytes at an address, whose first instruction is at `entry`.
    pub fn of_bytes(
        alloc: Global,
        address: u32,
        bytes: &'a [u8],
        entry: u32,
    ) -> Result<Self, FirmwareFault>
        ensures { MatchResult result
            (λ firmware. firmware_of firmware ≡ record {
              blocks = record { address = address; bytes = bytes.now } ∷ [];
              entry = entry;
            })
            (λ fault. (fault ≡ Memory) ⊎ (2 ^ 32 < address + length bytes.now)) }
    {
        if u64::from(address) + bytes.len() as u64 > 1 << 32 {
            return Err(FirmwareFault::Address);
        }
        let mut blocks = Vec::new(alloc);
        blocks.push(Block { address, bytes })?;
        Ok(Firmware { blocks, entry })
    }
}

/// What of a file is to be looked at, or its first fault.
#[tactic(auto, using(rv_elf_laws::specs::FirstTrue::first_true_some, rv_elf_laws::specs::FirstTrue::first_true_none), unfolding(crate::specs::FirmwareOf::firmware_tests, rv_elf_laws::specs::FirstFault::type_tests, crate::specs::FirmwareOf::contents_tests))]
fn open(file: &[u8]) -> Result<ElfView<'_>, FileFault>
    ensures faults { Finds (firmware_tests file.now) result }
    ensures file { IfOk result (λ view. view.file.now ≡ file.now) }
{
    if file_type(file)? != ET_EXEC {
        return Err(FileFault::NotExecutable);
    }
    let view = ElfView::open(file)?;
    if is_any_cut(&view) {
        return Err(FileFault::Truncated);
    }
    Ok(view)
}

/// Whether contents of a segment lie past the end of the file.
fn is_any_cut(view: &ElfView<'_>) -> bool
    ensures { result ≡ list_any (is_cut view.now.file.now) (program_headers view.now.file.now) }
{
    let count = view.header().e_phnum;
    for index in 0..count {
        if is_cut(view, view.program(index)) {
            return true;
        }
    }
    false
}

/// Whether the contents of a program header lie past the end of the file.
fn is_cut(view: &ElfView<'_>, program: ProgramHeader) -> bool
    ensures { result ≡ is_cut view.now.file.now program }
{
    program.p_type == PT_LOAD && lies_past(view.file(), program.p_offset, program.p_filesz)
}

/// Whether all addresses have 32 bits.
fn are_low(view: &ElfView<'_>) -> bool
    ensures { result ≡ are_low view.now.file.now }
{
    let header = view.header();
    if header.e_entry > u64::from(u32::MAX) {
        return false;
    }
    let count = header.e_phnum;
    for index in 0..count {
        if !is_low(view.program(index)) {
            return false;
        }
    }
    true
}

/// Whether the addresses of a program header's contents have 32 bits.
fn is_low(program: ProgramHeader) -> bool
    ensures { result ≡ is_low program }
{
    !is_kept(program) || u128::from(program.p_paddr) + u128::from(program.p_filesz) <= 1 << 32
}

/// Whether a program header has bytes in the file that are loaded.
fn is_kept(program: ProgramHeader) -> bool
    ensures { result ≡ is_flashed program }
{
    program.p_type == PT_LOAD && program.p_filesz != 0
}

/// What is kept of a file, in its order.
fn blocks<'a>(alloc: Global, view: &ElfView<'a>) -> Result<Vec<Block<'a>>, AllocError>
    requires whole { list_any (is_cut view.now.file.now)
        (program_headers view.now.file.now) ≡ false }
    requires low { are_low view.now.file.now ≡ true }
    ensures { IfOk result (λ blocks. map block_of blocks.items
        ≡ map (block_in view.now.file.now)
        (filter is_flashed (program_headers view.now.file.now))) }
{
    let count = view.header().e_phnum;
    let mut blocks = Vec::new(alloc);
    for index in 0..count {
        put_block(&mut blocks, view.file(), view.program(index))?;
    }
    Ok(blocks)
}

/// Adds what is kept of a program header.
fn put_block<'a>(
    blocks: &mut Vec<Block<'a>>,
    file: &'a [u8],
    program: ProgramHeader,
) -> Result<(), AllocError>
    requires whole { is_cut file.now program ≡ false }
    requires low { is_low program ≡ true }
    ensures { OnOk result (map block_of blocks.new.items
        ≡ map block_of blocks.old.items
        ++ map (block_in file.now) (filter is_flashed (program ∷ []))) }
{
    if !is_kept(program) {
        return Ok(());
    }
    let first = program.p_offset as usize;
    let bytes = &file[first..first + program.p_filesz as usize];
    let address = program.p_paddr as u32;
    Ok(blocks.push(Block { address, bytes })?)
}
