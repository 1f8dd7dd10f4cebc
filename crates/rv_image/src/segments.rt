//! The program headers of a file, and the segments that they load.

ghost use Rattle.std.specs.Prelude.{◌≡◌, ◌<◌, ◌≤◌, ◌+◌, ◌^◌, true, not, nat_lt, [], ◌∷◌};
ghost use Rattle.std.specs.List.{list_any, list_all};
ghost use Rattle.rv_isa_laws.specs.Platform.{memory_limit};
ghost use Rattle.rv_elf_laws.specs.FirstFault.{Finds};
ghost use Rattle.rv_elf_laws.specs.Sections.{program_count, program_headers};
ghost use Rattle.rv_image_laws.specs.FirstFault.{programs_tests, program_tests, segment_tests, do_overlap, ends_by, whole_tests, loaded_size, programs_before};
ghost use Rattle.rv_image_laws.specs.Segment.{do_meet};

use crate::segment::{MEMORY_LIMIT, STACK_BYTES, STACK_START};
use rv_elf::{ElfView, PT_DYNAMIC, PT_INTERP, PT_LOAD, PT_TLS, lies_past};
use rv_elf_laws::ProgramHeader;
use rv_fault::FileFault;

/// Looks at the program headers, one after the other.
pub(crate) fn check_programs(view: &ElfView<'_>) -> Result<(), FileFault>
    ensures { Finds
        (programs_tests view.now.file.now [] (program_headers view.now.file.now)) result }
{
    let count = view.header().e_phnum;
    let mut highest = 0;
    for index in 0..count {
        let program = view.program(index);
        check_program(view, index, program, highest)?;
        highest = raised(highest, program);
    }
    Ok(())
}

/// The greater of `highest` and the end of what the program header loads.
fn raised(highest: u128, program: ProgramHeader) -> u128
    requires { highest ≤ 2 ^ 65 }
    ensures least { result ≤ 2 ^ 65 }
    ensures before { highest ≤ result }
    ensures end { ends_by result program ≡ true }
{
    let end = program.p_vaddr as u128 + program.p_memsz as u128;
    if program.p_type == PT_LOAD && end > highest {
        end
    } else {
        highest
    }
}

/// Looks at a program header with `earlier` others before it in the table, all of which end at
/// `highest` or before.
#[tactic(auto, unfolding(rv_image_laws::specs::FirstFault::program_tests))]
fn check_program(
    view: &ElfView<'_>,
    earlier: u16,
    program: ProgramHeader,
    highest: u128,
) -> Result<(), FileFault>
    requires within { earlier ≤ program_count view.now.file.now }
    requires below { list_all (ends_by highest)
        (programs_before earlier view.now.file.now) ≡ true }
    ensures { Finds (program_tests view.now.file.now
        (programs_before earlier view.now.file.now) program) result }
{
    if lies_past(view.file(), program.p_offset, program.p_filesz) {
        return Err(FileFault::Truncated);
    }
    if program.p_type == PT_DYNAMIC || program.p_type == PT_INTERP || program.p_type == PT_TLS {
        return Err(FileFault::Dynamic);
    }
    if program.p_type == PT_LOAD {
        check_segment(view, earlier, program, highest)?;
    }
    Ok(())
}

/// Looks at what is loaded.
#[tactic(auto, unfolding(rv_image_laws::specs::FirstFault::segment_tests), using(crate::proofs::ProgramsLemmas::none_meets))]
fn check_segment(
    view: &ElfView<'_>,
    earlier: u16,
    program: ProgramHeader,
    highest: u128,
) -> Result<(), FileFault>
    requires within { earlier ≤ program_count view.now.file.now }
    requires below { list_all (ends_by highest)
        (programs_before earlier view.now.file.now) ≡ true }
    ensures { Finds (segment_tests (programs_before earlier view.now.file.now) program) result }
{
    if program.p_memsz < program.p_filesz {
        return Err(FileFault::BadTable);
    }
    if program.p_vaddr as u128 + program.p_memsz as u128 > 1 << 64 {
        return Err(FileFault::BadTable);
    }
    if (program.p_vaddr as u128) < highest && meets_earlier(view, earlier, program) {
        return Err(FileFault::Overlap);
    }
    if meet(
        program.p_vaddr,
        program.p_memsz,
        STACK_START,
        STACK_BYTES as u64,
    ) {
        return Err(FileFault::Overlap);
    }
    Ok(())
}

/// Whether what is loaded shares an address with one of the `earlier` segments.
fn meets_earlier(view: &ElfView<'_>, earlier: u16, program: ProgramHeader) -> bool
    requires { earlier ≤ program_count view.now.file.now }
    ensures { result ≡ list_any (do_overlap program)
        (programs_before earlier view.now.file.now) }
{
    for index in 0..earlier {
        let other = view.program(index);
        if overlap(program, other) {
            return true;
        }
    }
    false
}

/// Whether `other` loads something at an address of the program.
fn overlap(program: ProgramHeader, other: ProgramHeader) -> bool
    ensures { result ≡ do_overlap program other }
{
    other.p_type == PT_LOAD
        && meet(
            program.p_vaddr,
            program.p_memsz,
            other.p_vaddr,
            other.p_memsz,
        )
}

/// Looks at the entry and at the memory of all segments.
#[tactic(auto, unfolding(rv_image_laws::specs::FirstFault::whole_tests))]
pub(crate) fn check_whole(view: &ElfView<'_>) -> Result<(), FileFault>
    ensures { Finds (whole_tests view.now.file.now) result }
{
    if view.header().e_entry % 2 != 0 {
        return Err(FileFault::BadTable);
    }
    if !fit_memory(view) {
        return Err(FileFault::MemoryLimit);
    }
    Ok(())
}

/// Whether the segments are within the limit.
fn fit_memory(view: &ElfView<'_>) -> bool
    ensures { result ≡ not (nat_lt memory_limit
        (loaded_size (program_headers view.now.file.now))) }
{
    let count = view.header().e_phnum;
    let mut left = MEMORY_LIMIT;
    for index in 0..count {
        let program = view.program(index);
        let size = memory_of(program);
        if size > left {
            return false;
        }
        left -= size;
    }
    true
}

/// The bytes that a program header loads.
fn memory_of(program: ProgramHeader) -> u64
    ensures { result ≡ loaded_size (program ∷ []) }
{
    if program.p_type == PT_LOAD {
        program.p_memsz
    } else {
        0
    }
}

/// Whether an address is both among the `size` from `start` on and among the `other_size` from `other` on.
fn meet(start: u64, size: u64, other: u64, other_size: u64) -> bool
    ensures { result ≡ do_meet start size other other_size }
{
    if start < other {
        other_size > 0 && other - start < size
    } else {
        size > 0 && start - other < other_size
    }
}
