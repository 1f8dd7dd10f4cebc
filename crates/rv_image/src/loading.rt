//! Reads an executable.

ghost use Rattle.std.specs.Prelude.{◌≡◌, ◌<◌, ◌+◌, ◌*◌, ◌⊎◌, false, None, Some, length, take, drop, map, filter, [], ◌∷◌, ◌++◌, IfOk, MatchResult, ℕ};
ghost use Rattle.rv_fault.specs.declared.file_fault.FileFault.TheVariants.{OutOfMemory};
ghost use Rattle.rv_elf_laws.specs.Fields.{number_in, e_phoff, program_header_size};
ghost use Rattle.rv_elf_laws.specs.FirstFault.{Finds};
ghost use Rattle.rv_elf_laws.specs.Numbers.{pt_load};
ghost use Rattle.rv_elf_laws.specs.Records.{program_header_at};
ghost use Rattle.rv_elf_laws.specs.Sections.{program_headers, program_count, is_load, is_past};
ghost use Rattle.rv_image_laws.specs.FirstFault.{load_tests, first_fault, IsLoadable};
ghost use Rattle.rv_image.specs.Views.{image_of};
ghost use Rattle.rv_image_laws.specs.ImageOf.{ImageOf, segment_in};
ghost use Rattle.rv_image.specs.SegmentView.{segment_of};

use crate::image::Image;
use crate::segment::Segment;
use crate::segments::{check_programs, check_whole};
use rv_elf::{ET_EXEC, ElfView, PT_LOAD, file_type};
use rv_elf_laws::ProgramHeader;
use rv_fault::FileFault;
use std::alloc::{AllocError, Global};

/// The image of an executable, or the first of its faults. Nothing of the file is copied before all
/// of it is found to be good.
pub fn load(alloc: Global, file: &[u8]) -> Result<Image, FileFault>
    ensures { MatchResult result
        (λ image. (first_fault file.now ≡ None) × ImageOf file.now (image_of image))
        (λ fault. (fault ≡ OutOfMemory) ⊎ (first_fault file.now ≡ Some fault)) }
{
    let view = check(file)?;
    let segments = segments(alloc, &view)?;
    Ok(Image {
        entry: view.header().e_entry,
        segments,
    })
}

/// A view of a file without a fault, or its first fault.
#[tactic(auto, using(rv_elf_laws::specs::FirstTrue::first_true_some, rv_elf_laws::specs::FirstTrue::first_true_none), unfolding(rv_image_laws::specs::FirstFault::load_tests, rv_elf_laws::specs::FirstFault::type_tests))]
fn check(file: &[u8]) -> Result<ElfView<'_>, FileFault>
    ensures faults { Finds (load_tests file.now) result }
    ensures file { IfOk result (λ view. view.file.now ≡ file.now) }
{
    if file_type(file)? != ET_EXEC {
        return Err(FileFault::NotExecutable);
    }
    let view = ElfView::open(file)?;
    check_programs(&view)?;
    check_whole(&view)?;
    Ok(view)
}

/// The segments that a file loads, in its order.
fn segments(alloc: Global, view: &ElfView<'_>) -> Result<Vec<Segment>, FileFault>
    requires { (i : ℕ) → i < program_count view.now.file.now →
        IsLoadable view.now.file.now (program_header_at
        (number_in e_phoff 0 view.now.file.now + program_header_size * i)
        view.now.file.now) }
    ensures { MatchResult result
        (λ segments. map segment_of segments.items
        ≡ map (segment_in view.now.file.now) (filter is_load (program_headers view.now.file.now)))
        (λ fault. fault ≡ OutOfMemory) }
{
    let count = view.header().e_phnum;
    let mut segments = Vec::new(alloc);
    for index in 0..count {
        add_segment(&mut segments, alloc, view, view.program(index))?;
    }
    Ok(segments)
}

/// Appends what a program header loads.
fn add_segment(
    segments: &mut Vec<Segment>,
    alloc: Global,
    view: &ElfView<'_>,
    program: ProgramHeader,
) -> Result<(), FileFault>
    requires { IsLoadable view.now.file.now program }
    ensures { MatchResult result
        (λ _. map segment_of segments.new.items ≡ map segment_of segments.old.items
        ++ map (segment_in view.now.file.now) (filter is_load (program ∷ [])))
        (λ fault. fault ≡ OutOfMemory) }
{
    if program.p_type != PT_LOAD {
        return Ok(());
    }
    segments.push(segment(alloc, view.file(), program)?)?;
    Ok(())
}

/// The segment of a program header: what the file has of it, and zeros.
fn segment(alloc: Global, file: &[u8], program: ProgramHeader) -> Result<Segment, AllocError>
    requires load { program.p_type ≡ pt_load }
    requires sound { IsLoadable file.now program }
    ensures { IfOk result (λ segment. segment_of segment ≡ segment_in file.now program) }
{
    let mut bytes = Vec::with_capacity(alloc, program.p_memsz as usize)?;
    bytes.extend_from_slice(contents(file, program.p_offset, program.p_filesz))?;
    bytes.resize(program.p_memsz as usize, 0)?;
    Ok(Segment {
        address: program.p_vaddr,
        bytes,
        flags: program.p_flags,
    })
}

/// The bytes of the file from a place on, `size` of them.
fn contents(file: &[u8], place: u64, size: u64) -> &[u8]
    requires { is_past file.now place size ≡ false }
    ensures bytes { result.now ≡ take size (drop place file.now) }
    ensures length { length result.now ≡ size }
{
    if size == 0 {
        return &[];
    }
    &file[place as usize..(place + size) as usize]
}
