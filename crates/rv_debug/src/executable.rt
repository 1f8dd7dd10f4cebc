//! What the executable has to be, and where it has the bytes of the map's regions.

ghost use Rattle.std.specs.Prelude.{◌≡◌, ◌<◌, ◌^◌, true, None, Some, IfSome, IfNone, ◌⊎◌, false};
ghost use Rattle.std.specs.List.{list_all, find};
ghost use Rattle.rv_fault.specs.declared.file_fault.FileFault.{FileFault as AnyFault};
ghost use Rattle.rv_elf_laws.specs.FirstFault.{first_true, open_tests};
ghost use Rattle.rv_elf_laws.specs.Sections.{program_headers};
ghost use Rattle.rv_debug.specs.Refused.{IsUnstored};
ghost use Rattle.rv_debug_laws.specs.Stored.{can_grow, has_bytes, is_behind_header, stored_at};

use rv_elf::{ElfView, FILE_HEADER_SIZE, PT_LOAD, ProgramHeader};
use rv_map::Region;

/// A view of an executable behind which more can stand; none of another.
pub(crate) fn open(file: &[u8]) -> Option<ElfView<'_>>
    ensures file { IfSome result (λ view. view.file.now ≡ file.now) }
    ensures opens { IfSome result (λ view. first_true (open_tests file.now) ≡ None) }
    ensures grows { IfSome result (λ view. can_grow file.now ≡ true) }
    ensures none { IfNone result
        (((fault : AnyFault) × (first_true (open_tests file.now) ≡ Some fault))
        ⊎ (can_grow file.now ≡ false)) }
{
    let Ok(view) = ElfView::open(file) else {
        return None;
    };
    if !can_grow(&view) {
        return None;
    }
    Some(view)
}

/// Whether nothing of the program stands in the file's header.
fn can_grow(view: &ElfView<'_>) -> bool
    ensures { result ≡ can_grow view.now.file.now }
{
    let header = view.header();
    if header.e_phnum != 0 && header.e_phoff < FILE_HEADER_SIZE as u64 {
        return false;
    }
    are_behind_header(view)
}

/// Whether the contents of all segments lie in the file, behind its header.
fn are_behind_header(view: &ElfView<'_>) -> bool
    ensures { result ≡ list_all (is_behind_header view.now.file.now)
        (program_headers view.now.file.now) }
{
    let count = view.header().e_phnum;
    for index in 0..count {
        if !is_behind_header(view, view.program(index)) {
            return false;
        }
    }
    true
}

/// Whether the contents of a segment lie in the file, behind its header.
fn is_behind_header(view: &ElfView<'_>, program: ProgramHeader) -> bool
    ensures { result ≡ is_behind_header view.now.file.now program }
{
    let file = view.file();
    let end = u128::from(program.p_offset) + u128::from(program.p_filesz);
    program.p_filesz == 0
        || program.p_offset >= FILE_HEADER_SIZE as u64 && end <= file.len() as u128
}

/// Where the file has the bytes of a region; 0 for one without bytes.
pub(crate) fn stored_at(view: &ElfView<'_>, region: Region) -> Option<u64>
    ensures some { IfSome result (λ place.
        stored_at (program_headers view.now.file.now) region ≡ Some place) }
    ensures place { IfSome result (λ place. place < 2 ^ 64) }
    ensures none { IfNone result
        (IsUnstored (program_headers view.now.file.now) region) }
{
    if region.end <= region.start {
        return Some(0);
    }
    let program = segment_with(view, region)?;
    program.p_offset.checked_add(region.start - program.p_vaddr)
}

/// The first segment with the bytes of a region.
fn segment_with(view: &ElfView<'_>, region: Region) -> Option<ProgramHeader>
    ensures { result ≡ find (has_bytes region) (program_headers view.now.file.now) }
{
    let count = view.header().e_phnum;
    for index in 0..count {
        let program = view.program(index);
        if has_bytes(region, program) {
            return Some(program);
        }
    }
    None
}

/// Whether a segment has these addresses, and the file its bytes there.
fn has_bytes(region: Region, program: ProgramHeader) -> bool
    ensures { result ≡ has_bytes region program }
{
    let end = u128::from(program.p_vaddr) + u128::from(program.p_filesz);
    program.p_type == PT_LOAD && program.p_vaddr <= region.start && u128::from(region.end) <= end
}
