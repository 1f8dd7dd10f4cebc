//! The relocations of a section.
//!
//! Records are looked at one by one, each next to those before it, so of two that meet the later is at fault. A table of
//! symbols is known by the header that names it: nothing is looked up ahead, and a fault is told where its record is.

ghost use Rattle.std.specs.Prelude.{◌≡◌, ◌⊎◌, ◌+◌, ◌*◌, ◌≤◌, ◌<◌, true, false, ◌++◌, List, None, Some, MatchResult, MatchBool, IfOk, length, option_to_list};
ghost use Rattle.rv_elf_laws.specs.Fields.{rela_size};
ghost use Rattle.rv_elf_laws.specs.FirstFault.{first_true};
ghost use Rattle.rv_elf_laws.specs.Records.{rela_at};
ghost use Rattle.rv_elf_laws.specs.Sections.{relas_in};
ghost use Rattle.rv_fault.specs.declared.file_fault.FileFault.TheVariants.{OutOfMemory};
ghost use Rattle.rv_object_laws.specs.Object.{Relocation};
ghost use Rattle.rv_object_laws.specs.Valid.{fits_inside, is_padding, is_padding_of};
ghost use Rattle.rv_object_file_laws.specs.FirstFault.{relocations_tests, relocation_tests, is_misplaced};
ghost use Rattle.rv_object_file_laws.specs.Parts.{is_executable, extent_of, kind_numbered, relocation_by, relocation_in, relocations_in};
ghost use Rattle.rv_object_reader.specs.Held.{fields_of};
ghost use Rattle.rv_object_reader.specs.Stretches.{HoldsCode, placed};

use crate::places::{Places, is_align};
use rv_elf::{RELA_SIZE, SHF_EXECINSTR, SHT_NOBITS, rela_in};
use rv_elf_laws::{Rela, SectionHeader};
use rv_fault::FileFault;
use rv_isa::{Kind, kind_of};
use std::alloc::AllocError;

/// The most bytes of a padding.
const LONGEST_PADDING: u64 = 4094;

/// Looks at the relocations of a section with this header, one after the other, in a file with so many symbols;
/// `places` is what those before them hold of the section if it is code, and then what all hold.
pub(crate) fn check_relocations(
    header: &SectionHeader,
    symbols: u64,
    places: &mut Places,
    records: &[u8],
) -> Result<(), FileFault>
    ensures { (before : List Relocation)
        → HoldsCode header.now places.old.paddings.by_end.entries (fields_of places.old)
        before
        → MatchResult result
        (λ _. (first_true (relocations_tests header.now symbols before (relas_in records.now))
        ≡ None)
        × HoldsCode header.now places.new.paddings.by_end.entries (fields_of places.new)
        (before ++ relocations_in (relas_in records.now)))
        (λ fault. (fault ≡ OutOfMemory)
        ⊎ (first_true (relocations_tests header.now symbols before (relas_in records.now))
        ≡ Some fault)) }
{
    for index in 0..records.len() / RELA_SIZE {
        let rela = rela_from(records, index);
        check_relocation(header, symbols, places, &rela)?;
    }
    Ok(())
}

/// The relocation of this index, from 0, in a section of these bytes.
pub(crate) fn rela_from(bytes: &[u8], index: usize) -> Rela
    requires { rela_size * index + rela_size ≤ length bytes.now }
    ensures { result ≡ rela_at (rela_size * index) bytes.now }
{
    rela_in(&bytes[RELA_SIZE * index..], 0)
}

/// Looks at a relocation, as `check_relocations` does at all.
#[tactic(auto, unfolding(rv_object_file_laws::specs::FirstFault::relocation_tests))]
fn check_relocation(
    header: &SectionHeader,
    symbols: u64,
    places: &mut Places,
    rela: &Rela,
) -> Result<(), FileFault>
    ensures { (before : List Relocation)
        → HoldsCode header.now places.old.paddings.by_end.entries (fields_of places.old)
        before
        → MatchResult result
        (λ _. (first_true (relocation_tests header.now symbols before rela.now) ≡ None)
        × HoldsCode header.now places.new.paddings.by_end.entries (fields_of places.new)
        (before ++ option_to_list (relocation_in rela.now)))
        (λ fault. (fault ≡ OutOfMemory)
        ⊎ (first_true (relocation_tests header.now symbols before rela.now) ≡ Some fault)) }
{
    let kind = kind_numbered(rela.r_type);
    if !is_placed(header, places, rela, kind)? {
        return Err(FileFault::BadTable);
    }
    if rela.r_sym != 0 && u64::from(rela.r_sym) >= symbols {
        return Err(FileFault::BadIndex);
    }
    if kind.is_none() {
        return Err(FileFault::UnsupportedRelocation(rela.r_type));
    }
    Ok(())
}

/// The kind of relocation of this number; none where the linker has no such kind.
pub fn kind_numbered(number: u32) -> Option<Kind>
    ensures { result ≡ kind_numbered number }
{
    kind_of(number)
}

/// Whether a relocation, if it has a kind, lies in the section and in code meets none before it; then it is added.
fn is_placed(
    header: &SectionHeader,
    places: &mut Places,
    rela: &Rela,
    kind: Option<Kind>,
) -> Result<bool, AllocError>
    ensures { IfOk result (λ good. (before : List Relocation)
        → HoldsCode header.now places.old.paddings.by_end.entries (fields_of places.old)
        before
        → MatchBool good
        ((is_misplaced header.now before (relocation_by rela.now kind) ≡ false)
        × HoldsCode header.now places.new.paddings.by_end.entries (fields_of places.new)
        (before ++ option_to_list (relocation_by rela.now kind)))
        (is_misplaced header.now before (relocation_by rela.now kind) ≡ true)) }
{
    let Some(kind) = kind else {
        return Ok(true);
    };
    if !fits(header, rela, kind) || !is_padding(header, rela, kind) {
        return Ok(false);
    }
    if !is_code(header) {
        return Ok(true);
    }
    places.put(rela, kind, header.sh_size)
}

/// Whether its field lies in the section.
fn fits(header: &SectionHeader, rela: &Rela, kind: Kind) -> bool
    ensures { result ≡ fits_inside (extent_of header.now) (placed rela.now kind) }
{
    let width = kind.width() as u64;
    if header.sh_type == SHT_NOBITS {
        return width == 0;
    }
    width <= header.sh_size && rela.r_offset <= header.sh_size - width
}

/// Whether its padding, if it has one, is one.
fn is_padding(header: &SectionHeader, rela: &Rela, kind: Kind) -> bool
    ensures { result ≡ is_padding
        (is_executable header.now) (extent_of header.now) (placed rela.now kind) }
{
    if !is_align(kind) {
        return true;
    }
    if rela.r_addend < 0 {
        return false;
    }
    is_padding_of(header, rela.r_offset, rela.r_addend.cast_unsigned())
}

/// Whether so many bytes from a place on are a padding of the section.
fn is_padding_of(header: &SectionHeader, place: u64, count: u64) -> bool
    ensures { result ≡ is_padding_of
        (is_executable header.now) (extent_of header.now) place (Some count) }
{
    if count % 2 != 0 || count > LONGEST_PADDING {
        return false;
    }
    if !is_code(header) {
        return true;
    }
    place % 2 == 0 && count <= header.sh_size && place <= header.sh_size - count
}

/// Whether the section has code.
fn is_code(header: &SectionHeader) -> bool
    ensures { result ≡ is_executable header.now }
{
    header.sh_flags / SHF_EXECINSTR % 2 == 1
}
