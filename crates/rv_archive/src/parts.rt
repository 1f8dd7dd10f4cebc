//! The parts of an archive: heads, each with its contents behind it.

ghost use Rattle.std.specs.Prelude.{◌≡◌, ◌+◌, ◌≤◌, ◌<◌, ◌^◌, Ok, Err, Some, None, length, map, IfOk, IfErr, IfSome, OnOk};
ghost use Rattle.rv_archive_laws.specs.Decimal.{decimal};
ghost use Rattle.rv_archive_laws.specs.Outcomes.{GivesOrRefuses};
ghost use Rattle.rv_archive_laws.specs.Parts.{magic_fault, magic_size, has_end, size_field, sized_part, part_at, next_place, FindsParts};
ghost use Rattle.rv_archive.specs.View.{plain_part, IsFor};

use crate::decimal::decimal;
use crate::fault::ReadFault;
use rv_archive_laws::ArchiveFault;
use std::alloc::Global;

/// What an archive begins with.
const MAGIC: &[u8] = b"!<arch>\n";

/// How many bytes these are.
const MAGIC_SIZE: usize = 8;

/// What a thin archive begins with.
const THIN_MAGIC: &[u8] = b"!<thin>\n";

/// The bytes of a head.
const HEAD_SIZE: usize = 60;

/// The offset of the size's ten digits in a head.
const SIZE_OFFSET: usize = 48;

/// A head and the contents behind it.
#[derive(Clone, Copy, Drop)]
pub(crate) struct Part<'a> {
    /// The offset of the head in the file, in bytes.
    pub(crate) place: usize,
    /// The 16 bytes that the head has for the name.
    pub(crate) field: &'a [u8],
    /// The contents.
    pub(crate) bytes: &'a [u8],
}

/// Looks at the front of a file.
pub(crate) fn check_magic(file: &[u8]) -> Result<(), ArchiveFault>
    ensures ok { OnOk result (magic_fault file.now ≡ None) }
    ensures size { OnOk result (magic_size ≤ length file.now) }
    ensures refuses { IfErr result (λ fault. magic_fault file.now ≡ Some fault) }
{
    if file.starts_with(MAGIC) {
        return Ok(());
    }
    if file.starts_with(THIN_MAGIC) {
        return Err(ArchiveFault::ThinArchive);
    }
    Err(ArchiveFault::BadMagic)
}

/// All parts of a file, from the one behind its front on.
pub(crate) fn parts<'a>(alloc: Global, file: &'a [u8]) -> Result<Vec<Part<'a>>, ReadFault>
    requires { magic_size ≤ length file.now }
    ensures found { IfOk result
        (λ parts. FindsParts file.now magic_size (Ok (map plain_part parts.items))) }
    ensures refuses { IfErr result (λ refused. IsFor refused
        (λ fault. FindsParts file.now magic_size (Err fault))) }
{
    let mut parts = Vec::new(alloc);
    let mut place = MAGIC_SIZE;
    while place < file.len() {
        let part = part_at(file, place)?;
        parts.push(part)?;
        place = next_place(part);
    }
    Ok(parts)
}

/// The part at a place of a file.
#[tactic(auto, unfolding(rv_archive_laws::specs::Parts::part_at))]
fn part_at(file: &[u8], place: usize) -> Result<Part<'_>, ArchiveFault>
    requires { place ≤ length file.now }
    ensures exact { GivesOrRefuses plain_part result (part_at file.now place) }
    ensures within { IfOk result (λ part. next_place (plain_part part) ≤ length file.now + 1) }
{
    if file.len() - place < HEAD_SIZE {
        return Err(ArchiveFault::Truncated);
    }
    if !has_end(file, place) {
        return Err(ArchiveFault::BadHead);
    }
    match size_at(file, place) {
        Some(size) => sized_part(file, place, size),
        None => Err(ArchiveFault::BadHead),
    }
}

/// The size that the head at a place has for its contents.
fn size_at(file: &[u8], place: usize) -> Option<u64>
    requires { place + 60 ≤ length file.now }
    ensures exact { result ≡ decimal (size_field file.now place) }
    ensures small { IfSome result (λ size. size < 10 ^ 16) }
{
    let field = place + SIZE_OFFSET;
    decimal(&file[field..field + 10])
}

/// The part at a place whose contents have this size.
fn sized_part(file: &[u8], place: usize, size: u64) -> Result<Part<'_>, ArchiveFault>
    requires within { place + 60 ≤ length file.now }
    requires small { size < 10 ^ 16 }
    ensures exact { GivesOrRefuses plain_part result (sized_part file.now place (Some size)) }
    ensures within { IfOk result (λ part. next_place (plain_part part) ≤ length file.now + 1) }
{
    let start = place + HEAD_SIZE;
    if size > (file.len() - start) as u64 {
        return Err(ArchiveFault::Truncated);
    }
    Ok(Part {
        place,
        field: &file[place..place + 16],
        bytes: &file[start..start + size as usize],
    })
}

/// Whether the head at a place has its end mark.
fn has_end(file: &[u8], place: usize) -> bool
    requires { place + 60 ≤ length file.now }
    ensures { result ≡ has_end file.now place }
{
    file[place + 58] == b'`' && file[place + 59] == b'\n'
}

/// Where the part behind one stands.
fn next_place(part: Part<'_>) -> usize
    requires { next_place (plain_part part) < 2 ^ 64 }
    ensures { result ≡ next_place (plain_part part.entry) }
{
    let size = part.bytes.len();
    part.place + HEAD_SIZE + size + size % 2
}
