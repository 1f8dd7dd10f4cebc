//! The index of an archive.

ghost use Rattle.std.specs.Prelude.{◌≡◌, ◌+◌, ◌*◌, ◌<◌, ◌≤◌, nat_lt, Ok, Err, length, map, IfOk, IfErr};
ghost use Rattle.std.specs.List.Sorted.{IsNonDecreasingBy, IsPartitionPoint};
ghost use Rattle.rv_elf_laws.specs.Sections.{before_zero};
ghost use Rattle.rv_archive_laws.specs.declared.fault.ArchiveFault.TheVariants.{BadIndex};
ghost use Rattle.rv_archive_laws.specs.Outcomes.{GivesOrRefuses};
ghost use Rattle.rv_archive_laws.specs.Index.{index_number, member_placed, index_entry, entries_in, index_of};
ghost use Rattle.rv_archive.specs.View.{plain_part, plain_member, plain_entry, IsFor};

use crate::fault::ReadFault;
use crate::members::{Member, is_wide};
use crate::parts::Part;
use byteorder::{BigEndian, ByteOrder};
use rv_archive_laws::ArchiveFault;
use rv_elf::string_in;
use std::alloc::Global;

/// What the index says of a name.
#[derive(Clone, Copy, Drop)]
pub struct Entry<'a> {
    /// The name.
    pub name: &'a [u8],
    /// The number of the member that defines it, from 0.
    pub member: usize,
}

/// The entries of an index.
pub(crate) fn entries<'a>(
    alloc: Global,
    index: &Part<'a>,
    members: &[Member<'_>],
) -> Result<Vec<Entry<'a>>, ReadFault>
    requires { IsNonDecreasingBy (λ m. m.place) members.now }
    ensures found { IfOk result (λ entries. index_of (plain_part index.now) (map plain_member members.now)
        ≡ Ok (map plain_entry entries.items)) }
    ensures refuses { IfErr result (λ refused. IsFor refused
        (λ fault. index_of (plain_part index.now) (map plain_member members.now) ≡ Err fault)) }
{
    let width = if is_wide(index) { 8 } else { 4 };
    entries_in(alloc, width, index.bytes, members)
}

/// The entries of an index of these bytes, whose numbers have so many bytes.
fn entries_in<'a>(
    alloc: Global,
    width: usize,
    bytes: &'a [u8],
    members: &[Member<'_>],
) -> Result<Vec<Entry<'a>>, ReadFault>
    requires low { 1 ≤ width }
    requires high { width ≤ 8 }
    requires order { IsNonDecreasingBy (λ m. m.place) members.now }
    ensures found { IfOk result (λ entries. entries_in width bytes.now (map plain_member members.now)
        ≡ Ok (map plain_entry entries.items)) }
    ensures refuses { IfErr result (λ refused. IsFor refused
        (λ fault. entries_in width bytes.now (map plain_member members.now) ≡ Err fault)) }
{
    let count = count_of(width, bytes)?;
    let mut names = &bytes[width * (count + 1)..];
    let mut entries = Vec::with_capacity(alloc, count)?;
    for i in 0..count {
        let entry = entry_at(members, index_number(width, i + 1, bytes), names)?;
        names = &names[entry.name.len() + 1..];
        entries.push(entry)?;
    }
    Ok(entries)
}

/// How many entries an index has, whose count and places have to lie in it.
fn count_of(width: usize, bytes: &[u8]) -> Result<usize, ArchiveFault>
    requires low { 1 ≤ width }
    requires high { width ≤ 8 }
    ensures count { IfOk result (λ count. count ≡ index_number width 0 bytes.now) }
    ensures within { IfOk result (λ count. width * (count + 1) ≤ length bytes.now) }
    ensures refuses { IfErr result (λ fault. (fault ≡ BadIndex)
        × (length bytes.now < width * (index_number width 0 bytes.now + 1))) }
{
    let room = bytes.len() / width;
    if room == 0 {
        return Err(ArchiveFault::BadIndex);
    }
    let count = index_number(width, 0, bytes);
    if count >= room as u64 {
        return Err(ArchiveFault::BadIndex);
    }
    Ok(count as usize)
}

/// The number at an index of the numbers, from 0.
fn index_number(width: usize, i: usize, bytes: &[u8]) -> u64
    requires low { 1 ≤ width }
    requires high { width ≤ 8 }
    requires within { width * i + width ≤ length bytes.now }
    ensures { result ≡ index_number width i bytes.now }
{
    BigEndian::read_uint(&bytes[width * i..], width)
}

/// The entry of the name at the front, which a member defines whose head stands at a place.
fn entry_at<'a>(
    members: &[Member<'_>],
    place: u64,
    names: &'a [u8],
) -> Result<Entry<'a>, ArchiveFault>
    requires { IsNonDecreasingBy (λ m. m.place) members.now }
    ensures { GivesOrRefuses plain_entry result
        (index_entry (before_zero names.now) (member_placed (map plain_member members.now) place)) }
{
    let Some(name) = string_in(names, 0) else {
        return Err(ArchiveFault::BadIndex);
    };
    match member_placed(members, place as usize) {
        Some(member) => Ok(Entry { name, member }),
        None => Err(ArchiveFault::BadIndex),
    }
}

/// The number of the member whose head stands at a place.
fn member_placed(members: &[Member<'_>], place: usize) -> Option<usize>
    requires { IsNonDecreasingBy (λ m. m.place) members.now }
    ensures { result ≡ member_placed (map plain_member members.now) place }
{
    let before = count_before(members, place);
    let member = members.get(before)?;
    if member.place == place {
        Some(before)
    } else {
        None
    }
}

/// How many members stand before a place.
fn count_before(members: &[Member<'_>], place: usize) -> usize
    requires { IsNonDecreasingBy (λ m. m.place) members.now }
    ensures bound { result ≤ length members.now }
    ensures point { IsPartitionPoint (λ m. m.place < place) (λ m. place ≤ m.place)
        members.now result }
{
    members.partition_point(
        |member: &Member<'_>| -> bool
            ensures { result ≡ nat_lt member.now.place place }
        { member.place < place },
    )
}
