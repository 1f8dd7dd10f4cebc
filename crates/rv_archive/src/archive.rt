//! An archive of objects.

ghost use Rattle.std.specs.Prelude.{◌≡◌, ℕ, List, Ok, Err, Some, map, IfOk, IfErr};
ghost use Rattle.std.specs.List.Sorted.{IsNonDecreasingBy};
ghost use Rattle.rv_archive_laws.specs.Parts.{magic_size, FindsParts};
ghost use Rattle.rv_archive_laws.specs.Reads.{Reads, archive_of, indexed, without_index};
ghost use Rattle.rv_archive.specs.View.{plain_part, plain_member, plain_archive, IsFor};

use crate::fault::ReadFault;
use crate::index::{Entry, entries};
use crate::members::{Member, behind_index, behind_table, index_part, long_names, members};
use crate::parts::{Part, check_magic, parts};
use rv_archive_laws::ArchiveFault;
use std::alloc::Global;

/// An archive: members in the order of the file, and what its index says.
#[derive(Drop)]
pub struct Archive<'a> {
    /// Its members.
    pub members: Vec<Member<'a>>,
    /// What its index says, in the index's order.
    pub index: Vec<Entry<'a>>,
}

impl<'a> Archive<'a> {
    /// The archive that a file is, or its first fault.
    pub fn read(alloc: Global, file: &'a [u8]) -> Result<Archive<'a>, ReadFault>
        ensures found { IfOk result (λ archive. Reads file.now (Ok (plain_archive archive))) }
        ensures refuses { IfErr result (λ refused. IsFor refused
            (λ fault. Reads file.now (Err fault))) }
    {
        check_magic(file)?;
        let parts = parts(alloc, file)?;
        let archive = archive_of(alloc, parts.as_slice())?;
        Ok(archive)
    }
}

/// The archive of the parts of a file.
fn archive_of<'a>(alloc: Global, parts: &[Part<'a>]) -> Result<Archive<'a>, ReadFault>
    requires { (file : List ℕ) × FindsParts file magic_size (Ok (map plain_part parts.now)) }
    ensures found { IfOk result (λ archive.
        archive_of (Ok (map plain_part parts.now)) ≡ Ok (plain_archive archive)) }
    ensures refuses { IfErr result (λ refused. IsFor refused
        (λ fault. archive_of (Ok (map plain_part parts.now)) ≡ Err fault)) }
{
    let index = index_part(parts);
    let rest = behind_index(parts);
    let table = long_names(rest);
    let own = behind_table(rest);
    let members = members(alloc, table, own)?;
    match index {
        Some(index) => with_index(alloc, &index, members),
        None => without_index(alloc, members),
    }
}

/// The archive of members with an index.
fn with_index<'a>(
    alloc: Global,
    index: &Part<'a>,
    members: Vec<Member<'a>>,
) -> Result<Archive<'a>, ReadFault>
    requires { IsNonDecreasingBy (λ m. m.place) members.items }
    ensures found { IfOk result (λ archive.
        indexed (Some (plain_part index.now)) (Ok (map plain_member members.entry.items))
        ≡ Ok (plain_archive archive)) }
    ensures refuses { IfErr result (λ refused. IsFor refused (λ fault.
        indexed (Some (plain_part index.now)) (Ok (map plain_member members.entry.items))
        ≡ Err fault)) }
{
    let entries = entries(alloc, index, members.as_slice())?;
    Ok(Archive {
        members,
        index: entries,
    })
}

/// An archive without an index, which has no members.
fn without_index(alloc: Global, members: Vec<Member<'_>>) -> Result<Archive<'_>, ReadFault>
    ensures found { IfOk result (λ archive.
        without_index (map plain_member members.entry.items) ≡ Ok (plain_archive archive)) }
    ensures refuses { IfErr result (λ refused. IsFor refused
        (λ fault. without_index (map plain_member members.entry.items) ≡ Err fault)) }
{
    if members.is_empty() {
        return Ok(Archive {
            members,
            index: Vec::new(alloc),
        });
    }
    Err(ReadFault::Refused(ArchiveFault::NoIndex))
}
