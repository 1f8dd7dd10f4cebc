//! The members of an archive.

ghost use Rattle.std.specs.Prelude.{◌≡◌, Ok, Err, map, IfOk, IfErr, option_map};
ghost use Rattle.rv_archive_laws.specs.Outcomes.{GivesOrRefuses};
ghost use Rattle.rv_archive_laws.specs.Members.{is_wide, is_index, is_table, first_such, behind_such, bytes_if, member_of, members_of};
ghost use Rattle.rv_archive.specs.View.{plain_part, plain_member, IsFor};

use crate::fault::ReadFault;
use crate::names::member_name;
use crate::parts::Part;
use rv_archive_laws::ArchiveFault;
use std::alloc::Global;

/// A member of an archive.
#[derive(Clone, Copy, Drop)]
pub struct Member<'a> {
    /// Its name.
    pub name: &'a [u8],
    /// The offset of its head in the file, in bytes.
    pub place: usize,
    /// Its contents.
    pub bytes: &'a [u8],
}

/// The index, if one stands at the front of parts.
pub(crate) fn index_part<'a>(parts: &[Part<'a>]) -> Option<Part<'a>>
    ensures { option_map plain_part result ≡ first_such is_index (map plain_part parts.now) }
{
    match parts {
        [] => None,
        [first, ..] => { if is_index(first) { Some(*first) } else { None } }
    }
}

/// What stands behind an index, if one stands at the front.
pub(crate) fn behind_index<'p, 'a>(parts: &'p [Part<'a>]) -> &'p [Part<'a>]
    ensures { map plain_part result.now ≡ behind_such is_index (map plain_part parts.now) }
{
    match parts {
        [] => parts,
        [first, rest @ ..] => { if is_index(first) { rest } else { parts } }
    }
}

/// The table of long names at the front of parts, which is empty where there is none.
pub(crate) fn long_names<'a>(parts: &[Part<'a>]) -> &'a [u8]
    ensures { result.now ≡ bytes_if (first_such is_table (map plain_part parts.now)) }
{
    match parts {
        [] => &[],
        [first, ..] => { if is_table(first) { first.bytes } else { &[] } }
    }
}

/// What stands behind a table of long names, if one stands at the front.
pub(crate) fn behind_table<'p, 'a>(parts: &'p [Part<'a>]) -> &'p [Part<'a>]
    ensures { map plain_part result.now ≡ behind_such is_table (map plain_part parts.now) }
{
    match parts {
        [] => parts,
        [first, rest @ ..] => { if is_table(first) { rest } else { parts } }
    }
}

/// Whether a part is an index.
fn is_index(part: &Part<'_>) -> bool
    ensures { result ≡ is_index (plain_part part.now) }
{
    part.field == b"/               ".as_slice() || is_wide(part)
}

/// Whether it is an index with numbers of eight bytes.
pub(crate) fn is_wide(part: &Part<'_>) -> bool
    ensures { result ≡ is_wide (plain_part part.now) }
{
    part.field == b"/SYM64/         ".as_slice()
}

/// Whether a part is a table of long names.
fn is_table(part: &Part<'_>) -> bool
    ensures { result ≡ is_table (plain_part part.now) }
{
    part.field == b"//              ".as_slice()
}

/// The members of parts, by the table of long names.
pub(crate) fn members<'a>(
    alloc: Global,
    table: &'a [u8],
    parts: &[Part<'a>],
) -> Result<Vec<Member<'a>>, ReadFault>
    ensures found { IfOk result (λ members.
        members_of table.now (map plain_part parts.now) ≡ Ok (map plain_member members.items)) }
    ensures refuses { IfErr result (λ refused. IsFor refused
        (λ fault. members_of table.now (map plain_part parts.now) ≡ Err fault)) }
{
    let mut members = Vec::with_capacity(alloc, parts.len())?;
    for part in parts {
        let member = member_of(table, *part)?;
        members.push(member)?;
    }
    Ok(members)
}

/// The member of a part.
fn member_of<'a>(table: &'a [u8], part: Part<'a>) -> Result<Member<'a>, ArchiveFault>
    ensures { GivesOrRefuses plain_member result (member_of table.now (plain_part part.entry)) }
{
    let name = member_name(table, part.field)?;
    Ok(Member {
        name,
        place: part.place,
        bytes: part.bytes,
    })
}
