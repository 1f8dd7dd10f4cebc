//! The names of members.

ghost use Rattle.std.specs.Prelude.{◌≡◌, ◌<◌, length, IfSome};
ghost use Rattle.std.specs.List.{list_all};
ghost use Rattle.rv_archive_laws.specs.Outcomes.{GivesOrRefuses, GivesOrNone};
ghost use Rattle.rv_archive_laws.specs.Names.{first_byte, up_to, short_name, without_slash, long_name, is_bsd_name, is_bsd_index, is_bsd, is_shown_byte, message_name, found_name, member_name};

use crate::decimal::{begins_number, decimal};
use memchr::memchr;
use rv_archive_laws::ArchiveFault;

/// How many bytes of the table are looked at for a long name.
const LONGEST_NAME: usize = 4096;

/// The name of the member whose head has this field, by the table of long names.
#[tactic(auto, unfolding(rv_archive_laws::specs::Names::member_name))]
pub(crate) fn member_name<'a>(table: &'a [u8], field: &'a [u8]) -> Result<&'a [u8], ArchiveFault>
    ensures { GivesOrRefuses (λ name. name.now) result (member_name table.now field.now) }
{
    if is_bsd(field) {
        return Err(ArchiveFault::BsdArchive);
    }
    match found_name(table, field) {
        Some(name) => message_name(name),
        None => Err(ArchiveFault::BadName),
    }
}

/// Whether names or index are those of BSD.
fn is_bsd(field: &[u8]) -> bool
    ensures { result ≡ is_bsd field.now }
{
    is_bsd_name(field) || is_bsd_index(field)
}

/// Whether the head has the length of a name that stands in front of the contents.
fn is_bsd_name(field: &[u8]) -> bool
    ensures { result ≡ is_bsd_name field.now }
{
    field.starts_with(b"#1/") && begins_number(&field[3..])
}

/// Whether it is BSD's index, whose name has no slash behind it as each name of GNU's has.
fn is_bsd_index(field: &[u8]) -> bool
    ensures { result ≡ is_bsd_index field.now }
{
    field.starts_with(b"__.SYMDEF") && first_byte(b'/', field).is_none()
}

/// A name that a message can show.
fn message_name(name: &[u8]) -> Result<&[u8], ArchiveFault>
    ensures { GivesOrRefuses (λ shown. shown.now) result (message_name (Some name.now)) }
{
    if !name.is_empty() && has_no_control(name) {
        Ok(name)
    } else {
        Err(ArchiveFault::BadName)
    }
}

/// Whether no byte is a control character.
fn has_no_control(name: &[u8]) -> bool
    ensures { result ≡ list_all is_shown_byte name.now }
{
    name.iter().all(|byte| *byte >= b' ' && *byte != 127)
}

/// The name that a field means.
fn found_name<'a>(table: &'a [u8], field: &'a [u8]) -> Option<&'a [u8]>
    ensures { GivesOrNone (λ name. name.now) result (found_name table.now field.now) }
{
    if field.starts_with(b"/") {
        let offset = decimal(&field[1..field.len().min(16)])?;
        return long_name(table, offset as usize);
    }
    Some(short_name(field))
}

/// What stands before the first slash, or without a slash before the first blank.
fn short_name(field: &[u8]) -> &[u8]
    ensures { result.now ≡ short_name field.now }
{
    match first_byte(b'/', field) {
        Some(end) => &field[..end],
        None => before_blank(field),
    }
}

/// What stands before the first blank.
fn before_blank(field: &[u8]) -> &[u8]
    ensures { result.now ≡ up_to (first_byte 32 field.now) field.now }
{
    match first_byte(b' ', field) {
        Some(end) => &field[..end],
        None => field,
    }
}

/// The name at an offset of the table.
fn long_name(table: &[u8], offset: usize) -> Option<&[u8]>
    ensures { GivesOrNone (λ name. name.now) result (long_name table.now offset) }
{
    let rest = table.get(offset..)?;
    let line = &rest[..rest.len().min(LONGEST_NAME)];
    let end = first_byte(b'\n', line)?;
    without_slash(&line[..end])
}

/// A name without the slash that ends it.
fn without_slash(name: &[u8]) -> Option<&[u8]>
    ensures { GivesOrNone (λ cut. cut.now) result (without_slash name.now) }
{
    name.strip_suffix(b"/")
}

/// Where such a byte stands first.
fn first_byte(byte: u8, bytes: &[u8]) -> Option<usize>
    ensures exact { result ≡ first_byte byte bytes.now }
    ensures within { IfSome result (λ at. at < length bytes.now) }
{
    memchr(byte, bytes)
}
