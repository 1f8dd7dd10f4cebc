//! Relocations of debug sections.

ghost use Rattle.std.specs.Prelude.{◌≡◌, pos, ◌+◌, ◌-◌, ◌*◌, ◌≤◌, length, option_map, IfSome, None, Some, true, false};
ghost use Rattle.rv_elf_laws.specs.Fields.{rela_size};
ghost use Rattle.rv_elf_laws.specs.Records.{rela_at};
ghost use Rattle.rv_elf_laws.specs.Sections.{relas_in, section_count};
ghost use Rattle.rv_object_file_laws.specs.Parts.{kind_numbered};
ghost use Rattle.rv_debug_laws.specs.Carried as laws;
ghost use Rattle.rv_debug_sections.specs.Kinds.{TakesAll};
ghost use Rattle.rv_debug_sections.specs.Views.{plain_fill, plain_part, plain_source};

use crate::named::last_section;
use crate::part::MergedPart;
use crate::source::Source;
use rv_elf::{RELA_SIZE, Rela, SHT_RELA, SectionHeader, SectionIndex, rela_in};
use rv_isa::{Kind, kind_of};
use rv_reloc::{patch, value};

/// A field: how it is written, and the value.
#[derive(Clone, Copy, Drop)]
pub(crate) struct Fill {
    pub kind: Kind,
    pub value: i64,
}

/// The kind of relocation of this number.
fn kind_numbered(number: u32) -> Option<Kind>
    ensures { result ≡ kind_numbered number }
{
    kind_of(number)
}

/// What a kind writes into data; none of a kind of instructions.
fn data_kind(kind: Kind) -> Option<Kind>
    ensures value { result ≡ laws.data_kind kind }
    ensures takes { IfSome result TakesAll }
{
    match kind {
        Kind::None | Kind::Relax | Kind::Align => Some(Kind::None),
        Kind::Abs32 | Kind::Pcrel32 => Some(Kind::Set32),
        Kind::Abs64 | Kind::Add8 | Kind::Add16 | Kind::Add32 | Kind::Add64 => Some(kind),
        Kind::Sub6 | Kind::Sub8 | Kind::Sub16 | Kind::Sub32 | Kind::Sub64 => Some(kind),
        Kind::Set6 | Kind::Set8 | Kind::Set16 | Kind::Set32 => Some(kind),
        _ => None,
    }
}

/// What sets the field that a kind adds to or takes from.
fn setting_kind(kind: Kind) -> Kind
    requires { TakesAll kind }
    ensures value { result ≡ laws.setting_kind kind }
    ensures takes { TakesAll result }
{
    match kind {
        Kind::Add8 | Kind::Sub8 => Kind::Set8,
        Kind::Sub6 => Kind::Set6,
        Kind::Add16 | Kind::Sub16 => Kind::Set16,
        Kind::Add32 | Kind::Sub32 => Kind::Set32,
        Kind::Add64 | Kind::Sub64 => Kind::Abs64,
        _ => kind,
    }
}

/// What a relocation writes: by the value of its symbol, or where that has none the number for what is lost.
fn fill_by(lost: u8, kind: Kind, writing: Kind, a: i64, p: u64, symbol: Option<u64>) -> Fill
    requires { TakesAll writing }
    ensures value { plain_fill result ≡ laws.fill_by (pos lost) kind writing a p symbol }
    ensures takes { TakesAll result.kind }
{
    match symbol {
        Some(s) => Fill {
            kind: writing,
            value: value(kind, s, a, p),
        },
        None => Fill {
            kind: setting_kind(writing),
            value: i64::from(lost),
        },
    }
}

/// What a relocation of a section at this place of its merged section writes; none of one that cannot be applied.
fn fill_of(source: &Source<'_, '_>, place: u64, lost: u8, rela: &Rela) -> Option<Fill>
    ensures value { option_map plain_fill result
        ≡ laws.fill_of (plain_source source.now) place (pos lost) rela.now }
    ensures takes { IfSome result (λ field. TakesAll field.kind) }
{
    let kind = kind_numbered(rela.r_type)?;
    let writing = data_kind(kind)?;
    let symbol = source.carried_target(rela.r_sym)?;
    let p = place.wrapping_add(rela.r_offset);
    Some(fill_by(lost, kind, writing, rela.r_addend, p, symbol))
}

/// Writes a field at an offset; whether it lies in these bytes.
fn put_fill(bytes: &mut [u8], offset: u64, field: Fill) -> bool
    requires { TakesAll field.kind }
    ensures yes { result ≡ true
        → laws.filled_at offset bytes.old (plain_fill field) ≡ Some bytes.new }
    ensures no { result ≡ false → laws.filled_at offset bytes.old (plain_fill field) ≡ None }
{
    let width = field.kind.width();
    let size = bytes.len() as u64;
    if offset > size || width as u64 > size - offset {
        return false;
    }
    let from = offset as usize;
    patch(&mut bytes[from..from + width], field.kind, field.value).is_ok()
}

/// Applies a relocation to the bytes of a section; whether it can be applied.
fn relocate(source: &Source<'_, '_>, place: u64, lost: u8, rela: &Rela, bytes: &mut [u8]) -> bool
    ensures yes { result ≡ true
        → laws.relocated (plain_source source.now) place (pos lost) rela.now bytes.old
        ≡ Some bytes.new }
    ensures no { result ≡ false
        → laws.relocated (plain_source source.now) place (pos lost) rela.now bytes.old ≡ None }
{
    match fill_of(source, place, lost, rela) {
        Some(field) => put_fill(bytes, rela.r_offset, field),
        None => false,
    }
}

/// Applies the relocations of a table to the bytes of a section; whether all can be applied.
fn relocate_by(
    source: &Source<'_, '_>,
    place: u64,
    lost: u8,
    records: &[u8],
    bytes: &mut [u8],
) -> bool
    ensures yes { result ≡ true
        → laws.relocated_by (plain_source source.now) place (pos lost) (relas_in records.now) bytes.old
        ≡ Some bytes.new }
    ensures no { result ≡ false
        → laws.relocated_by (plain_source source.now) place (pos lost) (relas_in records.now) bytes.old
        ≡ None }
{
    for index in 0..records.len() / RELA_SIZE {
        let rela = rela_from(records, index);
        if !relocate(source, place, lost, &rela, bytes) {
            return false;
        }
    }
    true
}

/// The relocation of this index, from 0, in a section of these bytes.
pub(crate) fn rela_from(bytes: &[u8], index: usize) -> Rela
    requires { rela_size * index + rela_size ≤ length bytes.now }
    ensures { result ≡ rela_at (rela_size * index) bytes.now }
{
    rela_in(&bytes[RELA_SIZE * index..], 0)
}

/// Applies the relocations that a section with this header has for a part; whether all can be applied.
fn relocate_with(
    source: &Source<'_, '_>,
    part: MergedPart,
    lost: u8,
    header: &SectionHeader,
    bytes: &mut [u8],
) -> bool
    ensures yes { result ≡ true
        → laws.relocated_by (plain_source source.now) part.place (pos lost)
        (laws.relas_for source.now.view.file.now part.index header.now) bytes.old ≡ Some bytes.new }
    ensures no { result ≡ false
        → laws.relocated_by (plain_source source.now) part.place (pos lost)
        (laws.relas_for source.now.view.file.now part.index header.now) bytes.old ≡ None }
{
    if header.sh_type != SHT_RELA || header.sh_info != u32::from(part.index) {
        return true;
    }
    relocate_by(
        source,
        part.place,
        lost,
        source.view.contents(header),
        bytes,
    )
}

/// Applies all relocations that an object has for a part to its bytes; whether all can be applied.
pub(crate) fn relocate_all(
    source: &Source<'_, '_>,
    part: MergedPart,
    lost: u8,
    bytes: &mut [u8],
) -> bool
    ensures yes { result ≡ true
        → laws.relocated_from (plain_source source.now) (plain_part part) (pos lost) 1
        (section_count source.now.view.file.now - 1) bytes.old ≡ Some bytes.new }
    ensures no { result ≡ false
        → laws.relocated_from (plain_source source.now) (plain_part part) (pos lost) 1
        (section_count source.now.view.file.now - 1) bytes.old ≡ None }
{
    for earlier in 0..last_section(&source.view) {
        let header = source.view.section_header(SectionIndex(earlier + 1));
        if !relocate_with(source, part, lost, &header, bytes) {
            return false;
        }
    }
    true
}
