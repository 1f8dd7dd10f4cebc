//! Sections and their flags.

ghost use Rattle.std.specs.Prelude.{◌≡◌, ◌+◌, max, None, option_map};
ghost use Rattle.rv_statement_laws.specs.Sections.{standard_name};
ghost use Rattle.rv_statement.specs.View.{now_of, quoted};
ghost use Rattle.rv_unit_laws.specs.Sections as laws;
ghost use Rattle.rv_unit_laws.specs.Tables as tables;
ghost use Rattle.rv_unit.specs.Sections.{extent_of, section_of};

use crate::align::end_within;
use rv_expression::string_contains;
use rv_statement::section_name;
use rv_statement_laws::Standard;
use rv_unit_laws::SectionType;

/// A section with its flags.
#[derive(Clone, Copy, Drop)]
pub struct Section<'a> {
    pub name: &'a [u8],
    /// It has memory in the program: the flag `a`.
    pub loaded: bool,
    /// The flag `x`.
    pub executable: bool,
    /// The flag `w`.
    pub writable: bool,
    pub section_type: SectionType,
}

/// A section as a source fills it.
#[derive(Clone, Copy, Drop)]
pub struct Extent<'a> {
    pub section: Section<'a>,
    /// The bytes of its data; those of code are not counted.
    pub bytes: u32,
    /// The greatest of its statements' alignments, in bytes; of code 2 at least.
    pub alignment: u32,
}

impl<'a> Extent<'a> {
    /// A section without statements.
    pub(crate) fn empty(section: Section<'a>) -> Self
        ensures { extent_of result ≡ tables.empty_extent (section_of section.entry) }
    {
        Extent {
            section,
            bytes: 0,
            alignment: if section.executable { 2 } else { 1 },
        }
    }

    /// Its end with so many bytes more, which one of code does not count, where they do not pass the longest section.
    pub(crate) fn end_after(&self, bytes: u64) -> u32
        ensures { result ≡ (self.now).bytes
            + tables.counted_in (section_of (self.now).section)
            (tables.within (self.now).bytes bytes) }
    {
        if self.section.executable {
            self.bytes
        } else {
            end_within(self.bytes, bytes)
        }
    }

    /// With an end further on, and one more alignment.
    pub(crate) fn longer(self, end: u32, alignment: Option<u32>) -> Self
        ensures section { section_of result.section ≡ section_of (self.entry).section }
        ensures bytes { result.bytes ≡ end }
        ensures alignment { result.alignment
            ≡ max (self.entry).alignment (max 1 (tables.or_none alignment)) }
    {
        Extent {
            section: self.section,
            bytes: end,
            alignment: self.alignment.max(alignment.unwrap_or(0).max(1)),
        }
    }
}

/// Whether the name begins so.
fn begins_with(front: &[u8], name: &[u8]) -> bool
    ensures { result ≡ laws.begins_with front.now name.now }
{
    let (head, _) = name.split_at(front.len().min(name.len()));
    head == front
}

/// Code, by the front of its name.
fn is_code(name: &[u8]) -> bool
    ensures { result ≡ laws.is_code name.now }
{
    begins_with(b".text", name)
}

/// Variables, by the front of their name.
fn is_variable(name: &[u8]) -> bool
    ensures { result ≡ laws.is_variable name.now }
{
    begins_with(b".data", name) || begins_with(b".sdata", name)
}

/// Variables that begin as zero, by the front of their name.
fn is_zeroed(name: &[u8]) -> bool
    ensures { result ≡ laws.is_zeroed name.now }
{
    begins_with(b".bss", name) || begins_with(b".sbss", name)
}

/// Constants, by the front of their name.
fn is_constant(name: &[u8]) -> bool
    ensures { result ≡ laws.is_constant name.now }
{
    begins_with(b".rodata", name) || begins_with(b".srodata", name)
}

/// Whether a flag's letter is given; where no flags are given, what the name's front says.
fn has_flag(letter: u8, flags: Option<&[u8]>, by_name: bool) -> bool
    ensures { result ≡ laws.has_flag letter (option_map quoted flags.entry) by_name }
{
    match flags {
        None => by_name,
        Some(letters) => string_contains(letters, letter),
    }
}

/// The type of a word: `progbits`, `nobits` or `note`.
fn type_named(word: &[u8]) -> SectionType
    ensures { result ≡ laws.type_named word.now }
{
    if word == b"nobits".as_slice() {
        SectionType::Nobits
    } else if word == b"note".as_slice() {
        SectionType::Note
    } else {
        SectionType::Progbits
    }
}

/// The type that is given; where none is, what the name's front says.
fn type_given(word: Option<&[u8]>, zeroed: bool) -> SectionType
    ensures { result ≡ laws.type_given (option_map now_of word.entry) zeroed }
{
    match word {
        None => if zeroed {
            SectionType::Nobits
        } else {
            SectionType::Progbits
        },
        Some(word) => type_named(word),
    }
}

impl<'a> Section<'a> {
    /// Whether it begins as zero, and has no bytes in files.
    pub fn is_nobits(&self) -> bool
        ensures { result ≡ laws.is_nobits (section_of self.now) }
    {
        matches!(self.section_type, SectionType::Nobits)
    }

    /// The section in which a source begins.
    pub(crate) fn text() -> Self
        ensures { section_of result ≡ laws.text_section }
    {
        Section {
            name: b".text",
            loaded: true,
            executable: true,
            writable: false,
            section_type: SectionType::Progbits,
        }
    }

    /// A section with the flags and the type that are given, or that its name's front says.
    pub fn of(name: &'a [u8], flags: Option<&[u8]>, kind: Option<&[u8]>) -> Self
        ensures { section_of result
            ≡ laws.section_with name.now (option_map quoted flags.entry)
            (option_map now_of kind.entry) }
    {
        let code = is_code(name);
        let variable = is_variable(name);
        let zeroed = is_zeroed(name);
        let constant = is_constant(name);
        Section {
            name,
            loaded: has_flag(b'a', flags, code || variable || zeroed || constant),
            executable: has_flag(b'x', flags, code),
            writable: has_flag(b'w', flags, variable || zeroed),
            section_type: type_given(kind, zeroed),
        }
    }

    /// The section of a directive of its own.
    pub fn standard(standard: Standard) -> Self
        ensures { section_of result ≡ laws.section_with (standard_name standard) None None }
    {
        Section::of(section_name(standard), None, None)
    }
}
