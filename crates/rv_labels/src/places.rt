//! Where the symbols of a file stand, and how many bytes they have.

ghost use Rattle.std.specs.Prelude.{◌≡◌, IsTrue, List, Some, option_map};
ghost use Rattle.rv_map_laws.specs.Name.{is_name};
ghost use Rattle.rv_map_laws.specs.declared.map.Row.{Row as MapRow};
ghost use Rattle.rv_object_laws.specs.declared.row.Row.{Row as SaidRow};
ghost use Rattle.rv_object_types.specs.Parts.{symbol_of};
ghost use Rattle.rv_debug_laws.specs.Labels as laws;
ghost use Rattle.rv_labels.specs.Indices.{ArePlaces};
ghost use Rattle.rv_labels.specs.Known.{known_of};

use crate::ends::last_before;
use crate::known::KnownName;
use crate::said::said_of;
use crate::spans::statement_span;
use rv_debug_laws::{NameSaid, SaidSize};
use rv_map::Region;
use rv_object_types::{Definition, Row, Symbol};
use std::collections::{BTreeMap, HashMap};

/// Where the statements of a file stand, and what its directives say of names.
#[derive(Drop)]
pub(crate) struct Places<'p> {
    /// The addresses of statements.
    pub spans: &'p HashMap<(u64, u64), Option<Region>>,
    /// The number of the file.
    pub file: u64,
    /// Its rows.
    pub rows: &'p [Row],
    /// Whether these stand in the order of their ordinals.
    pub are_ordered: bool,
    /// The ordinals of the last statements at its places.
    pub ordinals: HashMap<(u32, u64), u32>,
    /// What is said of names.
    pub said: BTreeMap<&'p [u8], NameSaid>,
}

impl Places<'_> {
    /// What is known of a symbol, if it has an address.
    pub(crate) fn known<'a>(&self, symbol: &Symbol<'a>) -> Option<KnownName<'a>>
        requires { IsTrue (is_name (symbol.now).name.now) }
        ensures { (known : List MapRow) (rows : List SaidRow) (marks : List laws.Mark)
            → ArePlaces self.now known rows marks
            → option_map known_of result
            ≡ laws.symbol_name known (self.now).file rows marks (symbol_of symbol.now) }
    {
        match self.address(symbol.definition) {
            Some(address) => Some(self.known_at(symbol, address)),
            None => None,
        }
    }

    /// What is known of a symbol with this address.
    fn known_at<'a>(&self, symbol: &Symbol<'a>, address: u64) -> KnownName<'a>
        requires { IsTrue (is_name (symbol.now).name.now) }
        ensures { (known : List MapRow) (rows : List SaidRow) (marks : List laws.Mark)
            → ArePlaces self.now known rows marks
            → Some (known_of result)
            ≡ laws.known_symbol known (self.now).file rows (symbol_of symbol.now)
            (laws.said_of marks (symbol.now).name.now) (Some address) }
    {
        let said = said_of(&self.said, symbol.name);
        let bytes = self.size(symbol.definition, address, said.size);
        KnownName {
            name: symbol.name,
            address,
            kind: said.kind,
            size: bytes,
        }
    }

    /// The address of what a symbol is.
    fn address(&self, definition: Definition) -> Option<u64>
        ensures { (known : List MapRow) (rows : List SaidRow) (marks : List laws.Mark)
            → ArePlaces self.now known rows marks
            → result ≡ laws.definition_address known (self.now).file rows definition }
    {
        let Definition::InSection(section, offset) = definition else {
            return None;
        };
        match self.ordinals.get(&(section, offset)) {
            Some(ordinal) => start_of(self.span(*ordinal)),
            None => None,
        }
    }

    /// How many bytes stand at an address, where a symbol is this.
    fn size(&self, definition: Definition, address: u64, said: SaidSize) -> u64
        ensures { (known : List MapRow) (rows : List SaidRow) (marks : List laws.Mark)
            → ArePlaces self.now known rows marks
            → result ≡ laws.size_of known (self.now).file rows definition address said }
    {
        let Definition::InSection(section, _) = definition else {
            return 0;
        };
        self.section_size(section, address, said)
    }

    /// How many bytes stand at an address in a section.
    fn section_size(&self, section: u32, address: u64, said: SaidSize) -> u64
        ensures { (known : List MapRow) (rows : List SaidRow) (marks : List laws.Mark)
            → ArePlaces self.now known rows marks
            → result ≡ laws.section_size known (self.now).file rows section address said }
    {
        match said {
            SaidSize::NoSize => 0,
            SaidSize::UpTo(ordinal) => size_to(address, self.end_before(section, ordinal)),
            SaidSize::Bytes(size) => size,
        }
    }

    /// The address behind the last statement of a section in front of the one of this ordinal.
    fn end_before(&self, section: u32, ordinal: u32) -> Option<u64>
        ensures { (known : List MapRow) (rows : List SaidRow) (marks : List laws.Mark)
            → ArePlaces self.now known rows marks
            → result ≡ laws.end_before known (self.now).file rows section ordinal }
    {
        match last_before(self.rows, self.are_ordered, section, ordinal) {
            Some(row) => end_of(self.span(row.ordinal)),
            None => None,
        }
    }

    /// The addresses of the statement of this ordinal.
    fn span(&self, ordinal: u32) -> Option<Region>
        ensures { (known : List MapRow) (rows : List SaidRow) (marks : List laws.Mark)
            → ArePlaces self.now known rows marks
            → result ≡ laws.statement_span known (self.now).file ordinal }
    {
        statement_span(self.spans, self.file, u64::from(ordinal))
    }
}

/// The first address of a statement.
fn start_of(span: Option<Region>) -> Option<u64>
    ensures { result ≡ option_map (λ span. span.start) span }
{
    match span {
        Some(span) => Some(span.start),
        None => None,
    }
}

/// The address behind a statement.
fn end_of(span: Option<Region>) -> Option<u64>
    ensures { result ≡ option_map (λ span. span.end) span }
{
    match span {
        Some(span) => Some(span.end),
        None => None,
    }
}

/// How many bytes there are from an address to an end.
fn size_to(address: u64, end: Option<u64>) -> u64
    ensures { result ≡ laws.size_to address end }
{
    match end {
        Some(end) => end.saturating_sub(address),
        None => 0,
    }
}
