//! What stands where: the symbols and the statements of a program, by address.
//!
//! A map lists both by name and by file; here they are sorted by address once, so that each instruction finds its own by
//! a binary search. A map has global names alone; those of a file are the labels of its source, each at the address of the
//! statement after it. An executable without a map has the names and lines of its own tables (`own_tables`).

use crate::parts::{Part, put_parts};
use rv_fault::{Fault, SourceFault};
use rv_map::Map;
use rv_map_laws::{Region, Row};
use rv_parse::parse_compact;
use rv_statement::{Statement, StatementKind, Statements};
use std::alloc::{AllocError, Global};

/// A source: its name, as the words of the command line have it, and its text.
#[derive(Clone, Copy, Drop)]
pub struct Source<'a> {
    pub name: &'a str,
    pub text: &'a [u8],
}

/// A source by its lines.
#[derive(Drop)]
pub(crate) struct Lines<'a> {
    /// Empty where none can be shown.
    pub name: Vec<u8>,
    /// Without their ends; none where the text is not at hand.
    pub lines: Vec<&'a [u8]>,
}

/// A region of a map, or a section of an executable.
#[derive(Clone, Copy, Drop)]
pub(crate) struct NamedRegion<'a> {
    pub name: &'a str,
    pub region: Region,
}

/// A name and its address.
#[derive(Clone, Copy, Drop)]
pub(crate) struct Symbol<'a> {
    pub name: &'a [u8],
    pub address: u64,
}

/// The nearest symbol at or below an address, in its region.
#[derive(Clone, Copy, Drop)]
pub(crate) struct Near<'a> {
    pub name: &'a [u8],
    /// The bytes from the symbol to the address.
    pub distance: u64,
}

/// Whether the linker defines a name for the bound of a region: nothing of the program stands there.
pub(crate) fn is_bound(name: &[u8]) -> bool {
    let bounds: [&[u8]; 5] = [
        b"_etext",
        b"__bss_start",
        b"_edata",
        b"_end",
        b"__global_pointer$",
    ];
    bounds.iter().any(|bound| *bound == name)
}

/// The address of a statement, by its file and its ordinal.
fn address_of(map: &Map, key: (u64, u64)) -> Option<u64> {
    match map
        .rows
        .binary_search_by_key(&key, |row| (row.file, row.ordinal))
    {
        Ok(index) => map.rows.get(index).map(|row| row.address),
        Err(_) => None,
    }
}

/// The lines of a text, without their ends.
fn lines_of<'a>(alloc: Global, text: &'a [u8]) -> Result<Vec<&'a [u8]>, AllocError> {
    let mut lines: Vec<&'a [u8]> = Vec::new(alloc);
    for line in text.split(|byte| *byte == b'\n') {
        lines.push(line)?;
    }
    Ok(lines)
}

/// The index of what has a number, from 1.
fn index_of(number: u64) -> Option<usize> {
    match usize::try_from(number.checked_sub(1)?) {
        Ok(index) => Some(index),
        Err(_) => None,
    }
}

/// What is known of a program's addresses; nothing where it has no map.
#[derive(Drop)]
pub struct Places<'a> {
    /// By address; of those of one address the first is shown.
    pub(crate) symbols: Vec<Symbol<'a>>,
    /// Those that the linker defines.
    pub(crate) bounds: Vec<Symbol<'a>>,
    /// Those with bytes, by address.
    pub(crate) rows: Vec<Row>,
    /// By address.
    pub(crate) regions: Vec<NamedRegion<'a>>,
    /// The sources in the order of their files' numbers; none where they are not at hand.
    pub(crate) sources: Vec<Lines<'a>>,
    /// Whether the rows are those of line tables, which know lines and no statements.
    pub(crate) is_of_lines: bool,
}

impl<'a> Places<'a> {
    /// What a map says, and the sources, where the program has some that are at hand, in the order of their files' numbers.
    pub fn new(alloc: Global, map: Option<&'a Map>, sources: &[Source<'a>]) -> Result<Self, Fault> {
        let mut places = Places::nothing(alloc);
        if let Some(map) = map {
            places.add_globals(map)?;
            places.add_all_labels(alloc, map, sources)?;
            places.symbols.sort_by_key(|symbol| symbol.address)?;
            places.add_rows(map)?;
            places.add_regions(map)?;
        }
        places.add_sources(alloc, sources)?;
        Ok(places)
    }

    /// Nothing yet.
    pub(crate) fn nothing(alloc: Global) -> Self {
        Places {
            symbols: Vec::new(alloc),
            bounds: Vec::new(alloc),
            rows: Vec::new(alloc),
            regions: Vec::new(alloc),
            sources: Vec::new(alloc),
            is_of_lines: false,
        }
    }

    /// Adds the labels of all sources.
    fn add_all_labels(
        &mut self,
        alloc: Global,
        map: &Map,
        sources: &[Source<'a>],
    ) -> Result<(), Fault> {
        let mut file: u32 = 0;
        for source in sources {
            file = file.saturating_add(1);
            match self.add_labels(alloc, map, u64::from(file), source.text) {
                Ok(()) => {}
                Err(fault) => return Err(Fault::Source(file, fault)),
            }
        }
        Ok(())
    }

    /// Adds the sources by their lines.
    fn add_sources(&mut self, alloc: Global, sources: &[Source<'a>]) -> Result<(), AllocError> {
        for source in sources {
            self.sources.push(Lines {
                name: Vec::from_slice(alloc, source.name.as_bytes())?,
                lines: lines_of(alloc, source.text)?,
            })?;
        }
        Ok(())
    }

    fn add_regions(&mut self, map: &Map) -> Result<(), AllocError> {
        self.add_region(".text", map.text)?;
        self.add_region(".rodata", map.rodata)?;
        self.add_region(".data", map.data)?;
        self.add_region(".bss", map.bss)?;
        self.regions.sort_by_key(|part| part.region.start)
    }

    /// Adds a region, unless nothing stands there.
    pub(crate) fn add_region(&mut self, name: &'a str, region: Region) -> Result<(), AllocError> {
        if region.start < region.end {
            self.regions.push(NamedRegion { name, region })?;
        }
        Ok(())
    }

    fn add_globals(&mut self, map: &'a Map) -> Result<(), AllocError> {
        for global in &map.globals {
            let symbol = Symbol {
                name: global.name.as_slice(),
                address: global.address,
            };
            if is_bound(symbol.name) {
                self.bounds.push(symbol)?;
            } else {
                self.symbols.push(symbol)?;
            }
        }
        Ok(())
    }

    /// Adds the labels of a source that was built, by the number of its file: not numeric ones, those of GNU's local names (`.L`), and those with
    /// nothing behind them in their part of a section.
    fn add_labels(
        &mut self,
        alloc: Global,
        map: &Map,
        file: u64,
        text: &'a [u8],
    ) -> Result<(), SourceFault> {
        let statements = parse_compact(alloc, text)?;
        // a statement's long drop is repeated at each way out of its owner, so its owner has one
        let mut room = Statements::room();
        self.add_labels_of(alloc, map, file, &statements, &mut room)
    }

    /// Adds the labels of statements, each of which is read into the room.
    fn add_labels_of(
        &mut self,
        alloc: Global,
        map: &Map,
        file: u64,
        statements: &Statements<'a>,
        room: &mut Statement<'a>,
    ) -> Result<(), SourceFault> {
        let mut waiting: Vec<&'a [u8]> = Vec::new(alloc);
        let mut ordinal: u64 = 0;
        for index in 0..statements.len() {
            let statement = statements.read(index, room);
            ordinal = ordinal.saturating_add(1);
            self.add_label(map, &statement.kind, (file, ordinal), &mut waiting)?;
        }
        Ok(())
    }

    /// Keeps the label of a statement of this file and ordinal; or gives the statement's address to those that are kept.
    fn add_label(
        &mut self,
        map: &Map,
        kind: &StatementKind<'a>,
        key: (u64, u64),
        waiting: &mut Vec<&'a [u8]>,
    ) -> Result<(), AllocError> {
        match kind {
            StatementKind::Label(name) => {
                if !name.starts_with(b".L") {
                    waiting.push(*name)?;
                }
            }
            StatementKind::Enters(_) | StatementKind::Opens(_) => waiting.clear(),
            _ => {
                if let Some(address) = address_of(map, key) {
                    self.add_waiting(waiting.as_slice(), address)?;
                    waiting.clear();
                }
            }
        }
        Ok(())
    }

    /// Adds names of an address.
    fn add_waiting(&mut self, names: &[&'a [u8]], address: u64) -> Result<(), AllocError> {
        for name in names {
            self.symbols.push(Symbol {
                name: *name,
                address,
            })?;
        }
        Ok(())
    }

    fn add_rows(&mut self, map: &Map) -> Result<(), AllocError> {
        for row in &map.rows {
            if row.bytes > 0 {
                self.rows.push(*row)?;
            }
        }
        self.rows
            .sort_by_key(|row| (row.address, row.file, row.ordinal))
    }

    /// Adds the names of the regions between two addresses, a blank before each.
    pub(crate) fn put_regions(
        &self,
        text: &mut Vec<u8>,
        start: u64,
        end: u64,
    ) -> Result<(), AllocError> {
        for part in &self.regions {
            if start <= part.region.start && part.region.end <= end {
                put_parts(text, &[Part::Text(" "), Part::Text(part.name)])?;
            }
        }
        Ok(())
    }

    /// The name of the region that has an address.
    pub(crate) fn region_at(&self, address: u64) -> Option<&'a str> {
        let (name, _) = self.region_of(address)?;
        Some(name)
    }

    /// The name and the first address of the region that has an address.
    pub(crate) fn region_of(&self, address: u64) -> Option<(&'a str, u64)> {
        let behind = self
            .regions
            .partition_point(|part| part.region.start <= address);
        let part = self.regions.get(behind.checked_sub(1)?)?;
        if part.region.end <= address {
            return None;
        }
        Some((part.name, part.region.start))
    }

    /// The symbol at the highest address at or below one, of several there the first.
    fn last_symbol(&self, address: u64) -> Option<Symbol<'a>> {
        let behind = self
            .symbols
            .partition_point(|symbol| symbol.address <= address);
        let highest = self.symbols.get(behind.checked_sub(1)?)?.address;
        let first = self
            .symbols
            .partition_point(|symbol| symbol.address < highest);
        self.symbols.get(first).copied()
    }

    /// The address of a symbol; of several with its name the lowest.
    pub fn address_of(&self, name: &[u8]) -> Option<u64> {
        match self.symbols.iter().find(|symbol| symbol.name == name) {
            Some(symbol) => Some(symbol.address),
            None => None,
        }
    }

    /// The name that the linker defines at an address.
    pub(crate) fn bound_at(&self, address: u64) -> Option<&'a [u8]> {
        match self.bounds.iter().find(|symbol| symbol.address == address) {
            Some(symbol) => Some(symbol.name),
            None => None,
        }
    }

    /// The nearest symbol at or below an address, in the address's region.
    pub(crate) fn symbol_at(&self, address: u64) -> Option<Near<'a>> {
        let (_, start) = self.region_of(address)?;
        let symbol = self.last_symbol(address)?;
        if symbol.address < start {
            return None;
        }
        Some(Near {
            name: symbol.name,
            distance: address.wrapping_sub(symbol.address),
        })
    }

    /// The statement that has the byte at an address.
    pub(crate) fn row_at(&self, address: u64) -> Option<&Row> {
        let found = match self.rows.binary_search_by_key(&address, |row| row.address) {
            Ok(index) => Some(index),
            Err(index) => index.checked_sub(1),
        };
        let row = self.rows.get(found?)?;
        if address.wrapping_sub(row.address) < row.bytes {
            Some(row)
        } else {
            None
        }
    }

    /// Whether a statement begins at an address, and none of the same line stands right before it.
    pub(crate) fn begins_line(&self, row: &Row, address: u64) -> bool {
        if row.address != address {
            return false;
        }
        match self.row_at(address.wrapping_sub(1)) {
            Some(before) => before.file != row.file || before.line != row.line,
            None => true,
        }
    }

    /// The statements with bytes, by address.
    pub(crate) fn rows(&self) -> &[Row] {
        self.rows.as_slice()
    }

    /// The source of a file's number, where it is at hand.
    fn source(&self, file: u64) -> Option<&Lines<'a>> {
        self.sources.get(index_of(file)?)
    }

    /// The name of a file by its number, where it is known, else the number.
    pub(crate) fn file(&self, number: u64) -> Part<'_> {
        match self.source(number) {
            Some(source) if !source.name.is_empty() => Part::Name(source.name.as_slice()),
            _ => Part::Decimal(number),
        }
    }

    /// The text of a line of a file without the blanks around it; none where the source is not at hand.
    pub(crate) fn line(&self, file: u64, number: u64) -> &'a [u8] {
        let (Some(source), Some(index)) = (self.source(file), index_of(number)) else {
            return &[];
        };
        match source.lines.get(index) {
            Some(line) => line.trim_ascii(),
            None => &[],
        }
    }
}
