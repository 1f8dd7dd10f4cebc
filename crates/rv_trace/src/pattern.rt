//! The line of an instruction, made once: what all its lines have, with blanks for the digits that differ.

use crate::access::{Access, access_of, destination};
use crate::columns::{DECIMAL, fill_column, put, put_blanks, put_fixed, put_near};
use crate::parts::Part::{Decimal, Fixed, Name, Text};
use crate::parts::put_parts;
use crate::places::Places;
use crate::visited::VisitedInstruction;
use rv_inspect::put_shortest;
use rv_isa::{Inst, Reg};
use std::alloc::{AllocError, Global};

/// The widths of the columns: all but that of the symbol have room for whatever can stand there.
const COUNT: usize = crate::counter::DIGITS;

const SYMBOL: usize = 20;

const BYTES: usize = 8;
/// As `bgeu zero,zero,0xfffffffffffffff0`.
const TEXT: usize = 33;
/// As of `amoswap.d s10,t0,(a0)`: a register with its value, that in decimal, an address, and what is stored there.
const EFFECT: usize = 69;
/// The front of a symbol that has no room; with the end of it, which tells the distance, and two dots it fills the column.
const FRONT: usize = 8;

const BACK: usize = SYMBOL - 2 - FRONT;
/// The room of the address of an access.
const ADDRESS: &str = "[                ]";
/// Where the effects of an instruction begin in its line.
const BEFORE_EFFECT: usize = COUNT + 1 + 16 + 1 + SYMBOL + 1 + BYTES + 1 + TEXT;
/// Where the source begins.
pub(crate) const BEFORE_SOURCE: usize = BEFORE_EFFECT + 1 + EFFECT;

/// Where the line of an instruction stands among the texts, and what is written into it each time.
#[derive(Clone, Copy, Drop)]
pub(crate) struct Pattern {
    start: usize,
    /// Where the effects begin; the line of an instruction that was not executed to its end has none.
    bare: usize,
    /// Where the source begins, or the line feed where there is none.
    source: usize,
    end: usize,
    pub effects: Effects,
    pub is_ecall: bool,
}

/// How an instruction loads or stores, and the offsets in the line of the digits of what it writes and accesses.
#[derive(Clone, Copy, Drop)]
pub(crate) struct Effects {
    /// The register that the instruction sets; x0 where it sets none.
    pub register: Reg,
    /// Where the value of the register stands.
    pub value: usize,
    /// Where the line ends, but for the value in decimal, of which nothing is accessed.
    pub no_access: usize,
    pub access: Option<Access>,
    /// Where the address of the access stands.
    pub address: usize,
    /// Where what is stored stands.
    pub stored: usize,
}

/// The patterns of instructions, in the order of the instructions.
#[derive(Drop)]
pub(crate) struct Patterns {
    texts: Vec<u8>,
    patterns: Vec<Pattern>,
}

impl Patterns {
    /// None yet.
    pub(crate) fn new(alloc: Global) -> Self {
        Patterns {
            texts: Vec::new(alloc),
            patterns: Vec::new(alloc),
        }
    }

    pub(crate) fn len(&self) -> usize {
        self.patterns.len()
    }

    #[inline]
    pub(crate) fn get(&self, index: usize) -> Option<&Pattern> {
        self.patterns.get(index)
    }

    /// The whole line.
    #[inline]
    pub(crate) fn line(&self, pattern: &Pattern) -> &[u8] {
        self.texts.get(pattern.start..pattern.end).unwrap_or(b"")
    }

    /// The line up to the effects.
    pub(crate) fn bare(&self, pattern: &Pattern) -> &[u8] {
        self.texts.get(pattern.start..pattern.bare).unwrap_or(b"")
    }

    /// The source and the line feed.
    pub(crate) fn rest(&self, pattern: &Pattern) -> &[u8] {
        self.texts.get(pattern.source..pattern.end).unwrap_or(b"")
    }

    /// Adds the pattern of an instruction.
    pub(crate) fn add(
        &mut self,
        places: &Places<'_>,
        visited: &VisitedInstruction,
    ) -> Result<(), AllocError> {
        let start = self.texts.len();
        put_bare(&mut self.texts, places, visited)?;
        let bare = self.texts.len();
        let effects = put_effects(&mut self.texts, start, visited.inst)?;
        let source = put_rest(&mut self.texts, start, places, visited.pc, &effects)?;
        self.patterns.push(Pattern {
            start,
            bare,
            source,
            end: self.texts.len(),
            effects,
            is_ecall: matches!(visited.inst, Inst::Ecall),
        })?;
        Ok(())
    }
}

/// Adds what a line says of its instruction alone, after blanks for its number.
fn put_bare(
    text: &mut Vec<u8>,
    places: &Places<'_>,
    visited: &VisitedInstruction,
) -> Result<(), AllocError> {
    put_blanks(text, COUNT + 1)?;
    put_parts(text, &[Fixed(visited.pc, 8), Text(" ")])?;
    put_symbol(text, places, visited.pc)?;
    put_bytes(text, visited)?;
    put_shortest(text, visited.pc, visited.bits, visited.inst)
}

/// Adds the bytes of an instruction and blanks up to the next column.
fn put_bytes(text: &mut Vec<u8>, visited: &VisitedInstruction) -> Result<(), AllocError> {
    let start = text.len();
    for byte in visited
        .bits
        .to_le_bytes()
        .iter()
        .take(visited.bytes() as usize)
    {
        put_fixed(text, u64::from(*byte), 1)?;
    }
    fill_column(text, start, BYTES)
}

/// Adds the symbol of an address and blanks up to the next column.
fn put_symbol(text: &mut Vec<u8>, places: &Places<'_>, pc: u64) -> Result<(), AllocError> {
    let start = text.len();
    put_near(text, places.symbol_at(pc))?;
    if text.len().saturating_sub(start) > SYMBOL {
        leave_out_middle(text, start)?;
    }
    fill_column(text, start, SYMBOL)
}

/// Puts two dots in the place of the middle of what begins at an offset, so that it fills the column of a symbol.
fn leave_out_middle(text: &mut Vec<u8>, start: usize) -> Result<(), AllocError> {
    let mut back = [b' '; BACK];
    if let Some(last) = text.last_chunk::<BACK>() {
        back = *last;
    }
    text.truncate(start.saturating_add(FRONT));
    put_parts(text, &[Text(".."), Name(back.as_slice())])
}

/// Adds the room of the effects to a line that began at an offset, as `a0 <- .. [..] <- ..`.
fn put_effects(text: &mut Vec<u8>, start: usize, inst: Inst) -> Result<Effects, AllocError> {
    let written = destination(inst);
    let access = access_of(inst);
    let bare = text.len();
    if written.is_some() || access.is_some() {
        fill_column(text, start, BEFORE_EFFECT)?;
    }
    let value = put_written(text, written)?.saturating_sub(start);
    let last = if written.is_some() { text.len() } else { bare };
    put_blanks(text, room_behind(written.is_some(), access.is_some()))?;
    let address = text.len().saturating_add(1).saturating_sub(start);
    let stored = put_accessed(text, &access)?.saturating_sub(start);
    Ok(Effects {
        register: written.unwrap_or(Reg::ZERO),
        value,
        no_access: last.saturating_sub(start),
        access,
        address,
        stored,
    })
}

/// The room behind the value of a register that is written: for that in decimal, and a blank where an access stands behind it.
fn room_behind(is_written: bool, is_access: bool) -> usize {
    match (is_written, is_access) {
        (false, _) => 0,
        (true, false) => DECIMAL,
        (true, true) => DECIMAL + 1,
    }
}

/// Adds a register that is written, and room for its value; where that is.
fn put_written(text: &mut Vec<u8>, written: Option<Reg>) -> Result<usize, AllocError> {
    let Some(reg) = written else {
        return Ok(0);
    };
    put_parts(text, &[Text(reg.abi_name()), Text(" <- ")])?;
    let value = text.len();
    put_blanks(text, 16)?;
    Ok(value)
}

/// Adds room for an address in brackets and for what is stored there; where the latter is.
fn put_accessed(text: &mut Vec<u8>, access: &Option<Access>) -> Result<usize, AllocError> {
    let Some(access) = access else {
        return Ok(0);
    };
    put(text, ADDRESS)?;
    if !access.stores() {
        return Ok(0);
    }
    put(text, " <- ")?;
    let stored = text.len();
    put_blanks(text, access.digits())?;
    Ok(stored)
}

/// Adds the source that an address begins, and a line feed, to a line that began at an offset; where that is. A line does not end
/// with the room of a decimal.
fn put_rest(
    text: &mut Vec<u8>,
    start: usize,
    places: &Places<'_>,
    pc: u64,
    effects: &Effects,
) -> Result<usize, AllocError> {
    if let Some(row) = places.row_at(pc) {
        if places.begins_line(row, pc) {
            fill_column(text, start, BEFORE_SOURCE)?;
            let source = text.len();
            put_line(text, "# ", places, row)?;
            return Ok(source);
        }
    }
    if effects.access.is_none() {
        text.truncate(start.saturating_add(effects.no_access));
    }
    let source = text.len();
    text.push(b'\n')?;
    Ok(source)
}

/// Adds the file, the line and the text of a statement, as `a.s:3: li a0, 7`, after this sign and before a line feed.
pub(crate) fn put_line<'a>(
    text: &mut Vec<u8>,
    sign: &'a str,
    places: &Places<'a>,
    row: &rv_map_laws::Row,
) -> Result<(), AllocError> {
    let line = places.line(row.file, row.line);
    put_parts(
        text,
        &[
            Text(sign),
            places.file(row.file),
            Text(":"),
            Decimal(row.line),
            Text(if line.is_empty() { "" } else { ": " }),
            Name(line),
            Text("\n"),
        ],
    )
}
