//! The lines of a section's code: addresses, raw bytes and instructions, in the columns of GNU's `objdump -d -r`.

use crate::alias_text::{put_alias, put_parcel_alias};
use crate::columns::Column::{Decimal, Hexadecimal, Left, Name, Padded, Text};
use crate::columns::{Column, put, put_columns};
use crate::instruction_text::{is_plain_fence, put_instruction};
use crate::line_numbers::{LineNumbers, NumberedCode, put_line_number};
use crate::marks::Mark;
use crate::pairs::Pairs;
use crate::parcel_text::put_parcel;
use crate::relocations::{Relocation, put_relocation};
use crate::scope::{Scope, put_address, put_place};
use rv_compress::{next_inst, read};
use rv_isa::{Format, Inst};
use rv_parcel::Compressed;
use std::alloc::AllocError;

/// So many zeros or more are one line.
const ZEROS: usize = 8;
/// Fewer zeros than these at the end are one line.
const LAST_ZEROS: usize = 3;
/// What assemblers write for `unimp`: a read-only register is written.
const UNIMP: u64 = 0xC000_1073;

/// A section's bytes and what stands beside them.
#[derive(Drop)]
pub(crate) struct Code<'a> {
    pub(crate) scope: Scope<'a>,
    pub(crate) bytes: &'a [u8],
    /// Where code and data begin in it, by their places.
    pub(crate) marks: &'a [Mark],
    /// Its relocations, by their places.
    pub(crate) relocations: &'a [Relocation<'a>],
    /// The lines of source that are shown.
    pub(crate) lines: &'a LineNumbers<'a>,
    pub(crate) aliases: bool,
}

/// How far the lines of a section are.
#[derive(Drop)]
pub(crate) struct Cursor<'a> {
    has_heading: bool,
    /// The offset after the last line.
    offset: usize,
    /// The offset of the next name, or the end.
    stop: usize,
    /// How many marks stand there or before.
    marks: usize,
    /// How many relocations stand before.
    relocations: usize,
    /// The line of source of what was shown last, since the last name.
    line: Option<NumberedCode<'a>>,
    pairs: Pairs,
}

impl Cursor<'_> {
    /// At the beginning of a section, where registers hold this.
    pub(crate) fn new(pairs: Pairs) -> Self {
        Cursor {
            has_heading: false,
            offset: 0,
            stop: 0,
            marks: 0,
            relocations: 0,
            line: None,
            pairs,
        }
    }

    /// Goes to the beginning of another section; registers hold what they did.
    pub(crate) fn restart(&mut self) {
        self.has_heading = false;
        self.offset = 0;
        self.stop = 0;
        self.marks = 0;
        self.relocations = 0;
        self.line = None;
    }
}

impl Code<'_> {
    /// The address of the byte at an offset.
    fn address(&self, offset: usize) -> u64 {
        self.scope.start.saturating_add(offset as u64)
    }

    /// The offset of the byte at an address, as far as there are bytes.
    fn offset(&self, address: u64) -> usize {
        usize::try_from(address.saturating_sub(self.scope.start))
            .unwrap_or(usize::MAX)
            .min(self.bytes.len())
    }
}

/// Adds the next line of a section; false where none is left.
pub(crate) fn put_next<'a>(
    text: &mut Vec<u8>,
    code: &Code<'a>,
    cursor: &mut Cursor<'a>,
) -> Result<bool, AllocError> {
    if !cursor.has_heading {
        cursor.has_heading = true;
        put_heading(text, code.scope.name)?;
        return Ok(true);
    }
    if let Some(relocation) = passed_relocation(code, cursor) {
        cursor.relocations = cursor.relocations.saturating_add(1);
        put_relocation(text, relocation)?;
        return Ok(true);
    }
    if cursor.offset < cursor.stop {
        if let Some(line) = next_line(code, cursor) {
            cursor.line = Some(line);
            put_line_number(text, &line)?;
            return Ok(true);
        }
        put_code(text, code, cursor)?;
        return Ok(true);
    }
    // the last instruction may reach over the name
    cursor.offset = cursor.stop;
    if cursor.offset >= code.bytes.len() {
        return Ok(false);
    }
    cursor.stop = next_stop(code, cursor.offset);
    cursor.line = None;
    put_label(text, &code.scope, code.address(cursor.offset))?;
    Ok(true)
}

/// Adds the lines above a section.
fn put_heading(text: &mut Vec<u8>, name: &[u8]) -> Result<(), AllocError> {
    put_columns(
        text,
        &[
            Text(b"\nDisassembly of section "),
            Name(name, 0),
            Text(b":\n"),
        ],
    )
}

/// The next relocation, where its place is in the lines that are there.
fn passed_relocation<'a>(code: &Code<'a>, cursor: &Cursor<'_>) -> Option<&'a Relocation<'a>> {
    let next = code.relocations.get(cursor.relocations)?;
    if cursor.offset != 0 && next.place < code.address(cursor.offset) {
        Some(next)
    } else {
        None
    }
}

/// The line of source of what is next, where it is another than that of what was shown last.
fn next_line<'a>(code: &Code<'a>, cursor: &Cursor<'a>) -> Option<NumberedCode<'a>> {
    let next = code.lines.at(code.address(cursor.offset))?;
    match &cursor.line {
        Some(last) if last.is_of_line(&next) => None,
        _ => Some(next),
    }
}

/// The offset of the first name after an offset, or the end.
fn next_stop(code: &Code<'_>, offset: usize) -> usize {
    let own = code.scope.own;
    let passed = own.partition_point(|label| code.offset(label.address) <= offset);
    match own.get(passed) {
        Some(label) => code.offset(label.address),
        None => code.bytes.len(),
    }
}

/// Adds the line of what is next.
fn put_code(
    text: &mut Vec<u8>,
    code: &Code<'_>,
    cursor: &mut Cursor<'_>,
) -> Result<(), AllocError> {
    let offset = cursor.offset;
    let bytes = code.bytes.get(offset..).unwrap_or(b"");
    let inside = bytes
        .get(..cursor.stop.saturating_sub(offset))
        .unwrap_or(bytes);
    let count = match skipped(inside) {
        Some(zeros) => {
            put(text, b"\t...\n")?;
            zeros
        }
        None => put_line(text, code, cursor, offset, bytes)?,
    };
    cursor.offset = offset.saturating_add(count);
    Ok(())
}

/// Adds the line of a place with a name.
fn put_label(text: &mut Vec<u8>, scope: &Scope<'_>, address: u64) -> Result<(), AllocError> {
    put_columns(text, &[Text(b"\n"), Padded(address, 16), Text(b" ")])?;
    put_place(text, scope, scope.own, address)?;
    put(text, b":\n")
}

/// How many of these bytes are zeros without a line of their own: whole words of many zeros, or all where these are few.
fn skipped(bytes: &[u8]) -> Option<usize> {
    let zeros = count_zeros(bytes);
    if zeros == bytes.len() {
        if zeros >= ZEROS || zeros < LAST_ZEROS {
            return Some(zeros);
        }
        return None;
    }
    if zeros >= ZEROS {
        Some(zeros - zeros % 4)
    } else {
        None
    }
}

fn count_zeros(bytes: &[u8]) -> usize {
    let mut count = 0usize;
    for byte in bytes {
        if *byte != 0 {
            break;
        }
        count = count.saturating_add(1);
    }
    count
}

/// Adds the line of the front of bytes; answers how many of them it shows.
fn put_line(
    text: &mut Vec<u8>,
    code: &Code<'_>,
    cursor: &mut Cursor<'_>,
    offset: usize,
    bytes: &[u8],
) -> Result<usize, AllocError> {
    let address = code.address(offset);
    put_columns(
        text,
        &[
            Hexadecimal(address, width_below(code.scope.end)),
            Text(b":\t"),
        ],
    )?;
    let data = data_at(code, cursor, address, bytes.len());
    if data != 0 {
        return put_data(text, bytes, data);
    }
    match next_inst(bytes) {
        Some((inst, 2)) => {
            put_raw(text, bytes, 2)?;
            put_parcel_line(text, code, cursor, address, &inst, bytes)?;
            Ok(2)
        }
        Some((inst, _)) if !is_odd_fence(&inst) => {
            put_raw(text, bytes, 4)?;
            put_word_line(text, code, cursor, address, &inst)?;
            Ok(4)
        }
        _ => put_unknown(text, code.aliases, bytes),
    }
}

/// Whether an instruction is a fence with fields that no text of a fence has.
fn is_odd_fence(inst: &Inst) -> bool {
    match (*inst).format() {
        Format::Fence(x) => !is_plain_fence(&x),
        _ => false,
    }
}

/// The digits of addresses below an end: a multiple of 4, with a blank at least in front.
fn width_below(end: u64) -> usize {
    let zeros = end.leading_zeros() / 4;
    let digits = 16u32.saturating_sub(zeros).max(1) as usize;
    ((digits / 4 + 1) * 4).min(16)
}

/// How many bytes of data are on the line of an address; 0 where code stands there.
fn data_at(code: &Code<'_>, cursor: &mut Cursor<'_>, address: u64, left: usize) -> usize {
    let rest = code.marks.get(cursor.marks..).unwrap_or(&[]);
    let passed = rest.partition_point(|mark| mark.address <= address);
    cursor.marks = cursor.marks.saturating_add(passed);
    let Some(last) = cursor.marks.checked_sub(1) else {
        return 0;
    };
    match code.marks.get(last) {
        Some(mark) if mark.is_data => {}
        _ => return 0,
    }
    let whole = match code.marks.get(cursor.marks) {
        Some(next) => next.address.saturating_sub(address),
        None => left as u64,
    };
    match whole {
        0..=2 => whole as usize,
        3 => 2,
        _ => 4,
    }
}

/// Adds the text of a parcel, and the address that it adds up to.
fn put_parcel_line(
    text: &mut Vec<u8>,
    code: &Code<'_>,
    cursor: &mut Cursor<'_>,
    address: u64,
    inst: &Inst,
    bytes: &[u8],
) -> Result<(), AllocError> {
    let Some(parcel) = parcel_of(bytes) else {
        return put(text, b"\n");
    };
    if code.aliases {
        put_parcel_alias(text, &code.scope, address, &parcel, inst)?;
    } else {
        put_parcel(text, &code.scope, address, &parcel)?;
    }
    let sum = cursor.pairs.follow_parcel(parcel, code.aliases);
    put_end(text, &code.scope, sum)
}

fn parcel_of(bytes: &[u8]) -> Option<Compressed> {
    let low = *bytes.first()?;
    let high = *bytes.get(1)?;
    read(u16::from_le_bytes([low, high]))
}

/// Adds the text of a word, and the address that it adds up to.
fn put_word_line(
    text: &mut Vec<u8>,
    code: &Code<'_>,
    cursor: &mut Cursor<'_>,
    address: u64,
    inst: &Inst,
) -> Result<(), AllocError> {
    if code.aliases {
        put_alias(text, &code.scope, address, inst)?;
    } else {
        put_instruction(text, &code.scope, address, inst)?;
    }
    let sum = cursor.pairs.follow_word(address, inst, code.aliases);
    put_end(text, &code.scope, sum)
}

/// Ends a line, with an address where there is one.
fn put_end(text: &mut Vec<u8>, scope: &Scope<'_>, sum: Option<u64>) -> Result<(), AllocError> {
    if let Some(address) = sum {
        put(text, b" # ")?;
        put_address(text, scope, address)?;
    }
    put(text, b"\n")
}

/// Adds the first bytes as one number, the lowest byte last, with blanks up to the column of the instruction.
fn put_raw(text: &mut Vec<u8>, bytes: &[u8], count: usize) -> Result<(), AllocError> {
    put_columns(
        text,
        &[
            digits_of(bytes, count),
            Left(b"", if count < 4 { 16 } else { 10 }),
            Text(b"\t"),
        ],
    )
}

/// The first bytes as digits, the lowest byte last.
fn digits_of<'a>(bytes: &[u8], count: usize) -> Column<'a> {
    let digits = count.min(bytes.len()).saturating_mul(2);
    Padded(number_of(bytes, count), digits)
}

/// The first bytes as a number, the lowest first.
fn number_of(bytes: &[u8], count: usize) -> u64 {
    let mut number = 0u64;
    for byte in bytes.get(..count).unwrap_or(bytes).iter().rev() {
        number = number.wrapping_shl(8) | u64::from(*byte);
    }
    number
}

/// Adds the bytes of a word or a parcel that spells no instruction; answers how many.
fn put_unknown(text: &mut Vec<u8>, aliases: bool, bytes: &[u8]) -> Result<usize, AllocError> {
    let is_word = match bytes.first() {
        Some(first) => *first % 4 == 3,
        None => false,
    };
    let count = bytes.len().min(if is_word { 4 } else { 2 });
    put_raw(text, bytes, count)?;
    match (number_of(bytes, count), count) {
        (0, 2) if !aliases => put(text, b"c.unimp\n")?,
        (0, 2) | (UNIMP, 4) => put(text, b"unimp\n")?,
        (number, _) => put_columns(
            text,
            &[
                Text(b"."),
                Decimal(count as u64, 0),
                Text(b"byte\t0x"),
                Hexadecimal(number, 0),
                Text(b"\n"),
            ],
        )?,
    }
    Ok(count.max(1))
}

/// Adds 1, 2 or 4 bytes of data as a number; answers how many.
fn put_data(text: &mut Vec<u8>, bytes: &[u8], count: usize) -> Result<usize, AllocError> {
    put_raw(text, bytes, count)?;
    put_columns(
        text,
        &[
            match count {
                1 => Text(b".byte\t0x"),
                2 => Text(b".short\t0x"),
                _ => Text(b".word\t0x"),
            },
            digits_of(bytes, count),
            Text(b"\n"),
        ],
    )?;
    Ok(count.max(1))
}
