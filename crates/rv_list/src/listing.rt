//! The lines of a listing.

use crate::bytes::collect;
use crate::columns::Column::{Address, Blanks, Bytes, Right, Text};
use crate::columns::{Column, put_columns};
use memchr::memchr;
use rv_image::Image;
use rv_map::Map;
use rv_map_laws::Row;
use std::alloc::{AllocError, Global};

/// The bytes on a row.
const ROW_BYTES: usize = 4;
/// The most rows of a line that GNU's assembler shows.
pub const ROWS: usize = 5;

/// A source: its name, as the words of the command line have it, and its text.
#[derive(Clone, Copy, Drop)]
pub struct Source<'n, 't> {
    pub name: &'n str,
    pub text: &'t [u8],
}

/// What the lines of all sources are shown by.
#[derive(Clone, Copy, Drop)]
struct Shape<'a> {
    image: &'a Image,
    /// The digits of addresses.
    width: usize,
    /// The most rows of a line.
    rows: usize,
}

/// The lines of sources, which are made one by one: those of empty lines are very much longer than their sources.
#[derive(Drop)]
pub struct SourceLines<'s, 'n, 't, 'i> {
    sources: &'s [Source<'n, 't>],
    /// How many of them have begun.
    file: usize,
    /// What the last of these has left, if it has a line left.
    left: Option<&'t [u8]>,
    /// The number of the last line.
    number: u64,
    /// The statements by file, line and ordinal.
    rows: Vec<Row>,
    /// How many of them stand on the lines that are there, or before.
    passed: usize,
    shape: Shape<'i>,
    /// The bytes of a line.
    bytes: Vec<u8>,
}

impl<'s, 'n, 't, 'i> SourceLines<'s, 'n, 't, 'i> {
    /// The lines of sources, each with its number, its address and its bytes.
    ///
    /// Sources are in the order in which they were built: the first is file 1 of the map. A row has four bytes; further
    /// bytes of a line stand on rows of their own, below it, up to so many rows a line. Lines without bytes have no
    /// address. Variables that begin as zeros and the fillings of alignments are shown as all other bytes are.
    pub fn new(
        alloc: Global,
        sources: &'s [Source<'n, 't>],
        map: &Map,
        image: &'i Image,
        rows: usize,
    ) -> Result<Self, AllocError> {
        Ok(SourceLines {
            sources,
            file: 0,
            left: None,
            number: 0,
            rows: in_order(alloc, &map.rows)?,
            passed: 0,
            shape: Shape {
                image,
                width: width_of(map),
                rows,
            },
            bytes: Vec::new(alloc),
        })
    }

    /// Adds the rows of the next line, or the name of the next source; false where none is left.
    pub fn next(&mut self, text: &mut Vec<u8>) -> Result<bool, AllocError> {
        if let Some(left) = self.left {
            let (line, left) = cut_line(left);
            self.left = left;
            self.put_line(text, line)?;
            return Ok(true);
        }
        let Some(source) = self.sources.get(self.file) else {
            return Ok(false);
        };
        put_heading(text, self.file == 0, source.name)?;
        self.begin(source.text);
        Ok(true)
    }

    /// Goes to the beginning of the next source.
    fn begin(&mut self, text: &'t [u8]) {
        self.file = self.file.saturating_add(1);
        let file = self.file as u64;
        self.passed = self.rows.partition_point(|row| row.file < file);
        self.number = 0;
        self.left = if text.is_empty() {
            None
        } else {
            Some(text.strip_suffix(b"\n").unwrap_or(text))
        };
    }

    /// Adds the rows of a line.
    fn put_line(&mut self, text: &mut Vec<u8>, line: &[u8]) -> Result<(), AllocError> {
        self.number = self.number.saturating_add(1);
        let own = rows_at(&self.rows, self.passed, self.file as u64, self.number);
        let count = own.len();
        let most = self.shape.rows.saturating_mul(ROW_BYTES);
        self.bytes.clear();
        let address = collect(&mut self.bytes, self.shape.image, own, most)?;
        put_rows(text, &self.shape, self.number, address, &self.bytes, line)?;
        self.passed = self.passed.saturating_add(count);
        Ok(())
    }
}

/// The first line of a text, and what is after its end, if there is one.
fn cut_line(text: &[u8]) -> (&[u8], Option<&[u8]>) {
    match memchr(b'\n', text) {
        Some(end) => (
            text.get(..end).unwrap_or(text),
            text.get(end.saturating_add(1)..),
        ),
        None => (text, None),
    }
}

/// The statements by file, line and ordinal.
fn in_order(alloc: Global, rows: &[Row]) -> Result<Vec<Row>, AllocError> {
    let mut ordered = Vec::from_slice(alloc, rows)?;
    ordered.sort_by_key(|row| (row.file, row.line, row.ordinal))?;
    Ok(ordered)
}

/// The digits of the greatest address of a map, four at least.
fn width_of(map: &Map) -> usize {
    let end = map
        .text
        .end
        .max(map.rodata.end)
        .max(map.data.end)
        .max(map.bss.end);
    16u32.saturating_sub(end.leading_zeros() / 4).max(4) as usize
}

/// Adds the name of a source, with an empty line below it, and above it unless it is the first.
fn put_heading(text: &mut Vec<u8>, is_first: bool, name: &str) -> Result<(), AllocError> {
    let above: &[u8] = if is_first { b"" } else { b"\n" };
    put_columns(text, &[Text(above), Text(name.as_bytes()), Text(b":\n\n")])
}

/// The statements after those that are passed, of a file, on this line or before it.
fn rows_at(rows: &[Row], passed: usize, file: u64, line: u64) -> &[Row] {
    let rest = rows.get(passed..).unwrap_or(&[]);
    rest.get(..count_up_to(rest, file, line)).unwrap_or(rest)
}

/// How many statements at the front are of a file, and on this line or before it.
fn count_up_to(rows: &[Row], file: u64, line: u64) -> usize {
    let mut count = 0usize;
    for row in rows {
        if row.file != file || line < row.line {
            break;
        }
        count = count.saturating_add(1);
    }
    count
}

/// Adds the rows of a line.
fn put_rows<'a>(
    text: &mut Vec<u8>,
    shape: &Shape<'_>,
    number: u64,
    address: Option<u64>,
    bytes: &'a [u8],
    line: &'a [u8],
) -> Result<(), AllocError> {
    let first = bytes.get(..ROW_BYTES).unwrap_or(bytes);
    put_columns(
        text,
        &[
            Right(number, 4),
            Text(b" "),
            address_column(address, shape.width),
            Text(b" "),
            Bytes(first),
            Blanks(9usize.saturating_sub(2 * first.len())),
            Text(b"\t"),
            Text(line.strip_suffix(b"\r").unwrap_or(line)),
            Text(b"\n"),
        ],
    )?;
    put_further(text, shape, number, bytes.get(ROW_BYTES..).unwrap_or(&[]))
}

/// The column of an address, blank where a line has none.
fn address_column(address: Option<u64>, width: usize) -> Column<'static> {
    match address {
        Some(address) => Address(address, width),
        None => Blanks(width),
    }
}

/// Adds the rows below the first of a line.
fn put_further(
    text: &mut Vec<u8>,
    shape: &Shape<'_>,
    number: u64,
    bytes: &[u8],
) -> Result<(), AllocError> {
    for row in bytes.chunks(ROW_BYTES) {
        put_columns(
            text,
            &[
                Right(number, 4),
                Blanks(shape.width.saturating_add(2)),
                Bytes(row),
                Text(b"\n"),
            ],
        )?;
    }
    Ok(())
}
