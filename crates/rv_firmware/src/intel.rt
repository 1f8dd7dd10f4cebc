//! Intel HEX.
//!
//! Offsets of data have 16 bits, so a record says what they count from wherever that changes. Lines begin at multiples of 16,
//! and none passes such a change.

ghost use Rattle.std.specs.Prelude.{◌≡◌, ◌+◌, ◌-◌, ◌*◌, ◌/◌, ◌%◌, ◌<◌, ◌≤◌, ◌++◌, true, length, map, flat_map, sum, OnOk, IfOk};
ghost use Rattle.std.specs.List.{list_all};
ghost use Rattle.rv_firmware.specs.Blocks.{block_of, is_line};
ghost use Rattle.rv_firmware.specs.FirmwareOf.{firmware_of};
ghost use Rattle.rv_firmware.specs.IntelHex.{IsIntelHex, record_line, line_records, base_records, records_from, start_record, end_record};

use crate::block::Block;
use crate::firmware::Firmware;
use hex::encode_upper;
use std::alloc::{AllocError, Global};

const DATA: u8 = 0;

const END_OF_FILE: u8 = 1;

const EXTENDED_LINEAR_ADDRESS: u8 = 4;

const START_LINEAR_ADDRESS: u8 = 5;
/// The bytes of the longest record: count, offset, kind, 16 bytes of data and what checks them.
const LONGEST: usize = 21;

/// The firmware in Intel HEX, 16 bytes of data a line.
pub fn intel_hex(alloc: Global, firmware: &Firmware<'_>) -> Result<Vec<u8>, AllocError>
    ensures { IfOk result (λ text. IsIntelHex (firmware_of firmware.now) text.items) }
{
    let lines = firmware.lines(alloc)?;
    let mut text = Vec::new(alloc);
    put_lines(alloc, &mut text, lines.as_slice())?;
    put_end(alloc, &mut text, firmware.entry)?;
    Ok(text)
}

/// Adds the record that says where to start, and the last one.
fn put_end(alloc: Global, text: &mut Vec<u8>, entry: u32) -> Result<(), AllocError>
    ensures { OnOk result (text.new.items
        ≡ (text.old.items ++ record_line (start_record entry)) ++ record_line end_record) }
{
    put_record(alloc, text, START_LINEAR_ADDRESS, 0, &entry.to_be_bytes())?;
    put_record(alloc, text, END_OF_FILE, 0, &[])
}

/// Adds the records of lines, and of what their offsets count from where that changes.
fn put_lines(alloc: Global, text: &mut Vec<u8>, lines: &[Block<'_>]) -> Result<(), AllocError>
    requires { list_all is_line (map block_of lines.now) ≡ true }
    ensures { OnOk result (text.new.items
        ≡ text.old.items ++ flat_map record_line (records_from 0 (map block_of lines.now))) }
{
    let mut upper = 0;
    for line in lines {
        upper = put_line(alloc, text, upper, *line)?;
    }
    Ok(())
}

/// Adds the record of a line, after one with the upper half of its address where that is not `upper`; it answers the half.
fn put_line(
    alloc: Global,
    text: &mut Vec<u8>,
    upper: u32,
    line: Block<'_>,
) -> Result<u32, AllocError>
    requires within { is_line (block_of line) ≡ true }
    ensures upper { IfOk result (λ next. next ≡ line.entry.address / 65536) }
    ensures line { OnOk result (text.new.items
        ≡ text.old.items ++ flat_map record_line (line_records upper (block_of line.entry))) }
{
    let next = line.address >> 16;
    put_base(alloc, text, upper, next)?;
    put_record(alloc, text, DATA, (line.address % 65536) as u16, line.bytes)?;
    Ok(next)
}

/// Adds a record that says what offsets count from, where that changes.
fn put_base(alloc: Global, text: &mut Vec<u8>, upper: u32, next: u32) -> Result<(), AllocError>
    requires { next < 65536 }
    ensures { OnOk result (text.new.items
        ≡ text.old.items ++ flat_map record_line (base_records upper next)) }
{
    if next == upper {
        return Ok(());
    }
    put_record(
        alloc,
        text,
        EXTENDED_LINEAR_ADDRESS,
        0,
        &(next as u16).to_be_bytes(),
    )
}

/// Adds a record of at most 16 bytes.
fn put_record(
    alloc: Global,
    text: &mut Vec<u8>,
    kind: u8,
    offset: u16,
    bytes: &[u8],
) -> Result<(), AllocError>
    requires { length bytes.now ≤ 16 }
    ensures { OnOk result (text.new.items ≡ text.old.items
        ++ record_line (record { kind = kind; offset = offset; bytes = bytes.now })) }
{
    let [high, low] = offset.to_be_bytes();
    let mut record = Vec::with_capacity(alloc, LONGEST)?;
    record.extend_from_slice(&[bytes.len() as u8, high, low, kind])?;
    record.extend_from_slice(bytes)?;
    record.push(sum_of(record.as_slice()).wrapping_neg())?;
    text.push(b':')?;
    text.extend_from_slice(encode_upper(alloc, record.as_slice())?.as_bytes())?;
    Ok(text.push(b'\n')?)
}

/// The sum of some bytes modulo 256.
pub(crate) fn sum_of(bytes: &[u8]) -> u8
    ensures { result ≡ sum bytes.now % 256 }
{
    let mut sum = 0u8;
    for byte in bytes {
        sum = sum.wrapping_add(*byte);
    }
    sum
}
