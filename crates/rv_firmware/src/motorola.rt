//! Motorola S-records, with addresses of four bytes.

ghost use Rattle.std.specs.Prelude.{◌≡◌, ◌+◌, ◌≤◌, ◌<◌, ◌++◌, true, length, map, flat_map, OnOk, IfOk};
ghost use Rattle.std.specs.List.{list_all};
ghost use Rattle.rv_firmware.specs.Blocks.{block_of, is_line};
ghost use Rattle.rv_firmware.specs.FirmwareOf.{firmware_of};
ghost use Rattle.rv_firmware.specs.SRecords.{AreSRecords, s_line, header_line, data_line, start_line};

use crate::block::Block;
use crate::firmware::Firmware;
use crate::intel::sum_of;
use hex::encode_upper;
use std::alloc::{AllocError, Global};

/// The digits of the kinds of records.
const HEADER: u8 = b'0';

const DATA: u8 = b'3';

const START: u8 = b'7';
/// The bytes of the longest record: count, address, 16 bytes of data and what checks them.
const LONGEST: usize = 22;

/// The firmware as S-records, 16 bytes of data a line.
pub fn s_records(alloc: Global, firmware: &Firmware<'_>) -> Result<Vec<u8>, AllocError>
    ensures { IfOk result (λ text. AreSRecords (firmware_of firmware.now) text.items) }
{
    let lines = firmware.lines(alloc)?;
    let mut text = Vec::new(alloc);
    put_header(alloc, &mut text)?;
    put_lines(alloc, &mut text, lines.as_slice())?;
    put_start(alloc, &mut text, firmware.entry)?;
    Ok(text)
}

/// Adds the header.
fn put_header(alloc: Global, text: &mut Vec<u8>) -> Result<(), AllocError>
    ensures { OnOk result (text.new.items ≡ text.old.items ++ header_line) }
{
    put_record(alloc, text, HEADER, &[0, 0], &[])
}

/// Adds the record that says where to start.
fn put_start(alloc: Global, text: &mut Vec<u8>, entry: u32) -> Result<(), AllocError>
    ensures { OnOk result (text.new.items ≡ text.old.items ++ start_line entry) }
{
    put_record(alloc, text, START, &entry.to_be_bytes(), &[])
}

/// Adds the records of lines.
fn put_lines(alloc: Global, text: &mut Vec<u8>, lines: &[Block<'_>]) -> Result<(), AllocError>
    requires { list_all is_line (map block_of lines.now) ≡ true }
    ensures { OnOk result (text.new.items
        ≡ text.old.items ++ flat_map data_line (map block_of lines.now)) }
{
    for line in lines {
        put_line(alloc, text, *line)?;
    }
    Ok(())
}

/// Adds the record of a line.
fn put_line(alloc: Global, text: &mut Vec<u8>, line: Block<'_>) -> Result<(), AllocError>
    requires { is_line (block_of line) ≡ true }
    ensures { OnOk result (text.new.items ≡ text.old.items ++ data_line (block_of line.entry)) }
{
    put_record(alloc, text, DATA, &line.address.to_be_bytes(), line.bytes)
}

/// Adds a record of an address and at most 16 bytes.
fn put_record(
    alloc: Global,
    text: &mut Vec<u8>,
    kind: u8,
    address: &[u8],
    bytes: &[u8],
) -> Result<(), AllocError>
    requires address { length address.now ≤ 4 }
    requires bytes { length bytes.now ≤ 16 }
    ensures { OnOk result (text.new.items
        ≡ text.old.items ++ s_line kind (address.now ++ bytes.now)) }
{
    let mut record = Vec::with_capacity(alloc, LONGEST)?;
    record.push((address.len() + bytes.len() + 1) as u8)?;
    record.extend_from_slice(address)?;
    record.extend_from_slice(bytes)?;
    record.push(!sum_of(record.as_slice()))?;
    text.extend_from_slice(&[b'S', kind])?;
    text.extend_from_slice(encode_upper(alloc, record.as_slice())?.as_bytes())?;
    Ok(text.push(b'\n')?)
}
