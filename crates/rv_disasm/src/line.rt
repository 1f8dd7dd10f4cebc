//! The lines of code.
//!
//! Source: RISC-V Unprivileged ISA 20191213, section 1.5.

ghost use Rattle.std.specs.Prelude.{◌≡◌, ◌+◌, ◌<◌, ◌≤◌, ◌^◌, ◌++◌, length, OnOk, IfOk};
ghost use Rattle.rv_isa_laws.specs.Word.{Spells};
ghost use Rattle.rv_parcel.specs.Parcel.{StandsFor};
ghost use Rattle.rv_isa_laws.specs.Reader.{Reader};
ghost use Rattle.rv_listing_laws.specs.Lines.{front, shown, length_read, line, lines};

use crate::code::first_word;
use crate::instruction::put_instruction;
use crate::kept::KeptLines;
use rv_compress::next_inst;
use rv_listing_laws::Targets;
use rv_map::put_hexadecimal;
use std::alloc::AllocError;

/// Adds the lines of the bytes that stand at this address.
pub(crate) fn put_lines(
    text: &mut Vec<u8>,
    kept: &mut KeptLines,
    address: u64,
    bytes: &[u8],
) -> Result<(), AllocError>
    requires { address + length bytes.now ≤ 2 ^ 64 }
    ensures { (reader : Reader Spells StandsFor) → OnOk result
        (text.new.items ≡ text.old.items ++ lines reader 0 address bytes.now) }
{
    let mut offset = 0;
    while offset < bytes.len() {
        let count = put_kept_line(text, kept, address + offset as u64, &bytes[offset..])?;
        offset += count;
    }
    Ok(())
}

/// Adds the line of the front of the bytes, which may be kept; answers how many of them it stands for.
fn put_kept_line(
    text: &mut Vec<u8>,
    kept: &mut KeptLines,
    address: u64,
    bytes: &[u8],
) -> Result<usize, AllocError>
    ensures text { (reader : Reader Spells StandsFor) → IfOk result (λ _.
        text.new.items ≡ text.old.items ++ line address (front reader bytes.now)) }
    ensures count { (reader : Reader Spells StandsFor) → IfOk result (λ count.
        count ≡ length_read (front reader bytes.now)) }
    ensures some { IfOk result (λ count. (1 ≤ count) × (count ≤ 4)) }
{
    if bytes.len() < 4 {
        return put_line(text, address, bytes);
    }
    let word = first_word(bytes);
    if let Some((line, count)) = kept.find(address, word) {
        text.extend_from_slice(line)?;
        return Ok(count);
    }
    let start = text.len();
    let count = put_line(text, address, bytes)?;
    kept.keep(address, word, &text[start..], count);
    Ok(count)
}

/// Adds the line of the front of the bytes; answers how many of them it stands for.
fn put_line(text: &mut Vec<u8>, address: u64, bytes: &[u8]) -> Result<usize, AllocError>
    ensures text { (reader : Reader Spells StandsFor) → IfOk result (λ _.
        text.new.items ≡ text.old.items ++ line address (front reader bytes.now)) }
    ensures count { (reader : Reader Spells StandsFor) → IfOk result (λ count.
        count ≡ length_read (front reader bytes.now)) }
    ensures grows { IfOk result (λ _. length text.old.items ≤ length text.new.items) }
    ensures some { IfOk result (λ count. (1 ≤ count) × (count ≤ 4)) }
{
    put_hexadecimal(text, address)?;
    text.extend_from_slice(b": ")?;
    let count = put_front(text, address, bytes)?;
    text.push(b'\n')?;
    Ok(count)
}

/// Adds what the front of the bytes spells; answers how many bytes it has.
fn put_front(text: &mut Vec<u8>, address: u64, bytes: &[u8]) -> Result<usize, AllocError>
    ensures text { (reader : Reader Spells StandsFor) → IfOk result (λ _.
        text.new.items ≡ text.old.items ++ shown address (front reader bytes.now)) }
    ensures count { (reader : Reader Spells StandsFor) → IfOk result (λ count.
        count ≡ length_read (front reader bytes.now)) }
    ensures grows { IfOk result (λ _. length text.old.items ≤ length text.new.items) }
    ensures some { IfOk result (λ count. (1 ≤ count) × (count ≤ 4)) }
{
    match next_inst(bytes) {
        Some((inst, count)) => {
            put_instruction(text, Targets::Addresses(address), inst)?;
            Ok(count)
        }
        None => {
            text.extend_from_slice(b"unknown")?;
            Ok(2)
        }
    }
}
