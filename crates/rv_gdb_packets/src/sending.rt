//! Packets as they are sent.

ghost use Rattle.std.specs.Prelude.{◌≡◌, ◌++◌, OnOk};
ghost use Rattle.rv_gdb_packets.specs.Packets.{is_special, escaped_byte, escaped, checksum, packet, ending};

use crate::body::{CHANGE, ESCAPE};
use crate::digits::glyph_of;
use std::alloc::AllocError;

/// Whether a byte has a meaning of its own in a packet.
fn has_meaning(byte: u8) -> bool
    ensures { result ≡ is_special byte }
{
    byte == b'#' || byte == b'$' || byte == ESCAPE || byte == b'*'
}

/// Adds a byte as it stands in a packet.
fn put_byte(out: &mut Vec<u8>, byte: u8) -> Result<(), AllocError>
    ensures { OnOk result (out.new.items ≡ out.old.items ++ escaped_byte byte) }
{
    if has_meaning(byte) {
        out.extend_from_slice(&[ESCAPE, byte ^ CHANGE])?;
        return Ok(());
    }
    out.push(byte)?;
    Ok(())
}

/// Adds bytes as they stand in a packet.
fn put_escaped(out: &mut Vec<u8>, content: &[u8]) -> Result<(), AllocError>
    ensures { OnOk result (out.new.items ≡ out.old.items ++ escaped content.now) }
{
    for byte in content {
        put_byte(out, *byte)?;
    }
    Ok(())
}

/// The sum of bytes modulo 256.
fn sum_of(bytes: &[u8]) -> u8
    ensures { result ≡ checksum 0 bytes.now }
{
    let mut sum: u8 = 0;
    for byte in bytes {
        sum = sum.wrapping_add(*byte);
    }
    sum
}

/// Adds what ends a packet whose bytes have this sum.
fn put_ending(out: &mut Vec<u8>, sum: u8) -> Result<(), AllocError>
    ensures { OnOk result (out.new.items ≡ out.old.items ++ ending sum) }
{
    out.extend_from_slice(&[b'#', glyph_of(sum / 16), glyph_of(sum % 16)])?;
    Ok(())
}

/// Adds the packet of a content.
pub fn put_packet(out: &mut Vec<u8>, content: &[u8]) -> Result<(), AllocError>
    ensures { OnOk result (out.new.items ≡ out.old.items ++ packet content.now) }
{
    out.push(b'$')?;
    let start = out.len();
    put_escaped(out, content)?;
    let sum = sum_of(&out[start..]);
    put_ending(out, sum)?;
    Ok(())
}
