//! The bytes that a call moved, from where they stand in memory.

ghost use Rattle.std.specs.Prelude.{◌≡◌, ◌++◌, true, IsOk, IfOk, IfErr, OnOk};
ghost use Rattle.rv_isa_laws.specs.Memory.{may, bytes_at, Read as ToRead};
ghost use Rattle.rv_machine.specs.Seen.{in_span};
ghost use Rattle.rv_event_text_laws.specs.EventLine.{hex_bytes, moved_text};
ghost use Rattle.rv_event_text.specs.declared.fault.LineFault.TheVariants.{OutOfMemory};

use crate::digits::{put, put_digits};
use crate::fault::LineFault;
use rv_machine::Span;
use rv_memory::{Memory, Right};

/// Adds bytes of memory behind a word, if there are any.
pub(crate) fn put_moved<M: Memory>(
    text: &mut Vec<u8>,
    name: &str,
    span: Span,
    memory: &M,
) -> Result<(), LineFault>
    ensures text { OnOk result (text.new.items
        ≡ text.old.items ++ moved_text name.now (in_span (M.mem memory.now) span)) }
    ensures refused { may (M.mem memory.now) span.address span.count ToRead ≡ true
        → IfErr result (λ fault. fault ≡ OutOfMemory) }
{
    if span.count == 0 {
        return Ok(());
    }
    put(text, name)?;
    put_bytes(text, span, memory)
}

/// Adds bytes of memory, two digits each.
fn put_bytes<M: Memory>(text: &mut Vec<u8>, span: Span, memory: &M) -> Result<(), LineFault>
    ensures text { OnOk result (text.new.items
        ≡ text.old.items ++ hex_bytes (bytes_at (M.mem memory.now) span.address span.count)) }
    ensures refused { may (M.mem memory.now) span.address span.count ToRead ≡ true
        → IfErr result (λ fault. fault ≡ OutOfMemory) }
{
    for k in 0..span.count {
        let byte = byte_at(memory, span.address.wrapping_add(k))?;
        put_digits(text, 2, byte)?;
    }
    Ok(())
}

/// The byte at an address; one that may be written, but not be read, stands in its piece.
fn byte_at<M: Memory>(memory: &M, address: u64) -> Result<u64, LineFault>
    ensures byte { IfOk result (λ byte. byte ≡ (M.mem memory.now).byte address) }
    ensures found { may (M.mem memory.now) address 1 ToRead ≡ true → IsOk result }
{
    match memory.try_load(address, 1, Right::Read) {
        Some(byte) => Ok(byte),
        None => match memory.piece(address).first().copied() {
            Some(byte) => Ok(u64::from(byte)),
            None => Err(LineFault::Unread),
        },
    }
}
