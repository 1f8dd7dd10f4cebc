//! The instruction at the front of bytes.
//!
//! Source: RISC-V Unprivileged ISA 20191213, section 1.5.

ghost use Rattle.std.specs.Prelude.{◌≡◌, ◌≢◌, ◌≤◌, ◌%◌, ◌++◌, ◌∷◌, [], OnOk, length, slice_index, take};
ghost use Rattle.std.specs.Int.{to_le_bytes, w32};
ghost use Rattle.rv_isa.specs.Operations.{format_of};
ghost use Rattle.rv_parcel.specs.Front.{front_parcel, front_word};
ghost use Rattle.rv_listing_laws.specs.Raw.{raw_bytes, code_text, has_source};
ghost use Rattle.rv_disasm.specs.RawParts.{IsFront};

use crate::instruction::{is_between, is_tso, put_instruction};
use crate::parcel::put_parcel;
use rv_compress::read;
use rv_encode::decode;
use rv_isa::{Format, Inst};
use rv_listing_laws::{Code, Targets};
use std::alloc::AllocError;

/// How many bytes an instruction has.
pub(crate) fn size(code: &Code) -> usize
    ensures { result ≡ length (raw_bytes code.now) }
{
    match code {
        Code::Word(_) => 4,
        Code::Parcel(_) => 2,
    }
}

/// The instruction with which the bytes begin, where a source can write it.
pub(crate) fn front(bytes: &[u8]) -> Option<Code>
    ensures { IsFront result bytes.now }
{
    if bytes.is_empty() {
        return None;
    }
    if bytes[0] & 3 == 3 {
        word(bytes)
    } else {
        parcel(bytes)
    }
}

/// The same for bytes that begin a word.
fn word(bytes: &[u8]) -> Option<Code>
    requires { slice_index bytes.now 0 % 4 ≡ 3 }
    ensures { IsFront result bytes.now }
{
    if bytes.len() < 4 {
        return None;
    }
    match decode(first_word(bytes)) {
        Some(inst) if has_source(&inst) => Some(Code::Word(inst)),
        Some(_) => None,
        None => None,
    }
}

/// The same for bytes that begin a parcel.
fn parcel(bytes: &[u8]) -> Option<Code>
    requires { slice_index bytes.now 0 % 4 ≢ 3 }
    ensures { IsFront result bytes.now }
{
    if bytes.len() < 2 {
        return None;
    }
    match read(first_parcel(bytes)) {
        Some(form) if form.is_hint() => None,
        Some(form) => Some(Code::Parcel(form)),
        None => None,
    }
}

/// The number of the first four bytes, the least first.
pub(crate) fn first_word(bytes: &[u8]) -> u32
    requires { 4 ≤ length bytes.now }
    ensures number { result ≡ front_word bytes.now }
    ensures bytes { to_le_bytes w32 result ≡ take 4 bytes.now }
{
    u32::from_le_bytes([bytes[0], bytes[1], bytes[2], bytes[3]])
}

/// The number of the first two.
fn first_parcel(bytes: &[u8]) -> u16
    requires { 2 ≤ length bytes.now }
    ensures { result ≡ front_parcel bytes.now }
{
    u16::from_le_bytes([bytes[0], bytes[1]])
}

/// Whether a source can write the word of an instruction.
fn has_source(inst: &Inst) -> bool
    ensures { result ≡ has_source (format_of inst.now) }
{
    match inst.format() {
        Format::Fence(x) => is_tso(&x) || is_between(&x),
        _ => true,
    }
}

/// Adds the line of an instruction.
pub(crate) fn put_code(text: &mut Vec<u8>, code: &Code) -> Result<(), AllocError>
    ensures { OnOk result (text.new.items ≡ text.old.items ++ code_text code.now ++ 10 ∷ []) }
{
    match *code {
        Code::Word(inst) => put_instruction(text, Targets::Distances, inst)?,
        Code::Parcel(form) => put_parcel(text, &form)?,
    }
    text.push(b'\n')?;
    Ok(())
}
