//! Labels of lines: an offset in the source behind a front, so that each has a name of its own.

ghost use Rattle.std.specs.Prelude.{◌≡◌, ◌<◌, OnOk};
ghost use Rattle.rv_debug_sources.specs.LineText as laws;

use crate::leb128::digit;
use std::alloc::AllocError;

/// Adds the label of the row of a statement at an offset.
pub(crate) fn put_row_label(text: &mut Vec<u8>, at: u32) -> Result<(), AllocError>
    ensures { OnOk result (text.new.items ≡ laws.with_label text.old.items laws.row_front at) }
{
    text.extend_from_slice(b".Lrv_loc_")?;
    put_offset(text, at)
}

/// Adds the label of the end of a sequence, in front of a statement at an offset.
pub(crate) fn put_end_label(text: &mut Vec<u8>, at: u32) -> Result<(), AllocError>
    ensures { OnOk result (text.new.items ≡ laws.with_label text.old.items laws.end_front at) }
{
    text.extend_from_slice(b".Lrv_end_")?;
    put_offset(text, at)
}

/// Adds an offset, as eight digits.
fn put_offset(text: &mut Vec<u8>, at: u32) -> Result<(), AllocError>
    ensures { OnOk result (text.new.items ≡ laws.with_offset text.old.items at) }
{
    put_digits(text, (at / 16_777_216) as u8)?;
    put_digits(text, (at / 65_536 % 256) as u8)?;
    put_digits(text, (at / 256 % 256) as u8)?;
    put_digits(text, (at % 256) as u8)
}

/// Adds the two digits of a byte.
fn put_digits(text: &mut Vec<u8>, byte: u8) -> Result<(), AllocError>
    ensures { OnOk result (text.new.items ≡ laws.with_digits text.old.items byte) }
{
    text.extend_from_slice(&[digit(byte / 16), digit(byte % 16)])
}
