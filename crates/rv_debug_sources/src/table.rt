//! The line table of a source, as statements behind its last one.

ghost use Rattle.std.specs.Prelude.{◌≡◌, OnOk};
ghost use Rattle.rv_debug_sources.specs.LineText as laws;
ghost use Rattle.rv_debug_sources.specs.Reading.{said_of};

use crate::header::put_header;
use crate::program::{put_last, put_steps};
use crate::said::Lines;
use std::alloc::AllocError;

/// Adds the line table, if the source names files.
pub(crate) fn put_table(text: &mut Vec<u8>, source: &[u8], lines: &Lines) -> Result<(), AllocError>
    ensures { OnOk result (text.new.items
        ≡ laws.with_table source.now text.old.items (said_of lines.now)) }
{
    let Some(first) = lines.names.as_slice().get(0) else {
        return Ok(());
    };
    put_header(text, source, first.number == 0, lines)?;
    put_program(text, lines)
}

/// Adds the program.
fn put_program(text: &mut Vec<u8>, lines: &Lines) -> Result<(), AllocError>
    ensures { OnOk result (text.new.items ≡ laws.with_program text.old.items (said_of lines.now)) }
{
    text.extend_from_slice(b".Lrv_line_program:\n")?;
    put_steps(text, lines.steps.as_slice())?;
    put_last(text, lines.is_open)?;
    Ok(text.extend_from_slice(b".Lrv_line_end:\n")?)
}
