//! Texts that come one after the other in one slice, as C hands over several.

ghost use Rattle.std.specs.Prelude.{◌≡◌, map, option_map, IfOk};
ghost use Rattle.rv_statement.specs.View.{now_of};
ghost use Rattle.rv_library.specs.Texts.{texts_by_lengths};

use std::alloc::{AllocError, Global};
use std::str::from_utf8;

/// The texts of these lengths that bytes are, one after the other; none where the lengths are not those of all the bytes.
pub(crate) fn texts_of<'a>(
    alloc: Global,
    bytes: &'a [u8],
    lengths: &[u64],
) -> Result<Option<Vec<&'a [u8]>>, AllocError>
    ensures { IfOk result (λ found.
        option_map (λ texts. map now_of texts.items) found ≡ texts_by_lengths lengths.now bytes.now) }
{
    let mut texts: Vec<&'a [u8]> = Vec::new(alloc);
    let mut left = bytes;
    for count in lengths {
        if *count > left.len() as u64 {
            return Ok(None);
        }
        let (text, behind) = left.split_at(*count as usize);
        texts.push(text)?;
        left = behind;
    }
    if left.is_empty() {
        return Ok(Some(texts));
    }
    Ok(None)
}

/// The names of these lengths that bytes are, one after the other; none where the lengths are not those of all the bytes, or
/// a name is no UTF-8.
pub(crate) fn names_of<'a>(
    alloc: Global,
    bytes: &'a [u8],
    lengths: &[u64],
) -> Result<Option<Vec<&'a str>>, AllocError> {
    let Some(texts) = texts_of(alloc, bytes, lengths)? else {
        return Ok(None);
    };
    let mut names: Vec<&'a str> = Vec::new(alloc);
    for text in texts.iter() {
        let Ok(name) = from_utf8(text) else {
            return Ok(None);
        };
        names.push(name)?;
    }
    Ok(Some(names))
}
