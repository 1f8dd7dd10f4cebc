//! The lines of sources that define a name or refer to it, as a fault of the link shows them.

use crate::occurrences::{definition_of, is_made_global, reference_in};
use crate::remark::Remark;
use crate::tokens::{LineToken, all_tokens, is_end, unlabelled};
use std::alloc::{AllocError, Global};

/// The most references to a name that are shown.
const MOST_REFERENCES: usize = 20;

/// Shows the references to a name without a meaning: those of sources that do not define it, else those of all.
pub fn show_undefined(
    alloc: Global,
    names: &[&str],
    sources: &[&[u8]],
    name: &[u8],
    remark: &mut Remark,
) -> Result<(), AllocError> {
    show_references(alloc, names, sources, name, false, remark)?;
    if remark.spot.is_some() {
        return Ok(());
    }
    show_references(alloc, names, sources, name, true, remark)
}

/// Shows the references to a name in the sources that define it, or in those that do not.
fn show_references(
    alloc: Global,
    names: &[&str],
    sources: &[&[u8]],
    name: &[u8],
    defined: bool,
    remark: &mut Remark,
) -> Result<(), AllocError> {
    let mut left = MOST_REFERENCES;
    let mut file = 0usize;
    for (title, source) in names.iter().zip(sources) {
        let tokens = all_tokens(alloc, source)?;
        if definition_of(source, tokens.as_slice(), name).is_some() == defined {
            let found = references_of(alloc, source, tokens.as_slice(), name, left)?;
            show_all(alloc, file, title, source, found.as_slice(), remark)?;
            left = left.saturating_sub(found.len());
        }
        file = file.saturating_add(1);
    }
    Ok(())
}

/// The tokens of a source that refer to a name, one for a statement and so many at most.
fn references_of(
    alloc: Global,
    source: &[u8],
    tokens: &[LineToken],
    name: &[u8],
    most: usize,
) -> Result<Vec<LineToken>, AllocError> {
    let mut found = Vec::new(alloc);
    for group in tokens.split(is_end) {
        if most <= found.len() {
            break;
        }
        if let Some(token) = reference_in(source, unlabelled(group), name) {
            found.push(token)?;
        }
    }
    Ok(found)
}

/// Shows tokens of a source.
fn show_all(
    alloc: Global,
    file: usize,
    title: &str,
    source: &[u8],
    tokens: &[LineToken],
    remark: &mut Remark,
) -> Result<(), AllocError> {
    for token in tokens {
        remark.show_in_file(alloc, file, title, source, token)?;
    }
    Ok(())
}

/// Shows the definition of a name in each source that makes it global.
pub fn show_definitions(
    alloc: Global,
    names: &[&str],
    sources: &[&[u8]],
    name: &[u8],
    remark: &mut Remark,
) -> Result<(), AllocError> {
    let mut file = 0usize;
    for (title, source) in names.iter().zip(sources) {
        if let Some(token) = global_definition(alloc, source, name)? {
            remark.show_in_file(alloc, file, title, source, &token)?;
        }
        file = file.saturating_add(1);
    }
    Ok(())
}

/// The definition of a name in a source that makes it global.
fn global_definition(
    alloc: Global,
    source: &[u8],
    name: &[u8],
) -> Result<Option<LineToken>, AllocError> {
    let tokens = all_tokens(alloc, source)?;
    if is_made_global(source, tokens.as_slice(), name) {
        Ok(definition_of(source, tokens.as_slice(), name))
    } else {
        Ok(None)
    }
}
