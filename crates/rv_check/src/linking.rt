//! What is said of a fault of the link: which lines of which files it is about, where they are known.

use crate::suspects::put_suspect;
use rv_fault::Fault;
use rv_fault_texts::{
    NearName, Remark, link_words, near_name, put_bytes, show_definitions, show_undefined,
};
use rv_link::{GroundOptions, LinkFault};
use std::alloc::{AllocError, Global};

/// What is said of a fault of the link of sources with these names.
pub(crate) fn link_remark(
    alloc: Global,
    names: &[&str],
    sources: &[&[u8]],
    fault: &LinkFault,
    options: GroundOptions,
) -> Result<Remark, Fault> {
    let mut remark = Remark::new(alloc);
    let is_told = match fault {
        LinkFault::Undefined(name) => {
            put_undefined(alloc, names, sources, name.as_slice(), fault, &mut remark)?;
            true
        }
        LinkFault::EntryMissing => {
            remark.sentence.push_str(link_words(fault))?;
            put_near_entry(alloc, names, sources, &mut remark.sentence)?;
            true
        }
        LinkFault::Duplicate(name) => {
            show_definitions(alloc, names, sources, name.as_slice(), &mut remark)?;
            false
        }
        LinkFault::Overflow | LinkFault::OddTarget | LinkFault::DanglingPcrel => {
            put_suspect(alloc, names, sources, fault, options, &mut remark)?
        }
        _ => false,
    };
    if !is_told {
        remark.sentence.push_str(link_words(fault))?;
    }
    if remark.spot.is_none() && has_line(fault) {
        remark
            .sentence
            .push_str("; which line has it is not known")?;
    }
    Ok(remark)
}

/// Shows the references to a name without a meaning, and says which name may be meant.
fn put_undefined(
    alloc: Global,
    names: &[&str],
    sources: &[&[u8]],
    name: &[u8],
    fault: &LinkFault,
    remark: &mut Remark,
) -> Result<(), AllocError> {
    show_undefined(alloc, names, sources, name, remark)?;
    remark.sentence.push_str(link_words(fault))?;
    put_near_name(alloc, names, sources, name, &mut remark.sentence)
}

/// Whether a line of a source has this fault.
fn has_line(fault: &LinkFault) -> bool {
    match fault {
        LinkFault::Undefined(_) => true,
        LinkFault::Overflow => true,
        LinkFault::OddTarget => true,
        LinkFault::DanglingPcrel => true,
        _ => false,
    }
}

/// Adds the name that sources define and that may be meant.
fn put_near_name(
    alloc: Global,
    names: &[&str],
    sources: &[&[u8]],
    name: &[u8],
    sentence: &mut String,
) -> Result<(), AllocError> {
    match near_name(alloc, sources, name)? {
        Some(near) => put_near(alloc, names, &near, sentence),
        None => Ok(()),
    }
}

/// Adds the name that may be meant for the entry: one that is spelt almost so, or `main`.
fn put_near_entry(
    alloc: Global,
    names: &[&str],
    sources: &[&[u8]],
    sentence: &mut String,
) -> Result<(), AllocError> {
    if let Some(near) = near_name(alloc, sources, b"_start")? {
        return put_near(alloc, names, &near, sentence);
    }
    let Some(near) = near_name(alloc, sources, b"main")? else {
        return Ok(());
    };
    if near.distance != 0 {
        return Ok(());
    }
    let file = names.get(near.file).copied().unwrap_or("");
    let line = near.line;
    let told = format!(in alloc; "; {file}:{line} has main, where none begins: name it _start")?;
    sentence.push_str(told.as_str())
}

/// Adds a name that may be meant, and where it stands.
fn put_near(
    alloc: Global,
    names: &[&str],
    near: &NearName<'_>,
    sentence: &mut String,
) -> Result<(), AllocError> {
    let file = names.get(near.file).copied().unwrap_or("");
    let line = near.line;
    let place = format!(in alloc; "{file}:{line}")?;
    sentence.push_str("; ")?;
    if near.distance == 0 {
        sentence.push_str(place.as_str())?;
        return sentence.push_str(" defines it, but not so");
    }
    put_bytes(sentence, near.name)?;
    sentence.push_str(" at ")?;
    sentence.push_str(place.as_str())?;
    sentence.push_str(" is spelt almost so")
}
