//! What is said of a fault of objects' files or of their link.

use crate::headers::put_header;
use crate::near::put_near;
use crate::records::put_record;
use crate::references::{show_definitions, show_references, show_site};
use crate::search::faulty_site;
use crate::sites::Site;
use crate::tables::symbol_of;
use crate::values::{Value, put_value, value_of};
use rv_fault::{Fault, FileFault};
use rv_fault_texts::{Remark, link_words};
use rv_link::{GroundOptions, LinkFault};
use std::alloc::{AllocError, Global};

/// What is said of the fault for which a link of files with these names is refused. An error is want of memory.
pub fn objects_remark(
    alloc: Global,
    names: &[&str],
    files: &[&[u8]],
    fault: &Fault,
    options: GroundOptions,
) -> Result<Remark, Fault> {
    let mut remark = Remark::new(alloc);
    match fault {
        Fault::File(number, fault) => {
            if let Some(file) = files.get((*number as usize).saturating_sub(1)) {
                put_file(alloc, file, fault, &mut remark.sentence)?;
            }
        }
        Fault::Link(fault) => put_link(alloc, names, files, fault, options, &mut remark)?,
        _ => {}
    }
    Ok(remark)
}

/// Adds what is said of a fault of a file: what the file is, or which record is wrong.
fn put_file(
    alloc: Global,
    file: &[u8],
    fault: &FileFault,
    sentence: &mut String,
) -> Result<(), AllocError> {
    put_header(alloc, file, fault, sentence)?;
    if !sentence.is_empty() {
        return Ok(());
    }
    put_record(alloc, file, fault, sentence)
}

/// Adds what is said of a fault of the link.
fn put_link(
    alloc: Global,
    names: &[&str],
    files: &[&[u8]],
    fault: &LinkFault,
    options: GroundOptions,
    remark: &mut Remark,
) -> Result<(), Fault> {
    match fault {
        LinkFault::Undefined(name) => {
            show_references(alloc, names, files, name.as_slice(), &mut remark.excerpt)?;
            remark.sentence.push_str(link_words(fault))?;
            put_near(alloc, names, files, name.as_slice(), &mut remark.sentence)?;
            return Ok(());
        }
        LinkFault::Duplicate(name) => {
            show_definitions(alloc, names, files, name.as_slice(), &mut remark.excerpt)?
        }
        LinkFault::Overflow | LinkFault::OddTarget | LinkFault::DanglingPcrel => {
            return put_refused_value(alloc, names, files, fault, options, remark);
        }
        _ => {}
    }
    remark.sentence.push_str(link_words(fault))?;
    Ok(())
}

/// Adds where a value stands that is refused, and what it is made of.
fn put_refused_value(
    alloc: Global,
    names: &[&str],
    files: &[&[u8]],
    fault: &LinkFault,
    options: GroundOptions,
    remark: &mut Remark,
) -> Result<(), Fault> {
    let Some(site) = faulty_site(alloc, files, fault, options)? else {
        remark.sentence.push_str(link_words(fault))?;
        return Ok(());
    };
    show_site(alloc, names, files, &site, &mut remark.excerpt)?;
    let value = match fault {
        LinkFault::DanglingPcrel => None,
        _ => value_of(alloc, files, &site, options)?,
    };
    put_value_at(alloc, files, &site, value, fault, &mut remark.sentence)?;
    Ok(())
}

/// Adds what the value of a relocation is made of, if that can be told.
fn put_value_at(
    alloc: Global,
    files: &[&[u8]],
    site: &Site,
    value: Option<Value>,
    fault: &LinkFault,
    sentence: &mut String,
) -> Result<(), AllocError> {
    let Some(value) = value else {
        return sentence.push_str(link_words(fault));
    };
    let name = match files.get(site.file) {
        Some(file) => symbol_of(file, site),
        None => b"",
    };
    put_value(alloc, sentence, name, site, &value, fault)
}
