//! The statement whose value a link refuses, found in the objects of the sources.

use rv_chain::assemble_object;
use rv_fault::Fault;
use rv_fault_texts::{LineToken, Remark, part, symbol_at};
use rv_link::{GroundOptions, LinkFault};
use rv_object_report::{Site, borrowed, faulty_site, put_value, row_of, symbol_of, value_of};
use std::alloc::Global;

/// Shows the statement that has a fault of a value, and says of what that value is made; whether it can be told.
pub(crate) fn put_suspect(
    alloc: Global,
    names: &[&str],
    sources: &[&[u8]],
    fault: &LinkFault,
    options: GroundOptions,
    remark: &mut Remark,
) -> Result<bool, Fault> {
    let objects = objects_of(alloc, sources)?;
    let files = borrowed(alloc, objects.as_slice())?;
    let Some(site) = faulty_site(alloc, files.as_slice(), fault, options)? else {
        return Ok(false);
    };
    let (Some(name), Some(source), Some(file)) = (
        names.get(site.file),
        sources.get(site.file),
        files.get(site.file),
    ) else {
        return Ok(false);
    };
    let is_lower = matches!(fault, LinkFault::DanglingPcrel);
    let Some(token) = token_of(alloc, source, file, &site, is_lower)? else {
        return Ok(false);
    };
    remark.show_in_file(alloc, site.file, name, source, &token)?;
    if is_lower {
        return Ok(false);
    }
    let Some(value) = value_of(alloc, files.as_slice(), &site, options)? else {
        return Ok(false);
    };
    let symbol = part(source, token.start, token.stop);
    put_value(alloc, &mut remark.sentence, symbol, &site, &value, fault)?;
    Ok(true)
}

/// The token of a source by which the statement of a relocation of its object refers to its symbol.
fn token_of(
    alloc: Global,
    source: &[u8],
    object: &[u8],
    site: &Site,
    is_lower: bool,
) -> Result<Option<LineToken>, Fault> {
    let Some(row) = row_of(object, site.section, site.rela.r_offset) else {
        return Ok(None);
    };
    let name = symbol_of(object, site);
    Ok(symbol_at(alloc, source, row.r_ordinal, name, is_lower)?)
}

/// The objects of sources, which have no fault of their own.
fn objects_of(alloc: Global, sources: &[&[u8]]) -> Result<Vec<Vec<u8>>, Fault> {
    let mut objects = Vec::new(alloc);
    for source in sources {
        objects.push(assemble_object(alloc, source)?)?;
    }
    Ok(objects)
}
