//! What sources come to that have no fault: the sizes of the program's regions, and warnings.

use crate::names::is_linker_symbol;
use crate::parts::Part::{Shown, Words};
use crate::parts::put_parts;
use crate::remark::Remark;
use crate::tokens::{LineToken, all_tokens, is_line_feed, part, place, text_of};
use crate::warnings::{Doubt, Warning, warnings_of};
use rv_map::{Map, read};
use rv_map_laws::Region;
use std::alloc::{AllocError, Global};
use std::collections::HashMap;

/// What sources come to.
#[derive(Drop)]
pub struct Closing {
    /// The sizes of the program's regions: a line, with a line feed.
    pub sizes: String,
    /// The warnings, source by source.
    pub warnings: Vec<Remark>,
}

/// The sizes of a program by the text of its map, and the warnings of its sources.
pub fn closing_of(alloc: Global, sources: &[&[u8]], map: &[u8]) -> Result<Closing, AllocError> {
    match read(alloc, without_rows(map))? {
        Some(map) => closing_by(alloc, sources, &map),
        None => Ok(Closing {
            sizes: String::new(alloc),
            warnings: Vec::new(alloc),
        }),
    }
}

/// The text of a map without the rows at its end, which is that of a map too.
fn without_rows(map: &[u8]) -> &[u8] {
    let mut stop = 0usize;
    for line in map.split(is_line_feed) {
        if line.starts_with(b"row ") {
            return part(map, 0, stop);
        }
        stop = stop.saturating_add(line.len()).saturating_add(1);
    }
    map
}

/// The sizes of a program with this map, and the warnings of its sources.
fn closing_by(alloc: Global, sources: &[&[u8]], map: &Map) -> Result<Closing, AllocError> {
    let symbols = symbols_of(alloc, map)?;
    let mut warnings = Vec::new(alloc);
    let mut file = 0usize;
    for source in sources {
        put_warnings(alloc, file, source, &symbols, &mut warnings)?;
        file = file.saturating_add(1);
    }
    let sizes = sizes_line(alloc, map)?;
    Ok(Closing { sizes, warnings })
}

/// The sizes of the regions, a line.
fn sizes_line(alloc: Global, map: &Map) -> Result<String, AllocError> {
    let text = size_of(&map.text);
    let rodata = size_of(&map.rodata);
    let data = size_of(&map.data);
    let bss = size_of(&map.bss);
    format!(in alloc; "text {text}, rodata {rodata}, data {data}, bss {bss} bytes\n")
}

fn size_of(region: &Region) -> u64 {
    region.end.saturating_sub(region.start)
}

/// Whether an address lies in a program, or between two of its regions.
fn is_inside(map: &Map, address: u64) -> bool {
    let starts_before = map.text.start <= address
        || map.rodata.start <= address
        || map.data.start <= address
        || map.bss.start <= address;
    let ends_after = address < map.text.end
        || address < map.rodata.end
        || address < map.data.end
        || address < map.bss.end;
    starts_before && ends_after
}

/// The global names of a map by their addresses, those of the linker and numbers aside.
fn symbols_of(alloc: Global, map: &Map) -> Result<HashMap<u64, &[u8]>, AllocError> {
    let mut symbols = HashMap::new(alloc);
    for global in &map.globals {
        let name = global.name.as_slice();
        let address = global.address;
        if is_inside(map, address) && !is_linker_symbol(name) {
            symbols.insert(address, name)?;
        }
    }
    Ok(symbols)
}

/// Adds the warnings of a source.
fn put_warnings(
    alloc: Global,
    file: usize,
    source: &[u8],
    symbols: &HashMap<u64, &[u8]>,
    remarks: &mut Vec<Remark>,
) -> Result<(), AllocError> {
    let tokens = all_tokens(alloc, source)?;
    let warnings = warnings_of(alloc, source, tokens.as_slice(), symbols)?;
    for warning in &warnings {
        remarks.push(remark_of(alloc, file, source, warning, symbols)?)?;
    }
    Ok(())
}

/// What is said of a warning.
fn remark_of(
    alloc: Global,
    file: usize,
    source: &[u8],
    warning: &Warning,
    symbols: &HashMap<u64, &[u8]>,
) -> Result<Remark, AllocError> {
    let mut remark = Remark::new(alloc);
    let token: LineToken = warning.token;
    remark.show(file, source, token.line, place(&token))?;
    put_doubt(&mut remark.sentence, source, warning, symbols)?;
    Ok(remark)
}

/// Adds what may be wrong.
fn put_doubt(
    text: &mut String,
    source: &[u8],
    warning: &Warning,
    symbols: &HashMap<u64, &[u8]>,
) -> Result<(), AllocError> {
    let token: LineToken = warning.token;
    match warning.doubt {
        Doubt::UnusedLabel => {
            let name = text_of(source, &token);
            put_parts(
                text,
                &[Words("nothing in this source refers to "), Shown(name)],
            )
        }
        Doubt::Unreachable => text.push_str(
            "nothing leads here: the line before jumps away, and there is no label",
        ),
        Doubt::Misaligned => text.push_str(
            "the address is no multiple of the width, as sp is one of 16",
        ),
        Doubt::AtZero => text.push_str("no program has data near address 0, so the run ends here"),
        Doubt::HidesSymbol => {
            let name = symbol_at(symbols, token.value);
            put_parts(
                text,
                &[
                    Words("this is the address of "),
                    Shown(name),
                    Words(" today: la follows it when it moves"),
                ],
            )
        }
    }
}

/// The name at an address.
fn symbol_at<'a>(symbols: &HashMap<u64, &'a [u8]>, address: u64) -> &'a [u8] {
    match symbols.get(&address) {
        Some(name) => *name,
        None => b"",
    }
}
