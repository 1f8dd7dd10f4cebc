//! The value of a relocation that is refused, with the addresses that it is made of.
//!
//! A link shows no address of a place that is no global name. So the relocation becomes one of four plain bytes, whatever
//! their value, and the files are linked twice, with two addends: where the programs differ is the place, and what stands
//! there is the symbol.

use crate::drafts::{borrowed, copies, leave, put_addend, put_kind};
use crate::references::definition_in;
use crate::sites::{Site, Sites};
use crate::tables::symbol_named;
use rv_chain::link_objects_exe_on;
use rv_elf::{ElfView, SHN_ABS, SHN_UNDEF, STB_GLOBAL, STB_WEAK};
use rv_fault::Fault;
use rv_fault_texts::put_bytes;
use rv_isa::Kind;
use rv_link::{GroundOptions, LinkFault};
use rv_object_reader::kind_numbered;
use std::alloc::{AllocError, Global};

/// An addend of which no byte is 0, so that each byte of the sum is another.
const MARK: i64 = 0x0101_0101;
/// The offset of the first byte of a program's text in its file.
const TEXT_OFFSET: usize = 0x1000;

/// The addresses of a relocation.
#[derive(Clone, Copy, Drop)]
pub struct Value {
    /// That of the place: the psABI's P.
    pub place: u64,
    /// That of the symbol with the addend: the psABI's S + A.
    pub target: u64,
}

/// The addresses of a relocation that is refused; none where they cannot be told. An error is want of memory.
pub fn value_of(
    alloc: Global,
    files: &[&[u8]],
    site: &Site,
    options: GroundOptions,
) -> Result<Option<Value>, Fault> {
    let mut drafts = copies(alloc, files)?;
    let sites = Sites::of(alloc, files)?;
    leave(drafts.as_mut_slice(), sites.lower.as_slice(), 0, 0);
    leave(drafts.as_mut_slice(), sites.plain.as_slice(), 0, 0);
    put_kind(drafts.as_mut_slice(), site, Kind::Set32.number());
    put_addend(drafts.as_mut_slice(), site, 0);
    let Some(first) = linked(alloc, drafts.as_slice(), options)? else {
        return Ok(None);
    };
    put_addend(drafts.as_mut_slice(), site, MARK);
    let Some(second) = linked(alloc, drafts.as_slice(), options)? else {
        return Ok(None);
    };
    let symbol = absolute_of(files, site);
    Ok(told(
        first.as_slice(),
        second.as_slice(),
        site.rela.r_addend,
        symbol,
        options.bounds.text,
    ))
}

/// The number of the symbol of a relocation, where it is one and no place.
fn absolute_of(files: &[&[u8]], site: &Site) -> Option<u64> {
    let view = ElfView::open(files.get(site.file)?).ok()?;
    let symbol = symbol_named(&view, site.symbols, site.rela.r_sym)?;
    match symbol.section {
        SHN_ABS => Some(symbol.value),
        SHN_UNDEF => number_for_all(files, symbol.name),
        _ => None,
    }
}

/// The number that a name is in all files; none where it is a place. A weak definition counts where there is no other.
fn number_for_all(files: &[&[u8]], name: &[u8]) -> Option<u64> {
    let (section, value) = match first_definition(files, name, STB_GLOBAL) {
        Some(found) => found,
        None => first_definition(files, name, STB_WEAK)?,
    };
    if section == u32::from(SHN_ABS) {
        Some(value)
    } else {
        None
    }
}

/// The section and the offset of the first definition of a name by this binding.
fn first_definition(files: &[&[u8]], name: &[u8], binding: u8) -> Option<(u32, u64)> {
    for file in files {
        if let Some(found) = definition_in(file, name, binding) {
            return Some(found);
        }
    }
    None
}

/// The program of files; none where they have none.
fn linked(
    alloc: Global,
    drafts: &[Vec<u8>],
    options: GroundOptions,
) -> Result<Option<Vec<u8>>, Fault> {
    let files = borrowed(alloc, drafts)?;
    match link_objects_exe_on(alloc, files.as_slice(), options) {
        Ok(exe) => Ok(Some(exe)),
        Err(Fault::Memory) => Err(Fault::Memory),
        Err(_) => Ok(None),
    }
}

/// What two programs tell that differ in a place alone.
fn told(
    first: &[u8],
    second: &[u8],
    addend: i64,
    number: Option<u64>,
    text_start: u64,
) -> Option<Value> {
    let offset = first_difference(first, second)?;
    let inside = offset.checked_sub(TEXT_OFFSET)?;
    let address = match number {
        Some(number) => number,
        None => address_of(word_at(first, offset)?, text_start),
    };
    Some(Value {
        place: text_start.wrapping_add(inside as u64),
        target: address.wrapping_add_signed(addend),
    })
}

/// The address of which these are the lowest four bytes: one of the program, which has less than 2^29 bytes from its text's start
/// on, or a number.
fn address_of(low: u32, text_start: u64) -> u64 {
    let low = u64::from(low);
    let past = low.wrapping_sub(text_start) % 0x1_0000_0000;
    if past < 0x2000_0000 {
        text_start.wrapping_add(past)
    } else {
        low
    }
}

/// The offset of the first byte in which two programs differ.
fn first_difference(first: &[u8], second: &[u8]) -> Option<usize> {
    let mut offset = 0usize;
    for (one, other) in first.iter().zip(second) {
        if *one != *other {
            return Some(offset);
        }
        offset = offset.saturating_add(1);
    }
    None
}

/// The number of four bytes, the lowest first.
fn word_at(bytes: &[u8], offset: usize) -> Option<u32> {
    let [a, b, c, d, ..] = bytes.get(offset..)? else {
        return None;
    };
    Some(u32::from_le_bytes([*a, *b, *c, *d]))
}

/// Adds what is said of a value that is refused: the symbol, its distance, and what its field takes.
pub fn put_value(
    alloc: Global,
    sentence: &mut String,
    name: &[u8],
    site: &Site,
    value: &Value,
    fault: &LinkFault,
) -> Result<(), AllocError> {
    let Some(kind) = kind_numbered(site.rela.r_type) else {
        return Ok(());
    };
    put_bytes(sentence, name)?;
    put_sum(alloc, sentence, site.rela.r_addend)?;
    let target = value.target;
    let place = value.place;
    let fits = what_fits(kind, fault);
    let added = if is_distance(kind) {
        let distance = target.wrapping_sub(place).cast_signed();
        format!(in alloc;
            " is at 0x{target:x}, at a distance of {distance} from here, 0x{place:x}; {fits}"
        )?
    } else {
        format!(in alloc; " is 0x{target:x}; {fits}")?
    };
    sentence.push_str(added.as_str())
}

/// Adds what is added to a symbol.
fn put_sum(alloc: Global, sentence: &mut String, addend: i64) -> Result<(), AllocError> {
    if addend == 0 {
        return Ok(());
    }
    let sign = if addend < 0 { "-" } else { "+" };
    let size = addend.unsigned_abs();
    let added = format!(in alloc; "{sign}0x{size:x}")?;
    sentence.push_str(added.as_str())
}

/// Whether the value of a kind is a distance.
fn is_distance(kind: Kind) -> bool {
    !matches!(kind, Kind::Abs32 | Kind::Hi20)
}

/// What the field of a kind takes (psABI, "Relocations"; ISA manual, "RV32I Base Integer Instruction Set").
fn what_fits(kind: Kind, fault: &LinkFault) -> &'static str {
    if matches!(fault, LinkFault::OddTarget) {
        return "instructions stand at even addresses";
    }
    match kind {
        Kind::Branch => "a branch reaches -4096 to 4094",
        Kind::Jal => "a jump reaches -1048576 to 1048574",
        Kind::RvcBranch => "a branch of two bytes reaches -256 to 254",
        Kind::RvcJump => "a jump of two bytes reaches -2048 to 2046",
        Kind::Abs32 => "four bytes take -2147483648 to 4294967295",
        Kind::Pcrel32 => "four bytes take -2147483648 to 2147483647",
        Kind::Hi20 => "an upper part takes -2147485696 to 2147481599",
        _ => "an upper part reaches -2147485696 to 2147481599",
    }
}
