//! The symbols of names.

ghost use Rattle.std.specs.Prelude.{◌≡◌, ◌+◌, ◌<◌, ◌^◌, ◌++◌, [], ◌∷◌, length, IfOk, OnOk};
ghost use Rattle.std.specs.List.{AllByRecursion};
ghost use Rattle.rv_elf_laws.specs.Records.{symbol_bytes};
ghost use Rattle.rv_map.specs.Views.{map_of};
ghost use Rattle.rv_labels.specs.Known.{known_of, plain_names};
ghost use Rattle.rv_debug.specs.Views.{known_list};
ghost use Rattle.rv_debug_laws.specs.Symbols.{IsKnownName, has_address, name_strings, address_section, string_table, name_symbol, symbol_table, symbols_from};

use crate::numbers::{BSS, DATA, RODATA, TEXT};
use rv_elf::{ElfWriter, SHN_ABS, STB_GLOBAL, STB_LOCAL, SYMBOL_SIZE, Symbol};
use rv_labels::{KnownName, Names};
use rv_map::{Map, Region};
use rv_table_names::type_number;
use std::alloc::{AllocError, Global};

/// The strings: the empty name, those of labels, and those of globals, each with a zero behind it.
pub(crate) fn string_table(alloc: Global, names: &Names<'_, '_>) -> Result<Vec<u8>, AllocError>
    ensures { IfOk result (λ strings. strings.items ≡ string_table (plain_names names.now)) }
{
    let mut strings = Vec::new(alloc);
    strings.push(0)?;
    put_names(&mut strings, names.labels.as_slice())?;
    put_names(&mut strings, names.globals.as_slice())?;
    Ok(strings)
}

/// Adds names, each with a zero behind it.
fn put_names(strings: &mut Vec<u8>, names: &[KnownName<'_>]) -> Result<(), AllocError>
    ensures { OnOk result
        (strings.new.items ≡ strings.old.items ++ name_strings (known_list names.now)) }
{
    for known in names {
        put_name(strings, known)?;
    }
    Ok(())
}

/// Adds a name, and a zero.
fn put_name(strings: &mut Vec<u8>, known: &KnownName<'_>) -> Result<(), AllocError>
    ensures { OnOk result
        (strings.new.items ≡ strings.old.items ++ name_strings (known_of known.now ∷ [])) }
{
    strings.extend_from_slice(known.name)?;
    strings.push(0)?;
    Ok(())
}

/// The symbols: symbol 0, then the labels, which are local, then the globals.
pub(crate) fn symbol_table(
    alloc: Global,
    map: &Map,
    names: &Names<'_, '_>,
) -> Result<Vec<u8>, AllocError>
    requires { length (string_table (plain_names names.now)) < 2 ^ 32 }
    ensures symbols { IfOk result (λ symbols. symbols.items
        ≡ symbol_table (map_of map.now) (plain_names names.now)) }
    ensures labels { IfOk result (λ symbols.
        AllByRecursion IsKnownName (plain_names names.now).labels) }
    ensures globals { IfOk result (λ symbols.
        AllByRecursion IsKnownName (plain_names names.now).globals) }
{
    let mut out = ElfWriter::new(alloc);
    out.zeros(SYMBOL_SIZE)?;
    let name = put_symbols(&mut out, map, STB_LOCAL, 1, names.labels.as_slice())?;
    put_symbols(&mut out, map, STB_GLOBAL, name, names.globals.as_slice())?;
    Ok(out.finish())
}

/// Writes symbols whose names stand from an offset on, and gives the offset behind these.
fn put_symbols(
    out: &mut ElfWriter,
    map: &Map,
    binding: u8,
    first: u64,
    names: &[KnownName<'_>],
) -> Result<u64, AllocError>
    requires room { first + length (name_strings (known_list names.now)) < 2 ^ 32 }
    requires binding { binding < 2 }
    ensures written { OnOk result (out.new
        ≡ out.old ++ symbols_from (map_of map.now) binding first (known_list names.now)) }
    ensures next { IfOk result (λ name. name ≡ first + length (name_strings (known_list names.now))) }
    ensures known { OnOk result (AllByRecursion IsKnownName (known_list names.now)) }
{
    let mut name = first;
    for known in names {
        put_symbol(out, map, binding, name as u32, known)?;
        name = name + known.name.len() as u64 + 1;
    }
    Ok(name)
}

/// Writes the symbol of a name.
fn put_symbol(
    out: &mut ElfWriter,
    map: &Map,
    binding: u8,
    name: u32,
    known: &KnownName<'_>,
) -> Result<(), AllocError>
    requires { binding < 2 }
    ensures written { OnOk result (out.new
        ≡ out.old ++ symbol_bytes (name_symbol (map_of map.now) binding name (known_of known.now))) }
    ensures known { OnOk result (IsKnownName (known_of known.now)) }
{
    let address = known.address;
    out.symbol(&Symbol {
        st_name: name,
        st_info: binding * 16 + type_number(known.kind),
        st_other: 0,
        st_shndx: address_section(map, address),
        st_value: address,
        st_size: known.size,
    })?;
    Ok(())
}

/// The index of an address's section: that of the region in which it lies, or else at whose end it stands.
fn address_section(map: &Map, address: u64) -> u16
    ensures { result ≡ address_section (map_of map.now) address }
{
    if has_address(map.text, address) {
        TEXT
    } else if has_address(map.rodata, address) {
        RODATA
    } else if has_address(map.data, address) {
        DATA
    } else if has_address(map.bss, address) {
        BSS
    } else if map.text.end == address {
        TEXT
    } else if map.rodata.end == address {
        RODATA
    } else if map.data.end == address {
        DATA
    } else if map.bss.end == address {
        BSS
    } else {
        SHN_ABS
    }
}

fn has_address(region: Region, address: u64) -> bool
    ensures { result ≡ has_address region address }
{
    region.start <= address && address < region.end
}
