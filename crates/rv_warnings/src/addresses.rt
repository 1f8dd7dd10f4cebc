//! Where labels stand in the program, by its map.

use crate::accesses::{KnownAccess, known_accesses};
use crate::facts::Facts;
use crate::registers::Held;
use crate::warning::{Doubt, Warning, put};
use rv_map::{Map, read};
use rv_statement::Statement;
use std::alloc::{AllocError, Global};

/// Adds the accesses of a source, by the index of its file, that are off a multiple of their width in the program of a map.
pub(crate) fn put_misaligned<'a>(
    alloc: Global,
    facts: &Facts<'a>,
    file: usize,
    map: &[u8],
    room: &mut Statement<'a>,
    found: &mut Vec<Warning>,
) -> Result<(), AllocError> {
    let accesses = known_accesses(alloc, facts, room)?;
    // the rows of a map are read only where they are wanted
    if accesses.is_empty() {
        return Ok(());
    }
    let Some(map) = read(alloc, map)? else {
        return Ok(());
    };
    put_off(facts, file, &map, accesses.as_slice(), found)
}

/// Adds those of some accesses that are off a multiple of their width.
fn put_off(
    facts: &Facts<'_>,
    file: usize,
    map: &Map,
    accesses: &[KnownAccess],
    found: &mut Vec<Warning>,
) -> Result<(), AllocError> {
    for access in accesses {
        if let Some(address) = address_of(facts, file, map, access)
            && is_off(address, access.width)
        {
            put(
                found,
                Doubt::Misaligned(address, access.width),
                access.index,
            )?;
        }
    }
    Ok(())
}

/// Whether an address is no multiple of a width, which is a power of two.
fn is_off(address: u64, width: u64) -> bool {
    address & width.wrapping_sub(1) != 0
}

/// The address of an access.
fn address_of(facts: &Facts<'_>, file: usize, map: &Map, access: &KnownAccess) -> Option<u64> {
    match access.held {
        Held::Number(number) => Some(number),
        Held::Place(label, distance) => {
            Some(label_address(facts, file, map, label)?.wrapping_add(distance))
        }
        _ => None,
    }
}

/// The address of a label: that of the next statement of its section that has a row.
fn label_address(facts: &Facts<'_>, file: usize, map: &Map, label: usize) -> Option<u64> {
    let section = facts.section(label);
    for index in label..facts.unit.statements().len() {
        if facts.section(index) != section {
            return None;
        }
        let key = (
            (file as u64).saturating_add(1),
            (index as u64).saturating_add(1),
        );
        if let Ok(row) = map
            .rows
            .binary_search_by_key(&key, |row| (row.file, row.ordinal))
        {
            return map.rows.get(row).map(|row| row.address);
        }
    }
    None
}
