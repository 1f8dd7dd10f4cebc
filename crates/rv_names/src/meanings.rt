//! What symbols mean that their own objects do not surely define.
//!
//! The name of each symbol that its object does not surely define is looked up once, when all names are known, and what it means is
//! kept. Looked up for each relocation, references to one long name cost their number times its length.
//!
//! Many files refer to the same names, so it is remembered where a name was looked up: a symbol of the same name means the same.
//! What is remembered may be any place, since the name there is compared.

ghost use Rattle.std.specs.Prelude.{◌≡◌, ◌<◌, true, List, map, option_map, IfOk, IfSome};
ghost use Rattle.rv_object_types.specs.Parts.{symbol_of};
ghost use Rattle.rv_object_types.specs.View.{object_of};
ghost use Rattle.rv_names.specs.Chosen.{Definer, seen, definitions as chosen_from, first_named};
ghost use Rattle.rv_names.specs.Names.{AnswersFirst, exported_of, outside, meant_at, AreMeanings, AreRows};

use crate::definitions::{Definitions, Exported};
use crate::symbol::is_sure;
use rv_object_types::{FileIndex, Object, Symbol, SymbolIndex};
use std::alloc::{AllocError, Global};

/// How many names are remembered.
const SLOTS: usize = 4096;

/// How many of the numbers below 2^64 go to each slot.
const SLOT: u64 = 0x10_0000_0000_0000;

/// How many of a name's last bytes choose its slot.
const TAIL: usize = 16;

/// An odd number by which all bits of a byte come into the upper bits of a product.
const MIXER: u64 = 0x9E37_79B9_7F4A_7C15;

/// What symbols mean that their own objects do not surely define. A name is looked up once for each of its symbols, however many
/// relocations refer to it.
#[derive(Drop)]
pub(crate) struct Meanings {
    /// What a symbol means, by its file and its index there; none where its own object surely defines it, or no object does.
    pub(crate) files: Vec<Vec<Option<Exported>>>,
}

impl Meanings {
    /// What the symbols of objects mean, of whose names these are the definitions.
    pub(crate) fn of(
        alloc: Global,
        objects: &[Object<'_>],
        definitions: &Definitions<'_>,
    ) -> Result<Meanings, AllocError>
        ensures { AnswersFirst (chosen_from (map object_of objects.now)) definitions.now
            → IfOk result (AreMeanings (map object_of objects.now)) }
    {
        let mut files = Vec::new(alloc);
        let mut latest = [(FileIndex(0), SymbolIndex(0)); SLOTS];
        for file in 0..objects.len() {
            let symbols = objects[file].symbols.as_slice();
            let row = file_meanings(
                alloc,
                definitions,
                objects,
                files.as_slice(),
                &mut latest,
                FileIndex(file),
                symbols,
            )?;
            files.push(row)?;
        }
        Ok(Meanings { files })
    }

    /// What a symbol means, by its file and its index there, if its own object does not surely define it.
    pub(crate) fn at(&self, file: FileIndex, index: SymbolIndex) -> Option<Exported>
        ensures { result ≡ meant_at self.now file.0 index.0 }
    {
        let row = self.files.get(file.0)?;
        *row.get(index.0)?
    }
}

/// What the symbols of a file mean, where the rows of the files before it are known. `latest` has by its number where a name was
/// looked up.
fn file_meanings(
    alloc: Global,
    definitions: &Definitions<'_>,
    objects: &[Object<'_>],
    rows: &[Vec<Option<Exported>>],
    latest: &mut [(FileIndex, SymbolIndex); SLOTS],
    file: FileIndex,
    symbols: &[Symbol<'_>],
) -> Result<Vec<Option<Exported>>, AllocError>
    ensures { IfOk result (λ row. (ds : List Definer) → AnswersFirst ds definitions.now
        → AreRows ds (map object_of objects.now) rows.now
        → row.items ≡ map (outside ds) (map seen (map symbol_of symbols.now))) }
{
    let mut row = Vec::with_capacity(alloc, symbols.len())?;
    for index in 0..symbols.len() {
        row.push(meaning(
            definitions,
            objects,
            rows,
            latest,
            (file, SymbolIndex(index)),
            &symbols[index],
        ))?;
    }
    Ok(row)
}

/// What a symbol means that its own object does not surely define.
fn meaning(
    definitions: &Definitions<'_>,
    objects: &[Object<'_>],
    rows: &[Vec<Option<Exported>>],
    latest: &mut [(FileIndex, SymbolIndex); SLOTS],
    at: (FileIndex, SymbolIndex),
    symbol: &Symbol<'_>,
) -> Option<Exported>
    ensures { (ds : List Definer) → AnswersFirst ds definitions.now
        → AreRows ds (map object_of objects.now) rows.now
        → result ≡ outside ds (seen (symbol_of symbol.now)) }
{
    if is_sure(symbol.binding, symbol.definition) {
        return None;
    }
    let slot = slot_of(symbol.name);
    match known(objects, rows, latest[slot], symbol.name) {
        Some(meaning) => meaning,
        None => {
            latest[slot] = at;
            definitions.by_name.get(symbol.name).copied()
        }
    }
}

/// What a name means, if the symbol at an index of a file before has it.
fn known(
    objects: &[Object<'_>],
    rows: &[Vec<Option<Exported>>],
    at: (FileIndex, SymbolIndex),
    name: &[u8],
) -> Option<Option<Exported>>
    ensures { (ds : List Definer) → AreRows ds (map object_of objects.now) rows.now
        → IfSome result (λ x. x ≡ option_map exported_of (first_named ds name.now)) }
{
    let (file, index) = at;
    let row = rows.get(file.0)?;
    let found = row.get(index.0)?;
    let object = objects.get(file.0)?;
    let symbol = object.symbols.get(index.0)?;
    if is_sure(symbol.binding, symbol.definition) {
        return None;
    }
    if !is_same(symbol.name, name) {
        return None;
    }
    Some(*found)
}

/// Whether two names are the same.
fn is_same(a: &[u8], b: &[u8]) -> bool
    ensures { result ≡ true → a.now ≡ b.now }
{
    a == b
}

/// The number of a name's slot, by its length and its last bytes: names may be long and lie over each other.
fn slot_of(name: &[u8]) -> usize
    ensures { result < 4096 }
{
    let tail = &name[name.len().saturating_sub(TAIL)..];
    let mut mixed = name.len() as u64;
    for byte in tail {
        mixed = mixed.wrapping_add(u64::from(*byte)).wrapping_mul(MIXER);
    }
    (mixed / SLOT) as usize
}
