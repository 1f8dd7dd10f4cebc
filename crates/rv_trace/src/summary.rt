//! The counts of a run as a text.

use crate::columns::{fill_column, put};
use crate::parts::Part::{Column, Decimal, Hexadecimal, Near, Right, Text};
use crate::parts::put_parts;
use crate::places::Places;
use rv_counts::{Branches, CallCount, Counts, MnemonicCount, Totals};
use std::alloc::{AllocError, Global};

/// The width of what is counted.
const NAME: usize = 24;
/// That of a count.
const COUNT: usize = 16;

/// What a run did, counted: a line each for all instructions, compressed ones, loads, stores, branches and the stack; then
/// by kind, by mnemonic, and calls by function.
pub fn counts_text(
    alloc: Global,
    counts: &Counts,
    places: &Places<'_>,
) -> Result<Vec<u8>, AllocError> {
    let mut text = Vec::new(alloc);
    let totals = counts.totals();
    put_sums(&mut text, &totals, &counts.branches(), counts.deepest())?;
    put_kinds(&mut text, &totals)?;
    put_mnemonics(alloc, &mut text, counts, totals.executed)?;
    put_calls(alloc, &mut text, counts, places)?;
    Ok(text)
}

/// Adds the lines of the kinds of instructions.
fn put_kinds(text: &mut Vec<u8>, totals: &Totals) -> Result<(), AllocError> {
    put(text, "by kind\n")?;
    for (name, count) in totals.kinds.named() {
        put_part(text, name, count, totals.executed)?;
    }
    Ok(())
}

/// Adds the lines of the mnemonics.
fn put_mnemonics(
    alloc: Global,
    text: &mut Vec<u8>,
    counts: &Counts,
    executed: u64,
) -> Result<(), AllocError> {
    put(text, "by mnemonic\n")?;
    for executions in &mnemonics(alloc, counts)? {
        put_part(text, executions.name, executions.count, executed)?;
    }
    Ok(())
}

/// Adds the lines of the calls.
fn put_calls(
    alloc: Global,
    text: &mut Vec<u8>,
    counts: &Counts,
    places: &Places<'_>,
) -> Result<(), AllocError> {
    put(text, "calls\n")?;
    for called in &calls(alloc, counts)? {
        put_called(text, called, places)?;
    }
    Ok(())
}

/// Adds the lines of the sums.
fn put_sums(
    text: &mut Vec<u8>,
    totals: &Totals,
    branches: &Branches,
    deepest: u64,
) -> Result<(), AllocError> {
    let lines = [
        ("instructions", totals.executed),
        ("compressed", totals.compressed),
        ("loads", totals.loads),
        ("bytes read", totals.read),
        ("stores", totals.stores),
        ("bytes written", totals.written),
        ("branches taken", branches.taken),
        ("branches not taken", branches.untaken()),
        ("deepest stack", deepest),
    ];
    for (name, count) in lines {
        put_parts(text, &[Column(name.as_bytes(), NAME), Right(count, COUNT)])?;
        if name == "compressed" {
            put_share(text, count, totals.executed)?;
        }
        put(text, "\n")?;
    }
    Ok(())
}

/// Adds the line of a part of all instructions, with its share.
fn put_part(text: &mut Vec<u8>, name: &str, count: u64, whole: u64) -> Result<(), AllocError> {
    put_parts(
        text,
        &[
            Text("  "),
            Column(name.as_bytes(), NAME - 2),
            Right(count, COUNT),
        ],
    )?;
    put_share(text, count, whole)?;
    put(text, "\n")
}

/// Adds how much a count is of a whole, in percent, rounded to one digit after the point.
fn put_share(text: &mut Vec<u8>, count: u64, whole: u64) -> Result<(), AllocError> {
    let thousands = count.saturating_mul(1000).saturating_add(whole / 2);
    let tenths = thousands.checked_div(whole).unwrap_or(0);
    put_parts(
        text,
        &[
            Right(tenths / 10, 8),
            Text("."),
            Decimal(tenths % 10),
            Text(" %"),
        ],
    )
}

/// Adds the line of a function, by its symbol, or by its address where it has none.
fn put_called(
    text: &mut Vec<u8>,
    called: &CallCount,
    places: &Places<'_>,
) -> Result<(), AllocError> {
    let start = text.len();
    let function = match places.symbol_at(called.address) {
        Some(near) => Near(near),
        None => Hexadecimal(called.address),
    };
    put_parts(text, &[Text("  "), function])?;
    fill_column(text, start, NAME)?;
    put_parts(text, &[Right(called.count, COUNT), Text("\n")])
}

/// The mnemonics by how often they were executed, then by name.
pub(crate) fn mnemonics(alloc: Global, counts: &Counts) -> Result<Vec<MnemonicCount>, AllocError> {
    let mut mnemonics = counts.mnemonics(alloc)?;
    mnemonics.sort_by_key(|executions| executions.name)?;
    mnemonics.sort_by_key(|executions| u64::MAX - executions.count)?;
    Ok(mnemonics)
}

/// The addresses that were called by how often they were, then by address.
pub(crate) fn calls(alloc: Global, counts: &Counts) -> Result<Vec<CallCount>, AllocError> {
    let mut calls = counts.calls(alloc)?;
    calls.sort_by_key(|called| called.address)?;
    calls.sort_by_key(|called| u64::MAX - called.count)?;
    Ok(calls)
}
