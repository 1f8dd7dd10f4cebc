//! The counts of a run as programs read them.

use crate::ending::Ending;
use crate::json_report::{file_name, line_of, put_near};
use crate::lines::{Covered, coverage};
use crate::members::Held::{Name, Number, NumberOrNull, Text};
use crate::members::put_members;
use crate::places::Places;
use crate::summary::{calls, mnemonics};
use rv_counts::{CallCount, Counts, Totals};
use serde_json::{Map, Value, push, put};
use std::alloc::{AllocError, Global};

/// What a run did, as an object of JSON in a line: what [`counts_text`](crate::counts_text) says, and how the run ended; with
/// `lines`, how often each statement was executed.
pub fn counts_json(
    alloc: Global,
    counts: &Counts,
    places: &Places<'_>,
    ending: Ending,
    lines: bool,
) -> Result<Vec<u8>, AllocError> {
    let mut object = Map::new(alloc);
    put_counts(alloc, &mut object, counts, places, ending, lines)?;
    line_of(alloc, object)
}

/// Adds what a run did and how it ended.
fn put_counts(
    alloc: Global,
    object: &mut Map<String, Value>,
    counts: &Counts,
    places: &Places<'_>,
    ending: Ending,
    lines: bool,
) -> Result<(), AllocError> {
    put_sums(alloc, object, counts, ending)?;
    put_tables(alloc, object, counts, places)?;
    if lines {
        return put(object, alloc, "lines", covered(alloc, counts, places)?);
    }
    Ok(())
}

/// Adds the counts of instructions by their kinds and mnemonics, and those of calls.
fn put_tables(
    alloc: Global,
    object: &mut Map<String, Value>,
    counts: &Counts,
    places: &Places<'_>,
) -> Result<(), AllocError> {
    put(object, alloc, "kinds", kinds(alloc, &counts.totals())?)?;
    put(object, alloc, "mnemonics", executions(alloc, counts)?)?;
    put(object, alloc, "calls", called(alloc, counts, places)?)
}

/// Adds the sums, and how the run ended.
fn put_sums(
    alloc: Global,
    object: &mut Map<String, Value>,
    counts: &Counts,
    ending: Ending,
) -> Result<(), AllocError> {
    let totals = counts.totals();
    let branches = counts.branches();
    put_members(
        alloc,
        object,
        &[
            ("instructions", Number(totals.executed)),
            ("compressed", Number(totals.compressed)),
            ("loads", Number(totals.loads)),
            ("bytes_read", Number(totals.read)),
            ("stores", Number(totals.stores)),
            ("bytes_written", Number(totals.written)),
            ("branches_taken", Number(branches.taken)),
            ("branches_not_taken", Number(branches.untaken())),
            ("deepest_stack", Number(counts.deepest())),
            ("end", Text(ending.name())),
            ("status", NumberOrNull(ending.status())),
        ],
    )
}

/// How many instructions of each kind were executed.
fn kinds(alloc: Global, totals: &Totals) -> Result<Value, AllocError> {
    let mut object = Map::new(alloc);
    for (name, count) in totals.kinds.named() {
        put_members(alloc, &mut object, &[(name, Number(count))])?;
    }
    Ok(Value::Object(object))
}

/// How often each mnemonic was executed.
fn executions(alloc: Global, counts: &Counts) -> Result<Value, AllocError> {
    let mut object = Map::new(alloc);
    for executed in &mnemonics(alloc, counts)? {
        let count = Number(executed.count);
        put_members(alloc, &mut object, &[(executed.name, count)])?;
    }
    Ok(Value::Object(object))
}

/// The functions and how often each was called.
fn called(alloc: Global, counts: &Counts, places: &Places<'_>) -> Result<Value, AllocError> {
    let mut list = Vec::new(alloc);
    for called in &calls(alloc, counts)? {
        push(&mut list, function(alloc, places, called)?)?;
    }
    Ok(Value::Array(list))
}

/// A function and how often it was called.
fn function(alloc: Global, places: &Places<'_>, called: &CallCount) -> Result<Value, AllocError> {
    let mut function = Map::new(alloc);
    put_function(alloc, &mut function, places, called)?;
    Ok(Value::Object(function))
}

/// Adds the address of a function, its symbol, and how often it was called.
fn put_function(
    alloc: Global,
    function: &mut Map<String, Value>,
    places: &Places<'_>,
    called: &CallCount,
) -> Result<(), AllocError> {
    put_near(alloc, function, places, called.address)?;
    put_members(
        alloc,
        function,
        &[
            ("address", Number(called.address)),
            ("count", Number(called.count)),
        ],
    )
}

/// The statements and how often each was executed.
fn covered(alloc: Global, counts: &Counts, places: &Places<'_>) -> Result<Value, AllocError> {
    let mut list = Vec::new(alloc);
    for statement in &coverage(alloc, counts, places)? {
        push(&mut list, executed(alloc, places, statement)?)?;
    }
    Ok(Value::Array(list))
}

/// A statement and how often it was executed.
fn executed(alloc: Global, places: &Places<'_>, statement: &Covered) -> Result<Value, AllocError> {
    let mut executed = Map::new(alloc);
    put_executed(alloc, &mut executed, places, statement)?;
    Ok(Value::Object(executed))
}

/// Adds the file and the line of a statement, and how often it was executed.
fn put_executed(
    alloc: Global,
    executed: &mut Map<String, Value>,
    places: &Places<'_>,
    statement: &Covered,
) -> Result<(), AllocError> {
    let file = file_name(alloc, places, statement.row.file)?;
    put_members(
        alloc,
        executed,
        &[
            ("file", Name(file.as_slice())),
            ("line", Number(statement.row.line)),
            ("count", Number(statement.count)),
        ],
    )
}
