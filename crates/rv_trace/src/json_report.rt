//! A report as programs read it.

use crate::ending::Ending;
use crate::last::registers;
use crate::members::Held::{Name, Null, Number, NumberOrNull, Text};
use crate::members::put_members;
use crate::parts::put_parts;
use crate::places::Places;
use crate::refusals::{Refusal, Refusals};
use crate::report::{Bounds, Failed, Latest, Segments, failed_access, rights};
use rv_disasm::{Targets, put_instruction};
use rv_inspect::put_shortest;
use rv_isa::Inst;
use rv_json::put_line;
use rv_machine::{Fetched, Watched, bits_at, spelled};
use rv_memory::Memory;
use serde_json::{Map, Value, push, put};
use std::alloc::{AllocError, Global};

/// How a run ended, as an object of JSON in a line: what [`report_text`](crate::report_text) says, and the end.
pub fn report_json<M: Memory>(
    alloc: Global,
    machine: &Watched<M>,
    latest: &Latest,
    places: &Places<'_>,
    segments: &Segments,
    ending: Ending,
) -> Result<Vec<u8>, AllocError> {
    let mut report = Map::new(alloc);
    put_report(
        alloc,
        &mut report,
        machine,
        latest,
        places,
        segments,
        ending,
    )?;
    line_of(alloc, report)
}

/// The line of an object.
pub(crate) fn line_of(alloc: Global, object: Map<String, Value>) -> Result<Vec<u8>, AllocError> {
    let mut text = Vec::new(alloc);
    put_line(alloc, &mut text, &Value::Object(object))?;
    Ok(text)
}

/// Adds how a run ended and where, and what the machine holds.
fn put_report<M: Memory>(
    alloc: Global,
    report: &mut Map<String, Value>,
    machine: &Watched<M>,
    latest: &Latest,
    places: &Places<'_>,
    segments: &Segments,
    ending: Ending,
) -> Result<(), AllocError> {
    put_end(alloc, report, ending)?;
    put_machine(alloc, report, machine, places, ending)?;
    put(report, alloc, "segments", segments_of(alloc, segments)?)?;
    let refused = refused(alloc, machine, latest.refusals(), places)?;
    put(report, alloc, "refused", refused)?;
    let latest = latest_of(alloc, machine, latest, places)?;
    put(report, alloc, "latest", latest)
}

/// Adds the access that failed, where the run ended, and the registers.
fn put_machine<M: Memory>(
    alloc: Global,
    report: &mut Map<String, Value>,
    machine: &Watched<M>,
    places: &Places<'_>,
    ending: Ending,
) -> Result<(), AllocError> {
    put(report, alloc, "access", access(alloc, machine, ending)?)?;
    let at = place(alloc, machine, places, machine.pc())?;
    put(report, alloc, "at", at)?;
    put(report, alloc, "registers", registers(alloc, machine)?)
}

/// Adds how a run ended: the name of the end, the status of an exit, and the address of the end.
pub(crate) fn put_end(
    alloc: Global,
    members: &mut Map<String, Value>,
    ending: Ending,
) -> Result<(), AllocError> {
    put_members(
        alloc,
        members,
        &[
            ("end", Text(ending.name())),
            ("status", NumberOrNull(ending.status())),
            ("address", NumberOrNull(ending.address())),
        ],
    )
}

/// The access that failed: what it was, and its bytes; null where none did.
fn access<M: Memory>(
    alloc: Global,
    machine: &Watched<M>,
    ending: Ending,
) -> Result<Value, AllocError> {
    let Ending::By(end) = ending else {
        return Ok(Value::Null);
    };
    match failed_access(&end, machine) {
        None => Ok(Value::Null),
        Some(failed) => access_of(alloc, &failed),
    }
}

/// An access that failed.
fn access_of(alloc: Global, failed: &Failed) -> Result<Value, AllocError> {
    let mut access = Map::new(alloc);
    put_members(
        alloc,
        &mut access,
        &[("kind", Text(failed.kind)), ("bytes", Number(failed.bytes))],
    )?;
    Ok(Value::Object(access))
}

/// An address with its symbol, its statement and the instruction that stands there, as far as they are known.
fn place<M: Memory>(
    alloc: Global,
    machine: &Watched<M>,
    places: &Places<'_>,
    address: u64,
) -> Result<Value, AllocError> {
    let mut place = Map::new(alloc);
    put_place(alloc, &mut place, machine, places, address)?;
    Ok(Value::Object(place))
}

/// Adds an address and what stands there.
fn put_place<M: Memory>(
    alloc: Global,
    place: &mut Map<String, Value>,
    machine: &Watched<M>,
    places: &Places<'_>,
    address: u64,
) -> Result<(), AllocError> {
    put_members(alloc, place, &[("address", Number(address))])?;
    put_near(alloc, place, places, address)?;
    put_statement(alloc, place, places, address)?;
    put_names(alloc, place, machine, address)
}

/// Adds the nearest symbol of an address, and how many bytes it is behind it.
pub(crate) fn put_near(
    alloc: Global,
    members: &mut Map<String, Value>,
    places: &Places<'_>,
    address: u64,
) -> Result<(), AllocError> {
    let (symbol, distance) = match places.symbol_at(address) {
        Some(near) => (Name(near.name), Number(near.distance)),
        None => (Null, Null),
    };
    put_members(
        alloc,
        members,
        &[("symbol", symbol), ("distance", distance)],
    )
}

/// Adds the file and the line of the statement at an address.
fn put_statement(
    alloc: Global,
    place: &mut Map<String, Value>,
    places: &Places<'_>,
    address: u64,
) -> Result<(), AllocError> {
    let Some(row) = places.row_at(address) else {
        return put_members(alloc, place, &[("file", Null), ("line", Null)]);
    };
    let file = file_name(alloc, places, row.file)?;
    put_members(
        alloc,
        place,
        &[("file", Name(file.as_slice())), ("line", Number(row.line))],
    )
}

/// Adds the instruction at an address as its base instruction and by its shortest name.
fn put_names<M: Memory>(
    alloc: Global,
    place: &mut Map<String, Value>,
    machine: &Watched<M>,
    address: u64,
) -> Result<(), AllocError> {
    let Some(bits) = bits_at(machine.memory(), address) else {
        return put_no_names(alloc, place);
    };
    let Fetched::Got(inst, _) = spelled(Some(bits)) else {
        return put_no_names(alloc, place);
    };
    put_base(alloc, place, address, &inst)?;
    put_alias(alloc, place, address, bits, inst)
}

/// Adds that no instruction stands at an address.
fn put_no_names(alloc: Global, place: &mut Map<String, Value>) -> Result<(), AllocError> {
    put_members(alloc, place, &[("instruction", Null), ("alias", Null)])
}

/// Adds an instruction as its base instruction.
fn put_base(
    alloc: Global,
    place: &mut Map<String, Value>,
    address: u64,
    inst: &Inst,
) -> Result<(), AllocError> {
    let mut text = Vec::new(alloc);
    put_instruction(&mut text, Targets::Addresses(address), *inst)?;
    put_members(alloc, place, &[("instruction", Name(text.as_slice()))])
}

/// Adds an instruction by its shortest name.
fn put_alias(
    alloc: Global,
    place: &mut Map<String, Value>,
    address: u64,
    bits: u32,
    inst: Inst,
) -> Result<(), AllocError> {
    let mut text = Vec::new(alloc);
    put_shortest(&mut text, address, bits, inst)?;
    put_members(alloc, place, &[("alias", Name(text.as_slice()))])
}

/// The name of a file, or its number where it has none.
pub(crate) fn file_name(
    alloc: Global,
    places: &Places<'_>,
    number: u64,
) -> Result<Vec<u8>, AllocError> {
    let mut text = Vec::new(alloc);
    put_parts(&mut text, &[places.file(number)])?;
    Ok(text)
}

/// The calls that were refused: each different one with how often and where first, and how many others there were.
fn refused<M: Memory>(
    alloc: Global,
    machine: &Watched<M>,
    refusals: &Refusals,
    places: &Places<'_>,
) -> Result<Value, AllocError> {
    let calls = refused_calls(alloc, machine, refusals, places)?;
    let mut refused = Map::new(alloc);
    put(&mut refused, alloc, "calls", calls)?;
    let others = Number(refusals.others());
    put_members(alloc, &mut refused, &[("others", others)])?;
    Ok(Value::Object(refused))
}

/// The different calls that were refused.
fn refused_calls<M: Memory>(
    alloc: Global,
    machine: &Watched<M>,
    refusals: &Refusals,
    places: &Places<'_>,
) -> Result<Value, AllocError> {
    let mut list = Vec::new(alloc);
    for refusal in refusals.named() {
        if refusal.count > 0 {
            push(&mut list, refused_call(alloc, machine, refusal, places)?)?;
        }
    }
    Ok(Value::Array(list))
}

/// A call that was refused.
fn refused_call<M: Memory>(
    alloc: Global,
    machine: &Watched<M>,
    refusal: &Refusal,
    places: &Places<'_>,
) -> Result<Value, AllocError> {
    let mut call = Map::new(alloc);
    put_refusal(alloc, &mut call, machine, refusal, places)?;
    Ok(Value::Object(call))
}

/// Adds a call that was refused: its number, what a0 held, how often, and where first.
fn put_refusal<M: Memory>(
    alloc: Global,
    call: &mut Map<String, Value>,
    machine: &Watched<M>,
    refusal: &Refusal,
    places: &Places<'_>,
) -> Result<(), AllocError> {
    put_members(
        alloc,
        call,
        &[
            ("call", Number(refusal.number)),
            ("a0", NumberOrNull(refusal.file)),
            ("count", Number(refusal.count)),
        ],
    )?;
    let at = place(alloc, machine, places, refusal.pc)?;
    put(call, alloc, "at", at)
}

/// The segments and the stack.
fn segments_of(alloc: Global, segments: &Segments) -> Result<Value, AllocError> {
    let mut list = Vec::new(alloc);
    for bounds in segments.all() {
        push(&mut list, segment(alloc, bounds)?)?;
    }
    Ok(Value::Array(list))
}

/// A segment.
fn segment(alloc: Global, bounds: &Bounds) -> Result<Value, AllocError> {
    let mut segment = Map::new(alloc);
    put_members(
        alloc,
        &mut segment,
        &[
            ("start", Number(bounds.start)),
            ("end", Number(bounds.end)),
            ("rights", Text(rights(bounds.flags))),
        ],
    )?;
    Ok(Value::Object(segment))
}

/// The latest instructions, the last one at the end.
fn latest_of<M: Memory>(
    alloc: Global,
    machine: &Watched<M>,
    latest: &Latest,
    places: &Places<'_>,
) -> Result<Value, AllocError> {
    let mut list = Vec::new(alloc);
    for back in 0..latest.shown() {
        let place = place(alloc, machine, places, latest.address(back))?;
        push(&mut list, place)?;
    }
    Ok(Value::Array(list))
}
