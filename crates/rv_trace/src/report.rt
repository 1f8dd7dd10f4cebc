//! Why a run ended: where, by which access, with what in the registers, and which instructions came before.

ghost use Rattle.std.specs.Prelude.{◌≡◌, ◌+◌, ◌%◌, ◌^◌, length};

use crate::access::{AccessKind, access_of};
use crate::columns::{fill_column, put, put_near};
use crate::cure::put_cure;
use crate::ending::Ending;
use crate::memory_lines::{put_stack, put_words_around};
use crate::parts::Part::{Column, Decimal, Fixed, Name, Near, Small, Symbol, Text};
use crate::parts::put_parts;
use crate::pattern::put_line;
use crate::places::Places;
use crate::refusals::Refusals;
use rv_image::{Image, STACK_BYTES, STACK_START};
use rv_inspect::put_shortest;
use rv_isa::{Format, Inst, Reg};
use rv_machine::{End, Fetched, Look, ShowFault, Step, Watched, Watcher, bits_at, spelled};
use rv_memory::Memory;
use std::alloc::{AllocError, Global};

/// How far behind what a symbol names an access is said to be behind it.
const BEHIND: u64 = 4_096;
/// How far below the stack an access is said to find it full.
const BELOW_STACK: u64 = 65_536;

/// The addresses of the latest 16 instructions of a run.
#[derive(Drop)]
pub struct Latest {
    /// The instruction of number n, from 0, at n modulo 16.
    addresses: [u64; 16],
    /// How many instructions were told.
    count: u64,
    /// The calls that were refused.
    refusals: Refusals,
}

impl Latest {
    /// Of a run that has not begun.
    pub fn new() -> Self {
        Latest {
            addresses: [0; 16],
            count: 0,
            refusals: Refusals::none(),
        }
    }

    /// Notes the address of an instruction, and a call that is refused.
    #[inline]
    pub(crate) fn note<M: Memory>(&mut self, step: &Step, machine: &Watched<M>)
        ensures { self.new.count ≡ (self.old.count + 1) % 2 ^ 64 }
    {
        self.refusals.note(step, machine);
        self.addresses[(self.count % 16) as usize] = step.pc();
        self.count = self.count.wrapping_add(1);
    }

    /// Looks at the machine before a step.
    #[inline]
    pub(crate) fn look<M: Memory>(&mut self, machine: &Watched<M>)
        ensures { self.new.count ≡ self.old.count }
    {
        self.refusals.look(machine);
    }

    /// The calls that were refused.
    pub(crate) fn refusals(&self) -> &Refusals {
        &self.refusals
    }

    /// How many addresses are kept.
    pub(crate) fn shown(&self) -> u64 {
        self.count.min(16)
    }

    /// An address by its number from 0, the last one at the end.
    pub(crate) fn address(&self, number: u64) -> u64 {
        let number = self.count.wrapping_sub(self.shown()).wrapping_add(number);
        self.addresses[(number % 16) as usize]
    }
}

impl<M: Memory> Watcher<M> for Latest {
    ghost has_seen = { λ latest seen. latest.count ≡ length seen % 2 ^ 64 };

    #[inline]
    fn before(&mut self, _: &Look, machine: &Watched<M>) -> Result<(), ShowFault> {
        self.look(machine);
        Ok(())
    }

    #[inline]
    fn after(&mut self, step: &Step, machine: &Watched<M>) -> Result<(), ShowFault> {
        self.note(step, machine);
        Ok(())
    }
}

/// Addresses with the same rights.
#[derive(Clone, Copy, Drop)]
pub(crate) struct Bounds {
    pub start: u64,
    pub end: u64,
    /// As a segment's flags.
    pub flags: u32,
}

/// The segments of a program and its stack.
#[derive(Drop)]
pub struct Segments {
    bounds: Vec<Bounds>,
}

impl Segments {
    /// Those of an image, and the stack after them.
    pub fn of(alloc: Global, image: &Image) -> Result<Self, AllocError> {
        let mut bounds = Vec::new(alloc);
        add_bounds(&mut bounds, image)?;
        Ok(Segments { bounds })
    }

    /// All of them.
    pub(crate) fn all(&self) -> &[Bounds] {
        self.bounds.as_slice()
    }

    /// The first address of each and the one after the last, by ascending addresses; without those of no bytes.
    pub(crate) fn ordered(&self, alloc: Global) -> Result<Vec<(u64, u64)>, AllocError> {
        let mut ordered = Vec::new(alloc);
        for bounds in &self.bounds {
            if bounds.start < bounds.end {
                ordered.push((bounds.start, bounds.end))?;
            }
        }
        ordered.sort_by_key(|range: &(u64, u64)| range.0)?;
        Ok(ordered)
    }

    /// The nearest end of a segment at or below an address; 0 where there is none.
    fn end_before(&self, address: u64) -> u64 {
        let mut nearest: u64 = 0;
        for bounds in &self.bounds {
            if bounds.end <= address {
                nearest = nearest.max(bounds.end);
            }
        }
        nearest
    }

    /// The segment that has an address.
    pub(crate) fn at(&self, address: u64) -> Option<&Bounds> {
        self.bounds.iter().find(|bounds| {
            address.wrapping_sub(bounds.start) < bounds.end.wrapping_sub(bounds.start)
        })
    }
}

/// Adds the bounds of an image's segments and of the stack.
fn add_bounds(bounds: &mut Vec<Bounds>, image: &Image) -> Result<(), AllocError> {
    for segment in &image.segments {
        bounds.push(Bounds {
            start: segment.address,
            end: segment.address.wrapping_add(segment.bytes.len() as u64),
            flags: segment.flags,
        })?;
    }
    bounds.push(Bounds {
        start: STACK_START,
        end: STACK_START + STACK_BYTES as u64,
        flags: 6,
    })?;
    Ok(())
}

/// How a run ended: the status of an exit, the instruction at pc, the access that failed, the registers, the segments and the
/// latest instructions.
pub fn report_text<M: Memory>(
    alloc: Global,
    machine: &Watched<M>,
    latest: &Latest,
    places: &Places<'_>,
    segments: &Segments,
    ending: Ending,
) -> Result<Vec<u8>, AllocError> {
    let mut text = Vec::new(alloc);
    put_end(&mut text, machine, latest, (places, segments), ending)?;
    put_state(&mut text, machine, latest, (places, segments))?;
    Ok(text)
}

/// Adds where a run ended and why, the calls that were refused, and the cure.
fn put_end<M: Memory>(
    text: &mut Vec<u8>,
    machine: &Watched<M>,
    latest: &Latest,
    known: (&Places<'_>, &Segments),
    ending: Ending,
) -> Result<(), AllocError> {
    let end = ending.end();
    put_exit(text, ending)?;
    put_at(text, machine, known.0)?;
    put_from(text, machine, latest, known.0, &end)?;
    put_failed(text, machine, known, &end)?;
    put_words_around(text, machine, known.0, end.address())?;
    latest.refusals.put_lines(text, known.0)?;
    put_cure(text, ending)
}

/// Adds what the machine holds, and the latest instructions.
fn put_state<M: Memory>(
    text: &mut Vec<u8>,
    machine: &Watched<M>,
    latest: &Latest,
    known: (&Places<'_>, &Segments),
) -> Result<(), AllocError> {
    let (places, segments) = known;
    put_registers(text, machine, places)?;
    put_stack(text, machine, places)?;
    put_segments(text, places, segments)?;
    put_latest(text, machine, latest, places)
}

/// Adds the status of an exit, or that the run came to where it was to end.
fn put_exit(text: &mut Vec<u8>, ending: Ending) -> Result<(), AllocError> {
    if matches!(ending, Ending::Reached) {
        return put(text, "reached\n  what --until names, which comes next\n");
    }
    let Some(status) = ending.status() else {
        return Ok(());
    };
    put_parts(
        text,
        &[Text("exit\n  with status "), Decimal(status), Text("\n")],
    )
}

/// Adds the lines of the instruction at pc.
fn put_at<M: Memory>(
    text: &mut Vec<u8>,
    machine: &Watched<M>,
    places: &Places<'_>,
) -> Result<(), AllocError> {
    put(text, "at\n")?;
    put_place(text, machine, places, machine.pc())?;
    put(text, "\n")?;
    match places.row_at(machine.pc()) {
        Some(row) => put_line(text, "  ", places, row),
        None => Ok(()),
    }
}

/// Adds the line of the instruction from which the run came to pc, where one was executed and none stands at pc.
fn put_from<M: Memory>(
    text: &mut Vec<u8>,
    machine: &Watched<M>,
    latest: &Latest,
    places: &Places<'_>,
    end: &End,
) -> Result<(), AllocError> {
    // the last one is that at pc
    let shown = latest.shown();
    if shown < 2 || !matches!(end, End::FetchOutside(_) | End::Illegal(_)) {
        return Ok(());
    }
    put(text, "from\n")?;
    let address = latest.address(shown - 2);
    put_place(text, machine, places, address)?;
    put_source(text, places, address)
}

/// Adds the lines of the registers.
fn put_registers<M: Memory>(
    text: &mut Vec<u8>,
    machine: &Watched<M>,
    places: &Places<'_>,
) -> Result<(), AllocError> {
    put(text, "registers\n")?;
    for number in 0..32 {
        put_register(text, machine, places, Reg::from_low_bits(number))?;
    }
    Ok(())
}

/// Adds the lines of the segments.
fn put_segments(
    text: &mut Vec<u8>,
    places: &Places<'_>,
    segments: &Segments,
) -> Result<(), AllocError> {
    put(text, "segments\n")?;
    for bounds in &segments.bounds {
        put_bounds(text, places, bounds)?;
    }
    Ok(())
}

/// Adds the line of an address: its symbol, and the instruction that stands there.
fn put_place<M: Memory>(
    text: &mut Vec<u8>,
    machine: &Watched<M>,
    places: &Places<'_>,
    address: u64,
) -> Result<(), AllocError> {
    put_parts(text, &[Text("  "), Fixed(address, 8), Text(" ")])?;
    let start = text.len();
    put_near(text, places.symbol_at(address))?;
    fill_column(text, start, 20)?;
    let Some(bits) = bits_at(machine.memory(), address) else {
        return put(text, "no instruction: the bytes may not be executed");
    };
    let Fetched::Got(inst, _) = spelled(Some(bits)) else {
        return put(text, "no instruction: the bytes spell none");
    };
    let target = target_of(address, &inst);
    put_shortest(text, address, bits, inst)?;
    put_target(text, places, target)
}

/// Where a branch or a jump at an address leads.
fn target_of(address: u64, inst: &Inst) -> Option<u64> {
    let offset = match (*inst).format() {
        Format::Branch(_, x) => x.offset,
        Format::Jal(x) => x.offset,
        _ => return None,
    };
    Some(address.wrapping_add_signed(i64::from(offset)))
}

/// Adds the symbol of the address to which an instruction leads, where there is one, as `<f>`.
fn put_target(
    text: &mut Vec<u8>,
    places: &Places<'_>,
    target: Option<u64>,
) -> Result<(), AllocError> {
    let Some(target) = target else {
        return Ok(());
    };
    let Some(near) = places.symbol_at(target) else {
        return Ok(());
    };
    put_parts(text, &[Text(" <"), Near(near), Text(">")])
}

/// Adds the access that failed, where one did.
fn put_failed<M: Memory>(
    text: &mut Vec<u8>,
    machine: &Watched<M>,
    known: (&Places<'_>, &Segments),
    end: &End,
) -> Result<(), AllocError> {
    let (Some(address), Some(what)) = (end.address(), failed_access(end, machine)) else {
        return Ok(());
    };
    put_parts(
        text,
        &[
            Text("access\n  "),
            Text(what.kind),
            Text(" of "),
            Decimal(what.bytes),
            Text(unit_of(what.bytes)),
            Text(" at "),
            Fixed(address, 8),
            Symbol(known.0.symbol_at(address)),
        ],
    )?;
    put_why(text, known, end, address, what.bytes)?;
    put(text, "\n")
}

/// Adds why an access of these bytes failed.
fn put_why(
    text: &mut Vec<u8>,
    known: (&Places<'_>, &Segments),
    end: &End,
    address: u64,
    bytes: u64,
) -> Result<(), AllocError> {
    let (places, segments) = known;
    if matches!(end, End::MisalignedAtomic(_)) {
        return put(text, ", which is no multiple of them");
    }
    match segments.at(address) {
        Some(bounds) => put_in_segment(
            text,
            bounds.end.wrapping_sub(address) < bytes,
            name_of(places, bounds, address),
            rights(bounds.flags),
        ),
        None => {
            put(text, ", in no segment")?;
            put_beside(text, places, segments, address)
        }
    }
}

/// Adds that an access goes past the end of a segment, or that the segment does not have the right.
fn put_in_segment<'a>(
    text: &mut Vec<u8>,
    is_past: bool,
    name: &'a str,
    rights: &'a str,
) -> Result<(), AllocError> {
    if is_past {
        return put_parts(text, &[Text(", past the end of "), Text(name)]);
    }
    put_parts(
        text,
        &[
            Text(", in "),
            Text(name),
            Text(", which has "),
            Text(rights),
        ],
    )
}

/// The name of the part of a segment that has an address.
fn name_of<'a>(places: &Places<'a>, bounds: &Bounds, address: u64) -> &'a str {
    if bounds.start == STACK_START {
        return "the stack";
    }
    places.region_at(address).unwrap_or("a segment")
}

/// Adds what an access in no segment is beside: an end of the stack, or the end of what a symbol names.
fn put_beside(
    text: &mut Vec<u8>,
    places: &Places<'_>,
    segments: &Segments,
    address: u64,
) -> Result<(), AllocError> {
    if address < STACK_START && STACK_START.wrapping_sub(address) <= BELOW_STACK {
        return put_parts(
            text,
            &[
                Text("; the stack is full: "),
                Decimal(STACK_BYTES as u64 >> 20),
                Text(" MiB"),
            ],
        );
    }
    let end = segments.end_before(address);
    let distance = address.wrapping_sub(end);
    if end == STACK_START.wrapping_add(STACK_BYTES as u64) && distance <= BEHIND {
        return put(text, ", past the end of the stack");
    }
    let Some(last) = places.symbol_at(end.wrapping_sub(1)) else {
        return Ok(());
    };
    put_behind(text, last.name, distance)
}

/// Adds how far behind what a symbol names an access is, where it is near.
fn put_behind(text: &mut Vec<u8>, name: &[u8], distance: u64) -> Result<(), AllocError> {
    if distance > BEHIND {
        return Ok(());
    }
    if distance == 0 {
        return put_parts(text, &[Text(", right behind `"), Name(name), Text("`")]);
    }
    put_parts(
        text,
        &[
            Text(", "),
            Decimal(distance),
            Text(unit_of(distance)),
            Text(" behind `"),
            Name(name),
            Text("`"),
        ],
    )
}

/// What so many bytes are called.
fn unit_of(bytes: u64) -> &'static str {
    if bytes == 1 { " byte" } else { " bytes" }
}

/// What a failed access was, and its bytes.
#[derive(Clone, Copy, Drop)]
pub(crate) struct Failed {
    pub kind: &'static str,
    pub bytes: u64,
}

/// The access that failed, where one did.
pub(crate) fn failed_access<M: Memory>(end: &End, machine: &Watched<M>) -> Option<Failed> {
    match end {
        End::FetchOutside(_) => Some(Failed {
            kind: "fetch",
            bytes: 2,
        }),
        End::LoadText(_)
        | End::LoadOutside(_)
        | End::StoreText(_)
        | End::StoreOutside(_)
        | End::MisalignedAtomic(_) => {
            let access = access_of(inst_at(machine)?)?;
            let kind = match access.kind {
                AccessKind::Load => "load",
                AccessKind::Store => "store",
                AccessKind::LoadReserved => "lr",
                AccessKind::StoreConditional => "sc",
                AccessKind::Update => "amo",
            };
            Some(Failed {
                kind,
                bytes: access.bytes,
            })
        }
        _ => None,
    }
}

/// The instruction at pc.
fn inst_at<M: Memory>(machine: &Watched<M>) -> Option<Inst> {
    match spelled(bits_at(machine.memory(), machine.pc())) {
        Fetched::Got(inst, _) => Some(inst),
        Fetched::NoRight | Fetched::NoInstruction => None,
    }
}

/// Adds a register: its name, its value, that in decimal where it is small, and the symbol that it points into.
fn put_register<M: Memory>(
    text: &mut Vec<u8>,
    machine: &Watched<M>,
    places: &Places<'_>,
    reg: Reg,
) -> Result<(), AllocError> {
    let value = machine.register(reg);
    put_parts(
        text,
        &[
            Text("  "),
            Column(reg.abi_name().as_bytes(), 4),
            Fixed(value, 8),
            Small(value),
            Symbol(places.symbol_at(value)),
            Text("\n"),
        ],
    )
}

/// Adds a segment: its first address, the address after it, its rights, and what it holds.
fn put_bounds(text: &mut Vec<u8>, places: &Places<'_>, bounds: &Bounds) -> Result<(), AllocError> {
    let is_stack = bounds.start == STACK_START;
    put_parts(
        text,
        &[
            Text("  "),
            Fixed(bounds.start, 8),
            Text(" "),
            Fixed(bounds.end, 8),
            Text(" "),
            Text(rights(bounds.flags)),
            Text(if is_stack { " the stack" } else { "" }),
        ],
    )?;
    places.put_regions(text, bounds.start, bounds.end)?;
    put(text, "\n")
}

/// The rights of a segment to read, to write and to execute, as `r--`.
pub(crate) fn rights(flags: u32) -> &'static str {
    match flags % 8 {
        0 => "---",
        1 => "--x",
        2 => "-w-",
        3 => "-wx",
        4 => "r--",
        5 => "r-x",
        6 => "rw-",
        _ => "rwx",
    }
}

/// Adds the lines of the latest instructions, the last one at the end.
fn put_latest<M: Memory>(
    text: &mut Vec<u8>,
    machine: &Watched<M>,
    latest: &Latest,
    places: &Places<'_>,
) -> Result<(), AllocError> {
    put(text, "latest instructions\n")?;
    for number in 0..latest.shown() {
        let address = latest.address(number);
        put_place(text, machine, places, address)?;
        put_source(text, places, address)?;
    }
    Ok(())
}

/// Adds the line of the source that an instruction begins, where it begins one, and a line feed.
fn put_source(text: &mut Vec<u8>, places: &Places<'_>, address: u64) -> Result<(), AllocError> {
    if let Some(row) = places.row_at(address) {
        if places.begins_line(row, address) {
            return put_line(text, "  # ", places, row);
        }
    }
    put(text, "\n")
}
