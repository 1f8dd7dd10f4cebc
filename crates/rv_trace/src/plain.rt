//! The instructions of a run, a line each, without what differs where a program only stands elsewhere.
//!
//! A line has the symbol, the mnemonic with its registers, the effects, and at the first instruction of a line of the source
//! that line: neither numbers of instructions and lines, nor immediates, of which many are parts of addresses. A number that
//! is an address of the program is shown by its place: in code the symbol, in data the symbol and the distance, in the stack the
//! distance from its end. The first of two instructions for an address, or for a number, shows no value, since it has a part alone.

ghost use Rattle.std.specs.Prelude.{⊤};

use crate::access::{Access, access_of};
use crate::columns::{fill_column, put, put_fixed, put_name};
use crate::parts::Part::{Column, Name, Text};
use crate::parts::put_parts;
use crate::places::Places;
use crate::report::{Bounds, Segments, rights};
use crate::trace::put_bytes;
use rv_event_laws::Setting;
use rv_image::{STACK_BYTES, STACK_START};
use rv_isa::{Format, Inst, Reg, mnemonic};
use rv_machine::{Fetched, Look, ShowFault, Span, Step, Watched, Watcher, destination_of};
use rv_map::put_hexadecimal;
use rv_memory::Memory;
use std::alloc::{AllocError, Global};
use std::io::Write;

/// The address after the stack.
const STACK_END: u64 = STACK_START + STACK_BYTES as u64;
/// The widths of the columns.
const SYMBOL: usize = 20;

const BEFORE_EFFECT: usize = 48;

const BEFORE_SOURCE: usize = 96;
/// The bytes of lines that are kept at most before they are written.
const KEPT: usize = 1 << 15;

/// An instruction that is executed.
#[derive(Clone, Copy, Drop)]
struct Opened {
    pc: u64,
    inst: Inst,
}

/// What is known of a program's addresses, and the segments that it has.
#[derive(Clone, Copy, Drop)]
struct Known<'a> {
    places: &'a Places<'a>,
    segments: &'a Segments,
}

/// Writes a plain line for each instruction from one on.
#[derive(Drop)]
pub struct PlainTrace<'a, L: Write> {
    known: Known<'a>,
    lines: &'a mut L,
    kept: Vec<u8>,
    /// The instruction that is executed and gets a line.
    open: Option<Opened>,
    /// The number of the first instruction that has a line, from 1.
    first: u64,
    /// How many instructions have begun.
    count: u64,
}

impl<'a, L: Write> PlainTrace<'a, L> {
    /// A trace of a run from its `first` instruction on, counted from 1.
    pub fn new(
        alloc: Global,
        places: &'a Places<'a>,
        segments: &'a Segments,
        lines: &'a mut L,
        first: u64,
    ) -> Self {
        PlainTrace {
            known: Known { places, segments },
            lines,
            kept: Vec::new(alloc),
            open: None,
            first,
            count: 0,
        }
    }

    /// Adds the line of an instruction that was not executed to its end, and writes what is kept.
    pub fn finish(&mut self) -> Result<(), ShowFault> {
        if let Some(opened) = self.open {
            self.open = None;
            let start = self.kept.len();
            put_code(&mut self.kept, self.known.places, &opened)?;
            put_source(&mut self.kept, start, self.known.places, opened.pc)?;
        }
        self.write_kept()
    }

    /// Writes the lines that are kept.
    fn write_kept(&mut self) -> Result<(), ShowFault> {
        let written = self.lines.write_all(self.kept.as_slice());
        self.kept.clear();
        match written {
            Ok(()) => Ok(()),
            Err(_) => Err(ShowFault::Unwritten),
        }
    }

    /// Adds the line of an instruction that was executed.
    fn put_step<M: Memory>(
        &mut self,
        opened: &Opened,
        step: &Step,
        machine: &Watched<M>,
    ) -> Result<(), AllocError> {
        let start = self.kept.len();
        put_code(&mut self.kept, self.known.places, opened)?;
        put_effects(
            &mut self.kept,
            start,
            &self.known,
            (opened.inst, step),
            machine,
        )?;
        put_source(&mut self.kept, start, self.known.places, opened.pc)
    }
}

impl<M: Memory, L: Write> Watcher<M> for PlainTrace<'_, L> {
    // what the lines say of the events is tested
    ghost has_seen = { λ _ _. ⊤ };

    #[inline]
    fn before(&mut self, look: &Look, _: &Watched<M>) -> Result<(), ShowFault> {
        self.count = self.count.saturating_add(1);
        if self.count < self.first {
            return Ok(());
        }
        let Fetched::Got(inst, _) = look.fetched() else {
            return Ok(());
        };
        let is_call = matches!(&inst, Inst::Ecall);
        self.open = Some(Opened { pc: look.pc, inst });
        if is_call {
            return self.write_kept();
        }
        Ok(())
    }

    #[inline]
    fn after(&mut self, step: &Step, machine: &Watched<M>) -> Result<(), ShowFault> {
        // the line of an instruction that ended the run is the last
        if step.end().is_some() {
            return Ok(());
        }
        let Some(opened) = self.open else {
            return Ok(());
        };
        self.open = None;
        self.put_step(&opened, step, machine)?;
        if self.kept.len() >= KEPT {
            return self.write_kept();
        }
        Ok(())
    }
}

/// Adds the symbol of an instruction, and its mnemonic with its registers.
fn put_code(text: &mut Vec<u8>, places: &Places<'_>, opened: &Opened) -> Result<(), AllocError> {
    let symbol = match places.symbol_at(opened.pc) {
        Some(near) => near.name,
        None => b"",
    };
    put_parts(text, &[Column(symbol, SYMBOL), Text(mnemonic(opened.inst))])?;
    put_registers(text, opened.inst)
}

/// Adds the registers of an instruction, behind a blank.
fn put_registers(text: &mut Vec<u8>, inst: Inst) -> Result<(), AllocError> {
    let mut sign = " ";
    for register in registers_of(inst) {
        if let Some(register) = register {
            put_parts(text, &[Text(sign), Text(register.abi_name())])?;
            sign = ",";
        }
    }
    Ok(())
}

/// The registers of an instruction in the order of its operands.
fn registers_of(inst: Inst) -> [Option<Reg>; 3] {
    match inst.format() {
        Format::Registers(_, x) => [Some(x.rd), Some(x.rs1), Some(x.rs2)],
        Format::Immediate(_, x) => [Some(x.rd), Some(x.rs1), None],
        Format::Shift(_, x) => [Some(x.rd), Some(x.rs1), None],
        Format::Upper(_, x) => [Some(x.rd), None, None],
        Format::Load(_, x) => [Some(x.rd), Some(x.rs1), None],
        Format::Store(_, x) => [Some(x.rs2), Some(x.rs1), None],
        Format::Branch(_, x) => [Some(x.rs1), Some(x.rs2), None],
        Format::Jal(x) => [Some(x.rd), None, None],
        Format::Jalr(x) => [Some(x.rd), Some(x.rs1), None],
        Format::LoadReserved(_, x) => [Some(x.rd), Some(x.rs1), None],
        Format::Atomic(_, _, x) => [Some(x.rd), Some(x.rs2), Some(x.rs1)],
        Format::Fence(_) | Format::Ecall | Format::Ebreak => [None, None, None],
    }
}

/// Adds what an instruction wrote, and where it loaded or stored, to a line that began at an offset.
fn put_effects<M: Memory>(
    text: &mut Vec<u8>,
    start: usize,
    known: &Known<'_>,
    executed: (Inst, &Step),
    machine: &Watched<M>,
) -> Result<(), AllocError> {
    let (inst, step) = executed;
    let is_part = sets_part(&inst);
    let access = access_of(inst);
    let mut width = BEFORE_EFFECT;
    if let Some(setting) = step.set_in(destination_of(inst), machine.hart()) {
        fill_column(text, start, width)?;
        put_set(text, known, is_part, &setting)?;
        width = 0;
    }
    if let Some(access) = &access {
        put_access(text, (start, width), known, access, step)?;
    }
    if step.taken().count > 0 {
        fill_column(text, start, width)?;
        return put_taken(text, known, step.taken(), machine.memory());
    }
    Ok(())
}

/// Whether an instruction sets the upper part of a value alone.
fn sets_part(inst: &Inst) -> bool {
    matches!((*inst).format(), Format::Upper(_, _))
}

/// Adds where the input that a call took stands, and its bytes.
fn put_taken<M: Memory>(
    text: &mut Vec<u8>,
    known: &Known<'_>,
    taken: Span,
    memory: &M,
) -> Result<(), AllocError> {
    put_address(text, known, taken.address)?;
    put(text, " <-")?;
    put_bytes(text, taken, memory)
}

/// Adds a register that an instruction set, and its value; of a part of one that it is one.
fn put_set(
    text: &mut Vec<u8>,
    known: &Known<'_>,
    is_part: bool,
    setting: &Setting,
) -> Result<(), AllocError> {
    put_parts(text, &[Text(setting.register.abi_name()), Text(" <- ")])?;
    if is_part {
        return put(text, "part");
    }
    put_value(text, known, setting.value, 8)
}

/// Adds where an instruction loaded or stored, and what is stored there, in a column.
fn put_access(
    text: &mut Vec<u8>,
    column: (usize, usize),
    known: &Known<'_>,
    access: &Access,
    step: &Step,
) -> Result<(), AllocError> {
    let Some(told) = access.told_by(step) else {
        return Ok(());
    };
    fill_column(text, column.0, column.1)?;
    put_address(text, known, told.address)?;
    if access.stores() {
        put(text, " <- ")?;
        put_value(text, known, told.number, told.bytes)?;
    }
    Ok(())
}

/// Adds an address in brackets.
fn put_address(text: &mut Vec<u8>, known: &Known<'_>, address: u64) -> Result<(), AllocError> {
    put(text, "[")?;
    put_value(text, known, address, 8)?;
    put(text, "]")
}

/// Adds a number of this many bytes, by its place where it is an address of the program.
fn put_value(
    text: &mut Vec<u8>,
    known: &Known<'_>,
    value: u64,
    bytes: u64,
) -> Result<(), AllocError> {
    if STACK_START <= value && value <= STACK_END {
        put(text, "stack")?;
        return put_distance(text, "-0x", STACK_END.wrapping_sub(value));
    }
    // a pointer behind the last byte belongs to what it is behind
    let before = value.saturating_sub(1);
    if let Some(bounds) = known.segments.at(value) {
        return put_inside(text, known.places, bounds, (value, value));
    }
    if let Some(bounds) = known.segments.at(before) {
        return put_inside(text, known.places, bounds, (before, value));
    }
    match known.places.bound_at(value) {
        Some(name) => put_name(text, name),
        None => put_fixed(text, value, bytes),
    }
}

/// Adds an address of a segment that has the first of these two, which are the same, or one behind the other.
fn put_inside(
    text: &mut Vec<u8>,
    places: &Places<'_>,
    bounds: &Bounds,
    addresses: (u64, u64),
) -> Result<(), AllocError> {
    let (inside, address) = addresses;
    let part = match places.region_of(inside) {
        Some(region) => region,
        None => (rights(bounds.flags), bounds.start),
    };
    let start = match places.symbol_at(inside) {
        Some(near) => {
            text.extend_from_slice(near.name)?;
            inside.wrapping_sub(near.distance)
        }
        None => {
            put(text, part.0)?;
            part.1
        }
    };
    if bounds.flags % 2 == 1 {
        return Ok(());
    }
    put_distance(text, "+0x", address.wrapping_sub(start))
}

/// Adds a distance behind its sign, where it is not 0.
fn put_distance(text: &mut Vec<u8>, sign: &str, distance: u64) -> Result<(), AllocError> {
    if distance == 0 {
        return Ok(());
    }
    put(text, sign)?;
    put_hexadecimal(text, distance)
}

/// Adds the source that an address begins, and a line feed, to a line that began at an offset.
fn put_source(
    text: &mut Vec<u8>,
    start: usize,
    places: &Places<'_>,
    pc: u64,
) -> Result<(), AllocError> {
    if let Some(row) = places.row_at(pc) {
        let line = places.line(row.file, row.line);
        if places.begins_line(row, pc) && !line.is_empty() {
            fill_column(text, start, BEFORE_SOURCE)?;
            return put_parts(text, &[Text("# "), Name(line), Text("\n")]);
        }
    }
    put(text, "\n")
}
