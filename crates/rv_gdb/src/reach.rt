//! What the next instruction reaches in memory.
//!
//! GDB takes a watchpoint of RISC-V for one that stops before the instruction that reads or writes, as the processors' own
//! do, on the way back before it is undone. So it is told by what an instruction asks, before it is done.

use rv_gdb_packets::{Range, Reach};
use rv_isa::{AtomicOperation, Format, Reg};
use rv_machine::{Fetched, Watched, bits_at as code_at, spelled};
use rv_memory::Paged;

/// The numbers of the registers in which a call has its operands, and of that which names it.
const A0: u32 = 10;

const A1: u32 = 11;

const A2: u32 = 12;

const A7: u32 = 17;

/// The calls that read input and write output.
const READ: u64 = 63;

const WRITE: u64 = 64;

/// Nothing.
const NOTHING: Reach = Reach {
    read: None,
    written: None,
};

/// The bytes of an atomic access.
fn atomic_bytes(is_double: bool) -> u64 {
    if is_double { 8 } else { 4 }
}

/// Bytes from a register and a distance on.
fn bytes_at(machine: &Watched<Paged>, base: Reg, distance: i32, length: u64) -> Range {
    let distance = i64::from(distance).cast_unsigned();
    Range {
        address: machine.register(base).wrapping_add(distance),
        length,
    }
}

/// What an instruction reaches by its format, where so many bytes of the input are left.
fn reach_of(format: Format, machine: &Watched<Paged>, input_left: u64) -> Reach {
    match format {
        Format::Load(operation, x) => Reach {
            read: Some(bytes_at(machine, x.rs1, x.immediate, operation.width())),
            written: None,
        },
        Format::Store(operation, x) => Reach {
            read: None,
            written: Some(bytes_at(machine, x.rs1, x.immediate, operation.width())),
        },
        Format::LoadReserved(is_double, x) => Reach {
            read: Some(bytes_at(machine, x.rs1, 0, atomic_bytes(is_double))),
            written: None,
        },
        Format::Atomic(operation, is_double, x) => {
            atomic_reach(
                operation,
                bytes_at(machine, x.rs1, 0, atomic_bytes(is_double)),
            )
        }
        Format::Ecall => call_reach(machine, input_left),
        _ => NOTHING,
    }
}

/// What an atomic operation reaches; a store-conditional reads nothing.
fn atomic_reach(operation: AtomicOperation, range: Range) -> Reach {
    match operation {
        AtomicOperation::Sc => Reach {
            read: None,
            written: Some(range),
        },
        _ => Reach {
            read: Some(range),
            written: Some(range),
        },
    }
}

/// What a call reaches: from a1 on as many bytes as a2 says, of the input no more than are left.
fn call_reach(machine: &Watched<Paged>, input_left: u64) -> Reach {
    let address = machine.register(Reg::from_low_bits(A1));
    let length = machine.register(Reg::from_low_bits(A2));
    let file = machine.register(Reg::from_low_bits(A0));
    match machine.register(Reg::from_low_bits(A7)) {
        READ if file == 0 => Reach {
            read: None,
            written: Some(Range {
                address,
                length: length.min(input_left),
            }),
        },
        WRITE if file == 1 || file == 2 => Reach {
            read: Some(Range { address, length }),
            written: None,
        },
        _ => NOTHING,
    }
}

/// What the next instruction of a machine reaches, where so many bytes of the input are left.
pub fn next_reach(machine: &Watched<Paged>, input_left: u64) -> Reach {
    match spelled(code_at(machine.memory(), machine.pc())) {
        Fetched::Got(inst, _) => reach_of(inst.format(), machine, input_left),
        Fetched::NoRight | Fetched::NoInstruction => NOTHING,
    }
}
