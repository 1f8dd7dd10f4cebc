//! The registers, as they are answered.

ghost use Rattle.std.specs.Prelude.{◌≡◌, ◌++◌, ◌<◌, OnOk, flat_map};
ghost use Rattle.rv_gdb_packets.specs.Digits.{value_digits};
ghost use Rattle.rv_gdb.specs.Shown.{register_or_pc, all_values};

use crate::beginning::REGISTERS;
use rv_gdb_packets::put_value;
use rv_isa::Reg;
use rv_machine::Watched;
use rv_memory::Paged;
use std::alloc::AllocError;

/// The number of pc, behind x0 to x31.
const PC: u32 = 32;

/// How many numbers there are.
const NUMBERS: u32 = REGISTERS as u32;

/// The value of a register by its number.
pub fn value_of(machine: &Watched<Paged>, number: u32) -> u64
    requires { number < 33 }
    ensures { result ≡ register_or_pc machine.now.hart number }
{
    if number == PC {
        machine.pc()
    } else {
        machine.register(Reg::from_low_bits(number))
    }
}

/// The values of all registers.
pub fn registers_of(machine: &Watched<Paged>) -> [u64; REGISTERS] {
    let mut registers = [0; REGISTERS];
    for number in 0..NUMBERS {
        registers[number as usize] = value_of(machine, number);
    }
    registers
}

/// Adds the values of all registers of a machine.
pub fn put_registers_of(reply: &mut Vec<u8>, machine: &Watched<Paged>) -> Result<(), AllocError>
    ensures { OnOk result (reply.new.items
        ≡ reply.old.items ++ flat_map value_digits (all_values machine.now.hart)) }
{
    for number in 0..NUMBERS {
        put_value(reply, value_of(machine, number))?;
    }
    Ok(())
}

/// Adds these values of all registers.
pub fn put_registers(reply: &mut Vec<u8>, registers: &[u64; REGISTERS]) -> Result<(), AllocError> {
    for value in registers {
        put_value(reply, *value)?;
    }
    Ok(())
}
