//! The names of instructions.

ghost use Rattle.std.specs.Prelude.{◌≡◌};
ghost use Rattle.rv_isa.specs.Mnemonics.{mnemonic_text};

use crate::instruction::{Format, Inst};

/// The instruction's mnemonic in lower case, an atomic's without `.aq` and `.rl`.
pub fn mnemonic(inst: Inst) -> &'static str
    ensures { result.now ≡ mnemonic_text inst }
{
    match inst.format() {
        Format::Registers(operation, _) => operation.name(),
        Format::Immediate(operation, _) => operation.name(),
        Format::Shift(operation, _) => operation.name(),
        Format::Upper(operation, _) => operation.name(),
        Format::Load(operation, _) => operation.name(),
        Format::Store(operation, _) => operation.name(),
        Format::Branch(operation, _) => operation.name(),
        Format::Jal(_) => "jal",
        Format::Jalr(_) => "jalr",
        Format::LoadReserved(true, _) => "lr.d",
        Format::LoadReserved(false, _) => "lr.w",
        Format::Atomic(operation, double, _) => operation.name(double),
        Format::Fence(_) => "fence",
        Format::Ecall => "ecall",
        Format::Ebreak => "ebreak",
    }
}
