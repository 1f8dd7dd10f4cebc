//! Which branches are taken, which jumps are calls, and what begins an address.
//!
//! Source: RISC-V Unprivileged ISA 20191213, section 2.5.

ghost use Rattle.std.specs.Prelude.{◌≡◌};
ghost use Rattle.rv_isa.specs.Operations.{format_of};
ghost use Rattle.rv_isa_laws.specs.Arithmetic.{less_signed as less_signed_by};
ghost use Rattle.rv_isa_laws.specs.Meaning.{is_taken as is_taken_by};
ghost use Rattle.rv_machine.specs.Fetch.{fetched_of};
ghost use Rattle.rv_counts.specs.Counted.{is_branching, is_calling, is_link as is_link_by, is_spelled};
ghost use Rattle.rv_counts.specs.Depth.{is_upper};

use crate::registers::ToldRegisters;
use rv_isa::{BranchOperation, Format, Inst, Reg};
use rv_machine::Fetched;

#[inline]
fn less_signed(a: u64, b: u64) -> bool
    ensures { result ≡ less_signed_by a b }
{
    a.cast_signed() < b.cast_signed()
}

/// Whether a branch of two values is taken.
#[inline]
fn is_taken(operation: BranchOperation, a: u64, b: u64) -> bool
    ensures { result ≡ is_taken_by operation a b }
{
    match operation {
        BranchOperation::Beq => a == b,
        BranchOperation::Bne => a != b,
        BranchOperation::Blt => less_signed(a, b),
        BranchOperation::Bge => !less_signed(a, b),
        BranchOperation::Bltu => a < b,
        BranchOperation::Bgeu => a >= b,
    }
}

/// Whether a jump that leaves its return address in this register is a call (ISA, table 2.1).
#[inline]
fn is_link(register: Reg) -> bool
    ensures { result ≡ is_link_by register }
{
    register.number() == 1 || register.number() == 5
}

/// What the format of an instruction, and the registers before it, tell of its step.
#[derive(Clone, Copy, Drop)]
pub(crate) struct Turn {
    /// It is a branch that is taken.
    pub taken: bool,
    /// It is a call.
    pub calling: bool,
    /// It is the first of two instructions for an address: what is in the register after it is none yet.
    pub begun: bool,
}

impl Turn {
    /// Of an instruction that is none of these.
    const NONE: Self = Turn {
        taken: false,
        calling: false,
        begun: false,
    };
}

/// That of an instruction.
#[inline]
fn turn_of(inst: Inst, registers: &ToldRegisters) -> Turn
    ensures { let f = format_of inst in result
        ≡ record {
          taken = is_branching registers.now.values f;
          calling = is_calling f;
          begun = is_upper f;
        } }
{
    match inst.format() {
        Format::Branch(operation, x) => Turn {
            taken: is_taken(operation, registers.get(x.rs1), registers.get(x.rs2)),
            ..Turn::NONE
        },
        Format::Jal(x) => Turn {
            calling: is_link(x.rd),
            ..Turn::NONE
        },
        Format::Jalr(x) => Turn {
            calling: is_link(x.rd),
            ..Turn::NONE
        },
        Format::Upper(_, _) => Turn {
            begun: true,
            ..Turn::NONE
        },
        _ => Turn::NONE,
    }
}

/// That of what was fetched.
#[inline]
pub(crate) fn turn_at(fetched: &Fetched, registers: &ToldRegisters) -> Turn
    ensures { let f = fetched_of fetched.now in result
        ≡ record {
          taken = is_spelled (λ i. is_branching registers.now.values (format_of i)) f;
          calling = is_spelled (λ i. is_calling (format_of i)) f;
          begun = is_spelled (λ i. is_upper (format_of i)) f;
        } }
{
    match *fetched {
        Fetched::Got(inst, _) => turn_of(inst, registers),
        Fetched::NoRight | Fetched::NoInstruction => Turn::NONE,
    }
}
