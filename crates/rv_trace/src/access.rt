//! What instructions read and write, from their operands.
//!
//! Source: RISC-V Unprivileged ISA 20191213, sections 2.5, 2.6, 8.2 and 8.4.

ghost use Rattle.std.specs.Prelude.{◌≡◌};
ghost use Rattle.rv_trace.specs.Shown.{shown_bytes, stores};

use rv_event_laws::Access as Told;
use rv_isa::{AtomicOperation, Format, Inst, Reg};
use rv_machine::Step;

/// What an instruction does with memory.
#[derive(Clone, Copy, Drop)]
pub(crate) enum AccessKind {
    Load,
    Store,
    LoadReserved,
    StoreConditional,
    /// An atomic memory operation: it loads and stores.
    Update,
}

/// An access of an instruction: what it is and how many bytes it has.
#[derive(Clone, Copy, Drop)]
pub(crate) struct Access {
    pub kind: AccessKind,
    pub bytes: u64,
}

impl Access {
    /// The bytes that a line shows of a step: those written of what stores, else those read.
    #[inline]
    pub(crate) fn told_by(&self, step: &Step) -> Option<Told>
        ensures { result ≡ shown_bytes self.now.kind step.now }
    {
        if self.stores() {
            step.stored()
        } else {
            step.read()
        }
    }

    /// Whether it writes memory.
    #[inline]
    pub(crate) fn stores(&self) -> bool
        ensures { result ≡ stores self.now.kind }
    {
        !matches!(self.kind, AccessKind::Load | AccessKind::LoadReserved)
    }

    /// The hexadecimal digits of what it loads or stores.
    #[inline]
    pub(crate) fn digits(&self) -> usize {
        (self.bytes.min(8) * 2) as usize
    }
}

/// The access of an instruction, where it has one.
pub(crate) fn access_of(inst: Inst) -> Option<Access> {
    let (kind, bytes) = match inst.format() {
        Format::Load(operation, _) => (AccessKind::Load, operation.width()),
        Format::Store(operation, _) => (AccessKind::Store, operation.width()),
        Format::LoadReserved(double, _) => (AccessKind::LoadReserved, width(double)),
        Format::Atomic(AtomicOperation::Sc, double, _) => {
            (AccessKind::StoreConditional, width(double))
        }
        Format::Atomic(_, double, _) => (AccessKind::Update, width(double)),
        _ => return None,
    };
    Some(Access { kind, bytes })
}

fn width(double: bool) -> u64 {
    if double { 8 } else { 4 }
}

/// The register that an instruction writes, where it writes one; x0 takes no value. A call of the environment writes a0.
pub(crate) fn destination(inst: Inst) -> Option<Reg> {
    let rd = match inst.format() {
        Format::Registers(_, x) => x.rd,
        Format::Immediate(_, x) => x.rd,
        Format::Shift(_, x) => x.rd,
        Format::Upper(_, x) => x.rd,
        Format::Load(_, x) => x.rd,
        Format::Jal(x) => x.rd,
        Format::Jalr(x) => x.rd,
        Format::LoadReserved(_, x) => x.rd,
        Format::Atomic(_, _, x) => x.rd,
        Format::Ecall => Reg::from_low_bits(10),
        _ => return None,
    };
    if rd.number() == 0 { None } else { Some(rd) }
}
