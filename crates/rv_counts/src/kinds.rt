//! What instructions are for, and how many of each kind were executed.

ghost use Rattle.std.specs.Prelude.{◌≡◌, map};
ghost use Rattle.rv_isa.specs.Operations.{format_of};
ghost use Rattle.rv_counts.specs.Kinds.{instruction_kind, named_kinds, no_kinds, with_kind};

use rv_isa::{Format, Inst};

/// What an instruction is for.
#[derive(Clone, Copy, Drop)]
pub(crate) enum InstructionKind {
    Arithmetic,
    Load,
    Store,
    Atomic,
    Branch,
    Jump,
    Other,
}

/// How many instructions of each kind were executed.
#[derive(Clone, Copy, Drop)]
pub struct Kinds {
    pub arithmetic: u64,
    pub load: u64,
    pub store: u64,
    pub atomic: u64,
    pub branch: u64,
    pub jump: u64,
    pub other: u64,
}

/// The kind of an instruction.
#[inline(always)]
pub(crate) fn kind_of(inst: Inst) -> InstructionKind
    ensures { result ≡ instruction_kind (format_of inst) }
{
    match inst.format() {
        Format::Registers(_, _) => InstructionKind::Arithmetic,
        Format::Immediate(_, _) => InstructionKind::Arithmetic,
        Format::Shift(_, _) => InstructionKind::Arithmetic,
        Format::Upper(_, _) => InstructionKind::Arithmetic,
        Format::Load(_, _) => InstructionKind::Load,
        Format::Store(_, _) => InstructionKind::Store,
        Format::LoadReserved(_, _) => InstructionKind::Atomic,
        Format::Atomic(_, _, _) => InstructionKind::Atomic,
        Format::Branch(_, _) => InstructionKind::Branch,
        Format::Jal(_) => InstructionKind::Jump,
        Format::Jalr(_) => InstructionKind::Jump,
        Format::Fence(_) => InstructionKind::Other,
        Format::Ecall => InstructionKind::Other,
        Format::Ebreak => InstructionKind::Other,
    }
}

impl Kinds {
    /// Of no instruction.
    pub(crate) fn nothing() -> Self
        ensures { result ≡ no_kinds }
    {
        Kinds {
            arithmetic: 0,
            load: 0,
            store: 0,
            atomic: 0,
            branch: 0,
            jump: 0,
            other: 0,
        }
    }

    /// Counts one more of a kind.
    #[inline(always)]
    pub(crate) fn count(&mut self, kind: InstructionKind)
        ensures { self.new ≡ with_kind self.old kind }
    {
        match kind {
            InstructionKind::Arithmetic => self.arithmetic = self.arithmetic.saturating_add(1),
            InstructionKind::Load => self.load = self.load.saturating_add(1),
            InstructionKind::Store => self.store = self.store.saturating_add(1),
            InstructionKind::Atomic => self.atomic = self.atomic.saturating_add(1),
            InstructionKind::Branch => self.branch = self.branch.saturating_add(1),
            InstructionKind::Jump => self.jump = self.jump.saturating_add(1),
            InstructionKind::Other => self.other = self.other.saturating_add(1),
        }
    }

    /// Each kind by its name, in the order in which texts have them.
    pub fn named(&self) -> [(&'static str, u64); 7]
        ensures { map (λ k. (k.0.now, k.1)) result ≡ named_kinds self.now }
    {
        [
            ("arithmetic", self.arithmetic),
            ("load", self.load),
            ("store", self.store),
            ("atomic", self.atomic),
            ("branch", self.branch),
            ("jump", self.jump),
            ("other", self.other),
        ]
    }
}
