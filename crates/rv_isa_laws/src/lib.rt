//! What instructions mean: their words, hart, memory with rights, environment calls, and the run of a machine over its memory.
//!
//! It takes the instructions of `rv_isa` and gives definitions: `Spells`, which word an instruction has; `effect`, what an
//! instruction asks of hart and memory; `apply`, what comes of it; and `fetch`, `step` and `run`. Nothing here runs.
//!
//! Main contract: `effect_keeps`, the law that whatever an instruction goes on with has input and console as before,
//! registers in range, and a pc below 2^64. A run must not know how words and parcels spell instructions (a
//! `Reader` is its parameter), and nothing here knows sources and files.
//!
//! ```text
//! effect i bytes h                -- what instruction i of that many bytes asks at hart h
//! apply (effect i bytes h) m      -- On the hart and the memory after it, or Over with how the run ended
//! step reader h m                 -- fetch at the pc, then the same
//! run reader n h m                -- at most n steps
//! machine_run reader m entry input n
//! ```
//!
//! Source: RISC-V Unprivileged ISA 20191213, sections 1.5, 2.2 and 16.1, chapters 2, 5, 7, 8 and 24.
#![tactic(auto)]

mod edges;

ghost use Rattle.std.specs.Prelude.{ℕ};
ghost use Rattle.rv_isa.specs.declared.instruction.Inst.{Inst};
ghost use Rattle.rv_isa_laws.specs.Hart.{Hart};
ghost use Rattle.rv_isa_laws.specs.Kept.{GoesOn, Kept};
ghost use Rattle.rv_isa_laws.specs.Meaning.{effect};

pub use edges::{
    division_by_zero, division_out_of_range, worked_products, worked_shifts, worked_words,
};

/// Whatever an instruction goes on with has the input and the console of the hart before, registers
/// in range where those before were, and a pc below 2^64.
pub fn effect_keeps()
    ensures { (i : Inst) (bytes : ℕ) (h : Hart) → GoesOn (Kept h) (effect i bytes h) }
{}
