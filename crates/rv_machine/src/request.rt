//! Loads and stores that another answers in a memory's place.
//!
//! A run ends where memory refuses an access, before the instruction. Who knows a device there sees what the instruction
//! asks, answers it, and lets the machine go on behind it. So an access that memory allows never comes here, and the
//! quick path pays nothing.
//!
//! Source: RISC-V Unprivileged ISA 20191213, section 2.6.

ghost use Rattle.std.specs.Prelude.{◌≡◌, ℕ, List, true};
ghost use Rattle.rv_parcel.specs.Parcel.{StandsFor};
ghost use Rattle.rv_isa_laws.specs.Word.{Spells};
ghost use Rattle.rv_isa_laws.specs.Hart.{advanced};
ghost use Rattle.rv_isa_laws.specs.Meaning.{with_result};
ghost use Rattle.rv_isa_laws.specs.Reader.{Reader};
ghost use Rattle.rv_isa_laws.specs.Run.{fetch as fetched_at};
ghost use Rattle.rv_memory.specs.Rights.{IsWidth};
ghost use Rattle.rv_machine.specs.Hart.{hart_of};
ghost use Rattle.rv_machine.specs.Request.{IsRequest, answered, in_action};

use crate::action::{Action, Load, Store, asked};
use crate::event::low_bytes;
use crate::fetch::{Fetched, fetch};
use crate::hart::Hart;
use crate::watching::Watched;
use crate::{access, alu};
use rv_memory::Memory;

/// What a load or a store asks, before memory is looked at, and the length of its instruction in bytes, 2 or 4.
#[derive(Clone, Copy, Drop)]
pub enum Request {
    Load(Load, u64),
    Store(Store, u64),
}

/// The request that an action is, of an instruction of so many bytes.
fn request_of(action: Action, length: u64) -> Option<Request>
    ensures { result ≡ in_action action length }
{
    match action {
        Action::Load(load) => Some(Request::Load(load, length)),
        Action::Store(store) => Some(Request::Store(store, length)),
        Action::Set(_, _) | Action::Jump(_, _) | Action::Go(_) => None,
        Action::Reserve(_) | Action::Conditional(_) => None,
        Action::UpdateWord(_) | Action::UpdateDouble(_) => None,
        Action::Call | Action::Break => None,
    }
}

/// What a load's register gets where a number answers it, of which its low bytes count.
fn answer_of(load: Load, number: u64) -> u64
    requires { IsWidth load.bytes }
    ensures { result ≡ answered load number }
{
    let low = low_bytes(number, load.bytes);
    if !load.signed {
        return low;
    }
    match load.bytes {
        1 => alu::extended_8(low as u8),
        2 => alu::extended_16(low as u16),
        4 => alu::extended(low as u32),
        _ => low,
    }
}

impl<M: Memory> Watched<M> {
    /// What the instruction at pc asks, where it is a load or a store.
    pub fn request(&self) -> Option<Request>
        ensures { (reader : Reader Spells StandsFor) (input console : List ℕ) →
            let now = hart_of self.now.hart input console in
            IsRequest result (fetched_at reader (M.mem self.now.memory) now.pc) now }
    {
        match fetch(&self.memory, self.hart.pc) {
            Fetched::Got(inst, length) => {
                let action = asked(inst, length, &self.hart);
                request_of(action, length)
            }
            Fetched::NoRight => None,
            Fetched::NoInstruction => None,
        }
    }

    /// Answers a load of an instruction of `length` bytes by a number: its register gets the low bytes of it, with or
    /// without sign, and the hart goes behind the instruction.
    pub fn answer_load(&mut self, load: Load, length: u64, number: u64)
        requires { IsWidth load.bytes }
        ensures hart { (input console : List ℕ) →
            hart_of self.new.hart input console
            ≡ with_result length (hart_of self.old.hart input console) load.rd
            (answered load number) }
        ensures memory { M.mem self.new.memory ≡ M.mem self.old.memory }
        ensures ended { self.new.intake.ended ≡ self.old.intake.ended }
    {
        access::set(&mut self.hart, load.rd, answer_of(load, number), length);
    }

    /// Answers a store of an instruction of `length` bytes, of which memory knows nothing: the hart goes behind it.
    pub fn answer_store(&mut self, length: u64)
        ensures hart { (input console : List ℕ) →
            hart_of self.new.hart input console
            ≡ advanced (hart_of self.old.hart input console) length }
        ensures memory { M.mem self.new.memory ≡ M.mem self.old.memory }
        ensures ended { self.new.intake.ended ≡ self.old.intake.ended }
    {
        self.hart.pc = self.hart.pc.wrapping_add(length);
    }

    /// Notes that a take of the input gave nothing, so that the machine takes no more.
    pub fn end_input(&mut self)
        ensures hart { self.new.hart ≡ self.old.hart }
        ensures memory { M.mem self.new.memory ≡ M.mem self.old.memory }
        ensures ended { self.new.intake.ended ≡ true }
    {
        self.intake.ended = true;
    }
}
