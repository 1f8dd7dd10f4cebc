//! What a step did, as a watcher is told it.
//!
//! What a step reads and writes is looked up before it is done, the register that it sets after it. A watcher is lent a
//! [`Step`], which stands for the step's event: what it does not ask of it costs it nothing.

ghost use Rattle.std.specs.Prelude.{◌≡◌, ℕ, List, ◌*◌, ◌%◌, ◌^◌, true, Some, None, if◌then◌else◌, ◌-◌, length, take, drop};
ghost use Rattle.rv_isa_laws.specs.Word.{Spells};
ghost use Rattle.rv_parcel.specs.Parcel.{StandsFor};
ghost use Rattle.rv_isa.specs.Operations.{format_of};
ghost use Rattle.rv_isa_laws.specs.Arithmetic.{low};
ghost use Rattle.rv_isa_laws.specs.Effect.{Updates, On, Over, apply};
ghost use Rattle.rv_isa_laws.specs.Hart as laws;
ghost use Rattle.rv_isa_laws.specs.Memory.{Mem, may, number_at, Read as ToRead};
ghost use Rattle.rv_isa_laws.specs.Reader.{Reader};
ghost use Rattle.rv_isa_laws.specs.Run.{Fetched as laws_fetched, done};
ghost use Rattle.rv_memory.specs.Rights.{IsWidth};
ghost use Rattle.rv_machine.specs.Action.{effect_of, HasWidth, of_word, of_double};
ghost use Rattle.rv_machine.specs.Asked.{Asks, HasWidths};
ghost use Rattle.rv_machine.specs.declared.hart.Hart.{Hart as AHart};
ghost use Rattle.rv_machine.specs.End.{law_end};
ghost use Rattle.rv_event_laws.specs.Event.{access, asks, destination, set_to, sets, event_of};
ghost use Rattle.rv_machine.specs.Fetch.{fetched_of, spelled_at};
ghost use Rattle.rv_machine.specs.Hart.{hart_of};
ghost use Rattle.rv_machine.specs.Registers.{register_value};
ghost use Rattle.rv_machine.specs.Seen.{AreSeen, AreMoved, event_as, event_by, set_of};

use crate::action::{Action, Update};
use crate::alu;
use crate::asking::Asked;
use crate::end::End;
use crate::fetch::{Fetched, Look};
use crate::hart::Hart;
use rv_event_laws::{Access, Setting};
use rv_isa::{Format, Inst, Reg};
use rv_memory::{Memory, Right};

/// Bytes of memory: the first's address, and how many.
#[derive(Clone, Copy, Drop)]
pub struct Span {
    pub address: u64,
    pub count: u64,
}

impl Span {
    /// No bytes.
    pub(crate) const NONE: Self = Span {
        address: 0,
        count: 0,
    };
}

/// What a step did.
#[derive(Clone, Copy, Drop)]
pub struct Event {
    /// The address of the instruction.
    pub pc: u64,
    /// What stands there.
    pub fetched: Fetched,
    pub read: Option<Access>,
    /// The bytes written; none of an `sc` that failed.
    pub stored: Option<Access>,
    pub set: Option<Setting>,
    /// The input that a call took, where it stands now.
    pub taken: Span,
    /// The bytes that a call put onto the console.
    pub put: Span,
    /// How the step ended the run.
    pub end: Option<End>,
}

/// What an instruction reads and writes, if it goes on.
#[derive(Clone, Copy, Drop)]
pub struct Accesses {
    pub read: Option<Access>,
    pub stored: Option<Access>,
}

/// The bytes that a call moved.
#[derive(Clone, Copy, Drop)]
pub(crate) struct Moved {
    pub taken: Span,
    pub put: Span,
}

/// What a step did, as a watcher is lent it: what it wants of it, it asks.
#[derive(Clone, Copy, Drop)]
pub struct Step {
    pub(crate) look: Look,
    pub(crate) accesses: Accesses,
    pub(crate) moved: Moved,
    pub(crate) end: Option<End>,
}

impl Accesses {
    /// None.
    pub(crate) const NONE: Self = Accesses {
        read: None,
        stored: None,
    };
}

impl Moved {
    /// None.
    pub(crate) const NONE: Self = Moved {
        taken: Span::NONE,
        put: Span::NONE,
    };
}

/// What a step came to.
#[derive(Clone, Copy, Drop)]
pub(crate) enum Stepped {
    /// The hart goes on.
    Went(Accesses, Moved),
    Ended(End),
}

/// The low bytes of a number.
#[inline]
pub(crate) fn low_bytes(value: u64, bytes: u64) -> u64
    requires { IsWidth bytes }
    ensures { result ≡ value % 2 ^ (8 * bytes) }
{
    match bytes {
        1 => value % 0x100,
        2 => value % 0x1_0000,
        4 => value % 0x1_0000_0000,
        _ => value,
    }
}

/// The number at an address, if it may be read.
#[inline]
fn readable<M: Memory>(memory: &M, address: u64, bytes: u64) -> Option<Access>
    requires { IsWidth bytes }
    ensures { may (M.mem memory.now) address bytes ToRead ≡ true
        → result ≡ Some (access address bytes (number_at (M.mem memory.now) address bytes)) }
{
    match memory.try_load(address, bytes, Right::Read) {
        Some(number) => Some(Access {
            address,
            bytes,
            number,
        }),
        None => None,
    }
}

/// What is stored, if anything is.
#[inline]
fn stored_if(stores: bool, address: u64, bytes: u64, value: u64) -> Option<Access>
    requires { IsWidth bytes }
    ensures { result ≡ (if stores then Some (access address bytes (value % 2 ^ (8 * bytes))) else None) }
{
    if stores {
        Some(Access {
            address,
            bytes,
            number: low_bytes(value, bytes),
        })
    } else {
        None
    }
}

/// What an atomic operation on 32 bits reads and writes, which `width` bytes are.
#[inline]
fn of_update_word<M: Memory>(memory: &M, x: Update, width: u64) -> Accesses
    requires { IsWidth width }
    ensures { (next : ℕ → laws.Hart) →
        let new : ℕ → ℕ = λ old. of_word x.operation (low old) (low x.value) in
        let effect = Updates x.address width new next in
        AreSeen (apply effect (M.mem memory.now)) effect (M.mem memory.now) result }
{
    let Some(read) = readable(memory, x.address, width) else {
        return Accesses {
            read: None,
            stored: None,
        };
    };
    let new = x
        .operation
        .of_word(alu::low(read.number), alu::low(x.value));
    Accesses {
        read: Some(read),
        stored: stored_if(true, x.address, width, u64::from(new)),
    }
}

/// What an atomic operation on 64 bits reads and writes, which `width` bytes are.
#[inline]
fn of_update_double<M: Memory>(memory: &M, x: Update, width: u64) -> Accesses
    requires { IsWidth width }
    ensures { (next : ℕ → laws.Hart) →
        let new : ℕ → ℕ = λ old. of_double x.operation old x.value in
        let effect = Updates x.address width new next in
        AreSeen (apply effect (M.mem memory.now)) effect (M.mem memory.now) result }
{
    let Some(read) = readable(memory, x.address, width) else {
        return Accesses {
            read: None,
            stored: None,
        };
    };
    let new = x.operation.of_double(read.number, x.value);
    Accesses {
        read: Some(read),
        stored: stored_if(true, x.address, width, new),
    }
}

/// What an action reads and writes, if it goes on.
#[inline]
fn accesses_of<M: Memory>(action: Action, memory: &M) -> Accesses
    requires { HasWidth action }
    ensures { (bytes : ℕ) (h : laws.Hart) →
        AreSeen (apply (effect_of action bytes h) (M.mem memory.now)) (effect_of action bytes h)
        (M.mem memory.now) result }
{
    match action {
        Action::Load(x) => Accesses {
            read: readable(memory, x.address, x.bytes),
            stored: None,
        },
        Action::Store(x) => Accesses {
            read: None,
            stored: stored_if(true, x.address, x.bytes, x.value),
        },
        Action::Reserve(x) => Accesses {
            read: readable(memory, x.address, x.bytes),
            stored: None,
        },
        Action::Conditional(x) => Accesses {
            read: None,
            stored: stored_if(x.reserved, x.address, x.bytes, x.value),
        },
        Action::UpdateWord(x) => of_update_word(memory, x, 4),
        Action::UpdateDouble(x) => of_update_double(memory, x, 8),
        _ => Accesses {
            read: None,
            stored: None,
        },
    }
}

/// What was asked reads and writes, if the step goes on.
#[inline(always)]
fn accesses_asked<M: Memory>(asked: Asked, memory: &M) -> Accesses
    requires { HasWidths asked }
    ensures { (f : laws_fetched) (hart : AHart) (input console : List ℕ) → Asks f hart asked →
        let before = hart_of hart input console in
        AreSeen (done f before (M.mem memory.now)) (asks f before) (M.mem memory.now) result }
{
    match asked {
        Asked::Got(action, _) => accesses_of(action, memory),
        Asked::NoRight | Asked::NoInstruction => Accesses::NONE,
    }
}

/// The same of what is used again.
#[inline(always)]
pub(crate) fn accesses_by<M: Memory>(asked: &Asked, memory: &M) -> Accesses
    requires { HasWidths asked.now }
    ensures { (f : laws_fetched) (hart : AHart) (input console : List ℕ) → Asks f hart asked.now →
        let before = hart_of hart input console in
        AreSeen (done f before (M.mem memory.now)) (asks f before) (M.mem memory.now) result }
{
    accesses_asked(*asked, memory)
}

/// The register that an instruction sets; x0 where it sets none.
pub fn destination_of(inst: Inst) -> Reg
    ensures { result ≡ destination (format_of inst) }
{
    match inst.format() {
        Format::Registers(_, x) => x.rd,
        Format::Immediate(_, x) => x.rd,
        Format::Shift(_, x) => x.rd,
        Format::Upper(_, x) => x.rd,
        Format::Load(_, x) => x.rd,
        Format::Jal(x) => x.rd,
        Format::Jalr(x) => x.rd,
        Format::LoadReserved(_, x) => x.rd,
        Format::Atomic(_, _, x) => x.rd,
        Format::Ecall => Reg::from_low_bits(10),
        Format::Store(_, _) | Format::Branch(_, _) | Format::Fence(_) | Format::Ebreak => Reg::ZERO,
    }
}

/// The register that what was fetched sets; x0 where it sets none.
fn set_by(fetched: &Fetched) -> Reg
    ensures { result ≡ sets (fetched_of fetched.now) }
{
    match *fetched {
        Fetched::Got(inst, _) => destination_of(inst),
        Fetched::NoRight | Fetched::NoInstruction => Reg::ZERO,
    }
}

/// A register that was set, with its value; none of x0.
#[inline]
fn setting_of(register: Reg, hart: &Hart) -> Option<Setting>
    ensures { result ≡ set_to register (register_value hart.now.registers register) }
{
    if register == Reg::ZERO {
        return None;
    }
    Some(Setting {
        register,
        value: hart.registers.get(register),
    })
}

impl Step {
    /// One that went on.
    #[inline(always)]
    pub(crate) fn went_on(look: Look, accesses: Accesses, moved: Moved) -> Self
        ensures look { result.look ≡ look }
        ensures event { (f : laws_fetched) (h : laws.Hart) (m : Mem) (hart : AHart) (input console : List ℕ) (m' : Mem) →
            look.pc ≡ h.pc → AreSeen (done f h m) (asks f h) m accesses
            → done f h m ≡ On (hart_of hart input console) m'
            → AreMoved moved (take (length h.input - length input) h.input)
            (drop (length h.console) console) m'
            → event_by f result hart m' ≡ event_of f h m }
    {
        Step {
            look,
            accesses,
            moved,
            end: None,
        }
    }

    /// One that ended the run.
    #[inline(always)]
    pub(crate) fn ended(look: Look, end: End) -> Self
        ensures look { result.look ≡ look }
        ensures event { (f : laws_fetched) (h : laws.Hart) (m : Mem) (hart : AHart) (m' : Mem) →
            look.pc ≡ h.pc → done f h m ≡ Over (law_end end)
            → event_by f result hart m' ≡ event_of f h m }
    {
        Step {
            look,
            accesses: Accesses::NONE,
            moved: Moved::NONE,
            end: Some(end),
        }
    }

    /// The address of the instruction.
    #[inline]
    pub fn pc(&self) -> u64
        ensures { result ≡ self.now.look.pc }
    {
        self.look.pc
    }

    /// The bits that stand there.
    #[inline]
    pub fn bits(&self) -> Option<u32>
        ensures { result ≡ self.now.look.bits }
    {
        self.look.bits
    }

    /// What the bits spell.
    #[inline]
    pub fn fetched(&self) -> Fetched
        ensures { (reader : Reader Spells StandsFor) → fetched_of result ≡ spelled_at reader self.now.look.bits }
    {
        self.look.fetched()
    }

    /// The bytes read.
    #[inline]
    pub fn read(&self) -> Option<Access>
        ensures { result ≡ self.now.accesses.read }
    {
        self.accesses.read
    }

    /// The bytes written; none of an `sc` that failed.
    #[inline]
    pub fn stored(&self) -> Option<Access>
        ensures { result ≡ self.now.accesses.stored }
    {
        self.accesses.stored
    }

    /// The input that a call took, where it stands now.
    #[inline]
    pub fn taken(&self) -> Span
        ensures { result ≡ self.now.moved.taken }
    {
        self.moved.taken
    }

    /// The bytes that a call put onto the console.
    #[inline]
    pub fn put(&self) -> Span
        ensures { result ≡ self.now.moved.put }
    {
        self.moved.put
    }

    /// How the step ended the run.
    #[inline]
    pub fn end(&self) -> Option<End>
        ensures { result ≡ self.now.end }
    {
        self.end
    }

    /// The register that was set, with its value, by the register that the instruction sets and the hart after the step.
    #[inline]
    pub fn set_in(&self, register: Reg, hart: &Hart) -> Option<Setting>
        ensures { result ≡ set_of self.now.end register hart.now }
    {
        match self.end {
            Some(_) => None,
            None => setting_of(register, hart),
        }
    }

    /// All that the step did, by the hart after it.
    pub fn event(&self, hart: &Hart) -> Event
        ensures { (f : laws_fetched) (m : Mem) →
            ((reader : Reader Spells StandsFor) → spelled_at reader self.now.look.bits ≡ f)
            → event_as result m ≡ event_by f self.now hart.now m }
    {
        let fetched = self.fetched();
        let set = self.set_in(set_by(&fetched), hart);
        (*self).with(fetched, set)
    }

    /// The event of what was fetched, with the register that was set.
    #[inline]
    fn with(self, fetched: Fetched, set: Option<Setting>) -> Event
        ensures { (hart : AHart) (m : Mem) → let f = fetched_of fetched in
            set ≡ set_of self.end (sets f) hart → event_as result m ≡ event_by f self hart m }
    {
        Event {
            pc: self.look.pc,
            fetched,
            read: self.accesses.read,
            stored: self.accesses.stored,
            set,
            taken: self.moved.taken,
            put: self.moved.put,
            end: self.end,
        }
    }
}
