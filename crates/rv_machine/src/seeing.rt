//! Steps that go on without the environment, with what they read and write.
//!
//! They are those of `quick`, one at a time, for who is told of each. Atomics are not among them.
//!
//! Source: RISC-V Unprivileged ISA 20191213, sections 1.5, 2.2 and 2.6.

ghost use Rattle.std.specs.Prelude.{◌≡◌, ◌≢◌, ℕ, List, ◌%◌, MatchOption, false, true};
ghost use Rattle.rv_parcel.specs.Parcel.{StandsFor};
ghost use Rattle.rv_isa_laws.specs.Word.{Spells};
ghost use Rattle.rv_isa_laws.specs.Effect.{apply};
ghost use Rattle.rv_isa_laws.specs.Memory.{may, number_at, Read as ToRead};
ghost use Rattle.rv_isa_laws.specs.Reader.{Reader};
ghost use Rattle.rv_isa_laws.specs.Run.{done};
ghost use Rattle.rv_event_laws.specs.Event.{asks};
ghost use Rattle.rv_machine.specs.Action.{effect_of, HasWidth, made};
ghost use Rattle.rv_machine.specs.Fetch.{spelled_at, spelled_by};
ghost use Rattle.rv_machine.specs.Hart.{hart_of};
ghost use Rattle.rv_machine.specs.Seen.{IsSeen, no_accesses};
ghost use Rattle.rv_machine.specs.declared.action.Action.TheVariants as is;
ghost use Rattle.rv_memory.specs.Rights.{IsWidth};

use crate::action::{Action, Load, Store};
use crate::event::{Accesses, low_bytes};
use crate::hart::Hart;
use crate::parcel::asked_by_parcel;
use crate::word::asked_by_word;
use crate::{access, alu};
use rv_event_laws::Access;
use rv_memory::{Memory, Right};

/// The number that a load reads, and what its register gets.
#[derive(Clone, Copy, Drop)]
struct Loaded {
    number: u64,
    value: u64,
}

/// What is loaded of `bytes` bytes; `None` where they may not be read.
#[inline(always)]
fn read_bytes<M: Memory>(memory: &M, address: u64, bytes: u64, signed: bool) -> Option<Loaded>
    requires { IsWidth bytes }
    ensures { MatchOption result (may (M.mem memory.now) address bytes ToRead ≡ false)
        (λ loaded. (may (M.mem memory.now) address bytes ToRead ≡ true)
        × ((loaded.number ≡ number_at (M.mem memory.now) address bytes)
        × (loaded.value ≡ made signed bytes (number_at (M.mem memory.now) address bytes)))) }
{
    let number = memory.try_load(address, bytes, Right::Read)?;
    let value = if signed {
        match bytes {
            1 => alu::extended_8(number as u8),
            2 => alu::extended_16(number as u16),
            4 => alu::extended(number as u32),
            _ => number,
        }
    } else {
        number
    };
    Some(Loaded { number, value })
}

/// The same, with code of its own for each width.
#[inline(always)]
fn read_loaded<M: Memory>(memory: &M, address: u64, bytes: u64, signed: bool) -> Option<Loaded>
    requires { IsWidth bytes }
    ensures { MatchOption result (may (M.mem memory.now) address bytes ToRead ≡ false)
        (λ loaded. (may (M.mem memory.now) address bytes ToRead ≡ true)
        × ((loaded.number ≡ number_at (M.mem memory.now) address bytes)
        × (loaded.value ≡ made signed bytes (number_at (M.mem memory.now) address bytes)))) }
{
    match bytes {
        1 => read_bytes(memory, address, 1, signed),
        2 => read_bytes(memory, address, 2, signed),
        4 => read_bytes(memory, address, 4, signed),
        _ => read_bytes(memory, address, 8, signed),
    }
}

/// Does a load, if its bytes may be read; whether they may.
#[inline(always)]
fn load<M: Memory>(
    accesses: &mut Accesses,
    hart: &mut Hart,
    memory: &M,
    x: Load,
    bytes: u64,
) -> bool
    requires width { IsWidth x.bytes }
    requires none { accesses.old ≡ no_accesses }
    ensures { (input console : List ℕ) →
        let before = hart_of hart.old input console in
        let effect = effect_of (is.Load x) bytes before in
        IsSeen result accesses.new (apply effect (M.mem memory.now)) effect hart.old (M.mem memory.now)
        hart.new (M.mem memory.now) input console }
{
    let Some(loaded) = read_loaded(memory, x.address, x.bytes, x.signed) else {
        return false;
    };
    access::set(hart, x.rd, loaded.value, bytes);
    accesses.read = Some(Access {
        address: x.address,
        bytes: x.bytes,
        number: loaded.number,
    });
    true
}

/// Does a store, if its bytes may be written; whether they may.
#[inline(always)]
fn store<M: Memory>(
    accesses: &mut Accesses,
    hart: &mut Hart,
    memory: &mut M,
    x: Store,
    bytes: u64,
) -> bool
    requires width { IsWidth x.bytes }
    requires none { accesses.old ≡ no_accesses }
    ensures { (input console : List ℕ) →
        let before = hart_of hart.old input console in
        let effect = effect_of (is.Store x) bytes before in
        IsSeen result accesses.new (apply effect (M.mem memory.old)) effect hart.old (M.mem memory.old)
        hart.new (M.mem memory.new) input console }
{
    if !access::write(memory, x.address, x.bytes, x.value) {
        return false;
    }
    hart.pc = hart.pc.wrapping_add(bytes);
    accesses.stored = Some(Access {
        address: x.address,
        bytes: x.bytes,
        number: low_bytes(x.value, x.bytes),
    });
    true
}

/// Does what an instruction of `BYTES` bytes asks, if that neither ends the run nor is an atomic or a call; whether it did.
#[inline(always)]
fn goes_on<M: Memory, const BYTES: u64>(
    action: Action,
    accesses: &mut Accesses,
    hart: &mut Hart,
    memory: &mut M,
) -> bool
    requires width { HasWidth action }
    requires none { accesses.old ≡ no_accesses }
    ensures { (input console : List ℕ) →
        let before = hart_of hart.old input console in
        let effect = effect_of action BYTES before in
        IsSeen result accesses.new (apply effect (M.mem memory.old)) effect hart.old (M.mem memory.old)
        hart.new (M.mem memory.new) input console }
{
    match action {
        Action::Set(rd, value) => {
            access::set(hart, rd, value, BYTES);
            true
        }
        Action::Jump(rd, target) => {
            access::jump(hart, rd, target, BYTES);
            true
        }
        Action::Go(target) => {
            hart.pc = target;
            true
        }
        Action::Load(x) => load(accesses, hart, memory, x, BYTES),
        Action::Store(x) => store(accesses, hart, memory, x, BYTES),
        _ => false,
    }
}

#[inline(always)]
fn by_word<M: Memory>(bits: u32, accesses: &mut Accesses, hart: &mut Hart, memory: &mut M) -> bool
    requires word { bits % 4 ≡ 3 }
    requires none { accesses.old ≡ no_accesses }
    ensures { (reader : Reader Spells StandsFor) (input console : List ℕ) →
        let before = hart_of hart.old input console in
        let f = spelled_by reader bits in
        IsSeen result accesses.new (done f before (M.mem memory.old)) (asks f before) hart.old (M.mem memory.old)
        hart.new (M.mem memory.new) input console }
{
    match asked_by_word(bits, hart.pc, hart) {
        Some(action) => goes_on::<M, 4>(action, accesses, hart, memory),
        None => false,
    }
}

#[inline(always)]
fn by_parcel<M: Memory>(bits: u32, accesses: &mut Accesses, hart: &mut Hart, memory: &mut M) -> bool
    requires parcel { bits % 4 ≢ 3 }
    requires none { accesses.old ≡ no_accesses }
    ensures { (reader : Reader Spells StandsFor) (input console : List ℕ) →
        let before = hart_of hart.old input console in
        let f = spelled_by reader bits in
        IsSeen result accesses.new (done f before (M.mem memory.old)) (asks f before) hart.old (M.mem memory.old)
        hart.new (M.mem memory.new) input console }
{
    match asked_by_parcel((bits % 0x1_0000) as u16, hart.pc, hart) {
        Some(action) => goes_on::<M, 2>(action, accesses, hart, memory),
        None => false,
    }
}

/// Does the step of the instruction that these bits spell at a hart's address, if it goes on without the environment and is
/// no atomic; whether it did. What it reads or writes is put where nothing stood.
#[inline(never)]
pub(crate) fn seen_step<M: Memory>(
    bits: Option<u32>,
    accesses: &mut Accesses,
    hart: &mut Hart,
    memory: &mut M,
) -> bool
    requires { accesses.old ≡ no_accesses }
    ensures { (reader : Reader Spells StandsFor) (input console : List ℕ) →
        let before = hart_of hart.old input console in
        let f = spelled_at reader bits in
        IsSeen result accesses.new (done f before (M.mem memory.old)) (asks f before) hart.old (M.mem memory.old)
        hart.new (M.mem memory.new) input console }
{
    match bits {
        Some(bits) => {
            if bits % 4 == 3 {
                by_word(bits, accesses, hart, memory)
            } else {
                by_parcel(bits, accesses, hart, memory)
            }
        }
        None => false,
    }
}
