//! Answers of the board's devices to loads and stores that memory refused.

ghost use Rattle.std.specs.Prelude.{◌≡◌, ℕ, List, [], ◌∷◌, ◌++◌, true, false, MatchResult, MatchOption, OnOk, IsErrOf};
ghost use Rattle.std.specs.Io.KnownBytes.{Appends, Keeps};
ghost use Rattle.rv_parcel.specs.Parcel.{StandsFor};
ghost use Rattle.rv_isa_laws.specs.Word.{Spells};
ghost use Rattle.rv_isa_laws.specs.Effect.{On};
ghost use Rattle.rv_isa_laws.specs.Hart.{Hart, advanced};
ghost use Rattle.rv_isa_laws.specs.Memory.{Mem};
ghost use Rattle.rv_isa_laws.specs.Reader.{Reader};
ghost use Rattle.rv_machine.specs.Hart.{hart_of};
ghost use Rattle.rv_machine.specs.Streams.{MayFollow, Fails, FailsBy};
ghost use Rattle.rv_machine.specs.StreamSteps.{input_left, HasRead};
ghost use Rattle.rv_machine.specs.declared.running.RunFault.TheVariants.{OutOfMemory};
ghost use Rattle.rv_memory.specs.Rights.{IsWidth};
ghost use Rattle.rv_board_laws.specs.Device.{is_latched as is_latched_in, with_no_data, low_bytes, loaded, stored, finished, Serial};
ghost use Rattle.rv_board.specs.Answers.{next_by, ended_by, LoadsTo, StoresTo, AnswersTo};

use crate::device::{Device, UART, device_at};
use rv_machine::{End, GuestIn, GuestOut, IoFailed, Load, Request, RunFault, Store, Watched};
use rv_memory::{Memory, Right};

/// The line control of the 16550.
const LINE_CONTROL: u64 = UART + 3;
/// Its line status.
const LINE_STATUS: u64 = UART + 5;
/// The line status of which no data are ready: the transmitter and its holding register are empty.
const NO_DATA: u64 = 0x60;

/// What came of an instruction that memory refused.
#[derive(Clone, Copy, Drop)]
pub(crate) enum Answer {
    /// A device answered, and the hart goes on behind it.
    Went,
    /// A device ended the run.
    Ended(End),
    /// No device stands there.
    Refused,
}

/// Whether the divisor stands in place of the data.
fn is_latched<M: Memory>(memory: &M) -> bool
    ensures { result ≡ is_latched_in (M.mem memory.now) 0x1000_0000 }
{
    match memory.try_load(LINE_CONTROL, 1, Right::Read) {
        Some(control) => control / 128 % 2 == 1,
        None => false,
    }
}

/// Takes a byte of the input, if one is left.
fn take_byte<M: Memory, R: GuestIn>(
    machine: &mut Watched<M>,
    reader: &mut R,
) -> Result<Option<u8>, IoFailed>
    ensures read { let before = input_left machine.old.intake.ended (R.ends reader.old) (R.remaining reader.old) in
        let after = input_left machine.new.intake.ended (R.ends reader.new) (R.remaining reader.new) in
        MatchResult result
        (λ found. MatchOption found (HasRead before after [] × (machine.new.intake.ended ≡ true))
        (λ byte. HasRead before after (byte ∷ [])))
        (λ _. HasRead before after []) }
    ensures hart { machine.new.hart ≡ machine.old.hart }
    ensures memory { M.mem machine.new.memory ≡ M.mem machine.old.memory }
    ensures failed { Fails result (R.in_failed reader.old) (R.in_failed reader.new) }
{
    if machine.input_ended() {
        return Ok(None);
    }
    let mut buffer = [0; 1];
    let count = reader.take(&mut buffer)?;
    if count == 0 {
        machine.end_input();
        return Ok(None);
    }
    Ok(Some(buffer[0]))
}

/// Notes in the line status that no data are ready.
fn end_data<M: Memory>(machine: &mut Watched<M>)
    ensures hart { machine.new.hart ≡ machine.old.hart }
    ensures memory { M.mem machine.new.memory ≡ with_no_data (M.mem machine.old.memory) 0x1000_0000 }
    ensures ended { machine.new.intake.ended ≡ machine.old.intake.ended }
{
    machine.put(LINE_STATUS, 1, NO_DATA);
}

/// Answers a load of the data: the divisor is 0; else it is a byte of the input, or 0 where none is left.
fn receive<M: Memory, R: GuestIn>(
    machine: &mut Watched<M>,
    reader: &mut R,
    load: Load,
    length: u64,
) -> Result<(), IoFailed>
    requires { IsWidth load.bytes }
    ensures read { let before = input_left machine.old.intake.ended (R.ends reader.old) (R.remaining reader.old) in
        let after = input_left machine.new.intake.ended (R.ends reader.new) (R.remaining reader.new) in
        (read : List ℕ) × HasRead before after read × OnOk result
        ((rest console : List ℕ) → MayFollow (machine.new.intake.ended ≡ false) rest →
        loaded Serial (M.mem machine.old.memory) 0x1000_0000 load.bytes
        (next_by load length (hart_of machine.old.hart (read ++ rest) console))
        ≡ On (hart_of machine.new.hart rest console) (M.mem machine.new.memory)) }
    ensures failed { Fails result (R.in_failed reader.old) (R.in_failed reader.new) }
{
    if is_latched(machine.memory()) {
        machine.answer_load(load, length, 0);
        return Ok(());
    }
    match take_byte(machine, reader)? {
        Some(byte) => machine.answer_load(load, length, u64::from(byte)),
        None => {
            machine.answer_load(load, length, 0);
            end_data(machine);
        }
    }
    Ok(())
}

/// Writes a byte.
fn put_byte<W: GuestOut>(writer: &mut W, byte: u8) -> Result<(), IoFailed>
    ensures written { MatchResult result
        (λ _. Appends (W.written writer.old) (W.written writer.new) (byte ∷ []))
        (λ _. Keeps (W.written writer.old) (W.written writer.new)) }
    ensures failed { Fails result (W.out_failed writer.old) (W.out_failed writer.new) }
{
    writer.put(&[byte])?;
    Ok(())
}

/// Answers a store to the data: the divisor's takes nothing; else the low byte is sent.
fn send<M: Memory, W: GuestOut>(
    machine: &mut Watched<M>,
    writer: &mut W,
    store: Store,
    length: u64,
) -> Result<(), IoFailed>
    ensures written { (written : List ℕ) × Appends (W.written writer.old) (W.written writer.new) written
        × MatchResult result
        (λ _. (input console : List ℕ) →
        stored Serial (M.mem machine.old.memory) 0x1000_0000 store.bytes store.value
        (advanced (hart_of machine.old.hart input console) length)
        ≡ On (hart_of machine.new.hart input (console ++ written)) (M.mem machine.new.memory))
        (λ _. written ≡ []) }
    ensures ended { machine.new.intake.ended ≡ machine.old.intake.ended }
    ensures failed { Fails result (W.out_failed writer.old) (W.out_failed writer.new) }
{
    if is_latched(machine.memory()) {
        machine.answer_store(length);
        return Ok(());
    }
    put_byte(writer, (store.value % 0x100) as u8)?;
    machine.answer_store(length);
    Ok(())
}

/// The low bytes of a number.
fn low_of(number: u64, bytes: u64) -> u64
    requires { IsWidth bytes }
    ensures { result ≡ low_bytes bytes number }
{
    match bytes {
        1 => number % 0x100,
        2 => number % 0x1_0000,
        4 => number % 0x1_0000_0000,
        _ => number,
    }
}

/// How a number that is stored to the test device ends the run, if it does.
fn end_by(number: u64) -> Option<End>
    ensures { (m : Mem) (next : Hart) → finished number m next ≡ ended_by result m next }
{
    match number % 0x1_0000 {
        0x5555 => Some(End::Exited(0)),
        0x3333 => Some(End::Exited((number / 0x1_0000 % 0x100) as u8)),
        _ => None,
    }
}

/// Answers a load that memory refused.
fn answer_load<M: Memory, R: GuestIn>(
    machine: &mut Watched<M>,
    reader: &mut R,
    load: Load,
    length: u64,
) -> Result<Answer, RunFault>
    requires { IsWidth load.bytes }
    ensures read { let before = input_left machine.old.intake.ended (R.ends reader.old) (R.remaining reader.old) in
        let after = input_left machine.new.intake.ended (R.ends reader.new) (R.remaining reader.new) in
        (read : List ℕ) × HasRead before after read
        × LoadsTo result read (machine.new.intake.ended ≡ false) load length
        (hart_of machine.old.hart) (M.mem machine.old.memory) (hart_of machine.new.hart) (M.mem machine.new.memory) }
    ensures failed { Fails result (R.in_failed reader.old) (R.in_failed reader.new) }
{
    match device_at(load.address) {
        Device::Plain => Ok(Answer::Refused),
        Device::Serial => match receive(machine, reader, load, length) {
            Ok(()) => Ok(Answer::Went),
            Err(_) => Err(RunFault::InputFault),
        },
        Device::Constant(value) => {
            machine.answer_load(load, length, value);
            Ok(Answer::Went)
        }
        Device::Power => {
            machine.answer_load(load, length, 0);
            Ok(Answer::Went)
        }
    }
}

/// Answers a store that memory refused.
fn answer_store<M: Memory, W: GuestOut>(
    machine: &mut Watched<M>,
    writer: &mut W,
    store: Store,
    length: u64,
) -> Result<Answer, RunFault>
    requires { IsWidth store.bytes }
    ensures written { (written : List ℕ) × Appends (W.written writer.old) (W.written writer.new) written
        × StoresTo result written store length (hart_of machine.old.hart) (M.mem machine.old.memory)
        (hart_of machine.new.hart) (M.mem machine.new.memory) }
    ensures ended { machine.new.intake.ended ≡ machine.old.intake.ended }
    ensures failed { Fails result (W.out_failed writer.old) (W.out_failed writer.new) }
{
    match device_at(store.address) {
        Device::Plain => Ok(Answer::Refused),
        Device::Serial => match send(machine, writer, store, length) {
            Ok(()) => Ok(Answer::Went),
            Err(_) => Err(RunFault::OutputFault),
        },
        Device::Constant(_) => {
            machine.answer_store(length);
            Ok(Answer::Went)
        }
        Device::Power => match end_by(low_of(store.value, store.bytes)) {
            Some(end) => Ok(Answer::Ended(end)),
            None => {
                machine.answer_store(length);
                Ok(Answer::Went)
            }
        },
    }
}

/// Has a device answer the instruction at pc, which memory refused, if one stands there.
pub(crate) fn ask_device<M: Memory, R: GuestIn, W: GuestOut>(
    machine: &mut Watched<M>,
    reader: &mut R,
    writer: &mut W,
) -> Result<Answer, RunFault>
    ensures answers { let before = input_left machine.old.intake.ended (R.ends reader.old) (R.remaining reader.old) in
        let after = input_left machine.new.intake.ended (R.ends reader.new) (R.remaining reader.new) in
        (read written : List ℕ) × HasRead before after read
        × Appends (W.written writer.old) (W.written writer.new) written
        × ((r : Reader Spells StandsFor) → AnswersTo result read written (machine.new.intake.ended ≡ false) r
        (hart_of machine.old.hart) (M.mem machine.old.memory) (hart_of machine.new.hart) (M.mem machine.new.memory)) }
    ensures failed { FailsBy result (R.in_failed reader.old) (W.out_failed writer.old)
        (R.in_failed reader.new) (W.out_failed writer.new) }
    ensures memory { IsErrOf result OutOfMemory → ⊥ }
{
    match machine.request() {
        Some(Request::Load(load, length)) => answer_load(machine, reader, load, length),
        Some(Request::Store(store, length)) => answer_store(machine, writer, store, length),
        None => Ok(Answer::Refused),
    }
}
