//! The line of an event, part by part.

ghost use Rattle.std.specs.Prelude.{◌≡◌, ◌≤◌, ◌++◌, ◌∷◌, [], true, IfErr, OnOk, codes};
ghost use Rattle.rv_isa.specs.RegisterNames.{decimal};
ghost use Rattle.rv_isa.specs.Ranges.{IsValid};
ghost use Rattle.rv_isa_laws.specs.Memory.{may, Read as ToRead};
ghost use Rattle.rv_isa_laws.specs.Run.{Got};
ghost use Rattle.rv_machine.specs.End.{law_end};
ghost use Rattle.rv_machine.specs.Fetch.{fetched_of};
ghost use Rattle.rv_machine.specs.Seen.{end_of, event_as, in_span};
ghost use Rattle.rv_event_text_laws.specs.EventLine.{
  hex_digits,
  fetched_text,
  access_text,
  accessed_text,
  set_text,
  moved_text,
  end_words,
  ended_text,
  event_line,
};
ghost use Rattle.rv_event_text_laws.specs.InRange.{IsAccess, IsFetched, IsMachineEvent};
ghost use Rattle.rv_event_text.specs.declared.fault.LineFault.TheVariants.{OutOfMemory};
ghost use Rattle.rv_event_text.specs.Parts.{end_number};

use crate::digits::{put, put_digits};
use crate::fault::LineFault;
use crate::moved::put_moved;
use rv_encode::encode;
use rv_event_laws::{Access, Setting};
use rv_isa::{Inst, Reg};
use rv_machine::{End, Event, Fetched};
use rv_memory::Memory;
use std::alloc::AllocError;

/// Adds the line of an event, over the memory after its step. Where it fails, the text ends in a part of the line.
pub fn put_event<M: Memory>(text: &mut Vec<u8>, event: &Event, memory: &M) -> Result<(), LineFault>
    ensures line { OnOk result (text.new.items
        ≡ text.old.items ++ event_line (event_as event.now (M.mem memory.now))) }
    // An event of a machine is refused for want of memory alone, where the bytes that its call moved may be read.
    ensures refused { IsMachineEvent (event_as event.now (M.mem memory.now))
        → may (M.mem memory.now) event.now.taken.address event.now.taken.count ToRead ≡ true
        → may (M.mem memory.now) event.now.put.address event.now.put.count ToRead ≡ true
        → IfErr result (λ fault. fault ≡ OutOfMemory) }
{
    put_digits(text, 16, event.pc)?;
    put(text, " ")?;
    put_fetched(text, event.fetched)?;
    put_accessed(text, "->", event.read)?;
    put_set(text, event.set)?;
    put_accessed(text, "<-", event.stored)?;
    put_moved(text, " input ", event.taken, memory)?;
    put_moved(text, " output ", event.put, memory)?;
    put_ended(text, event.end)?;
    Ok(())
}

/// Adds what stands at the pc.
fn put_fetched(text: &mut Vec<u8>, fetched: Fetched) -> Result<(), LineFault>
    ensures text { OnOk result (text.new.items ≡ text.old.items ++ fetched_text (fetched_of fetched)) }
    ensures refused { IsFetched (fetched_of fetched) → IfErr result (λ fault. fault ≡ OutOfMemory) }
{
    match fetched {
        Fetched::Got(inst, bytes) => put_instruction(text, &inst, bytes),
        Fetched::NoRight => {
            put(text, "no right")?;
            Ok(())
        }
        Fetched::NoInstruction => {
            put(text, "no instruction")?;
            Ok(())
        }
    }
}

/// Adds the length of an instruction in bytes, and its word.
fn put_instruction(text: &mut Vec<u8>, inst: &Inst, bytes: u64) -> Result<(), LineFault>
    ensures text { OnOk result (text.new.items ≡ text.old.items ++ fetched_text (Got inst.now bytes)) }
    ensures refused { IsValid inst.now → IfErr result (λ fault. fault ≡ OutOfMemory) }
{
    if !inst.is_valid() {
        return Err(LineFault::NoMachine);
    }
    put_got(text, *inst, bytes)?;
    Ok(())
}

/// The same of one that has a word.
fn put_got(text: &mut Vec<u8>, inst: Inst, bytes: u64) -> Result<(), AllocError>
    requires { IsValid inst }
    ensures { OnOk result (text.new.items
        ≡ text.old.items ++ fetched_text (Got inst bytes)) }
{
    put_digits(text, 1, bytes)?;
    put(text, " ")?;
    put_digits(text, 8, u64::from(encode(inst)))?;
    Ok(())
}

/// Adds the bytes that were read or stored, if any were.
fn put_accessed(text: &mut Vec<u8>, arrow: &str, access: Option<Access>) -> Result<(), LineFault>
    ensures text { OnOk result (text.new.items ≡ text.old.items ++ accessed_text arrow.now access) }
    ensures refused { IsAccess access → IfErr result (λ fault. fault ≡ OutOfMemory) }
{
    let Some(access) = access else {
        return Ok(());
    };
    if access.bytes > 8 {
        return Err(LineFault::NoMachine);
    }
    put_access(text, arrow, access)?;
    Ok(())
}

/// Adds the address of bytes, an arrow, and their number.
fn put_access(text: &mut Vec<u8>, arrow: &str, access: Access) -> Result<(), AllocError>
    requires { access.bytes ≤ 8 }
    ensures { OnOk result (text.new.items ≡ text.old.items ++ access_text arrow.now access) }
{
    put_address(text, access.address)?;
    put(text, arrow)?;
    put(text, " ")?;
    put_digits(text, (2 * access.bytes) as usize, access.number)?;
    Ok(())
}

/// Adds an address in brackets, with a blank before and behind it.
fn put_address(text: &mut Vec<u8>, address: u64) -> Result<(), AllocError>
    ensures { OnOk result (text.new.items
        ≡ text.old.items ++ (codes " [" ++ (hex_digits 16 address ++ codes "] "))) }
{
    put(text, " [")?;
    put_digits(text, 16, address)?;
    put(text, "] ")?;
    Ok(())
}

/// Adds the register that was set, if one was, and its new value.
fn put_set(text: &mut Vec<u8>, set: Option<Setting>) -> Result<(), AllocError>
    ensures { OnOk result (text.new.items ≡ text.old.items ++ set_text set) }
{
    let Some(setting) = set else {
        return Ok(());
    };
    put(text, " x")?;
    put_register(text, setting.register)?;
    put(text, " <- ")?;
    put_digits(text, 16, setting.value)?;
    Ok(())
}

/// Adds the number of a register.
fn put_register(text: &mut Vec<u8>, register: Reg) -> Result<(), AllocError>
    ensures { OnOk result (text.new.items ≡ text.old.items ++ decimal register) }
{
    let number = register.number();
    if number < 10 {
        text.push(b'0' + number)?;
        return Ok(());
    }
    text.push(b'0' + number / 10)?;
    text.push(b'0' + number % 10)?;
    Ok(())
}

/// Adds how the step ended the run, if it did, and a line feed.
fn put_ended(text: &mut Vec<u8>, end: Option<End>) -> Result<(), AllocError>
    ensures { OnOk result (text.new.items
        ≡ text.old.items ++ (ended_text (end_of end) ++ 10 ∷ [])) }
{
    let Some(end) = end else {
        put(text, "\n")?;
        return Ok(());
    };
    put(text, " end ")?;
    put_end(text, end)?;
    put(text, "\n")?;
    Ok(())
}

/// Adds an end by its name, with its code or its address.
#[tactic(auto, using(crate::proofs::EndsLemmas::end_parts))]
fn put_end(text: &mut Vec<u8>, end: End) -> Result<(), AllocError>
    ensures { OnOk result (text.new.items ≡ text.old.items ++ end_words (law_end end)) }
{
    put(text, end.name())?;
    put_end_number(text, end)?;
    Ok(())
}

/// Adds the code or the address of an end, if it has one, with a blank before it.
fn put_end_number(text: &mut Vec<u8>, end: End) -> Result<(), AllocError>
    ensures { OnOk result (text.new.items ≡ text.old.items ++ end_number end) }
{
    match end {
        End::Exited(code) => put_number(text, 2, u64::from(code)),
        End::Limit | End::Breakpoint => Ok(()),
        End::Illegal(a) | End::FetchOutside(a) | End::LoadText(a) | End::LoadOutside(a) =>
            put_number(text, 16, a),
        End::StoreText(a) | End::StoreOutside(a) | End::MisalignedAtomic(a) => put_number(
            text, 16, a,
        ),
    }
}

/// Adds a blank and a number.
fn put_number(text: &mut Vec<u8>, count: usize, number: u64) -> Result<(), AllocError>
    requires { count ≤ 16 }
    ensures { OnOk result (text.new.items ≡ text.old.items ++ (codes " " ++ hex_digits count number)) }
{
    put(text, " ")?;
    put_digits(text, count, number)?;
    Ok(())
}
