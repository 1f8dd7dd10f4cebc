//! The value of a relocation, its field, how long calls and paddings are, and the passes that find this.

use rv_assemble::assemble;
use rv_fault::LinkFault;
use rv_names::Names;
use rv_relax::{Plan, TextLine};
use rv_reloc::{Kind, patch, value};
use std::alloc::{AllocError, Global};
use std::test::Fail;

#[test]
fn fields(rt: HostRuntime) {
    // `beq a0, a1, .`
    let mut word = [0x63, 0x00, 0xb5, 0x00];
    let distance = value(Kind::Branch, 0x1_0010, 0, 0x1_0000);
    assert!(rt; distance == 16 && patch(&mut word, Kind::Branch, distance).is_ok());
    assert!(rt; word == [0x63, 0x08, 0xb5, 0x00]);
    // what a field can't hold is refused, and the field stays
    assert!(rt; patch(&mut word, Kind::Branch, 4096) == Err(LinkFault::Overflow));
    assert!(rt; word == [0x63, 0x08, 0xb5, 0x00]);
}

/// Three calls of a function that is near, and `ecall` between.
const CALLS: &[u8] = b".globl _start
_start: call f; call f; call f; li a7, 93; ecall
f: ret
";

/// Whether a plan of these calls makes each a `jal`, so that all behind it moves.
fn is_short(plan: &Plan<'_, '_>) -> bool {
    for (call, size) in [4, 4, 4, 0].iter().enumerate() {
        if plan.call_size(call) != *size {
            return false;
        }
    }
    for (old, new) in [(0, 0), (8, 4), (16, 8), (24, 12), (32, 20)] {
        if plan.new_offset(old) != new {
            return false;
        }
    }
    true
}

#[test]
fn plans(rt: HostRuntime) -> Result<(), Fail> {
    let alloc = rt.alloc();
    let objects = vec![in alloc; assemble(alloc, CALLS)?]?;
    let names = Names::of(alloc, &objects)?;
    let text = TextLine::of(alloc, &objects, &names)?;
    let plan = Plan::of(alloc, &text, true)?;
    assert!(rt; is_short(&plan) && plan.rounds() <= 7);
    Ok(())
}

/// How many calls there are in a chain, of which each reaches only once its neighbour is shortened.
const COUNT: usize = 100;

/// How far `jal` reaches forwards, and backwards.
const FORWARDS: usize = (1 << 20) - 2;

const BACKWARDS: usize = 1 << 20;

/// Appends calls of places four bytes apart.
fn put_calls(alloc: Global, source: &mut String) -> Result<(), AllocError> {
    for at in 0..COUNT {
        source.push_str(format!(in alloc; "call t + {}\n", 4 * at)?.as_str())?;
    }
    Ok(())
}

/// Appends a line, so many times.
fn put(source: &mut String, line: &str, count: usize) -> Result<(), AllocError> {
    for _ in 0..count {
        source.push_str(line)?;
    }
    Ok(())
}

/// Appends so many bytes of code, a multiple of four: eight instructions in a statement, and single ones.
fn put_code(source: &mut String, bytes: usize) -> Result<(), AllocError> {
    put(source, "li a0, 0x123456789abcdef0\n", bytes / 32)?;
    put(source, "nop\n", bytes % 32 / 4)
}

/// The last call reaches, and each before it once all behind it are short.
fn from_the_end(alloc: Global) -> Result<String, AllocError> {
    let mut source = ".option norvc\n".to_string(alloc)?;
    put_calls(alloc, &mut source)?;
    put_code(&mut source, FORWARDS - 2 - 4 * (COUNT - 1) - 8)?;
    source.push_str("c.nop\nt:\n")?;
    put_code(&mut source, 4 * COUNT)?;
    Ok(source)
}

/// The first call reaches, and each behind it once all before it are short.
fn from_the_start(alloc: Global) -> Result<String, AllocError> {
    let mut source = ".option norvc\nt:\n".to_string(alloc)?;
    put_code(&mut source, BACKWARDS)?;
    put_calls(alloc, &mut source)?;
    Ok(source)
}

/// How many passes there are over the calls of a source, if all of them are short then.
fn passes(alloc: Global, source: &[u8]) -> Result<Option<usize>, Fail> {
    let objects = vec![in alloc; assemble(alloc, source)?]?;
    let names = Names::of(alloc, &objects)?;
    let text = TextLine::of(alloc, &objects, &names)?;
    let plan = Plan::of(alloc, &text, true)?;
    for call in 0..COUNT {
        if plan.call_size(call) != 4 {
            return Ok(None);
        }
    }
    Ok(Some(plan.rounds()))
}

/// Passes go forwards and backwards in turn, one of which shortens all calls, and the last shortens nothing. The counts
/// stand by hand.
#[test]
fn chains(rt: HostRuntime) -> Result<(), Fail> {
    let alloc = rt.alloc();
    assert!(rt; passes(alloc, from_the_end(alloc)?.as_bytes())? == Some(3));
    assert!(rt; passes(alloc, from_the_start(alloc)?.as_bytes())? == Some(2));
    Ok(())
}
