//! Single steps, every end of a run, and whole runs.

use crate::streams::ECHO;
use rv_chain::{LinkOptions, build_exe};
use rv_image::{Image, load};
use rv_machine::{End, Machine, run};
use rv_memory::Flat;
use std::alloc::Global;
use std::test::Fail;

/// Writes `hello` and exits with 0.
pub(crate) const HELLO: &[u8] = b".globl _start
_start: li a0, 1; la a1, text; li a2, 5; li a7, 64; ecall
li a0, 0; li a7, 93; ecall
.section .rodata
text: .ascii \"hello\"
";

/// The image of the program of a source.
pub(crate) fn image(alloc: Global, source: &[u8]) -> Result<Image, Fail> {
    let options = LinkOptions {
        text_start: 0x1_0000,
        relax: true,
        gc: false,
    };
    let file = build_exe(alloc, &[source], options)?;
    Ok(load(alloc, &file)?)
}

/// A machine before its first step, over a flat memory; `Paged` is a faster one.
fn machine(alloc: Global, source: &[u8]) -> Result<Machine<Flat>, Fail> {
    let image = image(alloc, source)?;
    let entry = image.entry;
    let memory = Flat::new(alloc, image)?;
    Ok(Machine::new(alloc, memory, entry, b"")?)
}

#[test]
fn steps(rt: HostRuntime) -> Result<(), Fail> {
    let mut machine = machine(rt.alloc(), HELLO)?;
    for count in 0..9 {
        let end = machine.step()?;
        assert!(rt;
            end == (count == 8).then_some(End::Exited(0)),
            "step {count}"
        );
    }
    assert!(rt; machine.console() == b"hello".as_slice());
    Ok(())
}

/// At most three instructions, and how their run ends.
const ENDS: [(&[u8], End); 10] = [
    (b"ebreak", End::Breakpoint),
    (b"jr zero", End::FetchOutside(0)),
    (b"lw a0, _start", End::LoadText(0x1_0000)),
    (b"lw a0, (zero)", End::LoadOutside(0)),
    (b"sd zero, _start, a0", End::StoreText(0x1_0000)),
    (b"sd zero, -4(sp)", End::StoreOutside(0x3fff_fffc)),
    (b"li a0, 2; lr.w a1, (a0)", End::MisalignedAtomic(2)),
    // into the upper half of a word, which is zeros
    (b".option norvc; j . + 6; nop", End::Illegal(0x1_0006)),
    (b"li a0, -1; li a7, 93; ecall", End::Exited(255)),
    (b"li a0, 256; li a7, 93; ecall", End::Exited(0)),
];

/// Whether a machine comes to an end, and answers it for ever.
fn keeps(alloc: Global, line: &[u8], wanted: End) -> Result<bool, Fail> {
    let mut source = Vec::from_slice(alloc, b".globl _start; _start: ")?;
    source.extend_from_slice(line)?;
    let mut machine = machine(alloc, &source)?;
    for _ in 0..2 {
        let _ = machine.step()?;
    }
    for _ in 0..3 {
        if machine.step()? != Some(wanted) {
            return Ok(false);
        }
    }
    Ok(true)
}

#[test]
fn ends(rt: HostRuntime) -> Result<(), Fail> {
    for (index, (line, end)) in ENDS.iter().enumerate() {
        assert!(rt; keeps(rt.alloc(), *line, *end)?, "row {index}");
    }
    Ok(())
}

/// A source, an input, the most instructions; the end and the console.
const RUNS: [(&[u8], &[u8], u64, End, &[u8]); 5] = [
    (HELLO, b"", 9, End::Exited(0), b"hello"),
    (HELLO, b"", u64::MAX, End::Exited(0), b"hello"),
    // one instruction less
    (HELLO, b"", 8, End::Limit, b"hello"),
    (HELLO, b"", 0, End::Limit, b""),
    (ECHO, b"abcdef", 100, End::Exited(0), b"abcd"),
];

#[test]
fn whole_runs(rt: HostRuntime) -> Result<(), Fail> {
    let alloc = rt.alloc();
    for (index, (source, input, limit, end, console)) in RUNS.iter().enumerate() {
        let outcome = run(alloc, image(alloc, *source)?, *input, *limit)?;
        assert!(rt;
            outcome.end == *end && outcome.console.as_slice() == *console,
            "row {index}"
        );
    }
    Ok(())
}
