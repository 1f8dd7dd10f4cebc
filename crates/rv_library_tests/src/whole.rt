//! All layers in a row, and the calls that do it at once.

use rv_assemble::assemble;
use rv_chain::{
    Built, Fault, SourceFault, assemble_object, build, build_exe, link_objects, link_objects_exe,
    run_exec,
};
use rv_disasm::listing;
use rv_image::{load, reload, write_exec};
use rv_link::{LinkOptions, Linked, link};
use rv_machine::{End, run};
use rv_map::{read, write};
use std::alloc::Global;
use std::test::Fail;

/// Where the text begins, and that calls are shortened and nothing is left out.
const OPTIONS: LinkOptions = LinkOptions {
    text_start: 0x1_0000,
    relax: true,
    gc: false,
};

/// Counts to 3 and goes on in the other source.
const FIRST: &[u8] = b".globl _start
_start: li a0, 0
loop: addi a0, a0, 1
li t0, 3
blt a0, t0, loop
tail f
";

/// Adds fours up to 10 or more, and exits with the sum.
const SECOND: &[u8] = b".globl f, loop
f: loop: addi a0, a0, 4
li t0, 10
blt a0, t0, loop
li a7, 93
ecall
";

#[test]
fn from_two_sources_to_a_run(rt: HostRuntime) -> Result<(), Fail> {
    let alloc = rt.alloc();
    // each source becomes an object, and the objects become a program with its map
    let objects = vec![in alloc; assemble(alloc, FIRST)?, assemble(alloc, SECOND)?]?;
    let linked: Linked = link(alloc, &objects, OPTIONS)?;
    // these are the two files that `rv build` writes
    let executable = write_exec(alloc, &linked)?;
    let map_text = write(alloc, &linked.map)?;
    // any executable can be loaded, and with a map be listed
    let image = load(alloc, &executable)?;
    let map = read(alloc, &map_text)?.ok_or("it is a map")?;
    assert!(rt; write(alloc, &map)? == map_text && reload(alloc, &linked)? == image);
    let lines = listing(alloc, &image, &map)?;
    assert!(rt; lines.starts_with(b"@ 1 2 3\n10000: addi a0,zero,0\n"));
    // and it runs, with an input and a limit of instructions
    let outcome = run(alloc, image, b"", 1_000_000)?;
    assert!(rt; outcome.end == End::Exited(11) && outcome.console.is_empty());
    Ok(())
}

/// What the links of the files of two objects come to, with a map and without, which have one executable.
fn linked(alloc: Global, first: &[u8], second: &[u8]) -> Result<Option<Built>, Fail> {
    let built = link_objects(alloc, &[first, second], OPTIONS)?;
    let is_same = link_objects_exe(alloc, &[first, second], OPTIONS)? == built.exe;
    Ok(is_same.then_some(built))
}

#[test]
fn at_once(rt: HostRuntime) -> Result<(), Fail> {
    let alloc = rt.alloc();
    let built: Built = build(alloc, &[FIRST, SECOND], OPTIONS)?;
    let outcome = run_exec(alloc, &built.exe, b"", 1_000_000)?;
    assert!(rt; outcome.end == End::Exited(11) && outcome.console.is_empty());
    assert!(rt; build_exe(alloc, &[FIRST, SECOND], OPTIONS)? == built.exe);
    let first = assemble_object(alloc, FIRST)?;
    let second = assemble_object(alloc, SECOND)?;
    assert!(rt; linked(alloc, &first, &second)? == Some(built));
    Ok(())
}

/// What a fault says: the number of its file, from 1, and that of its code; or 0.
fn told<T: Drop>(found: Result<T, Fault>) -> (u32, u32) {
    match found {
        Err(Fault::Source(file, SourceFault::At { code, .. })) => (file, code.number().into()),
        Err(Fault::File(file, fault)) => (file, fault.number().unwrap_or_default()),
        Err(Fault::Link(fault)) => (0, fault.number().unwrap_or_default().into()),
        _ => (0, 0),
    }
}

/// A source alone lacks a name, the second one is faulty; of no files there is no program, but where the text begins is
/// looked at before; and an object is no executable.
#[test]
fn faults(rt: HostRuntime) -> Result<(), Fail> {
    let alloc = rt.alloc();
    let odd = LinkOptions {
        text_start: 4097,
        ..OPTIONS
    };
    let object = assemble_object(alloc, SECOND)?;
    assert!(rt; told(build(alloc, &[FIRST], OPTIONS)) == (0, 5));
    assert!(rt; told(build(alloc, &[SECOND, b"\n\x01"], OPTIONS)) == (2, 1));
    assert!(rt; told(build(alloc, &[], OPTIONS)) == (0, 7));
    assert!(rt; told(link_objects(alloc, &[], OPTIONS)) == (0, 7));
    assert!(rt; told(link_objects(alloc, &[], odd)) == (0, 9));
    assert!(rt; told(link_objects(alloc, &[&object, b"none".as_slice()], OPTIONS)) == (2, 1));
    assert!(rt; told(run_exec(alloc, &object, b"", 1)) == (1, 11));
    Ok(())
}
