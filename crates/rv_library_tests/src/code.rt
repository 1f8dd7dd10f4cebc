//! Instructions as words and parcels.

use rv_compress::{expand, next_inst, shrink};
use rv_encode::{decode, encode};
use rv_isa::{IType, Inst, Reg, mnemonic, reg_named};
use rv_parse::{SourceFault, Statement, parse};
use rv_pseudo::{Form, expansion, li_sequence};
use std::alloc::Global;
use std::test::Fail;

/// `addi a0, zero, 7`.
fn seven() -> Option<Inst> {
    Some(Inst::Addi(IType {
        immediate: 7,
        rd: reg_named(b"a0")?,
        rs1: Reg::ZERO,
    }))
}

#[test]
fn words_and_parcels(rt: HostRuntime) -> Result<(), Fail> {
    let inst = seven().ok_or("a0 is a register")?;
    assert_eq!(rt; mnemonic(inst), "addi");
    // only an instruction whose operands are in range has a word
    assert!(rt; inst.is_valid() && encode(inst) == 0x0070_0513);
    assert!(rt; decode(0x0070_0513) == Some(inst));
    assert!(rt; shrink(inst) == Some(0x451d) && expand(0x451d) == Some(inst));
    // a parcel takes two bytes of what follows, a word four
    assert!(rt; next_inst(b"\x1d\x45\x73\0\0\0") == Some((inst, 2)));
    assert!(rt; next_inst(b"\x13\x05\x70\0\x73\0\0\0") == Some((inst, 4)));
    // the first parcel of all zeros is no instruction
    assert!(rt; next_inst(b"\0\0\0\0").is_none());
    Ok(())
}

/// A statement, the number that its expression is worth, if it is worth one, and how many instructions stand for it, or
/// the number of its fault.
const EXPANSIONS: [(&[u8], Option<i64>, Result<usize, u8>); 11] = [
    (b"li a0, 7", Some(7), Ok(1)),
    // `lui` and `addiw`
    (b"li a0, 5000", Some(5000), Ok(2)),
    (b"sgt a0, a1, a2", None, Ok(1)),
    (b"addi a0, a0, 5000", Some(5000), Err(14)),
    (b"la a0, x", None, Ok(2)),
    (b"sw a0, x, a0", None, Err(10)),
    (b"lw a0, %pcrel_lo(x)(a1)", None, Ok(1)),
    (b"c.mv a0, a1", None, Ok(1)),
    (b"c.addi a0, 5", Some(5), Ok(1)),
    (b"c.addi a0, 32", Some(32), Err(14)),
    (b"c.lw a0, %lo(x)(a1)", Some(4), Ok(1)),
];

/// What stands for the statement of a text; `Err(0)` where the text has a fault.
fn expanded(alloc: Global, source: &[u8], value: Option<i64>) -> Result<usize, u8> {
    let Ok(statements) = parse(alloc, source) else {
        return Err(0);
    };
    let Some(statement) = statements.first() else {
        return Err(0);
    };
    let form = Form {
        rvc: false,
        bytes: 4,
        value,
    };
    match expansion(statement, form) {
        Ok(templates) => Ok(templates.len()),
        Err(SourceFault::At { code, .. }) => Err(code.number()),
        Err(SourceFault::OutOfMemory) => Err(0),
    }
}

#[test]
fn what_pseudo_instructions_stand_for(rt: HostRuntime) {
    for (index, (source, value, wanted)) in EXPANSIONS.iter().enumerate() {
        assert!(rt;
            expanded(rt.alloc(), *source, *value) == *wanted,
            "row {index}"
        );
    }
}

/// Whether the first statement stands for `addi a0, zero, 7` alone, without an open operand.
fn is_seven(statements: &[Statement<'_>], form: Form) -> bool {
    let Some(statement) = statements.first() else {
        return false;
    };
    let Ok(templates) = expansion(statement, form) else {
        return false;
    };
    templates.len() == 1 && Some(templates[0].inst) == seven() && templates[0].reloc.is_none()
}

#[test]
fn the_instruction_of_li(rt: HostRuntime) -> Result<(), Fail> {
    assert_eq!(rt; li_sequence(Reg::T1, 2048).len(), 2);
    let form = Form {
        rvc: false,
        bytes: 4,
        value: Some(7),
    };
    assert!(rt; is_seven(&parse(rt.alloc(), b"li a0, 7\n")?, form));
    Ok(())
}
