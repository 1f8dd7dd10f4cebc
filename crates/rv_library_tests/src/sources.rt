//! What a source says.

use rv_draft::Layout;
use rv_expression::{Lexer, Meaning, SourceFault, TokenKind, Value, eval, parse_expr};
use rv_parse::{Statement, parse};
use rv_statement::StatementKind;
use rv_statement_laws::Binding;
use rv_unit::Unit;
use std::alloc::Global;
use std::test::Fail;

fn is_newline(kind: TokenKind<'_>) -> bool {
    matches!(kind, TokenKind::Newline)
}

fn is_bad_byte(kind: TokenKind<'_>) -> bool {
    matches!(kind, TokenKind::BadByte)
}

/// Whether a bad byte comes next.
fn meets_bad_byte(lexer: &mut Lexer<'_>) -> bool {
    match lexer.next() {
        Some(token) => is_bad_byte(token.kind),
        None => false,
    }
}

#[test]
fn tokens(rt: HostRuntime) {
    let mut names = 0usize;
    let mut last = TokenKind::End;
    for token in Lexer::new(b"li a0, 1b # back\n") {
        if let TokenKind::Name(_) = token.kind {
            names = names.saturating_add(1);
        }
        last = token.kind;
    }
    assert!(rt; names == 2 && is_newline(last));
    // a bad byte is given once
    let mut lexer = Lexer::new(b"\x01 nop");
    assert!(rt; meets_bad_byte(&mut lexer) && lexer.next().is_none());
}

/// What the names of an expression mean: a reference to a numeric label is one too.
fn meaning(name: &[u8]) -> Meaning {
    if name == b"four".as_slice() {
        Meaning::Constant(4)
    } else if name == b"1b".as_slice() {
        Meaning::InSection(1, 16)
    } else if name == b".".as_slice() {
        Meaning::InSection(1, 20)
    } else {
        Meaning::Open
    }
}

/// The number of an expression on line 7; else its fault, which has that line.
fn number(alloc: Global, text: &[u8]) -> Result<Option<u64>, SourceFault> {
    let expr = parse_expr(alloc, &mut Lexer::new(text))?;
    match eval(&expr, 7, &|name: &[u8]| meaning(name))? {
        Value::Constant(number) => Ok(Some(number)),
        _ => Ok(None),
    }
}

#[test]
fn expressions(rt: HostRuntime) -> Result<(), Fail> {
    let alloc = rt.alloc();
    assert!(rt; number(alloc, b"four * 2 + (. - 1b)")? == Some(12));
    assert!(rt; fault(number(alloc, b"1 / 0")) == (4, 7));
    Ok(())
}

/// The number of a fault's code, and its line.
fn fault<T: Drop>(found: Result<T, SourceFault>) -> (u8, u32) {
    match found {
        Err(SourceFault::At { code, line }) => (code.number(), line),
        _ => (0, 0),
    }
}

/// A statement of each kind that takes memory, and of the others.
const KINDS: &[u8] =
    b"x: 1: .globl x, y\n.local z; .weak y; .set k, 1 + 2 /*\n*/ ; .section .a,\"a\"
.byte 1, 2; .ascii \"a\", \"b\"\n.asciz \"\"\n\nli a0, 1; mv a0, a1; addi a0, a0, %lo(x) # c\n.option rvc";

/// Its statements: a letter for the kind, and the line.
const STATEMENTS: [(u8, u32); 14] = [
    (b':', 1),
    (b'1', 1),
    (b'g', 1),
    (b'l', 2),
    (b'k', 2),
    (b's', 2),
    (b'o', 3),
    (b'v', 4),
    (b'a', 4),
    (b'z', 5),
    (b'w', 7),
    (b'p', 7),
    (b'%', 7),
    (b'.', 8),
];

fn letter(kind: &StatementKind<'_>) -> u8 {
    match kind {
        StatementKind::Label(_) => b':',
        StatementKind::Numbered(_) => b'1',
        StatementKind::Binds(Binding::Global, _) => b'g',
        StatementKind::Binds(Binding::Local, _) => b'l',
        StatementKind::Binds(Binding::Weak, _) => b'k',
        StatementKind::Sets(_) => b's',
        StatementKind::Opens(_) => b'o',
        StatementKind::Values(_, _) => b'v',
        StatementKind::Ascii(_) => b'a',
        StatementKind::Asciz(_) => b'z',
        StatementKind::With(_, _) => b'w',
        StatementKind::Plain(_) => b'p',
        StatementKind::WithFunction(_, _, _) => b'%',
        _ => b'.',
    }
}

/// Whether statements have these kinds and these lines.
fn are(statements: &[Statement<'_>]) -> bool {
    for (statement, wanted) in statements.iter().zip(STATEMENTS.iter()) {
        if (letter(&statement.kind), statement.line) != *wanted {
            return false;
        }
    }
    statements.len() == STATEMENTS.len()
}

#[test]
fn statements(rt: HostRuntime) -> Result<(), Fail> {
    let alloc = rt.alloc();
    assert!(rt; are(&parse(alloc, KINDS)?));
    assert!(rt; fault(parse(alloc, b"nop\nadd a0")) == (7, 2));
    Ok(())
}

/// A source; the sizes of its statements, as the listing of GNU as (Binutils 2.40) has them; the most passes that this
/// takes. Each has two sections.
const SIZES: [(&[u8], &[u32], usize); 2] = [
    (
        b"_start: beqz a0, _start\nla a0, x\n.data\nx: .word 1, 2\n",
        &[0, 2, 8, 0, 0, 8],
        3,
    ),
    // a branch out of reach and one in reach, paddings of code and of data, and data
    (
        b"bne a0, a1, far; bnez a0, near; near: nop; .balign 4096; .balign 4096; far: ret
.data; .byte 1, 2; .balign 8; .asciz \"ab\"; .zero 5",
        &[8, 2, 0, 2, 4094, 4094, 0, 2, 0, 2, 6, 3, 5],
        5,
    ),
];

/// Whether a source's statements have these sizes.
fn has_sizes(alloc: Global, source: &[u8], sizes: &[u32], passes: usize) -> Result<bool, Fail> {
    let unit = Unit::build(alloc, parse(alloc, source)?)?;
    let layout = Layout::of(alloc, &unit)?;
    for index in 0..unit.statements().len() {
        if sizes.get(index) != Some(&layout.size(index)) {
            return Ok(false);
        }
    }
    Ok(
        unit.statements().len() == sizes.len()
            && unit.sections().len() == 2
            && layout.rounds() <= passes,
    )
}

#[test]
fn sizes(rt: HostRuntime) -> Result<(), Fail> {
    for (index, (source, sizes, passes)) in SIZES.iter().enumerate() {
        assert!(rt;
            has_sizes(rt.alloc(), *source, *sizes, *passes)?,
            "row {index}"
        );
    }
    Ok(())
}
