//! The open field of code that is one part: of a branch or a jump that reaches, and of a call.
//!
//! The words of such a statement and its bytes tell the field, so its code is not made again for it. Most fields of code
//! are of these.
//!
//! Source: RISC-V ELF psABI, "Relocations".

ghost use Rattle.std.specs.Prelude.{◌≡◌, Some};
ghost use Rattle.rv_instruction.specs.Code as code;
ghost use Rattle.rv_draft.specs.Lone as laws;

use rv_isa::{Kind, Reg};
use rv_statement::{Operation, StatementKind};

/// The kind of the field of a branch of so many bytes, where it is one part.
fn branch_kind(bytes: u32) -> Option<Kind>
    ensures { result ≡ laws.branch_kind bytes }
{
    match bytes {
        2 => Some(Kind::RvcBranch),
        8 => None,
        _ => Some(Kind::Branch),
    }
}

/// The kind of the field of a jump that writes where it came from into a register.
fn jump_kind(rd: Reg, bytes: u32) -> Kind
    ensures { result ≡ laws.jump_kind rd bytes }
{
    if rd.number() == 0 && bytes == 2 {
        Kind::RvcJump
    } else {
        Kind::Jal
    }
}

/// The kind of the field of a call of so many bytes.
fn call_kind(bytes: u32) -> Option<Kind>
    ensures { result ≡ laws.call_kind bytes }
{
    if bytes == 8 {
        Some(Kind::CallPlt)
    } else {
        None
    }
}

/// The kind of the field of an operation with a target in so many bytes, where its code is one part.
fn operation_kind(operation: Operation, bytes: u32) -> Option<Kind>
    ensures { result ≡ laws.operation_kind operation bytes }
{
    match operation {
        Operation::Branch(..) => branch_kind(bytes),
        Operation::ZeroBranch(..) => branch_kind(bytes),
        Operation::SwappedBranch(..) => branch_kind(bytes),
        Operation::Jal(rd) => Some(jump_kind(rd, bytes)),
        Operation::JalLinked => Some(jump_kind(Reg::RA, bytes)),
        Operation::J => Some(jump_kind(Reg::ZERO, bytes)),
        Operation::Call(_) => call_kind(bytes),
        Operation::CallLinked => call_kind(bytes),
        Operation::Tail => call_kind(bytes),
        Operation::Jump(_) => call_kind(bytes),
        _ => None,
    }
}

/// The kind of the one field of a statement's code in so many bytes, where its words tell that its code is one part with
/// an open field.
pub(crate) fn lone_kind(kind: &StatementKind<'_>, bytes: u32) -> Option<Kind>
    ensures { result ≡ laws.lone_kind kind.now bytes }
{
    match kind {
        StatementKind::With(operation, _) => operation_kind(*operation, bytes),
        _ => None,
    }
}

/// Whether a field is that of a call, which is two instructions.
pub(crate) fn is_call(kind: &Kind) -> bool
    ensures { result ≡ code.is_call_field (Some kind.now) }
{
    matches!(kind, Kind::CallPlt)
}
