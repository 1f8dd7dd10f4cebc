//! The operands that instructions take, in words.
//!
//! Source: RISC-V Assembly Programmer's Manual, "RISC-V Instruction Table"; RISC-V Unprivileged ISA 20191213, chapter 24.

use rv_parse_words::Beginning;
use rv_parse_words::words::beginning_with;
use rv_statement_laws::{DirectiveWord, Mnemonic};

/// The operands of an instruction, or of a directive that counts bytes, where they are of one form.
pub(crate) fn form_of(name: &[u8]) -> Option<&'static str> {
    match beginning_with(name) {
        Beginning::Instruction(mnemonic) => form(mnemonic),
        Beginning::Directive(DirectiveWord::Zero) => Some("count, of zeros"),
        _ => None,
    }
}

/// Whether an instruction takes registers alone, or a number in the place of the last one.
pub(crate) fn takes_registers(name: &[u8]) -> bool {
    matches!(
        beginning_with(name),
        Beginning::Instruction(Mnemonic::Registers(_))
    )
}

fn form(mnemonic: Mnemonic) -> Option<&'static str> {
    Some(match mnemonic {
        Mnemonic::Registers(_) | Mnemonic::Compare(_) => "rd, rs1, rs2",
        Mnemonic::Immediate(_) | Mnemonic::Shift(_) => "rd, rs1, number",
        Mnemonic::Upper(_) | Mnemonic::Li => "rd, number",
        Mnemonic::Load(_) => "rd, number(rs1)",
        Mnemonic::Store(_) => "rs2, number(rs1)",
        Mnemonic::Branch(_) | Mnemonic::SwappedBranch(_) => "rs1, rs2, label",
        Mnemonic::ZeroBranch(_) => "rs1, label",
        Mnemonic::Jal | Mnemonic::J | Mnemonic::Call | Mnemonic::Tail => "label",
        Mnemonic::Jr => "rs1",
        Mnemonic::Unary(_) => "rd, rs1",
        Mnemonic::La => "rd, label",
        Mnemonic::LoadReserved(_) => "rd, (rs1)",
        Mnemonic::Atomic(..) => "rd, rs2, (rs1)",
        _ => return None,
    })
}
