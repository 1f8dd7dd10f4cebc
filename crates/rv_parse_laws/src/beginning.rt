//! What the first word of a statement begins.

use rv_statement_laws::{DirectiveWord, Mnemonic};

/// What a word begins.
#[derive(Clone, Copy, Drop)]
pub enum Beginning {
    Instruction(Mnemonic),
    Directive(DirectiveWord),
    /// Neither an instruction nor a directive.
    Nothing,
}
