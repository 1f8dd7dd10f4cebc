//! Directives that begin a block of statements, and those that end or part it: where the first is refused, the others follow
//! from that, and so do the uses of a macro, and a second definition of a name, which only one of the parts may have.

use crate::blanking::is_of_macro;
use crate::place::FaultPlace;
use crate::tokens::part;
use rv_fault::SourceCode;
use std::alloc::{AllocError, Global};

/// What a directive begins.
#[derive(Clone, Copy, Drop)]
pub(crate) enum Block {
    Macro,
    Repetition,
    Condition,
}

/// A block whose first directive was refused: its lines.
#[derive(Clone, Copy, Drop)]
struct Begun {
    block: Block,
    first: u32,
    /// The line of its end, where that was seen.
    last: u32,
}

/// The blocks whose first directives were refused.
#[derive(Drop)]
pub struct Blocks<'a> {
    begun: Vec<Begun>,
    /// The names of macros.
    macros: Vec<&'a [u8]>,
}

impl<'a> Blocks<'a> {
    /// None yet.
    pub fn new(alloc: Global) -> Blocks<'a> {
        Blocks {
            begun: Vec::new(alloc),
            macros: Vec::new(alloc),
        }
    }

    /// Notes a refused statement of a line, where it begins a block or ends one.
    pub fn note(
        &mut self,
        source: &'a [u8],
        place: &FaultPlace,
        line: u32,
    ) -> Result<(), AllocError> {
        let statement: &'a [u8] = part(source, place.statement.start, place.statement.stop);
        let (word, rest) = first_of(statement);
        if let Some(block) = ended_by(word) {
            self.end(block, line);
            return Ok(());
        }
        let Some(block) = begun_by(word) else {
            return Ok(());
        };
        if block == Block::Macro {
            self.macros.push(first_of(rest).0)?;
        }
        // what goes whole leaves no end behind
        if is_of_macro(source, place) {
            return Ok(());
        }
        self.begun.push(Begun {
            block,
            first: line,
            last: u32::MAX,
        })?;
        Ok(())
    }

    /// Ends the latest block of a kind that has no end.
    fn end(&mut self, block: Block, line: u32) {
        if let Some(begun) = self
            .begun
            .iter_mut()
            .rev()
            .find(|begun| begun.block == block && begun.last == u32::MAX)
        {
            begun.last = line;
        }
    }

    /// Whether a fault of a statement of a line only follows from the want of a block.
    pub fn explain(&self, source: &[u8], code: SourceCode, place: &FaultPlace, line: u32) -> bool {
        let statement = part(source, place.statement.start, place.statement.stop);
        let (word, _) = first_of(statement);
        let block = match code {
            SourceCode::UnknownMnemonic => return self.has_macro(word),
            SourceCode::UnknownDirective | SourceCode::UnsupportedHere => block_of(word),
            SourceCode::DuplicateLabel => Some(Block::Condition),
            _ => None,
        };
        match block {
            Some(block) => self.has(block, line),
            None => false,
        }
    }

    /// Whether a macro has this name.
    fn has_macro(&self, word: &[u8]) -> bool {
        self.macros.iter().any(|name| *name == word)
    }

    /// Whether a line is in a block of a kind.
    fn has(&self, block: Block, line: u32) -> bool {
        self.begun.iter().any(|begun| begun.block == block
            && begun.first <= line
            && line <= begun.last)
    }
}

/// The first word of a text, and what stands behind it without blanks at its front.
fn first_of(text: &[u8]) -> (&[u8], &[u8]) {
    match text
        .iter()
        .position(|byte| matches!(*byte, b' ' | b'\t' | b',' | b'('))
    {
        Some(end) => (
            part(text, 0, end),
            part(text, end, text.len()).trim_ascii_start(),
        ),
        None => (text, b""),
    }
}

/// The block that a directive begins.
pub(crate) fn begun_by(word: &[u8]) -> Option<Block> {
    if word == b".macro".as_slice() {
        Some(Block::Macro)
    } else if word == b".rept".as_slice() || word.starts_with(b".irp") {
        Some(Block::Repetition)
    } else if word.starts_with(b".if") {
        Some(Block::Condition)
    } else {
        None
    }
}

/// The block that a directive ends.
fn ended_by(word: &[u8]) -> Option<Block> {
    if word == b".endm".as_slice() {
        Some(Block::Macro)
    } else if word == b".endr".as_slice() {
        Some(Block::Repetition)
    } else if word == b".endif".as_slice() {
        Some(Block::Condition)
    } else {
        None
    }
}

/// The block to which a directive belongs that ends or parts one.
fn block_of(word: &[u8]) -> Option<Block> {
    if word == b".else".as_slice() || word == b".elseif".as_slice() {
        Some(Block::Condition)
    } else if word == b".exitm".as_slice() {
        Some(Block::Macro)
    } else {
        ended_by(word)
    }
}
