//! What may be meant by a word that is wrong, as the end of a sentence.

use crate::forms::{form_of, takes_registers};
use crate::names::{is_load_of_number, is_register};
use crate::near_words::{Wanted, near_word};
use crate::other_words::{directive_instead, instruction_instead};
use crate::parts::Part::{Shown, Words};
use crate::parts::put_parts;
use std::alloc::{AllocError, Global};

/// Adds the form of an instruction's operands.
pub(crate) fn put_form(text: &mut String, mnemonic: &[u8]) -> Result<(), AllocError> {
    let Some(form) = form_of(mnemonic) else {
        return Ok(());
    };
    put_parts(
        text,
        &[
            Words("; the form is "),
            Shown(mnemonic),
            Words(" "),
            Words(form),
        ],
    )
}

/// Adds what may be meant by a word that is the name of no instruction, with this word behind it.
pub(crate) fn put_meant_instruction(
    alloc: Global,
    text: &mut String,
    word: &[u8],
    behind: &[u8],
) -> Result<(), AllocError> {
    if let Some(words) = instruction_instead(word) {
        return put_parts(text, &[Words(": "), Words(words)]);
    }
    if let Some(near) = near_word(alloc, word, Wanted::Instruction)? {
        return put_near(text, word, near.as_slice());
    }
    // a label without its colon stands alone, or before an instruction
    if behind.is_empty() || form_of(behind).is_some() {
        return put_parts(
            text,
            &[
                Words(": a label ends with a colon, "),
                Shown(word),
                Words(":"),
            ],
        );
    }
    Ok(())
}

/// Adds what may be meant by a word that is the name of no directive.
pub(crate) fn put_meant_directive(
    alloc: Global,
    text: &mut String,
    word: &[u8],
) -> Result<(), AllocError> {
    if let Some(words) = directive_instead(word) {
        return put_parts(text, &[Words(": "), Words(words)]);
    }
    match near_word(alloc, word, Wanted::Directive)? {
        Some(near) => put_near(text, word, near.as_slice()),
        None => Ok(()),
    }
}

/// Adds a word that is spelt almost as another.
fn put_near(text: &mut String, word: &[u8], near: &[u8]) -> Result<(), AllocError> {
    let words = if word.eq_ignore_ascii_case(near) {
        " has small letters"
    } else {
        " is spelt almost so"
    };
    put_parts(text, &[Words(": "), Shown(near), Words(words)])
}

/// Adds the register that may be meant by a word that is none; whether there is one.
pub(crate) fn put_meant_register(
    alloc: Global,
    text: &mut String,
    word: &[u8],
) -> Result<bool, AllocError> {
    if is_register(word) {
        return Ok(false);
    }
    if let [b'$', name @ ..] = word
        && is_register(name)
    {
        return put_told(text, name, " has no $ here");
    }
    if let Some(family) = family_of(word) {
        return put_told(text, family.as_bytes(), " are registers");
    }
    match near_word(alloc, word, Wanted::Register)? {
        Some(near) => put_told(text, near.as_slice(), " is a register"),
        None => Ok(false),
    }
}

/// Adds what is meant, and what is said of it.
fn put_told<'a>(text: &mut String, meant: &'a [u8], words: &'a str) -> Result<bool, AllocError> {
    put_parts(text, &[Words(": "), Shown(meant), Words(words)])?;
    Ok(true)
}

/// The registers of a letter with digits behind it that are none.
fn family_of(word: &[u8]) -> Option<&'static str> {
    let (letter, digits) = word.split_first()?;
    if digits.is_empty() || !digits.iter().all(|byte| byte.is_ascii_digit()) {
        return None;
    }
    match letter {
        b'a' => Some("a0 to a7"),
        b's' => Some("s0 to s11"),
        b't' => Some("t0 to t6"),
        b'x' => Some("x0 to x31"),
        _ => None,
    }
}

/// Adds what may be meant by a name that is no number, in a statement of this mnemonic and first operand.
pub(crate) fn put_meant_number<'a>(
    alloc: Global,
    text: &mut String,
    mnemonic: &[u8],
    first: &'a [u8],
    name: &'a [u8],
) -> Result<(), AllocError> {
    if is_load_of_number(mnemonic) {
        return put_parts(
            text,
            &[
                Words("; la "),
                Shown(first),
                Words(", "),
                Shown(name),
                Words(" loads a label's address"),
            ],
        );
    }
    if takes_registers(mnemonic) {
        put_meant_register(alloc, text, name)?;
    }
    Ok(())
}
