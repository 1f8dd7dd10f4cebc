//! What is said of a fault of a source: what stands there, and what may.

use crate::forms::form_of;
use crate::meant::{
    put_form, put_meant_directive, put_meant_instruction, put_meant_number, put_meant_register,
};
use crate::names::{has_gaps, is_access, is_zero, range_of};
use crate::other_extensions::{is_of_extension, words_of_unknown};
use crate::other_files::words_of_file;
use crate::other_words::left_out_instead;
use crate::parcel_numbers::{numbers_of, parcel_named};
use crate::parts::Part::{self, Shown, Words};
use crate::parts::put_parts;
use crate::place::{Expected, FaultPlace};
use crate::tokens::part;
use rv_fault::SourceCode;
use std::alloc::{AllocError, Global};

/// Numbers of more digits may have the sign bit.
const LONGEST_NUMBER: usize = 17;
/// A decimal number of fewer digits has 12 bits and a sign.
const SHORT_NUMBER: usize = 4;
/// A longer operand is not shown whole.
const LONGEST_CURE: usize = 40;

/// The bytes that a sentence speaks of.
#[derive(Clone, Copy)]
struct Subject<'a> {
    /// The statement after its labels.
    statement: &'a [u8],
    /// The first word of the statement.
    mnemonic: &'a [u8],
    /// The first operand, up to a blank or a comma.
    first: &'a [u8],
    /// The second one.
    second: &'a [u8],
    /// What the carets show.
    shown: &'a [u8],
    /// The carets show a label before the statement.
    is_before: bool,
    /// What the carets show has no name in it.
    is_number: bool,
    /// What may stand there.
    expected: Expected,
    /// The line of the first definition of the name that the carets show, else 0.
    first_line: u32,
    /// The statement stands behind a semicolon.
    is_behind_semicolon: bool,
}

/// Adds the sentence of a fault.
pub fn put_sentence(
    alloc: Global,
    text: &mut String,
    source: &[u8],
    code: SourceCode,
    place: &FaultPlace,
) -> Result<(), AllocError> {
    if place.shown.start == 0
        && let Some(words) = words_of_file(source)
    {
        return text.push_str(words);
    }
    let statement = part(source, place.statement.start, place.statement.stop);
    let mnemonic = word(statement);
    let first = word(after(statement, mnemonic));
    let second = word(after(after(statement, mnemonic), first));
    let subject = Subject {
        statement,
        mnemonic,
        first,
        second,
        shown: line_of(part(source, place.shown.start, place.shown.stop)),
        is_before: place.shown.start < place.statement.start || is_label(source, place),
        is_number: place.is_number,
        expected: place.expected,
        first_line: place.first_line,
        is_behind_semicolon: part(source, 0, place.whole.start)
            .trim_ascii_end()
            .ends_with(b";"),
    };
    if place.ends && code == SourceCode::BadOperands {
        return put_cut_short(alloc, text, &subject);
    }
    put_words(alloc, text, code, place.known, &subject)
}

/// The bytes up to a line feed: what has no end goes on in the next line.
fn line_of(bytes: &[u8]) -> &[u8] {
    match bytes.iter().position(|byte| *byte == b'\n') {
        Some(end) => part(bytes, 0, end),
        None => bytes,
    }
}

/// Adds what is said of a statement that ends too soon.
fn put_cut_short(
    alloc: Global,
    text: &mut String,
    subject: &Subject<'_>,
) -> Result<(), AllocError> {
    put_parts(text, &[Shown(subject.mnemonic), Words(" cannot end here")])?;
    let opened = count_of(subject.statement, b'(');
    if count_of(subject.statement, b')') < opened {
        return text.push_str(": ) is missing");
    }
    if subject.first.starts_with(b"$") && put_meant_register(alloc, text, subject.first)? {
        return Ok(());
    }
    text.push_str(": an operand is missing")?;
    put_form(text, subject.mnemonic)
}

/// How often a byte stands in a text.
fn count_of(bytes: &[u8], wanted: u8) -> usize {
    let mut count = 0usize;
    for byte in bytes {
        if *byte == wanted {
            count = count.saturating_add(1);
        }
    }
    count
}

/// Whether the carets show a label behind which no statement stands.
fn is_label(source: &[u8], place: &FaultPlace) -> bool {
    let rest = part(source, place.shown.stop, source.len());
    place.shown.start == place.statement.start && rest.trim_ascii_start().starts_with(b":")
}

/// The bytes up to a blank, a comma or a parenthesis.
fn word(bytes: &[u8]) -> &[u8] {
    match bytes
        .iter()
        .position(|byte| matches!(*byte, b' ' | b'\t' | b',' | b'(' | b')'))
    {
        Some(end) => part(bytes, 0, end),
        None => bytes,
    }
}

/// What comes after a word at the front, its comma and blanks aside.
fn after<'a>(bytes: &'a [u8], front: &[u8]) -> &'a [u8] {
    let rest = part(bytes, front.len(), bytes.len()).trim_ascii_start();
    match rest {
        [b',', rest @ ..] => rest.trim_ascii_start(),
        _ => rest,
    }
}

/// Adds what is said of a fault inside a statement.
fn put_words(
    alloc: Global,
    text: &mut String,
    code: SourceCode,
    known: bool,
    subject: &Subject<'_>,
) -> Result<(), AllocError> {
    match code {
        SourceCode::BadToken => put_bad_token(text, subject.shown),
        SourceCode::BadByte => put_bad_byte(text, subject.shown),
        SourceCode::BadOperands => put_bad_operand(alloc, text, known, subject),
        SourceCode::ImmediateRange => put_range(alloc, text, known, subject),
        SourceCode::NotConstant => put_not_constant(alloc, text, known, subject),
        SourceCode::UnknownMnemonic => put_unknown_mnemonic(alloc, text, subject),
        SourceCode::UnknownDirective => put_unknown_directive(alloc, text, subject.shown),
        SourceCode::UnsupportedHere => put_unsupported(alloc, text, subject),
        SourceCode::DuplicateLabel => put_duplicate(alloc, text, known, subject),
        SourceCode::UndefinedLocal => put_undefined_local(text, known, subject),
        SourceCode::ScratchRegister => put_parts(
            text,
            &[
                shown_or(known, subject, "x0, or a register that is stored,"),
                Words(" cannot hold the address on the way to the symbol; another register can"),
            ],
        ),
        SourceCode::WrongSection => put_parts(
            text,
            &[
                shown_or(known, subject, "a statement of this line"),
                Words(
                    " cannot stand in this section: instructions go to .text, data to .data or .rodata",
                ),
            ],
        ),
        SourceCode::Limit if known => put_range(alloc, text, known, subject),
        _ => text.push_str(plain_words(code)),
    }
}

/// Adds what is said of a value that is no number at its line.
fn put_not_constant(
    alloc: Global,
    text: &mut String,
    known: bool,
    subject: &Subject<'_>,
) -> Result<(), AllocError> {
    put_parts(
        text,
        &[
            shown_or(known, subject, "a value here"),
            Words(" is no number that is known at this line, and a number has to stand here"),
        ],
    )?;
    if known {
        return put_meant_number(alloc, text, subject.mnemonic, subject.first, subject.shown);
    }
    Ok(())
}

/// Adds what is said of a word that is the name of no instruction.
fn put_unknown_mnemonic(
    alloc: Global,
    text: &mut String,
    subject: &Subject<'_>,
) -> Result<(), AllocError> {
    let words = words_of_unknown(subject.shown);
    put_parts(text, &[written(subject.shown), Words(words)])?;
    if is_of_extension(subject.shown) {
        return Ok(());
    }
    if subject.is_behind_semicolon {
        return text.push_str(": behind ; a statement begins, and behind # a comment");
    }
    let behind = after(subject.statement, subject.shown);
    put_meant_instruction(alloc, text, subject.shown, word(behind))
}

/// Adds what is said of a word that is the name of no directive.
fn put_unknown_directive(alloc: Global, text: &mut String, name: &[u8]) -> Result<(), AllocError> {
    put_parts(
        text,
        &[written(name), Words(" is the name of no directive")],
    )?;
    put_meant_directive(alloc, text, name)
}

/// Adds what is said of a name that is defined before, and where.
fn put_duplicate(
    alloc: Global,
    text: &mut String,
    known: bool,
    subject: &Subject<'_>,
) -> Result<(), AllocError> {
    let name = shown_or(known, subject, "a name here");
    let last = Words(", and a name has one definition");
    if subject.first_line == 0 {
        return put_parts(text, &[name, Words(" is defined before this line"), last]);
    }
    let line = subject.first_line;
    let told = format!(in alloc; " is defined at line {line}")?;
    put_parts(text, &[name, Words(told.as_str()), last])
}

/// Adds what is said of a reference to a label that the source does not have.
fn put_undefined_local(
    text: &mut String,
    known: bool,
    subject: &Subject<'_>,
) -> Result<(), AllocError> {
    let is_numeric = known
        && subject
            .shown
            .first()
            .is_some_and(|byte| byte.is_ascii_digit());
    let words = if is_numeric {
        " has no label: digits with b want it before, with f after this line"
    } else {
        " is no label of this source"
    };
    put_parts(
        text,
        &[
            shown_or(known, subject, "what this refers to"),
            Words(words),
        ],
    )
}

/// What is said of a fault whatever stands there.
fn plain_words(code: SourceCode) -> &'static str {
    match code {
        SourceCode::NestingTooDeep => "64 parentheses and signs inside one another are the most",
        SourceCode::DivisionByZero => "a division by 0 has no value; another number may stand here",
        SourceCode::ShiftTooLarge => "a shift goes by 0 to 63",
        SourceCode::OptionStack => "no .option push before this one is left to pop",
        _ => "this passes a limit: 'rv explain E17' names them",
    }
}

/// What the carets show, or what stands for it where they show the statement.
fn shown_or<'a>(known: bool, subject: &Subject<'a>, otherwise: &'a str) -> Part<'a> {
    if known {
        written(subject.shown)
    } else {
        Words(otherwise)
    }
}

/// A token as it is written; a comma in words.
fn written(token: &[u8]) -> Part<'_> {
    if token == b",".as_slice() {
        Words("a comma")
    } else {
        Shown(token)
    }
}

/// Adds what is said of a byte that no source has.
fn put_bad_byte(text: &mut String, shown: &[u8]) -> Result<(), AllocError> {
    text.push_str("outside strings and comments a source has printed ASCII characters alone")?;
    match shown.first() {
        Some(0xE2) => text.push_str(": \" and - of the keyboard, not of a word processor"),
        Some(0xC2) => text.push_str(": a plain blank, not one that keeps words together"),
        Some(0xEF) => text.push_str(": save the file without a byte order mark"),
        _ => Ok(()),
    }
}

/// Adds what is said of a token that there is not.
fn put_bad_token(text: &mut String, shown: &[u8]) -> Result<(), AllocError> {
    match shown.first() {
        Some(b'"') if has_end(shown) => text.push_str(
            "the string has an escape that there is not: \\n, \\t, \\\\, \\\" and \\x41 are some",
        ),
        Some(b'"') => text.push_str(
            "the string that begins here has no end: \" closes it, in the same line",
        ),
        Some(b'\'') => text.push_str("the character that begins here has no end, or is none"),
        Some(b'/') => text.push_str("the comment that begins here has no end"),
        Some(b'[') => text.push_str("[ begins nothing here: an address is number(register)"),
        Some(digit) if digit.is_ascii_digit() => {
            put_parts(text, &[Shown(shown), Words(why_no_number(shown))])
        }
        _ => text.push_str("no word or sign of the language begins so"),
    }
}

/// Whether a string has the quote that closes it.
fn has_end(shown: &[u8]) -> bool {
    2 <= shown.len() && shown.ends_with(b"\"") && !shown.ends_with(b"\\\"")
}

/// Why a word that begins with a digit is no number.
fn why_no_number(shown: &[u8]) -> &'static str {
    let has_digits_alone = shown.iter().all(|byte| byte.is_ascii_digit());
    match (shown.first(), shown.last()) {
        (Some(b'0'), _) if has_digits_alone => {
            " is no number: after 0 at its front the digits are octal, 0 to 7"
        }
        _ if has_digits_alone => " is no number: one is below 2^64, 18446744073709551616",
        (_, Some(b'h' | b'H')) => " is no number: hexadecimal digits stand behind 0x, without h",
        _ if shown.iter().any(|byte| *byte == b'_') => " is no number: digits stand without _",
        _ => { " is no number: one is below 2^64 and has digits alone, after 0x hexadecimal ones" }
    }
}

/// Adds what is said of what is left out: the name of the statement, or an operand.
fn put_unsupported(
    alloc: Global,
    text: &mut String,
    subject: &Subject<'_>,
) -> Result<(), AllocError> {
    // a number is left out where no register in parentheses comes after it
    if subject.expected == Expected::Parenthesis {
        return put_bad_operand(alloc, text, true, subject);
    }
    if is_access(subject.mnemonic) && is_number(subject.shown) {
        return put_address(text, subject);
    }
    put_left_out(text, subject, subject.shown == subject.mnemonic)
}

/// Adds that what the carets show is left out, which is the whole statement or an operand of it.
fn put_left_out(
    text: &mut String,
    subject: &Subject<'_>,
    is_whole: bool,
) -> Result<(), AllocError> {
    if !is_whole {
        put_parts(text, &[Shown(subject.mnemonic), Words(" with ")])?;
    }
    let left_out = [
        written(subject.shown),
        Words(" is left out of this language"),
    ];
    put_parts(text, &left_out)?;
    match left_out_instead(subject.shown) {
        Some(words) => put_parts(text, &[Words(": "), Words(words)]),
        None if is_whole => text.push_str(", at least with these operands"),
        None => Ok(()),
    }
}

/// Adds what is said of an operand that a statement does not take.
fn put_bad_operand(
    alloc: Global,
    text: &mut String,
    known: bool,
    subject: &Subject<'_>,
) -> Result<(), AllocError> {
    if subject.is_before {
        return put_parts(
            text,
            &[
                written(subject.shown),
                Words(" cannot be a label: it is a register's name"),
            ],
        );
    }
    let what = shown_or(known, subject, "this");
    match subject.expected {
        Expected::Comma => put_parts(text, &[Words("a comma is missing before "), what]),
        Expected::Parenthesis => {
            put_parts(text, &[Words("( is missing before "), what])?;
            put_form(text, subject.mnemonic)
        }
        _ => put_not_taken(alloc, text, known, subject),
    }
}

/// Adds that a statement does not take an operand, and what it takes.
fn put_not_taken(
    alloc: Global,
    text: &mut String,
    known: bool,
    subject: &Subject<'_>,
) -> Result<(), AllocError> {
    put_parts(
        text,
        &[
            Shown(subject.mnemonic),
            Words(" does not take "),
            shown_or(known, subject, "these operands"),
        ],
    )?;
    if !known {
        return put_form(text, subject.mnemonic);
    }
    text.push_str(wanted_words(subject))?;
    if is_for_register(subject.expected) && put_meant_register(alloc, text, subject.shown)? {
        return Ok(());
    }
    put_form(text, subject.mnemonic)
}

/// What may stand where a wrong operand does, but for a name, which the form shows.
fn wanted_words(subject: &Subject<'_>) -> &'static str {
    if subject.expected == Expected::Name && form_of(subject.mnemonic).is_some() {
        return " here";
    }
    expected_words(subject.expected)
}

/// Whether a register may stand there.
fn is_for_register(expected: Expected) -> bool {
    matches!(
        expected,
        Expected::Register | Expected::RegisterOrNumber | Expected::OtherRegister
    )
}

/// What may stand where a wrong operand does.
fn expected_words(expected: Expected) -> &'static str {
    match expected {
        Expected::Unknown => " here",
        Expected::Register => " here, but a register",
        Expected::OtherRegister => " here, but another register",
        Expected::ShortRegister => " here, but one of a0 to a5, s0, s1",
        Expected::RegisterOrNumber => " here, but a register or a number",
        Expected::NumberOrName => " here, but a number or a name",
        Expected::Name => " here, but a name",
        Expected::Letters => " here, but letters of iorw in this order",
        Expected::Stack => " here, but sp",
        Expected::Comma => " here, but a comma",
        Expected::Parenthesis => " here, but a parenthesis",
    }
}

/// Adds what is said of a number out of its range.
fn put_range(
    alloc: Global,
    text: &mut String,
    known: bool,
    subject: &Subject<'_>,
) -> Result<(), AllocError> {
    if let Some(range) = range_in(subject) {
        return put_missed(text, known, subject, range);
    }
    if let Some(operation) = parcel_named(subject.mnemonic) {
        let numbers = numbers_of(alloc, operation)?;
        return put_missed(text, known, subject, numbers.as_str());
    }
    put_parts(
        text,
        &[
            shown_or(known, subject, "a value here"),
            Words(
                " is none that this statement takes: it is out of range, or a number as a target",
            ),
        ],
    )
}

/// Adds how a load or a store names an address that is a number.
fn put_address(text: &mut String, subject: &Subject<'_>) -> Result<(), AllocError> {
    put_parts(
        text,
        &[
            Shown(subject.mnemonic),
            Words(" takes a name here, or a number before a register in parentheses"),
        ],
    )?;
    if subject.shown.len() < SHORT_NUMBER {
        return put_parts(
            text,
            &[
                Words(": "),
                Shown(subject.shown),
                Words("(zero) is that address"),
            ],
        );
    }
    text.push_str(": load the address into one by li")
}

/// Adds what is said of a number outside of this range.
fn put_missed<'a>(
    text: &mut String,
    known: bool,
    subject: &Subject<'a>,
    range: &'a str,
) -> Result<(), AllocError> {
    put_parts(
        text,
        &[
            Shown(subject.mnemonic),
            Words(" takes "),
            Words(range),
            Words(" here, "),
            shown_or(known, subject, "the value"),
            Words(size_in_words(subject)),
        ],
    )?;
    if known && subject.mnemonic == b"addi".as_slice() {
        return put_load(text, subject);
    }
    Ok(())
}

/// What the number of a statement may be, where it is known: of a load or a store, before a register in parentheses.
fn range_in(subject: &Subject<'_>) -> Option<&'static str> {
    if is_access(subject.mnemonic) && !subject.statement.ends_with(b")") {
        return None;
    }
    range_of(subject.mnemonic)
}

/// Adds the instruction that loads any number.
fn put_load(text: &mut String, subject: &Subject<'_>) -> Result<(), AllocError> {
    if !is_zero(subject.second) {
        return text.push_str("; li loads it, and add adds it");
    }
    if !subject.is_number || LONGEST_CURE < subject.shown.len() {
        return text.push_str("; li loads it");
    }
    put_parts(
        text,
        &[
            Words("; li "),
            Shown(subject.first),
            Words(", "),
            Shown(subject.shown),
            Words(" loads it"),
        ],
    )
}

/// How a number misses its range, where it is written as one.
fn size_in_words(subject: &Subject<'_>) -> &'static str {
    if has_gaps(subject.mnemonic) || LONGEST_NUMBER < subject.shown.len() {
        return " is outside";
    }
    match subject.shown {
        [b'-', rest @ ..] if is_number(rest) => " is too small",
        number if is_number(number) => " is too large",
        _ => " is outside",
    }
}

/// Whether a text is a number as it is written.
fn is_number(text: &[u8]) -> bool {
    match text.first() {
        Some(first) => first.is_ascii_digit()
            && text.iter().all(|byte| byte.is_ascii_alphanumeric()),
        None => false,
    }
}
