//! Of which kind the words of a line are.
//!
//! A line has columns of numbers, the name of a place perhaps, then a mnemonic and its operands. Addresses and the bytes
//! of an instruction may begin with a letter. So in the columns an even count of hexadecimal digits is a number, since
//! no mnemonic is spelled by them, and so are any before a colon, but for a label, with which a line begins. A name
//! after an address of 16 digits is a place, as traces have it.

use crate::colours::Kind;

/// Where in a line a word stands.
#[derive(Clone, Copy, PartialEq, Eq, Drop)]
pub(crate) enum Place {
    /// At the beginning.
    Start,
    /// Before the mnemonic.
    Columns,
    /// There, after an address of 16 digits.
    Address,
    /// After the mnemonic.
    Operands,
}

/// The kind of a word at a place, and the place of the next; `rest` is the text after it.
pub(crate) fn kind_at(place: Place, word: &[u8], rest: &[u8]) -> (Kind, Place) {
    let Some(first) = word.first() else {
        return (Kind::Plain, after_plain(place));
    };
    let is_alone = word.len() == 1;
    match *first {
        b'\n' if is_alone => (Kind::Plain, Place::Start),
        b';' if is_alone => (Kind::Plain, Place::Columns),
        b'<' if !is_alone => (Kind::Symbol, place),
        b'-' if !is_alone => (Kind::Number, after_number(place, word)),
        byte if byte.is_ascii_digit() => (Kind::Number, after_number(place, word)),
        byte if begins_name(byte) => kind_of_name(place, word, rest),
        _ => (Kind::Plain, after_plain(place)),
    }
}

/// Whether a name may begin with a byte.
fn begins_name(byte: u8) -> bool {
    byte.is_ascii_alphabetic() || matches!(byte, b'_' | b'.' | b'$')
}

/// The same of a name.
fn kind_of_name(place: Place, name: &[u8], rest: &[u8]) -> (Kind, Place) {
    if place == Place::Operands {
        return (kind_of_operand(name, rest), place);
    }
    if rest.starts_with(b":") {
        let kind = if place != Place::Start && are_digits(name) {
            Kind::Number
        } else {
            Kind::Symbol
        };
        return (kind, Place::Columns);
    }
    if matches!(name.len(), 2 | 4 | 8 | 16) && are_digits(name) {
        return (Kind::Number, after_number(place, name));
    }
    if place == Place::Address {
        return (Kind::Symbol, Place::Columns);
    }
    (kind_of_first(name), Place::Operands)
}

/// The kind of the name before the operands: a mnemonic has no capital letter first.
fn kind_of_first(name: &[u8]) -> Kind {
    match name.first() {
        _ if name == b"unknown".as_slice() => Kind::Plain,
        Some(b'a'..=b'z' | b'.') => Kind::Mnemonic,
        _ => Kind::Plain,
    }
}

/// The kind of a name among the operands. Before the name of its place, an address may have letters alone.
fn kind_of_operand(name: &[u8], rest: &[u8]) -> Kind {
    if is_register(name) {
        return Kind::Register;
    }
    if rest.starts_with(b":") {
        return Kind::Symbol;
    }
    if rest.starts_with(b" <") && are_digits(name) {
        return Kind::Number;
    }
    Kind::Plain
}

/// The place after what is no word of a column.
fn after_plain(place: Place) -> Place {
    match place {
        Place::Start => Place::Columns,
        _ => place,
    }
}

/// The place after a number.
fn after_number(place: Place, number: &[u8]) -> Place {
    match place {
        Place::Operands => Place::Operands,
        _ if number.len() == 16 => Place::Address,
        _ => Place::Columns,
    }
}

/// Whether a name has hexadecimal digits alone.
fn are_digits(name: &[u8]) -> bool {
    name.iter()
        .all(|byte| matches!(*byte, b'0'..=b'9' | b'a'..=b'f'))
}

/// Whether a name is a register's: `x0` to `x31`, or its ABI name.
fn is_register(name: &[u8]) -> bool {
    let Some((letter, rest)) = name.split_first() else {
        return false;
    };
    match *letter {
        b'x' => is_number_to(31, rest),
        b'a' => is_number_to(7, rest),
        b's' => is_number_to(11, rest) || is_pointer(rest),
        b't' => is_number_to(6, rest) || is_pointer(rest),
        b'g' | b'f' => is_pointer(rest),
        b'r' => rest == b"a".as_slice(),
        b'z' => rest == b"ero".as_slice(),
        _ => false,
    }
}

/// Whether this is what `sp`, `gp`, `tp` and `fp` end in.
fn is_pointer(rest: &[u8]) -> bool {
    rest == b"p".as_slice()
}

/// Whether digits are those of a number up to a limit.
fn is_number_to(limit: u8, digits: &[u8]) -> bool {
    match digits {
        [ones @ b'0'..=b'9'] => ones - b'0' <= limit,
        [tens @ b'1'..=b'9', ones @ b'0'..=b'9'] => (tens - b'0') * 10 + (ones - b'0') <= limit,
        _ => false,
    }
}
