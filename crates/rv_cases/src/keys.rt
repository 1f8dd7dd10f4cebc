//! The keys of a head, and which lines have one.

/// A key that a case takes.
#[derive(Clone, Copy, Drop)]
pub(crate) enum Key {
    Exit,
    End,
    Console,
    Fault,
    Input,
    Limit,
    Instructions,
}

/// The keys of a case.
const KEYS: [Key; 7] = [
    Key::Exit,
    Key::End,
    Key::Console,
    Key::Fault,
    Key::Input,
    Key::Limit,
    Key::Instructions,
];

/// The first words of keys of more words that are no keys of a case, but of a test of other calls.
const OTHERS: [&[u8]; 8] = [
    b"out",
    b"errors",
    b"text",
    b"rodata",
    b"data",
    b"section",
    b"alignment",
    b"no",
];

impl Key {
    pub(crate) fn name(self) -> &'static str {
        match self {
            Key::Exit => "exit",
            Key::End => "end",
            Key::Console => "console",
            Key::Fault => "fault",
            Key::Input => "input",
            Key::Limit => "limit",
            Key::Instructions => "instructions",
        }
    }

    /// The key of a name.
    fn of(name: &[u8]) -> Option<Key> {
        for key in &KEYS {
            if key.name().as_bytes() == name {
                return Some(*key);
            }
        }
        None
    }
}

/// What a line of a head is.
#[derive(Clone, Copy, Drop)]
pub(crate) enum HeadLine<'a> {
    /// Words for people.
    Words,
    /// A key of a case, and its value.
    Value(Key, &'a [u8]),
    /// The name of a key that a case does not take.
    Unknown(&'a [u8]),
    /// A key that does not stand behind `#` and one blank.
    Misplaced(Key),
}

impl<'a> HeadLine<'a> {
    /// Reads a line without its end: `# KEY: VALUE`, where the blank before the value may be missing.
    pub(crate) fn of(line: &'a [u8]) -> HeadLine<'a> {
        let Some((name, value)) = parts(line) else {
            return HeadLine::of_words(line);
        };
        match Key::of(name) {
            Some(key) => HeadLine::Value(key, value.strip_prefix(b" ").unwrap_or(value)),
            None if looks_like_key(name) => HeadLine::Unknown(name),
            None => HeadLine::of_words(line),
        }
    }

    /// A line that has no key in its place.
    fn of_words(line: &'a [u8]) -> HeadLine<'a> {
        match key_anywhere(line) {
            Some(key) => HeadLine::Misplaced(key),
            None => HeadLine::Words,
        }
    }
}

/// The key before the first colon of a comment, whatever blanks stand before it.
fn key_anywhere(line: &[u8]) -> Option<Key> {
    let said = line.strip_prefix(b"#")?.trim_ascii_start();
    let colon = said.iter().position(|byte| *byte == b':')?;
    Key::of(said.get(..colon)?)
}

/// What stands between `# ` and the first colon of a line, and what behind it.
fn parts(line: &[u8]) -> Option<(&[u8], &[u8])> {
    let said = line.strip_prefix(b"# ")?;
    let colon = said.iter().position(|byte| *byte == b':')?;
    Some((said.get(..colon)?, said.get(colon..)?.strip_prefix(b":")?))
}

/// Whether a name is one word of small letters, a key in other letters, or one of two or three words that tests have.
fn looks_like_key(name: &[u8]) -> bool {
    is_word(name) || is_key_in_capitals(name) || has_first_word_of_others(name)
}

/// Whether a name is one word of small letters.
fn is_word(name: &[u8]) -> bool {
    !name.is_empty() && name.iter().all(|byte| byte.is_ascii_lowercase())
}

/// Whether a name is that of a key but for the case of its letters.
fn is_key_in_capitals(name: &[u8]) -> bool {
    KEYS.iter()
        .any(|key| key.name().as_bytes().eq_ignore_ascii_case(name))
}

/// Whether a name has at most three words, the first of which begins keys of other tests.
fn has_first_word_of_others(name: &[u8]) -> bool {
    let mut words = name.split(|byte| *byte == b' ');
    let first = words.next().unwrap_or(name);
    let others = words.count();
    0 < others && others < 3 && OTHERS.iter().any(|other| *other == first)
}
