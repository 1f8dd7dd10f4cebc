//! Names that the words of a link define.
//!
//! They are a source of its own, which has a line for each, so a program with them is a program of sources like any other:
//! its map has these names, and a fault names the option and, by its line, which of its uses is wrong.
//!
//! A value may use global names of the program, such as `_end`, whose values only a link tells. Their first values are a guess;
//! then the program is linked with those of its own map. No size depends on them, so its next map says the same: that is looked
//! at, and not taken for granted.

use rv_chain::GroundOptions;
use rv_map::{Map, read};
use rv_system::JobError;
use std::alloc::{AllocError, Global};

/// The name of the source, where one is shown.
pub(crate) const NAME: &str = "--defsym";
/// How often a program is linked for the values of its names.
pub(crate) const ROUNDS: usize = 2;

/// What words define.
#[derive(Drop)]
pub(crate) struct Definitions<'a> {
    all: Vec<Definition<'a>>,
    /// The names that values use and no word defines.
    of_link: Vec<LinkName<'a>>,
}

/// What a word defines: a name, by an expression.
#[derive(Clone, Copy, Drop)]
struct Definition<'a> {
    name: &'a str,
    value: &'a str,
}

/// A name whose value the link tells.
#[derive(Clone, Copy, Drop)]
struct LinkName<'a> {
    name: &'a str,
    value: u64,
}

impl<'a> Definitions<'a> {
    /// What words `NAME=N` define. The names of a link are first taken for the start of its text, since a call reaches that.
    pub(crate) fn of(
        alloc: Global,
        words: &[&'a str],
        options: GroundOptions,
    ) -> Result<Self, JobError> {
        let all = defined_by(alloc, words)?;
        let mut of_link = Vec::new(alloc);
        for definition in &all {
            put_link_names(&mut of_link, &all, definition.value, options.bounds.text)?;
        }
        Ok(Definitions { all, of_link })
    }

    /// Whether there is none.
    pub(crate) fn is_empty(&self) -> bool {
        self.all.is_empty()
    }

    /// Whether a link has to tell values.
    pub(crate) fn use_link(&self) -> bool {
        !self.of_link.is_empty()
    }

    /// The source that defines the names, by the values of the link's names that are known.
    pub(crate) fn source(&self, alloc: Global) -> Result<Vec<u8>, AllocError> {
        let mut text = Vec::new(alloc);
        for known in &self.of_link {
            let (name, value) = (known.name, known.value);
            let line = format!(in alloc; ".set {name}, {value}; ")?;
            text.extend_from_slice(line.as_bytes())?;
        }
        self.put_definitions(alloc, &mut text)?;
        Ok(text)
    }

    /// Adds a line for each definition.
    fn put_definitions(&self, alloc: Global, text: &mut Vec<u8>) -> Result<(), AllocError> {
        for definition in &self.all {
            let (name, value) = (definition.name, definition.value);
            let line = format!(in alloc; ".globl {name}; .set {name}, {value}\n")?;
            text.extend_from_slice(line.as_bytes())?;
        }
        Ok(())
    }

    /// Takes the values of names from the map of a program that was linked with those known before; whether they are the same.
    pub(crate) fn settle(&mut self, alloc: Global, map: &[u8]) -> Result<bool, JobError> {
        let Some(map) = read(alloc, map)? else {
            return Ok(true);
        };
        let mut is_settled = true;
        for known in &mut self.of_link {
            let Some(value) = value_of(&map, known.name) else {
                return Err(missing(alloc, known.name)?);
            };
            is_settled = is_settled && value == known.value;
            known.value = value;
        }
        Ok(is_settled)
    }
}

/// What words define, in their order.
fn defined_by<'a>(alloc: Global, words: &[&'a str]) -> Result<Vec<Definition<'a>>, JobError> {
    let mut all = Vec::new(alloc);
    for word in words {
        match read_word(word) {
            Some(definition) => all.push(definition)?,
            None => return Err(wanted(alloc, word)?),
        }
    }
    Ok(all)
}

/// What a word defines; none if it is no definition.
fn read_word(word: &str) -> Option<Definition<'_>> {
    let (name, value) = word.split_once('=')?;
    let is_definition = name.bytes().all(is_of_name)
        && value.bytes().all(is_of_value)
        && !has_comment(value);
    is_definition.then_some(Definition { name, value })
}

/// Whether a byte may stand in a name.
fn is_of_name(byte: u8) -> bool {
    byte.is_ascii_alphanumeric() || matches!(byte, b'_' | b'.' | b'$')
}

/// Whether a byte may stand in a value: it ends no statement and begins no string, and there is no place.
fn is_of_value(byte: u8) -> bool {
    byte.is_ascii_alphanumeric() || b"_$+-*/%&|^~<>!=() ".contains(&byte)
}

/// Whether what stands in a value would begin a comment.
fn has_comment(value: &str) -> bool {
    value.contains("//") || value.contains("/*")
}

/// Adds the names that a value uses and no word defines, each once.
fn put_link_names<'a>(
    names: &mut Vec<LinkName<'a>>,
    all: &[Definition<'a>],
    value: &'a str,
    guess: u64,
) -> Result<(), AllocError> {
    for name in value.split(|letter: char| !letter.is_ascii_alphanumeric()
        && letter != '_'
        && letter != '$')
    {
        let is_number = name.starts_with(|letter: char| letter.is_ascii_digit());
        let is_known = all.iter().any(|definition| definition.name == name)
            || names.iter().any(|known| known.name == name);
        if !name.is_empty() && !is_number && !is_known {
            names.push(LinkName { name, value: guess })?;
        }
    }
    Ok(())
}

/// The value of a global name of a map.
fn value_of(map: &Map, name: &str) -> Option<u64> {
    let global = map
        .globals
        .iter()
        .find(|global| global.name.as_slice() == name.as_bytes())?;
    Some(global.address)
}

/// What is said of a word that defines nothing.
fn wanted(alloc: Global, word: &str) -> Result<JobError, AllocError> {
    Ok(JobError::Line(format!(in alloc;
        "{NAME} {word}: a definition is NAME=N, with N of numbers, of names that were defined so before it, and of global names of the program"
    )?))
}

/// What is said of a name that no program has.
fn missing(alloc: Global, name: &str) -> Result<JobError, AllocError> {
    Ok(JobError::Line(format!(in alloc; "{NAME}: the program has no global name {name}")?))
}

/// What is said where each link moves the names that it was made with.
pub(crate) fn unsettled(alloc: Global) -> Result<JobError, AllocError> {
    Ok(JobError::Line(format!(in alloc;
        "{NAME}: the names of the program move with those that they define"
    )?))
}
