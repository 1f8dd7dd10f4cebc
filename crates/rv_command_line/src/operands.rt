//! What a word takes: options and files, each with the type of what is read of it.
//!
//! A word is one function, which asks [`Operands`] for all that it takes, in the order of the help, and makes its job of the
//! answers. It is called twice: once where nothing was given, and its operands are only listed, for `clap`, the help and the
//! completions; and once with what `clap` found. So no operand is read that the help does not have, nor the other way round.
//!
//! An operand that is refused has any value, and why it is refused is kept: a job is one only where nothing was
//! ([`Operands::end`]). So a word asks for one operand after the other, and none of its lines can leave it early.

use clap::ArgMatches;
use rv_job::Job;
use std::alloc::{AllocError, Global};

/// How an operand is written.
#[derive(Clone, Copy, Drop)]
pub(crate) enum Name {
    /// `--long`.
    Long(&'static str),
    /// `-v`.
    Letter(char),
    /// A word alone.
    Alone,
}

/// How often an operand may be written, and with how many values.
#[derive(Clone, Copy, PartialEq, Eq, Drop)]
pub(crate) enum Uses {
    /// Without a value.
    Flag,
    /// Without a value, as often as one likes.
    Flags,
    /// With a value.
    One,
    /// With a value, as often as one likes.
    Each,
    /// Values one behind the other, one at least.
    Several,
}

/// Whether an operand has to be there, by the ids of others.
#[derive(Clone, Copy, Drop)]
pub(crate) enum Need {
    Optional,
    Required,
    /// It has to, unless this other is there.
    Unless(&'static str),
    /// It has to, unless one of these two is there.
    UnlessEither(&'static str, &'static str),
    /// It may, where this other is there.
    Beside(&'static str),
    /// It may, where this other is not there.
    Against(&'static str),
}

/// An operand as the help, the completions and `clap` know it.
#[derive(Clone, Copy, Drop)]
pub(crate) struct Entry {
    /// The name by which `clap` keeps what is found of it.
    pub(crate) id: &'static str,
    pub(crate) name: Name,
    pub(crate) uses: Uses,
    /// What the help calls its value; nothing where it has none.
    pub(crate) value: &'static str,
    pub(crate) need: Need,
    pub(crate) help: &'static str,
}

impl Entry {
    fn new(
        id: &'static str,
        name: Name,
        uses: Uses,
        value: &'static str,
        help: &'static str,
    ) -> Entry {
        Entry {
            id,
            name,
            uses,
            value,
            need: Need::Optional,
            help,
        }
    }

    fn needed(self, need: Need) -> Entry {
        let mut entry = self;
        entry.need = need;
        entry
    }

    /// Whether it is a file, and no option.
    pub(crate) fn is_file(&self) -> bool {
        matches!(self.name, Name::Alone)
    }

    /// Whether a use of it has a value.
    pub(crate) fn has_value(&self) -> bool {
        !matches!(self.uses, Uses::Flag | Uses::Flags)
    }
}

/// An option without a value.
#[derive(Clone, Copy, Drop)]
pub(crate) struct Flag(Entry);

impl Flag {
    /// `--long`.
    pub(crate) fn long(long: &'static str, help: &'static str) -> Flag {
        Flag(Entry::new(long, Name::Long(long), Uses::Flag, "", help))
    }

    /// `-v`.
    pub(crate) fn letter(id: &'static str, letter: char, help: &'static str) -> Flag {
        Flag(Entry::new(id, Name::Letter(letter), Uses::Flag, "", help))
    }

    /// It may be there where this other is not.
    pub(crate) fn against(self, other: Text) -> Flag {
        Flag(self.0.needed(Need::Against(other.0.id)))
    }

    /// It may be there where this other is.
    pub(crate) fn beside(self, other: Flag) -> Flag {
        Flag(self.0.needed(Need::Beside(other.0.id)))
    }
}

/// An operand with one value.
#[derive(Clone, Copy, Drop)]
pub(crate) struct Text(Entry);

impl Text {
    /// `--long VALUE`.
    pub(crate) fn long(long: &'static str, value: &'static str, help: &'static str) -> Text {
        Text(Entry::new(long, Name::Long(long), Uses::One, value, help))
    }

    /// `-o VALUE`, the file that is written.
    pub(crate) fn output(value: &'static str, help: &'static str) -> Text {
        Text(Entry::new("output", Name::Letter('o'), Uses::One, value, help))
    }

    /// A word alone.
    pub(crate) fn alone(value: &'static str, help: &'static str) -> Text {
        Text(Entry::new("alone", Name::Alone, Uses::One, value, help))
    }

    /// It has to be there unless this other is.
    pub(crate) fn unless(self, other: Flag) -> Text {
        Text(self.0.needed(Need::Unless(other.0.id)))
    }
}

/// An operand whose values are kept, however often it is written.
#[derive(Clone, Copy, Drop)]
pub(crate) struct Texts(Entry);

impl Texts {
    /// `-m VALUE`, as often as one likes.
    pub(crate) fn letter(
        id: &'static str,
        letter: char,
        value: &'static str,
        help: &'static str,
    ) -> Texts {
        Texts(Entry::new(id, Name::Letter(letter), Uses::Each, value, help))
    }

    /// `--long VALUE`, as often as one likes.
    pub(crate) fn long(long: &'static str, value: &'static str, help: &'static str) -> Texts {
        Texts(Entry::new(long, Name::Long(long), Uses::Each, value, help))
    }

    /// `--long`, as often as one likes; each use has an empty value.
    pub(crate) fn flag(long: &'static str, help: &'static str) -> Texts {
        Texts(Entry::new(long, Name::Long(long), Uses::Flags, "", help))
    }

    /// Words alone, one at least.
    pub(crate) fn alone(value: &'static str, help: &'static str) -> Texts {
        Texts(Entry::new("alone", Name::Alone, Uses::Several, value, help).needed(Need::Required))
    }

    /// They have to be there unless one of these two is.
    pub(crate) fn unless_either(self, one: Texts, other: Texts) -> Texts {
        Texts(self.0.needed(Need::UnlessEither(one.0.id, other.0.id)))
    }
}

/// Why the operands of a word ask for nothing.
#[derive(Clone, Copy, Drop)]
pub(crate) enum Refusal<'a> {
    /// A word is wrong, or nothing that was written: what is said before it and behind it.
    Wrong(&'static str, &'a str, &'static str),
    Memory,
}

impl From<AllocError> for Refusal<'_> {
    fn from(_: AllocError) -> Self {
        Refusal::Memory
    }
}

/// The operands of a word, which its function asks for.
#[derive(Drop)]
pub(crate) struct Operands<'f, 'a> {
    pub(crate) alloc: Global,
    /// What was found of them; nothing where they are only listed.
    found: Option<&'f ArgMatches<'a>>,
    /// What the environment says of the limit of a run.
    pub(crate) limit: Option<&'a str>,
    /// Those that were asked for, where they are only listed.
    listed: &'f mut Vec<Entry>,
    /// What was refused first.
    refusal: Option<Refusal<'a>>,
}

impl<'f, 'a> Operands<'f, 'a> {
    /// Those that were found, or, where none can be, those that a word lists.
    pub(crate) fn new(
        alloc: Global,
        found: Option<&'f ArgMatches<'a>>,
        limit: Option<&'a str>,
        listed: &'f mut Vec<Entry>,
    ) -> Operands<'f, 'a> {
        Operands {
            alloc,
            found,
            limit,
            listed,
            refusal: None,
        }
    }

    /// The job that was made of them, unless one was refused.
    pub(crate) fn end(&self, job: Job<'a>) -> Result<Job<'a>, Refusal<'a>> {
        match self.refusal {
            Some(refusal) => {
                let_go(job);
                Err(refusal)
            }
            None => Ok(job),
        }
    }

    /// Whether all could be listed; the job that was made of nothing is let go.
    pub(crate) fn end_of_list(&self, job: Job<'a>) -> Result<(), AllocError> {
        let_go(job);
        match self.refusal {
            Some(Refusal::Memory) => Err(AllocError),
            _ => Ok(()),
        }
    }

    /// Refuses what was given; where operands are only listed nothing was, so nothing is wrong.
    pub(crate) fn refuse(&mut self, wanted: &'static str) {
        self.refuse_word("", "", wanted);
    }

    /// Refuses a word, with what is said before it and behind it.
    pub(crate) fn refuse_word(
        &mut self,
        before: &'static str,
        word: &'a str,
        behind: &'static str,
    ) {
        if self.found.is_some() {
            self.keep(Refusal::Wrong(before, word, behind));
        }
    }

    /// Keeps the first refusal.
    fn keep(&mut self, refusal: Refusal<'a>) {
        if self.refusal.is_none() {
            self.refusal = Some(refusal);
        }
    }

    /// Keeps want of memory.
    pub(crate) fn try_keep(&mut self, tried: Result<(), AllocError>) {
        if let Err(error) = tried {
            self.keep(Refusal::from(error));
        }
    }

    /// What was found, or a row more of the list.
    fn found(&mut self, entry: Entry) -> Option<&'f ArgMatches<'a>> {
        if self.found.is_none() {
            let tried = put(self.listed, entry);
            self.try_keep(tried);
        }
        self.found
    }

    /// Whether an option is there.
    pub(crate) fn flag(&mut self, flag: Flag) -> bool {
        match self.found(flag.0) {
            Some(found) => found.get_flag(flag.0.id),
            None => false,
        }
    }

    /// The value of what may be there.
    pub(crate) fn optional(&mut self, text: Text) -> Option<&'a str> {
        self.found(text.0)?.get_str(text.0.id)
    }

    /// The value of what has to be there.
    pub(crate) fn required(&mut self, text: Text) -> &'a str {
        let value = self.optional(Text(text.0.needed(Need::Required)));
        if value.is_none() {
            self.refuse("a word is missing");
        }
        value.unwrap_or("")
    }

    /// The values of all uses.
    pub(crate) fn given(&mut self, texts: Texts) -> &'f [&'a str] {
        self.uses(texts).unwrap_or_default()
    }

    fn uses(&mut self, texts: Texts) -> Option<&'f [&'a str]> {
        self.found(texts.0)?.get_strs(texts.0.id)
    }

    /// The places of all uses among the words.
    pub(crate) fn places(&self, texts: Texts) -> &'f [usize] {
        match self.found {
            Some(found) => found.indices_of(texts.0.id).unwrap_or_default(),
            None => &[],
        }
    }

    /// The values of all uses, as a list of one's own.
    pub(crate) fn all(&mut self, texts: Texts) -> Vec<&'a str> {
        let given = self.given(texts);
        self.copied(given)
    }

    /// The first value, which has to be there, and those behind it.
    pub(crate) fn first_and_others(&mut self, texts: Texts) -> (&'a str, Vec<&'a str>) {
        let given = self.given(texts);
        match given.split_first() {
            Some((first, others)) => (*first, self.copied(others)),
            None => {
                self.refuse("a word is missing");
                ("", Vec::new(self.alloc))
            }
        }
    }

    /// A copy of a list.
    fn copied(&mut self, given: &[&'a str]) -> Vec<&'a str> {
        let mut values = Vec::new(self.alloc);
        self.try_keep(values.extend_from_slice(given));
        values
    }

    /// Whether both are there, the one before the other.
    pub(crate) fn is_before(&self, one: Text, other: Text) -> bool {
        self.is_before_id(one, other.0.id)
    }

    /// Whether it is there, before the first of these.
    pub(crate) fn is_before_all(&self, one: Text, others: Texts) -> bool {
        self.is_before_id(one, others.0.id)
    }

    fn is_before_id(&self, one: Text, other: &str) -> bool {
        let Some(found) = self.found else {
            return false;
        };
        match (found.index_of(one.0.id), found.index_of(other)) {
            (Some(first), Some(second)) => first < second,
            _ => false,
        }
    }
}

fn put(listed: &mut Vec<Entry>, entry: Entry) -> Result<(), AllocError> {
    listed.push(entry)?;
    Ok(())
}

/// Lets a job go, here alone, since it has many parts.
fn let_go(_: Job<'_>) {}
