//! The words that say what a link takes.

use crate::operands::{Operands, Texts};
use rv_job::{LinkInput, LinkWord, LinkWords};
use std::alloc::AllocError;

/// What a link takes, in the order of the words; `files` are the words alone, where they are among it, of which one has to be
/// there unless an archive is.
pub(crate) fn link_words<'a>(
    operands: &mut Operands<'_, 'a>,
    files: Option<Texts>,
) -> LinkWords<'a> {
    let mut placed = Vec::new(operands.alloc);
    let mut words = Vec::new(operands.alloc);
    put(operands, library(), Kind::Archive, &mut placed);
    put(operands, named(), Kind::Named, &mut placed);
    let folder = Texts::letter("folder", 'L', "DIR", "A folder in which -l looks");
    let folders = operands.all(folder);
    put(operands, start_group(), Kind::StartGroup, &mut placed);
    put(operands, end_group(), Kind::EndGroup, &mut placed);
    if let Some(files) = files {
        let files = files.unless_either(library(), named());
        put(operands, files, Kind::Object, &mut placed);
    }
    operands.try_keep(put_in_order(&mut placed, &mut words));
    check_groups(operands, words.as_slice());
    LinkWords { words, folders }
}

fn library() -> Texts {
    let help = "Takes the members of an archive that define what is still undefined";
    Texts::long("library", "FILE", help)
}

fn named() -> Texts {
    Texts::letter("named", 'l', "NAME", "As --library DIR/libNAME.a")
}

fn start_group() -> Texts {
    let help = "Goes round the archives up to --end-group until nothing more is taken";
    Texts::flag("start-group", help)
}

fn end_group() -> Texts {
    Texts::flag("end-group", "Ends a group of archives")
}

/// What a word stands for.
#[derive(Clone, Copy, Drop)]
enum Kind {
    Object,
    Archive,
    Named,
    StartGroup,
    EndGroup,
}

impl Kind {
    /// The word of this kind with a value; those of groups have none.
    fn with_value(self, value: &str) -> LinkWord<'_> {
        match self {
            Kind::Object => LinkWord::Input(LinkInput::Object(value)),
            Kind::Archive => LinkWord::Input(LinkInput::Archive(value)),
            Kind::Named => LinkWord::Input(LinkInput::Named(value)),
            Kind::StartGroup => LinkWord::StartGroup,
            Kind::EndGroup => LinkWord::EndGroup,
        }
    }
}

/// Puts the uses of an option, which are words of this kind, each with its place.
fn put<'a>(
    operands: &mut Operands<'_, 'a>,
    texts: Texts,
    kind: Kind,
    placed: &mut Vec<(usize, LinkWord<'a>)>,
) {
    let values = operands.given(texts);
    let places = operands.places(texts);
    operands.try_keep(put_uses(places, values, kind, placed));
}

fn put_uses<'a>(
    places: &[usize],
    values: &[&'a str],
    kind: Kind,
    placed: &mut Vec<(usize, LinkWord<'a>)>,
) -> Result<(), AllocError> {
    for (place, value) in places.iter().zip(values) {
        placed.push((*place, kind.with_value(value)))?;
    }
    Ok(())
}

/// Puts words by their places.
fn put_in_order<'a>(
    placed: &mut Vec<(usize, LinkWord<'a>)>,
    words: &mut Vec<LinkWord<'a>>,
) -> Result<(), AllocError> {
    placed.sort_by_key(|word| word.0)?;
    for (_, word) in placed.as_slice() {
        words.push(*word)?;
    }
    Ok(())
}

/// Refuses groups that do not start or end, or stand in one another.
fn check_groups(operands: &mut Operands<'_, '_>, words: &[LinkWord<'_>]) {
    let mut is_inside = false;
    for word in words {
        match word {
            LinkWord::StartGroup if is_inside => {
                operands.refuse("--start-group stands in another group");
            }
            LinkWord::EndGroup if !is_inside => {
                operands.refuse("--end-group has no --start-group before it");
            }
            LinkWord::StartGroup | LinkWord::EndGroup => is_inside = !is_inside,
            LinkWord::Input(_) => {}
        }
    }
    if is_inside {
        operands.refuse("--start-group has no --end-group behind it");
    }
}
