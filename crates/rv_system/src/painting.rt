//! The painted text: word after word, each with the escapes of its kind.
//!
//! A text that has escapes of its own is left as it is, since nothing could tell them from those put in.

ghost use Rattle.std.specs.Prelude.{◌≡◌, ℕ, false, true, List, [], ◌++◌, OnOk, IfOk};
ghost use Rattle.std.specs.List.{list_any};
ghost use Rattle.rv_system.specs.Painting.{IsPainting};
ghost use Rattle.rv_system.specs.Unpainted.{unpainted, is_escape};

use crate::colours::Kind;
use crate::painted_line::{Place, kind_at};
use crate::painted_word::word_length;
use memchr::memchr;
use std::alloc::{AllocError, Global};

/// The byte with which an escape begins.
const ESCAPE: u8 = 0x1b;

/// A listing, a trace or a source with a colour for each kind of word.
pub fn painted(alloc: Global, text: &[u8]) -> Result<Vec<u8>, AllocError>
    ensures plain { list_any is_escape text.now ≡ false →
        IfOk result (λ painted. unpainted painted.items ≡ text.now) }
    ensures other { list_any is_escape text.now ≡ true →
        IfOk result (λ painted. painted.items ≡ text.now) }
{
    let mut painted = Vec::new(alloc);
    if has_escape(text) {
        painted.extend_from_slice(text)?;
        return Ok(painted);
    }
    put_words(&mut painted, text)?;
    Ok(painted)
}

/// Whether an escape may begin in a text, so that it is left as it is.
pub fn has_escape(text: &[u8]) -> bool
    ensures { result ≡ list_any is_escape text.now }
{
    memchr(ESCAPE, text).is_some()
}

/// Adds the words of a text.
#[tactic(auto, using(crate::proofs::EscapesLemmas::none_before, crate::proofs::EscapesLemmas::none_behind))]
fn put_words(painted: &mut Vec<u8>, text: &[u8]) -> Result<(), AllocError>
    requires { list_any is_escape text.now ≡ false }
    ensures { OnOk result (IsPainting painted.old.items [] →
        IsPainting painted.new.items text.now) }
{
    let mut place = Place::Start;
    let mut at = 0;
    while at < text.len() {
        let left = &text[at..];
        let length = word_length(left);
        let (word, rest) = left.split_at(length);
        let (kind, next) = kind_at(place, word, rest);
        put(painted, kind, word)?;
        place = next;
        at += length;
    }
    Ok(())
}

/// Adds a word.
fn put(painted: &mut Vec<u8>, kind: Kind, word: &[u8]) -> Result<(), AllocError>
    requires { list_any is_escape word.now ≡ false }
    ensures { OnOk result ((text : List ℕ) → IsPainting painted.old.items text →
        IsPainting painted.new.items (text ++ word.now)) }
{
    painted.extend_from_slice(kind.colour())?;
    painted.extend_from_slice(word)?;
    painted.extend_from_slice(kind.end())?;
    Ok(())
}
