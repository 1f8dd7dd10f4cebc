//! The calls of standard input, answered in their order.
//!
//! Whole lines that are at hand are answered before more is read, and their answers are written then: so one who waits for an
//! answer before the next call gets it, and answers that nobody waits for are written together.

use crate::answer::answer;
use crate::answers::Answers;
use crate::line::Line;
use memchr::memchr;
use rv_system::{JobError, System, cannot};
use std::alloc::{AllocError, Global};

/// The bytes of one read.
const PIECE: usize = 1 << 16;
/// The answer where there is no memory for one.
const NO_MEMORY: &[u8] = b"{\"error\":\"out of memory\",\"status\":1}\n";

/// Answers the calls of standard input, of which each may execute `limit` instructions where it does not say how many; the
/// exit status.
#[inline(never)]
pub fn answer_calls<S: System>(system: &mut S, limit: u64) -> Result<u8, JobError> {
    let alloc: Global = system.alloc();
    let mut piece = vec![in alloc; 0u8; PIECE]?;
    let mut line = Line::new(alloc);
    let mut answers = Answers::new(alloc)?;
    answer_pieces(system, piece.as_mut_slice(), &mut line, &mut answers, limit)?;
    answer_rest(system, &mut line, &mut answers, limit)?;
    Ok(0)
}

/// Answers the lines that end in standard input, which is read piece by piece.
fn answer_pieces<S: System>(
    system: &mut S,
    piece: &mut [u8],
    line: &mut Line,
    answers: &mut Answers,
    limit: u64,
) -> Result<(), JobError> {
    for _ in 0..u64::MAX {
        let Ok(count) = system.next_input(piece) else {
            return Err(cannot(system.alloc(), "read", "-")?);
        };
        if count == 0 {
            break;
        }
        answer_lines(system, line, answers, &piece[..count], limit)?;
    }
    Ok(())
}

/// Answers the last line, if it has no line feed.
fn answer_rest<S: System>(
    system: &mut S,
    line: &mut Line,
    answers: &mut Answers,
    limit: u64,
) -> Result<(), JobError> {
    if line.is_empty() {
        return Ok(());
    }
    answer_line(system, line, answers, limit)?;
    answers.write(system)
}

/// Answers the lines that end in what came, of which the first has begun before, and writes the answers; what is left is the
/// beginning of the next line.
fn answer_lines<S: System>(
    system: &mut S,
    line: &mut Line,
    answers: &mut Answers,
    came: &[u8],
    limit: u64,
) -> Result<(), JobError> {
    let mut left = came;
    for _ in 0..came.len() {
        let Some(end) = memchr(b'\n', left) else {
            break;
        };
        let (part, rest) = left.split_at(end);
        line.add(part);
        answer_line(system, line, answers, limit)?;
        left = rest.strip_prefix(b"\n").unwrap_or(rest);
    }
    line.add(left);
    answers.write(system)
}

/// Adds the answer of a line, which is empty then.
fn answer_line<S: System>(
    system: &mut S,
    line: &mut Line,
    answers: &mut Answers,
    limit: u64,
) -> Result<(), JobError> {
    let text = text_of(system, line, limit);
    line.clear();
    match text {
        Ok(text) => answers.add(system, text.as_slice()),
        Err(_) => answers.add(system, NO_MEMORY),
    }
}

/// The text of the answer of a line, with a line feed.
fn text_of<S: System>(system: &mut S, line: &Line, limit: u64) -> Result<Vec<u8>, AllocError> {
    let alloc: Global = system.alloc();
    let mut text = answer(system, line.bytes()?, limit)?.to_vec(alloc)?;
    text.push(b'\n')?;
    Ok(text)
}
