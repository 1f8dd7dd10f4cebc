//! Where what a guest wrote differs from what it must write.

use rv_cases::shown;
use std::alloc::{AllocError, Global};

/// The most bytes of a line that are shown.
const SHOWN: usize = 120;

/// The first line in which two texts differ.
#[derive(Clone, Copy, Drop)]
pub(crate) struct Difference<'a, 'b> {
    /// Its number, from 1.
    pub line: u64,
    /// The line with its end, no byte where the text has ended.
    pub wanted: &'a [u8],
    pub came: &'b [u8],
}

impl<'a, 'b> Difference<'a, 'b> {
    /// That of a text from the one that is wanted.
    pub(crate) fn of(wanted: &'a [u8], came: &'b [u8]) -> Option<Difference<'a, 'b>> {
        let mut wanted_left = wanted;
        let mut came_left = came;
        for line in 1..u64::MAX {
            let (wanted, wanted_rest) = cut_line(wanted_left);
            let (came, came_rest) = cut_line(came_left);
            if wanted != came {
                return Some(Difference { line, wanted, came });
            }
            if wanted.is_empty() {
                return None;
            }
            wanted_left = wanted_rest;
            came_left = came_rest;
        }
        None
    }

    /// Adds the lines that show it.
    pub(crate) fn put_to(&self, alloc: Global, text: &mut String) -> Result<(), AllocError> {
        let line = self.line;
        let wanted = shown_line(alloc, self.wanted)?;
        let came = shown_line(alloc, self.came)?;
        let added = format!(in alloc;
            "  line {line} of the console\n    wanted {wanted}\n    came   {came}\n"
        )?;
        text.push_str(added.as_str())
    }
}

/// The first line of a text with its end, and the rest.
fn cut_line(text: &[u8]) -> (&[u8], &[u8]) {
    let end = match text.iter().position(|byte| *byte == b'\n') {
        Some(feed) => feed + 1,
        None => text.len(),
    };
    text.split_at(end)
}

/// A line as a head would write it, as far as it is shown.
fn shown_line(alloc: Global, line: &[u8]) -> Result<String, AllocError> {
    if line.is_empty() {
        return "nothing".to_string(alloc);
    }
    match line.get(..SHOWN) {
        Some(start) if start.len() < line.len() => {
            let start = shown(alloc, start)?;
            format!(in alloc; "{start} ..")
        }
        _ => shown(alloc, line),
    }
}
