//! What is said of a fault, or of what may be a mistake.

use crate::excerpt::{Place, put_excerpt, put_file_and_line};
use crate::tokens::{LineToken, is_line_feed, part, place};
use std::alloc::{AllocError, Global};

/// A byte of a source, as editors count.
#[derive(Clone, Copy, Drop)]
pub struct Spot {
    /// The index of its source, from 0.
    pub file: usize,
    /// Its line, from 1.
    pub line: u32,
    /// Its place in the line in bytes, from 1.
    pub column: usize,
}

impl Spot {
    /// The byte at an offset of a source, which is in this line.
    pub fn of(file: usize, source: &[u8], line: u32, offset: usize) -> Spot {
        let mut before = 0usize;
        for bytes in part(source, 0, offset).split(is_line_feed) {
            before = bytes.len();
        }
        Spot {
            file,
            line,
            column: before.saturating_add(1),
        }
    }
}

/// What is said of a fault, or of what may be a mistake.
#[derive(Drop)]
pub struct Remark {
    /// The first place that it is about; none where no place is known.
    pub spot: Option<Spot>,
    /// The lines of sources that it is about, with carets; each line has a line feed.
    pub excerpt: String,
    /// One sentence, without a line feed; no byte where there is nothing to say.
    pub sentence: String,
}

impl Remark {
    /// Nothing said yet.
    pub fn new(alloc: Global) -> Remark {
        Remark {
            spot: None,
            excerpt: String::new(alloc),
            sentence: String::new(alloc),
        }
    }

    /// Shows a part of a line, from 1.
    pub fn show(
        &mut self,
        file: usize,
        source: &[u8],
        line: u32,
        shown: Place,
    ) -> Result<(), AllocError> {
        if self.spot.is_none() {
            self.spot = Some(Spot::of(file, source, line, shown.start));
        }
        put_excerpt(&mut self.excerpt, source, line, shown)
    }

    /// Shows a token, below the name of its file and its line.
    pub fn show_in_file(
        &mut self,
        alloc: Global,
        file: usize,
        name: &str,
        source: &[u8],
        token: &LineToken,
    ) -> Result<(), AllocError> {
        self.excerpt.push_str("  ")?;
        put_file_and_line(alloc, &mut self.excerpt, name, token.line)?;
        self.excerpt.push_str("\n")?;
        self.show(file, source, token.line, place(token))
    }

    /// Adds the lines below the one of a fault: those of the sources, and the sentence.
    pub fn put_to(&self, text: &mut String) -> Result<(), AllocError> {
        text.push_str(self.excerpt.as_str())?;
        if self.sentence.is_empty() {
            return Ok(());
        }
        text.push_str("  ")?;
        text.push_str(self.sentence.as_str())?;
        text.push_str("\n")
    }
}
