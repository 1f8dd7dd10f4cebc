//! The headers and tables of a file, in the order and the columns of GNU's `readelf` with wide lines (`-hSlrsW`).

use crate::file_header::put_file_header;
use crate::relocation_lines::{RelocationLines, check_relocations};
use crate::section_lines::SectionLines;
use crate::segment_lines::put_segments;
use crate::symbol_lines::{SymbolLines, check_symbols};
use rv_elf::ElfView;
use rv_fault::FileFault;
use std::alloc::AllocError;

/// The header, the sections, the segments, the relocations and the symbols of a file, whose lines are made part by part:
/// names that end in one string, or tables that lie over each other, may have lines that are very much longer than their
/// file.
///
/// In names, control characters stand as `^A`. Which sections lie in which segments is not said.
#[derive(Drop)]
pub struct ElfLines<'a> {
    view: ElfView<'a>,
    has_header: bool,
    sections: SectionLines,
    has_segments: bool,
    relocations: RelocationLines<'a>,
    symbols: SymbolLines<'a>,
}

impl<'a> ElfLines<'a> {
    /// Those of a file, or its first fault.
    pub fn of(file: &'a [u8]) -> Result<Self, FileFault> {
        let view = ElfView::open(file)?;
        check_relocations(&view)?;
        check_symbols(&view)?;
        Ok(ElfLines {
            view,
            has_header: false,
            sections: SectionLines::new(),
            has_segments: false,
            relocations: RelocationLines::new(),
            symbols: SymbolLines::new(),
        })
    }

    /// Adds the next part: a line with a name at most, and the lines above it; false where none is left.
    pub fn next(&mut self, text: &mut Vec<u8>) -> Result<bool, AllocError> {
        if !self.has_header {
            put_file_header(text, &self.view)?;
            self.has_header = true;
            return Ok(true);
        }
        if self.sections.next(text, &self.view)? {
            return Ok(true);
        }
        if !self.has_segments {
            put_segments(text, &self.view)?;
            self.has_segments = true;
            return Ok(true);
        }
        if self.relocations.next(text, &self.view)? {
            return Ok(true);
        }
        self.symbols.next(text, &self.view)
    }
}
