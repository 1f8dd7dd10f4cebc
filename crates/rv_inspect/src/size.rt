//! The sizes of files, in the columns of GNU's `size`, Berkeley format.

use crate::columns::Column::{Decimal, Hexadecimal, Text};
use crate::columns::put_columns;
use crate::parts::section_at;
use rv_elf::{ElfView, PF_W, PT_LOAD, SHF_ALLOC, SHF_EXECINSTR, SHF_WRITE, SHT_NOBITS};
use rv_elf_laws::{ProgramHeader, SectionHeader};
use rv_fault::FileFault;
use rv_json::number;
use serde_json::{Map, Value, put};
use std::alloc::{AllocError, Global};

/// The bytes that a file has in memory, by what they are.
#[derive(Clone, Copy, Drop)]
struct Size {
    /// Instructions and constants.
    text: u64,
    /// Variables that the file has bytes of.
    data: u64,
    /// Variables that begin as zeros.
    bss: u64,
}

const NOTHING: Size = Size {
    text: 0,
    data: 0,
    bss: 0,
};

impl Size {
    /// That of a file: of its sections, or of its segments where it has no sections.
    fn of(file: &[u8]) -> Result<Size, FileFault> {
        let view = ElfView::open(file)?;
        if view.header().e_shnum == 0 {
            return Ok(of_segments(&view));
        }
        Ok(of_sections(&view))
    }

    fn plus(self, other: Size) -> Size {
        Size {
            text: self.text.saturating_add(other.text),
            data: self.data.saturating_add(other.data),
            bss: self.bss.saturating_add(other.bss),
        }
    }
}

fn of_sections(view: &ElfView<'_>) -> Size {
    let mut size = NOTHING;
    for index in 0..view.header().e_shnum {
        if let Some(header) = section_at(view, index) {
            size = size.plus(of_section(&header));
        }
    }
    size
}

fn of_section(header: &SectionHeader) -> Size {
    let bytes = header.sh_size;
    let has = |flag: u64| header.sh_flags & flag != 0;
    if !has(SHF_ALLOC) {
        NOTHING
    } else if has(SHF_EXECINSTR) || !has(SHF_WRITE) {
        Size {
            text: bytes,
            ..NOTHING
        }
    } else if header.sh_type == SHT_NOBITS {
        Size {
            bss: bytes,
            ..NOTHING
        }
    } else {
        Size {
            data: bytes,
            ..NOTHING
        }
    }
}

fn of_segments(view: &ElfView<'_>) -> Size {
    let mut size = NOTHING;
    for index in 0..view.header().e_phnum {
        size = size.plus(of_segment(&view.program(index)));
    }
    size
}

fn of_segment(header: &ProgramHeader) -> Size {
    let zeros = header.p_memsz.saturating_sub(header.p_filesz);
    if header.p_type != PT_LOAD {
        NOTHING
    } else if header.p_flags & PF_W == 0 {
        Size {
            text: header.p_memsz,
            ..NOTHING
        }
    } else {
        Size {
            text: 0,
            data: header.p_filesz,
            bss: zeros,
        }
    }
}

/// A table of sizes, a line a file.
#[derive(Drop)]
pub struct SizeTable {
    text: Vec<u8>,
    total: Size,
    several: bool,
    any: bool,
    /// Whether the lines are objects of JSON.
    json: bool,
}

impl SizeTable {
    /// The heading alone.
    pub fn new(alloc: Global) -> Result<Self, AllocError> {
        let heading = b"   text\t   data\t    bss\t    dec\t    hex\tfilename\n";
        Ok(SizeTable {
            text: Vec::from_slice(alloc, heading)?,
            total: NOTHING,
            several: false,
            any: false,
            json: false,
        })
    }

    /// A table whose lines are objects of JSON: without heading and total.
    pub fn of_objects(alloc: Global) -> Self {
        SizeTable {
            text: Vec::new(alloc),
            total: NOTHING,
            several: false,
            any: false,
            json: true,
        }
    }

    /// Adds the line of a file, or answers its first fault.
    pub fn add(&mut self, name: &str, file: &[u8]) -> Result<(), FileFault> {
        let size = Size::of(file)?;
        self.total = self.total.plus(size);
        self.several = self.any;
        self.any = true;
        if self.json {
            put_object(&mut self.text, &size, name)?;
        } else {
            put_line(&mut self.text, &size, name.as_bytes())?;
        }
        Ok(())
    }

    /// The text: the heading, the lines, and the total where there are several.
    pub fn finish(self) -> Result<Vec<u8>, AllocError> {
        let SizeTable {
            text,
            total,
            several,
            json,
            ..
        } = self;
        let mut text = text;
        if several && !json {
            put_line(&mut text, &total, b"(TOTALS)")?;
        }
        Ok(text)
    }
}

/// Adds the object of a file.
fn put_object(text: &mut Vec<u8>, size: &Size, name: &str) -> Result<(), AllocError> {
    let alloc = *text.allocator();
    let mut object = Map::new(alloc);
    put_members(alloc, &mut object, size, name)?;
    rv_json::put_line(alloc, text, &Value::Object(object))
}

/// Adds the name of a file and its sizes.
fn put_members(
    alloc: Global,
    object: &mut Map<String, Value>,
    size: &Size,
    name: &str,
) -> Result<(), AllocError> {
    put(object, alloc, "file", Value::try_from_str(alloc, name)?)?;
    put(object, alloc, "text", number(alloc, size.text)?)?;
    put(object, alloc, "data", number(alloc, size.data)?)?;
    put(object, alloc, "bss", number(alloc, size.bss)?)
}

/// Adds a line.
fn put_line(text: &mut Vec<u8>, size: &Size, name: &[u8]) -> Result<(), AllocError> {
    let all = size.text.saturating_add(size.data).saturating_add(size.bss);
    put_columns(
        text,
        &[
            Decimal(size.text, 7),
            Text(b"\t"),
            Decimal(size.data, 7),
            Text(b"\t"),
            Decimal(size.bss, 7),
            Text(b"\t"),
            Decimal(all, 7),
            Text(b"\t"),
            Hexadecimal(all, 7),
            Text(b"\t"),
            Text(name),
            Text(b"\n"),
        ],
    )
}
