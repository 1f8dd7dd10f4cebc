//! The words over files: what stands in them, and images of executables.

use crate::numbers::number;
use crate::operands::{Flag, Operands, Text, Texts};
use crate::words::{Help, Word};
use rv_job::{AskedCode, AskedImage, ImageFormat, Job, OutputFormat, TextFormat};
use rv_numbers::text_start;

pub(crate) const OBJDUMP: Help = Help {
    word: Word::Objdump,
    name: "objdump",
    about: "Prints the instructions of an executable, statement by statement or as a source",
    after_help: "Examples:
  rv objdump --map prog.map prog
  rv objdump --raw prog > again.s",
};

pub(crate) fn objdump<'a>(operands: &mut Operands<'_, 'a>) -> Job<'a> {
    let map = Text::long("map", "F", "The map of the executable");
    let raw = Flag::long("raw", "Prints a source that builds the same text again");
    // one of both is there, and never the other
    let named = operands.optional(map.unless(raw));
    operands.flag(raw.against(map));
    let exe = operands.required(executable());
    match named {
        None => Job::Raw { exe },
        Some(name) => Job::Objdump {
            map: name,
            exe,
            map_first: operands.is_before(map, executable()),
        },
    }
}

pub(crate) const CODE: Help = Help {
    word: Word::Code,
    name: "dis",
    about: "Prints the instructions of a file, with names, bytes and relocations",
    after_help: "Examples:
  rv dis prog.o
  rv dis --map prog.map prog
  rv dis --base prog.o
  rv dis --lines prog

The columns are those of GNU's objdump -d -r.",
};

pub(crate) fn code<'a>(operands: &mut Operands<'_, 'a>) -> Job<'a> {
    let map = operands.optional(map_with_names());
    let base = Flag::long("base", "Shows base instructions and no aliases");
    let aliases = !operands.flag(base);
    let lines = "Shows the lines of source before their code, of an executable with line tables";
    let lines = operands.flag(Flag::long("lines", lines));
    Job::Code(AskedCode {
        file: operands.required(file()),
        map,
        map_first: operands.is_before(map_with_names(), file()),
        aliases,
        lines,
    })
}

pub(crate) const DUMP: Help = Help {
    word: Word::Dump,
    name: "dump",
    about: "Prints the bytes of a file in hexadecimal",
    after_help: "Example:
  rv dump prog",
};

pub(crate) fn dump<'a>(operands: &mut Operands<'_, 'a>) -> Job<'a> {
    Job::Dump {
        file: operands.required(Text::alone("FILE", "Any file")),
    }
}

pub(crate) const SIZE: Help = Help {
    word: Word::Size,
    name: "size",
    about: "Prints the sizes of files: code and constants, variables, zeros",
    after_help: "Example:
  rv size prog.o other.o prog

Several files have a line of their total.
The objects of --json have file, text, data and bss, and no total.",
};

pub(crate) fn size<'a>(operands: &mut Operands<'_, 'a>) -> Job<'a> {
    let files = Texts::alone("FILE", "Objects and executables");
    Job::Size {
        format: output_format(operands, json()),
        files: operands.all(files),
    }
}

pub(crate) const NAMES: Help = Help {
    word: Word::Names,
    name: "nm",
    about: "Prints the names of a file and where they stand",
    after_help: "Examples:
  rv nm prog.o
  rv nm --map prog.map prog

The objects of --json have name, letter, and value or null.",
};

pub(crate) fn names<'a>(operands: &mut Operands<'_, 'a>) -> Job<'a> {
    Job::Names {
        map: operands.optional(map_with_names()),
        format: output_format(operands, json()),
        file: operands.required(file()),
    }
}

pub(crate) const ELF: Help = Help {
    word: Word::Elf,
    name: "elf",
    about: "Prints the header, sections, segments, relocations and symbols of a file",
    after_help: "Example:
  rv elf prog.o",
};

pub(crate) fn elf<'a>(operands: &mut Operands<'_, 'a>) -> Job<'a> {
    Job::Elf {
        file: operands.required(Text::alone("FILE", "An object or an executable")),
    }
}

/// That objects of JSON are written.
pub(crate) fn json() -> Flag {
    Flag::long("json", "Writes JSON, an object a line")
}

/// The format that an option asks for.
pub(crate) fn output_format(operands: &mut Operands<'_, '_>, json: Flag) -> OutputFormat {
    match operands.flag(json) {
        true => OutputFormat::Json,
        false => OutputFormat::Text,
    }
}

fn executable() -> Text {
    Text::alone("EXE", "The executable")
}

fn file() -> Text {
    Text::alone("FILE", "An object, or an executable")
}

fn map_with_names() -> Text {
    Text::long("map", "F", "The map of the executable, which has its names")
}

pub(crate) const IMAGE: Help = Help {
    word: Word::Image,
    name: "image",
    about: "Writes an image of an executable for flash memory",
    after_help: "Examples:
  rv image --bin -o prog.bin prog
  rv image --ihex -o prog.hex prog
  rv image --srec --fill 0xff -o prog.srec prog

An image has what the file holds of its segments, at their physical addresses.",
};

pub(crate) fn image<'a>(operands: &mut Operands<'_, 'a>) -> Job<'a> {
    Job::Image(AskedImage {
        format: format(operands),
        fill: fill(operands),
        output: operands.required(Text::output("OUT", "The image to write")),
        exe: operands.required(executable()),
    })
}

/// The formats of images by their options, with the help of each.
const FORMATS: [(&str, &str, ImageFormat); 4] = [
    (
        "bin",
        "Raw bytes, from the lowest address on",
        ImageFormat::Binary,
    ),
    ("ihex", "Intel HEX", ImageFormat::Text(TextFormat::IntelHex)),
    (
        "srec",
        "Motorola S-records",
        ImageFormat::Text(TextFormat::SRecords),
    ),
    (
        "vhex",
        "What Verilog's $readmemh reads",
        ImageFormat::Text(TextFormat::MemoryText),
    ),
];

/// The format that the words name.
fn format(operands: &mut Operands<'_, '_>) -> ImageFormat {
    let mut format = ImageFormat::Binary;
    let mut count = 0u8;
    for (long, help, named) in FORMATS {
        if operands.flag(Flag::long(long, help)) {
            format = named;
            count = count.saturating_add(1);
        }
    }
    if count != 1 {
        operands.refuse("one of --bin, --ihex, --srec and --vhex is wanted");
    }
    format
}

/// The byte that gaps are filled with.
fn fill(operands: &mut Operands<'_, '_>) -> Option<u8> {
    let help = "Fills the gaps between segments [default: none, in a binary 0]";
    let text = operands.optional(Text::long("fill", "BYTE", help))?;
    let read = text_start(text).filter(|byte| *byte < 256);
    let wanted = "a byte is decimal, or 0x and hexadecimal, below 256";
    Some((number(operands, read, wanted) % 256) as u8)
}
