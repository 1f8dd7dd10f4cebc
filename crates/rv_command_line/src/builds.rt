//! The words that build, assemble and link.

use crate::assembler_options::{is_code_option, is_machine_option};
use crate::links::link_words;
use crate::numbers::number;
use crate::operands::{Flag, Operands, Refusal, Text, Texts};
use crate::words::{Help, Word};
use rv_job::{
    AskedBuild, AskedLink, AskedMap, AskedObject, Job, LinkOutputs, LinkSettings, TEXT_START,
};
use rv_link::{Ground, GroundOptions, ground_of, usual};
use rv_numbers::text_start;

pub(crate) const BUILD: Help = Help {
    word: Word::Build,
    name: "build",
    about: "Builds an executable from sources",
    after_help: "Example:
  rv build -o prog --map prog.map prog.s",
};

pub(crate) fn build<'a>(operands: &mut Operands<'_, 'a>) -> Job<'a> {
    Job::Build(AskedBuild {
        outputs: outputs(operands),
        settings: link_settings(operands),
        definitions: operands.all(definitions()),
        sources: operands.all(sources()),
        libraries: link_words(operands, None),
    })
}

pub(crate) const LINK: Help = Help {
    word: Word::Link,
    name: "ld",
    about: "Links objects to an executable",
    after_help: "Example:
  rv ld -o prog --map prog.map prog.o other.o
  rv ld -o prog prog.o --library libc.a",
};

pub(crate) fn link<'a>(operands: &mut Operands<'_, 'a>) -> Job<'a> {
    let files = Texts::alone("OBJ", "The objects, in the order of their sections");
    Job::Link(AskedLink {
        outputs: outputs(operands),
        settings: link_settings(operands),
        definitions: operands.all(definitions()),
        files: link_words(operands, Some(files)),
    })
}

pub(crate) const MAP: Help = Help {
    word: Word::Map,
    name: "map",
    about: "Prints the map of what the sources build",
    after_help: "Example:
  rv map --text-start 0x20000 prog.s",
};

pub(crate) fn map<'a>(operands: &mut Operands<'_, 'a>) -> Job<'a> {
    Job::Map(AskedMap {
        settings: link_settings(operands),
        definitions: operands.all(definitions()),
        sources: operands.all(sources()),
    })
}

/// The files that a link writes.
fn outputs<'a>(operands: &mut Operands<'_, 'a>) -> LinkOutputs<'a> {
    let debug = "Adds names and lines for debuggers";
    LinkOutputs {
        exe: operands.required(Text::output("EXE", "The executable to write")),
        map: operands.optional(Text::long("map", "F", "Writes the map as well")),
        debug: operands.flag(Flag::letter("debug", 'g', debug)),
    }
}

/// Whether a fault is explained.
pub(crate) fn explain() -> Flag {
    let help = "Shows below a fault where it stands and why, as on a terminal";
    Flag::long("explain", help)
}

/// The sources of a word that takes several.
pub(crate) fn sources() -> Texts {
    Texts::alone("SRC", "The sources, in the order of their sections")
}

/// How a link is made.
fn link_settings(operands: &mut Operands<'_, '_>) -> LinkSettings {
    let options = link_options(operands);
    LinkSettings {
        options,
        pads_ends: pad_ends(operands, options.gc),
        explains: operands.flag(explain()),
    }
}

/// The names that the words define.
fn definitions() -> Texts {
    let help = "Gives a global name a value, as ram_size=64*1024 or heap=_end+16";
    Texts::long("defsym", "NAME=N", help)
}

/// Whether the ends of regions are padded; not where sections are left out.
fn pad_ends(operands: &mut Operands<'_, '_>, gc: bool) -> bool {
    let help = "Puts 8 zeros behind constants and variables, as GCC loads past an object's end";
    let pads = operands.flag(Flag::long("pad-ends", help));
    if pads && gc {
        operands.refuse("--gc-sections leaves out what --pad-ends adds");
    }
    pads
}

/// What one can choose of a link.
pub(crate) fn link_options(operands: &mut Operands<'_, '_>) -> GroundOptions {
    let start = "The address of the text, decimal or 0x and hexadecimal [default: 0x10000]";
    let start = operands.optional(Text::long("text-start", "N", start));
    let origin = "The address of the text, also behind the stack, such as 0x80000000";
    let origin = operands.optional(Text::long("origin", "N", origin));
    let whole = Flag::long("no-relax", "Leaves every call its eight bytes");
    let relax = !operands.flag(whole);
    let collects = "Leaves out sections to which nothing leads from the entry";
    let gc = operands.flag(Flag::long("gc-sections", collects));
    GroundOptions {
        bounds: bounds(operands, start, origin),
        relax,
        gc,
    }
}

/// Where a program is put: below the stack from the start of its text, or from its origin on.
fn bounds(operands: &mut Operands<'_, '_>, start: Option<&str>, origin: Option<&str>) -> Ground {
    if start.is_some() && origin.is_some() {
        let wanted = "--text-start and --origin both say where the text begins: leave one out";
        operands.refuse(wanted);
    }
    if let Some(text) = origin {
        let wanted = "an origin is decimal, or 0x and hexadecimal, below 2^64";
        return ground_of(number(operands, text_start(text), wanted));
    }
    if let Some(text) = start {
        let wanted = "a text start is decimal, or 0x and hexadecimal, below 2^64";
        return usual(number(operands, text_start(text), wanted));
    }
    usual(TEXT_START)
}

pub(crate) const ASSEMBLE: Help = Help {
    word: Word::Assemble,
    name: "as",
    about: "Assembles a source to an object",
    after_help: "Examples:
  rv as -o prog.o prog.s
  riscv64-unknown-elf-gcc -B PREFIX/libexec/rv/ -march=rv64imac -mabi=lp64 -c prog.c

What GCC says of the code that it made is taken where it agrees with RV64IMAC and lp64.
-mno-relax leaves every call its eight bytes.",
};

pub(crate) fn assemble<'a>(operands: &mut Operands<'_, 'a>) -> Job<'a> {
    let object = operands.required(Text::output("OBJ", "The object to write"));
    let asked = operands.flag(explain());
    let debug = names_source(operands);
    let relax = machine(operands);
    code(operands);
    let include = "As GCC says it; no source includes a file";
    operands.given(Texts::letter("include", 'I', "DIR", include));
    // GCC deletes the source behind its assembler, so the statement has to be shown while it is there
    let traditional = "As GCC says it; explains a fault, as --explain does";
    let by_gcc = operands.flag(Flag::long("traditional-format", traditional));
    let idle = "As GCC says it; has no effect";
    operands.flag(Flag::letter("warnings", 'W', idle));
    operands.flag(Flag::letter("verbose", 'v', idle));
    Job::Assemble(AskedObject {
        object,
        source: operands.required(Text::alone("SRC", "The source")),
        relax,
        debug,
        explains: asked | by_gcc,
    })
}

/// The words by which GCC asks for debug information; it says one of them, beside its `-Wa,-g`.
const DEBUG_FORMATS: [&str; 5] = ["gdwarf-5", "gdwarf-4", "gdwarf-3", "gdwarf-2", "gdwarf2"];

/// Whether the object names its source.
fn names_source(operands: &mut Operands<'_, '_>) -> bool {
    let help = "Names the source in the object, for rv ld -g";
    let mut names = operands.flag(Flag::letter("debug", 'g', help));
    for format in DEBUG_FORMATS {
        names |= operands.flag(Flag::long(format, "As GCC says it: -g"));
    }
    names
}

/// Takes the options `-m`; whether calls may be shortened, by the last of them that says so.
fn machine(operands: &mut Operands<'_, '_>) -> bool {
    let help = "As GCC says it: arch=rv64imac, abi=lp64, isa-spec=20191213, no-relax";
    let mut relax = true;
    for option in operands.given(Texts::letter("machine", 'm', "OPTION", help)) {
        if !is_machine_option(option) {
            refuse_foreign(operands, "-m", option);
        }
        if *option == "relax" {
            relax = true;
        } else if *option == "no-relax" {
            relax = false;
        }
    }
    relax
}

/// Takes the options `-f`.
fn code(operands: &mut Operands<'_, '_>) {
    let help = "As GCC says it: no-pic";
    for option in operands.given(Texts::letter("code", 'f', "OPTION", help)) {
        if !is_code_option(option) {
            refuse_foreign(operands, "-f", option);
        }
    }
}

/// Refuses an option that does not agree with what is assembled.
fn refuse_foreign<'a>(operands: &mut Operands<'_, 'a>, letter: &'static str, option: &'a str) {
    let behind = " is not for RV64IMAC and lp64 at fixed addresses";
    operands.refuse_word(letter, option, behind);
}

/// Refuses words for `as` that ask for debug information in another form: all that `clap` can say of one is that it is a
/// file's name behind `--`, which misleads.
pub(crate) fn refuse_debug_formats<'a>(words: &[&'a str]) -> Result<(), Refusal<'a>> {
    if words.get(1).copied() != Some("as") {
        return Ok(());
    }
    for word in words {
        if *word == "--" {
            break;
        }
        if is_debug_format(word) {
            let behind = "' asks for debug information that is not written: say -g";
            return Err(Refusal::Wrong("'", word, behind));
        }
    }
    Ok(())
}

/// Whether a word asks for debug information in a form that GNU as has, and `rv as` has not.
fn is_debug_format(word: &str) -> bool {
    if word.starts_with("-gdwarf") || word.starts_with("--gstabs") {
        return true;
    }
    match word.strip_prefix("--") {
        Some(name) => {
            name.starts_with("gdwarf") && !DEBUG_FORMATS.iter().any(|format| *format == name)
        }
        None => false,
    }
}
