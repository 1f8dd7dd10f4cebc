//! What shells complete the words by: a script for each shell, made from the table.

use crate::operands::{Entry, Name, Uses};
use crate::words::{Help, WORDS};
use rv_job::Shell;
use std::alloc::{AllocError, Global};

/// What stands in a script round the names of all words, behind what it has of each word, and in that round the word's name
/// and behind its operands.
struct Script {
    start: &'static str,
    middle: &'static str,
    end: &'static str,
    word: [&'static str; 3],
}

/// A function of bash: the word first, then options, and else files.
const BASH: Script = Script {
    start: "_rv() {
    local word=${COMP_WORDS[COMP_CWORD]} options=
    if [ \"$COMP_CWORD\" -eq 1 ]; then
        COMPREPLY=($(compgen -W '",
    middle: "help --help --version' -- \"$word\"))
        return
    fi
    case ${COMP_WORDS[1]} in
",
    end: "    esac
    case $word in
        -*) COMPREPLY=($(compgen -W \"$options --help\" -- \"$word\")) ;;
        *) COMPREPLY=($(compgen -f -- \"$word\")) ;;
    esac
}
complete -o filenames -F _rv rv
",
    word: ["        ", ") options='", "' ;;\n"],
};

/// A function of zsh.
const ZSH: Script = Script {
    start: "#compdef rv
_rv() {
    local -a names
    names=(help ",
    middle: ")
    if (( CURRENT == 2 )); then
        compadd -a names
        return
    fi
    local name=$words[2]
    shift words
    (( CURRENT-- ))
    case $name in
",
    end: "    esac
}
_rv \"$@\"
",
    word: ["        ", ") _arguments", " ;;\n"],
};

/// Lines of fish, which names no word but in its own line.
const FISH: Script = Script {
    start: "",
    middle: "",
    end: "",
    word: [
        "complete -c rv -n __fish_use_subcommand -f -a ",
        " -d '",
        "",
    ],
};

/// A text that grows until memory is refused.
#[derive(Drop)]
struct Growing {
    text: String,
    tried: Result<(), AllocError>,
}

impl Growing {
    fn put(&mut self, part: &str) {
        if self.tried.is_ok() {
            self.tried = self.text.push_str(part);
        }
    }

    fn put_letter(&mut self, letter: char) {
        if self.tried.is_ok() {
            self.tried = self.text.push(letter);
        }
    }
}

/// The script by which a shell completes the words of the program.
pub fn completions(alloc: Global, shell: Shell) -> Result<String, AllocError> {
    let mut out = Growing {
        text: String::new(alloc),
        tried: Ok(()),
    };
    let script = match shell {
        Shell::Bash => &BASH,
        Shell::Zsh => &ZSH,
        Shell::Fish => &FISH,
    };
    let mut entries = Vec::new(alloc);
    put_script(alloc, shell, script, &WORDS, &mut entries, &mut out)?;
    let Growing { text, tried } = out;
    tried?;
    Ok(text)
}

/// Adds a script for words; `entries` is room for the operands of a word.
fn put_script(
    alloc: Global,
    shell: Shell,
    script: &Script,
    words: &[Help],
    entries: &mut Vec<Entry>,
    out: &mut Growing,
) -> Result<(), AllocError> {
    out.put(script.start);
    if shell != Shell::Fish {
        put_names(out, words);
    }
    out.put(script.middle);
    for help in words {
        help.word.list(alloc, entries)?;
        put_word(out, shell, script, help, entries.as_slice());
    }
    out.put(script.end);
    Ok(())
}

/// Adds the names of words, a blank behind each.
fn put_names(out: &mut Growing, words: &[Help]) {
    for help in words {
        out.put(help.name);
        out.put(" ");
    }
}

/// Adds what a shell has to know of a word.
fn put_word(out: &mut Growing, shell: Shell, script: &Script, help: &Help, entries: &[Entry]) {
    let [start, middle, end] = script.word;
    out.put(start);
    out.put(help.name);
    out.put(middle);
    if shell == Shell::Fish {
        put_quoted(out, shell, help.about);
        out.put("'\n");
    }
    for entry in entries {
        put_entry(out, shell, help.name, entry);
    }
    out.put(end);
}

/// Adds an option or a file of a word; only zsh knows files.
fn put_entry(out: &mut Growing, shell: Shell, word: &str, entry: &Entry) {
    match shell {
        Shell::Zsh => put_zsh_entry(out, entry),
        _ if entry.is_file() => {}
        Shell::Bash => put_bash_option(out, entry),
        Shell::Fish => put_fish_option(out, word, entry),
    }
}

/// Adds an option, a blank behind it.
fn put_bash_option(out: &mut Growing, entry: &Entry) {
    put_name(out, entry.name, "--", "-");
    out.put(" ");
}

/// Adds an option with what it is, or what files there are.
fn put_zsh_entry(out: &mut Growing, entry: &Entry) {
    out.put(" '");
    if entry.is_file() {
        out.put(if entry.uses == Uses::Several { "*" } else { "" });
    } else {
        put_name(out, entry.name, "--", "-");
        out.put("[");
        put_quoted(out, Shell::Zsh, entry.help);
        out.put("]");
    }
    if entry.has_value() {
        out.put(":");
        out.put(entry.value);
        out.put(":_files");
    }
    out.put("'");
}

/// Adds the line of an option of a word.
fn put_fish_option(out: &mut Growing, word: &str, entry: &Entry) {
    out.put("complete -c rv -n '__fish_seen_subcommand_from ");
    out.put(word);
    out.put(if entry.has_value() { "' -r " } else { "' " });
    put_name(out, entry.name, "-l ", "-s ");
    out.put(" -d '");
    put_quoted(out, Shell::Fish, entry.help);
    out.put("'\n");
}

/// Adds an option as it is written, with what stands before a word and before a letter; a file has no name.
fn put_name(out: &mut Growing, name: Name, long: &str, short: &str) {
    match name {
        Name::Long(word) => {
            out.put(long);
            out.put(word);
        }
        Name::Letter(letter) => {
            out.put(short);
            out.put_letter(letter);
        }
        Name::Alone => {}
    }
}

/// Adds a text as it stands between single quotes; zsh wants brackets and colons escaped as well.
fn put_quoted(out: &mut Growing, shell: Shell, part: &str) {
    for letter in part.chars() {
        match letter {
            '\'' => out.put("'\\'"),
            '[' | ']' | ':' if shell == Shell::Zsh => out.put("\\"),
            _ => {}
        }
        out.put_letter(letter);
    }
}
