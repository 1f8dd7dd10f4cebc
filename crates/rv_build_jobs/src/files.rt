//! The files of a link, as the words name them.

use crate::additions::{Addition, defined, padded};
use crate::building::assembled;
use crate::defining::Definitions;
use rv_inputs::Form;
use rv_job::{LinkInput, LinkWord, LinkWords};
use rv_system::{JobError, ReadFault, System, file_bytes};
use std::alloc::{AllocError, Global};

/// A file of a link.
#[derive(Drop)]
pub(crate) struct LinkFile {
    /// Its name, as messages show it.
    pub(crate) name: String,
    /// Its bytes.
    pub(crate) bytes: Vec<u8>,
    pub(crate) form: Form,
    /// Whether it stands in the group of the file before it.
    pub(crate) joins: bool,
    /// Whether it is what defines names.
    pub(crate) defines: bool,
}

impl LinkFile {
    fn object(alloc: Global, name: &str, bytes: Vec<u8>) -> Result<LinkFile, AllocError> {
        Ok(LinkFile {
            name: String::from_str(alloc, name)?,
            bytes,
            form: Form::Object,
            joins: false,
            defines: false,
        })
    }

    fn archive(name: String, bytes: Vec<u8>) -> LinkFile {
        LinkFile {
            name,
            bytes,
            form: Form::Archive,
            joins: false,
            defines: false,
        }
    }
}

/// Where the next file stands among groups.
#[derive(Clone, Copy, Drop)]
enum Standing {
    Alone,
    /// It is the first one of a group.
    First,
    /// It stands behind another one of its group.
    Behind,
}

impl Standing {
    /// Where the file behind one stands.
    fn next(self) -> Standing {
        match self {
            Standing::Alone => Standing::Alone,
            _ => Standing::Behind,
        }
    }
}

/// Reads the files that words name, in their order, with what defines names before the first archive, which then need not
/// define them, and the padding behind all where it is wanted.
pub(crate) fn linked_files<S: System>(
    system: &mut S,
    words: &LinkWords<'_>,
    definitions: &Definitions<'_>,
    is_padded: bool,
) -> Result<Vec<LinkFile>, JobError> {
    let alloc: Global = system.alloc();
    let mut files = Vec::new(alloc);
    put_words(system, words, definitions, &mut files)?;
    if let Some(addition) = padded(alloc, is_padded)? {
        files.push(addition_file(alloc, &addition)?)?;
    }
    Ok(files)
}

/// Puts another object in the place of the one that defines names.
pub(crate) fn redefine(
    alloc: Global,
    files: &mut [LinkFile],
    definitions: &Definitions<'_>,
) -> Result<(), JobError> {
    if let Some(addition) = defined(alloc, definitions)? {
        let object = addition.object(alloc)?;
        if let Some(file) = files.iter_mut().find(|file| file.defines) {
            file.bytes = object;
        }
    }
    Ok(())
}

/// Assembles sources with these names: their objects, as files.
pub(crate) fn object_files<S: System>(
    system: &S,
    names: &[&str],
    sources: &[&[u8]],
    explains: bool,
) -> Result<Vec<LinkFile>, JobError> {
    let alloc: Global = system.alloc();
    let mut files = Vec::new(alloc);
    for (name, source) in names.iter().zip(sources.iter()) {
        let object = assembled(system, name, source, true, explains)?;
        files.push(LinkFile::object(alloc, name, object)?)?;
    }
    Ok(files)
}

/// Adds the files that words name, and the object that defines names.
fn put_words<S: System>(
    system: &mut S,
    words: &LinkWords<'_>,
    definitions: &Definitions<'_>,
    files: &mut Vec<LinkFile>,
) -> Result<(), JobError> {
    let alloc: Global = system.alloc();
    let mut addition = defined(alloc, definitions)?;
    let mut standing = Standing::Alone;
    for word in &words.words {
        if !matches!(word, LinkWord::Input(LinkInput::Object(_))) {
            put_definitions(alloc, addition.take(), files)?;
        }
        match word {
            LinkWord::StartGroup => standing = Standing::First,
            LinkWord::EndGroup => standing = Standing::Alone,
            LinkWord::Input(input) => {
                let mut file = file_of(system, *input, words.folders.as_slice())?;
                file.joins = matches!(standing, Standing::Behind);
                files.push(file)?;
                standing = standing.next();
            }
        }
    }
    put_definitions(alloc, addition, files)
}

/// Adds the object that defines names, if there is one.
fn put_definitions(
    alloc: Global,
    addition: Option<Addition>,
    files: &mut Vec<LinkFile>,
) -> Result<(), JobError> {
    if let Some(addition) = addition {
        let mut file = addition_file(alloc, &addition)?;
        file.defines = true;
        files.push(file)?;
    }
    Ok(())
}

/// The object of a source of the program's own.
fn addition_file(alloc: Global, addition: &Addition) -> Result<LinkFile, JobError> {
    let object = addition.object(alloc)?;
    Ok(LinkFile::object(alloc, addition.name, object)?)
}

/// Reads the file that a link takes.
fn file_of<S: System>(
    system: &mut S,
    input: LinkInput<'_>,
    folders: &[&str],
) -> Result<LinkFile, JobError> {
    let alloc: Global = system.alloc();
    match input {
        LinkInput::Object(name) => {
            let bytes = file_bytes(system, name)?;
            Ok(LinkFile::object(alloc, name, bytes)?)
        }
        LinkInput::Archive(name) => {
            let bytes = file_bytes(system, name)?;
            Ok(LinkFile::archive(String::from_str(alloc, name)?, bytes))
        }
        LinkInput::Named(name) => named_archive(system, name, folders),
    }
}

/// Reads the archive of this name in the first folder that has one that can be read.
fn named_archive<S: System>(
    system: &mut S,
    name: &str,
    folders: &[&str],
) -> Result<LinkFile, JobError> {
    let alloc: Global = system.alloc();
    for folder in folders {
        let folder = *folder;
        let path = format!(in alloc; "{folder}/lib{name}.a")?;
        match system.file(path.as_str()) {
            Ok(bytes) => return Ok(LinkFile::archive(path, bytes)),
            Err(ReadFault::Memory) => return Err(JobError::Memory),
            Err(ReadFault::Failed) => {}
        }
    }
    Err(JobError::Line(format!(in alloc; "cannot find -l{name}")?))
}
