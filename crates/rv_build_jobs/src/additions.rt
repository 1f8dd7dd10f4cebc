//! Sources of the program's own, behind those that the words name.

use crate::debug_objects::plain_texts;
use crate::defining::{self, Definitions};
use crate::padding;
use rv_chain::assemble_object;
use rv_system::{JobError, System, borrowed, fault_line, files_bytes};
use std::alloc::{AllocError, Global};

/// A source that no file has.
#[derive(Drop)]
pub(crate) struct Addition {
    /// Its name, as messages show it.
    pub(crate) name: &'static str,
    pub(crate) text: Vec<u8>,
}

impl Addition {
    /// The bytes of its object.
    pub(crate) fn object(&self, alloc: Global) -> Result<Vec<u8>, JobError> {
        match assemble_object(alloc, self.text.as_slice()) {
            Ok(object) => Ok(object),
            Err(fault) => Err(fault_line(alloc, &fault, &[self.name])?),
        }
    }
}

/// The source that defines names, where words define any.
pub(crate) fn defined(
    alloc: Global,
    definitions: &Definitions<'_>,
) -> Result<Option<Addition>, AllocError> {
    if definitions.is_empty() {
        return Ok(None);
    }
    Ok(Some(Addition {
        name: defining::NAME,
        text: definitions.source(alloc)?,
    }))
}

/// The source that pads regions, where it is wanted.
pub(crate) fn padded(alloc: Global, is_wanted: bool) -> Result<Option<Addition>, AllocError> {
    if !is_wanted {
        return Ok(None);
    }
    Ok(Some(Addition {
        name: padding::NAME,
        text: Vec::from_slice(alloc, padding::SOURCE)?,
    }))
}

/// Texts without what says lines, for debuggers; none where it is not for these.
fn plain_inputs(
    alloc: Global,
    texts: &[Vec<u8>],
    is_debug: bool,
) -> Result<Vec<Vec<u8>>, AllocError> {
    if !is_debug {
        return Ok(Vec::new(alloc));
    }
    let texts = borrowed(alloc, texts)?;
    plain_texts(alloc, texts.as_slice())
}

/// The sources of a build, in their order.
#[derive(Drop)]
pub(crate) struct Inputs<'a> {
    /// Their names, as messages show them.
    names: Vec<&'a str>,
    texts: Vec<Vec<u8>>,
    /// The texts of the first ones without what says lines, if that is for debuggers.
    plain: Vec<Vec<u8>>,
    /// How many of them the words name; behind them stands what defines names.
    files: usize,
}

impl<'a> Inputs<'a> {
    /// Reads these files in their order, for debuggers or not; behind them come what defines names, and the padding where it
    /// is wanted.
    pub(crate) fn read<S: System>(
        system: &mut S,
        files: &'a [&'a str],
        definitions: &Definitions<'_>,
        is_padded: bool,
        is_debug: bool,
    ) -> Result<Self, JobError> {
        let alloc: Global = system.alloc();
        let texts = files_bytes(system, files)?;
        let plain = plain_inputs(alloc, texts.as_slice(), is_debug)?;
        let mut inputs = Inputs {
            names: Vec::from_slice(alloc, files)?,
            texts,
            plain,
            files: files.len(),
        };
        inputs.add(defined(alloc, definitions)?)?;
        inputs.add(padded(alloc, is_padded)?)?;
        Ok(inputs)
    }

    /// Adds a source behind the others, if there is one.
    fn add(&mut self, addition: Option<Addition>) -> Result<(), AllocError> {
        if let Some(addition) = addition {
            self.names.push(addition.name)?;
            self.texts.push(addition.text)?;
        }
        Ok(())
    }

    /// Puts another source in the place of the one that defines names.
    pub(crate) fn redefine(&mut self, text: Vec<u8>) {
        if let Some(defined) = self.texts.get_mut(self.files) {
            *defined = text;
        }
    }

    /// The names of all, as messages show them.
    pub(crate) fn names(&self) -> &[&'a str] {
        self.names.as_slice()
    }

    /// The texts of all, as they were read.
    pub(crate) fn sources(&self, alloc: Global) -> Result<Vec<&[u8]>, AllocError> {
        borrowed(alloc, self.texts.as_slice())
    }

    /// The texts of all, of which the program is built.
    pub(crate) fn texts(&self, alloc: Global) -> Result<Vec<&[u8]>, AllocError> {
        let mut texts = borrowed(alloc, self.plain.as_slice())?;
        for text in self.texts.iter().skip(self.plain.len()) {
            texts.push(text.as_slice())?;
        }
        Ok(texts)
    }
}
