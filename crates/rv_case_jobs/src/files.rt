//! The files of cases: those that the words name, and those of folders.

use rv_system::{JobError, ReadFault, System, cannot};
use std::alloc::{AllocError, Global};

/// The files of a case.
#[derive(Drop)]
pub(crate) struct CaseFiles {
    pub source: String,
    /// The guest's input.
    pub input: Option<String>,
    /// What the guest must write.
    pub console: Option<String>,
}

/// The files of the cases that the words name, in their order; those of a folder in the order of their names.
pub(crate) fn case_files<S: System>(
    system: &mut S,
    given: &[&str],
) -> Result<Vec<CaseFiles>, JobError> {
    let alloc: Global = system.alloc();
    let mut cases = Vec::new(alloc);
    for name in given {
        match system.folder(name) {
            Ok(None) => cases.push(CaseFiles {
                source: String::from_str(alloc, name)?,
                input: None,
                console: None,
            })?,
            Ok(Some(names)) => add_folder(alloc, &mut cases, name, names)?,
            Err(ReadFault::Failed) => return Err(cannot(alloc, "read", name)?),
            Err(ReadFault::Memory) => return Err(JobError::Memory),
        }
    }
    Ok(cases)
}

/// Adds the cases of a folder, whose files have these names: one at least.
fn add_folder(
    alloc: Global,
    cases: &mut Vec<CaseFiles>,
    folder: &str,
    mut names: Vec<String>,
) -> Result<(), JobError> {
    names.sort()?;
    let before = cases.len();
    add_sources(alloc, cases, folder, names.as_slice())?;
    if cases.len() == before {
        return Err(JobError::Line(format!(in alloc; "{folder}: no file of it is a case")?));
    }
    Ok(())
}

/// Adds the cases of a folder, whose files have these names, which are sorted.
fn add_sources(
    alloc: Global,
    cases: &mut Vec<CaseFiles>,
    folder: &str,
    names: &[String],
) -> Result<(), AllocError> {
    for name in names {
        if let Some(stem) = name.as_str().strip_suffix(".s") {
            cases.push(case_of(alloc, folder, names, stem)?)?;
        }
    }
    Ok(())
}

/// The files of the case of this stem.
fn case_of(
    alloc: Global,
    folder: &str,
    names: &[String],
    stem: &str,
) -> Result<CaseFiles, AllocError> {
    Ok(CaseFiles {
        source: joined(alloc, folder, stem, ".s")?,
        input: beside(alloc, folder, names, stem, ".in")?,
        console: beside(alloc, folder, names, stem, ".out")?,
    })
}

/// The file of this stem and this ending, if a folder has it; the names are sorted.
fn beside(
    alloc: Global,
    folder: &str,
    names: &[String],
    stem: &str,
    ending: &str,
) -> Result<Option<String>, AllocError> {
    let name = format!(in alloc; "{stem}{ending}")?;
    match names.binary_search(&name) {
        Ok(_) => Ok(Some(joined(alloc, folder, stem, ending)?)),
        Err(_) => Ok(None),
    }
}

/// The name of a file of a folder.
fn joined(alloc: Global, folder: &str, stem: &str, ending: &str) -> Result<String, AllocError> {
    let slash = if folder.ends_with('/') { "" } else { "/" };
    format!(in alloc; "{folder}{slash}{stem}{ending}")
}
