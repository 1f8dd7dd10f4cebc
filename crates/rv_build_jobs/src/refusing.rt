//! Why a build or a link is refused: the line of the fault, and what explains it below.
//!
//! What explains a fault is looked for only once there is one, so a good build pays nothing for it.

use crate::debug_objects::plain_texts;
use rv_archive::{ArchiveFault, fault_name, fault_number};
use rv_chain::{Fault, GroundOptions, LinkFault};
use rv_check::remark_of;
use rv_fault_texts::Remark;
use rv_image::{Image, load};
use rv_job::{Asked, LinkSettings};
use rv_object_report::{objects_remark, put_header};
use rv_system::{JobError, System, borrowed, fault_line, image_in};
use std::alloc::{AllocError, Global};

/// Why a build of sources is refused; `explains` says whether the words ask for more than the line of the fault.
pub(crate) fn refused_sources<S: System>(
    system: &S,
    fault: &Fault,
    names: &[&str],
    sources: &[&[u8]],
    options: GroundOptions,
    explains: bool,
) -> Result<JobError, AllocError> {
    let alloc: Global = system.alloc();
    let error = fault_line(alloc, fault, names)?;
    if !is_explained(system, explains) {
        return Ok(error);
    }
    match remark_of(alloc, names, sources, fault, options) {
        Ok(remark) => explained(alloc, error, &remark),
        Err(fault) => fault_line(alloc, &fault, names),
    }
}

/// What is linked, with names as messages show them.
#[derive(Clone, Copy, Drop)]
pub(crate) struct Linked<'l> {
    pub(crate) names: &'l [&'l str],
    pub(crate) objects: &'l [&'l [u8]],
    /// The texts of the sources of the first objects.
    pub(crate) sources: &'l [&'l [u8]],
}

/// Why a link is refused.
pub(crate) fn refused_link<S: System>(
    system: &S,
    fault: &Fault,
    linked: Linked<'_>,
    settings: LinkSettings,
) -> Result<JobError, AllocError> {
    let alloc: Global = system.alloc();
    let error = fault_line(alloc, fault, linked.names)?;
    if !is_explained(system, settings.explains) {
        return Ok(error);
    }
    match link_remark(alloc, fault, linked, settings.options) {
        Ok(remark) => explained(alloc, error, &remark),
        Err(fault) => fault_line(alloc, &fault, linked.names),
    }
}

/// What is said of the fault of a link: statements of sources, as where no archive is linked, or else places in objects.
fn link_remark(
    alloc: Global,
    fault: &Fault,
    linked: Linked<'_>,
    options: GroundOptions,
) -> Result<Remark, Fault> {
    let Linked {
        names,
        objects,
        sources,
    } = linked;
    if sources.is_empty() {
        return objects_remark(alloc, names, objects, fault, options);
    }
    let plain = plain_texts(alloc, sources)?;
    let texts = borrowed(alloc, plain.as_slice())?;
    let mut said = remark_of(alloc, names, texts.as_slice(), fault, options)?;
    if said.spot.is_none() {
        let placed = objects_remark(alloc, names, objects, fault, options)?;
        if placed.excerpt.is_empty() && !said.sentence.is_empty() {
            return Ok(said);
        }
        return Ok(placed);
    }
    if is_of_a_name(fault) {
        let names = &names[sources.len().min(names.len())..];
        let objects = &objects[sources.len().min(objects.len())..];
        let others = objects_remark(alloc, names, objects, fault, options)?;
        said.excerpt.push_str(others.excerpt.as_str())?;
    }
    Ok(said)
}

/// Whether the places of a fault are those of a name, which objects behind the sources can have too.
fn is_of_a_name(fault: &Fault) -> bool {
    matches!(
        fault,
        Fault::Link(LinkFault::Undefined(_)) | Fault::Link(LinkFault::Duplicate(_))
    )
}

/// The image of the executable that the words name.
pub(crate) fn program_image<S: System>(
    system: &S,
    asked: &Asked<'_>,
    exe: &[u8],
) -> Result<Image, JobError> {
    match image_in(system.alloc(), asked.file, exe) {
        Ok(image) => Ok(image),
        Err(error) if is_explained(system, asked.explains) => {
            Err(refused_executable(system.alloc(), error, exe)?)
        }
        Err(error) => Err(error),
    }
}

/// The line of a file that is no executable, with what it is instead below.
fn refused_executable(alloc: Global, error: JobError, exe: &[u8]) -> Result<JobError, AllocError> {
    let mut remark = Remark::new(alloc);
    if let Err(fault) = load(alloc, exe) {
        put_header(alloc, exe, &fault, &mut remark.sentence)?;
    }
    explained(alloc, error, &remark)
}

/// Why an archive of this name is refused.
pub(crate) fn refused_archive<S: System>(
    system: &S,
    name: &str,
    fault: ArchiveFault,
    explains: bool,
) -> Result<JobError, AllocError> {
    let alloc: Global = system.alloc();
    let number = fault_number(fault);
    let what = fault_name(fault);
    if !is_explained(system, explains) {
        return Ok(JobError::Line(format!(in alloc; "{name}: A{number} {what}")?));
    }
    Ok(JobError::Line(format!(in alloc; "{name}: A{number} {what}\n  {fault}")?))
}

/// Whether a fault is explained: the words ask for it, or somebody reads standard error at a terminal.
pub(crate) fn is_explained<S: System>(system: &S, explains: bool) -> bool {
    explains || system.errors_go_to_terminal()
}

/// The line of a fault with what is said of it below.
fn explained(alloc: Global, error: JobError, remark: &Remark) -> Result<JobError, AllocError> {
    let mut line = match error {
        JobError::Line(line) => line,
        other => return Ok(other),
    };
    let mut below = String::new(alloc);
    remark.put_to(&mut below)?;
    if let Some(text) = below.as_str().strip_suffix("\n") {
        line.push_str("\n")?;
        line.push_str(text)?;
    }
    Ok(JobError::Line(line))
}
