//! The faults of sources, one after the other.
//!
//! The first is the one that `build` gives. For the next one the statement of the last is blanked, and the source is
//! assembled again: so each fault is one that `build` would give, and the layers below know nothing of it.

ghost use Rattle.std.specs.Prelude.{map, IfOk};
ghost use Rattle.rv_statement.specs.View.{now_of};
ghost use Rattle.rv_check.specs.Check.{BeginsWithFaultOf, HasFirst};

use crate::linking::link_remark;
use crate::placing::place_of;
use crate::report::{Finding, Report};
use rv_assemble::{PlacedFault, first_fault};
use rv_chain::build_on;
use rv_fault::{Fault, SourceCode, SourceFault};
use rv_fault_texts::{
    Blocks, FaultPlace, Remark, blank, closing_of, directs, follows_from, is_of_macro,
    is_other_file, put_refused_names, put_sentence, section_before, without_macro, without_sort,
};
use rv_link::GroundOptions;
use rv_warnings::put_warnings;
use std::alloc::{AllocError, Global};

/// The most faults that are shown.
const MOST_FAULTS: usize = 20;
/// The most warnings of a source that are shown.
const MOST_WARNINGS: usize = 20;

/// What is wrong with sources, in their order, or what they come to; `names` are those of the files. An error is want of
/// memory.
pub fn check(
    alloc: Global,
    names: &[&str],
    sources: &[&[u8]],
    options: GroundOptions,
) -> Result<Report, Fault>
    ensures first { IfOk result (λ report. BeginsWithFaultOf
        (map now_of sources.now) options.bounds options.relax options.gc report.first) }
{
    match build_on(alloc, sources, options) {
        Ok(built) => {
            let closing = closing_of(alloc, sources, built.map.as_slice())?;
            let warnings = all_warnings(alloc, sources, built.map.as_slice(), closing.warnings)?;
            Ok(Report {
                first: None,
                others: Vec::new(alloc),
                warnings,
                closing: closing.sizes,
            })
        }
        Err(Fault::Memory) => Err(Fault::Memory),
        Err(fault) => refused(alloc, names, sources, fault, options),
    }
}

/// The warnings of sources, those by their words and those by what their statements do, line by line.
fn all_warnings(
    alloc: Global,
    sources: &[&[u8]],
    map: &[u8],
    by_words: Vec<Remark>,
) -> Result<Vec<Remark>, AllocError> {
    let mut warnings = by_words;
    let is_alone = sources.len() == 1;
    let mut file = 0usize;
    for source in sources {
        let most = MOST_WARNINGS.saturating_sub(count_in(warnings.as_slice(), file));
        put_warnings(alloc, file, source, map, is_alone, most, &mut warnings)?;
        file = file.saturating_add(1);
    }
    warnings.sort_by_key(|warning: &Remark| spot_of(warning))?;
    Ok(warnings)
}

/// How many warnings are of a source.
fn count_in(warnings: &[Remark], file: usize) -> usize {
    let mut count = 0usize;
    for warning in warnings {
        if spot_of(warning).0 == file {
            count = count.saturating_add(1);
        }
    }
    count
}

/// The source, the line and the column of a warning.
fn spot_of(warning: &Remark) -> (usize, u32, usize) {
    match &warning.spot {
        Some(spot) => (spot.file, spot.line, spot.column),
        None => (0, 0, 0),
    }
}

/// The report of sources that have this fault first.
fn refused(
    alloc: Global,
    names: &[&str],
    sources: &[&[u8]],
    fault: Fault,
    options: GroundOptions,
) -> Result<Report, Fault>
    ensures { IfOk result (λ report. HasFirst report.first fault) }
{
    let mut others = Vec::new(alloc);
    let remark = remark_of(alloc, names, sources, &fault, options)?;
    if let Fault::Source(file, _) = &fault {
        put_others(alloc, sources, *file, &mut others)?;
    }
    let closing = count_text(alloc, &mut others)?;
    Ok(Report {
        first: Some(Finding { fault, remark }),
        others,
        warnings: Vec::new(alloc),
        closing,
    })
}

/// What is said of the fault for which a build of sources is refused; `names` are those of the files. An error is want of memory.
pub fn remark_of(
    alloc: Global,
    names: &[&str],
    sources: &[&[u8]],
    fault: &Fault,
    options: GroundOptions,
) -> Result<Remark, Fault> {
    match fault {
        Fault::Source(file, SourceFault::At { .. }) => source_remark(alloc, sources, *file),
        Fault::Link(link) => link_remark(alloc, names, sources, link, options),
        _ => Ok(Remark::new(alloc)),
    }
}

/// What is said of the first fault of a source, whose file counts from 1.
fn source_remark(alloc: Global, sources: &[&[u8]], file: u32) -> Result<Remark, Fault> {
    let Some(source) = sources.get((file as usize).saturating_sub(1)) else {
        return Ok(Remark::new(alloc));
    };
    let Some(fault) = first_fault(alloc, source)? else {
        return Ok(Remark::new(alloc));
    };
    let place = place_of(alloc, source, &fault)?;
    remark_at(alloc, source, file, &fault, &place)
}

/// Adds the faults after the first, which is in this file; one more than are shown tells that there are more.
fn put_others(
    alloc: Global,
    sources: &[&[u8]],
    file: u32,
    others: &mut Vec<Finding>,
) -> Result<(), Fault> {
    let mut number = 0u32;
    for source in sources {
        number = number.saturating_add(1);
        if file <= number {
            let mut draft = source.to_vec(alloc)?;
            put_faults_of(
                alloc,
                source,
                draft.as_mut_slice(),
                number,
                number == file,
                others,
            )?;
        }
    }
    Ok(())
}

/// Adds the faults of a source, but for its first one where it is there already.
fn put_faults_of(
    alloc: Global,
    source: &[u8],
    draft: &mut [u8],
    file: u32,
    but_first: bool,
    others: &mut Vec<Finding>,
) -> Result<(), Fault> {
    let mut omitted = Omitted {
        unknown: Vec::new(alloc),
        refused: Vec::new(alloc),
        blocks: Blocks::new(alloc),
        misplaced: Vec::new(alloc),
    };
    let mut is_there = but_first;
    for _ in 0..=MOST_FAULTS {
        if MOST_FAULTS <= others.len() {
            return Ok(());
        }
        let Some(fault) = first_fault(alloc, draft)? else {
            return Ok(());
        };
        let place = place_of(alloc, draft, &fault)?;
        let cause = cause_of(alloc, source, draft, &fault, &place, &omitted)?;
        if !is_there && cause == Cause::Own {
            others.push(finding(alloc, source, file, &fault, &place)?)?;
        }
        is_there = false;
        let Some(place) = place else {
            return Ok(());
        };
        if is_other_file(source) {
            return Ok(());
        }
        omitted.put(alloc, source, &fault, &place)?;
        if !leave(alloc, draft, &fault, &place, cause)? {
            return Ok(());
        }
    }
    Ok(())
}

/// What was left out of a draft for its faults.
#[derive(Drop)]
struct Omitted<'a> {
    /// The lines of unknown directives.
    unknown: Vec<u32>,
    /// The names whose definitions were refused.
    refused: Vec<&'a [u8]>,
    blocks: Blocks<'a>,
    /// The sections in which a statement stands that cannot, by the lines where they begin, and whether it is a directive.
    misplaced: Vec<(u32, bool)>,
}

impl<'a> Omitted<'a> {
    /// Whether a statement of this sort stood in the section that begins at a line, and could not.
    fn has_misplaced(&self, section: u32, directs: bool) -> bool {
        self.misplaced
            .iter()
            .any(|(line, sort)| *line == section && *sort == directs)
    }

    /// Adds a statement that is left out.
    fn put(
        &mut self,
        alloc: Global,
        source: &'a [u8],
        fault: &PlacedFault,
        place: &FaultPlace,
    ) -> Result<(), AllocError> {
        if fault.code == SourceCode::UnknownDirective {
            self.unknown.push(fault.line)?;
        }
        self.blocks.note(source, place, fault.line)?;
        if fault.code == SourceCode::WrongSection {
            self.misplaced
                .push(sort_of(alloc, source, fault.line, place)?)?;
        }
        put_refused_names(alloc, source, place, &mut self.refused)
    }
}

/// The line where the section of a statement begins, and whether the statement is a directive.
fn sort_of(
    alloc: Global,
    source: &[u8],
    line: u32,
    place: &FaultPlace,
) -> Result<(u32, bool), AllocError> {
    Ok((section_before(alloc, source, line)?, directs(source, place)))
}

/// Where a fault comes from.
#[derive(Clone, Copy, Drop)]
enum Cause {
    /// From itself.
    Own,
    /// From a directive that is unknown and may have gone to its section, or from the want of one.
    Directive,
    /// From a name whose definition was refused.
    Name,
    /// From a directive that begins a block and was refused.
    Block,
}

/// Where a fault of a draft comes from.
fn cause_of(
    alloc: Global,
    source: &[u8],
    draft: &[u8],
    fault: &PlacedFault,
    place: &Option<FaultPlace>,
    omitted: &Omitted<'_>,
) -> Result<Cause, AllocError> {
    let code = fault.code;
    if code == SourceCode::WrongSection
        && may_follow(alloc, draft, fault.line, omitted.unknown.as_slice())?
    {
        return Ok(Cause::Directive);
    }
    match place {
        Some(place) if code == SourceCode::WrongSection => {
            let (section, directs) = sort_of(alloc, draft, fault.line, place)?;
            Ok(if omitted.has_misplaced(section, directs) {
                Cause::Directive
            } else {
                Cause::Own
            })
        }
        Some(place) if omitted.blocks.explain(source, code, place, fault.line) => Ok(Cause::Block),
        Some(place) if follows_from(alloc, source, code, place, omitted.refused.as_slice())? => {
            Ok(Cause::Name)
        }
        _ => Ok(Cause::Own),
    }
}

/// Whether a directive that is unknown may have gone to the section of a line.
fn may_follow(alloc: Global, draft: &[u8], line: u32, unknown: &[u32]) -> Result<bool, AllocError> {
    let section = section_before(alloc, draft, line)?;
    Ok(unknown.iter().any(|at| section <= *at && *at < line))
}

/// Leaves out of a draft what is at fault, and what only follows from it; whether that changes a byte.
fn leave(
    alloc: Global,
    draft: &mut [u8],
    fault: &PlacedFault,
    place: &FaultPlace,
    cause: Cause,
) -> Result<bool, AllocError> {
    if cause == Cause::Directive {
        let left = without_sort(alloc, draft, fault.line, place)?;
        return Ok(overwrite(draft, left.as_slice()));
    }
    if is_of_macro(draft, place) {
        let left = without_macro(alloc, draft, place)?;
        return Ok(overwrite(draft, left.as_slice()));
    }
    Ok(blank(draft, fault.code, place))
}

/// Gives a draft other bytes; whether that changes one.
fn overwrite(draft: &mut [u8], bytes: &[u8]) -> bool {
    let mut changed = false;
    for (old, new) in draft.iter_mut().zip(bytes) {
        if *old != *new {
            *old = *new;
            changed = true;
        }
    }
    changed
}

/// A fault of a source, with what is said of it.
fn finding(
    alloc: Global,
    source: &[u8],
    file: u32,
    fault: &PlacedFault,
    place: &Option<FaultPlace>,
) -> Result<Finding, Fault> {
    let remark = remark_at(alloc, source, file, fault, place)?;
    let fault = SourceFault::At {
        code: fault.code,
        line: fault.line,
    };
    Ok(Finding {
        fault: Fault::Source(file, fault),
        remark,
    })
}

/// What is said of a fault of a source: its line with carets and its sentence, where its place is known.
fn remark_at(
    alloc: Global,
    source: &[u8],
    file: u32,
    fault: &PlacedFault,
    place: &Option<FaultPlace>,
) -> Result<Remark, Fault> {
    let mut remark = Remark::new(alloc);
    let Some(place) = place else {
        return Ok(remark);
    };
    let index = (file as usize).saturating_sub(1);
    remark.show(index, source, fault.line, place.shown)?;
    put_sentence(alloc, &mut remark.sentence, source, fault.code, place)?;
    Ok(remark)
}

/// How many faults there are with the first; one that is too many to be shown is taken away.
fn count_text(alloc: Global, others: &mut Vec<Finding>) -> Result<String, AllocError> {
    if MOST_FAULTS <= others.len() {
        let _ = others.pop();
        return "20 faults, and more\n".to_string(alloc);
    }
    match others.len() {
        0 => "1 fault\n".to_string(alloc),
        others => {
            let count = others + 1;
            format!(in alloc; "{count} faults\n")
        }
    }
}
