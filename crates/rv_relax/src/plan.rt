//! How much is kept of each call and of each padding of a text.
//!
//! First the passes find the sizes of calls, with each padding in full: then a shortened call reaches, whatever paddings become.
//! After that each section keeps the least padding of each of its alignments. It begins at a multiple of all of them, so these
//! are the same wherever it stands, and are found before any section has its address.

ghost use Rattle.std.specs.Prelude.{◌≡◌, ◌+◌, ◌*◌, ◌≤◌, true, map, IfOk, IfErr};
ghost use Rattle.std.specs.List.{list_all};
ghost use Rattle.rv_size_laws.specs.Calls.{calls};
ghost use Rattle.rv_object_types.specs.View.{object_of};
ghost use Rattle.rv_link_laws.specs.CallSites.{sites_of};
ghost use Rattle.rv_link_laws.specs.Moves.{has_room};
ghost use Rattle.rv_link_laws.specs.Shortened.{Relaxes};
ghost use Rattle.rv_shorten.specs.Cuts.{no_cuts};
ghost use Rattle.rv_shorten.specs.View.{moves_by_section, short_object_of, whole_object_of};
ghost use Rattle.rv_relax.specs.CallSizes.{AreCallSizes};
ghost use Rattle.rv_relax.specs.Kept.{kept_in, moves_of};
ghost use Rattle.rv_relax.specs.Told.{told_objects};
ghost use Rattle.rv_relax.specs.declared.told.Counted.TheVariants.{Calls};

use crate::section_paddings::SectionPaddings;
use crate::text_line::TextLine;
use rv_call_sizes::CallSizes;
use rv_fault::LinkFault;
use rv_object_types::Object;
use rv_shorten::{ShortObject, ShortSection, shorten, whole};
use std::alloc::{AllocError, Global};

/// How much is kept of each call and of each padding of a text, so that the calls which can be short are short, and then each
/// alignment is as short as it can be. No byte of the text is in it.
#[derive(Drop)]
pub struct Plan<'o, 'a> {
    /// The objects, less what is cut of their calls.
    pub objects: Vec<ShortObject<'o, 'a>>,
    /// By object, and then by section: what is kept of its paddings.
    pub paddings: Vec<Vec<SectionPaddings>>,
    /// How many passes over the sites there were, the last of which shortened nothing; none where calls are not relaxed.
    rounds: usize,
    /// The paddings are those of the sections.
    pub ghost planned: { map (λ f. map moves_of f.items) paddings.items
        ≡ map (λ o. map kept_in o.sections.items) objects.items },
}

/// Objects, less what relaxation cuts of their calls, and how many passes over the sites found it.
#[derive(Drop)]
struct Cut<'o, 'a> {
    objects: Vec<ShortObject<'o, 'a>>,
    rounds: usize,
}

impl<'o, 'a> Cut<'o, 'a> {
    ghost use Rattle.rv_relax.specs.Plan.{RelaxesBy, objects_of_line};

    /// What is cut of the calls of a text.
    fn of(alloc: Global, text_line: &TextLine<'o, 'a>) -> Result<Cut<'o, 'a>, AllocError>
        ensures whole { IfOk result
            (λ cut. map whole_object_of cut.objects.items ≡ objects_of_line text_line.now) }
        ensures relaxes { IfOk result (λ cut. Relaxes true (objects_of_line text_line.now)
            (map short_object_of cut.objects.items)) }
        ensures cuts { IfOk result (λ cut. RelaxesBy true (objects_of_line text_line.now)
            (map short_object_of cut.objects.items) (map moves_by_section cut.objects.items)) }
        ensures calls { IfOk result (λ cut. AreCallSizes true (objects_of_line text_line.now)
            (told_objects Calls cut.objects.items)) }
        ensures rounds { IfOk result
            (λ cut. cut.rounds ≤ 2 * calls (sites_of (objects_of_line text_line.now)) + 1) }
    {
        let objects = text_line.objects();
        let sites = text_line.sites();
        let CallSizes { kept, rounds } = CallSizes::greatest(alloc, sites)?;
        let objects = shorten(alloc, objects, sites, &kept)?;
        Ok(Cut { objects, rounds })
    }
}

impl<'o, 'a> TextLine<'o, 'a> {
    ghost use Rattle.rv_relax.specs.Plan.{RelaxesBy, objects_of_line, planned_cuts, planned_objects, whole_objects};

    /// The plan of its text with calls relaxed, as [`Plan::relaxed`] gives it. The sites give their memory back before there
    /// are paddings, so that a text of many alignments never has both.
    ///
    /// # Errors
    ///
    /// Want of memory.
    pub fn into_plan(self, alloc: Global) -> Result<Plan<'o, 'a>, AllocError>
        ensures whole { IfOk result
            (λ plan. whole_objects plan ≡ objects_of_line self.entry) }
        ensures relaxes { IfOk result
            (λ plan. Relaxes true (objects_of_line self.entry) (planned_objects plan)) }
        ensures cuts { IfOk result (λ plan. RelaxesBy true (objects_of_line self.entry)
            (planned_objects plan) (planned_cuts plan)) }
    {
        let Cut { objects, rounds } = Cut::of(alloc, &self)?;
        drop(self);
        Plan::behind(alloc, objects, rounds)
    }
}

/// What is kept of the paddings of sections.
fn paddings_of(
    alloc: Global,
    sections: &[ShortSection<'_, '_>],
) -> Result<Vec<SectionPaddings>, AllocError>
    ensures { IfOk result (λ plans. map moves_of plans.items ≡ map kept_in sections.now) }
{
    let mut plans = Vec::with_capacity(alloc, sections.len())?;
    for section in sections {
        plans.push(SectionPaddings::of(alloc, section)?)?;
    }
    Ok(plans)
}

/// What is kept of the paddings of the sections of objects.
fn paddings_of_all(
    alloc: Global,
    objects: &[ShortObject<'_, '_>],
) -> Result<Vec<Vec<SectionPaddings>>, AllocError>
    ensures { IfOk result (λ plans. map (λ f. map moves_of f.items) plans.items
        ≡ map (λ o. map kept_in o.sections.items) objects.now) }
{
    let mut plans = Vec::with_capacity(alloc, objects.len())?;
    for object in objects {
        plans.push(paddings_of(alloc, object.sections.as_slice())?)?;
    }
    Ok(plans)
}

/// Whether each padding of these sections is as long as what is needed of it.
fn are_roomy(plans: &[SectionPaddings]) -> bool
    ensures { result ≡ list_all (λ p. list_all has_room (moves_of p)) plans.now }
{
    plans.iter().all(|plan| plan.is_roomy())
}

impl<'o, 'a> Plan<'o, 'a> {
    ghost use Rattle.rv_relax.specs.Plan.{IsUnplanned, are_roomy_objects, planned_cuts, planned_objects, objects_of_line, rounds_of, whole_objects};

    /// The plan of a text in which each alignment has as many bytes as it needs (`Plan::relaxed`).
    ///
    /// # Errors
    ///
    /// `AlignmentShort` where an alignment needs more bytes than it has; `OutOfMemory`.
    pub fn of(
        alloc: Global,
        text_line: &TextLine<'o, 'a>,
        relax: bool,
    ) -> Result<Plan<'o, 'a>, LinkFault>
        ensures whole { IfOk result (λ plan. whole_objects plan ≡ objects_of_line text_line.now) }
        ensures relaxes { IfOk result
            (λ plan. Relaxes relax (objects_of_line text_line.now) (planned_objects plan)) }
        ensures calls { IfOk result (λ plan. AreCallSizes relax (objects_of_line text_line.now)
            (told_objects Calls plan.objects.items)) }
        ensures room { IfOk result (λ plan. are_roomy_objects (planned_objects plan) ≡ true) }
        ensures rounds { IfOk result
            (λ plan. rounds_of plan ≤ 2 * calls (sites_of (objects_of_line text_line.now)) + 1) }
        ensures refuses { IfErr result (IsUnplanned relax (objects_of_line text_line.now)) }
    {
        let plan = Plan::relaxed(alloc, text_line, relax)?;
        if !plan.is_roomy() {
            return Err(LinkFault::AlignmentShort);
        }
        Ok(plan)
    }

    /// Where calls are relaxed, the greatest sizes with which no call has a shorter form that reaches, found in passes over
    /// the sites of a text, forwards and backwards in turn. Elsewhere each call keeps its eight bytes. Then each padding is the
    /// least that aligns its end, whether it has room or not: [`Plan::is_roomy`] tells.
    ///
    /// # Errors
    ///
    /// `AllocError` where there is no memory for some 32 bytes a site.
    pub fn relaxed(
        alloc: Global,
        text_line: &TextLine<'o, 'a>,
        relax: bool,
    ) -> Result<Plan<'o, 'a>, AllocError>
        ensures whole { IfOk result (λ plan. whole_objects plan ≡ objects_of_line text_line.now) }
        ensures relaxes { IfOk result
            (λ plan. Relaxes relax (objects_of_line text_line.now) (planned_objects plan)) }
        ensures calls { IfOk result (λ plan. AreCallSizes relax (objects_of_line text_line.now)
            (told_objects Calls plan.objects.items)) }
        ensures rounds { IfOk result
            (λ plan. rounds_of plan ≤ 2 * calls (sites_of (objects_of_line text_line.now)) + 1) }
    {
        if !relax {
            return Plan::whole(alloc, text_line.objects());
        }
        let Cut { objects, rounds } = Cut::of(alloc, text_line)?;
        Plan::behind(alloc, objects, rounds)
    }

    /// The plan of objects whose calls keep their eight bytes.
    ///
    /// # Errors
    ///
    /// Want of memory.
    pub fn whole(alloc: Global, objects: &'o [Object<'a>]) -> Result<Plan<'o, 'a>, AllocError>
        ensures whole { IfOk result (λ plan. whole_objects plan ≡ map object_of objects.now) }
        ensures same { IfOk result (λ plan. planned_objects plan ≡ map object_of objects.now) }
        ensures cuts { IfOk result (λ plan. planned_cuts plan ≡ no_cuts (map object_of objects.now)) }
        ensures rounds { IfOk result (λ plan. rounds_of plan ≡ 0) }
    {
        let objects = whole(alloc, objects)?;
        Plan::behind(alloc, objects, 0)
    }

    /// The plan of objects of which this is left, behind so many passes.
    fn behind(
        alloc: Global,
        objects: Vec<ShortObject<'o, 'a>>,
        rounds: usize,
    ) -> Result<Plan<'o, 'a>, AllocError>
        ensures objects { IfOk result (λ plan. plan.objects.items ≡ objects.entry.items) }
        ensures rounds { IfOk result (λ plan. rounds_of plan ≡ rounds) }
    {
        let paddings = paddings_of_all(alloc, objects.as_slice())?;
        Ok(Plan {
            objects,
            paddings,
            rounds,
        })
    }

    /// Whether each padding of each file is as long as what is needed of it.
    fn has_rooms(&self) -> bool
        ensures { result ≡ list_all (λ f. list_all (λ p. list_all has_room (moves_of p)) f.items)
            (self.now).paddings.items }
    {
        self.paddings
            .iter()
            .all(|plans| are_roomy(plans.as_slice()))
    }

    /// Whether each alignment has as many bytes as it needs.
    pub fn is_roomy(&self) -> bool
        ensures { result ≡ are_roomy_objects (planned_objects self.now) }
    {
        self.has_rooms()
    }

    /// How many passes over the sites there were.
    pub fn rounds(&self) -> usize
        ensures { result ≡ rounds_of self.now }
    {
        self.rounds
    }
}
