//! Relaxation: the plan of objects, in which the calls are short that can be.

ghost use Rattle.std.specs.Prelude.{◌≡◌, map, IfOk, IfErr};
ghost use Rattle.rv_object_types.specs.View.{object_of};
ghost use Rattle.rv_link_laws.specs.Shortened.{Relaxes};
ghost use Rattle.rv_relax.specs.Plan.{RelaxesBy, planned_cuts, planned_objects, whole_objects};
ghost use Rattle.rv_names.specs.Names.{IsNames};
ghost use Rattle.rv_fault.specs.declared.link_fault.LinkFault.TheVariants.{OutOfMemory};

use rv_fault::LinkFault;
use rv_names::Names;
use rv_object_types::Object;
use rv_relax::{Plan, TextLine};
use std::alloc::Global;

/// The plan of objects, whose names mean this, where relaxation is on or not. They are lent: no byte of them moves before the
/// program.
pub(crate) fn relaxed<'o, 'a>(
    alloc: Global,
    objects: &'o [Object<'a>],
    names: &Names<'_>,
    relax: bool,
) -> Result<Plan<'o, 'a>, LinkFault>
    requires { IsNames (map object_of objects.now) names.now }
    ensures relaxes { IfOk result
        (λ plan. Relaxes relax (map object_of objects.now) (planned_objects plan)) }
    ensures whole { IfOk result (λ plan. whole_objects plan ≡ map object_of objects.now) }
    ensures cuts { IfOk result (λ plan. RelaxesBy relax (map object_of objects.now)
        (planned_objects plan) (planned_cuts plan)) }
    ensures refuses { IfErr result (λ fault. fault ≡ OutOfMemory) }
{
    if !relax {
        // where no call may be shortened, nobody asks where calls lead
        return Ok(Plan::whole(alloc, objects)?);
    }
    let placed = TextLine::of(alloc, objects, names)?;
    Ok(placed.into_plan(alloc)?)
}
