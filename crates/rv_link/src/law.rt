//! A law of refusals.

ghost use Rattle.std.specs.Prelude.{◌≡◌, ℕ, Bool, List, None, length, map, true};
ghost use Rattle.std.specs.Global.{Vec as SaidVec};
ghost use Rattle.rv_map_laws.specs.Globals.{AreDistinct};
ghost use Rattle.rv_map_laws.specs.declared.map.SectionId.{SectionId};
ghost use Rattle.rv_object_laws.specs.Object.{Object};
ghost use Rattle.rv_object_types.specs.View.{object_of};
ghost use Rattle.rv_object_types.specs.declared.object.Object.{Object as AnyObject};
ghost use Rattle.rv_link_laws.specs.declared.bounds.Ground.{Ground};
ghost use Rattle.rv_link_laws.specs.Collects.{Collects, entry_place};
ghost use Rattle.rv_link_laws.specs.Names.{global_names};
ghost use Rattle.rv_link_laws.specs.Without.{without};
ghost use Rattle.rv_link_laws.specs.Undefined.{first_undefined};
ghost use Rattle.rv_link_laws.specs.Refusals.{HasNoProgram};
ghost use Rattle.rv_fault.specs.declared.link_fault.LinkFault.TheVariants.{EntryMissing, Undefined};
ghost use Rattle.rv_link_laws.specs.TextStart.{AreWithin};

/// Where no run can begin, collection leaves no reference to a name without a meaning. So a link with collection is not refused for
/// such a name, but for the missing entry, where the files, the text's start and the global definitions can be linked.
pub fn a_missing_entry_comes_first()
    ensures references { (objects : List Object) (drops : List SectionId) →
        Collects true objects drops → entry_place objects ≡ None →
        first_undefined (without drops objects) ≡ None }
    ensures first { (objects : List Object) (bounds : Ground) (relax : Bool) (name : SaidVec ℕ) →
        entry_place objects ≡ None →
        HasNoProgram objects bounds relax true (Undefined name) → ⊥ }
    ensures told { (objects : List AnyObject) (bounds : Ground) (relax : Bool) →
        AreWithin (length objects) bounds → AreDistinct (global_names (map object_of objects)) →
        entry_place (map object_of objects) ≡ None →
        HasNoProgram (map object_of objects) bounds relax true EntryMissing }
{}
