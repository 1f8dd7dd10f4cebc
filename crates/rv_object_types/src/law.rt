//! What holds of each object of the code.

ghost use Rattle.std.specs.Prelude.{List, map};
ghost use Rattle.std.specs.List.{AllByRecursion};
ghost use Rattle.rv_object_laws.specs.Whole.{IsWhole};
ghost use Rattle.rv_object_types.specs.View.{object_of};
ghost use Rattle.rv_object_types.specs.declared.object.Object.{Object};

/// Objects of the code keep what every object keeps.
pub fn objects_are_whole()
    ensures { (objects : List Object) → AllByRecursion IsWhole (map object_of objects) }
{}
