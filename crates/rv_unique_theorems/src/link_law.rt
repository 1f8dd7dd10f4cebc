//! Laws of programs and of refusals.

ghost use Rattle.rv_unique_theorems.specs.Same.{OneProgram, RefusedForMemory, RefusedForOne, RowsArePlaced, RunsBeginEven};

/// Objects whose rows have addresses have one program: two that are programs of them are equal, with relaxation and collection
/// and without.
pub fn one_program()
    ensures { OneProgram }
{}

/// Objects that have a program are refused for want of memory alone.
pub fn refused_has_no_program()
    ensures { RefusedForMemory }
{}

/// But for want of memory, objects are refused for one reason, where a run of what collection and relaxation leave of them
/// begins at an even address.
pub fn refused_for_one_reason()
    ensures { RefusedForOne }
{}

/// What these laws ask is had by objects that keep what every object of the code keeps.
pub fn objects_keep_it()
    ensures rows { RowsArePlaced }
    ensures runs { RunsBeginEven }
{}
