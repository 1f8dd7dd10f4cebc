//! The laws, each the contract of a function with nothing to do.

ghost use Rattle.rv_raw_theorems.specs.Listed.{HaveAProgram, HaveNoFault};

/// A raw listing that is no longer than a source has no fault, and none of its code is too long.
pub fn raw_listings_have_no_fault()
    ensures { HaveNoFault }
{}

/// Its object has a program wherever it ends below the stack: a link refuses it for want of memory alone.
pub fn raw_objects_have_a_program()
    ensures { HaveAProgram }
{}
