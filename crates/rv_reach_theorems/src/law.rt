//! Laws of chosen forms, each the contract of a function with nothing to do.

ghost use Rattle.rv_reach_theorems.specs.Reach.{ShortBranchesReach, ShortCallsReach};

/// Whatever paddings regrow, the field of each call of which relaxation leaves `jal` or `c.j` takes its value: in any
/// objects that keep what every object keeps, whoever made them, with all their sections or without some of them.
pub fn short_calls_reach()
    ensures { ShortCallsReach }
{}

/// So does that of each branch of 2 or 4 bytes and of each `c.j` in objects of sources, with calls shortened or not
/// and sections collected or not.
pub fn short_branches_reach()
    ensures { ShortBranchesReach }
{}
