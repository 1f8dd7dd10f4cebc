//! What one can choose of a link.

ghost use Rattle.std.specs.Prelude.{◌≡◌};
ghost use Rattle.rv_link_laws.specs.Ground as grounds;

use crate::ground::usual;
use rv_link_laws::Ground;

/// What one can choose of a link.
#[derive(Clone, Copy, Drop)]
pub struct LinkOptions {
    /// The address at which the text starts: a multiple of 4096 below the stack.
    pub text_start: u64,
    /// Whether calls become short that can be.
    pub relax: bool,
    /// Whether sections are left out to which nothing leads from the entry.
    pub gc: bool,
}

/// What one can choose of a link on a ground.
#[derive(Clone, Copy, Drop)]
pub struct GroundOptions {
    /// Where the program may stand.
    pub bounds: Ground,
    /// Whether calls become short that can be.
    pub relax: bool,
    /// Whether sections are left out to which nothing leads from the entry.
    pub gc: bool,
}

impl LinkOptions {
    /// The same on the ground below the stack.
    pub fn grounded(&self) -> GroundOptions
        ensures { result
            ≡ record {
              bounds = grounds.usual self.now.text_start;
              relax = self.now.relax;
              gc = self.now.gc;
            } }
    {
        GroundOptions {
            bounds: usual(self.text_start),
            relax: self.relax,
            gc: self.gc,
        }
    }
}
