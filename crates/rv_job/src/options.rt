//! How sources are built where the words say nothing of it.

ghost use Rattle.std.specs.Prelude.{◌≡◌, true, false};
ghost use Rattle.rv_link_laws.specs.Ground.{usual, ground_of};

use rv_link::{GroundOptions, ground_of as free_ground, usual as usual_ground};

/// Where the text of a program starts unless the words say otherwise.
pub const TEXT_START: u64 = 0x1_0000;

/// The options of a build whose words say nothing else.
pub fn default_options() -> GroundOptions
    ensures bounds { result.bounds ≡ usual 0x1_0000 }
    ensures relax { result.relax ≡ true }
    ensures gc { result.gc ≡ false }
{
    GroundOptions {
        bounds: usual_ground(TEXT_START),
        relax: true,
        gc: false,
    }
}

/// The options of a build for the board `virt`: the text stands where its RAM begins.
pub fn board_options() -> GroundOptions
    ensures bounds { result.bounds ≡ ground_of 0x8000_0000 }
    ensures relax { result.relax ≡ true }
    ensures gc { result.gc ≡ false }
{
    GroundOptions {
        bounds: free_ground(0x8000_0000),
        relax: true,
        gc: false,
    }
}
