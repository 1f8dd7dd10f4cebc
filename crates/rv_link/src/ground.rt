//! The grounds on which a program may be put.

ghost use Rattle.std.specs.Prelude.{◌≡◌};
ghost use Rattle.rv_image_laws.specs.Free as laws;
ghost use Rattle.rv_link_laws.specs.Ground as grounds;

use rv_image::{HIGHEST, STACK_BYTES, STACK_START};
use rv_link_laws::Ground;

/// The ground of a text that starts below the stack, which is where its program ends, too.
pub fn usual(text_start: u64) -> Ground
    ensures { result ≡ grounds.usual text_start }
{
    Ground {
        text: text_start,
        ceiling: STACK_START,
    }
}

/// The ground of a text that may begin anywhere: as far as memory is free. In the stack none is, and no program is put there.
pub fn ground_of(origin: u64) -> Ground
    ensures { result ≡ grounds.ground_of origin }
{
    Ground {
        text: origin,
        ceiling: free_until(origin),
    }
}

/// The end of the free memory from an address on.
pub(crate) fn free_until(address: u64) -> u64
    ensures { result ≡ laws.free_until address }
{
    if address < STACK_START + STACK_BYTES as u64 {
        STACK_START
    } else {
        HIGHEST
    }
}
