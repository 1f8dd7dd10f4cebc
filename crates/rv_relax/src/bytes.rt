//! The bytes that are kept of a section.

ghost use Rattle.std.specs.Prelude.{◌≡◌, ◌++◌, true, map, OnOk};
ghost use Rattle.rv_link_laws.specs.Moves.{kept};
ghost use Rattle.rv_relax.specs.Paddings.{are_in_order, move_of};
ghost use Rattle.rv_shorten.specs.Bytes.{left_bytes};

use rv_object_types::put_no_operations;
use rv_shorten::{LeftBytes, Piece};
use std::alloc::AllocError;

/// Adds what is kept of a section's bytes.
pub(crate) fn put_kept(
    out: &mut Vec<u8>,
    paddings: &[Piece<()>],
    mut bytes: LeftBytes<'_>,
) -> Result<(), AllocError>
    requires { are_in_order 0 0 paddings.now ≡ true }
    ensures { OnOk result
        (out.new.items ≡ out.old.items
        ++ kept 0 (map move_of paddings.now) (left_bytes bytes.entry)) }
{
    let mut at = 0;
    for padding in paddings {
        bytes.put(out, padding.place - at)?;
        put_no_operations(out, padding.left)?;
        bytes.skip(u64::from(padding.full));
        at = padding.end();
    }
    bytes.put_all(out)
}
