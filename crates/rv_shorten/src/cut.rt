//! Calls that are cut short.

use crate::piece::Piece;

/// A call of which `jal` or `c.j` is left, with the register that it links.
pub(crate) type Cut = Piece<u32>;
