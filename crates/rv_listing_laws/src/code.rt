//! An instruction as it lies in memory.

use rv_isa::Inst;
use rv_parcel::Compressed;

/// An instruction as it lies in memory.
#[derive(Clone, Copy, Drop)]
pub enum Code {
    /// In four bytes.
    Word(Inst),
    /// In two, as a parcel of this form.
    Parcel(Compressed),
}
