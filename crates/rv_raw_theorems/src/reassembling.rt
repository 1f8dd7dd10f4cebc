//! The law, the contract of a function that only calls others for theirs.

ghost use Rattle.rv_raw_theorems.specs.Reassembles.{RawListingsReassemble};

use crate::reading::listing_reads;
use rv_parse_laws::one_reading;

/// A raw listing, built again from the address of the segment that it lists, gives the bytes of that segment and the entry of
/// the image, with either of `relax` and `gc`.
pub fn raw_listings_reassemble()
    ensures { RawListingsReassemble }
{
    listing_reads();
    one_reading();
}
