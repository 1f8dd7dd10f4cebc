//! Where a fault stands: at a byte, or in which of the statements.

use rv_assemble::{Culprit, PlacedFault};
use rv_fault_texts::{FaultPlace, place_at_byte, place_in_statement};
use std::alloc::{AllocError, Global};

/// The place of the first fault of a source; none where its line has no token.
pub(crate) fn place_of(
    alloc: Global,
    source: &[u8],
    fault: &PlacedFault,
) -> Result<Option<FaultPlace>, AllocError> {
    match fault.culprit {
        Culprit::Byte(offset) => { place_at_byte(alloc, source, fault.code, fault.line, offset) }
        Culprit::Statement(_, offset) => {
            place_in_statement(alloc, source, fault.code, fault.line, offset)
        }
    }
}
