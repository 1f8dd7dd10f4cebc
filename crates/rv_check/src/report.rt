//! What a check finds.

use rv_fault::Fault;
use rv_fault_texts::Remark;

/// A fault, and what is said of it.
#[derive(Drop)]
pub struct Finding {
    /// The fault, as `build` answers it.
    pub fault: Fault,
    /// Where it stands, and why.
    pub remark: Remark,
}

/// What a check of sources finds.
#[derive(Drop)]
pub struct Report {
    /// The fault that `build` answers; none where the sources can be built.
    pub first: Option<Finding>,
    /// The faults after it.
    pub others: Vec<Finding>,
    /// What may be a mistake in sources without a fault.
    pub warnings: Vec<Remark>,
    /// The count of faults, or the sizes of the regions: a line, with a line feed.
    pub closing: String,
}
