//! Where code and data begin, in order.

use std::alloc::{AllocError, Global};

/// Where code or data begins.
#[derive(Clone, Copy, Drop)]
pub(crate) struct Mark {
    /// The number of the section; 0 of segments.
    pub(crate) section: u32,
    /// The offset in a section of an object, else the address.
    pub(crate) address: u64,
    pub(crate) is_data: bool,
}

/// Marks by where they stand.
#[derive(Drop)]
pub(crate) struct Marks {
    sorted: Vec<Mark>,
}

impl Marks {
    /// None yet.
    pub(crate) fn new(alloc: Global) -> Marks {
        Marks {
            sorted: Vec::new(alloc),
        }
    }

    /// Adds one; of those of a place the last holds.
    pub(crate) fn add(&mut self, mark: Mark) -> Result<(), AllocError> {
        self.sorted.push(mark)?;
        Ok(())
    }

    /// Puts all in order, once they are added.
    pub(crate) fn order(&mut self) -> Result<(), AllocError> {
        self.sorted.sort_by_key(|mark| (mark.section, mark.address))
    }

    /// Those of a section, by their places.
    pub(crate) fn of_section(&self, section: u32) -> &[Mark] {
        let first = self.sorted.partition_point(|mark| mark.section < section);
        let last = self.sorted.partition_point(|mark| mark.section <= section);
        self.sorted.get(first..last).unwrap_or(&[])
    }
}
