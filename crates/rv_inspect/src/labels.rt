//! Names of places, in order.

use std::alloc::{AllocError, Global};

/// A name and where it stands.
#[derive(Clone, Copy, Drop)]
pub(crate) struct Label<'a> {
    /// The number of its section; 0 of segments.
    pub(crate) section: u32,
    /// The offset in a section of an object, else the address.
    pub(crate) address: u64,
    /// Which of the names of a place comes first: functions, then variables, then others, and global names before local
    /// ones.
    pub(crate) rank: u8,
    /// How many bytes it names; the larger comes first.
    pub(crate) size: u64,
    pub(crate) name: &'a [u8],
}

/// Names by section and place, and by place alone.
#[derive(Drop)]
pub(crate) struct Labels<'a> {
    by_section: Vec<Label<'a>>,
    by_address: Vec<Label<'a>>,
}

impl<'a> Labels<'a> {
    /// None yet.
    pub(crate) fn new(alloc: Global) -> Labels<'a> {
        Labels {
            by_section: Vec::new(alloc),
            by_address: Vec::new(alloc),
        }
    }

    /// Adds one.
    pub(crate) fn add(&mut self, label: Label<'a>) -> Result<(), AllocError> {
        self.by_section.push(label)?;
        Ok(())
    }

    /// Puts all in order, once they are added.
    pub(crate) fn order(&mut self) -> Result<(), AllocError> {
        self.by_section.sort_by_key(|label| {
            (
                label.section,
                label.address,
                label.rank,
                !label.size,
                label.name,
            )
        })?;
        self.by_address = Vec::from_slice(*self.by_section.allocator(), &self.by_section)?;
        self.by_address.sort_by_key(|label| (label.address, label.rank, !label.size, label.section))
    }

    /// Those of a section, by their places.
    pub(crate) fn of_section(&'a self, section: u32) -> &'a [Label<'a>] {
        let labels = self.by_section.as_slice();
        let first = labels.partition_point(|label| label.section < section);
        let last = labels.partition_point(|label| label.section <= section);
        labels.get(first..last).unwrap_or(&[])
    }

    /// Those from an address on and before another, by their places.
    pub(crate) fn within(&'a self, start: u64, end: u64) -> &'a [Label<'a>] {
        let labels = self.by_address.as_slice();
        let first = labels.partition_point(|label| label.address < start);
        let last = labels.partition_point(|label| label.address < end);
        labels.get(first..last).unwrap_or(&[])
    }

    /// All, by their places.
    pub(crate) fn all(&'a self) -> &'a [Label<'a>] {
        self.by_address.as_slice()
    }
}

/// The first name of the last place that is not after an address; where there is none, the first name after it.
pub(crate) fn nearest<'a>(labels: &[Label<'a>], address: u64) -> Option<Label<'a>> {
    let count = labels.partition_point(|label| label.address <= address);
    let Some(last) = count.checked_sub(1) else {
        return labels.first().copied();
    };
    let place = labels.get(last)?.address;
    let first = labels.partition_point(|label| label.address < place);
    labels.get(first).copied()
}
