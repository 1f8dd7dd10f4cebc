//! What files offer.

/// An object that a file offers.
#[derive(Clone, Copy, Drop)]
pub struct Offer<'a> {
    /// The name for which it is offered; none of an object of its own.
    pub name: Option<&'a [u8]>,
    /// Its number among all objects that are offered, from 0.
    pub object: usize,
    /// The number of the file that offers it, from 1, in the order of the files.
    pub file: usize,
    /// The number of the group in which the file stands, from 1, in the order of the groups.
    pub group: usize,
}
