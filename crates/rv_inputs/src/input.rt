//! Files of a link.

/// What a file is taken as.
#[derive(Clone, Copy, Drop)]
pub enum Form {
    /// An object, which is taken whatever is asked for.
    Object,
    /// An archive, of which members are taken that are asked for.
    Archive,
}

/// A file of a link.
#[derive(Clone, Copy, Drop)]
pub struct Input<'a> {
    /// Its bytes.
    pub bytes: &'a [u8],
    /// What it is taken as.
    pub form: Form,
    /// Whether it stands in the group of the file before it.
    pub joins: bool,
}
