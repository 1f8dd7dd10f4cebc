//! What objects say of names.

/// The names of an object that concern other objects.
#[derive(Drop)]
pub struct ObjectNames<'a> {
    /// Those that it defines for all files, weakly or not.
    pub defined: Vec<&'a [u8]>,
    /// Those that it leaves undefined, but for weak ones.
    pub undefined: Vec<&'a [u8]>,
}
