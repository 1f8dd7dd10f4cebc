//! Parts of a text of which not all is kept.
//!
//! What is cut out of calls and what is dropped of paddings are tables of such rows, looked up in one way. What a table
//! tells besides is a type of its own, so that a row of paddings has no room for the register of a call.

ghost use Rattle.std.specs.Prelude.{◌≡◌, ◌+◌, ◌-◌, ◌^◌, ◌<◌, ◌≤◌, min, nat_le};

/// A call or a padding, and what is kept of it. Offsets are those of a section, or count the bytes of
/// sections end to end.
#[derive(Drop)]
pub struct Piece<T> {
    /// The offset of its first byte.
    pub place: u64,
    /// The bytes that are dropped before it.
    pub gone: u64,
    /// Its bytes.
    pub full: u32,
    /// The bytes that are left of it.
    pub left: u32,
    /// What else is told of it.
    pub detail: T,
}

impl<T> Piece<T> {
    /// The offset of the byte after it.
    pub fn end(&self) -> u64
        requires { (self.now).place + (self.now).full < 2 ^ 64 }
        ensures { result ≡ (self.now).place + (self.now).full }
    {
        self.place + u64::from(self.full)
    }

    /// Whether it ends at an offset or before it.
    pub fn ends_by(&self, offset: u64) -> bool
        ensures { result ≡ nat_le ((self.now).place + (self.now).full) offset }
    {
        self.place <= offset && u64::from(self.full) <= offset - self.place
    }

    /// The bytes of it and of those before it that are dropped before an offset.
    pub fn all_dropped_before(&self, offset: u64) -> u64
        requires { (self.now).gone ≤ (self.now).place }
        ensures { result
            ≡ (self.now).gone
            + min ((self.now).full - (self.now).left)
            (offset - ((self.now).place + (self.now).left)) }
    {
        let dropped = self.full.saturating_sub(self.left);
        let behind = offset.saturating_sub(self.place);
        self.gone + u64::from(dropped).min(behind.saturating_sub(u64::from(self.left)))
    }
}
