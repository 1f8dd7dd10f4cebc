//! Symbols of an object.

ghost use Rattle.std.specs.Prelude.{IsTrue};
ghost use Rattle.rv_object_laws.specs.Valid.{is_shown, has_64_bits};

use rv_object_laws::{Binding, Definition};

/// A name of an object, or a place without a name (gABI, "Symbol Table").
#[derive(Drop)]
pub struct Symbol<'a> {
    /// The bytes of its name; none where it has no name.
    pub name: &'a [u8],
    /// Who may name it.
    pub binding: Binding,
    /// What it is.
    pub definition: Definition,
    /// A name that every object may use is one that a map can show; no other has a zero byte.
    pub ghost shown: { IsTrue (is_shown binding name.now) },
    /// A number that it is has 64 bits.
    pub ghost low: { IsTrue (has_64_bits definition) },
}
