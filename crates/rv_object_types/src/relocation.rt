//! Relocations.

ghost use Rattle.std.specs.Prelude.{◌≡◌};
ghost use Rattle.rv_link_laws.specs.CallSites.{is_call};

use rv_isa::Kind;

/// A field that the linker fills in (gABI, "Relocation"; psABI, "Relocations").
#[derive(Clone, Copy, Drop)]
pub struct Relocation {
    /// The offset of the field's first byte in its section: the psABI's P.
    pub place: u64,
    /// What is computed, and the field that takes it.
    pub kind: Kind,
    /// The index of the symbol in the object's symbols, whose address is the psABI's S; none means 0.
    pub symbol: Option<u32>,
    /// What is added: the psABI's A.
    pub addend: i64,
}

impl Relocation {
    /// Whether it is a call.
    pub fn is_call(&self) -> bool
        ensures { result ≡ is_call (self.now).kind }
    {
        matches!(self.kind, Kind::Call | Kind::CallPlt)
    }
}
