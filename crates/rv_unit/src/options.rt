//! What `.option` sets.

ghost use Rattle.std.specs.Prelude.{◌≡◌};
ghost use Rattle.rv_unit.specs.Options.{options_of};

/// Which options are on: `rvc`, instructions may be compressed, and `relax`, the linker may relax them.
#[derive(Clone, Copy, Drop)]
pub enum Options {
    Neither,
    Rvc,
    Relax,
    Both,
}

impl Options {
    /// The options with these settings.
    pub(crate) fn new(rvc: bool, relax: bool) -> Self
        ensures { options_of result ≡ record { rvc = rvc; relax = relax } }
    {
        match (rvc, relax) {
            (false, false) => Options::Neither,
            (true, false) => Options::Rvc,
            (false, true) => Options::Relax,
            (true, true) => Options::Both,
        }
    }

    /// Whether instructions may be compressed.
    pub fn rvc(self) -> bool
        ensures { result ≡ (options_of self).rvc }
    {
        matches!(self, Options::Rvc | Options::Both)
    }

    /// Whether the linker may relax instructions.
    pub fn relax(self) -> bool
        ensures { result ≡ (options_of self).relax }
    {
        matches!(self, Options::Relax | Options::Both)
    }
}
