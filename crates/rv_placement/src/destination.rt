//! The regions behind the text.

ghost use Rattle.std.specs.Prelude.{◌≡◌};
ghost use Rattle.rv_shorten.specs.Sections.{short_section_of};
ghost use Rattle.rv_placement.specs.Walk.{goes};

use rv_shorten::ShortSection;

/// A region behind the text to which sections go.
#[derive(Clone, Copy, Drop)]
pub(crate) enum Destination {
    Rodata,
    Data,
    Bss,
}

/// Whether a section goes to a region.
pub(crate) fn goes_to(destination: Destination, section: &ShortSection<'_, '_>) -> bool
    ensures { result ≡ goes destination (short_section_of section.now) }
{
    if !section.whole.loaded || section.whole.executable {
        return false;
    }
    match destination {
        Destination::Bss => section.is_nobits(),
        Destination::Data => !section.is_nobits() && section.whole.writable,
        Destination::Rodata => !section.is_nobits() && !section.whole.writable,
    }
}
