//! What a caller wants of a build or a link, as bits of a number.

ghost use Rattle.std.specs.Prelude.{◌≡◌};
ghost use Rattle.rv_library.specs.Options.{are_known, collects, has_map, relaxes};

use rv_link::LinkOptions;

/// Whether each bit that is set means something.
pub(crate) fn are_known(flags: u32) -> bool
    ensures { result ≡ are_known flags }
{
    flags < 8
}

/// Whether a map is wanted.
pub(crate) fn has_map(flags: u32) -> bool
    ensures { result ≡ has_map flags }
{
    flags / 4 % 2 == 1
}

/// How to link.
pub(crate) fn options_of(text_start: u64, flags: u32) -> LinkOptions
    ensures start { result.text_start ≡ text_start }
    ensures relax { result.relax ≡ relaxes flags }
    ensures gc { result.gc ≡ collects flags }
{
    LinkOptions {
        text_start,
        relax: flags % 2 == 0,
        gc: flags / 2 % 2 == 1,
    }
}
