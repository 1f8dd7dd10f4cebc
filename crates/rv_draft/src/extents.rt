//! The section of a statement.

ghost use Rattle.std.specs.Prelude.{◌<◌, length};
ghost use Rattle.rv_draft.specs.Contents.{IsExtentAt};

use rv_unit::Extent;

/// The section at a place.
#[tactic(auto, using(rv_list_laws::proofs::MapLemmas::get_map_or, rv_list_laws::proofs::MapLemmas::index_or_map))]
pub(crate) fn extent_at<'a>(extents: &[Extent<'a>], section: u32) -> Extent<'a>
    requires { section < length extents.now }
    ensures { IsExtentAt extents.now section result }
{
    extents[section as usize]
}
