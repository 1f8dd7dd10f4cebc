//! Relocations of a section of which calls are cut short.

ghost use Rattle.std.specs.Prelude.{◌≡◌, true, map};
ghost use Rattle.rv_object_types.specs.Parts.{relocation_of};
ghost use Rattle.rv_shorten.specs.Cut.{are_in_order, move_of};
ghost use Rattle.rv_cut_laws.specs.Cutting.{cut_kind, cut_relocation};

use crate::cut::Cut;
use crate::offsets::new_offset;
use crate::pieces::count_before;
use rv_isa::Kind;
use rv_object_types::Relocation;

/// The kind of a relocation afterwards.
fn new_kind(cuts: &[Cut], relocation: &Relocation) -> Kind
    requires { are_in_order 0 0 cuts.now ≡ true }
    ensures { result ≡ cut_kind (map move_of cuts.now) (relocation_of relocation.now) }
{
    if !relocation.is_call() {
        return relocation.kind;
    }
    let index = count_before(cuts, relocation.place);
    if index == cuts.len() || cuts[index].place != relocation.place {
        return relocation.kind;
    }
    if cuts[index].left == 2 {
        Kind::RvcJump
    } else {
        Kind::Jal
    }
}

/// What a relocation is afterwards.
pub(crate) fn moved(relocation: &Relocation, cuts: &[Cut]) -> Relocation
    requires { are_in_order 0 0 cuts.now ≡ true }
    ensures { relocation_of result
        ≡ cut_relocation (map move_of cuts.now) (relocation_of relocation.now) }
{
    Relocation {
        place: new_offset(cuts, relocation.place),
        kind: new_kind(cuts, relocation),
        symbol: relocation.symbol,
        addend: relocation.addend,
    }
}
