//! What stands before and behind a call, among the relocations of its section in the order of their places.

ghost use Rattle.std.specs.Prelude.{◌≡◌, ◌<◌, ◌+◌, ◌^◌, ◌++◌, ◌∷◌, [], List, map, ◌==◌, count_by, true};
ghost use Rattle.std.specs.Bool.{OnTrue};
ghost use Rattle.rv_isa.specs.Kinds.{width_of};
ghost use Rattle.rv_object_laws.specs.Object.{Relocation as SaidRelocation};
ghost use Rattle.rv_object_types.specs.Parts.{relocation_of};
ghost use Rattle.rv_link_laws.specs.CallSites as laws;
ghost use Rattle.rv_link_sites.specs.Between.{IsBefore, Rise, field_end as end_of, is_allowed as allows, later as later_of, next_field as next_of};

use rv_isa::Kind;
use rv_object_types::Relocation;

/// The bytes of a call.
const CALL: u64 = 8;

/// What relocations in the order of their places have left before the next one.
#[derive(Clone, Copy, Drop)]
pub(crate) struct Before {
    /// The greatest end of their fields; 0 where there is none.
    pub(crate) end: u64,
    /// The place of the last RELAX.
    pub(crate) relaxed: Option<u64>,
}

impl Before {
    /// Nothing yet.
    pub(crate) fn nothing() -> Before
        ensures { IsBefore [] result }
    {
        Before {
            end: 0,
            relaxed: None,
        }
    }

    /// The same with one more.
    pub(crate) fn and(self, relocation: &Relocation) -> Before
        requires { 0 < width_of (relocation.now).kind
            → (relocation.now).place + width_of (relocation.now).kind < 2 ^ 64 }
        ensures { (rs : List SaidRelocation) → IsBefore rs self
            → IsBefore (rs ++ relocation_of relocation.now ∷ []) result }
    {
        Before {
            end: self.end.max(field_end(relocation)),
            relaxed: later(self.relaxed, relocation),
        }
    }
}

/// The end of a relocation's field; 0 where it has none.
fn field_end(relocation: &Relocation) -> u64
    requires { 0 < width_of (relocation.now).kind
        → (relocation.now).place + width_of (relocation.now).kind < 2 ^ 64 }
    ensures { result ≡ end_of (relocation_of relocation.now) }
{
    let width = relocation.kind.width();
    if width == 0 {
        return 0;
    }
    relocation.place + width as u64
}

/// The place of a RELAX, else the one so far.
fn later(so_far: Option<u64>, relocation: &Relocation) -> Option<u64>
    ensures { result ≡ later_of so_far (relocation_of relocation.now) }
{
    if is_relax(relocation.kind) {
        Some(relocation.place)
    } else {
        so_far
    }
}

/// Whether a relocation allows that the call at its place is shortened.
fn is_relax(kind: Kind) -> bool
    ensures { result ≡ laws.is_relax kind }
{
    matches!(kind, Kind::Relax)
}

/// The place of the first field.
fn next_field(relocations: &[Relocation]) -> Option<u64>
    ensures { result ≡ next_of (map relocation_of relocations.now) }
{
    for relocation in relocations {
        if relocation.kind.width() > 0 {
            return Some(relocation.place);
        }
    }
    None
}

/// Whether no other field meets the bytes of a call, which stands between these.
fn is_alone(before: Before, call: &Relocation, after: &[Relocation]) -> bool
    requires { laws.is_call (call.now).kind ≡ true }
    ensures { (rs : List SaidRelocation) → IsBefore rs before
        → Rise 0 (rs ++ relocation_of call.now ∷ map relocation_of after.now)
        → result ≡ (count_by (laws.meets (call.now).place)
        (rs ++ relocation_of call.now ∷ map relocation_of after.now) == 1) }
{
    if call.place < before.end {
        return false;
    }
    match next_field(after) {
        Some(next) => CALL <= next.saturating_sub(call.place),
        None => true,
    }
}

/// Whether one of relocations in the order of their places, none of which stands before a place, is a RELAX there.
fn begin_with_relax(relocations: &[Relocation], place: u64) -> bool
    ensures { Rise place (map relocation_of relocations.now)
        → result ≡ laws.has_relax place (map relocation_of relocations.now) }
{
    relocations
        .iter()
        .take_while(|relocation| relocation.place <= place)
        .any(|relocation| is_relax(relocation.kind))
}

/// Whether a RELAX stands at the place of a call, which stands between these.
fn is_relaxed(before: Before, call: &Relocation, after: &[Relocation]) -> bool
    requires { laws.is_call (call.now).kind ≡ true }
    ensures { (rs : List SaidRelocation) → IsBefore rs before
        → Rise 0 (rs ++ relocation_of call.now ∷ map relocation_of after.now)
        → result ≡ laws.has_relax (call.now).place
        (rs ++ relocation_of call.now ∷ map relocation_of after.now) }
{
    if before.relaxed == Some(call.place) {
        return true;
    }
    begin_with_relax(after, call.place)
}

/// Whether the relocations of a section allow that one, which stands between these, is shortened: it is a call, has a RELAX at
/// its place, and its field alone meets its bytes.
pub(crate) fn is_allowed(before: Before, relocation: &Relocation, after: &[Relocation]) -> bool
    ensures call { OnTrue result (laws.is_call (relocation.now).kind ≡ true) }
    ensures allows { (rs : List SaidRelocation) → IsBefore rs before
        → Rise 0 (rs ++ relocation_of relocation.now ∷ map relocation_of after.now)
        → result ≡ allows (rs ++ relocation_of relocation.now ∷ map relocation_of after.now)
        (relocation_of relocation.now) }
{
    if !relocation.is_call() {
        return false;
    }
    if !is_alone(before, relocation, after) {
        return false;
    }
    is_relaxed(before, relocation, after)
}
