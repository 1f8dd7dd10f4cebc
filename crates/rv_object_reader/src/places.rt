//! What relocations hold of a section of code.

ghost use Rattle.std.specs.Prelude.{◌≡◌, ◌<◌, ◌≤◌, ◌+◌, true, false, not, [], ◌∷◌, ◌++◌, List, IfOk, MatchBool};
ghost use Rattle.std.specs.List.{list_any};
ghost use Rattle.rv_object_laws.specs.Object.{Relocation};
ghost use Rattle.rv_object_laws.specs.Valid.{held, is_align, are_apart};
ghost use Rattle.rv_object_reader.specs.Held.{fields_of};
ghost use Rattle.rv_object_reader.specs.Stretches.{AreHeld, placed};

use crate::fields::Fields;
use crate::paddings::Paddings;
use crate::recent::Recent;
use rv_elf_laws::Rela;
use rv_isa::Kind;
use std::alloc::{AllocError, Global};

/// The bytes that the relocations so far hold of one section of code.
#[derive(Drop)]
pub(crate) struct Places {
    pub(crate) paddings: Paddings,
    /// The fields among which a padding was looked for.
    pub(crate) fields: Fields,
    /// The others.
    pub(crate) recent: Recent,
}

impl Places {
    /// Those of no relocation.
    pub(crate) fn new(alloc: Global) -> Places
        ensures { AreHeld result.paddings.by_end.entries (fields_of result) [] }
    {
        Places {
            paddings: Paddings::new(alloc),
            fields: Fields::new(alloc),
            recent: Recent::new(alloc),
        }
    }

    /// Adds a relocation of a section of so many bytes if it meets none of those before it, and answers whether so.
    pub(crate) fn put(&mut self, rela: &Rela, kind: Kind, size: u64) -> Result<bool, AllocError>
        requires inside { 0 < held (placed rela.now kind)
            → rela.now.r_offset + held (placed rela.now kind) ≤ size }
        ensures { IfOk result (λ apart. (before : List Relocation)
            → AreHeld self.old.paddings.by_end.entries (fields_of self.old) before
            → MatchBool apart
            ((list_any (λ q. not (are_apart q (placed rela.now kind))) before ≡ false)
            × AreHeld self.new.paddings.by_end.entries (fields_of self.new)
            (before ++ placed rela.now kind ∷ []))
            (list_any (λ q. not (are_apart q (placed rela.now kind))) before ≡ true)) }
    {
        let count = count_held(rela, kind);
        if count == 0 {
            return Ok(true);
        }
        let start = rela.r_offset;
        let end = start + count;
        if self.paddings.meet(start, end) {
            return Ok(false);
        }
        if !is_align(kind) {
            self.recent.put(start, end)?;
            return Ok(true);
        }
        let met = self.recent.meet(&mut self.fields, start, end)?;
        if met {
            return Ok(false);
        }
        self.paddings.put(start, end)?;
        Ok(true)
    }
}

/// The bytes that a relocation holds from its place on: those of a padding or a field.
fn count_held(rela: &Rela, kind: Kind) -> u64
    ensures { result ≡ held (placed rela.now kind) }
{
    if is_align(kind) {
        u64::try_from(rela.r_addend).unwrap_or(0)
    } else {
        kind.width() as u64
    }
}

/// Whether it is an alignment, which has a padding.
pub(crate) fn is_align(kind: Kind) -> bool
    ensures { result ≡ is_align kind }
{
    kind == Kind::Align
}
