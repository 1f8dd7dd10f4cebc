//! The relocations of each section.

ghost use Rattle.std.specs.Prelude.{◌≡◌, ◌<◌, ℕ, [], IfOk, length, map};
ghost use Rattle.std.specs.List.{AllByRecursion};
ghost use Rattle.rv_draft.specs.Draft.{field_of};
ghost use Rattle.rv_assemble.specs.Making.{relocations_in};
ghost use Rattle.rv_assemble.specs.Lists.{list_in, GainsOne};

use rv_draft::OpenField;
use rv_object_types::Relocation;
use std::alloc::{AllocError, Global};

/// The relocations of `count` sections: of each field, which stands in one of them, with the index
/// of its symbol, if it has one.
pub(crate) fn relocations(
    alloc: Global,
    count: usize,
    fields: &[OpenField<'_>],
    numbers: &[Option<u32>],
) -> Result<Vec<Vec<Relocation>>, AllocError>
    requires each { length numbers.now ≡ length fields.now }
    requires inside { AllByRecursion (λ f. f.section < count) fields.now }
    ensures count { IfOk result (λ lists. length lists.items ≡ count) }
    ensures lists { IfOk result (λ lists. (j : ℕ) →
        list_in lists.items j ≡ relocations_in j (map field_of fields.now) numbers.now) }
{
    let mut lists = empty_lists(alloc, count)?;
    for index in 0..fields.len() {
        put_relocation(&mut lists, &fields[index], numbers[index])?;
    }
    Ok(lists)
}

/// `count` lists without a relocation.
#[tactic(auto, using(crate::proofs::ListsSoFarLemmas::empty_behind))]
fn empty_lists(alloc: Global, count: usize) -> Result<Vec<Vec<Relocation>>, AllocError>
    ensures count { IfOk result (λ lists. length lists.items ≡ count) }
    ensures empty { IfOk result (λ lists. (j : ℕ) → list_in lists.items j ≡ []) }
{
    let mut lists = Vec::new(alloc);
    for _ in 0..count {
        lists.push(Vec::new(alloc))?;
    }
    Ok(lists)
}

/// Adds the relocation of a field with the index of its symbol to those of its section.
fn put_relocation(
    lists: &mut Vec<Vec<Relocation>>,
    field: &OpenField<'_>,
    number: Option<u32>,
) -> Result<(), AllocError>
    requires { (field.now).section < length lists.old.items }
    ensures { IfOk result
        (λ _. GainsOne lists.old.items lists.new.items (field_of field.now) number) }
{
    lists[field.section as usize].push(Relocation {
        place: u64::from(field.place),
        kind: field.kind,
        symbol: number,
        addend: field.addend,
    })?;
    Ok(())
}
