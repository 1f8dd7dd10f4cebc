//! What the directives of a source say of its names.

ghost use Rattle.std.specs.Prelude.{◌≡◌, ◌++◌, [], ◌∷◌, List, map, IfOk, OnOk};
ghost use Rattle.rv_debug_laws.specs.Labels as laws;
ghost use Rattle.rv_labels.specs.Indices.{AreSaid};
ghost use Rattle.rv_labels.specs.Known.{mark_of};

use rv_debug_laws::{Mark, NameSaid, Said, SaidSize, SymbolType};
use std::alloc::{AllocError, Global};
use std::collections::BTreeMap;

/// By name what directives say of it.
pub fn said_names<'m>(
    alloc: Global,
    marks: &[Mark<'m>],
) -> Result<BTreeMap<&'m [u8], NameSaid>, AllocError>
    ensures { IfOk result (λ said. AreSaid said (map mark_of marks.now)) }
{
    let mut said = BTreeMap::new(alloc);
    for mark in marks {
        put_mark(&mut said, mark)?;
    }
    Ok(said)
}

/// Adds what the next directive says.
fn put_mark<'m>(said: &mut BTreeMap<&'m [u8], NameSaid>, mark: &Mark<'m>) -> Result<(), AllocError>
    ensures { OnOk result ((marks : List laws.Mark) → AreSaid said.old marks
        → AreSaid said.new (marks ++ mark_of mark.now ∷ [])) }
{
    let before = said_of(said, mark.name);
    said.insert(mark.name, said_behind(before, mark.said))?;
    Ok(())
}

/// What is said of a name.
pub fn said_of(said: &BTreeMap<&[u8], NameSaid>, name: &[u8]) -> NameSaid
    ensures { (marks : List laws.Mark) → AreSaid said.now marks
        → result ≡ laws.said_of marks name.now }
{
    said.get(name).copied().unwrap_or(nothing_said())
}

fn nothing_said() -> NameSaid
    ensures { result ≡ laws.nothing_said }
{
    NameSaid {
        kind: SymbolType::NoType,
        size: SaidSize::NoSize,
    }
}

/// What is said behind one more directive.
fn said_behind(before: NameSaid, said: Said) -> NameSaid
    ensures { result ≡ laws.said_behind before said }
{
    match said {
        Said::Typed(kind) => NameSaid {
            kind,
            size: before.size,
        },
        Said::Sized(size) => NameSaid {
            kind: before.kind,
            size,
        },
    }
}
