//! What holds of maps and their texts.

ghost use Rattle.std.specs.Prelude.{◌≡◌, IfOk, Some, option_map};
ghost use Rattle.rv_map_laws.specs.Map.{Map as PlainMap};
ghost use Rattle.rv_map.specs.Views.{map_of};
ghost use Rattle.rv_map_laws.specs.Limits.{IsMap};
ghost use Rattle.rv_map_laws.specs.Text.{map_text};

use crate::map::Map;
use crate::reading::read;
use crate::writing::write;
use std::alloc::{AllocError, Global as Allocator};

/// Two maps have different texts: maps of one text are the same.
#[tactic(auto, using(crate::proofs::WholeLemmas::one_text))]
pub fn one_map()
    ensures { (m n : PlainMap) → IsMap m → IsMap n → map_text m ≡ map_text n → m ≡ n }
{}

/// The map of a map's own text: it is written, and read again. Nothing but want of memory stands
/// against it.
pub fn reread(alloc: Allocator, map: &Map) -> Result<Option<Map>, AllocError>
    ensures { IfOk result (λ read. option_map map_of read ≡ Some (map_of map.now)) }
{
    let text = write(alloc, map)?;
    read(alloc, &text)
}
