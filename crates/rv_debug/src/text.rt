//! Executables with debug information by the text of their map.

ghost use Rattle.std.specs.Prelude.{ℕ, IfOk, IfErr};
ghost use Rattle.rv_map_laws.specs.Map.{Map as PlainMap};
ghost use Rattle.rv_debug_laws.specs.DebugFile.{HasDebug};
ghost use Rattle.rv_debug_laws.specs.Labels.{link_names};
ghost use Rattle.rv_table_names.specs.Tables.{table_names as names_of_tables};
ghost use Rattle.rv_debug.specs.Refused.{IsTextOf, IsTextRefused};
ghost use Rattle.rv_debug.specs.Views.{plain_objects, plain_tables};

use crate::fault::DebugFault;
use crate::writing::with_debug;
use rv_debug_laws::SourceFile;
use rv_labels::{Described, names_of};
use rv_map::read;
use rv_table_names::{Tabled, table_names};
use std::alloc::Global;

/// The file of an executable with debug information, as [`with_debug`] gives it, by the text of its map and with the names
/// of the objects that were linked.
pub fn debug_file(
    alloc: Global,
    exe: &[u8],
    map: &[u8],
    objects: &[Described<'_>],
    directory: &[u8],
    sources: &[SourceFile<'_>],
) -> Result<Vec<u8>, DebugFault>
    ensures found { IfOk result (λ file. (m : PlainMap) × IsTextOf map.now m
        × HasDebug exe.now m (link_names m.rows m.globals (plain_objects objects.now)) directory.now
        sources.now file.items) }
    ensures refuses { IfErr result
        (IsTextRefused exe.now map.now
        (λ m. link_names m.rows m.globals (plain_objects objects.now)) directory.now sources.now) }
{
    let Some(map) = read(alloc, map)? else {
        return Err(DebugFault::NoMap);
    };
    let names = names_of(alloc, map.rows.as_slice(), map.globals.as_slice(), objects)?;
    with_debug(alloc, exe, &map, &names, directory, sources)
}

/// The file of an executable with debug information, as [`with_debug`] gives it, by the text of its map and with the names
/// that the symbol tables of the linked objects have.
pub fn debug_file_of_tables(
    alloc: Global,
    exe: &[u8],
    map: &[u8],
    objects: &[Tabled<'_, '_>],
    directory: &[u8],
    sources: &[SourceFile<'_>],
) -> Result<Vec<u8>, DebugFault>
    ensures found { IfOk result (λ file. (m : PlainMap) × IsTextOf map.now m
        × HasDebug exe.now m (names_of_tables (plain_tables objects.now) m.globals) directory.now
        sources.now file.items) }
    ensures refuses { IfErr result (IsTextRefused exe.now map.now
        (λ m. names_of_tables (plain_tables objects.now) m.globals) directory.now sources.now) }
{
    let Some(map) = read(alloc, map)? else {
        return Err(DebugFault::NoMap);
    };
    let names = table_names(alloc, objects, map.globals.as_slice())?;
    with_debug(alloc, exe, &map, &names, directory, sources)
}
