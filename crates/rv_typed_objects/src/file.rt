//! Files whose symbols have types and sizes.

ghost use Rattle.std.specs.Prelude.{◌≡◌, ◌+◌, ◌*◌, ◌⊎◌, ◌++◌, List, Some, drop, flat_map, length, map, option_map, take, IfOk, IfErr, OnOk};
ghost use Rattle.rv_elf_laws.specs.Fields.{symbol_size};
ghost use Rattle.rv_elf_laws.specs.FirstFault.{first_true, open_tests};
ghost use Rattle.rv_elf_laws.specs.Records.{symbol_bytes};
ghost use Rattle.rv_fault.specs.declared.file_fault.FileFault.TheVariants.{OutOfMemory};
ghost use Rattle.rv_object_types.specs.View.{object_of};
ghost use Rattle.rv_object_file_laws.specs.Parts.{is_symbol_table};
ghost use Rattle.rv_debug_laws.specs.Carried.{carried_section};
ghost use Rattle.rv_debug_laws.specs.Labels.{Mark as SaidMark};
ghost use Rattle.rv_labels.specs.Indices.{AreSaid};
ghost use Rattle.rv_labels.specs.Known.{mark_of};
ghost use Rattle.rv_debug_sections.specs.Records.{symbol_records as records_of};
ghost use Rattle.rv_typed_objects.specs.Typed as laws;

use crate::record::typed_record;
use rv_debug_sections::{symbol_records, symbol_section};
use rv_elf::{ElfView, ElfWriter, SYMBOL_SIZE, SectionIndex, Symbol as SymbolRecord};
use rv_fault::FileFault;
use rv_labels::{Mark, NameSaid, said_names};
use rv_object_types::Object;
use std::alloc::{AllocError, Global};
use std::collections::BTreeMap;

/// The file of an object whose symbols have the types and the sizes that these directives say.
///
/// # Errors
///
/// The first fault of its header and tables, and want of memory.
pub fn typed(
    alloc: Global,
    file: &[u8],
    object: &Object<'_>,
    marks: &[Mark<'_>],
) -> Result<Vec<u8>, FileFault>
    ensures bytes { IfOk result (λ bytes.
        bytes.items ≡ laws.typed (object_of object.now) (map mark_of marks.now) file.now) }
    ensures refuses { IfErr result
        (λ fault. (fault ≡ OutOfMemory) ⊎ (first_true (open_tests file.now) ≡ Some fault)) }
{
    let view = ElfView::open(file)?;
    let said = said_names(alloc, marks)?;
    let records = symbol_records(alloc, file)?;
    let bytes = typed_view(alloc, view, object, &said, records.as_slice())?;
    Ok(bytes)
}

/// The file of a view, with these symbols of an object.
fn typed_view(
    alloc: Global,
    view: ElfView<'_>,
    object: &Object<'_>,
    said: &BTreeMap<&[u8], NameSaid>,
    records: &[SymbolRecord],
) -> Result<Vec<u8>, AllocError>
    requires { records.now ≡ records_of view.file.now }
    ensures { IfOk result (λ bytes. (marks : List SaidMark) → AreSaid said.now marks
        → bytes.items ≡ laws.typed (object_of object.now) marks view.entry.file.now) }
{
    let file = view.file();
    let Some(place) = place_of(&view) else {
        let copy = Vec::from_slice(alloc, file)?;
        return Ok(copy);
    };
    let mut out = ElfWriter::new(alloc);
    out.raw(front(file, place))?;
    put_records(&mut out, object, said, records)?;
    out.raw(behind(file, place, records.len()))?;
    Ok(out.finish())
}

/// Where the symbols of a file stand, all but symbol 0; none of a file without symbols.
fn place_of(view: &ElfView<'_>) -> Option<u64>
    ensures { result ≡ option_map (laws.table_place view.now.file.now)
        (carried_section is_symbol_table view.now.file.now) }
{
    match symbol_section(view) {
        Some(index) => {
            let header = view.section_header(SectionIndex(index));
            let table = header.sh_offset.min(view.file().len() as u64);
            Some(table + SYMBOL_SIZE as u64)
        }
        None => None,
    }
}

/// Adds symbols of an object with these records.
fn put_records(
    out: &mut ElfWriter,
    object: &Object<'_>,
    said: &BTreeMap<&[u8], NameSaid>,
    records: &[SymbolRecord],
) -> Result<(), AllocError>
    ensures { OnOk result ((marks : List SaidMark) → AreSaid said.now marks
        → out.new ≡ out.old ++ flat_map symbol_bytes
        (laws.typed_records (object_of object.now) marks 0 records.now)) }
{
    for index in 0..records.len() {
        out.symbol(&typed_record(object, said, index, &records[index]))?;
    }
    Ok(())
}

/// The bytes before a place.
fn front(file: &[u8], place: u64) -> &[u8]
    ensures { result.now ≡ take place file.now }
{
    file.get(..place as usize).unwrap_or(file)
}

/// The bytes behind so many symbols at a place.
fn behind(file: &[u8], place: u64, count: usize) -> &[u8]
    ensures { result.now ≡ drop (place + symbol_size * count) file.now }
{
    let Some(size) = SYMBOL_SIZE.checked_mul(count) else {
        return &[];
    };
    let Some(end) = (place as usize).checked_add(size) else {
        return &[];
    };
    file.get(end..).unwrap_or(&[])
}
