//! Objects with the symbol tables of their files.

ghost use Rattle.std.specs.Prelude.{◌≡◌};
ghost use Rattle.rv_table_names.specs.Tables as laws;

use crate::types::type_numbered;
use rv_addresses::SymbolExtent;
use rv_elf_laws::Symbol as SymbolRecord;
use rv_labels::SymbolType;
use rv_object_types::Symbol;

/// An object that was linked, by its symbols in their order.
#[derive(Clone, Copy, Drop)]
pub struct Tabled<'o, 'f> {
    /// The symbols.
    pub symbols: &'o [Symbol<'f>],
    /// What its file has of each: all records of its table but the first.
    pub records: &'o [SymbolRecord],
    /// Where the link put each; none of one without an address.
    pub extents: &'o [Option<SymbolExtent>],
}

/// The type that the record at an index says; none of one that is no name's.
pub(crate) fn type_at(records: &[SymbolRecord], index: usize) -> Option<SymbolType>
    ensures { result ≡ laws.type_at records.now index }
{
    match records.get(index) {
        Some(record) => type_numbered(record.st_info % 16),
        None => None,
    }
}

/// Where the link put the symbol at an index.
pub(crate) fn extent_at(extents: &[Option<SymbolExtent>], index: usize) -> Option<SymbolExtent>
    ensures { result ≡ laws.extent_at extents.now index }
{
    match extents.get(index) {
        Some(extent) => *extent,
        None => None,
    }
}
