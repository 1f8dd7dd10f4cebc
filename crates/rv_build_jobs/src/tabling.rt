//! The symbol tables of objects that were linked, and where the link put their symbols.

use crate::carrying::{all_addresses, extents_of, has_any_carried_sections};
use rv_chain::GroundOptions;
use rv_debug::{Object, SymbolRecord, Tabled, symbol_sizes};
use rv_debug_sections::symbol_records;
use rv_link::SymbolExtent;
use rv_system::JobError;
use std::alloc::{AllocError, Global};

/// What files of objects have of their symbols, and where a link puts these: both by object and symbol.
#[derive(Drop)]
pub(crate) struct SymbolTables {
    records: Vec<Vec<SymbolRecord>>,
    extents: Vec<Vec<Option<SymbolExtent>>>,
}

impl SymbolTables {
    /// Those of objects whose files have these names.
    pub(crate) fn of(
        alloc: Global,
        names: &[&str],
        files: &[&[u8]],
        objects: &[Object<'_>],
        options: GroundOptions,
    ) -> Result<Self, JobError> {
        let mut records: Vec<Vec<SymbolRecord>> = Vec::new(alloc);
        let mut sizes: Vec<Vec<u64>> = Vec::new(alloc);
        for file in files {
            let of_file = symbol_records(alloc, file)?;
            sizes.push(symbol_sizes(alloc, of_file.as_slice())?)?;
            records.push(of_file)?;
        }
        let extents = extents_of(alloc, names, objects, sizes.as_slice(), options)?;
        Ok(SymbolTables { records, extents })
    }

    /// The objects, with these.
    pub(crate) fn with<'t, 'f>(
        &'t self,
        alloc: Global,
        objects: &'t [Object<'f>],
    ) -> Result<Vec<Tabled<'t, 'f>>, AllocError> {
        let mut tabled: Vec<Tabled<'t, 'f>> = Vec::new(alloc);
        let tables = self.records.iter().zip(self.extents.iter());
        for (object, (records, extents)) in objects.iter().zip(tables) {
            tabled.push(Tabled {
                symbols: object.symbols.as_slice(),
                records: records.as_slice(),
                extents: extents.as_slice(),
            })?;
        }
        Ok(tabled)
    }

    /// The addresses of the symbols of these files; none where no file has a section that stands behind the executable.
    pub(crate) fn addresses(
        &self,
        alloc: Global,
        files: &[&[u8]],
    ) -> Result<Vec<Vec<Option<u64>>>, AllocError> {
        if !has_any_carried_sections(files) {
            return Ok(Vec::new(alloc));
        }
        all_addresses(alloc, self.extents.as_slice())
    }
}
