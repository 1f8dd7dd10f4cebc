//! The first fault of a file.

ghost use Rattle.std.specs.Prelude.{◌≡◌, ◌⊎◌, ◌<◌, None, Some, MatchResult, IfOk, OnOk};
ghost use Rattle.rv_elf_laws.specs.FirstFault.{Finds};
ghost use Rattle.rv_elf_laws.specs.Sections.{names_section, section_count};
ghost use Rattle.rv_fault.specs.declared.file_fault.FileFault.TheVariants.{OutOfMemory};
ghost use Rattle.rv_object_file_laws.specs.FirstFault.{first_fault};
ghost use Rattle.rv_object_reader.specs.Opening.{opening_tests};

use crate::checked::Checked;
use crate::names::Names;
use crate::tables::Tables;
use crate::walk::check_sections;
use rv_elf::{ET_REL, ElfView, file_type};
use rv_fault::FileFault;
use std::alloc::Global;

/// Looks for the first fault of a file; one without is an object.
pub(crate) fn check<'a>(alloc: Global, file: &'a [u8]) -> Result<Checked<'a>, FileFault>
    ensures { MatchResult result
        (λ checked. (first_fault file.now ≡ None) × (checked.view.file.now ≡ file.now))
        (λ fault. (fault ≡ OutOfMemory) ⊎ (first_fault file.now ≡ Some fault)) }
{
    let view = open(file)?;
    let tables = Tables::of(alloc, Names::of(view))?;
    check_sections(alloc, &tables)?;
    Ok(checked(tables))
}

/// A view of a file whose header, type and tables have no fault, or the first of their faults.
fn open<'a>(file: &'a [u8]) -> Result<ElfView<'a>, FileFault>
    ensures faults { Finds (opening_tests file.now) result }
    ensures file { IfOk result (λ view. view.file.now ≡ file.now) }
    ensures named { OnOk result (0 < names_section file.now
        → names_section file.now < section_count file.now) }
{
    if file_type(file)? != ET_REL {
        return Err(FileFault::NotObject);
    }
    let view = ElfView::open(file)?;
    Ok(view)
}

/// A file without a fault, with what was looked up in it.
fn checked<'a>(tables: Tables<'a>) -> Checked<'a>
    requires { first_fault tables.names.view.file.now ≡ None }
    ensures { result.view.file.now ≡ tables.entry.names.view.file.now }
{
    Checked {
        view: tables.names.view,
        places: tables.places,
        symbols: tables.symbols,
        rows: tables.rows,
    }
}
