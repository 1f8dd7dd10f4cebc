//! The rows of an object.

ghost use Rattle.std.specs.Prelude.{◌≡◌, true, IfOk, map};
ghost use Rattle.std.specs.List.{AllByRecursion};
ghost use Rattle.rv_object_laws.specs.Valid.{is_counted, are_counted};
ghost use Rattle.rv_object_reader.specs.Rows.{record_of};
ghost use Rattle.rv_object_file_laws.specs.FirstFault.{is_row_of};
ghost use Rattle.rv_object_file_laws.specs.ObjectOf.{row_in as row_of};
ghost use Rattle.rv_object_file_laws.specs.Parts.{kept_at, row_records};
ghost use Rattle.rv_object_file_laws.specs.Rows.{rows_in as records_in};

use crate::checked::Checked;
use crate::row_checks::row_in;
use crate::row_record::{ROW_SIZE, RowRecord};
use rv_elf::SectionIndex;
use rv_object_types::Row;
use std::alloc::{AllocError, Global};

/// The rows of a file; none where it has no section of them.
pub(crate) fn rows(alloc: Global, checked: &Checked<'_>) -> Result<Vec<Row>, AllocError>
    ensures made { IfOk result (λ rows. rows.items
        ≡ map (row_of checked.now.view.file.now) (row_records checked.now.view.file.now)) }
    ensures counted { IfOk result (λ rows. are_counted rows.items ≡ true) }
{
    match checked.rows() {
        Some(table) => rows_in(alloc, checked, checked.view.section(table)),
        None => Ok(Vec::new(alloc)),
    }
}

/// The rows in a section of these bytes.
fn rows_in(alloc: Global, checked: &Checked<'_>, bytes: &[u8]) -> Result<Vec<Row>, AllocError>
    requires { AllByRecursion
        (λ r. is_row_of r (kept_at checked.now.view.file.now r.r_section) ≡ true)
        (records_in bytes.now) }
    ensures made { IfOk result
        (λ rows. rows.items ≡ map (row_of checked.now.view.file.now) (records_in bytes.now)) }
    ensures counted { IfOk result (λ rows. are_counted rows.items ≡ true) }
{
    let mut rows = Vec::with_capacity(alloc, bytes.len() / ROW_SIZE)?;
    for index in 0..bytes.len() / ROW_SIZE {
        rows.push(row(checked, row_in(bytes, index)))?;
    }
    Ok(rows)
}

/// The row of a record, whose section is one that an object keeps.
fn row(checked: &Checked<'_>, entry: RowRecord) -> Row
    requires { is_row_of (record_of entry)
        (kept_at checked.now.view.file.now entry.r_section) ≡ true }
    ensures made { result ≡ row_of checked.now.view.file.now (record_of entry) }
    ensures counted { is_counted result ≡ true }
{
    let place = checked
        .place(SectionIndex(entry.r_section as u16))
        .unwrap_or(0);
    Row {
        line: entry.r_line,
        ordinal: entry.r_ordinal,
        section: u32::from(place),
        offset: entry.r_offset,
        bytes: entry.r_bytes,
        instructions: entry.r_instructions,
    }
}
