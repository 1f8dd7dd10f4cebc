//! Numeric labels by their numbers.

ghost use Rattle.std.specs.Prelude.{◌≡◌, ◌==◌, ◌++◌, ◌<◌, ◌^◌, ℕ, true, List, [], ◌∷◌, nat_lt, length, unwrap_or, if◌then◌else◌, OnOk};
ghost use Rattle.std.specs.List.{list_all};
ghost use Rattle.rv_expression_laws.specs.Bytes.{digits_value};
ghost use Rattle.rv_unit_laws.specs.Tables as laws;
ghost use Rattle.rv_unit.specs.Tables.{numeric_label_at, numbered_at, numeric_labels_in};

use crate::number::Number;
use crate::numeric_labels::NumericLabels;
use crate::tables::NumericLabel;
use indexmap::IndexMap;
use std::alloc::{AllocError, Global};

/// Those that there were before, if any.
fn or_none(alloc: Global, before: Option<NumericLabels>) -> NumericLabels
    ensures { result ≡ unwrap_or before [] }
{
    match before {
        Some(labels) => labels,
        None => NumericLabels::new(alloc),
    }
}

/// Adds a numeric label after those of its number.
pub(crate) fn add_numbered<'a>(
    alloc: Global,
    numbered: &mut IndexMap<Number<'a>, NumericLabels>,
    number: Number<'a>,
    label: NumericLabel,
) -> Result<(), AllocError>
    ensures each { OnOk result
        (length (numbered_at numbered.old (digits_value 10 (number.entry).digits.now)) < 2 ^ 32 →
        (digits : List ℕ) → numbered_at numbered.new (digits_value 10 digits)
        ≡ (if digits_value 10 (number.entry).digits.now == digits_value 10 digits
        then numbered_at numbered.old (digits_value 10 digits) ++ label ∷ []
        else numbered_at numbered.old (digits_value 10 digits))) }
    ensures all { OnOk result
        (length (numbered_at numbered.old (digits_value 10 (number.entry).digits.now)) < 2 ^ 32 →
        list_all (λ (m : laws.NumericLabel). nat_lt m.ordinal label.ordinal)
        (numeric_labels_in numbered.old.entries) ≡ true →
        numeric_labels_in numbered.new.entries
        ≡ numeric_label_at (digits_value 10 (number.entry).digits.now) label
        ∷ numeric_labels_in numbered.old.entries) }
{
    let mut labels = or_none(alloc, numbered.insert(number, NumericLabels::new(alloc))?);
    labels.push(label)?;
    numbered.insert(number, labels)?;
    Ok(())
}
