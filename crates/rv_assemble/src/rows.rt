//! The rows of an object.
//!
//! A source may have 4 million statements, so that items and rows are not both kept whole.

ghost use Rattle.std.specs.Prelude.{◌≡◌, ◌++◌, ◌^◌, ◌<◌, true, IfOk, OnOk, length};
ghost use Rattle.rv_object_laws.specs.Valid.{is_counted, are_counted};
ghost use Rattle.rv_assemble.specs.Making.{item_row, item_rows, rows_from};

use rv_object_types::Row;
use rv_unit::{Item, give_back};
use std::alloc::{AllocError, Global};

/// The rows of statements: of each that is shown, with its ordinal, from 1. The items go as their
/// rows come, from the back, where a vector gives memory back.
pub(crate) fn rows(alloc: Global, mut items: Vec<Item>) -> Result<Vec<Row>, AllocError>
    requires { length items.items < 2 ^ 32 }
    ensures made { IfOk result (λ rows. rows.items ≡ rows_from 1 items.items) }
    ensures counted { IfOk result (λ rows. are_counted rows.items ≡ true) }
{
    let mut rows = Vec::with_capacity(alloc, items.len())?;
    while let Some(item) = items.pop() {
        put_row(&mut rows, items.len() as u32 + 1, item)?;
        give_back(&mut items);
    }
    rows.reverse();
    Ok(rows)
}

/// Adds the row of a statement, if it has one.
fn put_row(rows: &mut Vec<Row>, ordinal: u32, item: Item) -> Result<(), AllocError>
    ensures made { OnOk result (rows.new.items ≡ rows.old.items ++ item_rows ordinal item) }
    ensures counted { OnOk result
        (are_counted rows.old.items ≡ true → are_counted rows.new.items ≡ true) }
{
    if !item.shown {
        return Ok(());
    }
    rows.push(row(ordinal, item))?;
    Ok(())
}

/// The row of a statement.
fn row(ordinal: u32, item: Item) -> Row
    ensures made { result ≡ item_row ordinal item }
    ensures counted { is_counted result ≡ true }
{
    Row {
        line: item.line,
        ordinal,
        section: item.section,
        offset: u64::from(item.offset),
        bytes: item.bytes,
        instructions: u32::from(item.instructions),
    }
}
