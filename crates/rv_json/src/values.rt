//! Values of JSON, and the line of one.

ghost use Rattle.std.specs.Prelude.{◌≡◌, false, IfOk, OnOk, option_map, [], ◌∷◌, ◌++◌};
ghost use Rattle.std.specs.Str.Lossy.{utf8_lossy};
ghost use Rattle.serde_json.specs.Data.{string};
ghost use Rattle.serde_json.specs.View.{view};
ghost use Rattle.serde_json.specs.Written.{compact_text, has_float};
ghost use Rattle.rv_json.specs.Values.{number_data, number_or_null_data, text_or_null_data};

use serde_json::Value;
use std::alloc::{AllocError, Global};

/// The last number that every reader of JSON keeps exact: 2^53.
const EXACT: u64 = 1 << 53;

/// A number; from 2^53 + 1 on as the text of its decimal digits.
pub fn number(alloc: Global, number: u64) -> Result<Value, AllocError>
    ensures { IfOk result (λ v. view v ≡ number_data number) }
{
    if number <= EXACT {
        return Ok(Value::from(number));
    }
    Ok(Value::from(format!(in alloc; "{number}")?))
}

/// A number, or null.
pub fn number_or_null(alloc: Global, known: Option<u64>) -> Result<Value, AllocError>
    ensures { IfOk result (λ v. view v ≡ number_or_null_data known) }
{
    match known {
        Some(known) => number(alloc, known),
        None => Ok(Value::Null),
    }
}

/// A text, or null.
pub fn text_or_null(alloc: Global, text: Option<&str>) -> Result<Value, AllocError>
    ensures { IfOk result (λ v. view v ≡ text_or_null_data (option_map (λ t. t.now) text.entry)) }
{
    match text {
        Some(text) => Value::try_from_str(alloc, text),
        None => Ok(Value::Null),
    }
}

/// A name of any bytes; those that are no UTF-8 are shown by U+FFFD.
pub fn name(alloc: Global, bytes: &[u8]) -> Result<Value, AllocError>
    ensures { IfOk result (λ v. view v ≡ string (utf8_lossy bytes.now)) }
{
    Ok(Value::from(String::from_utf8_lossy(alloc, bytes)?))
}

/// Adds the line of a value.
pub fn put_line(alloc: Global, text: &mut Vec<u8>, value: &Value) -> Result<(), AllocError>
    ensures { OnOk result (has_float (view value.now) ≡ false
        → text.new.items ≡ text.old.items ++ (compact_text (view value.now) ++ (10 ∷ []))) }
{
    text.extend_from_slice(value.to_string(alloc)?.as_bytes())?;
    text.push(b'\n')?;
    Ok(())
}
