//! Objects of JSON, put together of their members.
//!
//! A function that owns an object of JSON drops it at each way out, and each want of memory is one. So members are added to
//! an object that is lent, and they are a list, which one function adds.

use rv_json::{name, number, number_or_null};
use serde_json::{Map, Value, put};
use std::alloc::{AllocError, Global};

/// What a member holds.
#[derive(Clone, Copy, Drop)]
pub(crate) enum Held<'a> {
    Null,
    Number(u64),
    /// A number, or null where it is not known.
    NumberOrNull(Option<u64>),
    Text(&'a str),
    Name(&'a [u8]),
}

/// Adds members by their names.
pub(crate) fn put_members(
    alloc: Global,
    object: &mut Map<String, Value>,
    members: &[(&str, Held<'_>)],
) -> Result<(), AllocError> {
    for (name, held) in members {
        put(object, alloc, name, value_of(alloc, *held)?)?;
    }
    Ok(())
}

/// The value of a member.
fn value_of(alloc: Global, held: Held<'_>) -> Result<Value, AllocError> {
    match held {
        Held::Null => Ok(Value::Null),
        Held::Number(count) => number(alloc, count),
        Held::NumberOrNull(count) => number_or_null(alloc, count),
        Held::Text(text) => Value::try_from_str(alloc, text),
        Held::Name(bytes) => name(alloc, bytes),
    }
}
