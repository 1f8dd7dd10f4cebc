//! What the code of a section is shown by.

use crate::columns::Column::{Hexadecimal, Name, Text};
use crate::columns::{put, put_columns};
use crate::labels::{Label, nearest};
use std::alloc::AllocError;

/// A section or a segment, and the names around it.
#[derive(Clone, Copy, Drop)]
pub(crate) struct Scope<'a> {
    /// Its name.
    pub(crate) name: &'a [u8],
    /// The address of its first byte; 0 of an object.
    pub(crate) start: u64,
    /// The address after its last byte.
    pub(crate) end: u64,
    /// Whether its addresses are offsets, which other sections have too.
    pub(crate) is_object: bool,
    /// The names in it, by their places.
    pub(crate) own: &'a [Label<'a>],
    /// All names, by their places.
    pub(crate) all: &'a [Label<'a>],
    /// Whether addresses stand alone, as in listings: `0x10008`.
    pub(crate) is_bare: bool,
}

/// Adds an address and where that is: `10008 <f+0x8>`.
pub(crate) fn put_address(
    text: &mut Vec<u8>,
    scope: &Scope<'_>,
    address: u64,
) -> Result<(), AllocError> {
    if scope.is_bare {
        return put_columns(text, &[Text(b"0x"), Hexadecimal(address, 0)]);
    }
    put_columns(text, &[Hexadecimal(address, 0), Text(b" ")])?;
    let is_own = scope.is_object && scope.start <= address && address < scope.end;
    let labels = if is_own { scope.own } else { scope.all };
    put_place(text, scope, labels, address)
}

/// Adds where an address is, by the nearest of these names, or by the section where there is none: `<f+0x8>`.
pub(crate) fn put_place(
    text: &mut Vec<u8>,
    scope: &Scope<'_>,
    labels: &[Label<'_>],
    address: u64,
) -> Result<(), AllocError> {
    let (name, place) = match nearest(labels, address) {
        Some(label) => (label.name, label.address),
        None => (scope.name, scope.start),
    };
    put_columns(text, &[Text(b"<"), Name(name, 0)])?;
    if address == place {
        return put(text, b">");
    }
    put_columns(
        text,
        &[
            Text(if address < place { b"-0x" } else { b"+0x" }),
            Hexadecimal(address.abs_diff(place), 0),
            Text(b">"),
        ],
    )
}
