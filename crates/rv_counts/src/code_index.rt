//! An index for each address of a program's code.

use rv_image::Image;
use std::alloc::{AllocError, Global};

/// A piece of code, and the indices of its addresses.
#[derive(Drop)]
struct Span {
    start: u64,
    /// For each two bytes an index and one more; 0 where there is none.
    numbers: Vec<u32>,
}

/// Indices below 2^32 - 1 of the addresses of an image's code. Those of other addresses are not kept.
#[derive(Drop)]
pub struct CodeIndex {
    spans: Vec<Span>,
}

impl CodeIndex {
    /// No index for any address of an image's code.
    pub fn new(alloc: Global, image: &Image) -> Result<Self, AllocError> {
        let mut spans = Vec::new(alloc);
        for segment in &image.segments {
            if segment.flags % 2 == 1 {
                let numbers = vec![in alloc; 0u32; segment.bytes.len() / 2 + 1]?;
                spans.push(Span {
                    start: segment.address,
                    numbers,
                })?;
            }
        }
        Ok(CodeIndex { spans })
    }

    /// The index of an address, if one is kept.
    #[inline]
    pub fn get(&self, address: u64) -> Option<usize> {
        for span in self.spans.iter() {
            if let Some(number) = number_in(span, address) {
                return (number as usize).checked_sub(1);
            }
        }
        None
    }

    /// Keeps the index of an address.
    #[inline(never)]
    pub fn set(&mut self, address: u64, index: usize) {
        let Ok(before) = u32::try_from(index) else {
            return;
        };
        let Some(number) = before.checked_add(1) else {
            return;
        };
        for span in self.spans.iter_mut() {
            if let Ok(place) = usize::try_from(address.wrapping_sub(span.start) / 2) {
                if let Some(kept) = span.numbers.get_mut(place) {
                    *kept = number;
                }
            }
        }
    }
}

/// The number that is kept for an address; none where the span has not the address.
#[inline]
fn number_in(span: &Span, address: u64) -> Option<u32> {
    let place = usize::try_from(address.wrapping_sub(span.start) / 2).ok()?;
    span.numbers.get(place).copied()
}
