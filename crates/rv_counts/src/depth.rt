//! How deep the stack of a run went.
//!
//! A program may have its stack among its variables, and not where the platform puts it. Its depth there is that below
//! the highest `sp`: where such a stack begins, nothing else tells.

ghost use Rattle.std.specs.Prelude.{◌≡◌, ◌-◌, [], min as lower_of, max as higher_of};
ghost use Rattle.rv_isa_laws.specs.Platform.{stack_end};
ghost use Rattle.rv_counts.specs.Depth.{HasDepth, with_sp};

use rv_image::{Image, STACK_BYTES, STACK_START};

/// The address after the stack.
const STACK_END: u64 = 0x4000_0000;

const _: () = prove!(STACK_START + STACK_BYTES as u64 == STACK_END);

/// The values that `sp` had.
#[derive(Clone, Copy, Drop)]
pub(crate) struct Depth {
    /// The lowest one in the stack of the platform.
    lowest: u64,
    /// The first address of the program's variables, and the one after the last.
    first: u64,
    last: u64,
    /// The lowest and the highest one among the variables, the lowest above the highest where there is none.
    lowest_own: u64,
    highest_own: u64,
}

#[inline]
fn lower(a: u64, b: u64) -> u64
    ensures { result ≡ lower_of a b }
{
    if b < a { b } else { a }
}

#[inline]
fn higher(a: u64, b: u64) -> u64
    ensures { result ≡ higher_of a b }
{
    if a < b { b } else { a }
}

impl Depth {
    /// That of a run of an image that has not begun.
    pub(crate) fn of(image: &Image) -> Self
        ensures { HasDepth result [] }
    {
        let (first, last) = variables_of(image);
        Depth {
            lowest: STACK_END,
            first,
            last,
            lowest_own: u64::MAX,
            highest_own: 0,
        }
    }

    /// Notes the value of `sp` after an event, which may have begun an address.
    #[inline]
    pub(crate) fn note(&mut self, begun: bool, sp: u64)
        ensures { self.new ≡ with_sp self.old begun sp }
    {
        if begun {
            return;
        }
        if STACK_START <= sp {
            self.lowest = lower(self.lowest, sp);
        } else if self.first <= sp && sp <= self.last {
            self.lowest_own = lower(self.lowest_own, sp);
            self.highest_own = higher(self.highest_own, sp);
        }
    }

    /// The most bytes that `sp` has left below the end of the platform's stack, or below its highest value among the
    /// variables.
    pub(crate) fn deepest(&self) -> u64
        ensures { result
            ≡ higher_of (stack_end - self.now.lowest) (self.now.highest_own - self.now.lowest_own) }
    {
        let own = self.highest_own.saturating_sub(self.lowest_own);
        higher(STACK_END.saturating_sub(self.lowest), own)
    }
}

/// The first address of an image's writable segments, and the one after the last.
fn variables_of(image: &Image) -> (u64, u64) {
    let mut start = u64::MAX;
    let mut end = 0;
    for segment in &image.segments {
        if segment.flags & 2 != 0 {
            start = start.min(segment.address);
            end = end.max(segment.address.saturating_add(segment.bytes.len() as u64));
        }
    }
    (start, end)
}
