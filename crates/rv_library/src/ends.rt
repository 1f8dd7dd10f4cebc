//! How a run ended, in numbers.

ghost use Rattle.std.specs.Prelude.{◌≡◌};
ghost use Rattle.rv_library.specs.Ends.{address_or_zero, code_or_zero, end_kind, end_numbers};

use rv_machine::End;

/// How a run ended: `struct rv_end`.
#[repr(C)]
#[derive(Drop)]
pub struct Ended {
    /// That of the instruction, or the first of the access; 0 where the end has none.
    pub address: u64,
    /// Which end it was.
    pub kind: u32,
    /// The code of an exit, else 0.
    pub code: u32,
}

/// How a run ended, in numbers.
pub(crate) fn end_of(end: End) -> Ended
    ensures { result ≡ end_numbers end }
{
    Ended {
        address: address_or_zero(end),
        kind: end_kind(end),
        code: code_or_zero(end),
    }
}

/// The address of an end, or 0.
fn address_or_zero(end: End) -> u64
    ensures { result ≡ address_or_zero end }
{
    match end.address() {
        Some(address) => address,
        None => 0,
    }
}

/// The number of an end.
fn end_kind(end: End) -> u32
    ensures { result ≡ end_kind end }
{
    match end {
        End::Exited(_) => 0,
        End::Limit => 1,
        End::Breakpoint => 2,
        End::Illegal(_) => 3,
        End::FetchOutside(_) => 4,
        End::LoadText(_) => 5,
        End::LoadOutside(_) => 6,
        End::StoreText(_) => 7,
        End::StoreOutside(_) => 8,
        End::MisalignedAtomic(_) => 9,
    }
}

/// The code of an exit, or 0.
fn code_or_zero(end: End) -> u32
    ensures { result ≡ code_or_zero end }
{
    match end {
        End::Exited(code) => u32::from(code),
        _ => 0,
    }
}
