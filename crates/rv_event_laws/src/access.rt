//! What a step reads, writes and sets, as definitions and code share it.

use rv_isa::Reg;

/// Bytes of memory as a number.
#[derive(Clone, Copy, Drop)]
pub struct Access {
    pub address: u64,
    /// 1, 2, 4 or 8.
    pub bytes: u64,
    pub number: u64,
}

/// A register and its new value.
#[derive(Clone, Copy, Drop)]
pub struct Setting {
    pub register: Reg,
    pub value: u64,
}
