//! Relocations with addends.

/// A relocation with an addend: what a place gets once addresses are known (gABI, "Relocation").
#[derive(Clone, Copy, Drop)]
pub struct Rela {
    /// The offset of the place in its section, in bytes.
    pub r_offset: u64,
    /// What is computed and where it is written: the lower half of `r_info`.
    pub r_type: u32,
    /// The index of its symbol: the upper half of `r_info`.
    pub r_sym: u32,
    /// The number that is added to the symbol's.
    pub r_addend: i64,
}
