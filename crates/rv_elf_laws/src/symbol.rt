//! Symbols.

/// A symbol: a name for a place or a number (gABI, "Symbol Table").
#[derive(Clone, Copy, Drop)]
pub struct Symbol {
    /// The offset of its name in the section of names, in bytes; 0 where it has none.
    pub st_name: u32,
    /// Its binding, times 16, and its type: `STB_LOCAL`, `STB_GLOBAL`, `STB_WEAK`.
    pub st_info: u8,
    /// How far it is seen.
    pub st_other: u8,
    /// The index of its section, or `SHN_UNDEF`, `SHN_ABS` or another of the indices from FF00h on.
    pub st_shndx: u16,
    /// In an object its offset in its section, in bytes, or its number.
    pub st_value: u64,
    /// The size of what it names, in bytes; 0 where none is known.
    pub st_size: u64,
}
