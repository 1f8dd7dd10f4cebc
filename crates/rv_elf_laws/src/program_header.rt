//! Program headers.

/// A program header: what of a file stands where in memory (gABI, "Program Header").
#[derive(Clone, Copy, Drop)]
pub struct ProgramHeader {
    /// What it is: `PT_LOAD` for what is loaded.
    pub p_type: u32,
    /// Its rights: the sum of `PF_X`, `PF_W` and `PF_R`.
    pub p_flags: u32,
    /// The offset of its contents in the file, in bytes.
    pub p_offset: u64,
    /// The address of its first byte in memory.
    pub p_vaddr: u64,
    /// The physical address, where that matters.
    pub p_paddr: u64,
    /// How many bytes the file has of it.
    pub p_filesz: u64,
    /// How many bytes of memory it has; those that the file has not are zeros.
    pub p_memsz: u64,
    /// Its alignment, in bytes.
    pub p_align: u64,
}
