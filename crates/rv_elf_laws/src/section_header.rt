//! Section headers.

/// A section header: what a section is, and where its contents stand (gABI, "Sections").
#[derive(Clone, Copy, Drop)]
pub struct SectionHeader {
    /// The offset of its name in the section of names, in bytes.
    pub sh_name: u32,
    /// What it is: `SHT_PROGBITS`, `SHT_SYMTAB` and the others.
    pub sh_type: u32,
    /// How it is used: the sum of `SHF_WRITE`, `SHF_ALLOC`, `SHF_EXECINSTR` and others.
    pub sh_flags: u64,
    /// The address of its first byte in memory; 0 in objects.
    pub sh_addr: u64,
    /// The offset of its contents in the file, in bytes.
    pub sh_offset: u64,
    /// Its size, in bytes.
    pub sh_size: u64,
    /// The index of a section that it needs: of relocations the symbols, of symbols their names.
    pub sh_link: u32,
    /// Of relocations the index of the section that they change; of symbols that of the first which is not local.
    pub sh_info: u32,
    /// Its alignment, in bytes; 0 and 1 are none.
    pub sh_addralign: u64,
    /// The size of a record in it, in bytes; 0 where it has none.
    pub sh_entsize: u64,
}
