//! The header of a file.

/// The header of a file, but for `e_ident`, which is the same in all files of this machine (gABI, "ELF Header").
#[derive(Clone, Copy, Drop)]
pub struct FileHeader {
    /// What the file is: `ET_REL`, `ET_EXEC`.
    pub e_type: u16,
    /// The machine: `EM_RISCV`.
    pub e_machine: u16,
    /// The version of the format: `EV_CURRENT`.
    pub e_version: u32,
    /// The address at which a program begins; 0 where it has none.
    pub e_entry: u64,
    /// The offset of the program headers in the file, in bytes; 0 where there are none.
    pub e_phoff: u64,
    /// The offset of the section headers in the file, in bytes; 0 where there are none.
    pub e_shoff: u64,
    /// The machine's flags: `EF_RISCV_RVC`.
    pub e_flags: u32,
    /// The size of this header, in bytes.
    pub e_ehsize: u16,
    /// The size of a program header, in bytes.
    pub e_phentsize: u16,
    /// How many program headers there are.
    pub e_phnum: u16,
    /// The size of a section header, in bytes.
    pub e_shentsize: u16,
    /// How many section headers there are.
    pub e_shnum: u16,
    /// The index of the section with the names of sections; 0 where there is none.
    pub e_shstrndx: u16,
}
