//! The numbers of the System V gABI and the RISC-V ELF psABI, under their names there.

/// The first four bytes of a file as one number, the lowest byte first: 7Fh `ELF`.
pub(crate) const ELFMAG: u32 = 0x464C_457F;
/// `e_ident`: the class of 64 bits.
pub(crate) const ELFCLASS64: u8 = 2;
/// `e_ident`: little-endian data.
pub(crate) const ELFDATA2LSB: u8 = 1;

/// `e_type`: a relocatable object.
pub const ET_REL: u16 = 1;
/// `e_type`: an executable.
pub const ET_EXEC: u16 = 2;

/// `e_machine`: RISC-V.
pub const EM_RISCV: u16 = 243;
/// `e_version`, and the version in `e_ident`.
pub const EV_CURRENT: u32 = 1;
/// `e_flags`: there are compressed instructions.
pub const EF_RISCV_RVC: u32 = 1;

/// `e_phnum`: the count stands elsewhere.
pub(crate) const PN_XNUM: u16 = 0xFFFF;

/// `sh_type`: no section.
pub const SHT_NULL: u32 = 0;
/// `sh_type`: bytes whose meaning is the program's own.
pub const SHT_PROGBITS: u32 = 1;
/// `sh_type`: symbols.
pub const SHT_SYMTAB: u32 = 2;
/// `sh_type`: strings, each with a zero byte after it.
pub const SHT_STRTAB: u32 = 3;
/// `sh_type`: relocations with addends.
pub const SHT_RELA: u32 = 4;
/// `sh_type`: notes.
pub const SHT_NOTE: u32 = 7;
/// `sh_type`: zeros, of which the file has no bytes.
pub const SHT_NOBITS: u32 = 8;
/// `sh_type`: a group of sections.
pub const SHT_GROUP: u32 = 17;

/// `sh_flags`: it can be written.
pub const SHF_WRITE: u64 = 1;
/// `sh_flags`: it is loaded.
pub const SHF_ALLOC: u64 = 2;
/// `sh_flags`: it has instructions.
pub const SHF_EXECINSTR: u64 = 4;

/// `st_shndx`: the symbol is not defined here.
pub const SHN_UNDEF: u16 = 0;
/// Indices of sections from here on have other meanings.
pub(crate) const SHN_LORESERVE: u16 = 0xFF00;
/// `st_shndx`: the symbol's value is a number, and no address.
pub const SHN_ABS: u16 = 0xFFF1;

/// The upper half of `st_info`: no other object sees the symbol.
pub const STB_LOCAL: u8 = 0;
/// The upper half of `st_info`: all objects see the symbol.
pub const STB_GLOBAL: u8 = 1;
/// The upper half of `st_info`: all objects see the symbol, which gives way to a global one.
pub const STB_WEAK: u8 = 2;

/// `p_type`: what is loaded.
pub const PT_LOAD: u32 = 1;
/// `p_type`: what dynamic linking needs.
pub const PT_DYNAMIC: u32 = 2;
/// `p_type`: the name of a program that loads this one.
pub const PT_INTERP: u32 = 3;
/// `p_type`: what each thread has of its own.
pub const PT_TLS: u32 = 7;

/// `p_flags`: it can be executed.
pub const PF_X: u32 = 1;
/// `p_flags`: it can be written.
pub const PF_W: u32 = 2;
/// `p_flags`: it can be read.
pub const PF_R: u32 = 4;
