//! What headers of sections say.

ghost use Rattle.std.specs.Prelude.{◌≡◌, ◌==◌, ◌||◌};
ghost use Rattle.rv_object_laws.specs.Valid.{is_section_alignment};
ghost use Rattle.rv_object_file_laws.specs.FirstFault.{is_unsupported};
ghost use Rattle.rv_object_file_laws.specs.Parts.{is_loaded, is_executable, is_symbol_table, is_rela};

use rv_elf::{
    SHF_ALLOC, SHF_EXECINSTR, SHT_GROUP, SHT_NOBITS, SHT_NOTE, SHT_PROGBITS, SHT_RELA, SHT_SYMTAB,
};
use rv_elf_laws::SectionHeader;

/// Whether the section has a place in memory.
pub(crate) fn is_loaded(header: &SectionHeader) -> bool
    ensures { result ≡ is_loaded header.now }
{
    header.sh_flags / SHF_ALLOC % 2 == 1
}

/// Whether the section has instructions.
pub(crate) fn is_executable(header: &SectionHeader) -> bool
    ensures { result ≡ is_executable header.now }
{
    header.sh_flags / SHF_EXECINSTR % 2 == 1
}

/// Whether the section has symbols.
pub(crate) fn is_symbol_table(header: &SectionHeader) -> bool
    ensures { result ≡ is_symbol_table header.now }
{
    header.sh_type == SHT_SYMTAB
}

/// Whether the section has relocations.
pub(crate) fn is_rela(header: &SectionHeader) -> bool
    ensures { result ≡ is_rela header.now }
{
    header.sh_type == SHT_RELA
}

/// Whether the section is loaded, or a group, and of a type that the linker has not.
pub(crate) fn is_unsupported(header: &SectionHeader) -> bool
    ensures { result ≡ is_unsupported header.now }
{
    let known = header.sh_type == SHT_PROGBITS
        || header.sh_type == SHT_NOTE
        || header.sh_type == SHT_NOBITS;
    header.sh_type == SHT_GROUP || is_loaded(header) && !known
}

/// Whether the section may begin at a multiple of this many bytes: 0, or a power of two up to 4096.
pub(crate) fn is_aligned(alignment: u64) -> bool
    ensures { result ≡ (alignment == 0 || is_section_alignment alignment) }
{
    matches!(
        alignment,
        0 | 1 | 2 | 4 | 8 | 16 | 32 | 64 | 128 | 256 | 512 | 1024 | 2048 | 4096
    )
}
