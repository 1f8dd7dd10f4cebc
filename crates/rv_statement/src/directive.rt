//! The names of the sections that have a directive of their own.
//!
//! Source: GNU as, "Pseudo Ops" and "RISC-V-Directives".

ghost use Rattle.std.specs.Prelude.{◌≡◌};
ghost use Rattle.rv_statement_laws.specs.Sections.{standard_name};

use rv_statement_laws::Standard;

/// The name of a section that has a directive of its own.
pub fn section_name(section: Standard) -> &'static [u8]
    ensures { result.now ≡ standard_name section }
{
    match section {
        Standard::Text => b".text",
        Standard::Data => b".data",
        Standard::Rodata => b".rodata",
        Standard::Bss => b".bss",
    }
}
