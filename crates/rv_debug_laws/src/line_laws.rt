//! What holds of units and their tables.

ghost use Rattle.std.specs.Prelude.{◌≡◌, ℕ, ◌++◌, List, Some};
ghost use Rattle.rv_debug_laws.specs.LineProgram.{line_table};
ghost use Rattle.rv_debug_laws.specs.LineUnit.{IsUnit, header, program_of, table_at, unit_of};
ghost use Rattle.rv_debug_laws.specs.Worked.{other_section, other_table, riscv_section, riscv_table};
ghost use Rattle.rv_debug_laws.specs.declared.line_row.SourceFile.{SourceFile as AnyFile};

/// The lengths of a unit lead past it to what follows, and within it to its program, which is read with its own header.
pub fn lengths_are_right()
    ensures unit { (unit directory program rest : List ℕ) (files : List AnyFile) →
        IsUnit unit directory files program → unit_of (unit ++ rest) ≡ unit }
    ensures program { (unit directory program : List ℕ) (files : List AnyFile) →
        IsUnit unit directory files program → program_of unit ≡ program }
    ensures table { (unit directory program rest : List ℕ) (files : List AnyFile) →
        IsUnit unit directory files program
        → table_at (unit ++ rest) ≡ line_table header program }
{}

/// Sections that GNU as made mean here what GNU readelf reads in them.
pub fn sections_are_read()
    ensures riscv { table_at riscv_section ≡ Some riscv_table }
    ensures other { table_at other_section ≡ Some other_table }
{}
