//! The numbers of types (ELF64_ST_TYPE).

ghost use Rattle.std.specs.Prelude.{◌≡◌, ◌<◌};
ghost use Rattle.rv_debug_laws.specs.Symbols.{type_number};
ghost use Rattle.rv_table_names.specs.Tables as laws;

use rv_labels::SymbolType;

/// The number of a type: STT_NOTYPE, STT_OBJECT, STT_FUNC.
pub fn type_number(kind: SymbolType) -> u8
    ensures is { result ≡ type_number kind }
    ensures low { result < 16 }
{
    match kind {
        SymbolType::NoType => 0,
        SymbolType::Datum => 1,
        SymbolType::Function => 2,
    }
}

/// The type of a number; none of one that is no name's.
pub(crate) fn type_numbered(number: u8) -> Option<SymbolType>
    ensures { result ≡ laws.type_numbered number }
{
    match number {
        0 => Some(SymbolType::NoType),
        1 => Some(SymbolType::Datum),
        2 => Some(SymbolType::Function),
        _ => None,
    }
}
