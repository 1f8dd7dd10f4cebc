//! The names of symbols and sections.

ghost use Rattle.std.specs.Prelude.{[], ◌∷◌, ◌++◌, map, codes, IfOk};
ghost use Rattle.rv_object_types.specs.Parts.{symbol_of};
ghost use Rattle.rv_object_laws.specs.Object.{Symbol as SaidSymbol};
ghost use Rattle.rv_object_file_laws.specs.Written.{strings_of, UnplacedSection as SaidPiece};
ghost use Rattle.rv_object_writer.specs.Pieces.{piece_of};
ghost use Rattle.rv_object_writer.specs.Strings.{IsStringTable};

use crate::piece::Piece;
use crate::strings::StringTable;
use rv_object_types::Symbol;
use std::alloc::{AllocError, Global};

/// The name of the section with the names of sections.
pub(crate) const SECTION_NAMES: &[u8] = b".shstrtab";

/// The names of symbols.
pub(crate) fn symbol_names<'o>(
    alloc: Global,
    symbols: &'o [Symbol<'o>],
) -> Result<StringTable<'o>, AllocError>
    ensures { IfOk result (λ t. IsStringTable
        (strings_of (map (λ (s : SaidSymbol). s.name) (map symbol_of symbols.now))) t) }
{
    let mut names = StringTable::new(alloc)?;
    for symbol in symbols {
        names.put(symbol.name)?;
    }
    Ok(names)
}

/// The names of sections, with that of the section of these names at the end.
pub(crate) fn section_names<'p>(
    alloc: Global,
    pieces: &[Piece<'p>],
) -> Result<StringTable<'p>, AllocError>
    ensures { IfOk result (λ t. IsStringTable
        (strings_of (map (λ (p : SaidPiece). p.name) (map piece_of pieces.now)
        ++ codes ".shstrtab" ∷ [])) t) }
{
    let mut names = StringTable::new(alloc)?;
    for piece in pieces {
        names.put(piece.name)?;
    }
    names.put(b".shstrtab")?;
    Ok(names)
}
