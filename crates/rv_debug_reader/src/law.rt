//! That a table of the standard's machine is read as it is.

ghost use Rattle.std.specs.Prelude.{◌≡◌, ℕ, List, Some};
ghost use Rattle.rv_debug_laws.specs.LineProgram as program;
ghost use Rattle.rv_debug_laws.specs.LineProgram.{Header, Entry};
ghost use Rattle.rv_debug_reader.specs.Table as laws;

/// A program that has a table by the standard's instructions of addresses and lines alone has the same table here.
#[tactic(auto, using(crate::proofs::WiderLemmas::wider_table))]
pub fn wider_tables()
    ensures { (h : Header) (bytes : List ℕ) (table : List Entry)
        → program.line_table h bytes ≡ Some table → laws.line_table h bytes ≡ Some table }
{}
