//! The kinds of words that have a colour of their own, and their colours: those of GNU objdump.

ghost use Rattle.std.specs.Prelude.{[]};
ghost use Rattle.rv_system.specs.Painting.{IsPainting};

/// What a word of a listing is.
#[derive(Clone, Copy, Drop)]
pub(crate) enum Kind {
    /// Blanks, commas, comments, texts in quotes and other words.
    Plain,
    /// The name of an instruction or a directive.
    Mnemonic,
    /// A register, by its number or its ABI name.
    Register,
    /// A number, an address or the bytes of an instruction.
    Number,
    /// The name of a place.
    Symbol,
}

impl Kind {
    #[tactic(auto, using(crate::proofs::PaintingLemmas::none_painted, crate::proofs::PaintingLemmas::green, crate::proofs::PaintingLemmas::yellow, crate::proofs::PaintingLemmas::blue, crate::proofs::PaintingLemmas::magenta))]
    /// The escape before a word of the kind.
    pub(crate) fn colour(self) -> &'static [u8]
        ensures { IsPainting result.now [] }
    {
        match self {
            Kind::Plain => b"",
            Kind::Symbol => b"\x1b[32m",
            Kind::Mnemonic => b"\x1b[33m",
            Kind::Register => b"\x1b[34m",
            Kind::Number => b"\x1b[35m",
        }
    }

    #[tactic(auto, using(crate::proofs::PaintingLemmas::none_painted, crate::proofs::PaintingLemmas::plain_again))]
    /// The escape after it: the colour of plain text again.
    pub(crate) fn end(self) -> &'static [u8]
        ensures { IsPainting result.now [] }
    {
        match self {
            Kind::Plain => b"",
            _ => b"\x1b[0m",
        }
    }
}
