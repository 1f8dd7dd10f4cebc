//! The code of a statement.

ghost use Rattle.std.specs.Prelude.{◌≡◌};
ghost use Rattle.rv_draft.specs.Code.{size_bytes, size_instructions};

use rv_object_types::operations;

/// How large the code of a statement is: of an instruction, and of an alignment in a section of code;
/// what else there is has none.
#[derive(Clone, Copy, Drop)]
pub(crate) struct CodeSize {
    /// The bytes of its padding.
    pub(crate) padding: u16,
    /// The bytes of its parts: it has at most 8, of at most 8 bytes.
    pub(crate) bytes: u8,
    /// How many instructions its parts are.
    pub(crate) instructions: u8,
}

// one for each statement, while items are made from them
const _: () = prove!(size_of::<CodeSize>() <= 4);

impl CodeSize {
    /// All its bytes.
    pub(crate) fn bytes(self) -> u32
        ensures { result ≡ size_bytes self }
    {
        u32::from(self.padding) + u32::from(self.bytes)
    }

    /// How many instructions all its bytes are.
    pub(crate) fn instructions(self) -> u16
        ensures { result ≡ size_instructions self }
    {
        operations(u32::from(self.padding)) as u16 + u16::from(self.instructions)
    }
}
