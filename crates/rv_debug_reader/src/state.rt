//! The state of the machine whose programs line tables are (DWARF 5, 6.2.2).

ghost use Rattle.std.specs.Prelude.{◌<◌};

/// The fields of a program's header that say what opcodes mean.
#[derive(Clone, Copy, Drop)]
pub(crate) struct Header {
    pub(crate) minimum_instruction_length: u8,
    pub(crate) default_is_stmt: bool,
    pub(crate) line_base: i8,
    pub(crate) line_range: u8,
    pub(crate) opcode_base: u8,
    pub(crate) ghost divides: { 0 < line_range },
}

/// The registers that say which code is of which line.
#[derive(Clone, Copy, Drop)]
pub(crate) struct Registers {
    pub(crate) address: u64,
    pub(crate) file: u64,
    pub(crate) line: u64,
    pub(crate) is_stmt: bool,
}

/// What an instruction appends to the table: a row of the registers, or the first address after a sequence.
#[derive(Clone, Copy, Drop)]
pub(crate) enum Entry {
    Row(Registers),
    End(u64),
}

/// What an instruction does.
#[derive(Clone, Copy, Drop)]
pub(crate) struct Step {
    pub(crate) registers: Registers,
    pub(crate) entry: Option<Entry>,
    /// How many bytes behind the opcode it takes.
    pub(crate) taken: usize,
}
