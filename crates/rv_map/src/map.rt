//! A map as the linker makes it.

ghost use Rattle.std.specs.Prelude.{IsTrue};
ghost use Rattle.rv_map_laws.specs.Name.{is_name};

use rv_map_laws::{Region, Row, SectionId};

/// A global name and its address.
#[derive(Drop)]
pub struct Global {
    /// The bytes of the name.
    pub name: Vec<u8>,
    /// The address in memory.
    pub address: u64,
    /// A name has one byte or more, all of 21h to 7Eh.
    pub ghost named: { IsTrue (is_name name.items) },
}

/// The map of an executable.
#[derive(Drop)]
pub struct Map {
    /// The instructions.
    pub text: Region,
    /// The constants.
    pub rodata: Region,
    /// The variables, but for those that begin as zeros.
    pub data: Region,
    /// The variables that begin as zeros.
    pub bss: Region,
    /// The address at which a run begins.
    pub entry: u64,
    /// The parts of the text between its sections, which hold zeros.
    pub gaps: Vec<Region>,
    /// The global names, in the order of the map's text.
    pub globals: Vec<Global>,
    /// The sections with an address that collection dropped, by file and number.
    pub drops: Vec<SectionId>,
    /// The statements that have an address, by file and ordinal.
    pub rows: Vec<Row>,
}
