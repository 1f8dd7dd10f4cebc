//! A name with what is known of it.

ghost use Rattle.std.specs.Prelude.{IsTrue};
ghost use Rattle.rv_map_laws.specs.Name.{is_name};

use rv_debug_laws::SymbolType;

/// A name with its address, its type, and how many bytes it has.
#[derive(Clone, Copy, Drop)]
pub struct KnownName<'a> {
    /// The bytes of the name.
    pub name: &'a [u8],
    /// The address in memory.
    pub address: u64,
    pub kind: SymbolType,
    /// 0 where it is not known.
    pub size: u64,
    /// A map can show the name.
    pub ghost named: { IsTrue (is_name name.now) },
}

/// The names of an executable, lent by its objects and by its map.
#[derive(Drop)]
pub struct Names<'o, 'm> {
    /// The labels, which are no globals.
    pub labels: Vec<KnownName<'o>>,
    /// The globals of its map, in their order.
    pub globals: Vec<KnownName<'m>>,
}
