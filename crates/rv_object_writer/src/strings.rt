//! Tables of names.
//!
//! Names are looked up in an `indexmap`, so that each string is in the table once and no name is searched for.

ghost use Rattle.std.specs.Prelude.{◌≡◌, ℕ, List, [], ◌∷◌, IfOk, OnOk};
ghost use Rattle.rv_object_file_laws.specs.Written.{offset_in};

use indexmap::IndexMap;
use std::alloc::{AllocError, Global};

/// Names, each once, in the order of their first uses; the empty one comes first.
#[derive(Drop)]
pub(crate) struct StringTable<'n> {
    /// The names, each with a zero byte behind it.
    bytes: Vec<u8>,
    /// The offsets of the names in these bytes.
    offsets: IndexMap<&'n [u8], u64>,
}

impl<'n> StringTable<'n> {
    ghost use Rattle.rv_object_writer.specs.Strings.{IsStringTable, with_string, terminated};

    /// A table of the empty name.
    pub(crate) fn new(alloc: Global) -> Result<Self, AllocError>
        ensures { IfOk result (λ t. IsStringTable ([] ∷ []) t) }
    {
        let mut strings = StringTable {
            bytes: Vec::new(alloc),
            offsets: IndexMap::new(alloc),
        };
        strings.put(b"")?;
        Ok(strings)
    }

    /// Adds a name, unless it is there.
    pub(crate) fn put(&mut self, name: &'n [u8]) -> Result<(), AllocError>
        ensures { OnOk result ((strings : List (List ℕ)) → IsStringTable strings self.old
            → IsStringTable (with_string strings name.now) self.new) }
    {
        if self.offsets.get(&name).is_some() {
            return Ok(());
        }
        let offset = self.bytes.len() as u64;
        self.bytes.extend_from_slice(name)?;
        self.bytes.push(0)?;
        self.offsets.insert(name, offset)?;
        Ok(())
    }

    /// The offset of a name; of one that is not there, that of the end.
    pub(crate) fn offset(&self, name: &[u8]) -> u64
        ensures { (strings : List (List ℕ)) → IsStringTable strings self.now
            → result ≡ offset_in strings name.now }
    {
        match self.offsets.get(&name) {
            Some(offset) => *offset,
            None => self.bytes.len() as u64,
        }
    }

    /// The names, each with a zero byte behind it.
    pub(crate) fn bytes(&self) -> &[u8]
        ensures { (strings : List (List ℕ)) → IsStringTable strings self.now
            → result.now ≡ terminated strings }
    {
        self.bytes.as_slice()
    }

    /// The same, without the table.
    pub(crate) fn into_bytes(self) -> Vec<u8>
        ensures { (strings : List (List ℕ)) → IsStringTable strings self.entry
            → result.items ≡ terminated strings }
    {
        let StringTable { bytes, offsets } = self;
        drop(offsets);
        bytes
    }
}
