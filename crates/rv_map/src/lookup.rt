//! Finds rows.

ghost use Rattle.std.specs.Prelude.{◌≡◌, option_map};
ghost use Rattle.std.specs.List.{find};
ghost use Rattle.rv_map_laws.specs.Lookup.{starts_at};

use crate::map::Map;
use rv_map_laws::Row;

impl Map {
    /// The first row with more than 0 bytes that starts at the address.
    pub fn row_at(&self, address: u64) -> Option<&Row>
        ensures { option_map (λ row. row.now) result
            ≡ find (starts_at address) self.now.rows.items }
    {
        self.rows
            .iter()
            .find(|row| row.address == address && row.bytes > 0)
    }
}
