//! Lines for the simulator itself: `monitor stats` and `monitor limit N`.

ghost use Rattle.std.specs.Prelude.{◌≡◌};

use crate::session::Session;
use rv_gdb_packets::{bytes_of, put_bytes, put_error, put_ok};
use std::alloc::{AllocError, Global};
use std::str::from_utf8;

/// What is said of a line that is not known.
const HELP: &str =
    "monitor stats: where the run stands\nmonitor limit N: stop after N instructions\n";

/// The number that a text spells in decimal digits.
fn decimal(text: &str) -> Option<u64> {
    text.parse::<u64>().ok()
}

impl Session {
    /// Does what a line asks, which is given in pairs of digits.
    pub(crate) fn put_monitor(
        &mut self,
        reply: &mut Vec<u8>,
        digits: &[u8],
    ) -> Result<(), AllocError>
        ensures { self.new.draft ≡ self.old.draft }
    {
        let alloc: Global = self.alloc;
        let Some(line) = bytes_of(alloc, digits)? else {
            return put_error(reply);
        };
        let Ok(line) = from_utf8(line.as_slice()) else {
            return put_error(reply);
        };
        if line == "stats" {
            return put_bytes(reply, self.stats()?.as_bytes());
        }
        if let Some(number) = line.strip_prefix("limit ") {
            if let Some(limit) = decimal(number) {
                self.limit = limit;
                return put_ok(reply);
            }
        }
        put_bytes(reply, HELP.as_bytes())
    }

    /// Where the run stands.
    fn stats(&self) -> Result<String, AllocError> {
        let alloc: Global = self.alloc;
        let count = self.count();
        let begun = if self.is_written {
            " from where gdb wrote a value, which began a new run"
        } else {
            " from the start"
        };
        let limit = self.limit;
        format!(in alloc; "{count} instructions{begun}, limit {limit}\n")
    }
}
