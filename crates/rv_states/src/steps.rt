//! How many instructions a run begins.

ghost use Rattle.std.specs.Prelude.{◌≡◌, ◌%◌, ◌^◌, length};

use rv_machine::{Look, ShowFault, Step, Watched, Watcher};
use rv_memory::Memory;

/// How many instructions a run has begun, modulo 2^64.
#[derive(Drop)]
pub struct Steps {
    pub count: u64,
}

impl<M: Memory> Watcher<M> for Steps {
    ghost has_seen = { λ steps seen. steps.count ≡ length seen % 2 ^ 64 };

    #[inline]
    fn before(&mut self, _: &Look, _: &Watched<M>) -> Result<(), ShowFault> {
        Ok(())
    }

    #[inline]
    fn after(&mut self, _: &Step, _: &Watched<M>) -> Result<(), ShowFault> {
        self.count = self.count.wrapping_add(1);
        Ok(())
    }
}
