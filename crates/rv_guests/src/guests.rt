//! What the program asks of a system that runs guests.

ghost use Rattle.std.specs.Prelude.{◌≡◌, true, map};
ghost use Rattle.rv_image.specs.SegmentView.{segment_of};
ghost use Rattle.rv_board_laws.specs.Virt.{lie_in_ram, ram_start};

use rv_image::Image;
use rv_machine::{End, RunFault, WatchFault, Watched, Watcher};
use rv_memory::Paged;
use rv_system::System;

/// Where a guest's input comes from.
#[derive(Clone, Copy)]
pub enum GuestInput {
    Standard,
    Empty,
}

/// Where what a guest writes goes.
#[derive(Clone, Copy)]
pub enum GuestOutput {
    Standard,
    Errors,
}

/// A system that runs guests, which read and write its standard streams as they ask.
pub trait Guests: System {
    /// Runs an image, at most `limit` instructions.
    fn run(&mut self, image: Image, input: GuestInput, limit: u64) -> Result<End, RunFault>;

    /// Runs an image in RAM on the board `virt`, at most `limit` instructions.
    fn run_on_board(&mut self, image: Image, input: GuestInput, limit: u64) -> Result<End, RunFault>
        requires { lie_in_ram ram_start (map segment_of image.segments.items) ≡ true };

    /// Runs a machine as `run` does, but for where it writes, and has a watcher look at each step.
    fn watch<T: Watcher<Paged>>(
        &mut self,
        machine: &mut Watched<Paged>,
        input: GuestInput,
        output: GuestOutput,
        watcher: &mut T,
        limit: u64,
    ) -> Result<End, WatchFault>;
}
