//! Runs of programs on the board `virt`: RAM, a 16550 UART and QEMU's test device.
//!
//! It takes an image that lies in RAM, streams and a limit, and reads and writes the streams as the program reads and writes
//! the UART. The machine of `rv_machine` runs as it does without a board. Where memory refuses a load or a store, so that
//! a run would end, a device that stands at the address answers it, and the machine runs on behind it: an access that memory
//! allows costs nothing more.
//!
//! Main contract: `run_virt` reads, writes and ends as `virt_run` of `rv_board_laws` says, for what was read and, unless a
//! take gave nothing, for every input that begins with it. It must not know sources, maps or files.
//!
//! ```text
//! if lie_in_ram(image.segments.as_slice()) {
//!     let end = run_virt(alloc, image, &mut Io::new(reader), &mut Io::new(writer), limit)?;
//! }
//! ```
//!
//! Source: National Semiconductor, PC16550D data sheet, "Registers"; QEMU, hw/char/serial.c, hw/misc/sifive_test.c and
//! hw/riscv/virt.c.
#![tactic(auto)]

mod answering;
mod device;
mod ram;
mod running;

pub use ram::{RAM_END, RAM_START, lie_in_ram, with_ram};
pub use running::run_virt;
