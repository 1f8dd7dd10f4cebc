//! Boards: a machine with devices, which answer the loads and stores that memory refuses.
//!
//! It takes the runs of `rv_isa_laws` and the images of `rv_image_laws`, and gives [`Device`](../specs/Device.antt), what a
//! load and a store do there; `run_on`, the run with a table of devices; [`Platform`](../specs/Platform.antt), all that a
//! program finds beside its own memory, with `machine_run_on`, the run of an image on one; and
//! [`Virt`](../specs/Virt.antt), QEMU's machine `virt` as far as a program without interrupts meets it.
//!
//! Main contracts: a table of nothing gives the run without devices (`run_without_devices`), and whatever that run does
//! before memory refuses it, a run with devices does as well (`step_goes_on`); the usual run is that on the stack alone
//! (`stack_alone_is_usual`), and the board's that on `virt_platform` (`virt_is_a_platform`). It must not know how a device
//! is answered, nor sources: `rv_runs_theorems` compares runs on platforms with those of sources.
//!
//! ```text
//! loaded (virt a) m a n next          -- what n bytes at a device are, and what comes of it
//! step_on virt reader h m             -- a step, whose loads and stores may be answered
//! machine_run_on q reader image input n       -- at most n steps of a program on a platform
//! virt_run reader image input n       -- at most n steps of a program on the board
//! ```
//!
//! Nothing here runs.
//!
//! Source: National Semiconductor, PC16550D data sheet, "Registers"; QEMU, hw/char/serial.c, hw/misc/sifive_test.c and
//! hw/riscv/virt.c.
#![tactic(auto)]

mod laws;

pub use laws::{
    console_stays, run_without_devices, stack_alone_is_usual, step_goes_on, virt_is_a_platform,
};
