//! How targets are shown.

/// How the targets of branches and jumps are shown.
#[derive(Clone, Copy, Drop)]
pub enum Targets {
    /// By their addresses, from that of the instruction: `0x10004`.
    Addresses(u64),
    /// By how far they are from the instruction: `.+4`.
    Distances,
}
